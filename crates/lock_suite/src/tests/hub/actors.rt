//! What a thread and a worker do at the hub.
ghost use Rattle.std.specs.Prelude.{◌<◌};
ghost use Rattle.lock_suite.specs.EnvironmentTurns.{MayEnter};

use super::{FUNCTION, LONG};
use async_work::Picked;
use hub_lock::Hub;
use napi_types::Mode;
use script_addon::ScriptJob;
use shared_hub::Naming;
use std::sync::Wait;
use std::thread::sleep;
use std::time::{Clock, Duration};
use turn_lock::Pass;

/// What it does. A worker works, whatever is said, where it does not rest.
#[derive(Clone, Copy, PartialEq, Eq)]
pub(super) enum Acts {
    /// A thread calls the function, and waits while its queue is full.
    Calls,
    /// A thread ends.
    Ends,
    /// A thread that was noted asleep ends once it is rung.
    Leaves,
    /// A thread that was noted asleep calls the function once it is rung.
    Retries,
    /// A worker executes one work, which takes long, or ends where works start no more.
    Works,
    /// It does nothing.
    Rests,
}

/// The actor that has this pass acts.
pub(super) fn act<N: Naming, R: Wait + Clock>(
    rt: &R,
    hub: &Hub<ScriptJob, N>,
    mut pass: Pass,
    threads: u32,
    acts: Acts,
)
    requires { MayEnter N.numbers threads hub.now pass }
{
    let number = pass.number();
    if acts == Acts::Rests {
        return;
    }
    if number > threads {
        work(rt, hub, pass);
        return;
    }
    if acts == Acts::Leaves || acts == Acts::Retries {
        hub.sleep(rt, number);
    }
    if acts == Acts::Calls || acts == Acts::Retries {
        let _reply = hub.call_tsfn(rt, &mut pass, 0, FUNCTION, 7, Mode::Blocking);
        return;
    }
    hub.actor_ends(rt, &mut pass, None);
}

/// A worker acts.
fn work<N: Naming, R: Wait + Clock>(rt: &R, hub: &Hub<ScriptJob, N>, mut pass: Pass)
    requires new { MayEnter N.numbers N.numbers.threads hub.now pass }
    requires more { N.numbers.threads < pass.number }
{
    match hub.start_work(rt, &mut pass) {
        Picked::Job(running) => {
            sleep(rt, Duration::from_millis(LONG));
            hub.finish_work(rt, &mut pass, running.execute());
        }
        Picked::Closing => hub.actor_ends(rt, &mut pass, None),
        Picked::Nothing => {}
    }
}
