//! Actors that have no thread of their own: the environment's thread gives them turns.
ghost use Rattle.std.specs.Prelude.{◌≡◌, true};
ghost use Rattle.std.specs.List.{All, AllZip};
ghost use Rattle.runner.specs.ActorsAtTheLock.{IsStray, IsSameStray, HasEndedStray};

use crate::actor::turn_at_the_lock;
use async_work::Job;
use env_loop::{ActorRun, ActorTurn};
use hub_lock::Hub;
use shared_hub::Naming;
use std::sync::Wait;
use turn_lock::Pass;

/// An actor that has no thread of its own, with its pass. Its run has to be spent.
pub struct Stray<J: Job> {
    pub actor: ActorRun<J>,
    pub pass: Pass,
}

/// One turn of one of them: it executes the work that it started, and makes its next entry. It never sleeps.
fn turn_stray<J: Job, N: Naming, R: Wait>(
    rt: &R,
    hub: &Hub<J, N>,
    stray: &mut Stray<J>,
) -> ActorTurn
    requires { IsStray N.numbers hub.now stray.old }
    ensures stray { IsStray N.numbers hub.now stray.new }
    ensures same { IsSameStray stray.old stray.new }
    ensures ended { result ≡ ActorTurn.Ended → HasEndedStray N.numbers stray.old stray.new }
{
    stray.actor.between();
    turn_at_the_lock(rt, hub, &mut stray.pass, &mut stray.actor, false, 1)
}

/// One turn of each, in order. It tells whether one of them made an entry.
pub(crate) fn turn_strays<J: Job, N: Naming, R: Wait>(
    rt: &R,
    hub: &Hub<J, N>,
    strays: &mut Vec<Stray<J>>,
) -> bool
    requires { All (IsStray N.numbers hub.now) strays.old.items }
    ensures strays { All (IsStray N.numbers hub.now) strays.new.items }
    ensures same { AllZip IsSameStray strays.old.items strays.new.items }
{
    let mut made = false;
    for place in 0..strays.len() {
        if turn_stray(rt, hub, &mut strays[place]) == ActorTurn::Made {
            made = true;
        }
    }
    made
}

/// Gives each of them turns until it has ended.
pub(crate) fn end_strays<J: Job, N: Naming, R: Wait>(
    rt: &R,
    hub: &Hub<J, N>,
    strays: &mut Vec<Stray<J>>,
)
    requires { All (IsStray N.numbers hub.now) strays.old.items }
    ensures { AllZip (HasEndedStray N.numbers) strays.old.items strays.new.items }
{
    for next in 0..strays.len() {
        end_stray(rt, hub, &mut strays[next]);
    }
}

/// Gives it turns until it has ended.
fn end_stray<J: Job, N: Naming, R: Wait>(rt: &R, hub: &Hub<J, N>, stray: &mut Stray<J>)
    requires { IsStray N.numbers hub.now stray.old }
    ensures stray { IsStray N.numbers hub.now stray.new }
    ensures ended { HasEndedStray N.numbers stray.old stray.new }
{
    for _ in rt.forever() {
        if turn_stray(rt, hub, stray) == ActorTurn::Ended {
            return;
        }
    }
    unreachable!()
}
