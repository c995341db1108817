//! The end of each actor's thread: its pass comes back.
ghost use Rattle.std.specs.Prelude.{◌≡◌, ℕ, ◌+◌, ◌≤◌, List, ◌∷◌, vec_capacity, vec_len};
ghost use Rattle.env_loop.specs.ActorTurns.{HoldsNoWork};
ghost use Rattle.env_loop.specs.declared.actor.ActorRun.{ActorRun};
ghost use Rattle.runner.specs.HandedBack.{KeepsActor};
ghost use Rattle.runner.specs.StartRoom.{Fills, IsGiven, IsEndedAt, IsBack, ComeBehind};
ghost use Rattle.runner.specs.declared.start.Child.{Child};
ghost use Rattle.runner.specs.declared.unstarted.Unstarted.{Unstarted};

use crate::actor::run_actor;
use crate::start::Child;
use crate::strays::Stray;
use crate::unstarted::{HandedBack, Unstarted};
use async_work::Job;
use hub_lock::Hub;
use napi_types::Gate;
use shared_hub::Naming;
use std::sync::Wait;
use std::thread::Threads;
use turn_lock::Pass;

/// Joins all threads, and takes the passes of the strays, which have ended: all passes come back in the order of their numbers.
pub(crate) fn join_all<J: Job, N: Naming, R: Threads + Wait, G: Gate>(
    rt: &R,
    hub: &Hub<J, N>,
    gate: &G,
    children: Vec<Child<J, N>>,
    strays: Vec<Stray<J>>,
    passes: &mut Vec<Pass>,
)
    requires fills { (actors : List (ActorRun J)) × Fills (IsEndedAt N.numbers hub.now) N.numbers hub.now 1 actors children.items strays.items }
    requires places { vec_len passes.old + vec_len children ≤ vec_capacity passes.old }
    ensures { (actors : List (ActorRun J)) → Fills (IsEndedAt N.numbers hub.now) N.numbers hub.now 1 actors children.items strays.items
        → ComeBehind N.numbers hub.now actors passes.old.items passes.new.items }
{
    let mut strays = strays;
    for child in children {
        let pass = join_one(rt, hub, gate, child, &mut strays);
        passes.push_reserved(pass);
    }
    strays.destroy_empty();
}

/// The pass of one actor, which has ended.
fn join_one<J: Job, N: Naming, R: Threads + Wait, G: Gate>(
    rt: &R,
    hub: &Hub<J, N>,
    gate: &G,
    child: Child<J, N>,
    strays: &mut Vec<Stray<J>>,
) -> Pass
    requires { (k : ℕ) × (actors : List (ActorRun J)) × (later : List (Child J N))
        × Fills (IsEndedAt N.numbers hub.now) N.numbers hub.now k actors (child ∷ later) strays.old.items }
    ensures { (k : ℕ) (actor : ActorRun J) (actors : List (ActorRun J)) (later : List (Child J N))
        → Fills (IsEndedAt N.numbers hub.now) N.numbers hub.now k (actor ∷ actors) (child ∷ later) strays.old.items
        → IsBack N.numbers hub.now k actor result
        × Fills (IsEndedAt N.numbers hub.now) N.numbers hub.now (k + 1) actors later strays.new.items }
{
    match child {
        Child::Runs(child) => ended_pass(rt, hub, gate, child.join(rt)),
        Child::Done(pass) => pass,
        Child::Stray => stray_pass(strays.remove(0)),
    }
}

/// The pass of an actor that came back. One of which no turn was made is run to its end first.
///
/// No thread that was started hands back such an actor, but no contract can tell so, since nothing is known of what a word contains.
fn ended_pass<J: Job, N: Naming, R: Wait, G: Gate>(
    rt: &R,
    hub: &Hub<J, N>,
    gate: &G,
    back: HandedBack,
) -> Pass
    requires { (k : ℕ) × (actor : ActorRun J) × (given : Unstarted) × IsGiven N.numbers hub.now k actor given × KeepsActor J N.numbers given back }
    ensures { (k : ℕ) (actor : ActorRun J) (given : Unstarted) → IsGiven N.numbers hub.now k actor given → KeepsActor J N.numbers given back
        → IsBack N.numbers hub.now k actor result }
{
    match back {
        HandedBack::Ran(pass) => pass,
        HandedBack::Unused(unstarted) => {
            let Unstarted { actor, mut pass } = unstarted;
            run_actor(rt, hub, &mut pass, actor.into_run::<J>(), gate);
            pass
        }
    }
}

/// The pass of a stray that has ended.
fn stray_pass<J: Job>(stray: Stray<J>) -> Pass
    requires { HoldsNoWork stray.actor }
    ensures { result ≡ stray.pass }
{
    let Stray { actor, pass } = stray;
    actor.retire();
    pass
}
