//! Starts of threads, one for each actor.
ghost use Rattle.std.specs.Prelude.{◌≡◌, ◌+◌, ◌<◌, ◌≤◌, [], IfOk, IfErr, length, vec_len, vec_capacity};
ghost use Rattle.runner.specs.HandedBack.{IsUnstartedAt, KeepsActor};
ghost use Rattle.runner.specs.Crews.{runs_of};
ghost use Rattle.runner.specs.StartRoom.{AreUnstarted, Fills, IsUnstartedStrayAt, AddsPlace};

use crate::actor::run_actor;
use crate::strays::Stray;
use crate::unstarted::{HandedBack, Unstarted};
use async_work::Job;
use hub_lock::Hub;
use napi_types::Gate;
use shared_hub::Naming;
use std::marker::PhantomData;
use std::snapshot::Snapshot;
use std::sync::Wait;
use std::sync::atomic::{AtomicU64, Ordering};
use std::thread::{Promise, PromisedHandle, Scope, Threads};
use turn_lock::Pass;

/// The promise of a start: the thread hands back the actor that it was given, ended or unused.
#[derive(Drop)]
pub(crate) struct OfActor<J: Job, N: Naming> {
    given: Snapshot<Unstarted>,
    of: PhantomData<(J, N)>,
}

impl<J: Job, N: Naming> Promise<HandedBack> for OfActor<J, N> {
    ghost use Rattle.runner.specs.HandedBack.{KeepsActor};

    ghost kept_by = { λ p back. KeepsActor J N.numbers p.given.value back };
}

/// What became of the start of an actor.
#[derive(Drop)]
pub(crate) enum Child<J: Job, N: Naming> {
    /// A thread runs it.
    Runs(PromisedHandle<HandedBack, OfActor<J, N>>),
    /// It has ended, and its pass came back.
    Done(Pass),
    /// It has no thread of its own: it is the next of the strays.
    Stray,
}

/// Runs the actor to its end, unless the word was set before.
fn live<J: Job, N: Naming, R: Wait, G: Gate>(
    rt: &R,
    hub: &Hub<J, N>,
    gate: &G,
    word: &AtomicU64,
    unstarted: Unstarted,
) -> HandedBack
    requires { IsUnstartedAt J N.numbers hub.now unstarted }
    ensures { KeepsActor J N.numbers unstarted result }
{
    if word.load(Ordering::SeqCst) > 0 {
        return HandedBack::Unused(unstarted);
    }
    let Unstarted { actor, mut pass } = unstarted;
    run_actor(rt, hub, &mut pass, actor.into_run(), gate);
    HandedBack::Ran(pass)
}

/// Starts an actor on a thread of the scope. Where the start is refused the actor comes back.
pub(crate) fn start_one<
    's,
    E,
    J: Job + 's,
    N: Naming + Send + Sync + 's,
    R: Threads + Wait + Sync,
    G: Gate,
>(
    rt: &'s R,
    scope: &Scope<'s, E>,
    hub: &'s Hub<J, N>,
    gate: &'s G,
    word: &'s AtomicU64,
    unstarted: Unstarted,
) -> Result<PromisedHandle<HandedBack, OfActor<J, N>>, HandedBack>
    requires { IsUnstartedAt J N.numbers hub.now unstarted }
    ensures started { IfOk result (λ child. child.promise.given.value ≡ unstarted) }
    ensures refused { IfErr result (λ back. KeepsActor J N.numbers unstarted back) }
{
    let promise = OfActor {
        given: Snapshot::of(&unstarted),
        of: PhantomData,
    };
    match scope.spawn_with(
        promise,
        move || -> HandedBack
            requires { IsUnstartedAt J N.numbers hub.now unstarted }
            ensures { KeepsActor J N.numbers unstarted result }
        { live(rt, hub, gate, word, unstarted) },
    ) {
        Ok(child) => Ok(child),
        Err(refused) => {
            word.store(1, Ordering::SeqCst);
            Err((refused.value)())
        }
    }
}

/// Starts all of them, each with a word of its own. What became of each start stands in its place, in their order, and so do those that have no thread.
pub(crate) fn start_all<
    's,
    E,
    J: Job + 's,
    N: Naming + Send + Sync + 's,
    R: Threads + Wait + Sync,
    G: Gate,
>(
    rt: &'s R,
    scope: &Scope<'s, E>,
    hub: &'s Hub<J, N>,
    gate: &'s G,
    words: &'s [AtomicU64],
    crew: Vec<Unstarted>,
    children: &mut Vec<Child<J, N>>,
    strays: &mut Vec<Stray<J>>,
)
    requires unstarted { AreUnstarted J N.numbers hub.now 1 crew.items }
    requires words { length words.now ≡ vec_len crew }
    requires no_children { children.old.items ≡ [] }
    requires no_strays { strays.old.items ≡ [] }
    requires places { vec_len crew ≤ vec_capacity children.old }
    requires more_places { vec_len crew ≤ vec_capacity strays.old }
    ensures fills { Fills (IsUnstartedStrayAt N.numbers hub.now) N.numbers hub.now 1 (runs_of J crew.items) children.new.items strays.new.items }
    ensures len { vec_len children.new ≡ vec_len crew }
{
    for unstarted in crew {
        let word = &words[children.len()];
        start_in_place(rt, scope, hub, gate, word, unstarted, children, strays);
    }
}

/// Starts an actor. What became of the start stands behind what became of those before it.
fn start_in_place<
    's,
    E,
    J: Job + 's,
    N: Naming + Send + Sync + 's,
    R: Threads + Wait + Sync,
    G: Gate,
>(
    rt: &'s R,
    scope: &Scope<'s, E>,
    hub: &'s Hub<J, N>,
    gate: &'s G,
    word: &'s AtomicU64,
    unstarted: Unstarted,
    children: &mut Vec<Child<J, N>>,
    strays: &mut Vec<Stray<J>>,
)
    requires waits { IsUnstartedAt J N.numbers hub.now unstarted }
    requires place { vec_len children.old < vec_capacity children.old }
    requires more_place { vec_len strays.old < vec_capacity strays.old }
    ensures place { AddsPlace N.numbers hub.now unstarted children.old.items strays.old.items children.new.items strays.new.items }
    ensures len { vec_len children.new ≡ vec_len children.old + 1 }
    ensures strays_len { vec_len strays.new ≤ vec_len strays.old + 1 }
    ensures capacity { vec_capacity children.new ≡ vec_capacity children.old }
    ensures strays_capacity { vec_capacity strays.new ≡ vec_capacity strays.old }
{
    match start_one(rt, scope, hub, gate, word, unstarted) {
        Ok(child) => children.push_reserved(Child::Runs(child)),
        Err(HandedBack::Ran(pass)) => children.push_reserved(Child::Done(pass)),
        Err(HandedBack::Unused(unstarted)) => {
            let Unstarted { actor, pass } = unstarted;
            let actor = actor.into_run();
            strays.push_reserved(Stray { actor, pass });
            children.push_reserved(Child::Stray);
        }
    }
}
