//! What the environment does at the hub, a turn each, and what it sees there.
ghost use Rattle.std.specs.Prelude.{◌≡◌, ◌<◌, true, false, is_some};
ghost use Rattle.napi_types.specs.plain.Guards.{is_shared};
ghost use Rattle.shared_hub.specs.SharedTries.{is_making_function, IsHeldAtFirst};
ghost use Rattle.lock_suite.specs.EnvironmentTurns.{IsByEnvironment, IsFirstPass};

use super::FUNCTION;
use hub_lock::Hub;
use napi_types::{
    Actor, Call, Entry, JobSpec, Mode, Out, Release, Reply, SeenList, SharedCall, Target, TsfnId,
    WorkId,
};
use script_addon::ScriptJob;
use shared_hub::{HubStage, HubState, Naming, Polled, WaitsFor};
use std::sync::Wait;
use turn_lock::Pass;

/// What the environment does in a turn. What may not come does not.
#[derive(Clone, Copy)]
pub(super) enum Does {
    /// Nothing.
    Looks,
    /// It notes that it will sleep, where others made no more entries than so many.
    Sleeps(usize),
    /// It notes that it will sleep. Where others act it sleeps once, then.
    Rests,
    /// It notes that the pass of this number will sleep until the function has room.
    Notes(u32, TsfnId),
    /// It makes a function that three threads hold, with a queue of so many places, and fills so many of them.
    Makes(u32, u32),
    Goes,
    /// It calls this function so often, and each call puts an item in its queue, where there is room.
    Fills(TsfnId, u32),
    /// The hub's next move.
    Moves,
    /// One thread less holds the function.
    Releases,
    /// It begins to close the function.
    Aborts,
    /// It makes a work and queues it.
    Works,
    EndsLoop,
    Drains,
}

/// What it sees: how often anybody fell asleep, how many entries others made, and the status of the first of each of two.
#[derive(Clone, Copy)]
pub(super) struct Seen {
    pub(super) sleeps: u64,
    pub(super) others: usize,
    pub(super) first: [Option<u16>; 2],
}

/// One turn.
pub(super) fn turn<N: Naming, R: Wait>(
    rt: &R,
    hub: &Hub<ScriptJob, N>,
    pass: &mut Pass,
    threads: u32,
    does: Does,
) -> Seen
    requires ready { IsFirstPass hub.now pass.old }
    ensures ready { IsFirstPass hub.now pass.new }
{
    let mut held = hub.take(rt, pass);
    let seen = act(&mut held.value.state, threads, does);
    held.value.invariant();
    hub.give(pass, held);
    seen
}

/// What the environment does under its turn.
pub(super) fn act<N: Naming>(state: &mut HubState<ScriptJob, N>, threads: u32, does: Does) -> Seen
    ensures { IsByEnvironment N.numbers.threads state.old state.new }
{
    match does {
        Does::Looks => {}
        Does::Sleeps(known) => sleep_after(state, known),
        Does::Rests => state.note_sleep(0, WaitsFor::Entry),
        Does::Notes(number, id) => state.note_sleep(number, WaitsFor::Room(id)),
        Does::Makes(maximum, items) => make(state, maximum, items),
        Does::Goes => go(state),
        Does::Fills(id, items) => fill(state, id, items),
        Does::Moves => make_move(state),
        Does::Releases => call(
            state,
            Call::ReleaseThreadsafeFunction(FUNCTION, Release::Release),
        ),
        Does::Aborts => call(
            state,
            Call::ReleaseThreadsafeFunction(FUNCTION, Release::Abort),
        ),
        Does::Works => queue_work(state),
        Does::EndsLoop => end_loop(state),
        Does::Drains => drain(state),
    }
    see(state, threads)
}

/// It notes that it will sleep, where others made no more entries than so many.
fn sleep_after<N: Naming>(state: &mut HubState<ScriptJob, N>, known: usize)
    ensures { state.new ≡ state.old }
{
    if others(state.history()) <= known {
        state.note_sleep(0, WaitsFor::Entry);
    }
}

/// A shared call of addon 0, before the loop ends. Answers what it gives.
fn ask<N: Naming>(state: &mut HubState<ScriptJob, N>, call: Call, target: Option<Target>) -> Out
    requires shared { is_shared call ≡ true }
    requires target { is_some target ≡ is_making_function call }
    requires initial { IsHeldAtFirst call }
    ensures { IsByEnvironment N.numbers.threads state.old state.new }
{
    if !state.is_at(HubStage::Before) && !state.is_at(HubStage::Live) {
        return Out::Nothing;
    }
    match state.env_shared(&SharedCall {
        call,
        depth: 1,
        step: 0,
        addon: 0,
        target,
        refused: None,
    }) {
        Ok(reply) => reply.out,
        Err(_) => Out::Nothing,
    }
}

fn call<N: Naming>(state: &mut HubState<ScriptJob, N>, call: Call)
    requires shared { is_shared call ≡ true }
    requires plain { is_making_function call ≡ false }
    requires initial { IsHeldAtFirst call }
    ensures { IsByEnvironment N.numbers.threads state.old state.new }
{
    let _out = ask(state, call, None);
}

#[tactic(auto, using(crate::proofs::EnvironmentTurns::goes_further))]
fn make<N: Naming>(state: &mut HubState<ScriptJob, N>, maximum: u32, items: u32)
    ensures { IsByEnvironment N.numbers.threads state.old state.new }
{
    const TARGET: Target = Target {
        addon: 0,
        entry: 7,
        torn_runs: false,
    };
    let _out = ask(
        state,
        Call::CreateThreadsafeFunction(None, None, maximum, 3, None, 80),
        Some(TARGET),
    );
    fill(state, FUNCTION, items);
}

#[tactic(auto, using(crate::proofs::EnvironmentTurns::goes_further))]
fn fill<N: Naming>(state: &mut HubState<ScriptJob, N>, id: TsfnId, items: u32)
    ensures { IsByEnvironment N.numbers.threads state.old state.new }
{
    for _done in 0..items {
        call(
            state,
            Call::CallThreadsafeFunction(id, 5, Mode::Nonblocking),
        );
    }
}

#[tactic(auto, using(crate::proofs::EnvironmentTurns::goes_further))]
fn queue_work<N: Naming>(state: &mut HubState<ScriptJob, N>)
    ensures { IsByEnvironment N.numbers.threads state.old state.new }
{
    if let Out::Work(id) = ask(state, Call::CreateAsyncWork(JobSpec::Sum(4), 0, 0), None) {
        call(state, Call::QueueAsyncWork(id));
    }
}

fn go<N: Naming>(state: &mut HubState<ScriptJob, N>)
    ensures { IsByEnvironment N.numbers.threads state.old state.new }
{
    if state.is_at(HubStage::Before) {
        state.go();
    }
}

/// The hub's next move. The frame of a duty ends as it has begun.
fn make_move<N: Naming>(state: &mut HubState<ScriptJob, N>)
    ensures { IsByEnvironment N.numbers.threads state.old state.new }
{
    if !state.may_poll() {
        return;
    }
    match state.poll() {
        Polled::Begin(due, _job) => {
            let begun = due.begin(&mut SeenList::new());
            state.end_frame(begun, Out::Nothing);
        }
        Polled::Closed(_) | Polled::Finished(_) | Polled::Nothing => {}
    }
}

fn end_loop<N: Naming>(state: &mut HubState<ScriptJob, N>)
    ensures { IsByEnvironment N.numbers.threads state.old state.new }
{
    if state.is_at(HubStage::Live) {
        let _why = state.loop_end(true, false);
    }
}

fn drain<N: Naming>(state: &mut HubState<ScriptJob, N>)
    ensures { IsByEnvironment N.numbers.threads state.old state.new }
{
    if state.is_at(HubStage::LoopEnded) {
        let _count = state.drain();
    }
}

/// What the state shows.
fn see<N: Naming>(state: &HubState<ScriptJob, N>, threads: u32) -> Seen {
    let history = state.history();
    Seen {
        sleeps: state.sleeps(),
        others: others(history),
        first: [
            first_status(history, actor(threads, 1)),
            first_status(history, actor(threads, 2)),
        ],
    }
}

/// The thread or the worker that has the pass of this number, where there are so many threads.
fn actor(threads: u32, number: u32) -> Actor
    requires { 0 < number }
{
    if number <= threads {
        Actor::Thread(number - 1)
    } else {
        Actor::Worker(number - 1 - threads)
    }
}

/// How many entries others made.
fn others(history: &[Entry]) -> usize {
    history.iter().filter(|e| e.actor != Actor::Env).count()
}

/// The status of an actor's first entry.
fn first_status(history: &[Entry], actor: Actor) -> Option<u16> {
    let first = history.iter().find(|e| e.actor == actor)?;
    Some(first.reply.status.number())
}
