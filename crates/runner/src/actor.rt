//! A thread of a script, or a worker, on the lock.
ghost use Rattle.std.specs.Prelude.{◌≡◌, false, true};
ghost use Rattle.shared_hub.specs.KeptHubs.{IsLedHub};
ghost use Rattle.hub_lock.specs.SeenTurns.{SamePass};
ghost use Rattle.env_loop.specs.ActorTurns.{is_over, IsActorOf, IsReady, HoldsNoWork, IsSameActor, with_work_executed};
ghost use Rattle.runner.specs.AtPasses.{IsAtPass, IsUnstartedAtPass, HasEndedAt};
ghost use Rattle.runner.specs.ActorsAtTheLock.{AfterTurn, AfterBurst};

use async_work::Job;
use env_loop::{ActorRun, ActorTurn, NextStep};
use hub_lock::{Hub, Locked};
use napi_types::Gate;
use shared_hub::{HubState, Naming};
use std::sync::Wait;
use turn_lock::Pass;

/// The point of a gate between a worker's start of a job and its execution.
const BEFORE_A_JOB: u32 = 1;

/// The point of a gate before each operation of a thread.
const BEFORE_AN_OPERATION: u32 = 2;

/// How many entries a thread makes at most while it holds the turn, where the gate is open.
const MOST_ENTRIES: u32 = 64;

/// Runs a thread of a script, or a worker, to its end. It sleeps where it waits, and executes its jobs while it does not hold the turn.
///
/// It comes to the gate once before each operation of a thread, and between a worker's start of a job and its execution. Where the gate is open
/// a thread makes up to 64 entries in one turn of the lock, until it waits, and comes to the gate once before them.
pub fn run_actor<J: Job, N: Naming, R: Wait, G: Gate>(
    rt: &R,
    hub: &Hub<J, N>,
    pass: &mut Pass,
    actor: ActorRun<J>,
    gate: &G,
)
    requires lock { pass.old.lock ≡ hub.now.lock }
    requires free { pass.old.holds ≡ false }
    requires fresh { IsUnstartedAtPass N.numbers pass.old actor }
    ensures same { SamePass pass.old pass.new }
    ensures ended { HasEndedAt N.numbers pass.new actor }
{
    let mut actor = actor;
    let number = pass.number();
    let most = if gate.is_open() { MOST_ENTRIES } else { 1 };
    let mut waited = false;
    for _ in rt.forever() {
        if !waited {
            come_to_the_gate(rt, &actor, number, gate);
        }
        actor.between();
        match turn_at_the_lock(rt, hub, pass, &mut actor, true, most) {
            ActorTurn::Made => waited = false,
            ActorTurn::Blocked => {
                hub.sleep(rt, number);
                waited = true;
            }
            ActorTurn::Ended => break,
        }
    }
    actor.retire();
}

/// Comes to the gate, where the actor is at one of its points.
fn come_to_the_gate<J: Job, R: Wait, G: Gate>(rt: &R, actor: &ActorRun<J>, number: u32, gate: &G) {
    match actor.next_step() {
        NextStep::Executes => gate.at(rt, number, BEFORE_A_JOB),
        NextStep::Operation => gate.at(rt, number, BEFORE_AN_OPERATION),
        NextStep::Ends | NextStep::Serves => {}
    }
}

/// One turn of the lock, in which a thread makes so many entries at most. Where it waits it falls asleep, but one that never sleeps stays awake.
pub(crate) fn turn_at_the_lock<J: Job, N: Naming, R: Wait>(
    rt: &R,
    hub: &Hub<J, N>,
    pass: &mut Pass,
    actor: &mut ActorRun<J>,
    sleeps: bool,
    most: u32,
) -> ActorTurn
    requires lock { pass.old.lock ≡ hub.now.lock }
    requires free { pass.old.holds ≡ false }
    requires at { IsAtPass N.numbers pass.old actor.old }
    requires ready { IsReady actor.old }
    ensures pass { SamePass pass.old pass.new }
    ensures actor { IsSameActor actor.old actor.new }
    ensures at { IsAtPass N.numbers pass.new actor.new }
    ensures ended { result ≡ ActorTurn.Ended → is_over actor.new ≡ true }
    ensures idle { result ≡ ActorTurn.Ended → HoldsNoWork actor.new }
{
    let mut held = hub.take(rt, pass);
    held.value.invariant();
    let turn = burst_under_the_lock(&mut held.value, actor, most);
    stay_awake(&mut held.value, sleeps);
    hub.give(pass, held);
    turn
}

/// What it does while it holds the turn: a thread makes its next entries, so many at most, until it waits, and a worker makes one.
fn burst_under_the_lock<J: Job, N: Naming>(
    locked: &mut Locked<HubState<J, N>>,
    actor: &mut ActorRun<J>,
    most: u32,
) -> ActorTurn
    requires stands { IsActorOf N.numbers locked.old.state.value actor.old }
    requires ready { IsReady actor.old }
    ensures { AfterBurst N.numbers actor.old locked.old.state.value result actor.new locked.new.state.value }
{
    let mut turn = turn_under_the_lock(locked, actor);
    for _ in 1..most {
        if turn != ActorTurn::Made || !is_at_an_operation(actor) {
            return turn;
        }
        turn = turn_under_the_lock(locked, actor);
    }
    turn
}

/// Whether it is a thread that has not ended: its next entry is a call of its script, or its end.
fn is_at_an_operation<J: Job>(actor: &ActorRun<J>) -> bool
    ensures { result ≡ true → IsReady actor.now }
{
    matches!(actor.next_step(), NextStep::Operation | NextStep::Ends)
}

/// One turn of it while it holds the turn.
fn turn_under_the_lock<J: Job, N: Naming>(
    locked: &mut Locked<HubState<J, N>>,
    actor: &mut ActorRun<J>,
) -> ActorTurn
    requires stands { IsActorOf N.numbers locked.old.state.value actor.old }
    requires ready { IsReady actor.old }
    ensures turn { AfterTurn N.numbers actor.old locked.old.state.value result actor.new locked.new.state.value }
    ensures stands { IsActorOf N.numbers locked.new.state.value actor.new }
    ensures actor { IsSameActor actor.old actor.new }
    ensures known { IsLedHub N.numbers locked.new.state.value }
{
    let turn = actor.turn(&mut locked.state);
    locked.invariant();
    turn
}

/// One that never sleeps takes back that it waits, so that nobody rings it in the place of one that sleeps.
fn stay_awake<J: Job, N: Naming>(locked: &mut Locked<HubState<J, N>>, sleeps: bool)
    ensures { locked.new.state.value ≡ locked.old.state.value }
{
    if !sleeps {
        let _wait = locked.state.take_wait();
    }
}
