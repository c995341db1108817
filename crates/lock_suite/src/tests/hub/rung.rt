//! Who sleeps at the hub is rung by what gives a reason to.
ghost use Rattle.std.specs.Prelude.{◌≡◌, ◌+◌, ◌<◌, map};
ghost use Rattle.std.specs.List.{range_with_len};
ghost use Rattle.turn_lock.specs.Passes.{new_pass};
ghost use Rattle.lock_suite.specs.EnvironmentTurns.{IsFirstPass, MayEnter};

use super::actors::{Acts, act};
use super::environment::{Does, Seen, turn};
use super::{FUNCTION, LONG, OTHER, WHILE, environment};
use crate::tests::ample;
use hub_lock::Hub;
use napi_types::Limits;
use script_addon::ScriptJob;
use shared_hub::{HubState, Naming};
use std::alloc::Global;
use std::marker::Brand;
use std::process::Abort;
use std::sync::Wait;
use std::sync::atomic::{AtomicU64, Ordering};
use std::test::*;
use std::thread::{Threads, join, sleep};
use std::time::{Clock, Duration};
use turn_lock::Pass;

/// After how many doings of the environment each of two actors made its first entry, and the status of that.
type Comes = [(u32, u16); 2];

/// What the environment does first, what two actors do, the second of which begins once the first sleeps, what the environment does once
/// both sleep, and what is expected. A thread comes before a worker.
type Scene = (&'static [Does], [Acts; 2], &'static [Does], Comes);

/// How often anybody fell asleep, and what came.
type Found = (u64, Comes);

/// A scene, how many of the two are threads, and the gate, which is open for the passes up to this number.
#[derive(Drop)]
struct Plan {
    scene: Scene,
    threads: u32,
    gate: AtomicU64,
}

/// What opens the gate for both actors, but after a while.
const LATE: u64 = 3;

/// The queue is full.
const FULL: &[Does] = &[Does::Makes(1, 1), Does::Goes];

const GO: &[Does] = &[Does::Goes];

const DRAIN: &[Does] = &[Does::EndsLoop, Does::Drains];

/// Two passes are noted asleep, for room in the queue of the function.
const ONE: Does = Does::Notes(1, FUNCTION);

const TWO: Does = Does::Notes(2, FUNCTION);

const CALLS: [Acts; 2] = [Acts::Calls, Acts::Calls];

const LEAVES: [Acts; 2] = [Acts::Leaves, Acts::Leaves];

const LIMITS: Limits = Limits {
    journal: 0,
    history: 999,
};

const MOVE: &[Does] = &[Does::Moves];

const MOVES: &[Does] = &[Does::Moves; 2];

#[test]
fn who_sleeps_is_rung(rt: HostRuntime) {
    const BEGINS: [Acts; 2] = [Acts::Calls, Acts::Ends];
    const WORKS: [Acts; 2] = [Acts::Works, Acts::Works];
    const MIXED: [Acts; 2] = [Acts::Calls, Acts::Works];
    const OPEN: &[Does] = &[Does::Makes(0, 0)];
    const EIGHT: &[Does] = &[Does::Makes(8, 8), Does::Goes];
    const NOTED: &[Does] = &[Does::Makes(8, 8), Does::Goes, ONE, TWO];
    const RELEASES: &[Does] = &[
        Does::Releases,
        Does::Releases,
        Does::Releases,
        Does::Moves,
        Does::Moves,
    ];
    let scenes: &[Scene] = &[
        (OPEN, BEGINS, GO, [(1, 0), (1, 0)]),
        (FULL, CALLS, MOVES, [(2, 0), (1, 0)]),
        (EIGHT, CALLS, &[Does::Moves; 9], [(9, 0), (8, 0)]),
        (NOTED, LEAVES, &[Does::Moves; 9], [(9, 0), (8, 0)]),
        (FULL, CALLS, RELEASES, [(5, 1), (4, 1)]),
        (FULL, CALLS, &[Does::Aborts], [(1, 16), (1, 16)]),
        (GO, WORKS, &[Does::Works; 2], [(1, 0), (2, 0)]),
        (FULL, MIXED, DRAIN, [(2, 16), (2, 0)]),
    ];
    for scene in scenes {
        assert_eq!(&rt; play(&rt, rt.alloc(), *scene), (2, scene.3));
    }
}

/// One more is rung for each function, whenever the environment finds nothing to do.
#[test]
fn who_ends_once_rung_leaves_nobody_asleep(rt: HostRuntime) {
    const NOTED: &[Does] = &[Does::Makes(1, 1), Does::Goes, ONE, TWO];
    const BOTH: &[Does] = &[Does::Goes, ONE, TWO];
    const EACH: &[Does] = &[Does::Goes, ONE, Does::Notes(2, OTHER)];
    let scenes: &[Scene] = &[
        (NOTED, LEAVES, MOVES, [(2, 0), (1, 0)]),
        (BOTH, LEAVES, MOVES, [(1, 0), (2, 0)]),
        (EACH, LEAVES, MOVE, [(1, 0), (1, 0)]),
    ];
    for scene in scenes {
        assert_eq!(&rt; play(&rt, rt.alloc(), *scene), (2, scene.3));
    }
}

/// Who is rung for room in a queue, and makes a call that stops, leaves nobody asleep: the environment is rung, and looks again for whom to ring. The call
/// stops since the environment has filled the history. That it will sleep it notes before, so the ring is there however late it sleeps.
#[test]
fn who_stops_once_rung_leaves_nobody_asleep(rt: HostRuntime) {
    const FILLED: &[Does] = &[
        Does::Makes(1, 1),
        Does::Goes,
        ONE,
        TWO,
        Does::Fills(FUNCTION, 999),
        Does::Moves,
        Does::Moves,
        Does::Rests,
    ];
    const STOPS: [Acts; 2] = [Acts::Leaves, Acts::Retries];
    let scene: Scene = (FILLED, STOPS, &[Does::Rests, Does::Moves], [(2, 0), (0, 0)]);
    assert_eq!(&rt; play(&rt, rt.alloc(), scene), (4, scene.3));
}

/// For room the one that fell asleep last is rung, until anybody fell asleep 512 times since the first one did: then it is that one. So it is where another
/// function comes to be empty after each sixteen times.
#[test]
fn each_one_comes_to_its_turn(rt: HostRuntime) {
    assert_eq!(&rt; first_rings(&rt, rt.alloc()), (511, 542));
}

/// In which round the first one is rung, at a hub of its own.
fn first_rings<R: Abort>(rt: &R, alloc: Global) -> (u32, u32) {
    first_rings_at::<Brand, _>(rt, alloc)
}

/// The same where no other function comes to be empty, and where one does in each seventeenth round.
fn first_rings_at<N: Naming, R: Abort>(rt: &R, alloc: Global) -> (u32, u32)
    requires named { N.numbers ≡ record { threads = 2; workers = 0; limits = record { journal = 0; history = 9999 } } }
{
    const LIMITS: Limits = Limits {
        journal: 0,
        history: 9999,
    };
    let mut state = ample(rt, HubState::<ScriptJob, N>::new(alloc, 2, 0, LIMITS));
    do_all(
        &mut state,
        &[Does::Makes(1, 0), Does::Makes(1, 0), Does::Goes],
    );
    let alone = rounds(&mut state, 1000);
    let crowded = rounds(&mut state, 17);
    let _history = state.into_history();
    (alone, crowded)
}

/// The pass 1 sleeps for room in the queue of the function. In each round the pass 2 does so too, and the queue comes to be empty, but in each round of so
/// many the queue of the other function comes to be empty. In which round the pass 1 is rung, 0 where it is in none.
fn rounds<N: Naming>(state: &mut HubState<ScriptJob, N>, every: u32) -> u32
    requires { 0 < every }
{
    do_all(state, &[Does::Fills(FUNCTION, 1), Does::Moves, ONE]);
    let _rings = state.take_rings();
    for round in 1..1000 {
        let item = if round % every == 0 {
            Does::Fills(OTHER, 1)
        } else {
            environment::act(state, 2, TWO);
            Does::Fills(FUNCTION, 1)
        };
        do_all(state, &[item, Does::Moves]);
        if state.take_rings() & 2 > 0 {
            return round;
        }
    }
    0
}

/// The environment does all this.
fn do_all<N: Naming>(state: &mut HubState<ScriptJob, N>, all: &[Does]) {
    for does in all {
        environment::act(state, 2, *does);
    }
}

/// Any entry of a thread or a worker rings the environment.
#[test]
fn the_environment_is_rung(rt: HostRuntime) {
    const CALL: [Acts; 2] = [Acts::Calls, Acts::Rests];
    const END: [Acts; 2] = [Acts::Ends, Acts::Rests];
    const WORK: [Acts; 2] = [Acts::Rests, Acts::Works];
    const OPEN: &[Does] = &[Does::Makes(0, 0), Does::Goes];
    const QUEUED: &[Does] = &[Does::Goes, Does::Works];
    let scenes: &[(u64, Scene)] = &[
        (1, (OPEN, CALL, &[Does::Sleeps(0)], [(1, 0), (0, 0)])),
        (1, (GO, END, &[Does::Sleeps(0)], [(1, 0), (0, 0)])),
        (2, (QUEUED, WORK, &[Does::Sleeps(1)], [(0, 0), (1, 0)])),
    ];
    for (sleeps, scene) in scenes {
        assert_eq!(&rt; play(&rt, rt.alloc(), *scene), (*sleeps, scene.3));
    }
}

/// A scene at a hub of its own.
fn play<R: Threads + Wait + Clock + Abort + Sync>(rt: &R, alloc: Global, scene: Scene) -> Found {
    let [first, second] = scene.1;
    let workers = u32::from(first == Acts::Works) + u32::from(second == Acts::Works);
    play_with::<Brand, _>(rt, alloc, scene, 2 - workers, workers)
}

fn play_with<N: Naming + Send, R: Threads + Wait + Clock + Abort + Sync>(
    rt: &R,
    alloc: Global,
    scene: Scene,
    threads: u32,
    workers: u32,
) -> Found
    requires named { N.numbers ≡ record { threads = threads; workers = workers; limits = record { journal = 0; history = 999 } } }
    requires two { threads + workers ≡ 2 }
{
    let state = ample(
        rt,
        HubState::<ScriptJob, N>::new(alloc, threads, workers, LIMITS),
    );
    let (hub, passes) = ample(rt, Hub::new(alloc, state, 3));
    let plan = Plan {
        scene,
        threads,
        gate: AtomicU64::new(0),
    };
    meet(rt, &hub, passes, &plan)
}

/// Where the environment and others meet. What starts threads knows no more of it.
trait Meeting {
    ghost use Rattle.std.specs.Prelude.{ℕ};
    ghost use Rattle.turn_lock.specs.Passes.{PassState};

    /// The pass is the environment's.
    ghost leads: { Self → PassState → Type 0 };

    /// The pass is another's, where there are so many threads.
    ghost enters: { Self → ℕ → PassState → Type 0 };

    fn lead<R: Wait + Clock>(&self, rt: &R, pass: Pass, plan: &Plan) -> Found
        requires { leads self.now pass };

    fn enter<R: Wait + Clock>(&self, rt: &R, pass: Pass, plan: &Plan)
        requires { enters self.now plan.now.threads pass };
}

impl<N: Naming> Meeting for Hub<ScriptJob, N> {
    ghost leads = { λ hub p. IsFirstPass hub p };

    ghost enters = { λ hub threads p. MayEnter N.numbers threads hub p };

    fn lead<R: Wait + Clock>(&self, rt: &R, pass: Pass, plan: &Plan) -> Found {
        lead(rt, self, pass, plan)
    }

    fn enter<R: Wait + Clock>(&self, rt: &R, pass: Pass, plan: &Plan) {
        enter(rt, self, pass, plan)
    }
}

/// The environment and both actors.
fn meet<N: Naming + Send, R: Threads + Wait + Clock + Sync>(
    rt: &R,
    hub: &Hub<ScriptJob, N>,
    mut passes: Vec<Pass>,
    plan: &Plan,
) -> Found
    requires new { passes.items ≡ map (new_pass hub.now.lock) (range_with_len 0 3) }
    requires threads { plan.now.threads ≡ N.numbers.threads }
    requires two { plan.now.threads + N.numbers.workers ≡ 2 }
{
    let second = passes.remove(2);
    let first = passes.remove(1);
    let pass = passes.remove(0);
    meet_at(rt, hub, pass, first, second, plan)
}

/// Each in a thread of its own.
fn meet_at<H: Meeting + Sync, R: Threads + Wait + Clock + Sync>(
    rt: &R,
    hub: &H,
    pass: Pass,
    first: Pass,
    second: Pass,
    plan: &Plan,
) -> Found
    requires pass { H.leads hub.now pass }
    requires first { H.enters hub.now plan.now.threads first }
    requires second { H.enters hub.now plan.now.threads second }
{
    let (found, _) = join(
        rt,
        || -> Found
            requires { H.leads hub.now pass }
        { hub.lead(rt, pass, plan) },
        || -> ()
            requires { H.enters hub.now plan.now.threads first × H.enters hub.now plan.now.threads second }
        { enter_both(rt, hub, first, second, plan) },
    );
    found
}

/// Both actors, each in a thread of its own.
fn enter_both<H: Meeting + Sync, R: Threads + Wait + Clock + Sync>(
    rt: &R,
    hub: &H,
    first: Pass,
    second: Pass,
    plan: &Plan,
)
    requires first { H.enters hub.now plan.now.threads first }
    requires second { H.enters hub.now plan.now.threads second }
{
    join(
        rt,
        || -> ()
            requires { H.enters hub.now plan.now.threads first }
        { hub.enter(rt, first, plan) },
        || -> ()
            requires { H.enters hub.now plan.now.threads second }
        { hub.enter(rt, second, plan) },
    );
}

/// An actor acts once the gate is open for it.
fn enter<N: Naming, R: Wait + Clock>(rt: &R, hub: &Hub<ScriptJob, N>, pass: Pass, plan: &Plan)
    requires { MayEnter N.numbers plan.now.threads hub.now pass }
{
    let number = u64::from(pass.number());
    for _ in rt.forever() {
        if plan.gate.load(Ordering::SeqCst) >= number {
            break;
        }
        sleep(rt, Duration::from_millis(1));
    }
    if plan.gate.load(Ordering::SeqCst) == LATE {
        sleep(rt, Duration::from_millis(LONG));
    }
    let [first, second] = plan.scene.1;
    act(
        rt,
        hub,
        pass,
        plan.threads,
        if number == 1 { first } else { second },
    );
}

/// What the environment does. At the end all that sleep are rung.
fn lead<N: Naming, R: Wait + Clock>(
    rt: &R,
    hub: &Hub<ScriptJob, N>,
    mut pass: Pass,
    plan: &Plan,
) -> Found
    requires { IsFirstPass hub.now pass }
{
    for does in plan.scene.0 {
        turn(rt, hub, &mut pass, plan.threads, *does);
    }
    match plan.scene.2.first() {
        Some(Does::Sleeps(_)) | Some(Does::Rests) => plan.gate.store(LATE, Ordering::SeqCst),
        _ => {
            plan.gate.store(1, Ordering::SeqCst);
            await_that(rt, hub, &mut pass, plan, 1, 0);
            plan.gate.store(2, Ordering::SeqCst);
            await_that(rt, hub, &mut pass, plan, 2, 0);
        }
    }
    let mut found = (0, [(0, 0), (0, 0)]);
    let mut at: u32 = 0;
    for does in plan.scene.2 {
        at = at.saturating_add(1);
        act_or_sleep(rt, hub, &mut pass, plan, *does);
        let seen = await_that(rt, hub, &mut pass, plan, 0, at);
        let [first, second] = found.1;
        found = (
            seen.sleeps,
            [
                note(first, at, seen.first[0]),
                note(second, at, seen.first[1]),
            ],
        );
    }
    for does in [Does::Goes, Does::EndsLoop, Does::Drains] {
        turn(rt, hub, &mut pass, plan.threads, does);
    }
    found
}

/// The environment takes its turn. Where it is to sleep it does until others have made more entries.
fn act_or_sleep<N: Naming, R: Wait>(
    rt: &R,
    hub: &Hub<ScriptJob, N>,
    pass: &mut Pass,
    plan: &Plan,
    does: Does,
)
    requires ready { IsFirstPass hub.now pass.old }
    ensures ready { IsFirstPass hub.now pass.new }
{
    for _ in rt.forever() {
        let seen = turn(rt, hub, pass, plan.threads, does);
        match does {
            Does::Sleeps(known) if seen.others <= known => hub.sleep(rt, 0),
            Does::Rests => {
                hub.sleep(rt, 0);
                return;
            }
            _ => return,
        }
    }
    unreachable!()
}

/// Looks until so many fell asleep and all that is expected after so many doings came, but no longer than some seconds. And once more
/// after a while.
fn await_that<N: Naming, R: Wait + Clock>(
    rt: &R,
    hub: &Hub<ScriptJob, N>,
    pass: &mut Pass,
    plan: &Plan,
    sleeps: u64,
    at: u32,
) -> Seen
    requires ready { IsFirstPass hub.now pass.old }
    ensures ready { IsFirstPass hub.now pass.new }
{
    let [first, second] = plan.scene.3;
    for _ in 0..1000 {
        let seen = turn(rt, hub, pass, plan.threads, Does::Looks);
        let come = has_come(first.0, at, seen.first[0]) && has_come(second.0, at, seen.first[1]);
        if come && seen.sleeps >= sleeps {
            break;
        }
        sleep(rt, Duration::from_millis(5));
    }
    sleep(rt, Duration::from_millis(WHILE));
    turn(rt, hub, pass, plan.threads, Does::Looks)
}

/// Whether an actor has come, where it is expected by now.
fn has_come(expected: u32, at: u32, first: Option<u16>) -> bool {
    expected == 0 || expected > at || first.is_some()
}

/// The first entry of an actor, if it was not found before.
fn note(before: (u32, u16), at: u32, first: Option<u16>) -> (u32, u16) {
    match (before.0, first) {
        (0, Some(status)) => (at, status),
        _ => before,
    }
}
