//! What shows of a thread and of a worker at their turns at a hub, also beside the environment: a thread waits for `go` and at a full
//! queue, makes the calls of its script in order and ends, or is cut where the history is full; a worker starts, executes and finishes a
//! work, and ends after the drain. What they do was worked out by hand.
ghost use Rattle.std.specs.Prelude.{◌≡◌, ◌≢◌, ◌+◌, ◌≤◌, [], None, length};
ghost use Rattle.std.specs.List.{All};
ghost use Rattle.napi_types.specs.hub.Hub.{Before};
ghost use Rattle.napi_types.specs.declared.entry.Phase.TheVariants as phase;
ghost use Rattle.napi_types.specs.plain.Room.{most_entries};
ghost use Rattle.shared_hub.specs.HubStates.{hub_seen};
ghost use Rattle.env_loop.specs.ActorRuns.{IsOperationOfThread};
ghost use Rattle.env_loop.specs.ActorTurns.{IsActorOf, HoldsNoWork};
ghost use Rattle.env_loop.specs.RecordedRuns.{Run, FitsHub};
ghost use Rattle.environment_suite.specs.ThreadTests.{IsOfThread};

use super::driving::{
    Entries, InHistory, InJournal, LEAVE, callers, history_of, journal_of, opened, opened_hub,
    turn as env_turn,
};
use addon_trait::Addon;
use env_loop::{ActorRun, ActorTurn, EnvRun};
use napi_types::{Ask, Call, JobSpec, Listed, Mode, Op, OpList, Out, Release, Why, WorkId};
use script_addon::ScriptJob;
use shared_hub::{HubState, Naming};
use std::alloc::Global;
use std::marker::Brand;
use std::process::Abort;

/// A turn of a thread.
fn turn<N: Naming>(thread: &mut ActorRun<ScriptJob>, hub: &mut HubState<ScriptJob, N>) -> ActorTurn
    requires stands { IsActorOf N.numbers hub.old thread.old }
    requires thread { IsOfThread thread.old }
    ensures stands { IsActorOf N.numbers hub.new thread.new }
    ensures thread { IsOfThread thread.new }
    ensures waits { result ≢ ActorTurn.Made → hub.new ≡ hub.old }
{
    thread.turn(hub)
}

/// The hub goes, and the thread waits meanwhile.
fn go<N: Naming>(thread: &ActorRun<ScriptJob>, hub: &mut HubState<ScriptJob, N>)
    requires stands { IsActorOf N.numbers hub.old thread.now }
    requires thread { IsOfThread thread.now }
    requires first { hub.old.hub.stage ≡ Before }
    requires alone { hub.old.hub.standing ≡ None }
    ensures { IsActorOf N.numbers hub.new thread.now }
{
    hub.invariant();
    hub.go();
}

/// What a thread does in five turns, with `go` after the first: what each comes to, and how it ended, with how many entries the history had then.
fn five_turns<N: Naming>(
    rt: &impl Abort,
    alloc: Global,
    history: u32,
    operations: OpList,
) -> ([ActorTurn; 5], usize, Out)
    requires named { N.numbers ≡ record { threads = 1; workers = 0; limits = record { journal = 0; history = history } } }
    requires room { 6 ≤ history }
    requires most { history ≤ most_entries }
    requires few { length operations ≤ 16384 }
    requires kinds { All IsOperationOfThread operations }
{
    let mut hub = opened_hub::<N>(rt, alloc, 1, 0, history);
    let mut thread = ActorRun::<ScriptJob>::thread(0, operations);
    let first = turn(&mut thread, &mut hub);
    if first == ActorTurn::Made {
        panic!(rt; "a thread made an entry before go");
    }
    go(&thread, &mut hub);
    let turns = [
        first,
        turn(&mut thread, &mut hub),
        turn(&mut thread, &mut hub),
        turn(&mut thread, &mut hub),
        turn(&mut thread, &mut hub),
    ];
    thread.retire();
    let last = match hub.history().last() {
        Some(entry) => entry.reply.out,
        None => Out::Nothing,
    };
    (turns, hub.history().len(), last)
}

/// The numbers are named here. The thread calls function 1, which is not there, and acquires it.
fn thread_turns(rt: &impl Abort, alloc: Global, history: u32) -> ([ActorTurn; 5], usize, Out)
    requires room { 6 ≤ history }
    requires most { history ≤ most_entries }
{
    let operations = vec![in alloc;
        Op::ThreadCall(1, 7, Mode::Nonblocking),
        Op::ThreadAcquire(1),
    ];
    match operations {
        Ok(operations) => five_turns::<Brand>(rt, alloc, history, Listed::of(operations)),
        Err(_) => panic!(rt; "there is no memory"),
    }
}

#[test]
fn a_thread_makes_its_calls_and_ends(rt: HostRuntime) {
    const DID: ActorTurn = ActorTurn::Made;
    let (turns, entries, last) = thread_turns(&rt, rt.alloc(), 99);
    assert_eq!(rt;
        (turns, entries),
        ([ActorTurn::Blocked, DID, DID, DID, ActorTurn::Ended], 4)
    );
    assert!(rt; matches!(last, Out::Nothing));
}

#[test]
fn a_thread_is_cut_where_the_history_is_full(rt: HostRuntime) {
    let (turns, entries, last) = thread_turns(&rt, rt.alloc(), 6);
    const OVER: ActorTurn = ActorTurn::Ended;
    assert_eq!(rt;
        (turns, entries),
        ([ActorTurn::Blocked, ActorTurn::Made, OVER, OVER, OVER], 2)
    );
    assert!(rt; matches!(last, Out::Cut(Why::Full)));
}

/// How many turns the environment makes, what those of the actor come to, and what the entries of the journal and of the history tell.
type Ran = (u64, Vec<ActorTurn>, Vec<InJournal>, Vec<InHistory>);

/// The actor's turn: it executes the work that it started, and makes its next entry.
fn take_turn<N: Naming>(
    actor: &mut ActorRun<ScriptJob>,
    hub: &mut HubState<ScriptJob, N>,
) -> ActorTurn
    requires stands { IsActorOf N.numbers hub.old actor.old }
    ensures stands { IsActorOf N.numbers hub.new actor.new }
    ensures fits { (run : Run) → FitsHub run hub.old → FitsHub run hub.new }
    ensures free { result ≡ ActorTurn.Ended → HoldsNoWork actor.new }
{
    hub.invariant();
    actor.between();
    actor.turn(hub)
}

/// Rounds of the environment and of the actor, which makes so many turns in each, until the environment is gone: how many there are, and
/// what the actor's turns come to.
fn rounds<N: Naming>(
    rt: &impl Abort,
    alloc: Global,
    env: &mut EnvRun,
    hub: &mut HubState<ScriptJob, N>,
    addons: &mut Vec<Box<dyn Addon>>,
    actor: &mut ActorRun<ScriptJob>,
    each: u32,
) -> (u64, Vec<ActorTurn>)
    requires fits { FitsHub env.old hub.old }
    requires enough { env.old.core.env.addons ≤ length addons.old.items }
    requires stands { IsActorOf N.numbers hub.old actor.old }
    ensures gone { env.new.core.env.phase ≡ phase.Gone }
    ensures stands { IsActorOf N.numbers hub.new actor.new }
{
    let mut turns = Vec::new(alloc);
    for round in 0..99 {
        if env_turn(env, hub, addons) {
            return (round, turns);
        }
        for _ in 0..each {
            turns.push(take_turn(actor, hub)).expect(rt, "a place");
        }
    }
    panic!(rt; "the run does not end")
}

/// An actor that has ended is spent.
fn spend<N: Naming>(
    rt: &impl Abort,
    mut actor: ActorRun<ScriptJob>,
    hub: &mut HubState<ScriptJob, N>,
)
    requires stands { IsActorOf N.numbers hub.old actor }
{
    if take_turn(&mut actor, hub) != ActorTurn::Ended {
        panic!(rt; "the actor has not ended");
    }
    actor.retire();
}

/// A run of one addon beside one actor, a thread or a worker, which makes so many turns in each round.
fn ran<N: Naming>(
    rt: &impl Abort,
    alloc: Global,
    entries: Entries,
    mut hub: HubState<ScriptJob, N>,
    mut actor: ActorRun<ScriptJob>,
    each: u32,
) -> Ran
    requires opens { hub ≡ hub_seen N.numbers [] }
    requires stands { IsActorOf N.numbers hub actor }
{
    let mut addons = callers(rt, alloc, entries);
    let mut env = opened(rt, alloc, 100);
    let (turns, of_actor) = rounds(rt, alloc, &mut env, &mut hub, &mut addons, &mut actor, each);
    spend(rt, actor, &mut hub);
    let record = env.into_record(hub);
    (
        turns,
        of_actor,
        journal_of(rt, alloc, &record),
        history_of(rt, alloc, &record),
    )
}

/// A function whose queue has room for one item. Entry 1, which runs for the items, leaves.
const NARROW: Entries = [
    [
        Ask::Do(Call::CreateThreadsafeFunction(None, Some(1), 1, 1, None, 5)),
        LEAVE,
        LEAVE,
        LEAVE,
        LEAVE,
    ],
    [LEAVE; 5],
];

/// A thread that makes two items, by calls that wait, and releases the function.
fn calls_twice<N: Naming>(rt: &impl Abort, alloc: Global, history: u32, each: u32) -> Ran
    requires named { N.numbers ≡ record { threads = 1; workers = 0; limits = record { journal = 0; history = history } } }
    requires room { 6 ≤ history }
    requires most { history ≤ most_entries }
{
    let operations = vec![in alloc;
        Op::ThreadCall(1, 7, Mode::Blocking),
        Op::ThreadCall(1, 8, Mode::Blocking),
        Op::ThreadRelease(1, Release::Release),
    ];
    let hub = opened_hub::<N>(rt, alloc, 1, 0, history);
    match operations {
        Ok(operations) => {
            let thread = ActorRun::<ScriptJob>::thread(0, Listed::of(operations));
            ran(rt, alloc, NARROW, hub, thread, each)
        }
        Err(_) => panic!(rt; "there is no memory"),
    }
}

/// The numbers are named here.
fn thread_calls_twice(rt: &impl Abort, alloc: Global, history: u32, each: u32) -> Ran
    requires room { 6 ≤ history }
    requires most { history ≤ most_entries }
{
    calls_twice::<Brand>(rt, alloc, history, each)
}

/// A work that is queued. Entry 1, which completes it, leaves.
const WORK: Entries = [
    [
        Ask::Do(Call::CreateAsyncWork(JobSpec::Sum(3), 1, 7)),
        Ask::Do(Call::QueueAsyncWork(WorkId(1))),
        LEAVE,
        LEAVE,
        LEAVE,
    ],
    [LEAVE; 5],
];

/// A worker beside an environment that queues a work.
fn works<N: Naming>(rt: &impl Abort, alloc: Global) -> Ran
    requires named { N.numbers ≡ record { threads = 0; workers = 1; limits = record { journal = 0; history = 100 } } }
{
    let hub = opened_hub::<N>(rt, alloc, 0, 1, 100);
    let worker = ActorRun::<ScriptJob>::worker(0);
    ran(rt, alloc, WORK, hub, worker, 1)
}

/// The numbers are named here.
fn worker_works(rt: &impl Abort, alloc: Global) -> Ran {
    works::<Brand>(rt, alloc)
}

/// Compares a run with what it is to come to.
fn compare(
    rt: &impl Abort,
    found: &Ran,
    expected: (u64, &[ActorTurn], &[InJournal], &[InHistory]),
) {
    assert_eq!(rt;
        (
            found.0,
            found.1.as_slice(),
            found.2.as_slice(),
            found.3.as_slice(),
        ),
        expected
    );
}

const WAITS: ActorTurn = ActorTurn::Blocked;

const MADE: ActorTurn = ActorTurn::Made;

const OVER: ActorTurn = ActorTurn::Ended;

/// No number of a status, of an ask or of a duty.
const PLAIN: [u64; 3] = [0; 3];

/// The opening, and the begin of the init frame.
const OPENED: InJournal = ("number", 9, 0);

const BEGUN: InJournal = ("begin", 0, 0);

/// A call of the history wants three places. The first leaves two, and the second has none; the thread ends in that turn, beside the frame of its item.
#[test]
fn a_thread_is_cut_while_its_item_is_delivered(rt: HostRuntime) {
    compare(
        &rt,
        &thread_calls_twice(&rt, rt.alloc(), 14, 1),
        (
            11,
            &[
                WAITS, WAITS, WAITS, MADE, MADE, OVER, OVER, OVER, OVER, OVER, OVER,
            ],
            &[OPENED, BEGUN, ("status", 0, 1), ("status", 0, 10)],
            &[
                ("env", "function", 1, PLAIN),
                ("env", "go", 0, PLAIN),
                ("thread", "status", 0, [0, 0, 1]),
                ("env", "item", 1, PLAIN),
                ("thread", "cut for room", 0, PLAIN),
                ("env", "end", 0, PLAIN),
                ("env", "quiet", 0, PLAIN),
                ("env", "drain", 0, PLAIN),
                ("env", "finished", 1, PLAIN),
                ("env", "finals", 0, PLAIN),
            ],
        ),
    );
}

/// The thread makes two turns in each round. Its second call finds the queue full, waits, and is made once the environment has taken the first item.
#[test]
fn a_thread_waits_at_a_full_queue_and_goes_on(rt: HostRuntime) {
    compare(
        &rt,
        &thread_calls_twice(&rt, rt.alloc(), 100, 2),
        (
            14,
            &[
                WAITS, WAITS, WAITS, WAITS, WAITS, WAITS, MADE, WAITS, MADE, MADE, MADE, OVER,
                OVER, OVER, OVER, OVER, OVER, OVER, OVER, OVER, OVER, OVER, OVER, OVER, OVER, OVER,
                OVER, OVER,
            ],
            &[OPENED, BEGUN, ("status", 0, 1), ("status", 0, 15)],
            &[
                ("env", "function", 1, PLAIN),
                ("env", "go", 0, PLAIN),
                ("thread", "status", 0, [0, 0, 1]),
                ("env", "item", 1, PLAIN),
                ("thread", "status", 0, [0, 1, 2]),
                ("thread", "status", 0, [0, 2, 0]),
                ("env", "end", 0, PLAIN),
                ("thread", "over", 0, PLAIN),
                ("env", "item", 2, PLAIN),
                ("env", "end", 0, PLAIN),
                ("env", "closed", 1, PLAIN),
                ("env", "finished", 1, PLAIN),
                ("env", "idle", 0, PLAIN),
                ("env", "drain", 0, PLAIN),
                ("env", "finals", 0, PLAIN),
            ],
        ),
    );
}

/// The worker starts the work before `go`, and finishes it in its next turn. It waits until the drain, and ends.
#[test]
fn a_worker_executes_a_work_and_ends_after_the_drain(rt: HostRuntime) {
    compare(
        &rt,
        &worker_works(&rt, rt.alloc()),
        (
            11,
            &[
                WAITS, WAITS, MADE, MADE, WAITS, WAITS, WAITS, WAITS, MADE, OVER, OVER,
            ],
            &[OPENED, BEGUN, ("status", 0, 2), ("status", 0, 11)],
            &[
                ("env", "work", 1, PLAIN),
                ("env", "status", 0, [0, 1, 1]),
                ("worker", "start", 1, PLAIN),
                ("worker", "finish", 6, PLAIN),
                ("env", "go", 0, PLAIN),
                ("env", "completion", 1, PLAIN),
                ("env", "end", 0, PLAIN),
                ("env", "idle", 0, PLAIN),
                ("env", "drain", 0, PLAIN),
                ("worker", "over", 0, PLAIN),
                ("env", "finals", 0, PLAIN),
            ],
        ),
    );
}
