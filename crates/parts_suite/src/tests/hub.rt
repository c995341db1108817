//! What shows of a hub's state: what is answered where there is nothing, what the environment's own refusal comes to, when the history has
//! no room, what each call comes to at each stage, which move comes first, and what a worker does to its end. The answers were worked out by hand.
ghost use Rattle.std.specs.Prelude.{◌≡◌, ◌+◌, ◌<◌, ◌≤◌, [], true, false, None};
ghost use Rattle.napi_types.specs.declared.call.Call.TheVariants.{CallThreadsafeFunction};
ghost use Rattle.napi_types.specs.declared.call.Mode.TheVariants.{Nonblocking};
ghost use Rattle.napi_types.specs.plain.Guards.{is_shared, is_registering};
ghost use Rattle.napi_types.specs.plain.Room.{most_entries};
ghost use Rattle.napi_types.specs.hub.GivenSteps.{has_loop_ended, is_failure};
ghost use Rattle.napi_types.specs.hub.HistoryLaws.{KeepsStanding};
ghost use Rattle.napi_types.specs.hub.Hub.{Before, Live, LoopEnded, Drained};
ghost use Rattle.napi_types.specs.hub.HubCalls.{is_thread_call};
ghost use Rattle.napi_types.specs.hub.HubEvents.{may_move};
ghost use Rattle.napi_types.specs.hub.ThreadSteps.{is_thread_there};
ghost use Rattle.shared_hub.specs.HubStates.{hub_seen};
ghost use Rattle.shared_hub.specs.SharedTries.{is_making_function, IsHeldAtFirst, IsOwnRefusal};
ghost use Rattle.parts_suite.specs.KeptActors.{KeepsActors, IsWorkerFree};

use super::ample;
use async_work::{Job, Picked};
use napi_types::{
    Actor, Call, Cause, Duty, JobSpec, Limits, Mode, Out, Release, Reply, SeenList, SharedCall,
    Status, Target, TsfnId, WorkId,
};
use script_addon::ScriptJob;
use shared_hub::{HubState, Naming, Polled, ThreadTried};
use std::alloc::Global;
use std::marker::Brand;
use std::process::Abort;

/// A hub as it opens, with so many threads and as many workers, and a history of so many places.
fn opened<N: Naming>(
    rt: &impl Abort,
    alloc: Global,
    others: u32,
    history: u32,
) -> HubState<ScriptJob, N>
    requires named { N.numbers ≡ record { threads = others; workers = others; limits = record { journal = 0; history = history } } }
    requires room { 5 + others + others ≤ history }
    requires most { history ≤ most_entries }
    ensures { result ≡ hub_seen N.numbers [] }
{
    let limits = Limits {
        journal: 0,
        history,
    };
    ample(rt, HubState::new(alloc, others, others, limits))
}

/// A shared call of addon 0 that makes no function. The environment refuses it so, or does not refuse it.
fn asked<J: Job, N: Naming>(
    state: &mut HubState<J, N>,
    call: Call,
    refused: Option<Status>,
) -> Result<Reply, Status>
    requires shared { is_shared call ≡ true }
    requires plain { is_making_function call ≡ false }
    requires initial { IsHeldAtFirst call }
    requires refused { IsOwnRefusal refused }
    requires timely { has_loop_ended state.old.hub.stage ≡ true → is_registering call ≡ true → is_failure refused ≡ true }
    ensures keeps { KeepsStanding state.old.hub state.new.hub }
    ensures actors { KeepsActors state.old.hub state.new.hub }
{
    state.env_shared(&SharedCall {
        call,
        depth: 1,
        step: 0,
        addon: 0,
        target: None,
        refused,
    })
}

/// The status of a reply, or why the call stopped.
fn status_of(outcome: Result<Reply, Status>) -> Status {
    match outcome {
        Ok(reply) => reply.status,
        Err(status) => status,
    }
}

/// The number of a new work, 0 where none was made.
fn new_work<J: Job, N: Naming>(state: &mut HubState<J, N>) -> WorkId
    requires { has_loop_ended state.old.hub.stage ≡ false }
    ensures keeps { KeepsStanding state.old.hub state.new.hub }
    ensures actors { KeepsActors state.old.hub state.new.hub }
{
    match asked(state, Call::CreateAsyncWork(JobSpec::Sum(4), 0, 0), None) {
        Ok(
            Reply {
                out: Out::Work(id),
                ..
            },
        ) => id,
        _ => WorkId(0),
    }
}

/// A work is created and queued, and another is created: what each comes to, and how many entries the history has then.
fn queue_one<N: Naming>(rt: &impl Abort, alloc: Global, history: u32) -> ([Status; 3], usize)
    requires named { N.numbers ≡ record { threads = 1; workers = 1; limits = record { journal = 0; history = history } } }
    requires room { 7 ≤ history }
    requires most { history ≤ most_entries }
{
    let mut state = opened::<N>(rt, alloc, 1, history);
    let created = asked(
        &mut state,
        Call::CreateAsyncWork(JobSpec::Sum(4), 0, 0),
        None,
    );
    let id = match created {
        Ok(
            Reply {
                out: Out::Work(id),
                ..
            },
        ) => id,
        _ => WorkId(0),
    };
    let queued = status_of(asked(&mut state, Call::QueueAsyncWork(id), None));
    let again = status_of(asked(
        &mut state,
        Call::CreateAsyncWork(JobSpec::Sum(4), 0, 0),
        None,
    ));
    (
        [status_of(created), queued, again],
        state.into_history().items().len(),
    )
}

/// The numbers are named here.
fn queue_one_in(rt: &impl Abort, alloc: Global, history: u32) -> ([Status; 3], usize)
    requires room { 7 ≤ history }
    requires most { history ≤ most_entries }
{
    queue_one::<Brand>(rt, alloc, history)
}

#[test]
fn a_queued_work_needs_five_places(rt: HostRuntime) {
    const DONE: Status = Status::Ok;
    const FULL: Status = Status::TraceFull;
    let thirteen = queue_one_in(&rt, rt.alloc(), 13);
    let twelve = queue_one_in(&rt, rt.alloc(), 12);
    assert_eq!(rt;
        (thirteen, twelve),
        (([DONE, DONE, FULL], 2), ([DONE, FULL, DONE], 2))
    );
}

/// What each call comes to where there is no work and no function, which the environment refuses so or does not refuse, and how many entries
/// the history has then.
fn ask_of_nothing<N: Naming>(
    rt: &impl Abort,
    alloc: Global,
    refused: Option<Status>,
) -> ([Status; 9], usize)
    requires named { N.numbers ≡ record { threads = 1; workers = 1; limits = record { journal = 0; history = 99 } } }
    requires refused { IsOwnRefusal refused }
{
    const WORK: WorkId = WorkId(1);
    const TSFN: TsfnId = TsfnId(1);
    let mut state = opened::<N>(rt, alloc, 1, 99);
    let found = [
        status_of(asked(&mut state, Call::DeleteAsyncWork(WORK), refused)),
        status_of(asked(&mut state, Call::CancelAsyncWork(WORK), refused)),
        status_of(asked(&mut state, Call::QueueAsyncWork(WORK), refused)),
        status_of(asked(
            &mut state,
            Call::CallThreadsafeFunction(TSFN, 7, Mode::Blocking),
            refused,
        )),
        status_of(asked(&mut state, Call::AcquireThreadsafeFunction(TSFN), refused)),
        status_of(asked(
            &mut state,
            Call::ReleaseThreadsafeFunction(TSFN, Release::Abort),
            refused,
        )),
        status_of(asked(&mut state, Call::RefThreadsafeFunction(TSFN), refused)),
        status_of(asked(&mut state, Call::UnrefThreadsafeFunction(TSFN), refused)),
        status_of(asked(
            &mut state,
            Call::GetThreadsafeFunctionContext(TSFN),
            refused,
        )),
    ];
    (found, state.into_history().items().len())
}

/// The numbers are named here.
fn ask_of_nothing_as(
    rt: &impl Abort,
    alloc: Global,
    refused: Option<Status>,
) -> ([Status; 9], usize)
    requires { IsOwnRefusal refused }
{
    ask_of_nothing::<Brand>(rt, alloc, refused)
}

#[test]
fn calls_on_nothing_are_refused_and_written(rt: HostRuntime) {
    let own = ask_of_nothing_as(&rt, rt.alloc(), None);
    let given = ask_of_nothing_as(&rt, rt.alloc(), Some(Status::GenericFailure));
    assert_eq!(rt;
        (own, given),
        (
            ([Status::InvalidArg; 9], 9),
            ([Status::GenericFailure; 9], 9)
        )
    );
}

const FIRST: TsfnId = TsfnId(1);

const SECOND: TsfnId = TsfnId(2);

const THIRD: TsfnId = TsfnId(3);

/// An item of a function, by a call that does not block.
fn item(id: TsfnId, payload: u64) -> Call
    ensures { result ≡ CallThreadsafeFunction id payload Nonblocking }
{
    Call::CallThreadsafeFunction(id, payload, Mode::Nonblocking)
}

/// The number of the status of a reply, or of why the call stopped.
fn number_of(outcome: Result<Reply, Status>) -> u16 {
    status_of(outcome).number()
}

/// Makes a function of context 80, which so many threads hold and whose queue has room for so many items, 0 for any number.
fn made_held<J: Job, N: Naming>(
    state: &mut HubState<J, N>,
    count: u32,
    maximum: u32,
    finalizer: Option<u32>,
    refused: Option<Status>,
) -> u16
    requires held { 0 < count }
    requires refused { IsOwnRefusal refused }
    requires timely { has_loop_ended state.old.hub.stage ≡ true → is_failure refused ≡ true }
    ensures keeps { KeepsStanding state.old.hub state.new.hub }
    ensures actors { KeepsActors state.old.hub state.new.hub }
{
    const TARGET: Target = Target {
        addon: 0,
        entry: 7,
        torn_runs: false,
    };
    let outcome = state.env_shared(&SharedCall {
        call: Call::CreateThreadsafeFunction(None, None, maximum, count, finalizer, 80),
        depth: 1,
        step: 0,
        addon: 0,
        target: if refused.is_some() {
            None
        } else {
            Some(TARGET)
        },
        refused,
    });
    number_of(outcome)
}

/// Makes one which one thread holds.
fn made<J: Job, N: Naming>(
    state: &mut HubState<J, N>,
    maximum: u32,
    finalizer: Option<u32>,
    refused: Option<Status>,
) -> u16
    requires refused { IsOwnRefusal refused }
    requires timely { has_loop_ended state.old.hub.stage ≡ true → is_failure refused ≡ true }
    ensures keeps { KeepsStanding state.old.hub state.new.hub }
    ensures actors { KeepsActors state.old.hub state.new.hub }
{
    made_held(state, 1, maximum, finalizer, refused)
}

/// What each call comes to, on a work and on the first function. The environment refuses those that register so, or does not refuse them.
fn tell_each<J: Job, N: Naming>(
    state: &mut HubState<J, N>,
    work: WorkId,
    own: Option<Status>,
) -> [u16; 11]
    requires refused { IsOwnRefusal own }
    requires timely { has_loop_ended state.old.hub.stage ≡ true → is_failure own ≡ true }
    ensures { KeepsStanding state.old.hub state.new.hub }
{
    const RELEASE: Call = Call::ReleaseThreadsafeFunction(FIRST, Release::Release);
    [
        number_of(asked(state, Call::CreateAsyncWork(JobSpec::Sum(4), 0, 0), own)),
        number_of(asked(state, Call::QueueAsyncWork(work), own)),
        number_of(asked(state, Call::CancelAsyncWork(work), None)),
        number_of(asked(state, Call::DeleteAsyncWork(work), None)),
        made(state, 0, None, own),
        number_of(asked(state, item(FIRST, 70), own)),
        number_of(asked(state, Call::AcquireThreadsafeFunction(FIRST), None)),
        number_of(asked(state, RELEASE, None)),
        number_of(asked(state, Call::UnrefThreadsafeFunction(FIRST), None)),
        number_of(asked(state, Call::RefThreadsafeFunction(FIRST), None)),
        number_of(asked(state, Call::GetThreadsafeFunctionContext(FIRST), None)),
    ]
}

/// What shows as the hub makes its next move.
#[derive(Clone, Copy, Debug, PartialEq, Eq)]
enum Moves {
    /// The frame of a duty begins, which is given these two first.
    Begins(Duty, Cause, u64, u64),
    Closes(TsfnId),
    Finishes(TsfnId),
    Nothing,
}

/// The hub's next move. The frame of a duty ends as it has begun.
fn moved<N: Naming>(state: &mut HubState<ScriptJob, N>) -> Moves
    requires { may_move state.old.hub ≡ true }
    ensures keeps { KeepsStanding state.old.hub state.new.hub }
    ensures may { may_move state.new.hub ≡ true }
    ensures actors { KeepsActors state.old.hub state.new.hub }
{
    match state.poll() {
        Polled::Begin(due, _job) => {
            let begun = due.begin(&mut SeenList::new());
            let info = *begun.info();
            state.end_frame(begun, Out::Nothing);
            Moves::Begins(info.duty, info.cause, info.gifts[0], info.gifts[1])
        }
        Polled::Closed(id) => Moves::Closes(id),
        Polled::Finished(id) => Moves::Finishes(id),
        Polled::Nothing => Moves::Nothing,
    }
}

/// The hub's next moves.
fn five_moves<N: Naming>(state: &mut HubState<ScriptJob, N>) -> [Moves; 5]
    requires { may_move state.old.hub ≡ true }
    ensures keeps { KeepsStanding state.old.hub state.new.hub }
    ensures may { may_move state.new.hub ≡ true }
    ensures actors { KeepsActors state.old.hub state.new.hub }
{
    [
        moved(state),
        moved(state),
        moved(state),
        moved(state),
        moved(state),
    ]
}

/// `go`.
fn gone<J: Job, N: Naming>(state: &mut HubState<J, N>)
    requires first { state.old.hub.stage ≡ Before }
    requires alone { state.old.hub.standing ≡ None }
    ensures stage { state.new.hub.stage ≡ Live }
    ensures alone { state.new.hub.standing ≡ None }
    ensures actors { KeepsActors state.old.hub state.new.hub }
{
    state.go();
}

/// The loop ends by exit.
fn left<J: Job, N: Naming>(state: &mut HubState<J, N>)
    requires going { state.old.hub.stage ≡ Live }
    requires alone { state.old.hub.standing ≡ None }
    ensures stage { state.new.hub.stage ≡ LoopEnded }
    ensures alone { state.new.hub.standing ≡ None }
    ensures actors { KeepsActors state.old.hub state.new.hub }
{
    state.loop_end(true, false);
}

/// The drain.
fn drained<J: Job, N: Naming>(state: &mut HubState<J, N>) -> u64
    requires looped { state.old.hub.stage ≡ LoopEnded }
    requires alone { state.old.hub.standing ≡ None }
    ensures stage { state.new.hub.stage ≡ Drained }
    ensures alone { state.new.hub.standing ≡ None }
    ensures actors { KeepsActors state.old.hub state.new.hub }
{
    state.drain()
}

/// What each call comes to at each stage, the moves while the loop goes, before the drain and after it, how many works that cancels, whether
/// `finals` comes, and how many entries the history has at the end.
type Stages = ([[u16; 11]; 5], [Moves; 2], [Moves; 5], (u64, bool, usize));

/// A hub without threads and workers goes through its stages, with a work and a function.
fn go_through_stages<N: Naming>(rt: &impl Abort, alloc: Global) -> Stages
    requires { N.numbers ≡ record { threads = 0; workers = 0; limits = record { journal = 0; history = 999 } } }
{
    const LATE: Option<Status> = Some(Status::GenericFailure);
    let mut state = opened::<N>(rt, alloc, 0, 999);
    let work = new_work(&mut state);
    made(&mut state, 0, None, None);
    let before = tell_each(&mut state, work, None);
    gone(&mut state);
    let going = tell_each(&mut state, work, None);
    let completion = moved(&mut state);
    left(&mut state);
    let looped = tell_each(&mut state, work, LATE);
    let delivery = moved(&mut state);
    let cancelled = drained(&mut state);
    let closing = tell_each(&mut state, work, LATE);
    let moves = five_moves(&mut state);
    let came = state.finals();
    let rows = [
        before,
        going,
        looped,
        closing,
        tell_each(&mut state, work, LATE),
    ];
    (
        rows,
        [completion, delivery],
        moves,
        (cancelled, came, state.into_history().items().len()),
    )
}

/// The numbers are named here.
fn go_through_stages_of(rt: &impl Abort, alloc: Global) -> Stages {
    go_through_stages::<Brand>(rt, alloc)
}

#[test]
fn each_call_is_answered_at_each_stage(rt: HostRuntime) {
    let rows = [
        [0, 0, 0, 9, 0, 0, 0, 0, 0, 0, 0],
        [0, 9, 9, 9, 0, 0, 0, 0, 0, 0, 0],
        [9, 9, 9, 0, 9, 9, 0, 0, 0, 0, 0],
        [9, 9, 1, 1, 9, 9, 16, 0, 0, 0, 0],
        [9, 9, 1, 1, 9, 9, 16, 1, 0, 0, 0],
    ];
    let first = [
        Moves::Begins(Duty::Work(1), Cause::Complete, 11, 0),
        Moves::Begins(Duty::Item(FIRST, 1), Cause::Item, 70, 1),
    ];
    let closing = [
        Moves::Begins(Duty::Item(FIRST, 2), Cause::Torn, 70, 0),
        Moves::Finishes(FIRST),
        Moves::Finishes(SECOND),
        Moves::Finishes(THIRD),
        Moves::Nothing,
    ];
    let found = go_through_stages_of(&rt, rt.alloc());
    assert_eq!(rt; found, (rows, first, closing, (0, true, 70)));
}

/// What a call of the thread is answered: the number of its status. `None` where it waits.
fn threaded<J: Job, N: Naming>(state: &mut HubState<J, N>, call: Call) -> Option<u16>
    requires threads { is_thread_call call ≡ true }
    requires there { is_thread_there state.old.hub 0 ≡ true }
    ensures keeps { KeepsStanding state.old.hub state.new.hub }
    ensures there { is_thread_there state.new.hub 0 ≡ true }
    ensures actors { KeepsActors state.old.hub state.new.hub }
{
    match state.thread_call(0, 0, &call) {
        ThreadTried::Reply(reply) => Some(reply.status.number()),
        ThreadTried::Stop(status) => Some(status.number()),
        ThreadTried::Wait => None,
    }
}

/// What a thread's calls of the first function come to, while it is open and from its abort on.
fn thread_calls<J: Job, N: Naming>(state: &mut HubState<J, N>) -> [Option<u16>; 9]
    requires { is_thread_there state.old.hub 0 ≡ true }
    ensures { KeepsStanding state.old.hub state.new.hub }
{
    const WAITING: Call = Call::CallThreadsafeFunction(FIRST, 71, Mode::Blocking);
    const ACQUIRE: Call = Call::AcquireThreadsafeFunction(FIRST);
    const ABORT: Call = Call::ReleaseThreadsafeFunction(FIRST, Release::Abort);
    [
        threaded(state, item(FIRST, 70)),
        threaded(state, item(FIRST, 70)),
        threaded(state, WAITING),
        threaded(state, ACQUIRE),
        threaded(state, ABORT),
        threaded(state, WAITING),
        threaded(state, ACQUIRE),
        threaded(state, ABORT),
        threaded(state, item(FIRST, 70)),
    ]
}

/// What a thread's calls come to, those of the environment, and the moves: of three functions the third has an item before the second, which is
/// aborted then with two.
type Orders = ([Option<u16>; 9], [u16; 4], [Moves; 5], [Moves; 5]);

/// A hub with a thread.
fn go_on_by_number<N: Naming>(rt: &impl Abort, alloc: Global) -> Orders
    requires { N.numbers ≡ record { threads = 1; workers = 1; limits = record { journal = 0; history = 999 } } }
{
    const WAITING: Call = Call::CallThreadsafeFunction(THIRD, 71, Mode::Blocking);
    let mut state = opened::<N>(rt, alloc, 1, 999);
    made(&mut state, 1, None, None);
    gone(&mut state);
    let threads = thread_calls(&mut state);
    made(&mut state, 0, Some(8), None);
    made(&mut state, 1, None, None);
    let calls = [
        number_of(asked(&mut state, item(THIRD, 72), None)),
        number_of(asked(&mut state, item(THIRD, 72), None)),
        number_of(asked(&mut state, WAITING, None)),
        number_of(asked(&mut state, item(SECOND, 73), None)),
    ];
    let by_number = five_moves(&mut state);
    number_of(asked(&mut state, item(SECOND, 74), None));
    number_of(asked(&mut state, item(SECOND, 75), None));
    number_of(asked(
        &mut state,
        Call::ReleaseThreadsafeFunction(SECOND, Release::Abort),
        None,
    ));
    let torn = five_moves(&mut state);
    let _history = state.into_history();
    (threads, calls, by_number, torn)
}

/// The numbers are named here.
fn go_on_by_number_of(rt: &impl Abort, alloc: Global) -> Orders {
    go_on_by_number::<Brand>(rt, alloc)
}

#[test]
fn functions_move_by_number_and_an_abort_tears(rt: HostRuntime) {
    const DONE: Option<u16> = Some(0);
    const NONE: Option<u16> = Some(1);
    const CLOSES: Option<u16> = Some(16);
    let threads = [DONE, Some(15), None, DONE, DONE, CLOSES, CLOSES, NONE, NONE];
    let by_number = [
        Moves::Begins(Duty::Item(FIRST, 1), Cause::Torn, 70, 0),
        Moves::Finishes(FIRST),
        Moves::Begins(Duty::Item(SECOND, 1), Cause::Item, 73, 1),
        Moves::Begins(Duty::Item(THIRD, 1), Cause::Item, 72, 1),
        Moves::Nothing,
    ];
    let torn = [
        Moves::Begins(Duty::Item(SECOND, 2), Cause::Torn, 74, 0),
        Moves::Begins(Duty::Item(SECOND, 3), Cause::Torn, 75, 0),
        Moves::Finishes(SECOND),
        Moves::Begins(Duty::Function(SECOND), Cause::Finalize, 80, 0),
        Moves::Nothing,
    ];
    let found = go_on_by_number_of(&rt, rt.alloc());
    assert_eq!(rt; found, (threads, [0, 15, 21, 0], by_number, torn));
}

/// What the worker picks: the number of a work, which it executes and finishes, 0 where none waits. `None` where no work starts any more.
fn served<N: Naming>(state: &mut HubState<ScriptJob, N>) -> Option<u64>
    requires { IsWorkerFree state.old.hub }
    ensures keeps { KeepsStanding state.old.hub state.new.hub }
    ensures actors { KeepsActors state.old.hub state.new.hub }
{
    match state.start(0) {
        Picked::Job(running) => {
            let number = running.number();
            state.finish(0, running.execute());
            Some(number)
        }
        Picked::Nothing => Some(0),
        Picked::Closing => None,
    }
}

/// What a thread's calls of the first function come to: one that queues an item, one that acquires it, and one that releases it.
fn three_calls<J: Job, N: Naming>(state: &mut HubState<J, N>) -> [Option<u16>; 3]
    requires { is_thread_there state.old.hub 0 ≡ true }
    ensures keeps { KeepsStanding state.old.hub state.new.hub }
    ensures there { is_thread_there state.new.hub 0 ≡ true }
    ensures actors { KeepsActors state.old.hub state.new.hub }
{
    const RELEASE: Call = Call::ReleaseThreadsafeFunction(FIRST, Release::Release);
    [
        threaded(state, item(FIRST, 70)),
        threaded(state, Call::AcquireThreadsafeFunction(FIRST)),
        threaded(state, RELEASE),
    ]
}

/// Whether `finals` comes before the worker has ended.
fn comes_early<J: Job, N: Naming>(state: &mut HubState<J, N>) -> bool
    requires drained { state.old.hub.stage ≡ Drained }
    requires alone { state.old.hub.standing ≡ None }
    requires free { IsWorkerFree state.old.hub }
    ensures { state.new ≡ state.old }
{
    state.finals()
}

/// The thread ends.
fn thread_ended<J: Job, N: Naming>(state: &mut HubState<J, N>)
    requires there { is_thread_there state.old.hub 0 ≡ true }
    requires free { IsWorkerFree state.old.hub }
    ensures keeps { KeepsStanding state.old.hub state.new.hub }
    ensures free { IsWorkerFree state.new.hub }
{
    state.actor_end(Actor::Thread(0), None);
}

/// The worker ends.
fn worker_ended<J: Job, N: Naming>(state: &mut HubState<J, N>)
    requires drained { state.old.hub.stage ≡ Drained }
    requires free { IsWorkerFree state.old.hub }
    ensures { KeepsStanding state.old.hub state.new.hub }
{
    state.invariant();
    state.actor_end(Actor::Worker(0), None);
}

/// What the worker picks before a work is queued, before `go` and from the drain on; what calls on the queued work and on the function come to;
/// a thread's calls after `go`, after `loop_end` and after the drain; the moves; whether `finals` comes with thread and worker, with the worker
/// alone, and after both; and how many entries the history has at the end.
type Served = (
    [Option<u64>; 3],
    [u16; 4],
    [[Option<u16>; 3]; 3],
    [Moves; 5],
    ([bool; 3], usize),
);

/// A hub with a thread and a worker goes through its stages, with a work and a function that the most threads hold.
fn serve<N: Naming>(rt: &impl Abort, alloc: Global) -> Served
    requires { N.numbers ≡ record { threads = 1; workers = 1; limits = record { journal = 0; history = 999 } } }
{
    let mut state = opened::<N>(rt, alloc, 1, 999);
    let idle = served(&mut state);
    let work = new_work(&mut state);
    made_held(&mut state, u32::MAX, 0, None, None);
    let calls = [
        number_of(asked(&mut state, Call::QueueAsyncWork(work), None)),
        number_of(asked(&mut state, Call::QueueAsyncWork(work), None)),
        number_of(asked(&mut state, Call::DeleteAsyncWork(work), None)),
        number_of(asked(&mut state, Call::AcquireThreadsafeFunction(FIRST), None)),
    ];
    let busy = served(&mut state);
    gone(&mut state);
    let going = three_calls(&mut state);
    left(&mut state);
    let looped = three_calls(&mut state);
    drained(&mut state);
    let late = served(&mut state);
    let closing = three_calls(&mut state);
    let moves = five_moves(&mut state);
    let with_both = comes_early(&mut state);
    thread_ended(&mut state);
    let with_worker = comes_early(&mut state);
    worker_ended(&mut state);
    let came = state.finals();
    (
        [idle, busy, late],
        calls,
        [going, looped, closing],
        moves,
        (
            [with_both, with_worker, came],
            state.into_history().items().len(),
        ),
    )
}

/// The numbers are named here.
fn serve_of(rt: &impl Abort, alloc: Global) -> Served {
    serve::<Brand>(rt, alloc)
}

#[test]
fn a_worker_serves_and_a_thread_calls_to_the_end(rt: HostRuntime) {
    const DONE: Option<u16> = Some(0);
    const CLOSES: Option<u16> = Some(16);
    let threads = [
        [DONE, Some(9), DONE],
        [DONE, DONE, DONE],
        [CLOSES, CLOSES, DONE],
    ];
    let moves = [
        Moves::Begins(Duty::Work(1), Cause::Complete, 0, 10),
        Moves::Begins(Duty::Item(FIRST, 1), Cause::Torn, 70, 0),
        Moves::Begins(Duty::Item(FIRST, 2), Cause::Torn, 70, 0),
        Moves::Finishes(FIRST),
        Moves::Nothing,
    ];
    let found = serve_of(&rt, rt.alloc());
    assert_eq!(rt;
        found,
        (
            [Some(0), Some(1), None],
            [0, 9, 9, 9],
            threads,
            moves,
            ([false, false, true], 30)
        )
    );
}
