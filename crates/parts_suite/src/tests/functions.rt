//! What shows of a thread-safe function in every state at every call, and of how its items are delivered, where there is memory.
//! The answers were worked out by hand.
ghost use Rattle.std.specs.Prelude.{◌≡◌, ◌+◌, ◌<◌, ◌≤◌, ◌^◌};
ghost use Rattle.napi_types.specs.parts.Functions.{accepted_items};

use super::ample;
use napi_types::{
    Actor, Cause, Due, DueInfo, Duty, Mode, Release, SeenList, Status, Target, TsfnId,
};
use std::alloc::Global;
use std::process::Abort;
use tsfn::TsfnState::{Closing, Done, Finished, Open};
use tsfn::{Tried, Tsfn, TsfnNew, TsfnState};

/// The greatest count.
const MOST: u32 = 4_294_967_295;

/// Who calls, and how; and what is answered where the queue is full, `None` where the call waits.
const CALLERS: [(Mode, Actor, Option<Status>); 4] = [
    (Mode::Nonblocking, Actor::Env, Some(Status::QueueFull)),
    (Mode::Nonblocking, Actor::Thread(0), Some(Status::QueueFull)),
    (Mode::Blocking, Actor::Env, Some(Status::WouldDeadlock)),
    (Mode::Blocking, Actor::Thread(0), None),
];

/// The maximum and the length of a queue, and whether it is full: one that is empty, one below full, full, and without a maximum.
const QUEUES: [(u32, u64, bool); 4] = [(2, 0, false), (2, 1, false), (2, 2, true), (0, 2, false)];

const TAKEN: Status = Status::Ok;

const UNHELD: Status = Status::InvalidArg;

const SHUT: Status = Status::Closing;

const TOO_MANY: Status = Status::GenericFailure;

/// A state and a count. What is answered there to a call, where it is the same at each queue, to an acquisition and to a release.
/// And the state after an abort.
const ROWS: [(TsfnState, u32, Option<Status>, Status, Status, TsfnState); 12] = [
    (Open, 0, Some(UNHELD), UNHELD, UNHELD, Open),
    (Open, 1, None, TAKEN, TAKEN, Closing),
    (Open, MOST, None, TOO_MANY, TAKEN, Closing),
    (Closing, 0, Some(UNHELD), SHUT, UNHELD, Closing),
    (Closing, 1, Some(SHUT), SHUT, TAKEN, Closing),
    (Closing, MOST, Some(SHUT), SHUT, TAKEN, Closing),
    (Finished, 0, Some(UNHELD), SHUT, UNHELD, Finished),
    (Finished, 1, Some(SHUT), SHUT, TAKEN, Finished),
    (Finished, MOST, Some(SHUT), SHUT, TAKEN, Finished),
    (Done, 0, Some(UNHELD), SHUT, UNHELD, Done),
    (Done, 1, Some(SHUT), SHUT, TAKEN, Done),
    (Done, MOST, Some(SHUT), SHUT, TAKEN, Done),
];

/// The function 3 of addon 5, whose items are delivered in addon 6.
pub fn created(
    rt: &impl Abort,
    alloc: Global,
    max: u32,
    initial: u32,
    finalize: Option<u32>,
) -> Tsfn
    requires { 0 < initial }
    ensures { accepted_items result ≡ 0 }
{
    let about = TsfnNew {
        addon: 5,
        target: Target {
            addon: 6,
            entry: 7,
            torn_runs: false,
        },
        max,
        initial,
        finalize,
        context: 80,
    };
    ample(rt, Tsfn::new(alloc, ID, about))
}

/// What is told of a function: its state, its count, and how many items wait.
type Shown = (TsfnState, u32, u64);

fn shown(function: &Tsfn) -> Shown {
    (function.state(), function.count(), function.queued())
}

/// An item is queued, where the function takes it.
pub fn add(rt: &impl Abort, function: &mut Tsfn, payload: u64)
    requires { accepted_items function.old < 2 ^ 20 }
    ensures { accepted_items function.new ≤ accepted_items function.old + 1 }
{
    ample(
        rt,
        function.call(payload, Mode::Nonblocking, Actor::Thread(1)),
    );
}

/// Two items are queued at most.
fn fill(rt: &impl Abort, function: &mut Tsfn, items: u64)
    requires { accepted_items function.old ≡ 0 }
    ensures { accepted_items function.new ≤ 2 }
{
    if items > 0 {
        add(rt, function, 70);
    }
    if items > 1 {
        add(rt, function, 71);
    }
}

/// Nobody holds it any more, where one did and none is to.
fn let_go(function: &mut Tsfn, count: u32)
    ensures { accepted_items function.new ≡ accepted_items function.old }
{
    if count == 0 {
        function.release(Release::Release);
    }
}

/// An open function comes to this state.
fn bring(rt: &impl Abort, function: &mut Tsfn, state: TsfnState)
    ensures { accepted_items function.new ≡ accepted_items function.old }
{
    if state == Open {
        return;
    }
    assert!(rt; function.state() == Open);
    function.begin_close();
    if state != Closing {
        assert!(rt; function.queued() == 0);
        function.finish();
    }
}

/// An open function without items comes to this state, this count and so many items.
fn set_up(rt: &impl Abort, function: &mut Tsfn, want: Shown)
    requires { accepted_items function.old ≡ 0 }
    ensures { accepted_items function.new ≤ 2 }
{
    let (state, count, items) = want;
    fill(rt, function, items);
    let_go(function, count);
    bring(rt, function, state);
    assert_eq!(rt; shown(function), want);
}

/// A function of this state, count, maximum and number of items. Once it is finished or done, there are none.
fn standing(rt: &impl Abort, alloc: Global, at: (TsfnState, u32), queue: (u32, u64)) -> Tsfn
    ensures { accepted_items result ≤ 2 }
{
    let (state, count) = at;
    let (max, most) = queue;
    let items = if matches!(state, Open | Closing) {
        most
    } else {
        0
    };
    let finalize = (state == Finished).then_some(8);
    let mut function = created(rt, alloc, max, count.max(1), finalize);
    set_up(rt, &mut function, (state, count, items));
    function
}

/// What is told before a call, what the call comes to, and what is told after it.
fn called(
    rt: &impl Abort,
    alloc: Global,
    at: (TsfnState, u32),
    queue: (u32, u64),
    call: (Mode, Actor),
) -> (Shown, Tried, Shown) {
    let mut function = standing(rt, alloc, at, queue);
    let before = shown(&function);
    let tried = ample(rt, function.call(90, call.0, call.1));
    (before, tried, shown(&function))
}

/// What an answer comes to, where this is told before. No item was taken out before.
fn told(answer: Option<Status>, before: Shown) -> (Tried, Shown) {
    let Some(status) = answer else {
        return (Tried::Wait, before);
    };
    let (state, count, items) = before;
    let more = items.saturating_add(1);
    match status {
        Status::Ok => (Tried::Answer(status, Some(more)), (state, count, more)),
        Status::Closing => (
            Tried::Answer(status, None),
            (state, count.saturating_sub(1), items),
        ),
        _ => (Tried::Answer(status, None), before),
    }
}

/// Each call is answered so, or else as this queue asks.
fn check_calls(
    rt: &impl Abort,
    alloc: Global,
    at: (TsfnState, u32),
    queue: (u32, u64, bool),
    every: Option<Status>,
) {
    let (max, items, is_full) = queue;
    for (mode, who, when_full) in CALLERS {
        let (before, tried, after) = called(rt, alloc, at, (max, items), (mode, who));
        let open = if is_full { when_full } else { Some(Status::Ok) };
        let want = told(every.or(open), before);
        assert_eq!(rt; (tried, after), want, "{before:?} {mode:?} {who:?}");
    }
}

#[test]
fn calls_are_answered_by_state_count_and_queue(rt: HostRuntime) {
    for (state, count, every, _, _, _) in ROWS {
        for queue in QUEUES {
            check_calls(&rt, rt.alloc(), (state, count), queue, every);
        }
    }
}

/// A change of who holds a function.
#[derive(Clone, Copy)]
enum Holding {
    Acquire,
    Release(Release),
}

/// What is answered and told then, where an item waits unless the function is finished or done.
type Held = (Status, TsfnState, u32);

fn held(rt: &impl Abort, alloc: Global, at: (TsfnState, u32), change: Holding) -> Held {
    let mut function = standing(rt, alloc, at, (2, 1));
    let status = match change {
        Holding::Acquire => function.acquire(),
        Holding::Release(mode) => function.release(mode),
    };
    (status, function.state(), function.count())
}

#[test]
fn holders_come_and_go_by_state_and_count(rt: HostRuntime) {
    for (state, count, _, acquire, release, aborted) in ROWS {
        let (at, fewer) = ((state, count), count.saturating_sub(1));
        let more = match acquire {
            Status::Ok => count.saturating_add(1),
            _ => count,
        };
        let found = [
            held(&rt, rt.alloc(), at, Holding::Acquire),
            held(&rt, rt.alloc(), at, Holding::Release(Release::Release)),
            held(&rt, rt.alloc(), at, Holding::Release(Release::Abort)),
        ];
        let want = [
            (acquire, state, more),
            (release, state, fewer),
            (release, aborted, fewer),
        ];
        assert_eq!(rt; found, want, "{at:?}");
    }
}

/// What a duty told as its frame began: duty, cause, addon, entry, the first three gifts, and whether the frame makes asks.
pub type Told = (Duty, Cause, u32, u32, [u64; 3], bool);

/// It begins and ends.
fn run(due: Due) -> Told {
    let DueInfo {
        duty,
        cause,
        addon,
        entry,
        gifts: [first, second, third, ..],
        runs,
        ..
    } = due.begin(&mut SeenList::new()).end();
    (duty, cause, addon, entry, [first, second, third], runs)
}

/// What the first item tells, where one waits.
pub fn deliver(rt: &impl Abort, function: &mut Tsfn) -> Option<Told> {
    match function.state() {
        Open => function.pop().map(run),
        Closing => function.pop_torn().map(run),
        Finished | Done => panic!(rt; "it has no items"),
    }
}

/// Three items are queued, and an abort comes after the first of them is delivered. What is answered to it, and what the items tell.
fn deliver_three(rt: &impl Abort, function: &mut Tsfn) -> (Status, [Option<Told>; 4])
    requires { accepted_items function.old ≡ 0 }
{
    add(rt, function, 70);
    add(rt, function, 71);
    add(rt, function, 72);
    let first = deliver(rt, function);
    let aborted = function.release(Release::Abort);
    let second = deliver(rt, function);
    let third = deliver(rt, function);
    (aborted, [first, second, third, deliver(rt, function)])
}

/// A closing function is done once its finalizer begins, and this is what that is told. What is told of the function before and after.
fn finish(rt: &impl Abort, function: &mut Tsfn) -> (Shown, Told, Shown) {
    assert!(rt; function.state() == Closing && function.queued() == 0);
    function.finish();
    assert!(rt; function.state() == Finished);
    let before = shown(function);
    let told = run(function.take_final());
    (before, told, shown(function))
}

const ID: TsfnId = TsfnId(3);

const ITEMS: [Option<Told>; 4] = [
    Some((Duty::Item(ID, 1), Cause::Item, 6, 7, [70, 1, 80], true)),
    Some((Duty::Item(ID, 2), Cause::Torn, 6, 7, [71, 0, 80], false)),
    Some((Duty::Item(ID, 3), Cause::Torn, 6, 7, [72, 0, 80], false)),
    None,
];

const FINAL: Told = (Duty::Function(ID), Cause::Finalize, 5, 8, [80, 0, 0], true);

#[test]
fn items_are_delivered_in_order_and_torn_once_it_closes(rt: HostRuntime) {
    let mut function = created(&rt, rt.alloc(), 0, 2, Some(8));
    let delivered = deliver_three(&rt, &mut function);
    let found = (delivered, finish(&rt, &mut function));
    let finished = ((Finished, 1, 0), FINAL, (Done, 1, 0));
    assert_eq!(rt; found, ((Status::Ok, ITEMS), finished));
}

/// The context of a function, and whether the loop waits for it: at first, then once it is told not to, and once it is told to again.
fn refers(function: &mut Tsfn) -> (u64, [bool; 3]) {
    let first = function.is_referenced();
    function.unrefer();
    let second = function.is_referenced();
    function.refer();
    (
        function.context(),
        [first, second, function.is_referenced()],
    )
}

#[test]
fn the_loop_waits_for_a_function_until_it_is_told_not_to(rt: HostRuntime) {
    let mut function = created(&rt, rt.alloc(), 0, 1, None);
    assert_eq!(rt; refers(&mut function), (80, [true, false, true]));
}
