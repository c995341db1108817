//! What shows of the list of functions: each call where no function has its number, which of two moves first, and what the counts are.
//! The answers were worked out by hand.
ghost use Rattle.std.specs.Prelude.{ℕ, ◌+◌, ◌<◌, ◌≤◌, length};
ghost use Rattle.std.specs.List.{All};
ghost use Rattle.napi_types.specs.parts.Functions.{accepted_items};

use super::ample;
use napi_types::{Actor, Cause, Due, Duty, Mode, Release, SeenList, Status, Target, TsfnId};
use std::alloc::Global;
use std::process::Abort;
use tsfn::{Functions, Moved, Tried, TsfnNew};

/// What is asked of the list, of the function of a number where it is a call.
#[derive(Clone, Copy, Debug)]
enum Asked {
    /// With this payload.
    Call(u64, u64),
    Acquire(u64),
    Release(u64, Release),
    Refer(u64),
    Unrefer(u64),
    Context(u64),
    Move,
    CloseAll,
    Counts,
}

/// What shows then.
#[derive(Clone, Copy, Debug, PartialEq, Eq)]
enum Shown {
    Status(Status),
    /// The item of this number was accepted.
    Item(u64),
    Waits,
    Context(u64),
    Begins(Duty, Cause),
    Closes(TsfnId),
    Finishes(TsfnId),
    Nothing,
    /// Whether one has something to do, whether the loop waits for none, and how many places of the history they owe.
    Counts(bool, bool, u64),
}

type Step = (Asked, Shown);

const FIRST: TsfnId = TsfnId(1);

const SECOND: TsfnId = TsfnId(2);

const DONE: Shown = Shown::Status(Status::Ok);

const UNKNOWN: Shown = Shown::Status(Status::InvalidArg);

/// No function is there.
const OF_NONE: [Step; 11] = [
    (Asked::Call(0, 70), UNKNOWN),
    (Asked::Call(1, 70), UNKNOWN),
    (Asked::Acquire(1), UNKNOWN),
    (Asked::Release(1, Release::Release), UNKNOWN),
    (Asked::Release(1, Release::Abort), UNKNOWN),
    (Asked::Refer(1), UNKNOWN),
    (Asked::Unrefer(1), UNKNOWN),
    (Asked::Context(1), UNKNOWN),
    (Asked::Move, Shown::Nothing),
    (Asked::CloseAll, Shown::Nothing),
    (Asked::Counts, Shown::Counts(false, true, 0)),
];

/// The second function's item comes first, and the first function moves first.
const LATER_COMES_FIRST: [Step; 12] = [
    (Asked::Counts, Shown::Counts(false, false, 6)),
    (Asked::Call(2, 70), Shown::Item(1)),
    (Asked::Call(1, 71), Shown::Item(1)),
    (Asked::Call(1, 72), Shown::Item(2)),
    (Asked::Counts, Shown::Counts(true, false, 12)),
    (
        Asked::Move,
        Shown::Begins(Duty::Item(FIRST, 1), Cause::Item),
    ),
    (
        Asked::Move,
        Shown::Begins(Duty::Item(FIRST, 2), Cause::Item),
    ),
    (
        Asked::Move,
        Shown::Begins(Duty::Item(SECOND, 1), Cause::Item),
    ),
    (Asked::Move, Shown::Nothing),
    (Asked::Call(3, 73), UNKNOWN),
    (Asked::Context(2), Shown::Context(81)),
    (Asked::Counts, Shown::Counts(false, false, 6)),
];

/// The second is aborted with two items, and nobody holds the first any more.
const ABORTED: [Step; 16] = [
    (Asked::Call(2, 70), Shown::Item(1)),
    (Asked::Call(2, 71), Shown::Item(2)),
    (Asked::Release(2, Release::Abort), DONE),
    (Asked::Acquire(2), Shown::Status(Status::Closing)),
    (Asked::Call(2, 72), UNKNOWN),
    (
        Asked::Move,
        Shown::Begins(Duty::Item(SECOND, 1), Cause::Torn),
    ),
    (Asked::Release(1, Release::Release), DONE),
    (Asked::Move, Shown::Closes(FIRST)),
    (Asked::Move, Shown::Finishes(FIRST)),
    (Asked::Counts, Shown::Counts(true, false, 5)),
    (
        Asked::Move,
        Shown::Begins(Duty::Item(SECOND, 2), Cause::Torn),
    ),
    (Asked::Move, Shown::Finishes(SECOND)),
    (Asked::Counts, Shown::Counts(true, false, 2)),
    (
        Asked::Move,
        Shown::Begins(Duty::Function(SECOND), Cause::Finalize),
    ),
    (Asked::Move, Shown::Nothing),
    (Asked::Counts, Shown::Counts(false, true, 0)),
];

/// The first and the last have an item by turns.
const BY_TURNS: [Step; 10] = [
    (Asked::Call(1, 70), Shown::Item(1)),
    (
        Asked::Move,
        Shown::Begins(Duty::Item(FIRST, 1), Cause::Item),
    ),
    (Asked::Call(2, 71), Shown::Item(1)),
    (
        Asked::Move,
        Shown::Begins(Duty::Item(SECOND, 1), Cause::Item),
    ),
    (Asked::Call(1, 72), Shown::Item(2)),
    (Asked::Call(2, 73), Shown::Item(2)),
    (
        Asked::Move,
        Shown::Begins(Duty::Item(FIRST, 2), Cause::Item),
    ),
    (Asked::Call(1, 74), Shown::Item(3)),
    (
        Asked::Move,
        Shown::Begins(Duty::Item(FIRST, 3), Cause::Item),
    ),
    (
        Asked::Move,
        Shown::Begins(Duty::Item(SECOND, 2), Cause::Item),
    ),
];

/// The loop waits for none, and then for one until the drain has closed them.
const DRAINED: [Step; 11] = [
    (Asked::Unrefer(1), DONE),
    (Asked::Unrefer(2), DONE),
    (Asked::Counts, Shown::Counts(false, true, 6)),
    (Asked::Refer(1), DONE),
    (Asked::Counts, Shown::Counts(false, false, 6)),
    (Asked::CloseAll, Shown::Nothing),
    (Asked::Counts, Shown::Counts(true, false, 4)),
    (Asked::Move, Shown::Finishes(FIRST)),
    (Asked::Counts, Shown::Counts(true, true, 3)),
    (Asked::Move, Shown::Finishes(SECOND)),
    (
        Asked::Move,
        Shown::Begins(Duty::Function(SECOND), Cause::Finalize),
    ),
];

/// One function more, which one thread holds.
fn add(rt: &impl Abort, functions: &mut Functions, finalize: Option<u32>, context: u64)
    requires { All (λ f. accepted_items f ≤ 0) functions.old }
    ensures { All (λ f. accepted_items f ≤ 0) functions.new }
{
    assert!(rt; functions.places() < 1000);
    let target = Target {
        addon: 6,
        entry: 7,
        torn_runs: true,
    };
    let about = TsfnNew {
        addon: 5,
        target,
        max: 0,
        initial: 1,
        finalize,
        context,
    };
    ample(rt, functions.create(about));
}

/// What a call comes to.
fn called(tried: Tried) -> Shown {
    match tried {
        Tried::Answer(_, Some(number)) => Shown::Item(number),
        Tried::Answer(status, None) => Shown::Status(status),
        Tried::Wait => Shown::Waits,
    }
}

/// A duty begins and ends.
fn begun(due: Due) -> Shown {
    let info = due.begin(&mut SeenList::new()).end();
    Shown::Begins(info.duty, info.cause)
}

/// What was done, where there was something to do.
fn moved(moved: Option<Moved>) -> Shown {
    match moved {
        None => Shown::Nothing,
        Some(Moved::Delivers(due)) => begun(due),
        Some(Moved::Closes(id)) => Shown::Closes(id),
        Some(Moved::Finishes(id)) => Shown::Finishes(id),
    }
}

fn context(told: Result<u64, Status>) -> Shown {
    match told {
        Ok(context) => Shown::Context(context),
        Err(status) => Shown::Status(status),
    }
}

/// An item is queued.
fn call(rt: &impl Abort, functions: &mut Functions, id: u64, payload: u64, calls: u64) -> Shown
    requires few { All (λ f. accepted_items f ≤ calls) functions.old }
    requires small { calls < 100 }
    ensures { All (λ f. accepted_items f ≤ calls + 1) functions.new }
{
    assert!(rt; functions.places() < 1000);
    let tried = functions.call(TsfnId(id), payload, Mode::Nonblocking, Actor::Env);
    called(ample(rt, tried))
}

/// What is not a call that queues an item.
fn change(functions: &mut Functions, asked: Asked) -> Shown
    ensures { (n : ℕ) → All (λ f. accepted_items f ≤ n) functions.old → All (λ f. accepted_items f ≤ n) functions.new }
{
    match asked {
        Asked::Call(..) => Shown::Nothing,
        Asked::Acquire(id) => Shown::Status(functions.acquire(TsfnId(id))),
        Asked::Release(id, mode) => Shown::Status(functions.release(TsfnId(id), mode)),
        Asked::Refer(id) => Shown::Status(functions.refer(TsfnId(id))),
        Asked::Unrefer(id) => Shown::Status(functions.unrefer(TsfnId(id))),
        Asked::Context(id) => context(functions.context(TsfnId(id))),
        Asked::Move => moved(functions.take_move()),
        Asked::CloseAll => {
            functions.close_all_open();
            Shown::Nothing
        }
        Asked::Counts => Shown::Counts(
            functions.has_move(),
            functions.are_done(),
            functions.places(),
        ),
    }
}

/// One thing is asked, before which fewer calls were made than this.
fn ask(rt: &impl Abort, functions: &mut Functions, asked: Asked, calls: u64) -> Shown
    requires few { All (λ f. accepted_items f ≤ calls) functions.old }
    requires small { calls < 100 }
    ensures { All (λ f. accepted_items f ≤ calls + 1) functions.new }
{
    if let Asked::Call(id, payload) = asked {
        return call(rt, functions, id, payload, calls);
    }
    change(functions, asked)
}

/// One step after another.
fn go_through(rt: &impl Abort, functions: &mut Functions, steps: &[Step])
    requires few { All (λ f. accepted_items f ≤ 0) functions.old }
    requires short { length steps.now < 100 }
{
    for at in 0..steps.len() {
        let (asked, want) = steps[at];
        let shown = ask(rt, functions, asked, at as u64);
        assert_eq!(rt; shown, want, "{at} {asked:?}");
    }
}

/// Two functions, the second of which has a finalizer.
fn go_through_with_two(rt: &impl Abort, alloc: Global, steps: &[Step])
    requires { length steps.now < 100 }
{
    let mut functions = Functions::new(alloc);
    add(rt, &mut functions, None, 80);
    add(rt, &mut functions, Some(8), 81);
    go_through(rt, &mut functions, steps);
}

#[test]
fn a_number_that_no_function_has_is_unknown(rt: HostRuntime) {
    go_through(&rt, &mut Functions::new(rt.alloc()), &OF_NONE);
}

#[test]
fn the_function_with_the_lowest_number_moves_first(rt: HostRuntime) {
    go_through_with_two(&rt, rt.alloc(), &LATER_COMES_FIRST);
    go_through_with_two(&rt, rt.alloc(), &ABORTED);
    go_through_with_two(&rt, rt.alloc(), &BY_TURNS);
    go_through_with_two(&rt, rt.alloc(), &DRAINED);
}
