//! What shows of a work in every state at every call, and of the order in which works start and end, where there is memory.
ghost use Rattle.std.specs.Prelude.{◌≡◌, ◌+◌, ◌<◌, ◌≤◌, ◌^◌, [], false, true, length, None, Ok, OnErr};
ghost use Rattle.napi_types.specs.plain.Lists.{with_record};
ghost use Rattle.napi_types.specs.parts.Jobs.{job_value};
ghost use Rattle.napi_types.specs.parts.Pool.{new_pool, executed_by, value_of_work};

use super::ample;
use async_work::{Job, Picked, Pool, Running};
use napi_types::{DueInfo, Duty, JobSpec, SeenList, Status, WorkId};
use script_addon::ScriptJob;
use std::alloc::Global;
use std::process::Abort;

pub type Works = Pool<ScriptJob>;

/// What a call on a work is answered.
type Answer = Result<(), Status>;

const DONE: Answer = Ok(());

const REFUSED: Answer = Err(Status::GenericFailure);

const UNKNOWN: Answer = Err(Status::InvalidArg);

/// How far a work is brought.
#[derive(Clone, Copy, Debug)]
enum Brought {
    Created,
    Queued,
    Running,
    Finished,
    Cancelled,
    Completed,
    Deleted,
    /// The call names this id, which no work has.
    Unknown(u64),
}

#[derive(Clone, Copy)]
enum Asked {
    Delete,
    Queue,
    Cancel,
}

/// What a call that deletes it is answered then, one that queues it, and one that cancels it.
const ROWS: [(Brought, [Answer; 3]); 9] = [
    (Brought::Created, [DONE, DONE, REFUSED]),
    (Brought::Queued, [REFUSED, REFUSED, DONE]),
    (Brought::Running, [REFUSED, REFUSED, REFUSED]),
    (Brought::Finished, [REFUSED, REFUSED, REFUSED]),
    (Brought::Cancelled, [REFUSED, REFUSED, REFUSED]),
    (Brought::Completed, [DONE, REFUSED, REFUSED]),
    (Brought::Deleted, [UNKNOWN, UNKNOWN, UNKNOWN]),
    (Brought::Unknown(0), [UNKNOWN, UNKNOWN, UNKNOWN]),
    (Brought::Unknown(2), [UNKNOWN, UNKNOWN, UNKNOWN]),
];

fn ask(works: &mut Works, id: WorkId, asked: Asked) -> Answer
    requires { works.old.closing ≡ false }
    ensures { OnErr result (works.new ≡ works.old) }
{
    match asked {
        Asked::Delete => works.delete(id),
        Asked::Queue => works.queue(id).map(|_| ()),
        Asked::Cancel => works.cancel(id),
    }
}

/// What was answered where nothing is refused.
pub fn accepted<T>(rt: &impl Abort, outcome: Result<T, Status>) -> T
    ensures { outcome ≡ Ok result }
{
    match outcome {
        Ok(value) => value,
        Err(_) => panic!(rt; "it is refused"),
    }
}

/// A worker starts the work that was queued first.
fn start(rt: &impl Abort, works: &mut Works, worker: u32) -> Running<ScriptJob>
    requires { executed_by works.old worker ≡ None }
    ensures executed { works.new.executions ≡ with_record (λ x. x.worker) (record { worker = worker; work = result.number }) works.old.executions }
    ensures value { value_of_work works.new result.number ≡ job_value result.spec }
    ensures same { works.new.works ≡ works.old.works }
    ensures closing { works.new.closing ≡ works.old.closing }
{
    match works.start(worker) {
        Picked::Job(running) => running,
        Picked::Nothing | Picked::Closing => panic!(rt; "no work starts"),
    }
}

/// A worker executes that work.
pub fn run(rt: &impl Abort, works: &mut Works)
    requires { works.old.executions ≡ [] }
    ensures executed { works.new.executions ≡ [] }
    ensures closing { works.new.closing ≡ works.old.closing }
{
    let running = start(rt, works, 0);
    works.finish(0, running.execute());
}

/// What a completion tells: the work, the addon, the entry, the payload, the status and the value; and the value of the job where
/// it did not run.
pub type Told = (Duty, u32, u32, u64, Status, u64, Option<u64>);

/// The completion of the work that ended first begins.
pub fn complete(works: &mut Works) -> Option<Told>
    ensures executed { works.new.executions ≡ works.old.executions }
    ensures closing { works.new.closing ≡ works.old.closing }
{
    let (due, job) = works.take_finished()?.into_due();
    let DueInfo {
        duty,
        addon,
        entry,
        status,
        gifts: [_, value, payload, ..],
        ..
    } = due.begin(&mut SeenList::new()).end();
    let unspent = job.map(|job| job.execute());
    Some((duty, addon, entry, payload, status, value, unspent))
}

/// A work that was created comes so far; one that is to run is queued.
fn bring(rt: &impl Abort, works: &mut Works, id: WorkId, brought: Brought)
    requires executed { works.old.executions ≡ [] }
    requires closing { works.old.closing ≡ false }
    ensures executed { works.new.executions ≡ [] }
    ensures closing { works.new.closing ≡ false }
{
    match brought {
        Brought::Created | Brought::Unknown(_) => {}
        Brought::Deleted => accepted(rt, works.delete(id)),
        Brought::Queued | Brought::Running => {
            accepted(rt, works.queue(id));
        }
        Brought::Cancelled => {
            accepted(rt, works.queue(id));
            accepted(rt, works.cancel(id));
        }
        Brought::Finished => {
            accepted(rt, works.queue(id));
            run(rt, works);
        }
        Brought::Completed => {
            accepted(rt, works.queue(id));
            run(rt, works);
            assert!(rt; complete(works).is_some());
        }
    }
}

/// What is answered while a worker executes the work that was queued first.
fn ask_in_run(rt: &impl Abort, works: &mut Works, id: WorkId, asked: Asked) -> Answer
    requires executed { works.old.executions ≡ [] }
    requires closing { works.old.closing ≡ false }
{
    let running = start(rt, works, 0);
    let answer = ask(works, id, asked);
    assert!(rt; answer.is_err());
    works.finish(0, running.execute());
    answer
}

/// What is answered on a work that was brought so far, the only one that there is.
fn answered(rt: &impl Abort, alloc: Global, brought: Brought, asked: Asked) -> Answer {
    let mut works: Works = ample(rt, Pool::new(alloc));
    let id = ample(rt, works.create(JobSpec::Sum(4), 5, 6, 70));
    bring(rt, &mut works, id, brought);
    match brought {
        Brought::Running => ask_in_run(rt, &mut works, id, asked),
        Brought::Unknown(other) => {
            assert!(rt; other != id.0);
            ask(&mut works, WorkId(other), asked)
        }
        _ => ask(&mut works, id, asked),
    }
}

#[test]
fn calls_are_answered_by_state(rt: HostRuntime) {
    for (brought, want) in ROWS {
        let answers = [
            answered(&rt, rt.alloc(), brought, Asked::Delete),
            answered(&rt, rt.alloc(), brought, Asked::Queue),
            answered(&rt, rt.alloc(), brought, Asked::Cancel),
        ];
        assert_eq!(rt; answers, want, "{brought:?}");
    }
}

/// A work is created whose job computes the sum up to its payload.
pub fn create(rt: &impl Abort, works: &mut Works, payload: u64) -> WorkId
    requires { length works.old.issued < 2 ^ 20 }
    ensures few { length works.new.issued ≤ length works.old.issued + 1 }
    ensures executed { works.new.executions ≡ works.old.executions }
    ensures closing { works.new.closing ≡ works.old.closing }
{
    ample(rt, works.create(JobSpec::Sum(payload), 5, 6, payload))
}

/// A work is created, and deleted at once. Its id.
fn create_and_delete(rt: &impl Abort, works: &mut Works) -> WorkId
    requires { length works.old.issued < 2 ^ 20 }
    ensures { length works.new.issued ≤ length works.old.issued + 1 }
{
    let id = create(rt, works, 1);
    accepted(rt, works.delete(id));
    id
}

/// Three are created and deleted in turn. Their ids.
fn in_turn(rt: &impl Abort, works: &mut Works) -> [WorkId; 3]
    requires { works.old ≡ new_pool }
{
    [
        create_and_delete(rt, works),
        create_and_delete(rt, works),
        create_and_delete(rt, works),
    ]
}

/// The place of the first one is used again.
const IN_TURN: [WorkId; 3] = [
    WorkId(1),
    WorkId(0x1_0000_0000_0001),
    WorkId(0x2_0000_0000_0001),
];

#[test]
fn the_place_of_a_deleted_work_is_used_again(rt: HostRuntime) {
    let mut works: Works = ample(&rt, Pool::new(rt.alloc()));
    assert_eq!(rt; in_turn(&rt, &mut works), IN_TURN);
}

/// A work is queued, and this is its number.
pub fn queue(rt: &impl Abort, works: &mut Works, id: WorkId) -> u64
    requires { works.old.closing ≡ false }
    ensures issued { works.new.issued ≡ works.old.issued }
    ensures executed { works.new.executions ≡ works.old.executions }
    ensures closing { works.new.closing ≡ false }
{
    accepted(rt, works.queue(id))
}

/// Four works, the payload of each being its place among them. Those at the places 2, 1, 3 and 4 are queued in this order, and get
/// these numbers. The id of the third is told.
fn four(rt: &impl Abort, works: &mut Works) -> (WorkId, [u64; 4])
    requires { works.old ≡ new_pool }
    ensures executed { works.new.executions ≡ works.old.executions }
    ensures closing { works.new.closing ≡ false }
{
    let first = create(rt, works, 1);
    let second = create(rt, works, 2);
    let third = create(rt, works, 3);
    let fourth = create(rt, works, 4);
    let numbers = [
        queue(rt, works, second),
        queue(rt, works, first),
        queue(rt, works, third),
        queue(rt, works, fourth),
    ];
    (third, numbers)
}

/// How many are queued, running and finished.
pub fn counts(works: &Works) -> [u64; 3] {
    [works.queued(), works.running(), works.finished()]
}

/// The third is cancelled. Two workers start the two that were queued first, and finish them in the other order. The numbers of the
/// four, and how many stand where while both run and after.
fn cancel_and_run(rt: &impl Abort, works: &mut Works) -> ([u64; 4], [[u64; 3]; 2])
    requires { works.old ≡ new_pool }
{
    let (third, numbers) = four(rt, works);
    accepted(rt, works.cancel(third));
    let first = start(rt, works, 0);
    let second = start(rt, works, 1);
    let running = counts(works);
    works.finish(1, second.execute());
    works.finish(0, first.execute());
    (numbers, [running, counts(works)])
}

/// What five completions tell, one after another.
fn completions(works: &mut Works) -> [Option<Told>; 5] {
    let first = complete(works);
    let second = complete(works);
    let third = complete(works);
    let fourth = complete(works);
    [first, second, third, fourth, complete(works)]
}

const NUMBERS: [u64; 4] = [1, 2, 3, 4];

const BY_THEIR_ENDS: [Option<Told>; 5] = [
    Some((Duty::Work(3), 5, 6, 3, Status::Cancelled, 0, Some(6))),
    Some((Duty::Work(2), 5, 6, 1, Status::Ok, 1, None)),
    Some((Duty::Work(1), 5, 6, 2, Status::Ok, 3, None)),
    None,
    None,
];

#[test]
fn works_come_out_in_the_order_of_their_ends(rt: HostRuntime) {
    let mut works: Works = ample(&rt, Pool::new(rt.alloc()));
    let (numbers, stand) = cancel_and_run(&rt, &mut works);
    let found = (numbers, stand, completions(&mut works));
    assert_eq!(rt; found, (NUMBERS, [[1, 2, 1], [1, 0, 3]], BY_THEIR_ENDS));
}

/// Whether no work starts any more, where none is started.
fn starts_none(rt: &impl Abort, works: &mut Works, worker: u32) -> bool
    requires { executed_by works.old worker ≡ None }
    ensures { works.new ≡ works.old }
{
    match works.start(worker) {
        Picked::Job(_running) => panic!(rt; "a work starts"),
        Picked::Nothing => false,
        Picked::Closing => true,
    }
}

/// What shows as one runs while all that wait are cancelled: whether no work starts any more, before, in the run and after; how many
/// are cancelled, in the run and after; and how many stand where in the run.
fn cancel_all_in_run(rt: &impl Abort, works: &mut Works) -> ([bool; 3], [u64; 2], [u64; 3])
    requires { works.old ≡ new_pool }
{
    let before = starts_none(rt, works, 0);
    four(rt, works);
    let running = start(rt, works, 0);
    let cancelled = works.cancel_all_queued();
    let stand = counts(works);
    let closing = starts_none(rt, works, 1);
    works.finish(0, running.execute());
    let after = starts_none(rt, works, 0);
    (
        [before, closing, after],
        [cancelled, works.cancel_all_queued()],
        stand,
    )
}

const ALL_CANCELLED: [Option<Told>; 5] = [
    Some((Duty::Work(2), 5, 6, 1, Status::Cancelled, 0, Some(1))),
    Some((Duty::Work(3), 5, 6, 3, Status::Cancelled, 0, Some(6))),
    Some((Duty::Work(4), 5, 6, 4, Status::Cancelled, 0, Some(10))),
    Some((Duty::Work(1), 5, 6, 2, Status::Ok, 3, None)),
    None,
];

#[test]
fn all_that_wait_are_cancelled_in_their_order(rt: HostRuntime) {
    let mut works: Works = ample(&rt, Pool::new(rt.alloc()));
    let shown = cancel_all_in_run(&rt, &mut works);
    let found = (shown, completions(&mut works));
    let want = ([false, true, true], [3, 0], [0, 1, 3]);
    assert_eq!(rt; found, (want, ALL_CANCELLED));
}
