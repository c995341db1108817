//! The works that were queued, each under its number in the order of queueing. Contracts see all of them (`specs/Queue.antt`); those in front whose
//! completion has begun are no longer kept.
ghost use Rattle.std.specs.Prelude.{◌≡◌, ℕ, ◌+◌, ◌++◌, ◌<◌, ◌^◌, ◌≤◌, true, false, [], IsSome, Some, OnOk, length};
ghost use Rattle.std.specs.Option.{is_some, option_map_or};
ghost use Rattle.std.specs.VecDeque.{deque_capacity, deque_len};
ghost use Rattle.napi_types.specs.plain.Lists.{singleton};
ghost use Rattle.async_work.specs.Queue.{queue_seen, stage_seen, queue_stage_at, queue_id_at, waiting_job, runner, has_ended, is_done_in_queue, with_stage_at, queued_at, StillQueued, Runs, Ended, Done};
ghost use Rattle.async_work.specs.Queue.{outcome_seen, ran_outcome, unstarted_outcome};

use crate::Job;
use crate::room::reserve_amply;
use napi_types::{NoMemory, Slip, Status};
use std::alloc::Global;
use std::collections::VecDeque;
use std::marker::Model;
use std::mem;

/// How far a work that was queued has come. Until a worker starts it its job is here. The memory for the line that its completion will be in a list
/// of what was seen is here until the work is finished.
#[derive(Drop)]
pub(crate) enum WorkStage<J> {
    Queued(J, Slip),
    /// The worker that executes it.
    Running(u32, Slip),
    Finished,
    Completed,
}

/// A work that was queued.
#[derive(Drop)]
pub(crate) struct Numbered<J> {
    id: u64,
    stage: WorkStage<J>,
}

/// How a work ended.
#[derive(Drop)]
pub(crate) enum Ending<J> {
    /// Its job ran, to this value.
    Ran(u64),
    /// It was cancelled, and its job never ran.
    Cancelled(J),
}

/// A work that has ended.
#[derive(Drop)]
pub(crate) struct EndedWork<J> {
    pub(crate) number: u64,
    pub(crate) slip: Slip,
    pub(crate) ending: Ending<J>,
}

/// The works that were queued, in their order. Their numbers count from 1.
#[derive(Drop)]
pub(crate) struct WorkQueue<J: Job> {
    // The work with the number n stands at n - 1 - dropped.
    works: VecDeque<Numbered<J>>,
    // How many works are no longer kept: those in front whose completion has begun.
    dropped: u64,
}

impl<J: Job> Model for WorkQueue<J> {
    ghost use Rattle.async_work.specs.Queue.{QueueSeen};

    ghost Value = { QueueSeen };

    ghost use Rattle.std.specs.Prelude.{◌+◌, ◌-◌, ◌<◌, ◌^◌, length};
    ghost use Rattle.std.specs.VecDeque.{deque_capacity, deque_len};
    ghost use Rattle.async_work.specs.Queue.{queue_seen};

    ghost view = { λ line.
        record { works = queue_seen J.spec line.dropped line.works.items; room = deque_capacity line.works - deque_len line.works } };

    ghost invariant = { λ line. line.dropped + length line.works.items + 1 < 2 ^ 64 };
}

impl<J: Job> WorkQueue<J> {
    /// No works. It takes no memory.
    pub(crate) fn new(alloc: Global) -> WorkQueue<J>
        ensures { result.works ≡ [] }
    {
        WorkQueue {
            works: VecDeque::new(alloc),
            dropped: 0,
        }
    }

    /// Takes the memory for so many works more.
    pub(crate) fn reserve(&mut self, more: usize) -> Result<(), NoMemory>
        ensures works { self.new.works ≡ self.old.works }
        ensures room { OnOk result (more ≤ self.new.room) }
        ensures kept { self.old.room ≤ self.new.room }
    {
        reserve_amply(&mut self.works, more)
    }

    /// How many works were queued.
    pub(crate) fn len(&self) -> u64
        ensures { result ≡ length self.now.works }
    {
        self.dropped + self.works.len() as u64
    }

    /// A work is queued, behind all others. Its number.
    pub(crate) fn push(&mut self, id: u64, job: J, slip: Slip) -> u64
        requires room { 0 < self.old.room }
        requires few { length self.old.works + 2 < 2 ^ 64 }
        ensures number { result ≡ length self.old.works + 1 }
        ensures longer { self.new.works ≡ self.old.works ++ singleton (record { id = id; stage = StillQueued (J.spec job) }) }
        ensures room { self.new.room + 1 ≡ self.old.room }
    {
        let number = self.dropped + self.works.len() as u64 + 1;
        self.works.push_back_reserved(Numbered {
            id,
            stage: WorkStage::Queued(job, slip),
        });
        number
    }

    /// How far the work of a number has come. `None` where its completion has begun and it is no longer kept.
    pub(crate) fn stage(&self, number: u64) -> Option<&WorkStage<J>>
        ensures { option_map_or (λ s. stage_seen J.spec s.now) result Done ≡ queue_stage_at self.now.works number }
    {
        let place = number.checked_sub(self.dropped + 1)?;
        Some(&self.works.get(place as usize)?.stage)
    }

    /// How many works were queued before the first one behind these that is queued: how many there are, where none is.
    pub(crate) fn next_queued(&self, from: u64) -> u64
        requires { from ≤ length self.now.works }
        ensures within { (from ≤ result) × (result ≤ length self.now.works) }
        ensures passed { (n : ℕ) → from < n → n ≤ result → queued_at self.now.works n ≡ false }
        ensures queued { result < length self.now.works → queued_at self.now.works (result + 1) ≡ true }
    {
        let first = from.saturating_sub(self.dropped) as usize;
        let place = next_queued(&self.works, first);
        self.dropped + place as u64
    }

    /// A work that is queued runs, and gives its job away.
    pub(crate) fn start(&mut self, number: u64, worker: u32) -> J
        requires { IsSome (waiting_job (queue_stage_at self.old.works number)) }
        ensures job { waiting_job (queue_stage_at self.old.works number) ≡ Some (J.spec result) }
        ensures started { self.new.works ≡ with_stage_at number (Runs worker) self.old.works }
        ensures room { self.new.room ≡ self.old.room }
    {
        start(
            &mut self.works[(number - 1 - self.dropped) as usize],
            worker,
        )
    }

    /// A work that runs ends, with this value.
    pub(crate) fn finish(&mut self, number: u64, value: u64) -> EndedWork<J>
        requires { IsSome (runner (queue_stage_at self.old.works number)) }
        ensures outcome { outcome_seen J.spec result ≡ ran_outcome number value }
        ensures finished { self.new.works ≡ with_stage_at number Ended self.old.works }
        ensures room { self.new.room ≡ self.old.room }
    {
        finish(
            &mut self.works[(number - 1 - self.dropped) as usize],
            number,
            value,
        )
    }

    /// A work that is queued is cancelled.
    pub(crate) fn cancel(&mut self, number: u64) -> EndedWork<J>
        requires { IsSome (waiting_job (queue_stage_at self.old.works number)) }
        ensures outcome { outcome_seen J.spec result ≡ unstarted_outcome number (waiting_job (queue_stage_at self.old.works number)) }
        ensures finished { self.new.works ≡ with_stage_at number Ended self.old.works }
        ensures room { self.new.room ≡ self.old.room }
    {
        cancel(
            &mut self.works[(number - 1 - self.dropped) as usize],
            number,
        )
    }

    /// The completion of a work that has ended begins. The id of the work.
    ///
    /// Constant time over all works: it drops those in front whose completion has begun.
    pub(crate) fn complete(&mut self, number: u64) -> u64
        requires { has_ended (queue_stage_at self.old.works number) ≡ true }
        ensures id { queue_id_at self.old.works number ≡ Some result }
        ensures completed { self.new.works ≡ with_stage_at number Done self.old.works }
        ensures room { self.old.room ≤ self.new.room }
    {
        let id = complete(&mut self.works[(number - 1 - self.dropped) as usize]);
        let dropped = drop_completed(&mut self.works, self.dropped);
        self.dropped = dropped;
        id
    }
}

/// The first place from this one on whose work is queued, how many places there are where none is.
fn next_queued<J: Job>(works: &VecDeque<Numbered<J>>, from: usize) -> usize
    requires { from ≤ length works.now.items }
    ensures within { (from ≤ result) × (result ≤ length works.now.items) }
    ensures passed { (n : ℕ) → from < n → n ≤ result → queued_at (queue_seen J.spec 0 works.now.items) n ≡ false }
    ensures queued { result < length works.now.items → queued_at (queue_seen J.spec 0 works.now.items) (result + 1) ≡ true }
{
    for place in from..works.len() {
        if is_queued(&works[place]) {
            return place;
        }
    }
    works.len()
}

/// Whether a work is queued.
fn is_queued<J: Job>(numbered: &Numbered<J>) -> bool
    ensures { result ≡ is_some (waiting_job (stage_seen J.spec numbered.now.stage)) }
{
    matches!(numbered.stage, WorkStage::Queued(..))
}

/// A work that is queued runs, and gives its job away.
fn start<J: Job>(numbered: &mut Numbered<J>, worker: u32) -> J
    requires { IsSome (waiting_job (stage_seen J.spec numbered.old.stage)) }
    ensures job { waiting_job (stage_seen J.spec numbered.old.stage) ≡ Some (J.spec result) }
    ensures started { stage_seen J.spec numbered.new.stage ≡ Runs worker }
    ensures same { numbered.new.id ≡ numbered.old.id }
{
    match mem::replace(&mut numbered.stage, WorkStage::Completed) {
        WorkStage::Queued(job, slip) => {
            numbered.stage = WorkStage::Running(worker, slip);
            job
        }
        _ => unreachable!(),
    }
}

/// A work that runs ends, with this value.
fn finish<J: Job>(numbered: &mut Numbered<J>, number: u64, value: u64) -> EndedWork<J>
    requires { IsSome (runner (stage_seen J.spec numbered.old.stage)) }
    ensures outcome { outcome_seen J.spec result ≡ ran_outcome number value }
    ensures finished { stage_seen J.spec numbered.new.stage ≡ Ended }
    ensures same { numbered.new.id ≡ numbered.old.id }
{
    match mem::replace(&mut numbered.stage, WorkStage::Finished) {
        WorkStage::Running(_, slip) => EndedWork {
            number,
            slip,
            ending: Ending::Ran(value),
        },
        _ => unreachable!(),
    }
}

/// A work that is queued is cancelled.
fn cancel<J: Job>(numbered: &mut Numbered<J>, number: u64) -> EndedWork<J>
    requires { IsSome (waiting_job (stage_seen J.spec numbered.old.stage)) }
    ensures outcome { outcome_seen J.spec result ≡ unstarted_outcome number (waiting_job (stage_seen J.spec numbered.old.stage)) }
    ensures finished { stage_seen J.spec numbered.new.stage ≡ Ended }
    ensures same { numbered.new.id ≡ numbered.old.id }
{
    match mem::replace(&mut numbered.stage, WorkStage::Finished) {
        WorkStage::Queued(job, slip) => EndedWork {
            number,
            slip,
            ending: Ending::Cancelled(job),
        },
        _ => unreachable!(),
    }
}

/// The completion of a work begins. The id of the work.
fn complete<J: Job>(numbered: &mut Numbered<J>) -> u64
    ensures id { result ≡ numbered.old.id }
    ensures completed { stage_seen J.spec numbered.new.stage ≡ Done }
    ensures same { numbered.new.id ≡ numbered.old.id }
{
    numbered.stage = WorkStage::Completed;
    numbered.id
}

/// Drops the works in front whose completion has begun. How many were dropped in all, where these were before.
fn drop_completed<J: Job>(works: &mut VecDeque<Numbered<J>>, dropped: u64) -> u64
    requires { dropped + length works.old.items < 2 ^ 64 }
    ensures same { queue_seen J.spec result works.new.items ≡ queue_seen J.spec dropped works.old.items }
    ensures as_many { result + length works.new.items ≡ dropped + length works.old.items }
    ensures capacity { deque_capacity works.new ≡ deque_capacity works.old }
    ensures fewer { length works.new.items ≤ length works.old.items }
{
    let mut gone = dropped;
    while is_completed(works.front()) {
        works.pop_front();
        gone += 1;
    }
    gone
}

/// Whether there is a work, and its completion has begun.
fn is_completed<J: Job>(first: Option<&Numbered<J>>) -> bool
    ensures { result ≡ option_map_or (λ n. is_done_in_queue (stage_seen J.spec n.now.stage)) first.entry false }
{
    match first {
        Some(numbered) => matches!(numbered.stage, WorkStage::Completed),
        None => false,
    }
}
