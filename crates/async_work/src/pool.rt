//! The pool.
ghost use Rattle.std.specs.Prelude.{◌≡◌, ◌+◌, ◌<◌, ◌^◌, ◌==◌, ◌&&◌, [], ◌∷◌, true, false, not, cond, length, filter, option_map};
ghost use Rattle.std.specs.Prelude.{None, Some, IfSome, IfOk, OnOk, OnErr};
ghost use Rattle.std.specs.Option.{is_none, is_some, option_map_or};
ghost use Rattle.std.specs.Result.{result_err};
ghost use Rattle.napi_types.specs.plain.Lists.{has_number, head, tail, is_empty};
ghost use Rattle.napi_types.specs.parts.Pool.{new_pool, work_at, work_state, work_refusal, number_of_work, new_number, executed_by, value_of_work, completion_info, first_completion, with_work, without_work, with_queued, with_cancelled, cancelled_at, with_started, with_finished, with_completed, drained};
ghost use Rattle.napi_types.specs.parts.Works.{is_created, is_queued, is_deletable};
ghost use Rattle.async_work.specs.Queue.{outcome_seen, outcome_status, outcome_of, stage_seen, stage_state, Done};
ghost use Rattle.async_work.specs.Picking.{is_closing, is_nothing, picked_work, finished_info, first_to_start, unspent_spec};
ghost use Rattle.async_work.specs.WorkPlaces.{place_seen, work_of};
ghost use Rattle.async_work.specs.WorkStates.{state_seen, state_number};

use crate::place::{self, Standing, WorkPlace};
use crate::queue::{EndedWork, Ending, WorkQueue, WorkStage};
use crate::room::reserve_amply;
use crate::{Job, Ran, Running};
use generation_slab::GenerationSlab;
use napi_types::{Cause, Due, DueInfo, Duty, JobSpec, NoMemory, Slip, Status, WorkId};
use std::alloc::Global;
use std::collections::VecDeque;
use std::marker::Model;

/// A work that has ended, as its completion begins: the manual's `complete` callback. It has to be spent, by [`Finished::into_due`].
pub struct Finished<J> {
    // The memory for the line of its completion in a list of what was seen.
    slip: Slip,
    // The number of the work in the order of queueing.
    number: u64,
    // The addon that is told, counted from 0.
    addon: u32,
    // The entry of the addon that runs, counted from 0.
    entry: u32,
    // The data that it is given.
    payload: u64,
    // `Ok` where its job ran, `Cancelled` where it was cancelled before.
    status: Status,
    // The value that its job computed, 0 where it was cancelled.
    value: u64,
    // Its job, where it was cancelled.
    job: Option<J>,
}

impl<J> Finished<J> {
    /// Its completion, which is due, and its job, which is there exactly where it was cancelled.
    ///
    /// Constant time. It takes no memory.
    pub fn into_due(self) -> (Due, Option<J>)
        ensures due { result.0 ≡ finished_info self }
        ensures job { result.1 ≡ self.job }
    {
        let Finished {
            slip,
            number,
            addon,
            entry,
            payload,
            status,
            value,
            job,
        } = self;
        let due = slip.arm(DueInfo {
            duty: Duty::Work(number),
            cause: Cause::Complete,
            addon,
            entry,
            status,
            gifts: [status.number() as u64, value, payload, 0, 0, 0, 0, 0],
            runs: true,
        });
        (due, job)
    }
}

/// What a worker is to do. A work has to be spent.
pub enum Picked<J: Job> {
    /// It executes this work.
    Job(Running<J>),
    /// No work waits.
    Nothing,
    /// No work starts any more.
    Closing,
}

/// The asynchronous works. Each has an id and, from its queueing on, a number in the order of queueing.
#[derive(Drop)]
pub struct Pool<J: Job> {
    // The works that were created and not deleted.
    places: GenerationSlab<WorkPlace<J>>,
    // There is room for each work that was created and not queued.
    line: WorkQueue<J>,
    // So many of the first works of the queue are no longer queued.
    first: u64,
    // Works that have ended and whose completion has not begun, in the order of finishing. There is room for each work that has not ended.
    finished: VecDeque<EndedWork<J>>,
    // How many works were created and not queued.
    created: u64,
    queued: u64,
    running: u64,
    closing: bool,
    alloc: Global,
}

impl<J: Job> Model for Pool<J> {
    ghost use Rattle.std.specs.VecDeque.{deque_capacity};
    ghost use Rattle.napi_types.specs.parts.Pool.{WorkPool};
    ghost use Rattle.async_work.specs.KeptPool.{pool_of, IsKeptPool};
    ghost use Rattle.async_work.specs.Queue.{outcomes_seen};
    ghost use Rattle.async_work.specs.WorkPlaces.{places_seen};

    ghost Value = { WorkPool };

    ghost view = { λ pool.
        pool_of (places_seen J.spec pool.places) pool.places.issued pool.line.works (outcomes_seen J.spec pool.finished.items)
        pool.closing };

    ghost invariant = { λ pool.
        IsKeptPool (places_seen J.spec pool.places) pool.places.issued pool.line.works (outcomes_seen J.spec pool.finished.items)
        pool.first pool.created pool.queued pool.running pool.closing pool.line.room (deque_capacity pool.finished) };
}

/// How far a work has come.
#[derive(Clone, Copy)]
enum WorkProgress {
    Created,
    /// Under this number.
    Queued(u64),
    Running,
    Finished,
    Completed,
}

impl WorkProgress {
    /// Whether a work that has come so far may be deleted.
    fn is_deletable(self) -> bool
        ensures { result ≡ is_deletable (state_seen self) }
    {
        matches!(self, WorkProgress::Created | WorkProgress::Completed)
    }

    /// 1 where the work was not queued, else 0.
    fn unqueued(self) -> u64
        ensures { result ≡ cond (is_created (state_seen self)) 1 0 }
    {
        match self {
            WorkProgress::Created => 1,
            _ => 0,
        }
    }
}

impl<J: Job> Pool<J> {
    /// No works.
    pub fn new(alloc: Global) -> Result<Pool<J>, NoMemory>
        ensures { IfOk result (λ pool. pool ≡ new_pool) }
    {
        Ok(Pool {
            places: GenerationSlab::new(alloc),
            line: WorkQueue::new(alloc),
            first: 0,
            finished: VecDeque::new(alloc),
            created: 0,
            queued: 0,
            running: 0,
            closing: false,
            alloc,
        })
    }

    /// Creates a work: the manual's `napi_create_async_work`. Its job computes what `spec` says; its completion runs an entry of an
    /// addon, which is given the payload. Its id was never issued before, and is not 0. Fewer than 2^48 - 2 works were created before.
    ///
    /// Near constant time: now and then the lists of works grow. It takes all memory that the work will want.
    pub fn create(
        &mut self,
        spec: JobSpec,
        addon: u32,
        entry: u32,
        payload: u64,
    ) -> Result<WorkId, NoMemory>
        requires { length self.old.issued + 2 < 2 ^ 48 }
        ensures fresh { IfOk result (λ id. has_number id.0 (0 ∷ self.old.issued) ≡ false) }
        ensures made { IfOk result (λ id. self.new ≡ with_work id.0 spec addon entry payload self.old) }
        ensures err { OnErr result (self.new ≡ self.old) }
    {
        let created = self.created + 1;
        self.line.reserve(created as usize)?;
        reserve_amply(
            &mut self.finished,
            (created + self.queued + self.running) as usize,
        )?;
        let slip = Slip::new(self.alloc)?;
        let id = self.places.make(WorkPlace {
            spec,
            addon,
            entry,
            payload,
            standing: Standing::Created(J::of(spec), slip),
        })?;
        self.created = created;
        Ok(WorkId(id))
    }

    /// Deletes a work: the manual's `napi_delete_async_work`. Refused with 1 where no work has the id, and with 9 where it is queued,
    /// running or finished.
    ///
    /// Constant time. It takes no memory.
    pub fn delete(&mut self, id: WorkId) -> Result<(), Status>
        ensures refusal { result_err result ≡ work_refusal is_deletable self.old id.0 }
        ensures ok { OnOk result (self.new ≡ without_work id.0 self.old) }
        ensures err { OnErr result (self.new ≡ self.old) }
    {
        let state = self.state(id).ok_or(Status::InvalidArg)?;
        if !state.is_deletable() {
            return Err(Status::GenericFailure);
        }
        self.created -= state.unqueued();
        self.places.free(id.0);
        Ok(())
    }

    /// Queues a work, and answers its number in the order of queueing: the manual's `napi_queue_async_work`. Refused with 1 where no
    /// work has the id, and with 9 where it was queued before.
    ///
    /// Constant time. It takes no memory.
    pub fn queue(&mut self, id: WorkId) -> Result<u64, Status>
        requires { self.old.closing ≡ false }
        ensures refusal { result_err result ≡ work_refusal is_created self.old id.0 }
        ensures number { IfOk result (λ number. number ≡ new_number self.old) }
        ensures ok { OnOk result (self.new ≡ with_queued id.0 self.old) }
        ensures err { OnErr result (self.new ≡ self.old) }
    {
        let WorkProgress::Created = self.state(id).ok_or(Status::InvalidArg)? else {
            return Err(Status::GenericFailure);
        };
        let number = self.line.len() + 1;
        let (job, slip) = place::give_number(&mut self.places, id.0, number);
        self.line.push(id.0, job, slip);
        self.created -= 1;
        self.queued += 1;
        Ok(number)
    }

    /// Cancels a work that is still queued: the manual's `napi_cancel_async_work`. It ends as cancelled, behind all that ended before, and
    /// its job never runs. Refused with 1 where no work has the id, and with 9 where it is not queued.
    ///
    /// Constant time. It takes no memory, and moves no other work.
    pub fn cancel(&mut self, id: WorkId) -> Result<(), Status>
        ensures refusal { result_err result ≡ work_refusal is_queued self.old id.0 }
        ensures ok { OnOk result (self.new ≡ with_cancelled id.0 self.old) }
        ensures err { OnErr result (self.new ≡ self.old) }
    {
        let WorkProgress::Queued(number) = self.state(id).ok_or(Status::InvalidArg)? else {
            return Err(Status::GenericFailure);
        };
        self.cancel_queued(number);
        Ok(())
    }

    /// A worker that executes nothing starts the work that was queued first. `Nothing` comes exactly where none waits and the pool is not
    /// closing, `Closing` exactly where it is.
    ///
    /// Constant time over all starts: it passes over each work that was cancelled once. It takes no memory.
    pub fn start(&mut self, worker: u32) -> Picked<J>
        requires { executed_by self.old worker ≡ None }
        ensures closing { is_closing result ≡ self.old.closing }
        ensures nothing { is_nothing result ≡ (not self.old.closing && is_empty self.old.queued) }
        ensures none_queued { self.old.closing ≡ true → self.old.queued ≡ [] }
        ensures job { picked_work result ≡ first_to_start self.old }
        ensures started { self.new ≡ with_started worker self.old }
    {
        if self.closing {
            return Picked::Closing;
        }
        let Some(number) = self.first_queued() else {
            return Picked::Nothing;
        };
        let job = self.line.start(number, worker);
        self.queued -= 1;
        self.running += 1;
        Picked::Job(Running::new(number, job))
    }

    /// A worker finishes the work that it executes, which ends behind all that ended before.
    ///
    /// Constant time. It takes no memory.
    pub fn finish(&mut self, worker: u32, ran: Ran)
        requires executed { executed_by self.old worker ≡ Some ran.number }
        requires value { ran.value ≡ value_of_work self.old ran.number }
        ensures { self.new ≡ with_finished worker self.old }
    {
        let (number, value) = ran.into_parts();
        let outcome = self.line.finish(number, value);
        self.finished.push_back_reserved(outcome);
        self.running -= 1;
    }

    /// The completion begins of the work that ended first. `None` exactly where none is finished. Its job is there exactly where it
    /// was cancelled.
    ///
    /// Constant time over all completions: the queue lets each work go once. It takes no memory.
    pub fn take_finished(&mut self) -> Option<Finished<J>>
        ensures none { is_none result ≡ is_empty self.old.finished }
        ensures told { option_map finished_info result ≡ first_completion self.old }
        ensures unspent { IfSome result (λ f. option_map J.spec f.job ≡ unspent_spec self.old f.number f.status) }
        ensures taken { self.new ≡ with_completed self.old }
    {
        let outcome = self.finished.pop_front()?;
        let id = self.line.complete(outcome.number);
        let Some(place) = place::place_of(&self.places, id) else {
            unreachable!()
        };
        Some(finished_of(place, outcome))
    }

    /// No work starts any more, and those that wait are cancelled in their order. How many they were.
    ///
    /// In time linear in how many were queued. It takes no memory.
    pub fn cancel_all_queued(&mut self) -> u64
        ensures number { result ≡ length self.old.queued }
        ensures drained { self.new ≡ drained self.old }
    {
        let count = self.queued;
        while let Some(number) = self.first_queued() {
            self.cancel_queued(number);
        }
        self.closing = true;
        count
    }

    /// Whether no work starts any more. Constant time.
    pub fn is_closing(&self) -> bool
        ensures { result ≡ self.now.closing }
    {
        self.closing
    }

    /// Whether a work has ended whose completion has not begun. Constant time.
    pub fn has_finished(&self) -> bool
        ensures { result ≡ is_some (first_completion self.now) }
    {
        !self.finished.is_empty()
    }

    /// How many works wait for a worker. Constant time.
    pub fn queued(&self) -> u64
        ensures { result ≡ length self.now.queued }
    {
        self.queued
    }

    /// How many works workers execute. Constant time.
    pub fn running(&self) -> u64
        ensures { result ≡ length self.now.executions }
    {
        self.running
    }

    /// How many works have ended and not begun their completion. Constant time.
    pub fn finished(&self) -> u64
        ensures { result ≡ length self.now.finished }
    {
        self.finished.len() as u64
    }

    /// How far the work of an id has come.
    fn state(&self, id: WorkId) -> Option<WorkProgress>
        ensures state { option_map state_seen result ≡ option_map (work_state self.now) (work_at self.now id.0) }
        ensures number { IfSome result (λ s. IfSome (state_number s) (λ n. number_of_work self.now id.0 ≡ Some n)) }
    {
        let place = place::place_of(&self.places, id.0)?;
        let Standing::Numbered(number) = place.standing else {
            return Some(WorkProgress::Created);
        };
        Some(progress_of(self.line.stage(number), number))
    }

    /// The number of the work that was queued first, where one waits.
    fn first_queued(&mut self) -> Option<u64>
        ensures first { result ≡ head self.old.queued }
        ensures rest { IfSome (head self.old.queued) (λ n. filter (λ m. not (m == n)) self.old.queued ≡ tail self.old.queued) }
        ensures same { self.new ≡ self.old }
    {
        let end = self.line.len();
        self.first = self.line.next_queued(self.first);
        if self.first == end {
            return None;
        }
        Some(self.first + 1)
    }

    /// A work that is still queued ends as cancelled.
    fn cancel_queued(&mut self, number: u64)
        requires { has_number number self.old.queued ≡ true }
        ensures { self.new ≡ cancelled_at (Some number) self.old }
    {
        let outcome = self.line.cancel(number);
        self.finished.push_back_reserved(outcome);
        self.queued -= 1;
    }
}

/// How far a work of this number has come that is at this stage, or no longer kept in the queue.
fn progress_of<J: Job>(stage: Option<&WorkStage<J>>, number: u64) -> WorkProgress
    ensures state { state_seen result ≡ stage_state (option_map_or (λ s. stage_seen J.spec s.now) stage.entry Done) }
    ensures number { IfSome (state_number result) (λ n. n ≡ number) }
{
    let Some(stage) = stage else {
        return WorkProgress::Completed;
    };
    match stage {
        WorkStage::Queued(..) => WorkProgress::Queued(number),
        WorkStage::Running(..) => WorkProgress::Running,
        WorkStage::Finished => WorkProgress::Finished,
        WorkStage::Completed => WorkProgress::Completed,
    }
}

/// What begins with the completion of a work that ended so.
fn finished_of<J: Job>(place: &WorkPlace<J>, outcome: EndedWork<J>) -> Finished<J>
    ensures told { finished_info result ≡ completion_info (work_of 0 (place_seen J.spec place.now)) (outcome_of (outcome_seen J.spec outcome)) }
    ensures unspent { option_map J.spec result.job ≡ (outcome_seen J.spec outcome).unspent }
    ensures number { result.number ≡ outcome.number }
    ensures status { result.status ≡ outcome_status (outcome_seen J.spec outcome).unspent }
{
    let EndedWork {
        number,
        slip,
        ending,
    } = outcome;
    let (status, value, job) = match ending {
        Ending::Ran(value) => (Status::Ok, value, None),
        Ending::Cancelled(job) => (Status::Cancelled, 0, Some(job)),
    };
    Finished {
        slip,
        number,
        addon: place.addon,
        entry: place.entry,
        payload: place.payload,
        status,
        value,
        job,
    }
}
