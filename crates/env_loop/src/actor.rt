//! Turns of the threads of a script and of workers.
ghost use Rattle.std.specs.Prelude.{◌≡◌, ◌≢◌, ◌↔◌, ◌≤◌, length, true, IsTrue};
ghost use Rattle.std.specs.List.{All};
ghost use Rattle.env_loop.specs.ActorRuns.{IsOperationOfThread, new_thread, new_worker, AddsEntryOf};
ghost use Rattle.env_loop.specs.ActorTurns.{actor_of, is_over, IsActorOf, IsReady, HoldsNoneExecuted, HoldsNoWork, with_work_executed, IsSameActor, IsUnstartedActor, unstarted_run, IsBlocked, StoppedSo};

pub mod standing;
mod thread;
mod unstarted;
mod worker;

use async_work::Job;
use napi_types::OpList;
use shared_hub::{HubState, Naming};
pub use thread::ThreadRun;
pub use unstarted::{UnstartedActor, UnstartedThread};
pub use worker::WorkerRun;

/// What a turn of a thread or a worker comes out as.
#[derive(Clone, Copy, Debug, PartialEq, Eq)]
pub enum ActorTurn {
    /// It made one entry of the history.
    Made,
    /// It waits: a thread before `go`, or at a full queue where the history has room for its call; a worker for a work or for the drain. Nothing changed.
    Blocked,
    /// It has ended. Nothing changed.
    Ended,
}

/// What an actor does next, as far as its script and its hands say.
#[derive(Clone, Copy, Debug, PartialEq, Eq)]
pub enum NextStep {
    /// A thread makes an operation of its script.
    Operation,
    /// A thread ends, or has ended.
    Ends,
    /// A worker executes the work that it started.
    Executes,
    /// A worker finishes, starts or ends at the hub, or has ended.
    Serves,
}

/// The run of a thread of a script, or of a worker. It has to be spent, by [`ActorRun::retire`].
pub enum ActorRun<J: Job> {
    OfThread(ThreadRun),
    OfWorker(WorkerRun<J>),
}

impl<J: Job> ActorRun<J> {
    /// The thread of this number, counted from 0, before its first turn. Its operations, at most 16,384, are of the three kinds that threads make.
    pub fn thread(number: u32, operations: OpList) -> ActorRun<J>
        requires few { length operations ≤ 16384 }
        requires kinds { All IsOperationOfThread operations }
        ensures { result ≡ ActorRun.OfThread (new_thread number operations) }
    {
        ActorRun::OfThread(ThreadRun::new(number, operations))
    }

    /// The worker of this number, counted from 0, before its first turn.
    pub fn worker(number: u32) -> ActorRun<J>
        ensures { result ≡ ActorRun.OfWorker (new_worker number) }
    {
        ActorRun::OfWorker(WorkerRun::new(number))
    }

    /// What it does next. A contract tells of it alone whether a work is to be executed before the next turn. Constant time.
    pub fn next_step(&self) -> NextStep
        ensures { result ≢ NextStep.Executes → IsReady self.now }
    {
        match self {
            ActorRun::OfThread(thread) => thread.next_step(),
            ActorRun::OfWorker(worker) => worker.next_step(),
        }
    }

    /// Executes the work that it started, where it is a worker that holds one. It takes as long as the job does.
    pub fn between(&mut self)
        ensures { self.new ≡ with_work_executed self.old }
    {
        match self {
            ActorRun::OfThread(_) => {}
            ActorRun::OfWorker(worker) => worker.between(),
        }
    }

    /// Makes its next entry: a thread the next call of its script, or its end; a worker the finish of the work that it executed, the start of the
    /// work that was queued first, or its end from the drain on. A thread's call that stops ends it in the same turn, cut.
    ///
    /// As near constant time as the hub's calls. Only a thread's call can meet want of memory.
    pub fn turn<N: Naming>(&mut self, hub: &mut HubState<J, N>) -> ActorTurn
        requires stands { IsActorOf N.numbers hub.old self.old }
        requires ready { IsReady self.old }
        ensures stands { IsActorOf N.numbers hub.new self.new }
        ensures actor { IsSameActor self.old self.new }
        ensures made { result ≡ ActorTurn.Made → AddsEntryOf (actor_of self.old) hub.old hub.new }
        ensures blocked { result ≡ ActorTurn.Blocked → IsBlocked N.numbers hub.old self.old }
        ensures same { result ≢ ActorTurn.Made → (hub.new ≡ hub.old) × (self.new ≡ self.old) }
        ensures ended { (result ≡ ActorTurn.Ended) ↔ IsTrue (is_over self.old) }
        ensures cut { is_over self.new ≡ true → StoppedSo N.numbers hub.old self.old }
        ensures unexecuted { result ≡ ActorTurn.Made → HoldsNoneExecuted self.new }
    {
        match self {
            ActorRun::OfThread(thread) => thread.turn(hub),
            ActorRun::OfWorker(worker) => worker.turn(hub),
        }
    }

    /// What it is made of, where no turn of it was made.
    pub fn into_unstarted(self) -> UnstartedActor
        requires { IsUnstartedActor self }
        ensures { unstarted_run result ≡ self }
    {
        match self {
            ActorRun::OfThread(thread) => UnstartedActor::Thread(thread.into_unstarted()),
            ActorRun::OfWorker(worker) => UnstartedActor::Worker(worker.into_number()),
        }
    }

    /// Ends the value, without an event. Nothing that it started is lost: it holds no work.
    pub fn retire(self)
        requires { HoldsNoWork self }
    {
        match self {
            ActorRun::OfThread(thread) => thread.retire(),
            ActorRun::OfWorker(worker) => worker.retire(),
        }
    }
}

impl UnstartedActor {
    /// Its run, before its first turn.
    pub fn into_run<J: Job>(self) -> ActorRun<J>
        ensures { result ≡ unstarted_run self }
    {
        match self {
            UnstartedActor::Thread(thread) => {
                let (number, operations) = thread.into_parts();
                ActorRun::thread(number, operations)
            }
            UnstartedActor::Worker(number) => ActorRun::worker(number),
        }
    }
}
