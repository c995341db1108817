//! How far the hub has come, and which of its actors are left.
ghost use Rattle.std.specs.Prelude.{◌≡◌, ◌+◌, ◌-◌, ◌<◌, ◌==◌, ◌&&◌, true, false};
ghost use Rattle.napi_types.specs.hub.HubEvents.{is_moving};
ghost use Rattle.napi_types.specs.hub.ThreadSteps.{is_gone_on};
ghost use Rattle.shared_hub.specs.HubProgress.{hub_stage, progress_places, is_left, without_actor};

use napi_types::Actor;

/// Which of the hub's great events was the last.
#[derive(Clone, Copy, Debug, PartialEq, Eq)]
pub enum HubStage {
    /// None.
    Before,
    /// `go`.
    Live,
    /// `loop_end`.
    LoopEnded,
    /// `abandon`.
    HooksAbandoned,
    /// `drain`.
    Drained,
    /// `finals`.
    Final,
}

/// How far the hub has come, and how many threads and workers have not ended.
#[derive(Clone, Copy)]
pub(crate) struct HubProgress {
    pub(crate) stage: HubStage,
    pub(crate) threads_left: u32,
    pub(crate) workers_left: u32,
    /// How many workers there are.
    pub(crate) workers: u32,
    /// Whether the frame of a duty of the hub stands.
    pub(crate) stands: bool,
}

impl HubProgress {
    /// Before `go`, with so many threads and workers.
    pub(crate) fn new(threads: u32, workers: u32) -> HubProgress
        ensures { result ≡ record { stage = HubStage.Before; threads_left = threads; workers_left = workers; workers = workers; stands = false } }
    {
        HubProgress {
            stage: HubStage::Before,
            threads_left: threads,
            workers_left: workers,
            workers,
            stands: false,
        }
    }

    /// How many places of the history it owes: those of the great events that may still come, the end of each thread and each worker, and
    /// the end of the frame that stands. Constant time.
    pub(crate) fn places(&self) -> u64
        ensures { result ≡ progress_places self.now }
    {
        let events = match self.stage {
            HubStage::Before => 5,
            HubStage::Live => 4,
            HubStage::LoopEnded => 3,
            HubStage::HooksAbandoned => 2,
            HubStage::Drained => 1,
            HubStage::Final => 0,
        };
        events
            + u64::from(self.threads_left)
            + u64::from(self.workers_left)
            + u64::from(self.stands)
    }

    /// A thread or a worker has ended.
    pub(crate) fn end(&mut self, actor: Actor)
        requires { is_left actor self.old ≡ true }
        ensures { self.new ≡ without_actor actor self.old }
    {
        match actor {
            Actor::Env => {}
            Actor::Thread(_) => self.threads_left -= 1,
            Actor::Worker(_) => self.workers_left -= 1,
        }
    }

    /// Whether the hub makes moves at this stage, where no frame of its own stands. Constant time.
    pub(crate) fn is_moving(&self) -> bool
        ensures { result ≡ is_moving (hub_stage self.now.stage) }
    {
        match self.stage {
            HubStage::Before | HubStage::Final => false,
            HubStage::Live | HubStage::LoopEnded | HubStage::HooksAbandoned | HubStage::Drained =>
                true,
        }
    }

    /// Whether every thread and every worker has ended. Constant time.
    pub(crate) fn is_deserted(&self) -> bool
        ensures { result ≡ ((self.now.threads_left == 0) && (self.now.workers_left == 0)) }
    {
        self.threads_left == 0 && self.workers_left == 0
    }

    /// Whether `go` has happened. Constant time.
    pub(crate) fn is_live(&self) -> bool
        ensures { result ≡ is_gone_on (hub_stage self.now.stage) }
    {
        self.stage != HubStage::Before
    }
}
