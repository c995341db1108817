//! The state of the hub, with its history.
ghost use Rattle.std.specs.Prelude.{◌≡◌, ◌+◌, ◌≤◌, ◌↔◌, ◌&&◌, [], true, IfOk};
ghost use Rattle.napi_types.specs.plain.Room.{most_entries};
ghost use Rattle.napi_types.specs.hub.HistoryRoom.{reserved_history};
ghost use Rattle.napi_types.specs.hub.HubEvents.{may_move};
ghost use Rattle.napi_types.specs.hub.ThreadSteps.{is_gone_on};
ghost use Rattle.shared_hub.specs.HubProgress.{hub_stage, IsAtStage};
ghost use Rattle.shared_hub.specs.HubStates.{hub_seen};
ghost use Rattle.shared_hub.specs.KeptHubs.{IsLedHub};

mod calls;
mod events;
mod moves;
mod workers;

use crate::naming::Naming;
use crate::parts::SharedParts;
use crate::progress::{HubProgress, HubStage};
use crate::room::FIRST_PLACES;
use crate::sleepers::{Sleepers, WaitsFor};
use async_work::Job;
use napi_types::{Entry, EntryList, Limits, Listed, NoMemory};
use std::alloc::Global;
use std::marker::{Model, PhantomData};
use turn_lock::Told;

/// The state of a hub: its works, its thread-safe functions, how far it has come, and its history.
///
/// Each call that changes it adds one entry to the history, which its contract names. Every other outcome changes nothing.
#[derive(Drop)]
pub struct HubState<J: Job, N: Naming> {
    entries: Vec<Entry>,
    limit: u32,
    parts: SharedParts<J>,
    progress: HubProgress,
    // No contract sees it.
    sleepers: Sleepers,
    of: PhantomData<N>,
}

impl<J: Job, N: Naming> Model for HubState<J, N> {
    ghost use Rattle.std.specs.Prelude.{vec_capacity};
    ghost use Rattle.shared_hub.specs.HubStates.{HubSeen, hub_seen, led_by};
    ghost use Rattle.shared_hub.specs.KeptHubs.{IsKeptHistory, AreFieldsOf};

    ghost Value = { HubSeen };

    ghost view = { λ s. hub_seen N.numbers s.entries.items };

    ghost invariant = { λ s. IsKeptHistory N.numbers s.entries.items s.limit (vec_capacity s.entries)
        × AreFieldsOf (led_by N.numbers s.entries.items) s.parts s.progress };
}

impl<J: Job, N: Naming> Told for HubState<J, N> {
    ghost use Rattle.shared_hub.specs.HubRows.{rows_of};

    ghost told = { λ s. rows_of N.numbers.threads s.history };

    fn told_len(&self) -> u64 {
        self.entries.len() as u64
    }
}

impl<J: Job, N: Naming> HubState<J, N> {
    /// A hub as it opens, with an empty history, for these threads and workers. `limits.history` is from `5 + threads + workers`, the places
    /// of the events that a run may always have, to 4,194,304; `limits.journal` is not read. The memory of the history's first places is taken
    /// here.
    pub fn new(
        alloc: Global,
        threads: u32,
        workers: u32,
        limits: Limits,
    ) -> Result<HubState<J, N>, NoMemory>
        requires named { N.numbers ≡ record { threads = threads; workers = workers; limits = limits } }
        requires room { 5 + threads + workers ≤ limits.history }
        requires most { limits.history ≤ most_entries }
        ensures { IfOk result (λ state. state ≡ hub_seen N.numbers []) }
    {
        let owed = 5 + threads + workers;
        let first = FIRST_PLACES.min(limits.history).max(owed);
        Ok(HubState {
            entries: Vec::with_capacity(alloc, first as usize)?,
            limit: limits.history,
            parts: SharedParts::new(alloc)?,
            progress: HubProgress::new(threads, workers),
            sleepers: Sleepers::new(),
            of: PhantomData,
        })
    }

    /// The history. Constant time.
    pub fn history(&self) -> &[Entry]
        ensures { result.now ≡ self.now.history }
    {
        &self.entries
    }

    /// Hands out the history. All else is dropped. It takes no memory.
    pub fn into_history(self) -> EntryList
        ensures { result ≡ self.history }
    {
        let HubState {
            entries,
            limit: _,
            parts: _,
            progress: _,
            sleepers: _,
            of: _,
        } = self;
        Listed::of(entries)
    }

    /// Whether `go` has happened, also after `loop_end`. Constant time.
    pub fn is_live(&self) -> bool
        ensures { result ≡ is_gone_on self.now.hub.stage }
    {
        self.progress.is_live()
    }

    /// Whether the hub is at this stage, and no frame of its own stands: where `go`, `loop_end`, `abandon`, `drain` and `finals` ask for
    /// that stage they may be called. Constant time.
    pub fn is_at(&self, stage: HubStage) -> bool
        ensures { (result ≡ true) ↔ IsAtStage (hub_stage stage) self.now.hub }
    {
        self.progress.stage == stage && !self.progress.stands
    }

    /// Whether the hub may be asked for its next move: see [`HubState::poll`]. Constant time.
    pub fn may_poll(&self) -> bool
        ensures { result ≡ may_move self.now.hub }
    {
        self.progress.is_moving() && !self.progress.stands
    }

    /// No effect. Its clauses are the invariant of the type: the history replays and has led to the hub, at the numbers that the type
    /// names, and its entries and the places that it owes are within the limit.
    pub fn invariant(&self)
        ensures { IsLedHub N.numbers self.now }
    {
        let _limit = self.limit;
    }

    /// Notes that the thread that holds the turn waits for `go`. No answer of the hub says so, since it makes no call before. No contract depends on the note.
    pub fn wait_for_go(&mut self)
        ensures { self.new ≡ self.old }
    {
        self.sleepers.wait_for(WaitsFor::Go);
    }

    /// For what the one that holds the turn waits, where the hub's last answer said that it does. Nothing is noted of that any more. Who will not sleep takes
    /// the note so, before it gives the turn back. No contract depends on it.
    pub fn take_wait(&mut self) -> Option<WaitsFor>
        ensures { self.new ≡ self.old }
    {
        self.sleepers.take_wait()
    }

    /// Notes that the pass of this number, from 0 to 63, sleeps until it is rung. No contract depends on the note, and it takes no memory.
    pub fn note_sleep(&mut self, number: u32, why: WaitsFor)
        ensures { self.new ≡ self.old }
    {
        self.sleepers.fall_asleep(number, why);
    }

    /// The passes that are to be rung, a bit for each number. None is to be rung after that. No contract depends on them.
    pub fn take_rings(&mut self) -> u64
        ensures { self.new ≡ self.old }
    {
        self.sleepers.take_rings()
    }

    /// How often it was noted that a pass will sleep. No contract depends on it: see [`HubState::note_sleep`].
    pub fn sleeps(&self) -> u64 {
        self.sleepers.sleeps()
    }

    /// How many workers there are. Constant time.
    pub fn workers(&self) -> u32
        ensures { result ≡ self.now.hub.workers }
    {
        self.progress.workers
    }

    /// How many places the history owes. Constant time.
    fn reserved(&self) -> u32
        ensures { result ≡ reserved_history self.now.hub }
    {
        (self.progress.places() + self.parts.places()) as u32
    }
}
