//! The works and the thread-safe functions of a hub: what they answer to each shared call, and what they do of their own.
ghost use Rattle.std.specs.Prelude.{◌≡◌, ◌↔◌, ◌+◌, ◌≤◌, ◌<◌, ◌&&◌, [], true, false, not, length, sum_by, is_some, option_map, Some, None, IfOk, IfSome, OnErr, IsTrue};
ghost use Rattle.napi_types.specs.parts.Pool.{new_pool, first_completion, executed_by, value_of_work, with_started, with_finished};
ghost use Rattle.napi_types.specs.plain.CallFacts.{group_of};
ghost use Rattle.napi_types.specs.plain.Guards.{is_shared, is_growing};
ghost use Rattle.napi_types.specs.plain.Lists.{is_empty};
ghost use Rattle.napi_types.specs.hub.Hub.{Hub};
ghost use Rattle.napi_types.specs.hub.HubMoves.{Delivers, first_move, hub_move, is_idle};
ghost use Rattle.napi_types.specs.plain.Room.{most_entries};
ghost use Rattle.async_work.specs.Picking.{is_closing, is_nothing, picked_work, first_to_start};
ghost use Rattle.tsfn.specs.FunctionList.{function_numbered, queued_items};
ghost use Rattle.shared_hub.specs.HubParts.{hub_with, parts_places, ArePartsWithin, MayQueue, IsMakeable, AnswersOrWaits, WouldAccept, after_move, drained_parts};
ghost use Rattle.shared_hub.specs.HubTries.{polled_move, IfBegun, unspent_job};

mod functions;
mod works;

use crate::tries::Polled;
use async_work::{Job, Picked, Pool, Ran};
use napi_types::{Actor, Call, CallGroup, Given, NoMemory, Reply, TsfnId};
use std::alloc::Global;
use std::marker::Model;
use tsfn::{Functions, Moved};

/// The works and the functions.
#[derive(Drop)]
pub(crate) struct SharedParts<J: Job> {
    pool: Pool<J>,
    functions: Functions,
}

impl<J: Job> Model for SharedParts<J> {
    ghost use Rattle.shared_hub.specs.HubParts.{HubParts};

    ghost Value = { HubParts };

    ghost view = { λ parts. record { pool = parts.pool; functions = parts.functions } };
}

impl<J: Job> SharedParts<J> {
    /// No works and no functions.
    pub(crate) fn new(alloc: Global) -> Result<SharedParts<J>, NoMemory>
        ensures { IfOk result (λ parts. parts ≡ record { pool = new_pool; functions = [] }) }
    {
        Ok(SharedParts {
            pool: Pool::new(alloc)?,
            functions: Functions::new(alloc),
        })
    }

    /// The hub's answer to a shared call of this group that the environment does not refuse, whoever makes it. `None` where it waits.
    ///
    /// Memory is wanted only by a call that grows, and only where it would be accepted.
    pub(crate) fn answer(
        &mut self,
        who: Actor,
        given: &Given,
        call: &Call,
        group: CallGroup,
    ) -> Result<Option<Reply>, NoMemory>
        requires shared { IsTrue (is_shared call.now) }
        requires group { group ≡ group_of call.now }
        requires within { ArePartsWithin self.old }
        requires queueing { MayQueue call.now self.old }
        requires makeable { IsMakeable given.now call.now }
        ensures ok { IfOk result (λ reply. AnswersOrWaits self.old who given.now call.now reply self.new) }
        ensures grows { OnErr result (is_growing call.now ≡ true) }
        ensures accepted { OnErr result ((h : Hub) → WouldAccept (hub_with self.old h) who given.now call.now) }
        ensures err { OnErr result (self.new ≡ self.old) }
    {
        match group {
            CallGroup::OnWorks => Ok(Some(self.answer_on_works(given, call)?)),
            CallGroup::OnTsfns => self.answer_on_functions(who, given, call),
            _ => unreachable!(),
        }
    }

    /// A worker starts the work that was queued first: see [`Pool::start`].
    pub(crate) fn start(&mut self, worker: u32) -> Picked<J>
        requires { executed_by self.old.pool worker ≡ None }
        ensures closing { is_closing result ≡ self.old.pool.closing }
        ensures nothing { is_nothing result ≡ (not self.old.pool.closing && is_empty self.old.pool.queued) }
        ensures none_queued { self.old.pool.closing ≡ true → self.old.pool.queued ≡ [] }
        ensures job { picked_work result ≡ first_to_start self.old.pool }
        ensures started { self.new ≡ record self.old { pool = with_started worker self.old.pool } }
    {
        self.pool.start(worker)
    }

    /// A worker finishes the work that it executes: see [`Pool::finish`].
    pub(crate) fn finish(&mut self, worker: u32, ran: Ran)
        requires executed { executed_by self.old.pool worker ≡ Some ran.number }
        requires value { ran.value ≡ value_of_work self.old.pool ran.number }
        ensures { self.new ≡ record self.old { pool = with_finished worker self.old.pool } }
    {
        self.pool.finish(worker, ran)
    }

    /// The hub's next move: the completion of the work that ended first begins, or else the function with the lowest number that has
    /// something to do does it.
    ///
    /// In logarithmic time over all moves. It takes no memory.
    pub(crate) fn take_move(&mut self) -> Polled<J>
        ensures told { (h : Hub) → polled_move result ≡ hub_move (hub_with self.old h) }
        ensures left { (h : Hub) → hub_with self.new h ≡ after_move (polled_move result) (hub_with self.old h) }
        ensures unspent { IfBegun result (λ due job. option_map J.spec job ≡ unspent_job self.old.pool due) }
    {
        if self.pool.has_finished() {
            self.take_completion()
        } else {
            self.take_tsfn_move()
        }
    }

    /// The completion of the work that ended first begins. `Nothing` exactly where none did, and nothing changes.
    fn take_completion(&mut self) -> Polled<J>
        ensures told { polled_move result ≡ option_map Delivers (first_completion self.old.pool) }
        ensures left { (h : Hub) → hub_with self.new h ≡ after_move (polled_move result) (hub_with self.old h) }
        ensures unspent { IfBegun result (λ due job. option_map J.spec job ≡ unspent_job self.old.pool due) }
    {
        let Some(finished) = self.pool.take_finished() else {
            return Polled::Nothing;
        };
        let (due, job) = finished.into_due();
        Polled::Begin(due, job)
    }

    /// The function with the lowest number that has something to do does it. `Nothing` exactly where none has, and nothing changes.
    fn take_tsfn_move(&mut self) -> Polled<J>
        ensures told { polled_move result ≡ first_move self.old.functions }
        ensures left { (h : Hub) → hub_with self.new h ≡ after_move (polled_move result) (hub_with self.old h) }
        ensures unspent { IfBegun result (λ due job. option_map J.spec job ≡ unspent_job self.old.pool due) }
    {
        match self.functions.take_move() {
            Some(Moved::Delivers(due)) => Polled::Begin(due, None),
            Some(Moved::Closes(id)) => Polled::Closed(id),
            Some(Moved::Finishes(id)) => Polled::Finished(id),
            None => Polled::Nothing,
        }
    }

    /// Whether the hub has a move. Constant time.
    pub(crate) fn has_move(&self) -> bool
        ensures { (h : Hub) → result ≡ is_some (hub_move (hub_with self.now h)) }
    {
        self.pool.has_finished() || self.functions.has_move()
    }

    /// No work starts any more, those that wait are cancelled, and every open function begins to close. How many works waited.
    ///
    /// In time linear in the works that waited and in the functions. It takes no memory.
    pub(crate) fn drain(&mut self) -> u64
        ensures count { result ≡ length self.old.pool.queued }
        ensures drained { self.new ≡ drained_parts self.old }
    {
        self.functions.close_all_open();
        self.pool.cancel_all_queued()
    }

    /// Whether nothing is left to do: no work, and every function for which the loop waits is done. Constant time.
    pub(crate) fn is_idle(&self) -> bool
        ensures { (h : Hub) → result ≡ is_idle (hub_with self.now h) }
    {
        self.pool.queued() == 0
            && self.pool.running() == 0
            && self.pool.finished() == 0
            && self.functions.are_done()
    }

    /// Whether a function has this number, and no item waits in its queue. Constant time.
    pub(crate) fn is_emptied(&self, id: TsfnId) -> bool
        ensures { (result ≡ true) ↔ (option_map queued_items (function_numbered id.0 self.now.functions) ≡ Some 0) }
    {
        self.functions.queued(id) == Some(0)
    }

    /// How many works wait for a worker. Constant time.
    pub(crate) fn queued(&self) -> u64
        ensures { result ≡ length self.now.pool.queued }
    {
        self.pool.queued()
    }

    /// How many works workers execute. Constant time.
    pub(crate) fn running(&self) -> u64
        ensures { result ≡ length self.now.pool.executions }
    {
        self.pool.running()
    }

    /// How many places of the history works and functions owe. Constant time.
    pub(crate) fn places(&self) -> u64
        requires { parts_places self.now ≤ most_entries }
        ensures { result ≡ parts_places self.now }
    {
        4 * self.pool.queued()
            + 3 * self.pool.running()
            + 2 * self.pool.finished()
            + self.functions.places()
    }
}
