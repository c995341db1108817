//! How far each asynchronous hook has come, whatever became of it.
ghost use Rattle.std.specs.Prelude.{◌≡◌, ℕ, ◌+◌, ◌-◌, ◌<◌, ◌≤◌, ◌^◌, ◌∷◌, [], length, map, slice_get, false, not, None, Some, IfOk, IfErr, IfSome, OnOk, OnErr, option_map};
ghost use Rattle.std.specs.List.{All};
ghost use Rattle.std.specs.Result.{is_err};
ghost use Rattle.napi_types.specs.declared.status.Status.TheVariants as status;
ghost use Rattle.napi_types.specs.plain.Lists.{has_number};
ghost use Rattle.napi_types.specs.plain.Room.{one_if};
ghost use Rattle.napi_types.specs.parts.AsyncHooks.{is_held, is_waiting, ticket_of_set, async_hook, has_async_hook, set_ticket, count_waiting, with_async_hook, with_removed, with_begun, with_abandoned};
ghost use Rattle.cleanup_hooks.specs.AsyncRows.{hook_state_seen, abandoned_state, async_hook_of, async_hooks_of};

use napi_types::{NoMemory, Status, Ticket};
use std::alloc::Global;
use std::marker::Model;

/// How far an asynchronous hook has come.
#[derive(Clone, Copy)]
pub(crate) enum AsyncState {
    Set,
    Waiting,
    Abandoned,
    Removed,
}

impl AsyncState {
    /// Whether it was not removed.
    fn is_held(self) -> bool
        ensures { result ≡ is_held (hook_state_seen self) }
    {
        !matches!(self, AsyncState::Removed)
    }

    /// What becomes of it where the hooks that wait are abandoned.
    fn abandoned(self) -> AsyncState
        ensures { result ≡ abandoned_state self }
    {
        match self {
            AsyncState::Waiting => AsyncState::Abandoned,
            state => state,
        }
    }

    /// One where it waits, else none.
    fn counted(self) -> u64
        ensures { result ≡ one_if (is_waiting (hook_state_seen self)) }
    {
        match self {
            AsyncState::Waiting => 1,
            _ => 0,
        }
    }
}

/// An asynchronous hook.
#[derive(Clone, Copy)]
pub(crate) struct AsyncRow {
    pub(crate) ticket: Ticket,
    pub(crate) state: AsyncState,
}

impl AsyncRow {
    /// The ticket of a hook that is set.
    fn set_ticket(self) -> Option<Ticket>
        ensures { (n : ℕ) → option_map (λ t. t.0) result ≡ ticket_of_set (async_hook_of n self) (hook_state_seen self.state) }
    {
        match self.state {
            AsyncState::Set => Some(self.ticket),
            _ => None,
        }
    }
}

/// The row of a number.
fn row_of(rows: &[AsyncRow], number: u64) -> Option<AsyncRow>
    ensures told { option_map (async_hook_of number) result ≡ async_hook number (async_hooks_of rows.now) }
    ensures bound { length rows.now < 2 ^ 64 }
    ensures place { IfSome result (λ r. (1 ≤ number) × (slice_get rows.now (number - 1) ≡ Some r)) }
{
    let place = number.checked_sub(1)?;
    rows.get(place as usize).copied()
}

/// All asynchronous hooks that were ever added.
#[derive(Drop)]
pub(crate) struct AsyncTable {
    // The hook of the number n stands at n - 1. The tickets rise.
    rows: Vec<AsyncRow>,
    // How many of them wait.
    waiting: u64,
}

impl Model for AsyncTable {
    ghost use Rattle.std.specs.Prelude.{List};
    ghost use Rattle.napi_types.specs.parts.AsyncHooks.{AsyncHook};
    ghost use Rattle.cleanup_hooks.specs.AsyncRows.{async_hooks_of, IsKeptTable};

    ghost Value = { List AsyncHook };

    ghost view = { λ table. async_hooks_of table.rows.items };

    ghost invariant = { λ table. IsKeptTable table.rows.items table.waiting };
}

impl AsyncTable {
    /// No asynchronous hooks. It takes no memory.
    pub(crate) fn new(alloc: Global) -> AsyncTable
        ensures { result ≡ [] }
    {
        AsyncTable {
            rows: Vec::new(alloc),
            waiting: 0,
        }
    }

    /// How many were ever added.
    #[tactic(auto, using(crate::proofs::AsyncRows::length_from))]
    pub(crate) fn added(&self) -> u64
        ensures { result ≡ length self.now }
    {
        self.rows.len() as u64
    }

    /// The number of the hook that is added next, which none has.
    #[tactic(auto, using(crate::proofs::AsyncRows::length_from))]
    pub(crate) fn next(&self) -> u64
        requires few { length self.now < 2 ^ 62 }
        ensures next { result ≡ length self.now + 1 }
        ensures fresh { has_number result (0 ∷ map (λ h. h.number) self.now) ≡ false }
    {
        self.rows.len() as u64 + 1
    }

    /// Adds a hook, which is set. Its ticket is above those of all. Where there is no memory nothing changes.
    pub(crate) fn add(&mut self, ticket: Ticket) -> Result<(), NoMemory>
        requires few { length self.old < 2 ^ 62 }
        requires rising { All (λ h. h.ticket < ticket.0) self.old }
        ensures ok { OnOk result (self.new ≡ with_async_hook (length self.old + 1) ticket.0 self.old) }
        ensures err { OnErr result (self.new ≡ self.old) }
    {
        self.rows.push(AsyncRow {
            ticket,
            state: AsyncState::Set,
        })?;
        Ok(())
    }

    /// Removes a hook, and tells its ticket exactly where it was set. `InvalidArg` exactly where there is none of this number, or it was
    /// removed before: then nothing changes.
    pub(crate) fn remove(&mut self, number: u64) -> Result<Option<Ticket>, Status>
        ensures refused { is_err result ≡ not (has_async_hook number self.old) }
        ensures err { IfErr result (λ s. s ≡ status.InvalidArg) }
        ensures stays { OnErr result (self.new ≡ self.old) }
        ensures told { IfOk result (λ t. option_map (λ x. x.0) t ≡ set_ticket number self.old) }
        ensures removed { OnOk result (self.new ≡ with_removed number self.old) }
    {
        let Some(row) = row_of(&self.rows, number) else {
            return Err(Status::InvalidArg);
        };
        if !row.state.is_held() {
            return Err(Status::InvalidArg);
        }
        self.waiting -= row.state.counted();
        self.rows[(number - 1) as usize].state = AsyncState::Removed;
        Ok(row.set_ticket())
    }

    /// A hook begins: it waits. Where there is none of this number nothing changes.
    pub(crate) fn begin(&mut self, number: u64)
        ensures stays { async_hook number self.old ≡ None → self.new ≡ self.old }
        ensures begun { IfSome (async_hook number self.old) (λ h. self.new ≡ with_begun h.ticket self.old) }
    {
        let row = row_of(&self.rows, number);
        if let Some(row) = row {
            self.rows[(number - 1) as usize].state = AsyncState::Waiting;
            self.waiting += 1 - row.state.counted();
        }
    }

    /// How many hooks wait.
    pub(crate) fn waiting(&self) -> u64
        ensures { result ≡ count_waiting self.now }
    {
        self.waiting
    }

    /// The hooks that wait are abandoned.
    pub(crate) fn abandon(&mut self)
        ensures { self.new ≡ with_abandoned self.old }
    {
        for row in self.rows.iter_mut() {
            row.state = row.state.abandoned();
        }
        self.waiting = 0;
    }
}
