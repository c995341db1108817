//! Promises and their deferreds.
ghost use Rattle.std.specs.Prelude.{◌≡◌, ◌≤◌, ◌<◌, ◌^◌, ◌++◌, ◌∷◌, ◌↔◌, ℕ, Some, true, false, is_none, length, map, option_map, IsSome, IfOk, OnOk, OnErr};
ghost use Rattle.std.specs.Result.{result_err};
ghost use Rattle.napi_types.specs.declared.status.Status.TheVariants as status;
ghost use Rattle.napi_types.specs.plain.Lists.{has_number, HaveSameNumbers, when};
ghost use Rattle.napi_types.specs.parts.Book.{new_ticket, ticket_duty, with_registration};
ghost use Rattle.napi_types.specs.parts.Promises.{promise_at, promise_state, state_now, reactions_of, is_reaction_of, deferred_promise, promise_roots, promises_left, with_promise, with_settled, with_reaction, reactions_settled};
ghost use Rattle.napi_types.specs.environment.PromiseCalls.{reaction_state, reaction_of};
ghost use Rattle.finalizer_queue.specs.TicketRows.{registration_of};
ghost use Rattle.wrap_tag.specs.Wraps.{is_one_of};

use super::Registry;
use deferred::Deferreds;
use finalizer_queue::{Book, NewDuty};
use napi_types::{Cause, DeferredId, Duty, NoMemory, Status, Ticket, ValueId};

/// Each of these values that was a promise is none any more.
pub(super) fn take_away(promises: &mut Deferreds, values: &[ValueId])
    ensures { promises.new.promises ≡ promises_left (is_one_of values.now) promises.old.promises }
{
    for value in values {
        promises.gone(*value);
    }
}

/// A reaction as it is registered, with the state that its promise has then.
fn reaction_duty(addon: u32, entry: u32, payload: u64, state: u8) -> NewDuty
    ensures { record (registration_of result) { state = reaction_state state } ≡ reaction_of addon entry payload state }
{
    NewDuty {
        cause: Cause::Reaction,
        addon,
        entry,
        payload,
        hint: state as u64,
    }
}

/// Registers a reaction, which is due at once where its promise is settled: its ticket. The memory for it was taken before.
fn register_reaction(book: &mut Book, duty: NewDuty, state: u8) -> Ticket
    requires reserved { 0 < book.old.spare }
    requires few { length book.old.book < 2 ^ 62 }
    ensures ticket { result.0 ≡ new_ticket book.old.book }
    ensures registered { book.new.book ≡ with_registration (record (registration_of duty) { state = reaction_state state }) book.old.book }
{
    let ticket = book.register(duty);
    if state != 0 {
        book.make_due(ticket);
    }
    ticket
}

impl Registry {
    /// Takes the memory for one promise more: [`Registry::make_promise`] then takes none.
    pub fn reserve_promise(&mut self) -> Result<(), NoMemory>
        ensures place { OnOk result (0 < self.new.deferreds) }
        ensures same { self.new.parts ≡ self.old.parts }
    {
        self.promises.reserve()
    }

    /// Makes a promise of a value, which is pending, and its deferred. The number of the deferred was never issued before, and is not 0.
    ///
    /// It takes no memory: [`Registry::reserve_promise`] took it before.
    pub fn make_promise(&mut self, value: ValueId) -> DeferredId
        requires place { 0 < self.old.deferreds }
        requires few { length self.old.parts.promises.issued < 2 ^ 62 }
        ensures fresh { has_number result.0 (0 ∷ self.old.parts.promises.issued) ≡ false }
        ensures made { self.new.parts ≡ record self.old.parts { promises = with_promise value.0 result.0 self.old.parts.promises } }
    {
        self.promises.make_reserved(value)
    }

    /// Settles a deferred, with the state 1 where its promise is resolved, and 2 where it is rejected: the promise, which has that state
    /// from then on. So have those of its reactions that are registered, as their hint, and they fall due. Refused with 1 exactly where the deferred is unknown or settled.
    ///
    /// It takes no memory.
    pub fn settle(&mut self, id: DeferredId, state: u8) -> Result<ValueId, Status>
        requires state { (1 ≤ state) × (state ≤ 2) }
        ensures refusal { result_err result ≡ when (is_none (deferred_promise self.old.parts.promises id.0)) status.InvalidArg }
        ensures promise { IfOk result (λ v. deferred_promise self.old.parts.promises id.0 ≡ Some v.0) }
        ensures settled { IfOk result (λ v. self.new.parts ≡ record self.old.parts {
          promises = with_settled id.0 v.0 state self.old.parts.promises;
          book = reactions_settled state (reactions_of self.old.parts.promises v.0) self.old.parts.book;
        }) }
        ensures err { OnErr result (self.new.parts ≡ self.old.parts) }
    {
        self.promises.settle(id, state, &mut self.book)
    }

    /// The state of a promise: 0 pending, 1 resolved, 2 rejected. `None` exactly where the value is no promise.
    pub fn promise_state(&self, promise: ValueId) -> Option<u8>
        ensures { result ≡ promise_state self.now.parts.promises promise.0 }
    {
        self.promises.state(promise)
    }

    /// Adds a reaction to a promise, behind those that it has, and registers it with the promise's state: its duty. Where the promise is
    /// settled it is due at once. Where there is no memory nothing changes.
    pub fn react(
        &mut self,
        promise: ValueId,
        addon: u32,
        entry: u32,
        payload: u64,
    ) -> Result<Duty, NoMemory>
        requires promise { IsSome (promise_at self.old.parts.promises promise.0) }
        requires new { (v : ℕ) → is_reaction_of self.old.parts.promises v (new_ticket self.old.parts.book) ≡ false }
        requires few { length self.old.parts.book < 2 ^ 62 }
        ensures made { IfOk result (λ duty. duty ≡ ticket_duty (new_ticket self.old.parts.book)) }
        ensures reacts { let state = state_now self.old.parts.promises promise.0 in OnOk result (self.new.parts ≡ record self.old.parts {
          promises = with_reaction promise.0 (new_ticket self.old.parts.book) self.old.parts.promises;
          book = with_registration (reaction_of addon entry payload state) self.old.parts.book;
        }) }
        ensures err { OnErr result (self.new.parts ≡ self.old.parts) }
    {
        let Some(state) = self.promises.state(promise) else {
            unreachable!()
        };
        self.book.reserve()?;
        self.promises.react(promise, self.book.next())?;
        let duty = reaction_duty(addon, entry, payload, state);
        let ticket = register_reaction(&mut self.book, duty, state);
        Ok(Duty::Ticket(ticket))
    }

    /// The promise of a reaction that has not ended. `None` exactly where the ticket is not that of such a reaction.
    pub fn reaction_promise(&self, ticket: Ticket) -> Option<ValueId>
        ensures { (v : ℕ) → (option_map (λ w. w.0) result ≡ Some v) ↔ (is_reaction_of self.now.parts.promises v ticket.0 ≡ true) }
    {
        self.promises.promise_of(ticket)
    }

    /// Adds the value of each promise that a collection keeps, in any order: its deferred is not settled, or it has a reaction that has
    /// not ended.
    pub fn push_promise_roots(&self, roots: &mut Vec<ValueId>) -> Result<(), NoMemory>
        ensures { OnOk result (HaveSameNumbers (map (λ v. v.0) roots.new.items) (map (λ v. v.0) roots.old.items ++ promise_roots self.now.parts.promises)) }
    {
        self.promises.push_roots(roots)
    }
}
