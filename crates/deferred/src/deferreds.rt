//! Promises by their values, deferreds by their numbers, and reactions by their tickets.
ghost use Rattle.std.specs.Prelude.{◌≡◌, ◌≤◌, ◌<◌, ◌↔◌, ◌^◌, ◌∷◌, ◌++◌, ℕ, map, Some, None, true, false, IfOk, IfSome, OnOk, OnErr, IsSome, option_map, length, is_none};
ghost use Rattle.std.specs.Result.{result_err};
ghost use Rattle.napi_types.specs.declared.status.Status.TheVariants as status;
ghost use Rattle.napi_types.specs.plain.Lists.{has_number, HaveSameNumbers, when};
ghost use Rattle.napi_types.specs.parts.Promises.{no_promises, promise_at, promise_state, reactions_of, is_reaction_of, deferred_promise, promise_roots, with_promise, with_settled, with_reaction, without_reaction, without_promise, reactions_settled};
ghost use Rattle.deferred.specs.KeptPromises.{AreMaps};

use crate::row::{self, PromiseRow};
use crate::rows;
use finalizer_queue::Book;
use napi_types::{DeferredId, NoMemory, Status, Ticket, ValueId};
use std::alloc::Global;
use std::collections::{HashMap, VecDeque};
use std::marker::Model;

/// Promises, their deferreds and their reactions. A promise stays until its value is gone, a deferred until it is settled or its
/// promise is gone, and a reaction until it has ended or its promise is gone.
#[derive(Drop)]
pub struct Deferreds {
    alloc: Global,
    // By the number of the value.
    promises: HashMap<u64, PromiseRow>,
    // The promise of each deferred that is not settled, by the number of the deferred.
    deferreds: HashMap<u64, u64>,
    // The promise of each reaction that has not ended, by its ticket.
    reactions: HashMap<u64, u64>,
    // How many deferreds were made. They are numbered from 1.
    made: u64,
}

impl Model for Deferreds {
    ghost use Rattle.std.specs.Prelude.{min};
    ghost use Rattle.std.specs.HashMap.{spare};
    ghost use Rattle.deferred.specs.KeptPromises.{KeptPromises};
    ghost use Rattle.deferred.specs.PromiseRows.{promises_of, AreTied};

    ghost Value = { KeptPromises };

    ghost view = { λ d. record {
      promises = promises_of d.promises.entries d.deferreds.entries d.made;
      spare = min (spare d.promises) (spare d.deferreds);
    } };

    ghost invariant = { λ d. AreTied d.promises.entries d.deferreds.entries d.reactions.entries d.made };
}

impl Deferreds {
    /// No promises.
    pub fn new(alloc: Global) -> Result<Deferreds, NoMemory>
        ensures { IfOk result (λ d. d.promises ≡ no_promises) }
    {
        Ok(Deferreds {
            alloc,
            promises: HashMap::new(alloc),
            deferreds: HashMap::new(alloc),
            reactions: HashMap::new(alloc),
            made: 0,
        })
    }

    /// No effect. Its clause is what holds of all promises.
    pub fn invariant(&self)
        ensures { AreMaps self.now.promises }
    {
        let _made = self.made;
    }

    /// Takes the memory for one promise more: [`Deferreds::make_reserved`] then takes none. Where there is some already it takes none.
    ///
    /// Near constant time: now and then the tables grow.
    pub fn reserve(&mut self) -> Result<(), NoMemory>
        ensures place { OnOk result (0 < self.new.spare) }
        ensures same { self.new.promises ≡ self.old.promises }
    {
        self.promises.reserve(1)?;
        self.deferreds.reserve(1)?;
        Ok(())
    }

    /// Makes a promise of a value, and its deferred: the manual's `napi_create_promise`. The promise is pending. The number of the
    /// deferred was never issued before, and is not 0. A value that was a promise already begins anew, as if it had been gone.
    /// Fewer than 2^62 deferreds were made before.
    ///
    /// Near constant time: now and then the tables grow.
    pub fn make(&mut self, promise: ValueId) -> Result<DeferredId, NoMemory>
        requires { length self.old.promises.issued < 2 ^ 62 }
        ensures fresh { IfOk result (λ id. has_number id.0 (0 ∷ self.old.promises.issued) ≡ false) }
        ensures made { IfOk result (λ id. self.new.promises ≡ with_promise promise.0 id.0 self.old.promises) }
        ensures err { OnErr result (self.new.promises ≡ self.old.promises) }
    {
        self.reserve()?;
        Ok(self.make_reserved(promise))
    }

    /// As [`Deferreds::make`], where the memory was taken before.
    ///
    /// Near constant time. It takes no memory: [`Deferreds::reserve`] took it.
    pub fn make_reserved(&mut self, promise: ValueId) -> DeferredId
        requires place { 0 < self.old.spare }
        requires few { length self.old.promises.issued < 2 ^ 62 }
        ensures fresh { has_number result.0 (0 ∷ self.old.promises.issued) ≡ false }
        ensures made { self.new.promises ≡ with_promise promise.0 result.0 self.old.promises }
    {
        rows::take_off(
            &mut self.promises,
            &mut self.deferreds,
            &mut self.reactions,
            promise.0,
        );
        let number = self.made + 1;
        let row = PromiseRow {
            state: 0,
            deferred: Some(number),
            reactions: VecDeque::new(self.alloc),
        };
        rows::put(&mut self.promises, promise.0, row);
        rows::put_number(&mut self.deferreds, number, promise.0);
        self.made = number;
        DeferredId(number)
    }

    /// Settles a deferred: the manual's `napi_resolve_deferred` with the state 1, and `napi_reject_deferred` with 2. Its promise has
    /// the new state, each reaction of it that is registered in the book gets the state as its hint and falls due, and the deferred is no
    /// more. It answers with the promise. Refused with 1 exactly where the deferred is unknown or settled.
    ///
    /// In time linear in how many reactions the promise has, times the logarithm of how many tickets are then due. It takes no memory.
    pub fn settle(&mut self, id: DeferredId, state: u8, book: &mut Book) -> Result<ValueId, Status>
        requires state { (1 ≤ state) × (state ≤ 2) }
        ensures refusal { result_err result ≡ when (is_none (deferred_promise self.old.promises id.0)) status.InvalidArg }
        ensures promise { IfOk result (λ v. deferred_promise self.old.promises id.0 ≡ Some v.0) }
        ensures settled { IfOk result (λ v. self.new.promises ≡ with_settled id.0 v.0 state self.old.promises) }
        ensures due { IfOk result (λ v. book.new.book ≡ reactions_settled state (reactions_of self.old.promises v.0) book.old.book) }
        ensures err { OnErr result ((self.new.promises ≡ self.old.promises) × (book.new ≡ book.old)) }
        ensures spare { book.old.spare ≤ book.new.spare }
    {
        let Some(promise) = rows::take_number(&mut self.deferreds, id.0) else {
            return Err(Status::InvalidArg);
        };
        rows::settle(&mut self.promises, promise, state, book);
        Ok(ValueId(promise))
    }

    /// Adds a reaction to a promise, behind those that it has: the environment's `add_reaction`. The ticket is that of one reaction
    /// at most: where it is one already nothing changes. Where the promise is settled already, the environment makes the ticket due.
    ///
    /// Near constant time: now and then the tables grow.
    pub fn react(&mut self, promise: ValueId, ticket: Ticket) -> Result<(), NoMemory>
        requires { IsSome (promise_at self.old.promises promise.0) }
        ensures added { ((v : ℕ) → is_reaction_of self.old.promises v ticket.0 ≡ false)
            → OnOk result (self.new.promises ≡ with_reaction promise.0 ticket.0 self.old.promises) }
        ensures there { (v : ℕ) → is_reaction_of self.old.promises v ticket.0 ≡ true → self.new.promises ≡ self.old.promises }
        ensures err { OnErr result (self.new.promises ≡ self.old.promises) }
    {
        self.reactions.reserve(1)?;
        if self.reactions.contains_key(&ticket.0) {
            return Ok(());
        }
        rows::add(&mut self.promises, promise.0, ticket.0)?;
        rows::put_number(&mut self.reactions, ticket.0, promise.0);
        Ok(())
    }

    /// The state of a promise: 0 pending, 1 resolved, 2 rejected. `None` exactly where the value is no promise.
    ///
    /// Near constant time.
    pub fn state(&self, promise: ValueId) -> Option<u8>
        ensures { result ≡ promise_state self.now.promises promise.0 }
    {
        let row = self.promises.get(&promise.0)?;
        Some(row.state)
    }

    /// The promise of a reaction that has not ended. `None` exactly where the ticket is not that of such a reaction.
    ///
    /// Near constant time.
    pub fn promise_of(&self, ticket: Ticket) -> Option<ValueId>
        ensures { (v : ℕ) → (option_map (λ w. w.0) result ≡ Some v) ↔ (is_reaction_of self.now.promises v ticket.0 ≡ true) }
    {
        let promise = self.reactions.get(&ticket.0)?;
        Some(ValueId(*promise))
    }

    /// A reaction has ended: its promise no longer has it. Where the ticket is not that of a reaction nothing changes.
    ///
    /// Near constant time where it is the first of its promise's reactions, as those of one promise end in the order of adding. Else
    /// linear in how many that promise has. It takes no memory.
    pub fn ended(&mut self, ticket: Ticket)
        ensures { self.new.promises ≡ without_reaction ticket.0 self.old.promises }
    {
        let Some(promise) = rows::take_number(&mut self.reactions, ticket.0) else {
            return;
        };
        rows::take_out(&mut self.promises, promise, ticket.0);
    }

    /// A value is gone: where it was a promise, so are its reactions and its deferred. No other promise changes.
    ///
    /// In time linear in how many reactions it has. It takes no memory.
    pub fn gone(&mut self, value: ValueId)
        ensures { self.new.promises ≡ without_promise value.0 self.old.promises }
    {
        rows::take_off(
            &mut self.promises,
            &mut self.deferreds,
            &mut self.reactions,
            value.0,
        );
    }

    /// Whether a value is a promise that a collection keeps: its deferred is not settled, or it has a reaction that has not ended.
    ///
    /// Near constant time.
    pub fn is_root(&self, value: ValueId) -> bool
        ensures { result ≡ has_number value.0 (promise_roots self.now.promises) }
    {
        match self.promises.get(&value.0) {
            Some(row) => row::is_root(row),
            None => false,
        }
    }

    /// Adds each value for which [`Deferreds::is_root`] holds, in any order.
    ///
    /// In time linear in how many promises there are.
    pub fn push_roots(&self, roots: &mut Vec<ValueId>) -> Result<(), NoMemory>
        ensures { OnOk result (HaveSameNumbers (map (λ v. v.0) roots.new.items) (map (λ v. v.0) roots.old.items ++ promise_roots self.now.promises)) }
    {
        rows::push_roots(&self.promises, roots)
    }
}
