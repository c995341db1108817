//! The tickets, each with what was registered under it.
ghost use Rattle.std.specs.Prelude.{◌≡◌, ◌+◌, ◌<◌, ◌≤◌, ◌^◌, ◌++◌, ◌∷◌, ◌↔◌, [], length, true, None, IfSome, IfOk, OnOk, OnErr};
ghost use Rattle.std.specs.Option.{is_some};
ghost use Rattle.napi_types.specs.parts.Book.{is_registered, is_begun, is_at, registration_at, lowest_due, due_info, made_due, made_withdrawn, made_ended, made_due_and_begun, moved_at, all_due, changed_at, with_hint};
ghost use Rattle.finalizer_queue.specs.KeptBook.{ticket_number, LowestBegins};
ghost use Rattle.finalizer_queue.specs.TicketRows.{registration_of};

use crate::rows::{self, NewDuty, RowState, TicketRow};
use napi_types::{Begun, Due, Duty, NoMemory, Slip, Ticket};
use std::alloc::Global;
use std::cmp::Reverse;
use std::collections::BinaryHeap;
use std::marker::Model;

/// The book of tickets. A ticket stays in it for ever, and its number is never given again.
#[derive(Drop)]
pub struct Book {
    // The ticket n stands at n - 1.
    rows: Vec<TicketRow>,
    // The tickets that are due, the lowest at the top. There is room for all that are registered, so that they fall due without memory.
    due: BinaryHeap<Reverse<u64>>,
    // For the ticket that is registered next.
    spare: Option<Slip>,
    alloc: Global,
}

impl Model for Book {
    ghost use Rattle.std.specs.Prelude.{vec_capacity};
    ghost use Rattle.std.specs.BinaryHeap.{heap_items, heap_len, heap_capacity};
    ghost use Rattle.finalizer_queue.specs.KeptBook.{KeptBook};
    ghost use Rattle.finalizer_queue.specs.TicketRows.{book_of, spare_slips, IsKeptBook};

    ghost Value = { KeptBook };

    ghost view = { λ b. record { book = book_of b.rows.items; spare = spare_slips b.spare } };

    ghost invariant = { λ b. IsKeptBook b.rows.items (spare_slips b.spare) (vec_capacity b.rows) (heap_items b.due) (heap_len b.due) (heap_capacity b.due) };
}

impl Book {
    /// Nothing was registered.
    pub fn new(alloc: Global) -> Result<Book, NoMemory>
        ensures { IfOk result (λ book. book.book ≡ []) }
    {
        Ok(Book {
            rows: Vec::new(alloc),
            due: BinaryHeap::new(alloc),
            spare: None,
            alloc,
        })
    }

    /// Takes the memory for one ticket more, so that [`Book::register`] needs none. Where one is spare already it takes none, and
    /// changes nothing.
    ///
    /// Near constant time: now and then the book grows.
    pub fn reserve(&mut self) -> Result<(), NoMemory>
        ensures ok { OnOk result (0 < self.new.spare) }
        ensures same { self.new.book ≡ self.old.book }
        ensures memory { OnErr result (self.old.spare ≡ 0) }
        ensures enough { 0 < self.old.spare → self.new ≡ self.old }
    {
        if self.spare.is_none() {
            let places = self.rows.len() + 1 - self.due.len();
            self.rows.reserve(1)?;
            self.due.reserve(places)?;
            self.spare = Some(Slip::new(self.alloc)?);
        }
        Ok(())
    }

    /// The ticket that is given next. Constant time.
    pub fn next(&self) -> Ticket
        ensures { result.0 ≡ length self.now.book + 1 }
    {
        Ticket(self.rows.len() as u64 + 1)
    }

    /// Registers a finalizer, a cleanup hook or a reaction, and gives its ticket. Fewer than 2^62 were given before.
    ///
    /// Constant time. It takes no memory: [`Book::reserve`] took it before.
    pub fn register(&mut self, duty: NewDuty) -> Ticket
        requires reserved { 0 < self.old.spare }
        requires few { length self.old.book < 2 ^ 62 }
        ensures ticket { result.0 ≡ length self.old.book + 1 }
        ensures noted { self.new.book ≡ self.old.book ++ registration_of duty ∷ [] }
        ensures spare { self.old.spare ≤ self.new.spare + 1 }
    {
        let Some(slip) = self.spare.take() else {
            unreachable!()
        };
        let ticket = self.next();
        self.rows.push_reserved(TicketRow {
            duty,
            state: RowState::Registered(slip),
        });
        ticket
    }

    /// Whether a ticket is registered: neither due nor begun, and not withdrawn. A number that was never given is not.
    ///
    /// Constant time.
    pub fn is_registered(&self, ticket: Ticket) -> bool
        ensures { result ≡ is_at is_registered self.now.book ticket.0 }
    {
        rows::is_registered(&self.rows, ticket.0)
    }

    /// Withdraws a ticket that is registered: it will not fall due.
    ///
    /// Constant time. It takes no memory.
    pub fn withdraw(&mut self, ticket: Ticket)
        requires { is_at is_registered self.old.book ticket.0 ≡ true }
        ensures withdrawn { self.new.book ≡ moved_at made_withdrawn ticket.0 self.old.book }
        ensures spare { self.old.spare ≤ self.new.spare }
    {
        rows::withdraw(&mut self.rows[(ticket.0 - 1) as usize]);
    }

    /// Gives a ticket that is registered another hint, which its frame is then given. Nothing else of the book changes.
    ///
    /// Constant time. It takes no memory.
    pub fn set_hint(&mut self, ticket: Ticket, hint: u64)
        requires { is_at is_registered self.old.book ticket.0 ≡ true }
        ensures hint { self.new.book ≡ changed_at (with_hint hint) ticket.0 self.old.book }
        ensures spare { self.old.spare ≤ self.new.spare }
    {
        rows::set_hint(&mut self.rows[(ticket.0 - 1) as usize], hint);
    }

    /// A ticket that was given falls due. Where it is not registered nothing changes.
    ///
    /// In time logarithmic in how many are due. It takes no memory.
    pub fn make_due(&mut self, ticket: Ticket)
        requires { (1 ≤ ticket.0) × (ticket.0 ≤ length self.old.book) }
        ensures due { self.new.book ≡ moved_at made_due ticket.0 self.old.book }
        ensures spare { self.old.spare ≤ self.new.spare }
    {
        if rows::fall_due(&mut self.rows[(ticket.0 - 1) as usize]) {
            let Ok(()) = self.due.push(Reverse(ticket.0)) else {
                unreachable!()
            };
        }
    }

    /// All tickets that are registered fall due.
    ///
    /// In time linear in how many were given, times the logarithm of how many are then due. It takes no memory.
    pub fn all_due(&mut self)
        ensures due { self.new.book ≡ all_due self.old.book }
        ensures spare { self.old.spare ≤ self.new.spare }
    {
        for place in 0..self.rows.len() {
            self.make_due(Ticket(place as u64 + 1));
        }
    }

    /// Whether a ticket is due. Constant time.
    pub fn has_due(&self) -> bool
        ensures { result ≡ is_some (lowest_due self.now.book) }
    {
        !self.due.is_empty()
    }

    /// The lowest ticket that is due begins. `None` exactly where none is due.
    ///
    /// In time logarithmic in how many are due. It takes no memory.
    pub fn take_due(&mut self) -> Option<Due>
        ensures none { (result ≡ None) ↔ (lowest_due self.old.book ≡ None) }
        ensures stays { result ≡ None → self.new.book ≡ self.old.book }
        ensures taken { IfSome result (λ due. LowestBegins self.old.book due self.new.book) }
        ensures spare { self.old.spare ≤ self.new.spare }
    {
        let Reverse(number) = self.due.pop()?;
        let due = rows::begin(&mut self.rows[(number - 1) as usize], Ticket(number));
        Some(due)
    }

    /// A ticket that is registered falls due and begins at once, as a cleanup hook does.
    ///
    /// Constant time. It takes no memory.
    pub fn take_ticket(&mut self, ticket: Ticket) -> Due
        requires { is_at is_registered self.old.book ticket.0 ≡ true }
        ensures told { IfSome (registration_at self.old.book ticket.0) (λ r. result ≡ due_info ticket.0 r) }
        ensures begun { self.new.book ≡ moved_at made_due_and_begun ticket.0 self.old.book }
        ensures spare { self.old.spare ≤ self.new.spare }
    {
        rows::begin(&mut self.rows[(ticket.0 - 1) as usize], ticket)
    }

    /// A ticket that has begun ends.
    ///
    /// Constant time. It takes no memory.
    pub fn done(&mut self, begun: Begun)
        requires { is_at is_begun self.old.book (ticket_number begun.duty) ≡ true }
        ensures ended { self.new.book ≡ moved_at made_ended (ticket_number begun.duty) self.old.book }
        ensures spare { self.old.spare ≤ self.new.spare }
    {
        let Duty::Ticket(ticket) = begun.end().duty else {
            unreachable!()
        };
        rows::end(&mut self.rows[(ticket.0 - 1) as usize]);
    }
}
