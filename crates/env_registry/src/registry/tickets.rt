//! Tickets, as they fall due, begin and end.
ghost use Rattle.std.specs.Prelude.{◌≡◌, ◌≢◌, ◌↔◌, [], true, Some, None, option_map, IfSome};
ghost use Rattle.std.specs.Option.{is_some};
ghost use Rattle.napi_types.specs.parts.Book.{is_registered, is_begun, is_at, lowest_due, all_due};
ghost use Rattle.napi_types.specs.parts.Hooks.{last_hook};
ghost use Rattle.napi_types.specs.environment.Ends.{duty_ended, reaction_ended};
ghost use Rattle.finalizer_queue.specs.KeptBook.{ticket_number, LowestBegins};
ghost use Rattle.env_registry.specs.Beginning.{LastHookBegins};

use super::Registry;
use deferred::Deferreds;
use finalizer_queue::Book;
use napi_types::{Begun, Cause, Due, Duty};

impl Registry {
    /// Every ticket that is registered falls due.
    pub fn all_due(&mut self)
        ensures { self.new.parts ≡ record self.old.parts { book = all_due self.old.parts.book } }
    {
        self.book.all_due();
    }

    /// Whether a ticket is due.
    pub fn has_due(&self) -> bool
        ensures { result ≡ is_some (lowest_due self.now.parts.book) }
    {
        self.book.has_due()
    }

    /// Whether a hook waits.
    pub fn has_hook(&self) -> bool
        ensures { result ≡ is_some (last_hook self.now.parts.hooks) }
    {
        self.hooks.last_added().is_some()
    }

    /// The lowest ticket that is due begins, and tells what its frame runs; no call begins such a frame. `None` exactly where none is
    /// due.
    ///
    /// It takes no memory.
    pub fn begin_due(&mut self) -> Option<Due>
        ensures none { (result ≡ None) ↔ (lowest_due self.old.parts.book ≡ None) }
        ensures stays { result ≡ None → self.new.parts ≡ self.old.parts }
        ensures begun { IfSome result (λ due. LowestBegins self.old.parts.book due self.new.parts.book) }
        ensures rest { self.new.parts ≡ record self.old.parts { book = self.new.parts.book } }
        ensures uncalled { IfSome result (λ due. due.cause ≢ Cause.Call) }
    {
        self.book.take_due()
    }

    /// The hook that was added last begins: it is taken off the list, and its ticket, which is registered, falls due and begins. It
    /// tells what its frame runs; no call begins such a frame. `None` exactly where no hook waits.
    ///
    /// It takes no memory.
    pub fn begin_hook(&mut self) -> Option<Due>
        requires { IfSome (last_hook self.old.parts.hooks) (λ h. is_at is_registered self.old.parts.book h.ticket ≡ true) }
        ensures none { (result ≡ None) ↔ (self.old.parts.hooks ≡ []) }
        ensures stays { result ≡ None → self.new.parts ≡ self.old.parts }
        ensures begun { IfSome result (λ due. LastHookBegins self.old.parts due self.new.parts) }
        ensures uncalled { IfSome result (λ due. due.cause ≢ Cause.Call) }
    {
        let ticket = self.hooks.take_last()?;
        Some(self.book.take_ticket(ticket))
    }

    /// A ticket that has begun ends. Where it is that of a reaction, its promise no longer has it.
    ///
    /// It takes no memory.
    pub fn end_ticket(&mut self, begun: Begun)
        requires { is_at is_begun self.old.parts.book (ticket_number begun.duty) ≡ true }
        ensures { self.new.parts ≡ record self.old.parts {
          book = duty_ended (Some begun.duty) self.old.parts.book;
          promises = reaction_ended (Some begun.duty) self.old.parts.promises;
        } }
    {
        end_reaction(&mut self.promises, begun.info().duty);
        end(&mut self.book, begun);
    }
}

/// A reaction whose frame ends has ended.
fn end_reaction(promises: &mut Deferreds, duty: Duty)
    ensures { promises.new.promises ≡ reaction_ended (Some duty) promises.old.promises }
{
    if let Duty::Ticket(ticket) = duty {
        promises.ended(ticket);
    }
}

/// A ticket that has begun ends.
fn end(book: &mut Book, begun: Begun)
    requires { is_at is_begun book.old.book (ticket_number begun.duty) ≡ true }
    ensures { book.new.book ≡ duty_ended (Some begun.duty) book.old.book }
{
    book.done(begun);
}
