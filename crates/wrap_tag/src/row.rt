//! What is attached to one value.
ghost use Rattle.std.specs.Prelude.{◌≡◌, ◌≤◌, ◌∷◌, None, Some, length};
ghost use Rattle.napi_types.specs.plain.Lists.{has_number};
ghost use Rattle.napi_types.specs.parts.Book.{due_where};
ghost use Rattle.wrap_tag.specs.ValueRows.{tickets_of_chain, ticket_of_wrap, tickets_of_row, blank_row};
ghost use Rattle.wrap_tag.specs.Wraps.{AreGiven};

use finalizer_queue::Book;
use napi_types::Ticket;
use std::mem;

/// A wrap: the native data that is tied to the value, and the ticket of its finalizer, where it has one.
#[derive(Clone, Copy)]
pub(crate) struct Wrap {
    pub(crate) payload: u64,
    pub(crate) ticket: Option<Ticket>,
}

/// A type tag, in its two halves.
#[derive(Clone, Copy)]
pub(crate) struct Tag {
    pub(crate) lower: u64,
    pub(crate) upper: u64,
}

/// The tickets of finalizers, the one that was attached last first. Each has a box of its own.
pub(crate) enum Chain {
    End,
    Link(Ticket, Box<Chain>),
}

// A loop, so that many tickets do not run out of stack.
impl Drop for Chain {
    fn drop(mut self) {
        loop {
            match self {
                Chain::End => return,
                Chain::Link(_, before) => self = Box::into_inner(before),
            }
        }
    }
}

impl Chain {
    /// Puts a ticket in front. The box for it was taken before.
    pub(crate) fn push(&mut self, mut link: Box<Chain>, ticket: Ticket)
        ensures { tickets_of_chain self.new ≡ ticket.0 ∷ tickets_of_chain self.old }
    {
        *link = mem::replace(self, Chain::End);
        *self = Chain::Link(ticket, link);
    }

    /// Each ticket falls due, where it is registered.
    pub(crate) fn make_due(mut self, book: &mut Book)
        requires { AreGiven (tickets_of_chain self) book.old.book }
        ensures due { book.new.book ≡ due_where (λ n. has_number n (tickets_of_chain self)) book.old.book }
        ensures spare { book.old.spare ≤ book.new.spare }
    {
        loop {
            match self {
                Chain::End => return,
                Chain::Link(ticket, before) => {
                    book.make_due(ticket);
                    self = Box::into_inner(before);
                }
            }
        }
    }
}

/// What is attached to one value.
#[derive(Drop)]
pub(crate) struct ValueRow {
    pub(crate) wrap: Option<Wrap>,
    pub(crate) tag: Option<Tag>,
    pub(crate) tickets: Chain,
}

impl ValueRow {
    /// Nothing is attached.
    pub(crate) fn blank() -> ValueRow
        ensures { result ≡ blank_row }
    {
        ValueRow {
            wrap: None,
            tag: None,
            tickets: Chain::End,
        }
    }

    /// A wrap alone is attached.
    pub(crate) fn of_wrap(wrap: Wrap) -> ValueRow
        ensures { result ≡ record blank_row { wrap = Some wrap } }
    {
        ValueRow {
            wrap: Some(wrap),
            tag: None,
            tickets: Chain::End,
        }
    }

    /// A tag alone is attached.
    pub(crate) fn of_tag(tag: Tag) -> ValueRow
        ensures { result ≡ record blank_row { tag = Some tag } }
    {
        ValueRow {
            wrap: None,
            tag: Some(tag),
            tickets: Chain::End,
        }
    }

    /// Each ticket falls due, where it is registered: the wrap's, and those of the finalizers beside it.
    pub(crate) fn make_due(self, book: &mut Book)
        requires { AreGiven (tickets_of_row self) book.old.book }
        ensures due { book.new.book ≡ due_where (λ n. has_number n (tickets_of_row self)) book.old.book }
        ensures spare { book.old.spare ≤ book.new.spare }
    {
        let ValueRow { wrap, tickets, .. } = self;
        if let Some(ticket) = ticket_of(wrap) {
            book.make_due(ticket);
        }
        tickets.make_due(book);
    }
}

/// The ticket of a wrap, where there is a wrap and it has one.
fn ticket_of(wrap: Option<Wrap>) -> Option<Ticket>
    ensures { result ≡ ticket_of_wrap wrap }
{
    wrap?.ticket
}
