//! One promise, and its reactions.
ghost use Rattle.std.specs.Prelude.{◌≡◌, ◌==◌, ◌≤◌, ◌∷◌, true, not, filter, drop};
ghost use Rattle.std.specs.Map.{lookup};
ghost use Rattle.std.specs.Prelude.{nat_eq, ℕ, None, cond};
ghost use Rattle.napi_types.specs.plain.Lists.{has_number};
ghost use Rattle.napi_types.specs.parts.Book.{changed_at};
ghost use Rattle.napi_types.specs.parts.Promises.{reactions_settled, made_settled};
ghost use Rattle.deferred.specs.PromiseRows.{NoneTwice, seen_row, is_root_row};

use finalizer_queue::Book;
use napi_types::Ticket;
use std::collections::{HashMap, VecDeque};

/// A promise.
#[derive(Drop)]
pub(crate) struct PromiseRow {
    pub(crate) state: u8,
    // The number of its deferred, until that is settled.
    pub(crate) deferred: Option<u64>,
    // The tickets of its reactions that have not ended, in the order of adding.
    pub(crate) reactions: VecDeque<u64>,
}

/// Whether the promise is a root: its deferred is not settled, or it has a reaction that has not ended.
pub(crate) fn is_root(row: &PromiseRow) -> bool
    ensures { result ≡ is_root_row (seen_row row.now) }
{
    row.deferred.is_some() || !row.reactions.is_empty()
}

/// Takes a reaction out. It is the first but where reactions end in another order than they were added in.
pub(crate) fn take_out(row: &mut PromiseRow, ticket: u64)
    requires { NoneTwice row.old.reactions.items }
    ensures { seen_row row.new ≡ record (seen_row row.old) { reactions = filter (λ n. not (n == ticket)) row.old.reactions.items } }
{
    if is_first(&row.reactions, ticket) {
        row.reactions.pop_front();
    } else {
        without(&mut row.reactions, ticket);
    }
}

/// Whether a reaction is the first one.
fn is_first(reactions: &VecDeque<u64>, ticket: u64) -> bool
    ensures { result ≡ true → reactions.now.items ≡ ticket ∷ drop 1 reactions.now.items }
{
    match reactions.front() {
        Some(first) => *first == ticket,
        None => false,
    }
}

/// Takes a reaction out, wherever it is.
fn without(reactions: &mut VecDeque<u64>, ticket: u64)
    ensures { reactions.new.items ≡ filter (λ n. not (n == ticket)) reactions.old.items }
{
    reactions.retain(|other| *other != ticket);
}

/// Each of these reactions that is registered gets the state as its hint, and falls due.
pub(crate) fn settle_all(reactions: &VecDeque<u64>, state: u8, book: &mut Book)
    ensures settled { book.new.book ≡ reactions_settled state reactions.now.items book.old.book }
    ensures spare { book.old.spare ≤ book.new.spare }
{
    for place in 0..reactions.len() {
        settle_one(Ticket(reactions[place]), state, book);
    }
}

/// One reaction, where it is registered, gets the state as its hint, and falls due.
fn settle_one(ticket: Ticket, state: u8, book: &mut Book)
    ensures settled { book.new.book ≡ changed_at (made_settled state) ticket.0 book.old.book }
    ensures spare { book.old.spare ≤ book.new.spare }
{
    if book.is_registered(ticket) {
        book.set_hint(ticket, state as u64);
        book.make_due(ticket);
    }
}

/// No reaction of these is kept under its ticket any more.
pub(crate) fn forget_all(kept: &mut HashMap<u64, u64>, reactions: &VecDeque<u64>)
    ensures { (n : ℕ) → lookup (nat_eq n) kept.new.entries ≡ cond (has_number n reactions.now.items) None (lookup (nat_eq n) kept.old.entries) }
{
    for place in 0..reactions.len() {
        kept.remove(&reactions[place]);
    }
}
