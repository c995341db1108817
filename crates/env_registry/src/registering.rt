//! What registers a finalizer, or withdraws one, makes of the book.
ghost use Rattle.std.specs.Prelude.{◌≡◌, ◌<◌, ◌≤◌, ◌^◌, length, option_map, IsSome, OnOk, OnErr};
ghost use Rattle.napi_types.specs.environment.Registering.{registered_only};
ghost use Rattle.env_registry.specs.Registering.{finalizer_registration, ticket_for, with_registration_if, duty_if, withdrawn_if};

use crate::finalizer::Finalizer;
use finalizer_queue::Book;
use napi_types::{Duty, NoMemory, Ticket};

/// Takes the memory for a finalizer, where there is one.
pub(crate) fn reserve_if(book: &mut Book, finalizer: Option<Finalizer>) -> Result<(), NoMemory>
    ensures spare { OnOk result (IsSome finalizer → 0 < book.new.spare) }
    ensures same { book.new.book ≡ book.old.book }
    ensures growing { OnErr result (IsSome finalizer) }
{
    if finalizer.is_some() {
        book.reserve()?;
    }
    Ok(())
}

/// Registers a finalizer, where there is one, and gives its ticket. The memory for it was taken before.
pub(crate) fn register_if(book: &mut Book, finalizer: Option<Finalizer>) -> Option<Ticket>
    requires reserved { IsSome finalizer → 0 < book.old.spare }
    requires few { length book.old.book < 2 ^ 62 }
    ensures ticket { option_map (λ t. t.0) result ≡ ticket_for book.old.book (option_map finalizer_registration finalizer) }
    ensures registered { book.new.book ≡ with_registration_if (option_map finalizer_registration finalizer) book.old.book }
{
    let finalizer = finalizer?;
    Some(book.register(finalizer.duty()))
}

/// Withdraws a ticket, where there is one that is registered, and gives its duty.
pub(crate) fn withdraw_if(book: &mut Book, ticket: Option<Ticket>) -> Option<Duty>
    ensures dropped { result ≡ duty_if (registered_only book.old.book (option_map (λ t. t.0) ticket)) }
    ensures withdrawn { book.new.book ≡ withdrawn_if (registered_only book.old.book (option_map (λ t. t.0) ticket)) book.old.book }
    ensures spare { book.old.spare ≤ book.new.spare }
{
    let ticket = ticket?;
    if !book.is_registered(ticket) {
        return None;
    }
    book.withdraw(ticket);
    Some(Duty::Ticket(ticket))
}

/// The duty of a ticket, where there is one.
pub(crate) fn duty_of(ticket: Option<Ticket>) -> Option<Duty>
    ensures { result ≡ duty_if (option_map (λ t. t.0) ticket) }
{
    Some(Duty::Ticket(ticket?))
}
