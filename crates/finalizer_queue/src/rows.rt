//! What stands under a ticket, read and changed by number.
ghost use Rattle.std.specs.Prelude.{◌≡◌, ◌||◌, true};
ghost use Rattle.napi_types.specs.parts.Book.{is_registered, is_due, is_begun, is_at, due_info, made_due, made_withdrawn, made_due_and_begun, made_ended, moved, with_hint};
ghost use Rattle.finalizer_queue.specs.TicketRows.{registration_of, row_registration, book_of};

use napi_types::{Cause, Due, DueInfo, Duty, Slip, Status, Ticket};
use std::mem;

/// What is registered: a finalizer, a cleanup hook or a reaction.
#[derive(Clone, Copy)]
pub struct NewDuty {
    /// Why its frame will begin.
    pub cause: Cause,
    /// The addon whose code it runs, counted from 0.
    pub addon: u32,
    /// The entry of the addon that it runs, counted from 0.
    pub entry: u32,
    /// The data that it is given.
    pub payload: u64,
    /// The hint that it is given.
    pub hint: u64,
}

/// How far a ticket has come. Until it begins it has the memory for the line that it will be in a list of what was seen.
#[derive(Drop)]
pub(crate) enum RowState {
    Registered(Slip),
    Due(Slip),
    Begun,
    Ended,
    Withdrawn,
}

/// What stands under a ticket.
#[derive(Drop)]
pub(crate) struct TicketRow {
    pub(crate) duty: NewDuty,
    pub(crate) state: RowState,
}

/// Whether a ticket is registered.
pub(crate) fn is_registered(rows: &[TicketRow], ticket: u64) -> bool
    ensures { result ≡ is_at is_registered (book_of rows.now) ticket }
{
    let Some(place) = ticket.checked_sub(1) else {
        return false;
    };
    match rows.get(place as usize) {
        Some(row) => matches!(row.state, RowState::Registered(_)),
        None => false,
    }
}

/// A row falls due, where it is registered. Whether it was.
pub(crate) fn fall_due(row: &mut TicketRow) -> bool
    ensures was { result ≡ is_registered (row_registration row.old).state }
    ensures due { row_registration row.new ≡ moved made_due (row_registration row.old) }
{
    let (state, has_fallen) = match mem::replace(&mut row.state, RowState::Begun) {
        RowState::Registered(slip) => (RowState::Due(slip), true),
        other => (other, false),
    };
    row.state = state;
    has_fallen
}

/// A row has another hint.
pub(crate) fn set_hint(row: &mut TicketRow, hint: u64)
    ensures { row_registration row.new ≡ with_hint hint (row_registration row.old) }
{
    row.duty.hint = hint;
}

/// A row that is registered is withdrawn, and gives its memory back.
pub(crate) fn withdraw(row: &mut TicketRow)
    requires { is_registered (row_registration row.old).state ≡ true }
    ensures { row_registration row.new ≡ moved made_withdrawn (row_registration row.old) }
{
    row.state = RowState::Withdrawn;
}

/// A row that is registered or due begins.
pub(crate) fn begin(row: &mut TicketRow, ticket: Ticket) -> Due
    requires { (is_registered (row_registration row.old).state || is_due (row_registration row.old).state) ≡ true }
    ensures told { result ≡ due_info ticket.0 (row_registration row.old) }
    ensures begun { row_registration row.new ≡ moved made_due_and_begun (row_registration row.old) }
{
    let info = info_of(ticket, row.duty);
    match mem::replace(&mut row.state, RowState::Begun) {
        RowState::Registered(slip) | RowState::Due(slip) => slip.arm(info),
        _ => unreachable!(),
    }
}

/// A row that has begun ends.
pub(crate) fn end(row: &mut TicketRow)
    requires { is_begun (row_registration row.old).state ≡ true }
    ensures { row_registration row.new ≡ moved made_ended (row_registration row.old) }
{
    row.state = RowState::Ended;
}

/// What a duty tells as it begins.
fn info_of(ticket: Ticket, duty: NewDuty) -> DueInfo
    ensures { result ≡ due_info ticket.0 (registration_of duty) }
{
    DueInfo {
        duty: Duty::Ticket(ticket),
        cause: duty.cause,
        addon: duty.addon,
        entry: duty.entry,
        status: Status::Ok,
        gifts: [duty.payload, duty.hint, 0, 0, 0, 0, 0, 0],
        runs: true,
    }
}
