//! The table of buffers, read and changed by the number of a value.
ghost use Rattle.std.specs.Prelude.{◌≡◌, ◌≤◌, ◌<◌, ℕ, nat_eq, None, Some, cond, option_map, is_some, IsSome};
ghost use Rattle.std.specs.HashMap.{spare};
ghost use Rattle.std.specs.Map.{lookup};
ghost use Rattle.std.specs.Option.{option_and_then, option_map_or};
ghost use Rattle.napi_types.specs.parts.Book.{due_where};
ghost use Rattle.napi_types.specs.parts.Buffers.{IsElementSize, buffer_bytes, element_in, with_element_in, IsGivenTicket, is_this_ticket};
ghost use Rattle.array_buffers.specs.BufferTables.{buffer_row, buffer_row_at, bytes_of_row, ticket_of_row, row_changed, EndsWithin};

use crate::row::{self, BufferRow};
use finalizer_queue::Book;
use napi_types::{ValueId, ViewInfo};
use std::collections::HashMap;

/// Puts a buffer where there is none of its value. There is room for it.
pub(crate) fn put(rows: &mut HashMap<u64, BufferRow>, value: ValueId, row: BufferRow)
    requires { 0 < spare rows.old }
    ensures { (w : ℕ) → buffer_row_at w rows.new.entries ≡ cond (nat_eq value.0 w) (Some (buffer_row w row)) (buffer_row_at w rows.old.entries) }
{
    let Ok(_) = rows.insert(value.0, row) else {
        unreachable!()
    };
}

/// Puts a view. There is room for it.
pub(crate) fn put_view(views: &mut HashMap<u64, ViewInfo>, value: ValueId, about: ViewInfo)
    requires { 0 < spare views.old }
    ensures { (w : ℕ) → lookup (nat_eq w) views.new.entries ≡ cond (nat_eq value.0 w) (Some about) (lookup (nat_eq w) views.old.entries) }
{
    let Ok(_) = views.insert(value.0, about) else {
        unreachable!()
    };
}

/// Detaches a buffer that is not detached. How many bytes it had.
pub(crate) fn detach(rows: &mut HashMap<u64, BufferRow>, value: ValueId) -> usize
    requires { IsSome (bytes_of_row (buffer_row_at value.0 rows.old.entries)) }
    ensures length { result ≡ option_map_or buffer_bytes (buffer_row_at value.0 rows.old.entries) 0 }
    ensures detached { (w : ℕ) → buffer_row_at w rows.new.entries
        ≡ cond (nat_eq value.0 w) (option_map (row_changed (λ bytes. None)) (buffer_row_at value.0 rows.old.entries)) (buffer_row_at w rows.old.entries) }
{
    let Some(row) = rows.get_mut(&value.0) else {
        unreachable!()
    };
    row.detach()
}

/// Takes out the buffer that a value is. Its ticket falls due, where it has one that is registered. How many bytes it had.
pub(crate) fn take(rows: &mut HashMap<u64, BufferRow>, value: ValueId, book: &mut Book) -> usize
    requires { IsGivenTicket (ticket_of_row (buffer_row_at value.0 rows.old.entries)) book.old.book }
    ensures taken { (w : ℕ) → buffer_row_at w rows.new.entries ≡ cond (nat_eq value.0 w) None (buffer_row_at w rows.old.entries) }
    ensures due { book.new.book ≡ due_where (is_this_ticket (ticket_of_row (buffer_row_at value.0 rows.old.entries))) book.old.book }
    ensures spare { book.old.spare ≤ book.new.spare }
    ensures length { result ≡ option_map_or buffer_bytes (buffer_row_at value.0 rows.old.entries) 0 }
{
    match rows.remove(&value.0) {
        Some(row) => row.leave(book),
        None => 0,
    }
}

/// The element of a view. `None` exactly where the index is not below the view's length, or the buffer is detached.
pub(crate) fn read(rows: &HashMap<u64, BufferRow>, about: ViewInfo, at: u64) -> Option<u64>
    requires size { IsElementSize about.size }
    requires within { EndsWithin about (bytes_of_row (buffer_row_at about.buffer.0 rows.now.entries)) }
    ensures { result ≡ option_and_then (element_in about at) (bytes_of_row (buffer_row_at about.buffer.0 rows.now.entries)) }
{
    let row = rows.get(&about.buffer.0)?;
    match &row.bytes {
        Some(bytes) => row::read(bytes, about, at),
        None => None,
    }
}

/// Writes an element of a view. False exactly where the index is not below the view's length, or the buffer is detached.
pub(crate) fn write(
    rows: &mut HashMap<u64, BufferRow>,
    about: ViewInfo,
    at: u64,
    number: u64,
) -> bool
    requires size { IsElementSize about.size }
    requires within { EndsWithin about (bytes_of_row (buffer_row_at about.buffer.0 rows.old.entries)) }
    ensures accepted { result ≡ is_some (option_and_then (element_in about at) (bytes_of_row (buffer_row_at about.buffer.0 rows.old.entries))) }
    ensures written { (w : ℕ) → buffer_row_at w rows.new.entries
        ≡ cond (nat_eq about.buffer.0 w) (option_map (row_changed (option_map (with_element_in about at number))) (buffer_row_at about.buffer.0 rows.old.entries)) (buffer_row_at w rows.old.entries) }
{
    match rows.get_mut(&about.buffer.0) {
        Some(row) => row::write(row, about, at, number),
        None => false,
    }
}
