//! One buffer, and the elements of its views.
ghost use Rattle.std.specs.Prelude.{◌≡◌, ◌+◌, ◌≤◌, ◌<◌, None, length, option_map, is_some, IsSome};
ghost use Rattle.std.specs.Int.{w64, from_le_bytes, bytes_low_first};
ghost use Rattle.std.specs.Option.{option_and_then};
ghost use Rattle.napi_types.specs.parts.Book.{due_where};
ghost use Rattle.napi_types.specs.parts.Buffers.{IsElementSize, view_end, element_start, element_in, overwritten, with_element_in, IsGivenTicket, is_this_ticket};
ghost use Rattle.array_buffers.specs.BufferTables.{row_bytes, row_length, EndsWithin};

use finalizer_queue::Book;
use napi_types::{Ticket, ViewInfo};

/// A buffer: its bytes until it is detached, and the ticket of an external one's finalizer.
#[derive(Drop)]
pub(crate) struct BufferRow {
    pub(crate) bytes: Option<Vec<u8>>,
    pub(crate) ticket: Option<Ticket>,
}

impl BufferRow {
    /// How many bytes it has, none once it is detached.
    pub(crate) fn length(&self) -> usize
        ensures { result ≡ row_length self.now }
    {
        match &self.bytes {
            Some(bytes) => bytes.len(),
            None => 0,
        }
    }

    /// It is detached. How many bytes it had.
    pub(crate) fn detach(&mut self) -> usize
        requires { IsSome (row_bytes self.old) }
        ensures bytes { row_bytes self.new ≡ None }
        ensures ticket { self.new.ticket ≡ self.old.ticket }
        ensures length { result ≡ row_length self.old }
    {
        let Some(bytes) = self.bytes.take() else {
            unreachable!()
        };
        bytes.len()
    }

    /// Its ticket falls due, where it has one that is registered. How many bytes it had.
    pub(crate) fn leave(self, book: &mut Book) -> usize
        requires { IsGivenTicket (option_map (λ t. t.0) self.ticket) book.old.book }
        ensures due { book.new.book ≡ due_where (is_this_ticket (option_map (λ t. t.0) self.ticket)) book.old.book }
        ensures spare { book.old.spare ≤ book.new.spare }
        ensures length { result ≡ row_length self }
    {
        if let Some(ticket) = self.ticket {
            book.make_due(ticket);
        }
        self.length()
    }
}

/// Where an element of a view begins in the bytes of its buffer.
fn start_of(about: ViewInfo, at: u64) -> usize
    requires size { IsElementSize about.size }
    requires below { at < about.length }
    ensures { result ≡ element_start about at }
{
    about.offset as usize + at as usize * about.size as usize
}

/// The number whose bytes these are, the least first.
fn number_of(bytes: &[u8]) -> u64
    requires { length bytes.now ≤ 8 }
    ensures { result ≡ from_le_bytes w64 bytes.now }
{
    let mut word = [0; 8];
    word[..bytes.len()].copy_from_slice(bytes);
    u64::from_le_bytes(word)
}

/// The element of a view in the bytes of its buffer. `None` exactly where the index is not below the view's length.
pub(crate) fn read(bytes: &[u8], about: ViewInfo, at: u64) -> Option<u64>
    requires size { IsElementSize about.size }
    requires within { view_end about ≤ length bytes.now }
    ensures { result ≡ element_in about at bytes.now }
{
    if at >= about.length as u64 {
        return None;
    }
    let start = start_of(about, at);
    Some(number_of(&bytes[start..start + about.size as usize]))
}

/// Writes these bytes from a place on.
fn overwrite(bytes: &mut [u8], start: usize, size: usize, number: u64)
    requires size { IsElementSize size }
    requires within { start + size ≤ length bytes.old }
    ensures { bytes.new ≡ overwritten start (bytes_low_first 0 size number) bytes.old }
{
    bytes[start..start + size].copy_from_slice(&number.to_le_bytes()[..size]);
}

/// Writes an element of a view into the bytes of its buffer. False exactly where the index is not below the view's length.
fn write_in(bytes: &mut [u8], about: ViewInfo, at: u64, number: u64) -> bool
    requires size { IsElementSize about.size }
    requires within { view_end about ≤ length bytes.old }
    ensures accepted { result ≡ is_some (element_in about at bytes.old) }
    ensures written { bytes.new ≡ with_element_in about at number bytes.old }
{
    if at >= about.length as u64 {
        return false;
    }
    overwrite(bytes, start_of(about, at), about.size as usize, number);
    true
}

/// Writes an element of a view into its buffer. False exactly where the index is not below the view's length, or the buffer is detached.
pub(crate) fn write(row: &mut BufferRow, about: ViewInfo, at: u64, number: u64) -> bool
    requires size { IsElementSize about.size }
    requires within { EndsWithin about (row_bytes row.old) }
    ensures accepted { result ≡ is_some (option_and_then (element_in about at) (row_bytes row.old)) }
    ensures written { row_bytes row.new ≡ option_map (with_element_in about at number) (row_bytes row.old) }
    ensures ticket { row.new.ticket ≡ row.old.ticket }
{
    match &mut row.bytes {
        Some(bytes) => write_in(bytes, about, at, number),
        None => false,
    }
}
