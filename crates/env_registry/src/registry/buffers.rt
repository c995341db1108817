//! Array buffers and their views.
ghost use Rattle.std.specs.Prelude.{◌≡◌, ◌+◌, ◌≤◌, ◌<◌, ◌^◌, ℕ, true, None, Some, false, length, is_some, IfOk, IfSome, IsSome, IsSomeAnd, OnOk};
ghost use Rattle.napi_types.specs.parts.Attachments.{with_attached};
ghost use Rattle.napi_types.specs.parts.Book.{new_ticket, ticket_duty, with_registration};
ghost use Rattle.napi_types.specs.parts.Buffers.{most_buffer_bytes, most_bytes_together, IsElementSize, buffer_at, is_viewed, buffer_length, total_bytes, is_detached_buffer, live_bytes, view_end, element_read, with_buffer, with_view, with_detached, with_element_written, buffers_left, buffer_ticket};
ghost use Rattle.wrap_tag.specs.Wraps.{is_one_of};
ghost use Rattle.env_registry.specs.KeptRegistry.{IsDueAlready};
ghost use Rattle.env_registry.specs.Registering.{finalizer_registration};

use super::Registry;
use crate::finalizer::Finalizer;
use array_buffers::{Buffers, Zeros};
use finalizer_queue::Book;
use napi_types::{Duty, NoMemory, ValueId, ViewInfo};

/// Each of these values that was a buffer or a view is none any more. The tickets of such buffers fell due with what was attached to their values.
pub(super) fn take_buffers_away(buffers: &mut Buffers, values: &[ValueId], book: &mut Book)
    requires due { (v t : ℕ) → is_one_of values.now v ≡ true → buffer_ticket buffers.old.buffers v ≡ Some t → IsDueAlready book.old.book t }
    ensures left { buffers.new.buffers ≡ buffers_left (is_one_of values.now) buffers.old.buffers }
    ensures same { book.new.book ≡ book.old.book }
    ensures spare { book.old.spare ≤ book.new.spare }
{
    for value in values {
        buffers.gone(*value, book);
    }
}

impl Registry {
    /// Takes the memory for one buffer more, for its finalizer, where there is one, and for its bytes, which are 0.
    /// [`Registry::make_buffer`] and [`Registry::make_external_buffer`] then take none.
    ///
    /// The time grows with the length.
    pub fn reserve_buffer(
        &mut self,
        length: u32,
        finalizer: Option<Finalizer>,
    ) -> Result<Zeros, NoMemory>
        ensures bytes { IfOk result (λ zeros. zeros ≡ length) }
        ensures block { OnOk result (0 < self.new.blocks) }
        ensures place { OnOk result (IsSome finalizer → 0 < self.new.places) }
        ensures slip { OnOk result (IsSome finalizer → 0 < self.new.slips) }
        ensures same { self.new.parts ≡ self.old.parts }
    {
        self.reserve_finalizer(finalizer)?;
        self.buffers.reserve()?;
        self.buffers.zeros(length)
    }

    /// Makes a buffer of a value that is none, and in which no view lies.
    ///
    /// It takes no memory: [`Registry::reserve_buffer`] took it before.
    pub fn make_buffer(&mut self, value: ValueId, bytes: Zeros)
        requires block { 0 < self.old.blocks }
        requires few { bytes ≤ most_buffer_bytes }
        requires together { total_bytes self.old.parts.buffers + bytes ≤ most_bytes_together }
        requires absent { buffer_at self.old.parts.buffers value.0 ≡ None }
        requires unviewed { is_viewed self.old.parts.buffers value.0 ≡ false }
        ensures { self.new.parts ≡ record self.old.parts { buffers = with_buffer value.0 bytes None self.old.parts.buffers } }
    {
        self.buffers.make_reserved(value, bytes, None);
    }

    /// The same of an external buffer, whose finalizer is registered and attached to the value: its duty.
    ///
    /// It takes no memory: [`Registry::reserve_buffer`] took it before.
    pub fn make_external_buffer(
        &mut self,
        value: ValueId,
        bytes: Zeros,
        finalizer: Finalizer,
    ) -> Duty
        requires block { 0 < self.old.blocks }
        requires place { 0 < self.old.places }
        requires slip { 0 < self.old.slips }
        requires tickets { length self.old.parts.book < 2 ^ 62 }
        requires few { bytes ≤ most_buffer_bytes }
        requires together { total_bytes self.old.parts.buffers + bytes ≤ most_bytes_together }
        requires absent { buffer_at self.old.parts.buffers value.0 ≡ None }
        requires unviewed { is_viewed self.old.parts.buffers value.0 ≡ false }
        ensures duty { result ≡ ticket_duty (new_ticket self.old.parts.book) }
        ensures made { self.new.parts ≡ record self.old.parts {
          attachments = with_attached value.0 (new_ticket self.old.parts.book) self.old.parts.attachments;
          buffers = with_buffer value.0 bytes (Some (new_ticket self.old.parts.book)) self.old.parts.buffers;
          book = with_registration (finalizer_registration finalizer) self.old.parts.book;
        } }
    {
        let ticket = self.book.register(finalizer.duty());
        self.wraps.attach(value, ticket);
        self.buffers.make_reserved(value, bytes, Some(ticket));
        Duty::Ticket(ticket)
    }

    /// Takes the memory for one view more: [`Registry::make_view`] then takes none.
    pub fn reserve_view(&mut self) -> Result<(), NoMemory>
        ensures block { OnOk result (0 < self.new.blocks) }
        ensures same { self.new.parts ≡ self.old.parts }
    {
        self.buffers.reserve()
    }

    /// Makes a view of a value. It lies in a buffer. The end of one that is detached is 0.
    ///
    /// It takes no memory: [`Registry::reserve_view`] took it before.
    pub fn make_view(&mut self, value: ValueId, about: ViewInfo)
        requires block { 0 < self.old.blocks }
        requires size { IsElementSize about.size }
        requires within { IsSomeAnd (buffer_length self.old.parts.buffers about.buffer.0) (λ end. view_end about ≤ end) }
        ensures { self.new.parts ≡ record self.old.parts { buffers = with_view value.0 about self.old.parts.buffers } }
    {
        self.buffers.view_reserved(value, about);
    }

    /// How many bytes all buffers have together. One that is detached has none.
    pub fn bytes_together(&self) -> u64
        ensures sum { result ≡ total_bytes self.now.parts.buffers }
        ensures most { result ≤ most_bytes_together }
    {
        self.buffers.total()
    }

    /// How many bytes a buffer has, 0 once it is detached. `None` exactly where the value is no buffer.
    pub fn buffer_length(&self, value: ValueId) -> Option<u32>
        ensures { result ≡ buffer_length self.now.parts.buffers value.0 }
    {
        self.buffers.length(value)
    }

    /// Whether a value is a buffer that is detached.
    pub fn is_detached_buffer(&self, value: ValueId) -> bool
        ensures { result ≡ is_detached_buffer self.now.parts.buffers value.0 }
    {
        self.buffers.detached(value)
    }

    /// Detaches a buffer that is not detached. Its finalizer stays.
    ///
    /// It takes no memory.
    pub fn detach_buffer(&mut self, value: ValueId)
        requires { IsSome (live_bytes self.old.parts.buffers value.0) }
        ensures { self.new.parts ≡ record self.old.parts { buffers = with_detached value.0 self.old.parts.buffers } }
    {
        self.buffers.detach(value);
    }

    /// The element of a view at an index. `None` exactly where the value is no view, the index is not below its length, or its buffer is
    /// detached.
    pub fn element(&self, view: ValueId, at: u64) -> Option<u64>
        ensures { result ≡ element_read self.now.parts.buffers view.0 at }
    {
        self.buffers.get(view, at)
    }

    /// Writes the element of a view at an index: the number modulo 2 to the power of the element's bits. False exactly where
    /// [`Registry::element`] gives `None`; nothing changes then.
    ///
    /// It takes no memory.
    pub fn set_element(&mut self, view: ValueId, at: u64, number: u64) -> bool
        ensures accepted { result ≡ is_some (element_read self.old.parts.buffers view.0 at) }
        ensures written { self.new.parts ≡ record self.old.parts { buffers = with_element_written view.0 at number self.old.parts.buffers } }
    {
        self.buffers.set(view, at, number)
    }
}
