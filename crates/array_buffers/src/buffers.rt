//! Buffers and views by their values.
ghost use Rattle.std.specs.Prelude.{◌≡◌, ◌+◌, ◌*◌, ◌^◌, ◌%◌, ◌≤◌, ◌<◌, None, Some, false, IfOk, IfSome, IsSome, IsSomeAnd, OnOk, OnErr, is_some, option_map};
ghost use Rattle.napi_types.specs.parts.Book.{due_where};
ghost use Rattle.napi_types.specs.parts.Buffers.{no_buffers, most_buffer_bytes, most_bytes_together, IsElementSize, buffer_at, view_at, is_viewed, buffer_length, total_bytes, is_detached_buffer, live_bytes, buffer_ticket, view_end, element_read, with_buffer, with_view, with_detached, with_element_written, without_buffer, IsGivenTicket, is_this_ticket, AreWithinLimits};
ghost use Rattle.array_buffers.specs.KeptBuffers.{AreBufferMaps};

use crate::row::BufferRow;
use crate::rows;
use crate::zeros::Zeros;
use finalizer_queue::Book;
use napi_types::{NoMemory, Ticket, ValueId, ViewInfo};
use std::alloc::Global;
use std::collections::HashMap;
use std::marker::Model;

/// Array buffers and their views. A buffer and a view stay until their values are gone. The bytes of a buffer stay until it is detached or
/// gone.
#[derive(Drop)]
pub struct Buffers {
    alloc: Global,
    // By the number of the value.
    rows: HashMap<u64, BufferRow>,
    // By the number of the value. A view has no bytes of its own.
    views: HashMap<u64, ViewInfo>,
    // How many bytes all buffers have together.
    total: u64,
}

impl Model for Buffers {
    ghost use Rattle.std.specs.Prelude.{min};
    ghost use Rattle.std.specs.HashMap.{spare};
    ghost use Rattle.array_buffers.specs.BufferTables.{buffers_of, StandsForBuffers};
    ghost use Rattle.array_buffers.specs.KeptBuffers.{KeptBuffers};

    ghost Value = { KeptBuffers };

    ghost view = { λ b. record { buffers = buffers_of b.rows.entries b.views.entries; spare = min (spare b.rows) (spare b.views) } };

    ghost invariant = { λ b. StandsForBuffers b.total (buffers_of b.rows.entries b.views.entries) };
}

impl Buffers {
    /// No buffers.
    pub fn new(alloc: Global) -> Result<Buffers, NoMemory>
        ensures { IfOk result (λ b. b.buffers ≡ no_buffers) }
    {
        Ok(Buffers {
            alloc,
            rows: HashMap::new(alloc),
            views: HashMap::new(alloc),
            total: 0,
        })
    }

    /// No effect. Its clauses are what holds of all buffers and views.
    pub fn invariant(&self)
        ensures limits { AreWithinLimits self.now.buffers }
        ensures maps { AreBufferMaps self.now.buffers }
    {
        let _total = self.total;
    }

    /// Makes a buffer of a value that is none, and in which no view lies: the manual's `napi_create_arraybuffer`, and with the ticket of
    /// its finalizer `napi_create_external_arraybuffer`. It has this many bytes, which are 0: at most 1,048,576, and together with those
    /// of the other buffers at most 268,435,456.
    ///
    /// Its bytes are taken at once, in time linear in how many they are. Now and then the table of buffers grows.
    pub fn make(
        &mut self,
        value: ValueId,
        length: u32,
        ticket: Option<Ticket>,
    ) -> Result<(), NoMemory>
        requires few { length ≤ most_buffer_bytes }
        requires together { total_bytes self.old.buffers + length ≤ most_bytes_together }
        requires absent { buffer_at self.old.buffers value.0 ≡ None }
        requires unviewed { is_viewed self.old.buffers value.0 ≡ false }
        ensures made { OnOk result (self.new.buffers ≡ with_buffer value.0 length (option_map (λ t. t.0) ticket) self.old.buffers) }
        ensures err { OnErr result (self.new.buffers ≡ self.old.buffers) }
    {
        let bytes = self.zeros(length)?;
        self.reserve()?;
        self.make_reserved(value, bytes, ticket);
        Ok(())
    }

    /// Takes the memory for one buffer and one view more: [`Buffers::make_reserved`] and [`Buffers::view_reserved`] then take none.
    ///
    /// Near constant time: now and then the tables grow.
    pub fn reserve(&mut self) -> Result<(), NoMemory>
        ensures place { OnOk result (0 < self.new.spare) }
        ensures same { self.new.buffers ≡ self.old.buffers }
    {
        self.rows.reserve(1)?;
        self.views.reserve(1)?;
        Ok(())
    }

    /// The bytes of a buffer that is to be made, which are taken at once.
    ///
    /// Linear in how many they are.
    pub fn zeros(&self, length: u32) -> Result<Zeros, NoMemory>
        ensures { IfOk result (λ zeros. zeros ≡ length) }
    {
        Zeros::new(self.alloc, length)
    }

    /// As [`Buffers::make`], where the memory was taken before.
    ///
    /// Near constant time. It takes no memory: [`Buffers::reserve`] and [`Buffers::zeros`] took it.
    pub fn make_reserved(&mut self, value: ValueId, bytes: Zeros, ticket: Option<Ticket>)
        requires place { 0 < self.old.spare }
        requires few { bytes ≤ most_buffer_bytes }
        requires together { total_bytes self.old.buffers + bytes ≤ most_bytes_together }
        requires absent { buffer_at self.old.buffers value.0 ≡ None }
        requires unviewed { is_viewed self.old.buffers value.0 ≡ false }
        ensures { self.new.buffers ≡ with_buffer value.0 bytes (option_map (λ t. t.0) ticket) self.old.buffers }
    {
        let length = bytes.length();
        let row = BufferRow {
            bytes: Some(bytes.into_bytes()),
            ticket,
        };
        rows::put(&mut self.rows, value, row);
        self.total += length as u64;
    }

    /// Makes a view of a value: the manual's `napi_create_typedarray`. It lies in a buffer. The end of one that is detached is 0.
    ///
    /// Near constant time: now and then the table of views grows.
    pub fn view(&mut self, value: ValueId, about: ViewInfo) -> Result<(), NoMemory>
        requires size { IsElementSize about.size }
        requires within { IsSomeAnd (buffer_length self.old.buffers about.buffer.0) (λ end. view_end about ≤ end) }
        ensures made { OnOk result (self.new.buffers ≡ with_view value.0 about self.old.buffers) }
        ensures err { OnErr result (self.new.buffers ≡ self.old.buffers) }
    {
        self.reserve()?;
        self.view_reserved(value, about);
        Ok(())
    }

    /// As [`Buffers::view`], where the memory was taken before.
    ///
    /// Near constant time. It takes no memory: [`Buffers::reserve`] took it.
    pub fn view_reserved(&mut self, value: ValueId, about: ViewInfo)
        requires place { 0 < self.old.spare }
        requires size { IsElementSize about.size }
        requires within { IsSomeAnd (buffer_length self.old.buffers about.buffer.0) (λ end. view_end about ≤ end) }
        ensures { self.new.buffers ≡ with_view value.0 about self.old.buffers }
    {
        rows::put_view(&mut self.views, value, about);
    }

    /// How many bytes all buffers have together. One that is detached has none.
    ///
    /// Constant time.
    pub fn total(&self) -> u64
        ensures sum { result ≡ total_bytes self.now.buffers }
        ensures most { result ≤ most_bytes_together }
    {
        self.total
    }

    /// How many bytes a buffer has: the manual's `napi_get_arraybuffer_info`. 0 once it is detached. `None` exactly where the value is no
    /// buffer.
    ///
    /// Near constant time.
    pub fn length(&self, value: ValueId) -> Option<u32>
        ensures { result ≡ buffer_length self.now.buffers value.0 }
    {
        let row = self.rows.get(&value.0)?;
        Some(row.length() as u32)
    }

    /// Whether a value is a buffer that is detached: the manual's `napi_is_detached_arraybuffer`.
    ///
    /// Near constant time.
    pub fn detached(&self, value: ValueId) -> bool
        ensures { result ≡ is_detached_buffer self.now.buffers value.0 }
    {
        match self.rows.get(&value.0) {
            Some(row) => row.bytes.is_none(),
            None => false,
        }
    }

    /// Where a view lies. `None` exactly where the value is no view.
    ///
    /// Near constant time.
    pub fn about(&self, value: ValueId) -> Option<ViewInfo>
        ensures { result ≡ view_at self.now.buffers value.0 }
    {
        self.views.get(&value.0).copied()
    }

    /// Detaches a buffer that is not detached: the manual's `napi_detach_arraybuffer`. Its bytes leave the sum, its ticket stays.
    ///
    /// Near constant time. It takes no memory.
    pub fn detach(&mut self, value: ValueId)
        requires { IsSome (live_bytes self.old.buffers value.0) }
        ensures { self.new.buffers ≡ with_detached value.0 self.old.buffers }
    {
        let given_back = rows::detach(&mut self.rows, value);
        self.total -= given_back as u64;
    }

    /// The element of a view at an index. `None` exactly where the value is no view, the index is not below its length, or its buffer is
    /// detached.
    ///
    /// Near constant time, whatever the buffer's length.
    pub fn get(&self, view: ValueId, at: u64) -> Option<u64>
        ensures { result ≡ element_read self.now.buffers view.0 at }
    {
        let about = self.views.get(&view.0)?;
        rows::read(&self.rows, *about, at)
    }

    /// Writes the element of a view at an index: the number modulo 2 to the power of the element's bits. False exactly where
    /// [`Buffers::get`] gives `None`; nothing changes then.
    ///
    /// Near constant time, whatever the buffer's length. It takes no memory.
    pub fn set(&mut self, view: ValueId, at: u64, to: u64) -> bool
        ensures accepted { result ≡ is_some (element_read self.old.buffers view.0 at) }
        ensures written { self.new.buffers ≡ with_element_written view.0 at to self.old.buffers }
        ensures kept { IfSome (view_at self.old.buffers view.0) (λ about. element_read self.new.buffers view.0 at
            ≡ option_map (λ _. to % 2 ^ (8 * about.size)) (element_read self.old.buffers view.0 at)) }
    {
        let Some(about) = self.views.get(&view.0).copied() else {
            return false;
        };
        rows::write(&mut self.rows, about, at, to)
    }

    /// A value is gone: where it was a buffer, so are its bytes, and its ticket falls due where it has one that is registered; where it
    /// was a view, that is gone. The book gave the ticket.
    ///
    /// Near constant time, beside the logarithm of how many tickets are due. It takes no memory.
    pub fn gone(&mut self, value: ValueId, book: &mut Book)
        requires { IsGivenTicket (buffer_ticket self.old.buffers value.0) book.old.book }
        ensures forgotten { self.new.buffers ≡ without_buffer value.0 self.old.buffers }
        ensures due { book.new.book ≡ due_where (is_this_ticket (buffer_ticket self.old.buffers value.0)) book.old.book }
        ensures spare { book.old.spare ≤ book.new.spare }
    {
        self.views.remove(&value.0);
        let given_back = rows::take(&mut self.rows, value, book);
        self.total -= given_back as u64;
    }
}
