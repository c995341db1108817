//! What is attached to values.
ghost use Rattle.std.specs.Prelude.{◌≡◌, ◌==◌, ◌+◌, ◌<◌, ◌≤◌, None, false, IfOk, IfSome, OnOk, OnErr, option_map};
ghost use Rattle.std.specs.Option.{option_and_then};
ghost use Rattle.napi_types.specs.plain.Lists.{has, has_number};
ghost use Rattle.napi_types.specs.parts.Attachments.{no_attachments, wrap_of, tag_of as tag_at, with_wrap, without_wrap, with_tag, with_attached, tickets_of, tickets_where, is_attached_to, left_on};
ghost use Rattle.napi_types.specs.parts.Book.{due_where};
ghost use Rattle.wrap_tag.specs.Wraps.{AreGiven, is_one_of};

use crate::row::{Chain, Tag, ValueRow, Wrap};
use crate::rows;
use finalizer_queue::Book;
use napi_types::{NoMemory, Ticket, ValueId};
use std::alloc::Global;
use std::collections::HashMap;
use std::marker::Model;

/// Wraps, type tags and finalizers of values: three finite maps. What a value has stays until it is taken off, or the value is
/// freed.
#[derive(Drop)]
pub struct Wraps {
    alloc: Global,
    // By the number of the value. A value stands here from its first attachment until it is freed.
    rows: HashMap<u64, ValueRow>,
    // For the ticket that is attached next.
    link: Option<Box<Chain>>,
}

impl Model for Wraps {
    ghost use Rattle.std.specs.Prelude.{min};
    ghost use Rattle.std.specs.HashMap.{spare};
    ghost use Rattle.std.specs.Option.{option_len};
    ghost use Rattle.wrap_tag.specs.Wraps.{WrapState};
    ghost use Rattle.wrap_tag.specs.ValueRows.{attachments_of, AreRows};

    ghost Value = { WrapState };

    ghost view = { λ w. record { attachments = attachments_of w.rows.entries; spare = min (spare w.rows) (option_len w.link) } };

    ghost invariant = { λ w. AreRows w.rows.entries };
}

impl Wraps {
    /// Nothing is attached.
    pub fn new(alloc: Global) -> Result<Wraps, NoMemory>
        ensures { IfOk result (λ wraps. wraps.attachments ≡ no_attachments) }
    {
        Ok(Wraps {
            alloc,
            rows: HashMap::new(alloc),
            link: None,
        })
    }

    /// Takes the memory for one more of each: a wrap, a tag or a ticket is then added without any. Where one of each is spare already
    /// it takes none, and changes nothing.
    ///
    /// Near constant time: now and then the table of values grows.
    pub fn reserve(&mut self) -> Result<(), NoMemory>
        ensures ok { OnOk result (0 < self.new.spare) }
        ensures same { self.new.attachments ≡ self.old.attachments }
        ensures memory { OnErr result (self.old.spare ≡ 0) }
        ensures enough { 0 < self.old.spare → self.new ≡ self.old }
    {
        self.rows.reserve(1)?;
        if self.link.is_none() {
            self.link = Some(Box::new(self.alloc, Chain::End)?);
        }
        Ok(())
    }

    /// Wraps a value that is not wrapped: the manual's `napi_wrap`. The ticket is that of the finalizer, where there is one.
    ///
    /// Near constant time. It takes no memory: [`Wraps::reserve`] took it before.
    pub fn wrap(&mut self, value: ValueId, payload: u64, ticket: Option<Ticket>)
        requires reserved { 0 < self.old.spare }
        requires absent { wrap_of self.old.attachments value.0 ≡ None }
        ensures wrapped { self.new.attachments ≡ with_wrap value.0 payload (option_map (λ t. t.0) ticket) self.old.attachments }
        ensures spare { self.old.spare ≤ self.new.spare + 1 }
    {
        rows::put_wrap(&mut self.rows, value, Wrap { payload, ticket });
    }

    /// Tags a value that has no tag: the manual's `napi_type_tag_object`. The tag has 128 bits, in two halves.
    ///
    /// Near constant time. It takes no memory: [`Wraps::reserve`] took it before.
    pub fn tag(&mut self, value: ValueId, lower: u64, upper: u64)
        requires reserved { 0 < self.old.spare }
        requires absent { tag_at self.old.attachments value.0 ≡ None }
        ensures tagged { self.new.attachments ≡ with_tag value.0 lower upper self.old.attachments }
        ensures spare { self.old.spare ≤ self.new.spare + 1 }
    {
        rows::put_tag(&mut self.rows, value, Tag { lower, upper });
    }

    /// Attaches a finalizer to a value by its ticket, which is attached to no value yet: the manual's `napi_add_finalizer`, and
    /// that of an external. A value may have several.
    ///
    /// Near constant time. It takes no memory: [`Wraps::reserve`] took it before.
    pub fn attach(&mut self, value: ValueId, ticket: Ticket)
        requires reserved { 0 < self.old.spare }
        requires absent { has (λ t. t.ticket) ticket.0 self.old.attachments.tickets ≡ false }
        ensures attached { self.new.attachments ≡ with_attached value.0 ticket.0 self.old.attachments }
        ensures spare { self.old.spare ≤ self.new.spare + 1 }
    {
        let Some(link) = self.link.take() else {
            unreachable!()
        };
        rows::put_ticket(&mut self.rows, value, link, ticket);
    }

    /// The native data of a value's wrap: the manual's `napi_unwrap`. `None` exactly where it is not wrapped.
    ///
    /// Near constant time.
    pub fn wrapped(&self, value: ValueId) -> Option<u64>
        ensures { result ≡ option_map (λ w. w.payload) (wrap_of self.now.attachments value.0) }
    {
        let wrap = rows::wrap_at(&self.rows, value)?;
        Some(wrap.payload)
    }

    /// The tag of a value, its lower half first. `None` exactly where it has none.
    ///
    /// Near constant time.
    pub fn tag_of(&self, value: ValueId) -> Option<(u64, u64)>
        ensures { result ≡ option_map (λ t. (t.lower, t.upper)) (tag_at self.now.attachments value.0) }
    {
        let tag = rows::tag_at(&self.rows, value)?;
        Some((tag.lower, tag.upper))
    }

    /// Takes the wrap off a value: the manual's `napi_remove_wrap`. It answers with its native data and with the ticket of its
    /// finalizer, where it had one; `None` exactly where the value is not wrapped.
    ///
    /// Near constant time. It takes no memory.
    pub fn unwrap_out(&mut self, value: ValueId) -> Option<(u64, Option<Ticket>)>
        ensures payload { option_map (λ r. r.0) result ≡ option_map (λ w. w.payload) (wrap_of self.old.attachments value.0) }
        ensures ticket { IfSome result (λ r. option_map (λ t. t.0) r.1 ≡ option_and_then (λ w. w.ticket) (wrap_of self.old.attachments value.0)) }
        ensures unwrapped { self.new.attachments ≡ without_wrap value.0 self.old.attachments }
        ensures stays { result ≡ None → self.new ≡ self.old }
        ensures spare { self.old.spare ≤ self.new.spare }
    {
        let wrap = rows::unwrap_out(&mut self.rows, value)?;
        Some((wrap.payload, wrap.ticket))
    }

    /// A value is freed: its wrap, its tag and its finalizers are forgotten, and the tickets of these fall due where they are
    /// registered. The book gave each of them.
    ///
    /// The time grows with the tickets of the value. It takes no memory.
    pub fn gone(&mut self, value: ValueId, book: &mut Book)
        requires { AreGiven (tickets_of self.old.attachments value.0) book.old.book }
        ensures forgotten { self.new.attachments ≡ left_on (λ v. v == value.0) self.old.attachments }
        ensures due { book.new.book ≡ due_where (λ n. has_number n (tickets_of self.old.attachments value.0)) book.old.book }
        ensures spare { self.old.spare ≤ self.new.spare }
        ensures room { book.old.spare ≤ book.new.spare }
    {
        rows::take(&mut self.rows, value).make_due(book);
    }

    /// These values are freed, each as [`Wraps::gone`] says.
    ///
    /// The time grows with the values and their tickets. It takes no memory.
    pub fn gone_all(&mut self, values: &[ValueId], book: &mut Book)
        requires { AreGiven (tickets_where (is_one_of values.now) self.old.attachments) book.old.book }
        ensures forgotten { self.new.attachments ≡ left_on (is_one_of values.now) self.old.attachments }
        ensures due { book.new.book ≡ due_where (is_attached_to (is_one_of values.now) self.old.attachments) book.old.book }
        ensures spare { self.old.spare ≤ self.new.spare }
        ensures room { book.old.spare ≤ book.new.spare }
    {
        for value in values {
            self.gone(*value, book);
        }
    }
}
