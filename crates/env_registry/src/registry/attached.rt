//! Wraps, type tags and finalizers of values.
ghost use Rattle.std.specs.Prelude.{◌≡◌, ◌<◌, ◌^◌, None, length, option_map, IfSome, IsSome, OnOk, OnErr};
ghost use Rattle.napi_types.specs.parts.Attachments.{wrap_of, wrap_ticket, tag_of as tag_at, with_wrap, without_wrap, with_tag, is_attached_to, left_on};
ghost use Rattle.napi_types.specs.parts.Book.{due_where};
ghost use Rattle.napi_types.specs.parts.Buffers.{buffers_left};
ghost use Rattle.napi_types.specs.parts.Promises.{promises_left};
ghost use Rattle.napi_types.specs.environment.ExternalCalls.{attached_if};
ghost use Rattle.napi_types.specs.environment.Registering.{registered_only};
ghost use Rattle.wrap_tag.specs.Wraps.{is_one_of};
ghost use Rattle.env_registry.specs.Registering.{finalizer_registration, ticket_for, with_registration_if, duty_if, withdrawn_if};

use super::Registry;
use super::buffers::take_buffers_away;
use super::promises::take_away;
use crate::finalizer::Finalizer;
use crate::registering::{duty_of, register_if, reserve_if, withdraw_if};
use napi_types::{Duty, NoMemory, ValueId};

impl Registry {
    /// Takes the memory for a wrap, and for its finalizer, where there is one: [`Registry::wrap`] then takes none.
    pub fn reserve_wrap(&mut self, finalizer: Option<Finalizer>) -> Result<(), NoMemory>
        ensures place { OnOk result (0 < self.new.places) }
        ensures slip { OnOk result (IsSome finalizer → 0 < self.new.slips) }
        ensures same { self.new.parts ≡ self.old.parts }
    {
        reserve_if(&mut self.book, finalizer)?;
        self.wraps.reserve()
    }

    /// Wraps a value that is not wrapped, and registers the finalizer, where there is one: its duty.
    ///
    /// It takes no memory: [`Registry::reserve_wrap`] took it before.
    pub fn wrap(
        &mut self,
        value: ValueId,
        payload: u64,
        finalizer: Option<Finalizer>,
    ) -> Option<Duty>
        requires place { 0 < self.old.places }
        requires slip { IsSome finalizer → 0 < self.old.slips }
        requires few { length self.old.parts.book < 2 ^ 62 }
        requires absent { wrap_of self.old.parts.attachments value.0 ≡ None }
        ensures made { result ≡ duty_if (ticket_for self.old.parts.book (option_map finalizer_registration finalizer)) }
        ensures wrapped { let asked = option_map finalizer_registration finalizer in self.new.parts ≡ record self.old.parts {
          attachments = with_wrap value.0 payload (ticket_for self.old.parts.book asked) self.old.parts.attachments;
          book = with_registration_if asked self.old.parts.book;
        } }
    {
        let ticket = register_if(&mut self.book, finalizer);
        self.wraps.wrap(value, payload, ticket);
        duty_of(ticket)
    }

    /// The native data of a value's wrap. `None` exactly where it is not wrapped.
    pub fn wrapped(&self, value: ValueId) -> Option<u64>
        ensures { result ≡ option_map (λ w. w.payload) (wrap_of self.now.parts.attachments value.0) }
    {
        self.wraps.wrapped(value)
    }

    /// Takes the wrap off a value, and withdraws its finalizer, where it is still registered. It answers with the native data and
    /// with the duty that it withdrew; `None` exactly where the value is not wrapped.
    ///
    /// It takes no memory.
    pub fn unwrap_out(&mut self, value: ValueId) -> Option<(u64, Option<Duty>)>
        ensures payload { option_map (λ r. r.0) result ≡ option_map (λ w. w.payload) (wrap_of self.old.parts.attachments value.0) }
        ensures dropped { let ticket = registered_only self.old.parts.book (wrap_ticket self.old.parts.attachments value.0) in
            IfSome result (λ r. r.1 ≡ duty_if ticket) }
        ensures unwrapped { let ticket = registered_only self.old.parts.book (wrap_ticket self.old.parts.attachments value.0) in
            IfSome result (λ _. self.new.parts ≡ record self.old.parts {
              attachments = without_wrap value.0 self.old.parts.attachments;
              book = withdrawn_if ticket self.old.parts.book;
            }) }
        ensures stays { result ≡ None → self.new.parts ≡ self.old.parts }
    {
        let (payload, ticket) = self.wraps.unwrap_out(value)?;
        Some((payload, withdraw_if(&mut self.book, ticket)))
    }

    /// Tags a value that has no tag. The tag has 128 bits, in two halves. Where there is no memory nothing changes.
    pub fn tag(&mut self, value: ValueId, lower: u64, upper: u64) -> Result<(), NoMemory>
        requires absent { tag_at self.old.parts.attachments value.0 ≡ None }
        ensures ok { OnOk result (self.new.parts ≡ record self.old.parts { attachments = with_tag value.0 lower upper self.old.parts.attachments }) }
        ensures err { OnErr result (self.new.parts ≡ self.old.parts) }
    {
        self.wraps.reserve()?;
        self.wraps.tag(value, lower, upper);
        Ok(())
    }

    /// The tag of a value, its lower half first. `None` exactly where it has none.
    pub fn tag_of(&self, value: ValueId) -> Option<(u64, u64)>
        ensures { result ≡ option_map (λ t. (t.lower, t.upper)) (tag_at self.now.parts.attachments value.0) }
    {
        self.wraps.tag_of(value)
    }

    /// Takes the memory for a finalizer beside a wrap, where there is one: [`Registry::attach`] then takes none.
    pub fn reserve_finalizer(&mut self, finalizer: Option<Finalizer>) -> Result<(), NoMemory>
        ensures place { OnOk result (IsSome finalizer → 0 < self.new.places) }
        ensures slip { OnOk result (IsSome finalizer → 0 < self.new.slips) }
        ensures same { self.new.parts ≡ self.old.parts }
    {
        if finalizer.is_some() {
            reserve_if(&mut self.book, finalizer)?;
            self.wraps.reserve()?;
        }
        Ok(())
    }

    /// Registers a finalizer of a value, where there is one, beside that of its wrap and any that were added before: its duty.
    ///
    /// It takes no memory: [`Registry::reserve_finalizer`] took it before.
    pub fn attach(&mut self, value: ValueId, finalizer: Option<Finalizer>) -> Option<Duty>
        requires place { IsSome finalizer → 0 < self.old.places }
        requires slip { IsSome finalizer → 0 < self.old.slips }
        requires few { length self.old.parts.book < 2 ^ 62 }
        ensures made { result ≡ duty_if (ticket_for self.old.parts.book (option_map finalizer_registration finalizer)) }
        ensures attached { let asked = option_map finalizer_registration finalizer in self.new.parts ≡ record self.old.parts {
          attachments = attached_if value.0 (ticket_for self.old.parts.book asked) self.old.parts.attachments;
          book = with_registration_if asked self.old.parts.book;
        } }
    {
        let ticket = register_if(&mut self.book, finalizer);
        if let Some(ticket) = ticket {
            self.wraps.attach(value, ticket);
        }
        duty_of(ticket)
    }

    /// These values are freed: what is attached to them is forgotten, the tickets of their finalizers fall due where they are
    /// registered, and those that were promises, buffers or views are none any more.
    ///
    /// The time grows with the values and their tickets. It takes no memory.
    pub fn gone_all(&mut self, values: &[ValueId])
        ensures { self.new.parts ≡ record self.old.parts {
          attachments = left_on (is_one_of values.now) self.old.parts.attachments;
          book = due_where (is_attached_to (is_one_of values.now) self.old.parts.attachments) self.old.parts.book;
          promises = promises_left (is_one_of values.now) self.old.parts.promises;
          buffers = buffers_left (is_one_of values.now) self.old.parts.buffers;
        } }
    {
        self.wraps.gone_all(values, &mut self.book);
        take_away(&mut self.promises, values);
        take_buffers_away(&mut self.buffers, values, &mut self.book);
    }
}
