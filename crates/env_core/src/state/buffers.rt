//! The calls on array buffers and their views.
ghost use Rattle.std.specs.Prelude.{◌≡◌, ◌≢◌, ◌+◌, ◌<◌, ◌^◌, [], Some, None, length as count, IfOk, OnErr};
ghost use Rattle.napi_types.specs.declared.call.Call.TheVariants as call_of;
ghost use Rattle.napi_types.specs.declared.entry.Out.TheVariants as out_of;
ghost use Rattle.napi_types.specs.plain.CallFacts.{group_of};
ghost use Rattle.napi_types.specs.plain.Replies.{plain as plain_reply};
ghost use Rattle.napi_types.specs.parts.Properties.{most_names};
ghost use Rattle.napi_types.specs.environment.BufferCalls.{limit_refusal};
ghost use Rattle.napi_types.specs.environment.Refusals.{refusal_by_state};
ghost use Rattle.env_core.specs.State.{AnswersInTime, FindsNoMemory, HasNumbersFor};

use super::State;
use crate::handles::{Attachable, target};
use crate::views::view_asked;
use env_registry::Registry;
use env_values::{BUFFER_TAG, VIEW_TAG, invariant, make_linked};
use napi_types::{Call, CallGroup, HandleId, NoMemory, Out, Reply, Status};

/// How many bytes a buffer has at most.
const MOST_BUFFER_BYTES: u64 = 1_048_576;

/// How many bytes the buffers of an environment have at most together.
const MOST_BYTES_TOGETHER: u64 = 268_435_456;

/// A reply that tells nothing but a refusal.
fn refused(status: Status) -> Reply
    ensures { result ≡ plain_reply status out_of.Nothing }
{
    Reply::plain(status, Out::Nothing)
}

/// Why a new buffer of so many bytes is refused, if it is.
fn limit_refusal(registry: &Registry, length: u64) -> Option<Status>
    ensures { result ≡ limit_refusal registry.now.parts.buffers length }
{
    if length > MOST_BUFFER_BYTES {
        return Some(Status::InvalidArg);
    }
    if registry.bytes_together() + length > MOST_BYTES_TOGETHER {
        return Some(Status::GenericFailure);
    }
    None
}

impl State {
    /// What a call on array buffers and their views answers.
    #[tactic(auto, using(crate::proofs::Unrefused::stopped))]
    pub(super) fn answer_on_buffers(&mut self, call: &Call) -> Result<Reply, NoMemory>
        requires standing { self.old.frames ≢ [] }
        requires group { group_of call.now ≡ CallGroup.OnBuffers }
        requires numbers { HasNumbersFor self.old }
        ensures ok { IfOk result (λ reply. AnswersInTime self.old call.now reply self.new) }
        ensures stopped { OnErr result (FindsNoMemory self.old call.now (refusal_by_state self.old call.now) self.new) }
    {
        match call {
            Call::CreateArraybuffer(length) => self.create_arraybuffer(*length),
            Call::CreateExternalArraybuffer(length, payload, entry, hint) => {
                self.create_external_arraybuffer(*length, *payload, *entry, *hint)
            }
            Call::IsArraybuffer(value) => Ok(self.is_arraybuffer(*value)),
            Call::IsDetachedArraybuffer(value) => Ok(self.is_detached_arraybuffer(*value)),
            Call::GetArraybufferInfo(buffer) => Ok(self.get_arraybuffer_info(*buffer)),
            Call::DetachArraybuffer(buffer) => Ok(self.detach_arraybuffer(*buffer)),
            Call::CreateTypedarray(kind, buffer, offset, length) => {
                self.create_typedarray(*kind, *buffer, *offset, *length)
            }
            Call::GetView(view, index) => Ok(self.get_view(*view, *index)),
            Call::SetView(view, index, number) => Ok(self.set_view(*view, *index, *number)),
            _ => unreachable!(),
        }
    }

    /// A new buffer of so many bytes, which are 0, and its handle. It is refused where it would have more bytes than one may have, and
    /// where all together would.
    #[inline(never)]
    pub(super) fn create_arraybuffer(&mut self, length: u64) -> Result<Reply, NoMemory>
        requires standing { self.old.frames ≢ [] }
        requires values { self.old.heap.made + most_names + 8 < 2 ^ 48 }
        requires handles { self.old.heap.handles < 2 ^ 62 }
        ensures ok { IfOk result (λ reply. AnswersInTime self.old (call_of.CreateArraybuffer length) reply self.new) }
        ensures err { OnErr result (self.new ≡ self.old) }
        ensures unrefused { OnErr result (refusal_by_state self.old (call_of.CreateArraybuffer length) ≡ None) }
    {
        // Buffers are told apart by the creation numbers of their values, and a value is one buffer at most.
        invariant(&self.store);
        self.registry.invariant();
        if let Some(status) = limit_refusal(&self.registry, length) {
            return Ok(refused(status));
        }
        let bytes = self.registry.reserve_buffer(length as u32, None)?;
        let (buffer, handle) = make_linked(&mut self.store, &mut self.scopes, BUFFER_TAG, None)?;
        invariant(&self.store);
        self.registry.make_buffer(buffer, bytes);
        Ok(Reply::plain(Status::Ok, Out::Handle(handle)))
    }

    /// The same of an external buffer, for which a finalizer is registered.
    #[inline(never)]
    pub(super) fn create_external_arraybuffer(
        &mut self,
        length: u64,
        payload: u64,
        entry: u32,
        hint: u64,
    ) -> Result<Reply, NoMemory>
        requires standing { self.old.frames ≢ [] }
        requires values { self.old.heap.made + most_names + 8 < 2 ^ 48 }
        requires handles { self.old.heap.handles < 2 ^ 62 }
        requires tickets { count self.old.book < 2 ^ 62 }
        ensures ok { IfOk result (λ reply. AnswersInTime self.old (call_of.CreateExternalArraybuffer length payload entry hint) reply self.new) }
        ensures err { OnErr result (self.new ≡ self.old) }
        ensures unrefused { OnErr result (refusal_by_state self.old (call_of.CreateExternalArraybuffer length payload entry hint) ≡ None) }
    {
        // Buffers are told apart by the creation numbers of their values, and a value is one buffer at most.
        invariant(&self.store);
        self.registry.invariant();
        if let Some(status) = limit_refusal(&self.registry, length) {
            return Ok(refused(status));
        }
        let finalizer = self.finalizer(payload, entry, hint);
        let bytes = self
            .registry
            .reserve_buffer(length as u32, Some(finalizer))?;
        let (buffer, handle) = make_linked(&mut self.store, &mut self.scopes, BUFFER_TAG, None)?;
        invariant(&self.store);
        let duty = self.registry.make_external_buffer(buffer, bytes, finalizer);
        Ok(Reply {
            status: Status::Ok,
            out: Out::Handle(handle),
            dropped: None,
            made: Some(duty),
        })
    }

    /// Whether a value is a buffer.
    #[inline(never)]
    pub(super) fn is_arraybuffer(&self, value: HandleId) -> Reply
        ensures { AnswersInTime self.now (call_of.IsArraybuffer value) result self.now }
    {
        match self.scopes.look(value) {
            Some(value) => {
                invariant(&self.store);
                let is_buffer = self.registry.buffer_length(value).is_some();
                Reply::plain(Status::Ok, Out::Flag(is_buffer))
            }
            None => refused(Status::InvalidArg),
        }
    }

    /// Whether a value is a buffer that is detached.
    #[inline(never)]
    pub(super) fn is_detached_arraybuffer(&self, value: HandleId) -> Reply
        ensures { AnswersInTime self.now (call_of.IsDetachedArraybuffer value) result self.now }
    {
        match self.scopes.look(value) {
            Some(value) => {
                invariant(&self.store);
                let is_detached = self.registry.is_detached_buffer(value);
                Reply::plain(Status::Ok, Out::Flag(is_detached))
            }
            None => refused(Status::InvalidArg),
        }
    }

    /// How many bytes a buffer has, 0 once it is detached. It is refused where the value is no buffer.
    #[inline(never)]
    pub(super) fn get_arraybuffer_info(&self, buffer: HandleId) -> Reply
        ensures { AnswersInTime self.now (call_of.GetArraybufferInfo buffer) result self.now }
    {
        let Some(value) = self.scopes.look(buffer) else {
            return refused(Status::InvalidArg);
        };
        invariant(&self.store);
        match self.registry.buffer_length(value) {
            Some(length) => Reply::plain(Status::Ok, Out::Unsigned(u64::from(length))),
            None => refused(Status::ArraybufferExpected),
        }
    }

    /// Detaches a buffer: its bytes are gone. It is refused where the value is no object, no buffer, or one that is detached already.
    #[inline(never)]
    pub(super) fn detach_arraybuffer(&mut self, buffer: HandleId) -> Reply
        ensures { AnswersInTime self.old (call_of.DetachArraybuffer buffer) result self.new }
    {
        let value = match target(&self.store, &self.scopes, buffer, Attachable::Objects) {
            Ok(value) => value,
            Err(status) => return refused(status),
        };
        if self.registry.buffer_length(value).is_none() {
            return refused(Status::ArraybufferExpected);
        }
        if self.registry.is_detached_buffer(value) {
            return refused(Status::DetachableArraybufferExpected);
        }
        self.registry.detach_buffer(value);
        Reply::plain(Status::Ok, Out::Nothing)
    }

    /// A new view of a buffer, and its handle: of this type, from this byte on, and of so many elements. It is refused where the value is
    /// no buffer, the type is another one, the view would not begin at a multiple of its elements' size, or would end past the buffer's
    /// end.
    #[inline(never)]
    pub(super) fn create_typedarray(
        &mut self,
        kind: u64,
        buffer: HandleId,
        offset: u64,
        length: u64,
    ) -> Result<Reply, NoMemory>
        requires standing { self.old.frames ≢ [] }
        requires values { self.old.heap.made + most_names + 8 < 2 ^ 48 }
        requires handles { self.old.heap.handles < 2 ^ 62 }
        ensures ok { IfOk result (λ reply. AnswersInTime self.old (call_of.CreateTypedarray kind buffer offset length) reply self.new) }
        ensures err { OnErr result (self.new ≡ self.old) }
        ensures unrefused { OnErr result (refusal_by_state self.old (call_of.CreateTypedarray kind buffer offset length) ≡ None) }
    {
        let Some(value) = self.scopes.look(buffer) else {
            return Ok(refused(Status::InvalidArg));
        };
        invariant(&self.store);
        self.registry.invariant();
        if self.registry.buffer_length(value).is_none() {
            return Ok(refused(Status::ArraybufferExpected));
        }
        let Some(about) = view_asked(&self.registry, kind, value, offset, length) else {
            return Ok(refused(Status::InvalidArg));
        };
        self.registry.reserve_view()?;
        let (view, handle) = make_linked(&mut self.store, &mut self.scopes, VIEW_TAG, Some(value))?;
        invariant(&self.store);
        self.registry.make_view(view, about);
        Ok(Reply::plain(Status::Ok, Out::Handle(handle)))
    }

    /// The element of a view at an index. It is refused where the value is no view, the index is not below the view's length, or its
    /// buffer is detached.
    #[inline(never)]
    pub(super) fn get_view(&self, view: HandleId, index: u64) -> Reply
        ensures { AnswersInTime self.now (call_of.GetView view index) result self.now }
    {
        let Some(value) = self.scopes.look(view) else {
            return refused(Status::InvalidArg);
        };
        invariant(&self.store);
        match self.registry.element(value, index) {
            Some(number) => Reply::plain(Status::Ok, Out::Unsigned(number)),
            None => refused(Status::InvalidArg),
        }
    }

    /// Writes the element of a view at an index. It is refused where [`State::get_view`] is.
    #[inline(never)]
    pub(super) fn set_view(&mut self, view: HandleId, index: u64, number: u64) -> Reply
        ensures { AnswersInTime self.old (call_of.SetView view index number) result self.new }
    {
        let Some(value) = self.scopes.look(view) else {
            return refused(Status::InvalidArg);
        };
        invariant(&self.store);
        self.registry.invariant();
        if self.registry.set_element(value, index, number) {
            return Reply::plain(Status::Ok, Out::Nothing);
        }
        refused(Status::InvalidArg)
    }
}
