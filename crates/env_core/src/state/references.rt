//! Calls on references.
ghost use Rattle.std.specs.Prelude.{◌≡◌, ◌≢◌, ◌+◌, ◌||◌, ◌<◌, ◌^◌, [], length, None, IfOk, IfErr, OnErr};
ghost use Rattle.napi_types.specs.declared.call.Call.TheVariants as call_of;
ghost use Rattle.napi_types.specs.plain.CallFacts.{group_of};
ghost use Rattle.napi_types.specs.plain.Lists.{unless};
ghost use Rattle.napi_types.specs.plain.Numbers.{is_ten_or_later};
ghost use Rattle.napi_types.specs.plain.Replies.{plain};
ghost use Rattle.napi_types.specs.parts.Bodies.{is_referable as is_referable_body};
ghost use Rattle.napi_types.specs.parts.Heap.{handle_body};
ghost use Rattle.napi_types.specs.environment.Refusals.{refusal_by_state};
ghost use Rattle.env_core.specs.State.{AnswersInTime, FindsNoMemory, HasNumbersFor};

use super::State;
use crate::handles::{body_of, value_of};
use napi_types::{Body, Call, CallGroup, HandleId, NoMemory, Out, RefId, Reply, Status};

impl State {
    /// What a call on references answers.
    #[tactic(auto, using(crate::proofs::Unrefused::stopped))]
    pub(super) fn answer_on_references(&mut self, call: &Call) -> Result<Reply, NoMemory>
        requires standing { self.old.frames ≢ [] }
        requires group { group_of call.now ≡ CallGroup.OnReferences }
        requires numbers { HasNumbersFor self.old }
        ensures ok { IfOk result (λ reply. AnswersInTime self.old call.now reply self.new) }
        ensures stopped { OnErr result (FindsNoMemory self.old call.now (refusal_by_state self.old call.now) self.new) }
    {
        match call {
            Call::CreateReference(handle, count) => self.create_reference(*handle, *count),
            Call::DeleteReference(reference) => Ok(self.delete_reference(*reference)),
            Call::ReferenceRef(reference) => Ok(self.reference_ref(*reference)),
            Call::ReferenceUnref(reference) => Ok(self.reference_unref(*reference)),
            Call::GetReferenceValue(reference) => self.get_reference_value(*reference),
            _ => unreachable!(),
        }
    }

    /// A new reference to the value of a handle.
    #[inline(never)]
    pub(super) fn create_reference(
        &mut self,
        handle: HandleId,
        count: u32,
    ) -> Result<Reply, NoMemory>
        requires references { length self.old.references.issued + 2 < 2 ^ 48 }
        ensures ok { IfOk result (λ reply. AnswersInTime self.old (call_of.CreateReference handle count) reply self.new) }
        ensures err { OnErr result (self.new ≡ self.old) }
        ensures unrefused { OnErr result (refusal_by_state self.old (call_of.CreateReference handle count) ≡ None) }
    {
        if !self.may_refer_to(handle, count) {
            return Ok(Reply::plain(Status::InvalidArg, Out::Nothing));
        }
        let value = value_of(&self.store, &self.scopes, handle);
        let reference = self.references.make(value, count)?;
        Ok(Reply::plain(Status::Ok, Out::Ref(reference)))
    }

    /// Whether a reference may be made to the value of a handle: an open scope holds it, and the value is of a kind for that.
    fn may_refer_to(&self, handle: HandleId, count: u32) -> bool
        ensures { unless result Status.InvalidArg ≡ refusal_by_state self.now (call_of.CreateReference handle count) }
    {
        self.holds(handle) && self.is_referable(handle)
    }

    /// Whether the value of a handle is of a kind to which references are made: from version 10 on every kind is.
    fn is_referable(&self, handle: HandleId) -> bool
        ensures { result ≡ (is_ten_or_later self.now.version || is_referable_body (handle_body self.now.heap handle.0)) }
    {
        self.is_ten_or_later()
            || matches!(
                body_of(&self.store, &self.scopes, handle),
                Body::Object { .. }
                    | Body::Linked { .. }
                    | Body::Function { .. }
                    | Body::External(_)
                    | Body::Symbol(_)
            )
    }

    /// A reference ends.
    #[inline(never)]
    pub(super) fn delete_reference(&mut self, reference: RefId) -> Reply
        ensures { AnswersInTime self.old (call_of.DeleteReference reference) result self.new }
    {
        match self.references.delete(reference) {
            Ok(()) => Reply::plain(Status::Ok, Out::Nothing),
            Err(status) => Reply::plain(status, Out::Nothing),
        }
    }

    /// A reference is counted up.
    #[inline(never)]
    pub(super) fn reference_ref(&mut self, reference: RefId) -> Reply
        ensures { AnswersInTime self.old (call_of.ReferenceRef reference) result self.new }
    {
        counted(self.references.add(reference))
    }

    /// A reference is counted down.
    #[inline(never)]
    pub(super) fn reference_unref(&mut self, reference: RefId) -> Reply
        ensures { AnswersInTime self.old (call_of.ReferenceUnref reference) result self.new }
    {
        counted(self.references.take(reference))
    }

    /// A new handle of the value of a reference, none where it was collected.
    #[inline(never)]
    pub(super) fn get_reference_value(&mut self, reference: RefId) -> Result<Reply, NoMemory>
        requires standing { self.old.frames ≢ [] }
        requires handles { self.old.heap.handles < 2 ^ 62 }
        ensures ok { IfOk result (λ reply. AnswersInTime self.old (call_of.GetReferenceValue reference) reply self.new) }
        ensures err { OnErr result (self.new ≡ self.old) }
        ensures unrefused { OnErr result (refusal_by_state self.old (call_of.GetReferenceValue reference) ≡ None) }
    {
        match self.references.value(reference) {
            Ok(Some(value)) => {
                let handle = self.scopes.issue(value)?;
                Ok(Reply::plain(Status::Ok, Out::Handle(handle)))
            }
            Ok(None) => Ok(Reply::plain(Status::Ok, Out::NoHandle)),
            Err(status) => Ok(Reply::plain(status, Out::Nothing)),
        }
    }
}

/// The reply that tells a count, or why there is none.
fn counted(count: Result<u32, Status>) -> Reply
    ensures ok { IfOk count (λ n. result ≡ plain Status.Ok (Out.Unsigned n)) }
    ensures err { IfErr count (λ s. result ≡ plain s Out.Nothing) }
{
    match count {
        Ok(count) => Reply::plain(Status::Ok, Out::Unsigned(u64::from(count))),
        Err(status) => Reply::plain(status, Out::Nothing),
    }
}
