//! Calls on wraps, type tags and finalizers.
ghost use Rattle.std.specs.Prelude.{◌≡◌, ◌+◌, ◌<◌, ◌^◌, length, None, IfOk, OnErr};
ghost use Rattle.napi_types.specs.declared.call.Call.TheVariants as call_of;
ghost use Rattle.napi_types.specs.plain.CallFacts.{group_of};
ghost use Rattle.napi_types.specs.environment.Refusals.{refusal_by_state};
ghost use Rattle.env_core.specs.State.{AnswersInTime, FindsNoMemory, HasNumbersFor};

use super::State;
use crate::handles::{Attachable, target};
use crate::weak_references::{refer_if, wants_alone};
use napi_types::{Call, CallGroup, HandleId, NoMemory, Out, Reply, Status};

impl State {
    /// What a call on wraps, type tags and finalizers answers.
    #[tactic(auto, using(crate::proofs::Unrefused::stopped))]
    pub(super) fn answer_on_wraps(&mut self, call: &Call) -> Result<Reply, NoMemory>
        requires group { group_of call.now ≡ CallGroup.OnWraps }
        requires numbers { HasNumbersFor self.old }
        ensures ok { IfOk result (λ reply. AnswersInTime self.old call.now reply self.new) }
        ensures stopped { OnErr result (FindsNoMemory self.old call.now (refusal_by_state self.old call.now) self.new) }
    {
        match call {
            Call::Wrap(object, payload, finalizer, hint, wanted) => {
                self.wrap(*object, *payload, *finalizer, *hint, *wanted)
            }
            Call::Unwrap(object) => Ok(self.unwrap(*object)),
            Call::RemoveWrap(object) => Ok(self.remove_wrap(*object)),
            Call::TypeTagObject(object, lower, upper) => {
                self.type_tag_object(*object, *lower, *upper)
            }
            Call::CheckObjectTypeTag(object, lower, upper) => {
                Ok(self.check_object_type_tag(*object, *lower, *upper))
            }
            Call::AddFinalizer(object, payload, entry, hint, wanted) => {
                self.add_finalizer(*object, *payload, *entry, *hint, *wanted)
            }
            _ => unreachable!(),
        }
    }

    /// Ties a payload to an object, where none is tied, and registers a finalizer where the call names an entry. Only then a weak
    /// reference may be wanted: else it is refused, and the hint is kept for nobody.
    #[inline(never)]
    pub(super) fn wrap(
        &mut self,
        object: HandleId,
        payload: u64,
        finalizer: Option<u32>,
        hint: u64,
        wanted: bool,
    ) -> Result<Reply, NoMemory>
        requires references { length self.old.references.issued + 2 < 2 ^ 48 }
        requires tickets { length self.old.book < 2 ^ 62 }
        ensures ok { IfOk result (λ reply. AnswersInTime self.old (call_of.Wrap object payload finalizer hint wanted) reply self.new) }
        ensures err { OnErr result (self.new ≡ self.old) }
        ensures unrefused { OnErr result (refusal_by_state self.old (call_of.Wrap object payload finalizer hint wanted) ≡ None) }
    {
        let value = match target(&self.store, &self.scopes, object, Attachable::Objects) {
            Ok(value) => value,
            Err(status) => return Ok(Reply::plain(status, Out::Nothing)),
        };
        if wants_alone(finalizer, wanted) {
            return Ok(Reply::plain(Status::InvalidArg, Out::Nothing));
        }
        if self.registry.wrapped(value).is_some() {
            return Ok(Reply::plain(Status::InvalidArg, Out::Nothing));
        }
        // The value has one wrap at most.
        self.registry.invariant();
        let asked = self.finalizer_if(payload, finalizer, hint);
        self.registry.reserve_wrap(asked)?;
        let out = refer_if(&mut self.references, value, wanted)?;
        let made = self.registry.wrap(value, payload, asked);
        Ok(Reply {
            status: Status::Ok,
            out,
            dropped: None,
            made,
        })
    }

    /// Registers a finalizer of an object, beside that of its wrap and any that were added before. Where a weak reference is
    /// wanted it gives one.
    #[inline(never)]
    pub(super) fn add_finalizer(
        &mut self,
        object: HandleId,
        payload: u64,
        entry: u32,
        hint: u64,
        wanted: bool,
    ) -> Result<Reply, NoMemory>
        requires references { length self.old.references.issued + 2 < 2 ^ 48 }
        requires tickets { length self.old.book < 2 ^ 62 }
        ensures ok { IfOk result (λ reply. AnswersInTime self.old (call_of.AddFinalizer object payload entry hint wanted) reply self.new) }
        ensures err { OnErr result (self.new ≡ self.old) }
        ensures unrefused { OnErr result (refusal_by_state self.old (call_of.AddFinalizer object payload entry hint wanted) ≡ None) }
    {
        let value = match target(&self.store, &self.scopes, object, Attachable::Objects) {
            Ok(value) => value,
            Err(status) => return Ok(Reply::plain(status, Out::Nothing)),
        };
        let asked = self.finalizer_if(payload, Some(entry), hint);
        self.registry.reserve_finalizer(asked)?;
        let out = refer_if(&mut self.references, value, wanted)?;
        let made = self.registry.attach(value, asked);
        Ok(Reply {
            status: Status::Ok,
            out,
            dropped: None,
            made,
        })
    }

    /// The payload that is tied to an object.
    #[inline(never)]
    pub(super) fn unwrap(&self, object: HandleId) -> Reply
        ensures { AnswersInTime self.now (call_of.Unwrap object) result self.now }
    {
        let value = match target(&self.store, &self.scopes, object, Attachable::Objects) {
            Ok(value) => value,
            Err(status) => return Reply::plain(status, Out::Nothing),
        };
        match self.registry.wrapped(value) {
            Some(payload) => Reply::plain(Status::Ok, Out::Unsigned(payload)),
            None => Reply::plain(Status::InvalidArg, Out::Nothing),
        }
    }

    /// Takes the wrap off an object, and tells its payload. Its finalizer is withdrawn where it is still registered: one that is
    /// due begins.
    #[inline(never)]
    pub(super) fn remove_wrap(&mut self, object: HandleId) -> Reply
        ensures { AnswersInTime self.old (call_of.RemoveWrap object) result self.new }
    {
        let value = match target(&self.store, &self.scopes, object, Attachable::Objects) {
            Ok(value) => value,
            Err(status) => return Reply::plain(status, Out::Nothing),
        };
        let Some((payload, dropped)) = self.registry.unwrap_out(value) else {
            return Reply::plain(Status::InvalidArg, Out::Nothing);
        };
        Reply {
            status: Status::Ok,
            out: Out::Unsigned(payload),
            dropped,
            made: None,
        }
    }

    /// Tags an object or an external that has no tag.
    #[inline(never)]
    pub(super) fn type_tag_object(
        &mut self,
        object: HandleId,
        lower: u64,
        upper: u64,
    ) -> Result<Reply, NoMemory>
        ensures ok { IfOk result (λ reply. AnswersInTime self.old (call_of.TypeTagObject object lower upper) reply self.new) }
        ensures err { OnErr result (self.new ≡ self.old) }
        ensures unrefused { OnErr result (refusal_by_state self.old (call_of.TypeTagObject object lower upper) ≡ None) }
    {
        let value = match target(
            &self.store,
            &self.scopes,
            object,
            Attachable::ObjectsAndExternals,
        ) {
            Ok(value) => value,
            Err(status) => return Ok(Reply::plain(status, Out::Nothing)),
        };
        if self.registry.tag_of(value).is_some() {
            return Ok(Reply::plain(Status::InvalidArg, Out::Nothing));
        }
        // The value has one tag at most.
        self.registry.invariant();
        self.registry.tag(value, lower, upper)?;
        Ok(Reply::plain(Status::Ok, Out::Nothing))
    }

    /// Whether an object or an external has this tag.
    #[inline(never)]
    pub(super) fn check_object_type_tag(&self, object: HandleId, lower: u64, upper: u64) -> Reply
        ensures { AnswersInTime self.now (call_of.CheckObjectTypeTag object lower upper) result self.now }
    {
        let value = match target(
            &self.store,
            &self.scopes,
            object,
            Attachable::ObjectsAndExternals,
        ) {
            Ok(value) => value,
            Err(status) => return Reply::plain(status, Out::Nothing),
        };
        let tagged = match self.registry.tag_of(value) {
            Some((low, high)) => low == lower && high == upper,
            None => false,
        };
        Reply::plain(Status::Ok, Out::Flag(tagged))
    }
}
