//! Calls on exceptions and on the last status.
ghost use Rattle.std.specs.Prelude.{◌≡◌, ◌≢◌, ◌+◌, ◌<◌, ◌^◌, [], None, IfOk, OnErr};
ghost use Rattle.napi_types.specs.declared.call.Call.TheVariants as call_of;
ghost use Rattle.napi_types.specs.plain.CallFacts.{group_of};
ghost use Rattle.napi_types.specs.parts.NamedNumbers.{is_known};
ghost use Rattle.napi_types.specs.parts.Properties.{most_names};
ghost use Rattle.napi_types.specs.environment.Refusals.{refusal_by_state};
ghost use Rattle.env_core.specs.State.{AnswersInTime, FindsNoMemory, HasNumbersFor};

use super::State;
use env_values::{invariant, or_undefined, thrown_value};
use napi_types::{Call, CallGroup, HandleId, NoMemory, Out, Reply, Status, TextNo};

impl State {
    /// What a call on exceptions and on the last status answers.
    #[tactic(auto, using(crate::proofs::Unrefused::stopped))]
    pub(super) fn answer_on_exceptions(&mut self, call: &Call) -> Result<Reply, NoMemory>
        requires standing { self.old.frames ≢ [] }
        requires group { group_of call.now ≡ CallGroup.OnExceptions }
        requires numbers { HasNumbersFor self.old }
        ensures ok { IfOk result (λ reply. AnswersInTime self.old call.now reply self.new) }
        ensures stopped { OnErr result (FindsNoMemory self.old call.now (refusal_by_state self.old call.now) self.new) }
    {
        match call {
            Call::Throw(handle) => Ok(self.throw(*handle)),
            Call::ThrowError(code, message) => self.throw_error(*code, *message),
            Call::IsExceptionPending => Ok(self.is_pending()),
            Call::GetAndClearLastException => self.take_pending(),
            Call::GetLastErrorInfo => Ok(self.last()),
            _ => unreachable!(),
        }
    }

    /// The value of a handle is the pending exception from now on.
    #[inline(never)]
    pub(super) fn throw(&mut self, handle: HandleId) -> Reply
        ensures { AnswersInTime self.old (call_of.Throw handle) result self.new }
    {
        let Some(value) = self.scopes.look(handle) else {
            return Reply::plain(Status::InvalidArg, Out::Nothing);
        };
        self.exceptions.set(value);
        Reply::plain(Status::Ok, Out::Nothing)
    }

    /// A new error of new strings of these texts is the pending exception from now on.
    #[inline(never)]
    pub(super) fn throw_error(
        &mut self,
        code: Option<TextNo>,
        message: TextNo,
    ) -> Result<Reply, NoMemory>
        requires { self.old.heap.made + most_names + 8 < 2 ^ 48 }
        ensures ok { IfOk result (λ reply. AnswersInTime self.old (call_of.ThrowError code message) reply self.new) }
        ensures err { OnErr result (self.new ≡ self.old) }
        ensures unrefused { OnErr result (refusal_by_state self.old (call_of.ThrowError code message) ≡ None) }
    {
        if !self.knows(code, message) {
            return Ok(Reply::plain(Status::InvalidArg, Out::Nothing));
        }
        // What a view names is live, so it is seen as it was.
        invariant(&self.store);
        let error = thrown_value(&mut self.store, code, message)?;
        self.exceptions.set(error);
        Ok(Reply::plain(Status::Ok, Out::Nothing))
    }

    /// Whether the texts of an error stand in the table.
    fn knows(&self, code: Option<TextNo>, message: TextNo) -> bool
        ensures { result ≡ is_known self.now.texts self.now.heap (call_of.ThrowError code message) }
    {
        match code {
            Some(code) => self.texts > code.0 && self.texts > message.0,
            None => self.texts > message.0,
        }
    }

    /// Whether an exception is pending.
    #[inline(never)]
    pub(super) fn is_pending(&self) -> Reply
        ensures { AnswersInTime self.now call_of.IsExceptionPending result self.now }
    {
        let pending = self.exceptions.pending().is_some();
        Reply::plain(Status::Ok, Out::Flag(pending))
    }

    /// A new handle of the pending exception, or of undefined where none is pending; none is pending from now on.
    #[inline(never)]
    pub(super) fn take_pending(&mut self) -> Result<Reply, NoMemory>
        requires standing { self.old.frames ≢ [] }
        requires handles { self.old.heap.handles < 2 ^ 62 }
        ensures ok { IfOk result (λ reply. AnswersInTime self.old call_of.GetAndClearLastException reply self.new) }
        ensures err { OnErr result (self.new ≡ self.old) }
        ensures unrefused { OnErr result (refusal_by_state self.old call_of.GetAndClearLastException ≡ None) }
    {
        let value = or_undefined(&self.store, self.exceptions.pending());
        let handle = self.scopes.issue(value)?;
        let _ = self.exceptions.clear();
        Ok(Reply::plain(Status::Ok, Out::Handle(handle)))
    }

    /// The number of the last status.
    #[inline(never)]
    pub(super) fn last(&self) -> Reply
        ensures { AnswersInTime self.now call_of.GetLastErrorInfo result self.now }
    {
        let last = self.exceptions.last().number();
        Reply::plain(Status::Ok, Out::Unsigned(u64::from(last)))
    }
}
