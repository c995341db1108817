//! What the hub answers to the calls on thread-safe functions.
ghost use Rattle.std.specs.Prelude.{◌≡◌, ◌+◌, ◌<◌, ℕ, length, true, Option, Some, IfOk, OnErr};
ghost use Rattle.napi_types.specs.declared.call.Call.TheVariants as call_of;
ghost use Rattle.napi_types.specs.declared.entry.Actor.{Actor};
ghost use Rattle.napi_types.specs.declared.entry.Given.{Given};
ghost use Rattle.napi_types.specs.declared.ids.HandleId.{HandleId};
ghost use Rattle.napi_types.specs.hub.Hub.{Hub};
ghost use Rattle.napi_types.specs.plain.CallFacts.{group_of};
ghost use Rattle.napi_types.specs.plain.Guards.{is_growing};
ghost use Rattle.napi_types.specs.plain.Replies.{plain};
ghost use Rattle.shared_hub.specs.FunctionReplies.{creation_told, call_told, item_told};
ghost use Rattle.shared_hub.specs.HubParts.{hub_with, ArePartsWithin, IsMakeable, IsOnFunctionThere, AnswersWith, AnswersOrWaits, WouldAccept};

use super::SharedParts;
use async_work::Job;
use napi_types::{
    Actor, Call, CallGroup, Duty, Given, Mode, NoMemory, Out, Release, Reply, Status, TsfnId,
};
use tsfn::{Tried, TsfnNew};

impl<J: Job> SharedParts<J> {
    /// The hub's answer to a call on a function, `None` where it waits.
    pub(super) fn answer_on_functions(
        &mut self,
        who: Actor,
        given: &Given,
        call: &Call,
    ) -> Result<Option<Reply>, NoMemory>
        requires on_functions { group_of call.now ≡ CallGroup.OnTsfns }
        requires within { ArePartsWithin self.old }
        requires makeable { IsMakeable given.now call.now }
        ensures ok { IfOk result (λ reply. AnswersOrWaits self.old who given.now call.now reply self.new) }
        ensures grows { OnErr result (is_growing call.now ≡ true) }
        ensures accepted { OnErr result ((h : Hub) → WouldAccept (hub_with self.old h) who given.now call.now) }
        ensures err { OnErr result (self.new ≡ self.old) }
    {
        match call {
            Call::CreateThreadsafeFunction(_, _, max, initial, finalize, context) => {
                let Some(target) = given.target else {
                    unreachable!()
                };
                let about = TsfnNew {
                    addon: given.addon,
                    target,
                    max: *max,
                    initial: *initial,
                    finalize: *finalize,
                    context: *context,
                };
                Ok(Some(self.create_function(about)?))
            }
            Call::CallThreadsafeFunction(id, payload, mode) => {
                self.call_function(*id, *payload, *mode, who)
            }
            _ => Ok(Some(self.answer_on_function(call))),
        }
    }

    /// The answer to a call on a function that is neither created nor called.
    fn answer_on_function(&mut self, call: &Call) -> Reply
        requires { IsOnFunctionThere call.now }
        ensures { (who : Actor) → (g : Given) → AnswersWith self.old who g call.now result self.new }
    {
        match call {
            Call::AcquireThreadsafeFunction(id) => self.acquire_function(*id),
            Call::ReleaseThreadsafeFunction(id, mode) => self.release_function(*id, *mode),
            Call::RefThreadsafeFunction(id) => self.refer_function(*id),
            Call::UnrefThreadsafeFunction(id) => self.unrefer_function(*id),
            Call::GetThreadsafeFunctionContext(id) => self.function_context(*id),
            _ => unreachable!(),
        }
    }

    /// The answer to `create_threadsafe_function`, by the addon and for the target that the environment handed over.
    fn create_function(&mut self, about: TsfnNew) -> Result<Reply, NoMemory>
        requires held { 0 < about.initial }
        requires within { ArePartsWithin self.old }
        ensures ok { (who : Actor) → (g : Given) → (f : Option HandleId) → (entry : Option ℕ) → g.addon ≡ about.addon → g.target ≡ Some about.target
            → IfOk result (λ reply. AnswersWith self.old who g
            (call_of.CreateThreadsafeFunction f entry about.max about.initial about.finalize about.context) reply self.new) }
        ensures err { OnErr result (self.new ≡ self.old) }
    {
        let id = self.functions.create(about)?;
        Ok(creation_reply(id, about.finalize))
    }

    /// The answer to `call_threadsafe_function`, `None` where it waits.
    fn call_function(
        &mut self,
        id: TsfnId,
        payload: u64,
        mode: Mode,
        who: Actor,
    ) -> Result<Option<Reply>, NoMemory>
        requires within { ArePartsWithin self.old }
        ensures ok { (g : Given) → IfOk result (λ reply. AnswersOrWaits self.old who g (call_of.CallThreadsafeFunction id payload mode) reply self.new) }
        ensures accepted { (g : Given) → OnErr result ((h : Hub) → WouldAccept (hub_with self.old h) who g (call_of.CallThreadsafeFunction id payload mode)) }
        ensures err { OnErr result (self.new ≡ self.old) }
    {
        let tried = self.functions.call(id, payload, mode, who)?;
        Ok(call_reply(id, tried))
    }

    /// The answer to `acquire_threadsafe_function`.
    fn acquire_function(&mut self, id: TsfnId) -> Reply
        ensures { (who : Actor) → (g : Given) → AnswersWith self.old who g (call_of.AcquireThreadsafeFunction id) result self.new }
    {
        Reply::plain(self.functions.acquire(id), Out::Nothing)
    }

    /// The answer to `release_threadsafe_function`.
    fn release_function(&mut self, id: TsfnId, mode: Release) -> Reply
        ensures { (who : Actor) → (g : Given) → AnswersWith self.old who g (call_of.ReleaseThreadsafeFunction id mode) result self.new }
    {
        Reply::plain(self.functions.release(id, mode), Out::Nothing)
    }

    /// The answer to `ref_threadsafe_function`.
    fn refer_function(&mut self, id: TsfnId) -> Reply
        ensures { (who : Actor) → (g : Given) → AnswersWith self.old who g (call_of.RefThreadsafeFunction id) result self.new }
    {
        Reply::plain(self.functions.refer(id), Out::Nothing)
    }

    /// The answer to `unref_threadsafe_function`.
    fn unrefer_function(&mut self, id: TsfnId) -> Reply
        ensures { (who : Actor) → (g : Given) → AnswersWith self.old who g (call_of.UnrefThreadsafeFunction id) result self.new }
    {
        Reply::plain(self.functions.unrefer(id), Out::Nothing)
    }

    /// The answer to `get_threadsafe_function_context`.
    fn function_context(&self, id: TsfnId) -> Reply
        ensures { (who : Actor) → (g : Given) → AnswersWith self.now who g (call_of.GetThreadsafeFunctionContext id) result self.now }
    {
        match self.functions.context(id) {
            Ok(context) => Reply::plain(Status::Ok, Out::Unsigned(context)),
            Err(status) => Reply::plain(status, Out::Nothing),
        }
    }
}

/// The reply of a creation, which makes the duty of the function's finalizer where it has one.
fn creation_reply(id: TsfnId, finalize: Option<u32>) -> Reply
    ensures { result ≡ creation_told id finalize }
{
    let made = match finalize {
        Some(_) => Some(Duty::Function(id)),
        None => None,
    };
    Reply {
        status: Status::Ok,
        out: Out::Function(id),
        dropped: None,
        made,
    }
}

/// The reply of a call that queues an item, which makes the item's duty where it was accepted. `None` where it waits.
fn call_reply(id: TsfnId, tried: Tried) -> Option<Reply>
    ensures { result ≡ call_told id tried }
{
    match tried {
        Tried::Answer(status, item) => Some(Reply {
            status,
            out: Out::Nothing,
            dropped: None,
            made: item_duty(id, item),
        }),
        Tried::Wait => None,
    }
}

/// The duty of an item of a function, where there is one.
fn item_duty(id: TsfnId, item: Option<u64>) -> Option<Duty>
    ensures { result ≡ item_told id item }
{
    match item {
        Some(number) => Some(Duty::Item(id, number)),
        None => None,
    }
}
