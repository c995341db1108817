//! The calls on promises and deferreds.
ghost use Rattle.std.specs.Prelude.{◌≡◌, ◌≢◌, ◌+◌, ◌<◌, ◌≤◌, ◌^◌, ◌↔◌, ℕ, [], length, option_map, IfOk, IfSome, OnErr, None, Some};
ghost use Rattle.napi_types.specs.declared.call.Call.TheVariants as call_of;
ghost use Rattle.napi_types.specs.plain.CallFacts.{group_of};
ghost use Rattle.napi_types.specs.parts.Graph.{IsLive, number_in};
ghost use Rattle.napi_types.specs.parts.Properties.{most_names};
ghost use Rattle.napi_types.specs.environment.Hooked.{IsHooked};
ghost use Rattle.napi_types.specs.environment.Promised.{IsPromised};
ghost use Rattle.napi_types.specs.environment.Refusals.{refusal_by_state};
ghost use Rattle.env_core.specs.Promising.{promises_seen, PromisesAreLive, settling_call, settler_seen, IsReactedTo};
ghost use Rattle.env_core.specs.State.{AnswersInTime, FindsNoMemory, HasNumbersFor};

use super::State;
use crate::frames::Frames;
use env_registry::Registry;
use env_values::{PROMISE_TAG, invariant, make_linked, settle_with};
use napi_types::{
    Call, CallGroup, DeferredId, Duty, HandleId, NoMemory, Out, Reply, Status, ValueId,
};
use value_store::Store;

/// The state of a promise that is resolved.
const RESOLVED: u8 = 1;

/// The state of a promise that is rejected.
const REJECTED: u8 = 2;

impl State {
    /// What a call on promises and deferreds answers.
    #[tactic(auto, using(crate::proofs::Unrefused::stopped))]
    pub(super) fn answer_on_promises(&mut self, call: &Call) -> Result<Reply, NoMemory>
        requires standing { self.old.frames ≢ [] }
        requires group { group_of call.now ≡ CallGroup.OnPromises }
        requires numbers { HasNumbersFor self.old }
        requires hooked { IsHooked self.old }
        requires promised { IsPromised self.old }
        ensures ok { IfOk result (λ reply. AnswersInTime self.old call.now reply self.new) }
        ensures stopped { OnErr result (FindsNoMemory self.old call.now (refusal_by_state self.old call.now) self.new) }
    {
        match call {
            Call::CreatePromise => self.create_promise(),
            Call::ResolveDeferred(deferred, value) => {
                Ok(self.settle(*deferred, *value, RESOLVED))
            }
            Call::RejectDeferred(deferred, value) => {
                Ok(self.settle(*deferred, *value, REJECTED))
            }
            Call::AddReaction(promise, entry, payload) => {
                self.add_reaction(*promise, *entry, *payload)
            }
            Call::GetReactionValue => self.get_reaction_value(),
            _ => unreachable!(),
        }
    }

    /// A new promise, which is pending, with its deferred and a handle.
    #[inline(never)]
    pub(super) fn create_promise(&mut self) -> Result<Reply, NoMemory>
        requires standing { self.old.frames ≢ [] }
        requires values { self.old.heap.made + most_names + 8 < 2 ^ 48 }
        requires handles { self.old.heap.handles < 2 ^ 62 }
        requires deferreds { length self.old.promises.issued < 2 ^ 62 }
        ensures ok { IfOk result (λ reply. AnswersInTime self.old call_of.CreatePromise reply self.new) }
        ensures err { OnErr result (self.new ≡ self.old) }
        ensures unrefused { OnErr result (refusal_by_state self.old call_of.CreatePromise ≡ None) }
    {
        self.registry.reserve_promise()?;
        // A promise is of a value that was there before, so the new one is none yet.
        invariant(&self.store);
        let (promise, handle) = make_linked(&mut self.store, &mut self.scopes, PROMISE_TAG, None)?;
        invariant(&self.store);
        self.registry.invariant();
        let deferred = self.registry.make_promise(promise);
        Ok(Reply::plain(Status::Ok, Out::Promise(deferred, handle)))
    }

    /// A deferred is settled with the value of a handle: its promise has that for its hidden child, and the new state, and those of its
    /// reactions that are registered fall due.
    #[inline(never)]
    pub(super) fn settle(&mut self, deferred: DeferredId, value: HandleId, state: u8) -> Reply
        requires promised { IsPromised self.old }
        requires state { (1 ≤ state) × (state ≤ 2) }
        ensures { AnswersInTime self.old (settling_call state deferred value) result self.new }
    {
        let Some(value) = self.scopes.look(value) else {
            return Reply::plain(Status::InvalidArg, Out::Nothing);
        };
        invariant(&self.store);
        match self.registry.settle(deferred, state) {
            Ok(promise) => {
                settle_with(&mut self.store, &self.scopes, promise, value);
                Reply::plain(Status::Ok, Out::Nothing)
            }
            Err(status) => Reply::plain(status, Out::Nothing),
        }
    }

    /// Adds a reaction to the promise that is the value of a handle, and registers it. It is refused where the value is no promise.
    #[inline(never)]
    pub(super) fn add_reaction(
        &mut self,
        promise: HandleId,
        entry: u32,
        payload: u64,
    ) -> Result<Reply, NoMemory>
        requires hooked { IsHooked self.old }
        requires tickets { length self.old.book < 2 ^ 62 }
        ensures ok { IfOk result (λ reply. AnswersInTime self.old (call_of.AddReaction promise entry payload) reply self.new) }
        ensures err { OnErr result (self.new ≡ self.old) }
        ensures unrefused { OnErr result (refusal_by_state self.old (call_of.AddReaction promise entry payload) ≡ None) }
    {
        let Some(value) = self.scopes.look(promise) else {
            return Ok(Reply::plain(Status::InvalidArg, Out::Nothing));
        };
        invariant(&self.store);
        if self.registry.promise_state(value).is_none() {
            return Ok(Reply::plain(Status::InvalidArg, Out::Nothing));
        }
        let addon = self.caller();
        let duty = self.registry.react(value, addon, entry, payload)?;
        Ok(Reply {
            status: Status::Ok,
            out: Out::Nothing,
            dropped: None,
            made: Some(duty),
        })
    }

    /// Gives the value that settled the promise of which the innermost frame is a reaction. It is refused in every other frame, and
    /// where the promise is not settled.
    #[inline(never)]
    pub(super) fn get_reaction_value(&mut self) -> Result<Reply, NoMemory>
        requires standing { self.old.frames ≢ [] }
        requires handles { self.old.heap.handles < 2 ^ 62 }
        ensures ok { IfOk result (λ reply. AnswersInTime self.old call_of.GetReactionValue reply self.new) }
        ensures err { OnErr result (self.new ≡ self.old) }
        ensures unrefused { OnErr result (refusal_by_state self.old call_of.GetReactionValue ≡ None) }
    {
        match reaction_value(&self.store, &self.frames, &self.registry) {
            Some(value) => {
                let handle = self.scopes.issue(value)?;
                Ok(Reply::plain(Status::Ok, Out::Handle(handle)))
            }
            None => Ok(Reply::plain(Status::InvalidArg, Out::Nothing)),
        }
    }
}

/// The value that settled the promise of which the innermost frame is a reaction, where there is one.
fn reaction_value(store: &Store, frames: &Frames, registry: &Registry) -> Option<ValueId>
    requires { PromisesAreLive store.now registry.now.parts.promises }
    ensures value { option_map (λ v. number_in store.now v.0) result
        ≡ settler_seen store.now (promises_seen store.now registry.now.parts.promises) frames.now }
    ensures live { IfSome result (λ v. IsLive store.now v.0) }
{
    invariant(store);
    let promise = reacted_promise(frames, registry)?;
    store.get(promise)?.link()
}

/// The promise of which the innermost frame is a reaction, where it is the frame of one.
fn reacted_promise(frames: &Frames, registry: &Registry) -> Option<ValueId>
    ensures { (v : ℕ) → (option_map (λ w. w.0) result ≡ Some v) ↔ IsReactedTo frames.now registry.now.parts.promises v }
{
    let Some(Duty::Ticket(ticket)) = frames.innermost()?.duty else {
        return None;
    };
    registry.reaction_promise(ticket)
}
