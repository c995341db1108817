//! Shared calls of the environment, and calls of threads.
ghost use Rattle.std.specs.Prelude.{◌≡◌, ◌⊎◌, ◌+◌, ◌≤◌, ◌↔◌, None, Some, true, IfOk, IfErr, OnErr, IsTrue};
ghost use Rattle.napi_types.specs.declared.entry.Actor.TheVariants as actor;
ghost use Rattle.napi_types.specs.environment.SharedCalls.{handed_entry as entry_handed};
ghost use Rattle.napi_types.specs.plain.CallFacts.{group_of};
ghost use Rattle.napi_types.specs.plain.Guards.{is_shared, is_growing};
ghost use Rattle.napi_types.specs.plain.Room.{is_full};
ghost use Rattle.napi_types.specs.hub.GivenSteps.{fits_stage};
ghost use Rattle.napi_types.specs.hub.HistoryLaws.{KeepsStanding};
ghost use Rattle.napi_types.specs.hub.Hub.{Hub};
ghost use Rattle.napi_types.specs.hub.HubCalls.{hub_answer, is_thread_call};
ghost use Rattle.napi_types.specs.hub.ThreadSteps.{is_thread_there, nothing_given};
ghost use Rattle.shared_hub.specs.HubParts.{hub_with, ArePartsWithin, MayQueue, IsMakeable, WouldAccept};
ghost use Rattle.shared_hub.specs.HubStates.{AddsEntry, hub_room};
ghost use Rattle.shared_hub.specs.HubTries.{IfAnswered, IfWaiting, IfStopped};
ghost use Rattle.shared_hub.specs.SharedTries.{given_by, IsOwnRefusal, NamesTarget, IsHeldAtFirst, RepliesTo, thread_entry as entry_of_thread, MayFindNoMemory};

use super::HubState;
use crate::naming::Naming;
use crate::parts::SharedParts;
use crate::room::make_room;
use crate::tries::ThreadTried;
use async_work::Job;
use napi_types::{
    Actor, Call, CallGroup, Entry, Given, NoMemory, Out, Reply, SharedCall, Status, What,
};

/// What a thread hands to the hub with its call.
const NOTHING_GIVEN: Given = Given {
    addon: 0,
    target: None,
    refused: None,
};

impl<J: Job, N: Naming> HubState<J, N> {
    /// Makes a shared call of the environment: the environment's own refusal, or else the hub's answer, is its reply.
    ///
    /// From `loop_end` on the environment refuses each call that registers with 9. A call that creates a function and is not refused,
    /// and no other, names a target, and its initial thread count is above 0.
    ///
    /// `TraceFull` exactly where the history has no room for the call. `NoMemory` only where it has room, and where the call grows and the
    /// hub would accept it or its places are behind the first. Neither changes anything.
    ///
    /// Near constant time: now and then the history or a list grows. An accepted call of a function takes logarithmic time.
    pub fn env_shared(&mut self, call: &SharedCall) -> Result<Reply, Status>
        requires shared { IsTrue (is_shared call.now.call) }
        requires refused { IsOwnRefusal call.now.refused }
        requires target { NamesTarget call.now }
        requires initial { call.now.refused ≡ None → IsHeldAtFirst call.now.call }
        requires timely { IsTrue (fits_stage self.old.hub.stage call.now.call call.now.refused) }
        ensures next { IfOk result (λ reply. AddsEntry self.old (entry_handed call.now reply) self.new) }
        ensures keeps { KeepsStanding self.old.hub self.new.hub }
        ensures stop { OnErr result (self.new ≡ self.old) }
        ensures full { (result ≡ Err Status.TraceFull) ↔ IsTrue (is_full (hub_room N.numbers self.old) call.now.call) }
        ensures memory { result ≡ Err Status.NoMemory
            → MayFindNoMemory (hub_room N.numbers self.old) self.old.hub actor.Env (given_by call.now) call.now.call }
        ensures cause { IfErr result (λ status. (status ≡ Status.TraceFull) ⊎ (status ≡ Status.NoMemory)) }
    {
        let facts = call.call.facts();
        let reserved = self.reserved();
        make_room(&mut self.entries, self.limit, reserved, facts.places)?;
        let reply = reply_to(&mut self.parts, call, facts.group)?;
        self.sleepers.after_call(&call.call, reply.status);
        self.entries.push_reserved(handed_entry(call, reply));
        Ok(reply)
    }

    /// Makes a call of a thread, one of the three that threads make. `step` is the number of the operation in the thread's script, from 0.
    ///
    /// It waits where the queue is full and the mode blocks. Room is looked for before it waits, so a call that waits has room. It stops as
    /// [`HubState::env_shared`] does. That it waits is noted: see [`HubState::take_wait`].
    ///
    /// Near constant time, as there.
    pub fn thread_call(&mut self, thread: u32, step: u32, call: &Call) -> ThreadTried
        requires threads { IsTrue (is_thread_call call.now) }
        requires there { IsTrue (is_thread_there self.old.hub thread) }
        ensures reply { IfAnswered result (λ reply. AddsEntry self.old (entry_of_thread thread step call.now reply) self.new) }
        ensures keeps { KeepsStanding self.old.hub self.new.hub }
        ensures waits { IfWaiting result (hub_answer self.old.hub (actor.Thread thread) nothing_given call.now 0 ≡ None) }
        ensures waiting { IfWaiting result (self.new ≡ self.old) }
        ensures stop { IfStopped result (λ status. self.new ≡ self.old) }
        ensures full { (result ≡ ThreadTried.Stop Status.TraceFull) ↔ IsTrue (is_full (hub_room N.numbers self.old) call.now) }
        ensures memory { result ≡ ThreadTried.Stop Status.NoMemory
            → MayFindNoMemory (hub_room N.numbers self.old) self.old.hub (actor.Thread thread) nothing_given call.now }
        ensures cause { IfStopped result (λ status. (status ≡ Status.TraceFull) ⊎ (status ≡ Status.NoMemory)) }
    {
        let facts = call.facts();
        let reserved = self.reserved();
        if let Err(status) = make_room(&mut self.entries, self.limit, reserved, facts.places) {
            self.sleepers.note_entry();
            return ThreadTried::Stop(status);
        }
        match self
            .parts
            .answer(Actor::Thread(thread), &NOTHING_GIVEN, call, facts.group)
        {
            Ok(Some(reply)) => {
                self.sleepers.note_entry();
                self.sleepers.after_call(call, reply.status);
                self.entries
                    .push_reserved(thread_entry(thread, step, call, reply));
                ThreadTried::Reply(reply)
            }
            Ok(None) => {
                self.sleepers.wait_for_call(call);
                ThreadTried::Wait
            }
            Err(NoMemory) => {
                self.sleepers.note_entry();
                ThreadTried::Stop(Status::NoMemory)
            }
        }
    }
}

/// The reply to a shared call of this group: the environment's own refusal, or the hub's answer.
fn reply_to<J: Job>(
    parts: &mut SharedParts<J>,
    call: &SharedCall,
    group: CallGroup,
) -> Result<Reply, Status>
    requires shared { IsTrue (is_shared call.now.call) }
    requires group { group ≡ group_of call.now.call }
    requires within { ArePartsWithin parts.old }
    requires queueing { call.now.refused ≡ None → MayQueue call.now.call parts.old }
    requires makeable { call.now.refused ≡ None → IsMakeable (given_by call.now) call.now.call }
    ensures ok { IfOk result (λ reply. RepliesTo parts.old call.now reply parts.new) }
    ensures grows { OnErr result (is_growing call.now.call ≡ true) }
    ensures unrefused { OnErr result (call.now.refused ≡ None) }
    ensures accepted { OnErr result ((h : Hub) → WouldAccept (hub_with parts.old h) actor.Env (given_by call.now) call.now.call) }
    ensures cause { IfErr result (λ status. status ≡ Status.NoMemory) }
    ensures err { OnErr result (parts.new ≡ parts.old) }
{
    if let Some(status) = call.refused {
        return Ok(Reply::plain(status, Out::Nothing));
    }
    match parts.answer(Actor::Env, &given_of(call), &call.call, group) {
        Ok(Some(reply)) => Ok(reply),
        Ok(None) => unreachable!(),
        Err(NoMemory) => Err(Status::NoMemory),
    }
}

/// What the environment hands to the hub with a shared call.
fn given_of(call: &SharedCall) -> Given
    ensures { result ≡ given_by call.now }
{
    Given {
        addon: call.addon,
        target: call.target,
        refused: call.refused,
    }
}

/// The entry of a shared call with this reply.
fn handed_entry(call: &SharedCall, reply: Reply) -> Entry
    ensures { result ≡ entry_handed call.now reply }
{
    Entry {
        actor: Actor::Env,
        depth: call.depth,
        step: call.step,
        what: What::Call(call.call),
        reply,
        given: Some(given_of(call)),
    }
}

/// The entry of a thread's call with this reply.
fn thread_entry(thread: u32, step: u32, call: &Call, reply: Reply) -> Entry
    ensures { result ≡ entry_of_thread thread step call.now reply }
{
    Entry {
        actor: Actor::Thread(thread),
        depth: 0,
        step,
        what: What::Call(*call),
        reply,
        given: None,
    }
}
