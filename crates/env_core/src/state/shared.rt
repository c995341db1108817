//! What the environment has to do with the hub: shared calls, and the frames of the hub's duties.
ghost use Rattle.std.specs.Prelude.{◌≡◌, ◌≢◌, ℕ, ◌<◌, [], true, false, Option, Some, None, OnOk, OnErr};
ghost use Rattle.napi_types.specs.declared.call.Call.TheVariants as call_of;
ghost use Rattle.napi_types.specs.declared.entry.Cause.TheVariants as cause;
ghost use Rattle.napi_types.specs.plain.Guards.{is_shared};
ghost use Rattle.napi_types.specs.parts.Bodies.{function_addon, function_entry, is_function as is_function_body};
ghost use Rattle.napi_types.specs.parts.Frames.{asks_made, duty_of, is_hub_duty, most_asks};
ghost use Rattle.napi_types.specs.parts.Heap.{handle_body};
ghost use Rattle.napi_types.specs.environment.Ends.{outermost_end_change};
ghost use Rattle.napi_types.specs.environment.Refusals.{refusal, refusal_by_state};
ghost use Rattle.napi_types.specs.environment.SharedCalls.{after_delivery, after_shared, shared_call_of, target_of, with_root};
ghost use Rattle.env_core.specs.TsfnRooting.{HasRootPlace};
ghost use Rattle.env_core.specs.Sharing.{is_rooting, wants_root as wants_root_of};

use super::State;
use super::tickets::begin_frame;
use crate::handles::body_of;
use crate::tsfn_roots::RootRoom;
use napi_types::{
    Body, Call, DueInfo, HandleId, NoMemory, Out, Reply, SharedCall, Status, Target, Why,
};

/// Whether a call that was handed over will want the root of a value: it makes a thread-safe function of a function, and is not
/// refused.
fn wants_root(shared: &SharedCall) -> bool
    ensures { result ≡ wants_root_of shared.now }
{
    matches!(shared.call, Call::CreateThreadsafeFunction(Some(_), ..)) && shared.refused.is_none()
}

impl State {
    /// A shared call as the hub is handed it: where it stands in its frame, the addon that calls, where the items of a new thread-safe
    /// function are delivered, and why the environment refuses the call, if it does.
    pub fn shared_call(&self, step: u32, call: &Call) -> SharedCall
        requires shared { is_shared call.now ≡ true }
        requires ask { step ≡ asks_made self.now.frames }
        ensures { result ≡ shared_call_of self.now call.now }
    {
        let refused = self.own_refusal(call);
        let target = match refused {
            Some(_) => None,
            None => self.target(call),
        };
        SharedCall {
            call: *call,
            depth: self.frames.depth(),
            step,
            addon: self.caller(),
            target,
            refused,
        }
    }

    /// Why the environment refuses a shared call, if it does, before the hub is asked.
    fn own_refusal(&self, call: &Call) -> Option<Status>
        requires { is_shared call.now ≡ true }
        ensures { result ≡ refusal self.now call.now }
    {
        if let Some(status) = self.refusal_by_moment(call) {
            return Some(status);
        }
        match call {
            Call::CreateThreadsafeFunction(function, entry, _, count, _, _) => {
                self.why_not_creating(*function, *entry, *count)
            }
            _ => None,
        }
    }

    /// Why no thread-safe function is made of this function with this entry for this many threads, if none is, at a right moment: no open
    /// scope holds the handle, its value is no function, neither is named, or no thread would hold it.
    fn why_not_creating(
        &self,
        function: Option<HandleId>,
        entry: Option<u32>,
        count: u32,
    ) -> Option<Status>
        ensures { (maximum : ℕ) (finalizer : Option ℕ) (context : ℕ)
            → result ≡ refusal_by_state self.now (call_of.CreateThreadsafeFunction function entry maximum count finalizer context) }
    {
        let known = self.holds_if(function);
        let callable = match function {
            Some(function) => self.is_function(function),
            None => true,
        };
        let delivers = function.is_some() || entry.is_some();
        if known && callable && delivers && count > 0 {
            return None;
        }
        Some(Status::InvalidArg)
    }

    /// Where the items of a thread-safe function are delivered that the call creates, where it creates one and nothing refuses it: at the
    /// entry that the call names, of the calling addon, or else at that of the function.
    fn target(&self, call: &Call) -> Option<Target>
        requires { refusal self.now call.now ≡ None }
        ensures { result ≡ target_of self.now call.now }
    {
        match call {
            Call::CreateThreadsafeFunction(_, Some(entry), ..) => Some(Target {
                addon: self.caller(),
                entry: *entry,
                torn_runs: true,
            }),
            Call::CreateThreadsafeFunction(Some(function), None, ..) => {
                Some(self.own_target(*function))
            }
            _ => None,
        }
    }

    /// The entry that a function runs, at which items are delivered where no other is named.
    fn own_target(&self, function: HandleId) -> Target
        requires { is_function_body (handle_body self.now.heap function.0) ≡ true }
        ensures addon { result.addon ≡ function_addon (handle_body self.now.heap function.0) }
        ensures entry { result.entry ≡ function_entry (handle_body self.now.heap function.0) }
        ensures torn { result.torn_runs ≡ false }
    {
        match body_of(&self.store, &self.scopes, function) {
            Body::Function { addon, entry, .. } => Target {
                addon,
                entry,
                torn_runs: false,
            },
            _ => unreachable!(),
        }
    }

    /// Takes the memory for the root of a function, where the call that is handed over wants one and it is not there yet.
    pub fn reserve_root_for(&self, shared: &SharedCall, room: &mut RootRoom) -> Result<(), NoMemory>
        ensures place { OnOk result (wants_root_of shared.now ≡ true → HasRootPlace room.new self.now) }
        ensures wanting { OnErr result (wants_root_of shared.now ≡ true) }
    {
        if wants_root(shared) {
            return self.reserve_root(room);
        }
        Ok(())
    }

    /// Takes in what the hub answered to a call: a new thread-safe function keeps the value of its function alive, for whose root there is
    /// memory; the status is noted, and the ask is counted. It takes no memory.
    pub fn take_in(&mut self, call: &Call, reply: &Reply, room: &mut RootRoom)
        requires within { asks_made self.old.frames < most_asks }
        requires place { is_rooting call.now reply.now.out ≡ true → HasRootPlace room.old self.old }
        ensures { self.new ≡ after_shared call.now reply.now self.old }
    {
        self.add_root_if(call, reply.out, room);
        self.note(call, reply.status);
    }

    /// The value of a function is a root from now on, where this result of this call gives a thread-safe function that is made of it.
    fn add_root_if(&mut self, call: &Call, out: Out, room: &mut RootRoom)
        requires { is_rooting call.now out ≡ true → HasRootPlace room.old self.old }
        ensures { self.new ≡ with_root call.now out self.old }
    {
        match (call, out) {
            (Call::CreateThreadsafeFunction(Some(function), ..), Out::Function(id)) => {
                self.add_root(room, id, *function);
            }
            _ => {}
        }
    }

    /// The frame of a duty of the hub begins, with a scope of its own. It takes no memory.
    pub fn enter_hub_frame(&mut self, info: &DueInfo)
        requires alone { self.old.frames ≡ [] }
        requires hub { is_hub_duty (Some info.now.duty) ≡ true }
        requires uncalled { info.now.cause ≢ cause.Call }
        ensures { self.new ≡ after_delivery info.now self.old }
    {
        let _ = begin_frame(&mut self.scopes, &mut self.frames, *info);
    }

    /// The frame of a duty of the hub ends, cut or not, and its scopes close. An exception that is pending is cleared. Answers what the
    /// frame's end tells.
    pub fn leave_hub_frame(&mut self, cut: Option<Why>) -> Out
        requires hub { is_hub_duty (duty_of self.old.frames) ≡ true }
        ensures out { result ≡ (outermost_end_change cut self.old).entry.reply.out }
        ensures after { self.new ≡ (outermost_end_change cut self.old).after }
    {
        let end = self.leave_outermost(cut);
        end.reply.out
    }
}
