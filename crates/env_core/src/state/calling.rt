//! Calls of functions.
ghost use Rattle.std.specs.Prelude.{◌≡◌, ◌≢◌, ◌+◌, ◌<◌, ◌≤◌, ◌^◌, ◌&&◌, [], ◌∷◌, ◌++◌, length, take, replicate, Some, None, is_some, IfOk, OnOk, OnErr, IfErr};
ghost use Rattle.std.specs.List.{list_all};
ghost use Rattle.napi_types.specs.declared.call.Call.TheVariants as call_of;
ghost use Rattle.napi_types.specs.plain.Arguments.{argument_handles};
ghost use Rattle.napi_types.specs.plain.CallFacts.{handle_if};
ghost use Rattle.napi_types.specs.plain.Replies.{plain as plain_reply};
ghost use Rattle.napi_types.specs.parts.Bodies.{is_function as is_function_of};
ghost use Rattle.napi_types.specs.parts.Frames.{most_frames, asks_made, most_asks};
ghost use Rattle.napi_types.specs.parts.Heap.{handle_body};
ghost use Rattle.napi_types.specs.parts.NamedNumbers.{is_known};
ghost use Rattle.napi_types.specs.parts.Properties.{most_names};
ghost use Rattle.napi_types.specs.parts.Scopes.{gives};
ghost use Rattle.napi_types.specs.environment.Calls.{with_depth_error};
ghost use Rattle.napi_types.specs.environment.Refusals.{refusal_before_depth};
ghost use Rattle.env_values.specs.SeenValues.{HoldsLive};
ghost use Rattle.env_core.specs.Looking.{IsLookedUp};
ghost use Rattle.env_core.specs.State.{CallsFunction, EntersCall, BeginsScopes, SameScopes};

use super::State;
use crate::frames::StandingFrame;
use crate::handles::{LookedUp, body_of, look_up};
use env_values::{invariant, thrown_value};
use handle_scope::Scopes;
use napi_types::{
    Args, Body, Call, Cause, HandleId, MOST_FRAMES, NoMemory, Out, Reply, Status, Target, TextNo,
};
use value_store::Store;

/// The text of the error that is pending where no further frame may begin.
const DEPTH_TEXT: TextNo = TextNo(2);

/// What a call of a function comes to.
pub enum Called {
    /// It is refused: its reply.
    Refused(Reply),
    /// It is accepted: what its frame runs, and the frame's gifts.
    Entered(Target, [u64; 8]),
}

impl State {
    /// A call of a function by the innermost frame. It finds no memory only where nothing refuses it, the depth limit left aside.
    pub fn call_function(
        &mut self,
        receiver: Option<HandleId>,
        function: HandleId,
        args: &Args,
    ) -> Result<Called, NoMemory>
        requires standing { self.old.frames ≢ [] }
        requires within { asks_made self.old.frames < most_asks }
        requires values { self.old.heap.made + most_names + 8 < 2 ^ 48 }
        requires handles { self.old.heap.handles < 2 ^ 62 }
        ensures ok { IfOk result (λ called. CallsFunction self.old receiver function args.now called self.new) }
        ensures err { OnErr result (self.new ≡ self.old) }
        ensures unrefused { OnErr result (refusal_before_depth self.old (call_of.CallFunction receiver function args.now) ≡ None) }
    {
        let callee = look_up(&self.store, &self.scopes, function);
        let reply = match self.why_not_calling(receiver, &callee, args) {
            Some(status) => Reply::plain(status, Out::Nothing),
            None if self.frames.depth() < MOST_FRAMES => {
                return self.enter_function(receiver, &callee, args);
            }
            None => self.exceed_depth()?,
        };
        let call = Call::CallFunction(receiver, function, *args);
        self.note(&call, reply.status);
        Ok(Called::Refused(reply))
    }

    /// Why the call of what was looked up is refused, if it is, the depth limit left aside.
    fn why_not_calling(
        &self,
        receiver: Option<HandleId>,
        callee: &LookedUp,
        args: &Args,
    ) -> Option<Status>
        requires { IsLookedUp self.now.heap callee.now }
        ensures { result ≡ refusal_before_depth self.now (call_of.CallFunction receiver callee.now.handle args.now) }
    {
        let call = Call::CallFunction(receiver, callee.handle, *args);
        if let Some(status) = self.refusal_by_moment(&call) {
            return Some(status);
        }
        if self.knows_all(receiver, callee, args) && is_function_body(callee.body) {
            return None;
        }
        Some(Status::InvalidArg)
    }

    /// Whether open scopes hold all the handles that the call of what was looked up names.
    fn knows_all(&self, receiver: Option<HandleId>, callee: &LookedUp, args: &Args) -> bool
        requires { IsLookedUp self.now.heap callee.now }
        ensures { result ≡ is_known self.now.texts self.now.heap (call_of.CallFunction receiver callee.now.handle args.now) }
    {
        let count = args.count.min(4) as usize;
        let received = self.holds_if(receiver);
        let called = callee.held;
        let given = self.holds_each(&args.handles[..count]);
        received && called && given
    }

    /// Whether an open scope holds the handle, where there is one.
    pub(super) fn holds_if(&self, handle: Option<HandleId>) -> bool
        ensures { result ≡ list_all (λ h. is_some (gives self.now.heap.scopes h)) (handle_if handle) }
    {
        match handle {
            Some(handle) => self.holds(handle),
            None => true,
        }
    }

    /// Whether open scopes hold all of these handles.
    fn holds_each(&self, handles: &[HandleId]) -> bool
        ensures { result ≡ list_all (λ h. is_some (gives self.now.heap.scopes h.0)) handles.now }
    {
        handles.iter().all(|handle| self.holds(*handle))
    }

    /// Whether an open scope holds the handle.
    pub(super) fn holds(&self, handle: HandleId) -> bool
        ensures { result ≡ is_some (gives self.now.heap.scopes handle.0) }
    {
        self.scopes.look(handle).is_some()
    }

    /// Whether the value of a handle is a function.
    pub(super) fn is_function(&self, handle: HandleId) -> bool
        ensures { result ≡ is_function_of (handle_body self.now.heap handle.0) }
    {
        is_function_body(body_of(&self.store, &self.scopes, handle))
    }

    /// No frame may begin inside the innermost one: an error that says so is pending from now on.
    fn exceed_depth(&mut self) -> Result<Reply, NoMemory>
        requires { self.old.heap.made + most_names + 8 < 2 ^ 48 }
        ensures reply { IfOk result (λ reply. reply ≡ plain_reply Status.PendingException Out.Nothing) }
        ensures after { OnOk result (self.new ≡ with_depth_error self.old) }
        ensures err { OnErr result (self.new ≡ self.old) }
    {
        // What a view names is live, so it is seen as it was.
        invariant(&self.store);
        let error = thrown_value(&mut self.store, None, DEPTH_TEXT)?;
        self.exceptions.set(error);
        Ok(Reply::plain(Status::PendingException, Out::Nothing))
    }

    /// The frame of a function that was looked up begins inside the innermost one, whose ask is counted.
    fn enter_function(
        &mut self,
        receiver: Option<HandleId>,
        callee: &LookedUp,
        args: &Args,
    ) -> Result<Called, NoMemory>
        requires standing { self.old.frames ≢ [] }
        requires seen { IsLookedUp self.old.heap callee.now }
        requires accepted { refusal_before_depth self.old (call_of.CallFunction receiver callee.now.handle args.now) ≡ None }
        requires room { length self.old.frames < most_frames }
        requires within { asks_made self.old.frames < most_asks }
        requires handles { self.old.heap.handles < 2 ^ 62 }
        ensures ok { IfOk result (λ called. CallsFunction self.old receiver callee.now.handle args.now called self.new) }
        ensures err { OnErr result (self.new ≡ self.old) }
    {
        match callee.body {
            Body::Function {
                addon,
                entry,
                payload,
            } => {
                let handle = begin_scopes(&self.store, &mut self.scopes, receiver)?;
                self.exceptions.note(Status::Ok);
                self.frames.count_ask();
                self.frames.push(StandingFrame {
                    cause: Cause::Call,
                    addon,
                    entry,
                    duty: None,
                    makes_asks: true,
                    asks: 0,
                });
                let target = Target {
                    addon,
                    entry,
                    torn_runs: false,
                };
                Ok(Called::Entered(target, gifts_of(args, handle, payload)))
            }
            _ => unreachable!(),
        }
    }
}

/// Whether a value is a function.
fn is_function_body(body: Body) -> bool
    ensures { result ≡ is_function_of body }
{
    matches!(body, Body::Function { .. })
}

/// The scopes of the frame that a call begins, with a handle of undefined in them where the call names no receiver. Answers
/// the receiver's handle. All memory is taken first.
fn begin_scopes(
    store: &Store,
    scopes: &mut Scopes,
    receiver: Option<HandleId>,
) -> Result<HandleId, NoMemory>
    requires standing { scopes.old.frames ≢ [] }
    requires live { HoldsLive store.now scopes.old }
    requires room { length scopes.old.frames < most_frames }
    requires handles { scopes.old.handles < 2 ^ 62 }
    ensures ok { IfOk result (λ handle. BeginsScopes store.now scopes.old receiver handle scopes.new) }
    ensures err { OnErr result (SameScopes scopes.old scopes.new) }
{
    match receiver {
        Some(handle) => {
            scopes.enter_call()?;
            Ok(handle)
        }
        None => {
            scopes.reserve()?;
            scopes.enter_call()?;
            Ok(scopes.issue_reserved(store.starting(0)))
        }
    }
}

/// The gifts of a function's frame: how many arguments there are, four of them, the receiver, and the function's payload.
fn gifts_of(args: &Args, receiver: HandleId, payload: u64) -> [u64; 8]
    ensures { result ≡ length (argument_handles args.now) ∷ take 4 (argument_handles args.now ++ replicate 4 0) ++ receiver.0 ∷ payload ∷ 0 ∷ [] }
{
    let [first, second, third, fourth] = args.handles;
    match args.count {
        0 => [0, 0, 0, 0, 0, receiver.0, payload, 0],
        1 => [1, first.0, 0, 0, 0, receiver.0, payload, 0],
        2 => [2, first.0, second.0, 0, 0, receiver.0, payload, 0],
        3 => [3, first.0, second.0, third.0, 0, receiver.0, payload, 0],
        _ => [
            4, first.0, second.0, third.0, fourth.0, receiver.0, payload, 0,
        ],
    }
}
