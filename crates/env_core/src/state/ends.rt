//! Ends of frames.
ghost use Rattle.std.specs.Prelude.{◌≡◌, ◌≢◌, ◌<◌, ◌^◌, [], Some, None};
ghost use Rattle.napi_types.specs.parts.Frames.{cause_of, duty_of, ticket_of};
ghost use Rattle.napi_types.specs.parts.HeapChanges.{without_frame};
ghost use Rattle.napi_types.specs.environment.Ends.{end_change, call_end_change, uncut_call_end, call_end_with, outermost_end_change, end_out};

use super::{State, host_entry, host_told};
use crate::handles::left_by;
use napi_types::{Cause, Entry, HandleId, HostStep, Out, Status, Why};

impl State {
    /// The innermost frame, which no duty began, ends, cut or not, and its scopes close. It leaves the value of a handle, where it names
    /// one.
    pub fn leave(&mut self, value: Option<HandleId>, cut: Option<Why>) -> Entry
        requires standing { self.old.frames ≢ [] }
        requires plain { duty_of self.old.frames ≡ None }
        requires handles { self.old.heap.handles < 2 ^ 62 }
        ensures entry { result ≡ (end_change value cut self.old).entry }
        ensures after { self.new ≡ (end_change value cut self.old).after }
    {
        let Some(frame) = self.frames.innermost() else {
            unreachable!()
        };
        match frame.cause {
            Cause::Call => self.leave_call(value, cut),
            _ => self.leave_outermost(cut),
        }
    }

    /// A frame that neither a call nor a ticket began ends. An exception that is pending is cleared.
    pub(super) fn leave_outermost(&mut self, cut: Option<Why>) -> Entry
        requires standing { self.old.frames ≢ [] }
        requires ticketless { ticket_of (duty_of self.old.frames) ≡ None }
        ensures entry { result ≡ (outermost_end_change cut self.old).entry }
        ensures after { self.new ≡ (outermost_end_change cut self.old).after }
    {
        let out = self.clear_at_end(cut);
        self.scopes.leave_frame();
        self.frames.pop();
        host_entry(HostStep::End, out)
    }

    /// An exception that is pending is cleared as an outermost frame ends. What the frame's end tells: that it was cut, or else that
    /// an exception was pending.
    pub(super) fn clear_at_end(&mut self, cut: Option<Why>) -> Out
        ensures out { result ≡ end_out cut self.old.pending }
        ensures cleared { self.new ≡ record self.old { pending = None } }
    {
        match (cut, self.exceptions.clear()) {
            (Some(why), _) => Out::Cut(why),
            (None, Some(_)) => Out::Uncaught,
            (None, None) => Out::Nothing,
        }
    }

    /// The frame of a call ends, and its end has the call's reply.
    fn leave_call(&mut self, value: Option<HandleId>, cut: Option<Why>) -> Entry
        requires standing { self.old.frames ≢ [] }
        requires called { cause_of self.old.frames ≡ Cause.Call }
        requires handles { self.old.heap.handles < 2 ^ 62 }
        ensures entry { result ≡ (call_end_change value cut self.old).entry }
        ensures after { self.new ≡ (call_end_change value cut self.old).after }
    {
        if let Some(why) = cut {
            return self.give_nothing(Status::GenericFailure, Out::Cut(why));
        }
        if self.exceptions.pending().is_some() {
            return self.give_nothing(Status::PendingException, Out::Nothing);
        }
        self.give(value)
    }

    /// The call of a frame gives nothing. An exception that is pending stays.
    fn give_nothing(&mut self, status: Status, out: Out) -> Entry
        requires { self.old.frames ≢ [] }
        ensures entry { result ≡ (call_end_with status out (without_frame self.old.heap) self.old).entry }
        ensures after { self.new ≡ (call_end_with status out (without_frame self.old.heap) self.old).after }
    {
        self.scopes.leave_frame();
        self.frames.pop();
        self.exceptions.note(status);
        host_told(HostStep::End, status, out)
    }

    /// The call of a frame gives a new handle of the value that the frame leaves, which is read before its scopes close.
    fn give(&mut self, value: Option<HandleId>) -> Entry
        requires standing { self.old.frames ≢ [] }
        requires called { cause_of self.old.frames ≡ Cause.Call }
        requires handles { self.old.heap.handles < 2 ^ 62 }
        ensures entry { result ≡ (uncut_call_end value self.old None).entry }
        ensures after { self.new ≡ (uncut_call_end value self.old None).after }
    {
        let left = left_by(&self.store, &self.scopes, value);
        let Some(handle) = self.scopes.leave_call(Some(left)) else {
            unreachable!()
        };
        self.frames.pop();
        self.exceptions.note(Status::Ok);
        host_told(HostStep::End, Status::Ok, Out::Handle(handle))
    }
}
