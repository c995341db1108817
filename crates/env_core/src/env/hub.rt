//! What a core has to do with the hub: shared calls, and the frames of the hub's duties.
ghost use Rattle.std.specs.Prelude.{◌≡◌, ◌≢◌, ◌<◌, ◌≤◌, [], true, None, Some, IfSome};
ghost use Rattle.napi_types.specs.declared.entry.Cause.TheVariants as cause;
ghost use Rattle.napi_types.specs.plain.Guards.{is_shared};
ghost use Rattle.napi_types.specs.plain.Lists.{tail};
ghost use Rattle.napi_types.specs.parts.Frames.{asks_made, cause_of, duty_of, is_hub_duty, most_asks};
ghost use Rattle.napi_types.specs.environment.Ends.{end_change};
ghost use Rattle.env_core.specs.CoreSteps.{IfStop, IsHandedOver};
ghost use Rattle.env_core.specs.Sharing.{IsAnswer, after_answer, after_no_answer, after_hub_begin, after_hub_end};

use super::{EnvCore, Stepped};
use napi_types::{Call, DueInfo, NoMemory, Out, Reply, SharedCall, Status, Why};

impl EnvCore {
    /// The call that was handed to the hub and that the hub has not answered yet, where there is one.
    pub fn awaited(&self) -> Option<SharedCall>
        ensures { result ≡ self.now.awaited }
    {
        self.awaited
    }

    /// The length of the history, as it was noted last. The next entry of the journal stands there.
    pub fn position(&self) -> u64
        ensures { result ≡ self.now.position }
    {
        self.journal.position()
    }

    /// A shared call: it is handed to the hub, whose answer is awaited from then on. The memory for the root of a new thread-safe
    /// function is taken before.
    pub(super) fn hand_over(&mut self, step: u32, call: &Call) -> Stepped
        requires standing { self.old.env.frames ≢ [] }
        requires idle { self.old.awaited ≡ None }
        requires shared { is_shared call.now ≡ true }
        requires ask { step ≡ asks_made self.old.env.frames }
        requires within { step < most_asks }
        ensures handed { IsHandedOver self.old call.now result self.new }
        ensures stop { IfStop result (λ status. self.new ≡ self.old) }
    {
        let shared = self.state.shared_call(step, call);
        if let Err(NoMemory) = self.state.reserve_root_for(&shared, &mut self.root_room) {
            return Stepped::Stop(Status::NoMemory);
        }
        self.awaited = Some(shared);
        Stepped::Shared(shared)
    }

    /// Takes in the hub's answer to the call that is awaited: its status is the last one, its ask is counted, and a new thread-safe
    /// function keeps the value of its function alive. It takes no memory, and near constant time.
    ///
    /// `position` is the length of the history just after the call's entry. A call that the environment refused is answered with that
    /// refusal, and with no result.
    pub fn settle(&mut self, reply: Reply, position: u64)
        requires awaited { self.old.awaited ≢ None }
        requires refused { IfSome self.old.awaited (λ shared. IsAnswer shared reply) }
        requires later { self.old.position ≤ position }
        ensures { IfSome self.old.awaited (λ shared. self.new ≡ after_answer shared reply position self.old) }
    {
        let Some(shared) = self.awaited.take() else {
            unreachable!();
        };
        self.state
            .take_in(&shared.call, &reply, &mut self.root_room);
        self.journal.note(position);
    }

    /// Gives up the call that is awaited, which the hub had no room or no memory to answer: all but the position is as before the
    /// call. It takes no memory.
    ///
    /// `position` is the length of the history as the hub stopped.
    pub fn unsettle(&mut self, position: u64)
        requires awaited { self.old.awaited ≢ None }
        requires later { self.old.position ≤ position }
        ensures { self.new ≡ after_no_answer position self.old }
    {
        self.awaited = None;
        self.journal.note(position);
    }

    /// Begins the frame of a duty of the hub, with a scope of its own; its `begin` stands in the history. The last status stays. Where
    /// the duty tells that its frame makes no asks, the frame can only leave. It takes no memory.
    ///
    /// `position` is the length of the history just after the `begin`.
    pub fn enter_hub_frame(&mut self, info: &DueInfo, position: u64)
        requires alone { self.old.env.frames ≡ [] }
        requires hub { is_hub_duty (Some info.now.duty) ≡ true }
        requires uncalled { info.now.cause ≢ cause.Call }
        requires later { self.old.position ≤ position }
        ensures { self.new ≡ after_hub_begin info.now position self.old }
    {
        self.state.enter_hub_frame(info);
        self.journal.note(position);
    }

    /// Ends the frame of a duty of the hub, which stands alone, cut or not, and answers what its `end` tells; that stands in the
    /// history. An exception that is pending is cleared. It takes no memory.
    ///
    /// A frame is cut as `Asks` only after its 65,536th ask. `position` is the length of the history just after the `end`.
    pub fn leave_hub_frame(&mut self, cut: Option<Why>, position: u64) -> Out
        requires idle { self.old.awaited ≡ None }
        requires hub { is_hub_duty (duty_of self.old.env.frames) ≡ true }
        requires alone { tail self.old.env.frames ≡ [] }
        requires outermost { cause_of self.old.env.frames ≢ cause.Call }
        requires asks { cut ≡ Some Why.Asks → asks_made self.old.env.frames ≡ most_asks }
        requires later { self.old.position ≤ position }
        ensures out { result ≡ (end_change None cut self.old.env).entry.reply.out }
        ensures ended { self.new ≡ after_hub_end cut position self.old }
    {
        let out = self.state.leave_hub_frame(cut);
        self.journal.note(position);
        out
    }
}
