//! One turn of the environment: an ask of the innermost frame, or the next event where no frame stands.
ghost use Rattle.std.specs.Prelude.{◌≡◌, ◌≢◌, ◌<◌, ◌≤◌, ℕ, [], length, map, Some, None, true, false, IfSome, IsTrue};
ghost use Rattle.napi_types.specs.plain.CallKinds.{is_calling};
ghost use Rattle.napi_types.specs.plain.Guards.{is_shared};
ghost use Rattle.napi_types.specs.plain.Lists.{head, tail};
ghost use Rattle.napi_types.specs.parts.Frames.{asks_made, duty_of, is_hub_duty, most_asks, at_last_ask};
ghost use Rattle.napi_types.specs.environment.Ends.{end_change};
ghost use Rattle.napi_types.specs.runs.Choice.{local_choice};
ghost use Rattle.addon_trait.specs.Addons.{TellSamePlans};
ghost use Rattle.env_core.specs.Core.{after_change};
ghost use Rattle.env_core.specs.Standing.{machine_frame};
ghost use Rattle.env_loop.specs.Recording.{why_stopped, states_of};
ghost use Rattle.env_loop.specs.RecordedRuns.{IsSoundEnvironment, cut_at, hub_begun, pending_at_hub, OneMore, FitsHub};
ghost use Rattle.env_loop.specs.Turns.{event_turn as turn_at_event, turn_after, next_ticket_info, IsNextEvent, IsAskOf, ReplyIsNoted, IsMadeTurn, TurnCameTo, EndedOrPending, EndedBy};

use crate::run::{EnvRun, FrameEnd};
use addon_trait::{Addon, ask_at, begin_at, enter_at, note_at};
use env_core::{EnvCore, StandingFrame, Stepped};
use napi_types::{Ask, Begun, Call, Duty, HandleId, MOST_ASKS, Phase, Status, Why};
use std::mem;

/// What a turn of the environment comes to.
#[derive(Clone, Copy, Debug, PartialEq, Eq)]
pub enum LocalTurn {
    /// It made one entry of the journal.
    Made,
    /// The hub has to make its turn.
    NeedsHub,
    /// The environment is gone.
    Gone,
}

/// The next event where no frame stands, as the environment decides it alone.
#[derive(Clone, Copy, Debug, PartialEq, Eq)]
pub(crate) enum NextEvent {
    /// The init frame of this addon begins.
    Init(u32),
    /// The frame of a ticket begins.
    Ticket,
    /// The loop ends, because exit was asked.
    Exit,
    /// The environment is gone.
    Gone,
    /// The environment decides none: the event is the hub's, if there is one.
    OfHub,
}

/// Which event is next, where no frame stands and the environment decides it alone.
pub(crate) fn next_event(core: &EnvCore) -> NextEvent
    requires { core.now.env.opened ≡ true }
    ensures { IsNextEvent result (local_choice core.now.env) }
{
    match core.phase() {
        Phase::Init => match core.next_init() {
            Some(addon) => NextEvent::Init(addon),
            None => NextEvent::OfHub,
        },
        Phase::Live => loop_event(core),
        Phase::Hooks if core.has_local() => NextEvent::Ticket,
        Phase::Finals if core.has_local() => NextEvent::Ticket,
        Phase::Finals => NextEvent::Gone,
        _ => NextEvent::OfHub,
    }
}

/// Which event is next in the loop: once exit was asked its end, whatever is due, and until then a ticket, where one is due.
#[tactic(auto, using(crate::proofs::TicketTurns::loop_ticket))]
fn loop_event(core: &EnvCore) -> NextEvent
    requires { core.now.env.phase ≡ Phase.Live }
    ensures { IsNextEvent result (local_choice core.now.env) }
{
    if core.exit_asked() {
        return NextEvent::Exit;
    }
    if !core.has_local() {
        return NextEvent::OfHub;
    }
    NextEvent::Ticket
}

/// Why a frame is cut whose call stopped with this status.
pub(crate) fn why(status: Status) -> Why
    ensures { result ≡ why_stopped status }
{
    match status {
        Status::TraceFull => Why::Full,
        _ => Why::Memory,
    }
}

/// Whether a call is answered at once: it is neither shared nor of a function.
fn is_answered_at_once(call: &Call) -> bool
    ensures local { IsTrue result → is_shared call.now ≡ false }
    ensures at_once { IsTrue result → is_calling call.now ≡ false }
{
    call.facts().group.is_answered_at_once()
}

/// What a frame asks at its next step: what its addon says, or to leave where it makes no asks. No addon has another register, or has seen
/// anything more.
fn ask_of(addons: &mut Vec<Box<dyn Addon>>, frame: &StandingFrame) -> Ask
    requires { frame.now.addon < length addons.old.items }
    ensures plans { TellSamePlans (λ b. plan b) addons.old.items addons.new.items }
    ensures regs { map (λ b. regs b) addons.new.items ≡ map (λ b. regs b) addons.old.items }
    ensures seen { map (λ b. seen b) addons.new.items ≡ map (λ b. seen b) addons.old.items }
    ensures asked { IsAskOf (map (λ b. plan b) addons.old.items) (map (λ b. regs b) addons.old.items) (machine_frame frame.now) result }
{
    if !frame.makes_asks {
        return Ask::Leave(None);
    }
    ask_at(addons, frame.addon as usize, frame.entry, frame.asks)
}

impl EnvRun {
    /// One turn. See [`EnvRun::local_turn`].
    pub(crate) fn turn(&mut self, addons: &mut Vec<Box<dyn Addon>>) -> LocalTurn
        requires { self.old.core.env.addons ≤ length addons.old.items }
        ensures plans { TellSamePlans (λ b. plan b) addons.old.items addons.new.items }
        ensures turn { result ≡ turn_after self.new self.old.core.env }
        ensures room { result ≡ LocalTurn.Made → length self.old.core.journal < self.old.core.limit }
        ensures goes { let before = states_of (λ b. regs b) (λ b. seen b) addons.old.items in
            let after = states_of (λ b. regs b) (λ b. seen b) addons.new.items in
            TurnCameTo result (map (λ b. plan b) addons.old.items) self.old before self.new after }
        ensures unbegun { result ≢ LocalTurn.Made → next_ticket_info self.old.core.env ≡ None }
        ensures ends { IfSome self.old.ending (λ how. pending_at_hub self.old ≡ false → EndedBy how self.old.core self.new.core) }
        ensures once { pending_at_hub self.old ≡ true → (self.new ≡ self.old) × (map (λ b. regs b) addons.new.items ≡ map (λ b. regs b) addons.old.items) }
    {
        if self.pending_at_hub() {
            return LocalTurn::NeedsHub;
        }
        match self.core.frame() {
            Some(frame) => self.frame_turn(addons, &frame),
            None => self.event_turn(addons),
        }
    }

    /// Whether the hub is to answer a call, or to make the end of the frame of one of its duties.
    pub(crate) fn pending_at_hub(&self) -> bool
        ensures { result ≡ pending_at_hub self.now }
    {
        self.core.awaited().is_some() || (self.ending.is_some() && self.is_in_hub_frame())
    }

    /// Whether the innermost frame is that of a duty of the hub.
    fn is_in_hub_frame(&self) -> bool
        ensures { result ≡ is_hub_duty (duty_of self.now.core.env.frames) }
    {
        match self.core.frame() {
            Some(frame) => is_of_hub(frame.duty),
            None => false,
        }
    }

    /// A turn of the innermost frame: its end, where it is pending or all asks are made, or what it asks.
    fn frame_turn(&mut self, addons: &mut Vec<Box<dyn Addon>>, frame: &StandingFrame) -> LocalTurn
        requires unowed { pending_at_hub self.old ≡ false }
        requires enough { self.old.core.env.addons ≤ length addons.old.items }
        requires stands { head self.old.core.env.frames ≡ Some (machine_frame frame.now) }
        ensures plans { TellSamePlans (λ b. plan b) addons.old.items addons.new.items }
        ensures ends { IfSome self.old.ending (λ how. EndedBy how self.old.core self.new.core) }
        ensures turn { result ≡ turn_after self.new self.old.core.env }
        ensures goes { let before = states_of (λ b. regs b) (λ b. seen b) addons.old.items in
            let after = states_of (λ b. regs b) (λ b. seen b) addons.new.items in
            TurnCameTo result (map (λ b. plan b) addons.old.items) self.old before self.new after }
    {
        if let Some(end) = self.ending {
            return self.end_turn(addons, frame.duty, None, end);
        }
        if frame.asks >= MOST_ASKS {
            return self.end_turn(addons, frame.duty, None, FrameEnd::Cut(Why::Asks));
        }
        self.ask_turn(addons, frame)
    }

    /// What the innermost frame asks: its call, or its end. A call that stops cuts the frame.
    fn ask_turn(&mut self, addons: &mut Vec<Box<dyn Addon>>, frame: &StandingFrame) -> LocalTurn
        requires sound { IsSoundEnvironment self.old.core.env }
        requires idle { self.old.core.awaited ≡ None }
        requires unended { self.old.ending ≡ None }
        requires enough { self.old.core.env.addons ≤ length addons.old.items }
        requires stands { head self.old.core.env.frames ≡ Some (machine_frame frame.now) }
        requires within { frame.now.asks < most_asks }
        ensures plans { TellSamePlans (λ b. plan b) addons.old.items addons.new.items }
        ensures turn { result ≡ turn_after self.new self.old.core.env }
        ensures goes { let before = states_of (λ b. regs b) (λ b. seen b) addons.old.items in
            let after = states_of (λ b. regs b) (λ b. seen b) addons.new.items in
            TurnCameTo result (map (λ b. plan b) addons.old.items) self.old before self.new after }
    {
        match ask_of(addons, frame) {
            Ask::Leave(value) => self.end_turn(addons, frame.duty, value, FrameEnd::Leaves),
            Ask::Do(call) if is_answered_at_once(&call) => {
                match self.core.answer(frame.asks, &call) {
                    Ok(()) => {
                        let Some(reply) = self.core.last_reply() else {
                            unreachable!();
                        };
                        note_at(addons, frame.addon as usize, frame.entry, frame.asks, reply);
                        LocalTurn::Made
                    }
                    Err(status) => {
                        self.end_turn(addons, frame.duty, None, FrameEnd::Cut(why(status)))
                    }
                }
            }
            Ask::Do(call) => self.step_turn(addons, frame, &call),
        }
    }

    /// Makes the innermost frame's call. A call that stops cuts the frame.
    // Not put into its caller: a call that is answered at once would have its replies and gifts on the stack.
    #[inline(never)]
    fn step_turn(
        &mut self,
        addons: &mut Vec<Box<dyn Addon>>,
        frame: &StandingFrame,
        call: &Call,
    ) -> LocalTurn
        requires sound { IsSoundEnvironment self.old.core.env }
        requires idle { self.old.core.awaited ≡ None }
        requires unended { self.old.ending ≡ None }
        requires enough { self.old.core.env.addons ≤ length addons.old.items }
        requires stands { head self.old.core.env.frames ≡ Some (machine_frame frame.now) }
        requires within { frame.now.asks < most_asks }
        requires asked { IsAskOf (map (λ b. plan b) addons.old.items) (map (λ b. regs b) addons.old.items) (machine_frame frame.now) (Ask.Do call.now) }
        ensures plans { TellSamePlans (λ b. plan b) addons.old.items addons.new.items }
        ensures turn { result ≡ turn_after self.new self.old.core.env }
        ensures goes { let before = states_of (λ b. regs b) (λ b. seen b) addons.old.items in
            let after = states_of (λ b. regs b) (λ b. seen b) addons.new.items in
            TurnCameTo result (map (λ b. plan b) addons.old.items) self.old before self.new after }
    {
        match self.core.step(frame.asks, call) {
            Stepped::Reply(reply) => {
                note_at(
                    addons,
                    frame.addon as usize,
                    frame.entry,
                    frame.asks,
                    &reply,
                );
                LocalTurn::Made
            }
            Stepped::Enter(target, gifts) => {
                enter_at(addons, target.addon as usize, target.entry, &gifts);
                LocalTurn::Made
            }
            Stepped::Shared(_) => LocalTurn::NeedsHub,
            Stepped::Stop(status) => {
                self.end_turn(addons, frame.duty, None, FrameEnd::Cut(why(status)))
            }
        }
    }

    /// Ends the innermost frame so: that of a duty of the hub is left to the hub, and every other ends at once.
    fn end_turn(
        &mut self,
        addons: &mut Vec<Box<dyn Addon>>,
        duty: Option<Duty>,
        value: Option<HandleId>,
        end: FrameEnd,
    ) -> LocalTurn
        requires idle { self.old.core.awaited ≡ None }
        requires stands { self.old.core.env.frames ≢ [] }
        requires duty { duty ≡ duty_of self.old.core.env.frames }
        requires enough { self.old.core.env.addons ≤ length addons.old.items }
        requires asks { end ≡ FrameEnd.Cut Why.Asks → asks_made self.old.core.env.frames ≡ most_asks }
        ensures plans { TellSamePlans (λ b. plan b) addons.old.items addons.new.items }
        ensures seen { map (λ b. seen b) addons.new.items ≡ map (λ b. seen b) addons.old.items }
        ensures turn { result ≡ turn_after self.new self.old.core.env }
        ensures ends { let before = map (λ b. regs b) addons.old.items in
            let after = map (λ b. regs b) addons.new.items in
            EndedOrPending (is_hub_duty duty) (map (λ b. plan b) addons.old.items) before self.old value end self.new after }
    {
        if is_of_hub(duty) {
            self.ending = Some(end);
            return LocalTurn::NeedsHub;
        }
        self.ending = None;
        self.end_frame(addons, duty, value, cut_of(end));
        LocalTurn::Made
    }

    /// Ends the innermost frame, which this duty began, if one did; the duty ends with it, and nobody is told a reply. Where a call began the
    /// frame, the addon of its caller is told the reply. No addon has seen anything more.
    fn end_frame(
        &mut self,
        addons: &mut Vec<Box<dyn Addon>>,
        duty: Option<Duty>,
        value: Option<HandleId>,
        cut: Option<Why>,
    )
        requires idle { self.old.core.awaited ≡ None }
        requires unended { self.old.ending ≡ None }
        requires stands { self.old.core.env.frames ≢ [] }
        requires duty { duty ≡ duty_of self.old.core.env.frames }
        requires local { is_hub_duty duty ≡ false }
        requires enough { self.old.core.env.addons ≤ length addons.old.items }
        requires asks { cut ≡ Some Why.Asks → asks_made self.old.core.env.frames ≡ most_asks }
        ensures plans { TellSamePlans (λ b. plan b) addons.old.items addons.new.items }
        ensures seen { map (λ b. seen b) addons.new.items ≡ map (λ b. seen b) addons.old.items }
        ensures ended { self.new.core ≡ after_change (end_change value cut self.old.core.env) self.old.core }
        ensures unended { self.new.ending ≡ None }
        ensures begun { hub_begun self.new.begun ≡ hub_begun self.old.begun }
        ensures told { let before = map (λ b. regs b) addons.old.items in
            let after = map (λ b. regs b) addons.new.items in
            let caller = at_last_ask (tail self.old.core.env.frames) in
            ReplyIsNoted (map (λ b. plan b) addons.old.items) before caller (end_change value cut self.old.core.env).entry.reply after }
    {
        if duty.is_some() {
            let Some(standing) = self.begun.take() else {
                unreachable!();
            };
            self.core.end_duty(standing, cut);
            return;
        }
        let reply = self.core.leave(value, cut);
        let Some(caller) = self.core.frame() else {
            return;
        };
        // The call is the last ask that the caller made.
        let step = caller.asks.saturating_sub(1);
        note_at(addons, caller.addon as usize, caller.entry, step, &reply);
    }

    /// A turn where no frame stands: the next event, if it is one of the environment alone.
    fn event_turn(&mut self, addons: &mut Vec<Box<dyn Addon>>) -> LocalTurn
        requires unowed { pending_at_hub self.old ≡ false }
        requires alone { self.old.core.env.frames ≡ [] }
        requires enough { self.old.core.env.addons ≤ length addons.old.items }
        ensures plans { TellSamePlans (λ b. plan b) addons.old.items addons.new.items }
        ensures turn { result ≡ turn_after self.new self.old.core.env }
        ensures goes { let before = states_of (λ b. regs b) (λ b. seen b) addons.old.items in
            let after = states_of (λ b. regs b) (λ b. seen b) addons.new.items in
            TurnCameTo result (map (λ b. plan b) addons.old.items) self.old before self.new after }
        ensures unbegun { result ≢ LocalTurn.Made → next_ticket_info self.old.core.env ≡ None }
    {
        match next_event(&self.core) {
            NextEvent::Init(addon) => {
                self.core.begin_init(addon);
                LocalTurn::Made
            }
            NextEvent::Ticket => {
                self.begin_ticket(addons);
                LocalTurn::Made
            }
            NextEvent::Gone => {
                // `Gone` is no event of the hub, so no position is noted.
                self.core.advance(Phase::Gone, 0);
                LocalTurn::Made
            }
            NextEvent::OfHub if self.core.phase() == Phase::Gone => LocalTurn::Gone,
            NextEvent::OfHub | NextEvent::Exit => LocalTurn::NeedsHub,
        }
    }

    /// The next ticket begins its frame: its addon is given what it tells.
    fn begin_ticket(&mut self, addons: &mut Vec<Box<dyn Addon>>)
        requires unowed { pending_at_hub self.old ≡ false }
        requires alone { self.old.core.env.frames ≡ [] }
        requires next { IsNextEvent NextEvent.Ticket (local_choice self.old.core.env) }
        requires enough { self.old.core.env.addons ≤ length addons.old.items }
        ensures plans { TellSamePlans (λ b. plan b) addons.old.items addons.new.items }
        ensures made { let before = states_of (λ b. regs b) (λ b. seen b) addons.old.items in
            let after = states_of (λ b. regs b) (λ b. seen b) addons.new.items in
            IsMadeTurn (map (λ b. plan b) addons.old.items) self.old before self.new after }
    {
        let Some(due) = self.core.next_local() else {
            unreachable!();
        };
        let addon = due.info().addon as usize;
        let started = begin_at(addons, addon, due);
        keep(&mut self.begun, started);
    }
}

/// Whether it is a duty of the hub.
pub(crate) fn is_of_hub(duty: Option<Duty>) -> bool
    ensures { result ≡ is_hub_duty duty }
{
    match duty {
        None | Some(Duty::Ticket(_)) => false,
        Some(_) => true,
    }
}

/// Why a frame is cut that ends so, where it is.
pub(crate) fn cut_of(end: FrameEnd) -> Option<Why>
    ensures { result ≡ cut_at end }
{
    match end {
        FrameEnd::Leaves => None,
        FrameEnd::Cut(why) => Some(why),
    }
}

/// Keeps the duty whose frame stands, where none stood.
pub(crate) fn keep(begun: &mut Option<Begun>, started: Begun)
    requires { begun.old ≡ None }
    ensures { begun.new ≡ Some started }
{
    if let Some(earlier) = mem::replace(begun, Some(started)) {
        let _ = earlier.end();
        unreachable!();
    }
}
