//! One turn of the environment at the hub: what is pending at it, or its next event.
ghost use Rattle.std.specs.Prelude.{◌≡◌, ◌≢◌, ◌↔◌, ◌<◌, ◌≤◌, List, [], length, map, Some, None, true, false};
ghost use Rattle.napi_types.specs.declared.entry.Cause.TheVariants as cause;
ghost use Rattle.napi_types.specs.declared.entry.LoopEnd.TheVariants as loop_end;
ghost use Rattle.napi_types.specs.parts.Frames.{duty_of, is_hub_duty};
ghost use Rattle.napi_types.specs.scripts.Plans.{Plan};
ghost use Rattle.napi_types.specs.runs.Choice.{local_choice};
ghost use Rattle.napi_types.specs.runs.Loop.{EndsLoop};
ghost use Rattle.addon_trait.specs.Addons.{TellSamePlans};
ghost use Rattle.shared_hub.specs.KeptHubs.{IsLedHub};
ghost use Rattle.env_loop.specs.Recording.{AddonStates, states_of};
ghost use Rattle.env_loop.specs.RecordedRuns.{pending_at_hub, FitsHub};
ghost use Rattle.env_loop.specs.HubTurns.{HubTurnCameTo, IsMadeHubTurn, DeliversAt};
ghost use Rattle.env_loop.specs.Turns.{needs_hub};

use crate::run::{EnvRun, FrameEnd, HubTurn};
use crate::turn::{NextEvent, cut_of, keep, next_event, why};
use addon_trait::{Addon, begin_at, note_at};
use async_work::Job;
use env_core::EnvCore;
use env_teardown::{TearStep, poll_into, teardown_step};
use napi_types::{Due, Phase, SharedCall};
use shared_hub::{HubState, Naming, Polled};

impl EnvRun {
    /// The turn at the hub. See [`EnvRun::hub_turn`].
    pub(crate) fn turn_at_hub<J: Job, N: Naming>(
        &mut self,
        hub: &mut HubState<J, N>,
        addons: &mut Vec<Box<dyn Addon>>,
    ) -> HubTurn
        requires needs { needs_hub self.old }
        requires fits { FitsHub self.old hub.old }
        requires enough { self.old.core.env.addons ≤ length addons.old.items }
        ensures plans { TellSamePlans (λ b. plan b) addons.old.items addons.new.items }
        ensures turn { let before = states_of (λ b. regs b) (λ b. seen b) addons.old.items in
            let after = states_of (λ b. regs b) (λ b. seen b) addons.new.items in
            HubTurnCameTo N.numbers result (map (λ b. plan b) addons.old.items) self.old hub.old before self.new hub.new after }
    {
        hub.invariant();
        if let Some(call) = self.core.awaited() {
            return self.call_turn(hub, addons, &call);
        }
        if let Some(end) = self.ending {
            self.end_at_hub(hub, end);
            return HubTurn::Made;
        }
        match self.core.phase() {
            Phase::Init => {
                hub.go();
                self.core.advance(Phase::Live, position(hub));
                HubTurn::Made
            }
            Phase::Live => self.loop_turn(hub, addons),
            _ => self.teardown_turn(hub, addons),
        }
    }

    /// The hub answers the call that is awaited, whose frame's addon is told the reply; or it stops it, and the frame is to be cut.
    fn call_turn<J: Job, N: Naming>(
        &mut self,
        hub: &mut HubState<J, N>,
        addons: &mut Vec<Box<dyn Addon>>,
        call: &SharedCall,
    ) -> HubTurn
        requires awaited { self.old.core.awaited ≡ Some call.now }
        requires led { IsLedHub N.numbers hub.old }
        requires fits { FitsHub self.old hub.old }
        requires enough { self.old.core.env.addons ≤ length addons.old.items }
        ensures plans { TellSamePlans (λ b. plan b) addons.old.items addons.new.items }
        ensures turn { let before = states_of (λ b. regs b) (λ b. seen b) addons.old.items in
            let after = states_of (λ b. regs b) (λ b. seen b) addons.new.items in
            HubTurnCameTo N.numbers result (map (λ b. plan b) addons.old.items) self.old hub.old before self.new hub.new after }
    {
        let Some(frame) = self.core.frame() else {
            unreachable!();
        };
        match hub.env_shared(call) {
            Ok(reply) => {
                self.core.settle(reply, position(hub));
                note_at(
                    addons,
                    frame.addon as usize,
                    frame.entry,
                    frame.asks,
                    &reply,
                );
                HubTurn::Made
            }
            Err(status) => {
                let cause = why(status);
                self.core.unsettle(position(hub));
                self.ending = Some(FrameEnd::Cut(cause));
                HubTurn::Cut(cause)
            }
        }
    }

    /// The frame of a duty of the hub ends so, and the duty with it.
    fn end_at_hub<J: Job, N: Naming>(&mut self, hub: &mut HubState<J, N>, end: FrameEnd)
        requires ending { self.old.ending ≡ Some end }
        requires idle { self.old.core.awaited ≡ None }
        requires of_hub { is_hub_duty (duty_of self.old.core.env.frames) ≡ true }
        requires led { IsLedHub N.numbers hub.old }
        requires fits { FitsHub self.old hub.old }
        ensures turn { (plans : List Plan) → (all : AddonStates) → IsMadeHubTurn N.numbers plans self.old hub.old all self.new hub.new all }
    {
        let Some(begun) = self.begun.take() else {
            unreachable!();
        };
        let told = self.core.leave_hub_frame(cut_of(end), position(hub) + 1);
        self.ending = None;
        hub.end_frame(begun, told);
    }

    /// The hub's next event in the loop: its next move, unless exit was asked, or else the loop's end.
    fn loop_turn<J: Job, N: Naming>(
        &mut self,
        hub: &mut HubState<J, N>,
        addons: &mut Vec<Box<dyn Addon>>,
    ) -> HubTurn
        requires unowed { pending_at_hub self.old ≡ false }
        requires needs { needs_hub self.old }
        requires live { self.old.core.env.phase ≡ Phase.Live }
        requires led { IsLedHub N.numbers hub.old }
        requires fits { FitsHub self.old hub.old }
        requires enough { self.old.core.env.addons ≤ length addons.old.items }
        ensures plans { TellSamePlans (λ b. plan b) addons.old.items addons.new.items }
        ensures turn { let before = states_of (λ b. regs b) (λ b. seen b) addons.old.items in
            let after = states_of (λ b. regs b) (λ b. seen b) addons.new.items in
            HubTurnCameTo N.numbers result (map (λ b. plan b) addons.old.items) self.old hub.old before self.new hub.new after }
    {
        let exit = is_exit(&self.core);
        if !exit {
            match poll_into(&mut self.core, hub) {
                Polled::Begin(due, _) => {
                    self.deliver(hub, addons, due);
                    return HubTurn::Made;
                }
                Polled::Closed(_) | Polled::Finished(_) => return HubTurn::Made,
                Polled::Nothing => {}
            }
        }
        let None = hub.loop_end(exit, false) else {
            self.core.advance(Phase::Hooks, position(hub));
            return HubTurn::Made;
        };
        HubTurn::Nothing
    }

    /// The hub's next event after the loop.
    fn teardown_turn<J: Job, N: Naming>(
        &mut self,
        hub: &mut HubState<J, N>,
        addons: &mut Vec<Box<dyn Addon>>,
    ) -> HubTurn
        requires unowed { pending_at_hub self.old ≡ false }
        requires needs { needs_hub self.old }
        requires later { (self.old.core.env.phase ≢ Phase.Init) × (self.old.core.env.phase ≢ Phase.Live) }
        requires led { IsLedHub N.numbers hub.old }
        requires fits { FitsHub self.old hub.old }
        requires enough { self.old.core.env.addons ≤ length addons.old.items }
        ensures plans { TellSamePlans (λ b. plan b) addons.old.items addons.new.items }
        ensures turn { let before = states_of (λ b. regs b) (λ b. seen b) addons.old.items in
            let after = states_of (λ b. regs b) (λ b. seen b) addons.new.items in
            HubTurnCameTo N.numbers result (map (λ b. plan b) addons.old.items) self.old hub.old before self.new hub.new after }
    {
        match teardown_step(&mut self.core, hub) {
            TearStep::Moved => HubTurn::Made,
            TearStep::Begin(due, _) => {
                self.deliver(hub, addons, due);
                HubTurn::Made
            }
            TearStep::Nothing => HubTurn::Nothing,
            TearStep::LocalTurn => unreachable!(),
        }
    }

    /// The frame of a duty of the hub begins, whose begin stands last in the history: its addon is given what it tells.
    fn deliver<J: Job, N: Naming>(
        &mut self,
        hub: &HubState<J, N>,
        addons: &mut Vec<Box<dyn Addon>>,
        due: Due,
    )
        requires unowed { pending_at_hub self.old ≡ false }
        requires alone { self.old.core.env.frames ≡ [] }
        requires hub { is_hub_duty (Some due.duty) ≡ true }
        requires uncalled { due.cause ≢ cause.Call }
        requires there { due.addon < self.old.core.env.addons }
        requires lasts { self.old.core.env.phase ≢ Phase.Gone }
        requires noted { self.old.core.position ≤ length hub.now.history }
        requires enough { self.old.core.env.addons ≤ length addons.old.items }
        ensures plans { TellSamePlans (λ b. plan b) addons.old.items addons.new.items }
        ensures began { let before = states_of (λ b. regs b) (λ b. seen b) addons.old.items in
            let after = states_of (λ b. regs b) (λ b. seen b) addons.new.items in
            DeliversAt due (length hub.now.history) self.old before self.new after }
    {
        let addon = due.info().addon as usize;
        self.core.enter_hub_frame(due.info(), position(hub));
        let started = begin_at(addons, addon, due);
        keep(&mut self.begun, started);
    }
}

/// Whether the next event is the end of the loop, because exit was asked.
fn is_exit(core: &EnvCore) -> bool
    requires { core.now.env.opened ≡ true }
    ensures { (result ≡ true) ↔ (local_choice core.now.env ≡ Some (EndsLoop loop_end.Exit)) }
{
    matches!(next_event(core), NextEvent::Exit)
}

/// The position of what comes next: the length of the history.
fn position<J: Job, N: Naming>(hub: &HubState<J, N>) -> u64
    ensures { result ≡ length hub.now.history }
{
    hub.history().len() as u64
}
