//! Several turns of the environment at the hub, one after another.
ghost use Rattle.std.specs.Prelude.{◌≡◌, ◌≢◌, ◌↔◌, ◌⊎◌, ◌<◌, ◌≤◌, ℕ, List, length, map, drop, true, false, None, Some, IsTrue};
ghost use Rattle.napi_types.specs.declared.entry.Actor.TheVariants as actor;
ghost use Rattle.napi_types.specs.declared.entry.Entry.{Entry};
ghost use Rattle.napi_types.specs.plain.Room.{is_full};
ghost use Rattle.napi_types.specs.scripts.Plans.{Plan};
ghost use Rattle.napi_types.specs.runs.Choice.{local_choice};
ghost use Rattle.addon_trait.specs.Addons.{TellSamePlans};
ghost use Rattle.env_core.specs.Sharing.{after_no_answer};
ghost use Rattle.env_core.specs.Standing.{machine_frame};
ghost use Rattle.shared_hub.specs.HubStates.{HubSeen, hub_room};
ghost use Rattle.shared_hub.specs.SharedTries.{given_by, MayFindNoMemory};
ghost use Rattle.env_loop.specs.Recording.{AddonStates, states_of};
ghost use Rattle.env_loop.specs.RecordedRuns.{pending_at_hub, FitsHub};
ghost use Rattle.env_loop.specs.FollowedRuns.{FollowsOn, FollowsOnAt};
ghost use Rattle.env_loop.specs.Turns.{event_turn, needs_hub, hub_event, IfCut, Awaits};
ghost use Rattle.env_loop.specs.Bursts.{asks_no_more, silent_end, is_of_hub as is_for_hub, hub_is_next, made_by, AddsEntriesOf, IsBurst, NothingPending, TurnsOn, StopsAtAsks};

use crate::run::{EnvRun, FrameEnd, HubTurn};
use crate::turn::{NextEvent, is_of_hub, next_event};
use addon_trait::Addon;
use async_work::Job;
use env_core::{EnvCore, StandingFrame};
use napi_types::{MOST_ASKS, Phase, Why};
use shared_hub::{HubState, Naming};

/// What a burst of turns at the hub comes to.
#[derive(Clone, Copy, Debug, PartialEq, Eq)]
pub struct Burst {
    /// How many entries of the history it made.
    pub made: u32,
    /// What its last turn came to.
    pub last: HubTurn,
}

impl EnvRun {
    /// Whether the next event is the hub's, whatever an addon may ask. It is where something is pending at the hub; where the innermost frame is that of
    /// one of the hub's duties and makes no ask more; and where no frame stands and the environment decides no event alone but the loop's end.
    pub fn hub_is_next(&self) -> bool
        ensures { result ≡ hub_is_next self.now }
    {
        if self.pending_at_hub() {
            return true;
        }
        match self.core.frame() {
            Some(frame) => is_of_hub(frame.duty) && makes_no_ask(&frame),
            None => is_event_of_hub(&self.core),
        }
    }

    /// Makes the environment's turns at the hub one after another, at most so many entries, from 1 to 64: as [`EnvRun::hub_turn`], where `local_turn`
    /// answers `NeedsHub`. It stops where the next event is not the hub's, where a call was stopped, and where there is nothing to do. No addon is asked.
    ///
    /// Whom its events give a reason to wake up is noted in the hub's state, and is rung once the turn of the lock is given back.
    ///
    /// The time is that of the hub's calls.
    pub fn hub_burst<J: Job, N: Naming>(
        &mut self,
        hub: &mut HubState<J, N>,
        addons: &mut Vec<Box<dyn Addon>>,
        most: u32,
    ) -> Burst
        requires some { 1 ≤ most }
        requires few { most ≤ 64 }
        requires needs { needs_hub self.old }
        requires fits { FitsHub self.old hub.old }
        requires enough { self.old.core.env.addons ≤ length addons.old.items }
        ensures plans { TellSamePlans (λ b. plan b) addons.old.items addons.new.items }

        // Each entry is one event of the environment's, and the history has grown by exactly so many.
        ensures few { result.made ≤ most }
        ensures made { AddsEntriesOf actor.Env result.made hub.old hub.new }

        // It stops where an addon is to be asked: each entry after the first came where the next event was the hub's, whatever an addon might have asked.
        // Where it made fewer than it might, the next event is not the hub's, or its last turn made none. After the most it made its last turn made one.
        ensures asks { let before = states_of (λ b. regs b) (λ b. seen b) addons.old.items in
            let after = states_of (λ b. regs b) (λ b. seen b) addons.new.items in
            StopsAtAsks N.numbers (map (λ b. plan b) addons.old.items) result.made
            (record { run = self.old; hub = hub.old; addons = before }) (record { run = self.new; hub = hub.new; addons = after }) }
        ensures stops { result.made < most → (hub_is_next self.new ≡ false) ⊎ (result.last ≢ HubTurn.Made) }
        ensures all { result.made ≡ most → result.last ≡ HubTurn.Made }
        ensures paid { result.last ≡ HubTurn.Made → (1 ≤ result.made) × NothingPending self.new }

        // Only the first turn may cut a call, as full exactly where the history has no room for it, and for want of memory only where it has and where the
        // call may want some. Its frame is then to end so.
        ensures cut { IfCut result.last (λ why. (result.made ≡ 0) × (why ≢ Why.Asks)
            × (self.new ≡ record self.old { core = after_no_answer (length hub.old.history) self.old.core; ending = Some (FrameEnd.Cut why) })) }
        ensures full { (result.last ≡ HubTurn.Cut Why.Full) ↔ Awaits self.old.core.awaited (λ c. IsTrue (is_full (hub_room N.numbers hub.old) c.call)) }
        ensures memory { result.last ≡ HubTurn.Cut Why.Memory
            → Awaits self.old.core.awaited (λ c. MayFindNoMemory (hub_room N.numbers hub.old) hub.old.hub actor.Env (given_by c) c.call) }

        // There is nothing to do only where nothing is pending, the next event is the hub's, and no event is next there.
        ensures nothing { result.last ≡ HubTurn.Nothing
            → (pending_at_hub self.new ≡ false) × (hub_is_next self.new ≡ true) × (hub_event self.new.core.env hub.new.hub ≡ None) }

        // A run that was followed goes on, over the history as it is then. It fits with the hub, and the journal, the addons and the limit stay. The
        // addons that are no addons of the script keep their registers, and all keep them where no entry was made.
        ensures goes { let before = states_of (λ b. regs b) (λ b. seen b) addons.old.items in
            let after = states_of (λ b. regs b) (λ b. seen b) addons.new.items in
            FollowsOnAt N.numbers (map (λ b. plan b) addons.old.items) self.old hub.old.history before self.new hub.new.history after }
        ensures fits { FitsHub self.new hub.new }
        ensures journal { self.new.core.journal ≡ self.old.core.journal }
        ensures addons { self.new.core.env.addons ≡ self.old.core.env.addons }
        ensures limit { self.new.core.limit ≡ self.old.core.limit }
        ensures others { let n = self.old.core.env.addons in
            drop n (map (λ b. regs b) addons.new.items) ≡ drop n (map (λ b. regs b) addons.old.items) }
        ensures same { result.made ≡ 0 → map (λ b. regs b) addons.new.items ≡ map (λ b. regs b) addons.old.items }
    {
        let first = self.hub_turn(hub, addons);
        if first != HubTurn::Made {
            return Burst {
                made: 0,
                last: first,
            };
        }
        let more = self.more_turns(hub, addons, most - 1);
        Burst {
            made: more.made + 1,
            last: more.last,
        }
    }

    /// Makes turns at the hub, at most so many entries, while the next event is the hub's.
    fn more_turns<J: Job, N: Naming>(
        &mut self,
        hub: &mut HubState<J, N>,
        addons: &mut Vec<Box<dyn Addon>>,
        most: u32,
    ) -> Burst
        requires paid { NothingPending self.old }
        requires fits { FitsHub self.old hub.old }
        requires enough { self.old.core.env.addons ≤ length addons.old.items }
        ensures plans { TellSamePlans (λ b. plan b) addons.old.items addons.new.items }
        ensures burst { let before = states_of (λ b. regs b) (λ b. seen b) addons.old.items in
            let after = states_of (λ b. regs b) (λ b. seen b) addons.new.items in
            IsBurst N.numbers (map (λ b. plan b) addons.old.items) result.made self.old hub.old before self.new hub.new after }
        ensures on { let before = states_of (λ b. regs b) (λ b. seen b) addons.old.items in
            let after = states_of (λ b. regs b) (λ b. seen b) addons.new.items in
            TurnsOn N.numbers (map (λ b. plan b) addons.old.items) result.made
            (record { run = self.old; hub = hub.old; addons = before }) (record { run = self.new; hub = hub.new; addons = after }) }
        ensures few { result.made ≤ most }
        ensures stops { result.made < most → (hub_is_next self.new ≡ false) ⊎ (result.last ≢ HubTurn.Made) }
        ensures all { result.made ≡ most → result.last ≡ HubTurn.Made }
        ensures paid { result.last ≡ HubTurn.Made → NothingPending self.new }
        ensures uncut { IfCut result.last (λ _. ⊥) }
        ensures nothing { result.last ≡ HubTurn.Nothing
            → (pending_at_hub self.new ≡ false) × (hub_is_next self.new ≡ true) × (hub_event self.new.core.env hub.new.hub ≡ None) }
    {
        for made in 0..most {
            if !self.hub_is_next() {
                return Burst {
                    made,
                    last: HubTurn::Made,
                };
            }
            let last = self.silent_turn(hub, addons);
            if last != HubTurn::Made {
                return Burst { made, last };
            }
        }
        Burst {
            made: most,
            last: HubTurn::Made,
        }
    }

    /// A turn at the hub, where the next event is the hub's. Where a frame stands its end is pending first.
    fn silent_turn<J: Job, N: Naming>(
        &mut self,
        hub: &mut HubState<J, N>,
        addons: &mut Vec<Box<dyn Addon>>,
    ) -> HubTurn
        requires comes { hub_is_next self.old ≡ true }
        requires paid { NothingPending self.old }
        requires fits { FitsHub self.old hub.old }
        requires enough { self.old.core.env.addons ≤ length addons.old.items }
        ensures plans { TellSamePlans (λ b. plan b) addons.old.items addons.new.items }
        ensures burst { let before = states_of (λ b. regs b) (λ b. seen b) addons.old.items in
            let after = states_of (λ b. regs b) (λ b. seen b) addons.new.items in
            IsBurst N.numbers (map (λ b. plan b) addons.old.items) (made_by result) self.old hub.old before self.new hub.new after }
        ensures paid { result ≡ HubTurn.Made → NothingPending self.new }
        ensures uncut { IfCut result (λ _. ⊥) }
        ensures nothing { result ≡ HubTurn.Nothing
            → (pending_at_hub self.new ≡ false) × (hub_is_next self.new ≡ true) × (hub_event self.new.core.env hub.new.hub ≡ None) }
    {
        self.owe_end();
        self.hub_turn(hub, addons)
    }

    /// The end of the innermost frame comes to be pending at the hub, where the next event is the hub's and a frame stands.
    fn owe_end(&mut self)
        requires comes { hub_is_next self.old ≡ true }
        requires paid { NothingPending self.old }
        ensures needs { needs_hub self.new }
        ensures core { self.new.core ≡ self.old.core }
        ensures begun { self.new.begun ≡ self.old.begun }
        ensures goes { (plans : List Plan) (all : AddonStates) (history : List Entry) → FollowsOn plans self.old history all self.new history all }
    {
        let Some(frame) = self.core.frame() else {
            return;
        };
        self.ending = Some(end_of(&frame));
    }
}

/// Whether a frame makes no ask more.
fn makes_no_ask(frame: &StandingFrame) -> bool
    ensures { result ≡ asks_no_more (machine_frame frame.now) }
{
    !(frame.makes_asks && frame.asks < MOST_ASKS)
}

/// How a frame ends that makes no ask more: it leaves, or it is cut for its asks where it has made all of them.
fn end_of(frame: &StandingFrame) -> FrameEnd
    ensures { result ≡ silent_end (machine_frame frame.now) }
{
    if frame.asks < MOST_ASKS {
        FrameEnd::Leaves
    } else {
        FrameEnd::Cut(Why::Asks)
    }
}

/// Whether the event is the hub's, or the end of the loop, that comes next where no frame stands.
fn is_event_of_hub(core: &EnvCore) -> bool
    requires { core.now.env.opened ≡ true }
    ensures { result ≡ is_for_hub (event_turn (local_choice core.now.env) core.now.env.phase) }
{
    match next_event(core) {
        NextEvent::OfHub => core.phase() != Phase::Gone,
        NextEvent::Exit => true,
        NextEvent::Init(_) | NextEvent::Ticket | NextEvent::Gone => false,
    }
}
