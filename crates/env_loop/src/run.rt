//! A running environment.
ghost use Rattle.std.specs.Prelude.{◌≡◌, ◌≢◌, ℕ, ◌<◌, ◌≤◌, ◌↔◌, List, [], length, map, drop, true, false, None, Some, IsTrue, IfSome};
ghost use Rattle.std.specs.Option.{option_to_list};
ghost use Rattle.napi_types.specs.declared.entry.Actor.TheVariants as actor;
ghost use Rattle.napi_types.specs.declared.entry.Entry.{Entry};
ghost use Rattle.napi_types.specs.plain.Room.{is_full};
ghost use Rattle.addon_trait.specs.Addons.{TellSamePlans};
ghost use Rattle.env_core.specs.Sharing.{after_no_answer};
ghost use Rattle.shared_hub.specs.HubStates.{HubSeen, hub_room};
ghost use Rattle.shared_hub.specs.SharedTries.{given_by, MayFindNoMemory};
ghost use Rattle.env_loop.specs.ActorRuns.{AddsEntryOf};
ghost use Rattle.env_loop.specs.Recording.{HasSeen, states_of};
ghost use Rattle.env_loop.specs.RecordedRuns.{IsOpened, opened_run, pending_at_hub, FitsHub, OneMore};
ghost use Rattle.env_loop.specs.FollowedRuns.{FollowsOn, FollowsOnAt};
ghost use Rattle.env_loop.specs.HubTurns.{SpentAtFinals};
ghost use Rattle.env_loop.specs.Turns.{turn_after, needs_hub, next_ticket_info, begins_at_hub, hub_event, IfCut, Awaits, OnlyInnermostChanges, OnlyPendingChanged, EndedBy};

use crate::turn::LocalTurn;
use addon_trait::Addon;
use async_work::Job;
use env_core::EnvCore;
use napi_types::{Begun, Phase, Record, Why};
use shared_hub::{HubState, Naming};
use std::marker::Model;

/// How a frame is to end, where the hub has to make its end, or has stopped its call.
#[derive(Clone, Copy, Debug, PartialEq, Eq)]
pub enum FrameEnd {
    /// It leaves.
    Leaves,
    /// It is cut, for this reason.
    Cut(Why),
}

/// What a turn of the environment at the hub comes out as.
#[derive(Clone, Copy, Debug, PartialEq, Eq)]
pub enum HubTurn {
    /// It made one entry of the history.
    Made,
    /// The hub stopped the call that it was to answer. No entry was made, and the frame ends so in its next turn.
    Cut(Why),
    /// There is nothing to do until a thread or a worker has done something. Nothing changed.
    Nothing,
}

/// An environment that runs. Its hub stands beside it. It has to be spent, by `retire` or `into_record`.
pub struct EnvRun {
    pub(crate) core: EnvCore,
    // The duty whose frame stands: it has begun, and ends with the frame.
    pub(crate) begun: Option<Begun>,
    // How the innermost frame is to end: at the hub, or, where the hub stopped its call, in the next turn.
    pub(crate) ending: Option<FrameEnd>,
}

impl Model for EnvRun {
    ghost use Rattle.env_loop.specs.RecordedRuns.{Run, IsRunning};

    ghost Value = { Run };

    ghost view = { λ run. record { core = run.core; begun = run.begun; ending = run.ending } };

    ghost invariant = { λ run. IsRunning run.core run.begun run.ending };
}

impl EnvRun {
    /// Runs an environment of which no event was made but its opening. It takes no memory.
    pub fn new(core: EnvCore) -> EnvRun
        requires { IsOpened core }
        ensures { result ≡ opened_run core }
    {
        EnvRun {
            core,
            begun: None,
            ending: None,
        }
    }

    /// Makes one turn: the next ask of the innermost frame, or the next event where no frame stands. `Made` is one entry
    /// more in the journal. `NeedsHub` is answered where the hub has to answer a call, to make the end of the frame of one of its duties or to make
    /// the next event, and again until it has made its turn. `Gone` is answered once the environment is gone.
    ///
    /// While something is pending at the hub nothing changes. No addon is asked then either, so each is asked once: a test shows that, and no clause.
    /// No turn reads what others have done since the environment's last turn at the hub.
    ///
    /// In the loop, until exit is asked, and after `finals` the lowest ticket that is due begins its frame, where no frame stands; between the end
    /// of the loop and the drain it is that of the hook that was added last. Its addon has then seen what it tells. The ticket ends with its frame.
    ///
    /// The first addons are those of the script, at least as many as the environment has. The time is that of the call, or of
    /// closing the scopes of the frame that ends.
    pub fn local_turn(&mut self, addons: &mut Vec<Box<dyn Addon>>) -> LocalTurn
        requires { self.old.core.env.addons ≤ length addons.old.items }
        ensures plans { TellSamePlans (λ b. plan b) addons.old.items addons.new.items }

        // What the turn comes to is told by the frames and the next event, and by what is pending after it.
        ensures turn { result ≡ turn_after self.new self.old.core.env }

        // A turn that was made left exactly one entry in the journal, which had room for it, and no end is pending after it.
        ensures made { result ≡ LocalTurn.Made → OneMore self.old.core.journal self.new.core.journal }
        ensures room { result ≡ LocalTurn.Made → length self.old.core.journal < self.old.core.limit }
        ensures paid { result ≡ LocalTurn.Made → self.new.ending ≡ None }

        // Every other turn changes at most what is pending. It changes nothing where something was pending before. A pending end never becomes another one.
        ensures stays { result ≢ LocalTurn.Made → pending_at_hub self.new ≡ false → self.new ≡ self.old }
        ensures owes { result ≢ LocalTurn.Made → OnlyPendingChanged self.old self.new }
        ensures once { IsTrue (pending_at_hub self.old) → self.new ≡ self.old }
        ensures free { pending_at_hub self.old ≡ false → pending_at_hub self.new ≡ true → self.old.ending ≡ None }
        ensures same { result ≢ LocalTurn.Made → map (λ b. regs b) addons.new.items ≡ map (λ b. regs b) addons.old.items }
        ensures unseen { result ≢ LocalTurn.Made → map (λ b. seen b) addons.new.items ≡ map (λ b. seen b) addons.old.items }

        // Where the end of a frame was pending and the hub is not to make it, the frame ended so.
        ensures ends { IfSome self.old.ending (λ how. pending_at_hub self.old ≡ false → EndedBy how self.old.core self.new.core) }

        // A run that was followed goes on over the same history. It fits with each hub with which it fitted, and the addons that are no addons
        // of the script keep their registers.
        ensures goes { let before = states_of (λ b. regs b) (λ b. seen b) addons.old.items in
            let after = states_of (λ b. regs b) (λ b. seen b) addons.new.items in
            (history : List Entry) → FollowsOn (map (λ b. plan b) addons.old.items) self.old history before self.new history after }
        ensures fits { (hub : HubSeen) → FitsHub self.old hub → FitsHub self.new hub }
        ensures others { let n = self.old.core.env.addons in
            drop n (map (λ b. regs b) addons.new.items) ≡ drop n (map (λ b. regs b) addons.old.items) }
        ensures addons { self.new.core.env.addons ≡ self.old.core.env.addons }
        ensures limit { self.new.core.limit ≡ self.old.core.limit }

        // The addon of a ticket that begins has seen what it tells, after what it saw before. No other addon has seen anything more.
        ensures seen { let before = map (λ b. seen b) addons.old.items in
            let after = map (λ b. seen b) addons.new.items in
            HasSeen before (option_to_list (next_ticket_info self.old.core.env)) after }

        // Only the addon of the innermost frame after the turn may have other registers than before.
        ensures untouched { let before = map (λ b. regs b) addons.old.items in
            let after = map (λ b. regs b) addons.new.items in
            result ≡ LocalTurn.Made → OnlyInnermostChanges self.old.core.env.frames self.new.core.env.frames before after }
    {
        self.turn(addons)
    }

    /// Makes the environment's turn at the hub, where `local_turn` answers `NeedsHub`: the answer to the call that is awaited; the end of the frame
    /// of one of the hub's duties; or the hub's next event. That is `go`, the begin of a duty's frame or another move, the end of the loop,
    /// because exit was asked or because nothing is left to do, or a step of the teardown.
    ///
    /// `Made` is one entry more in the history. `Cut` and `Nothing` make none. At `Made` and at `Cut` what others have done is taken in; at `Nothing`
    /// nothing changes.
    ///
    /// The hub is the one beside which the run has stood from its opening. The time is that of the hub's call.
    pub fn hub_turn<J: Job, N: Naming>(
        &mut self,
        hub: &mut HubState<J, N>,
        addons: &mut Vec<Box<dyn Addon>>,
    ) -> HubTurn
        requires needs { needs_hub self.old }
        requires fits { FitsHub self.old hub.old }
        requires enough { self.old.core.env.addons ≤ length addons.old.items }
        ensures plans { TellSamePlans (λ b. plan b) addons.old.items addons.new.items }

        // A turn that was made left exactly one entry of the environment's in the history.
        ensures made { result ≡ HubTurn.Made → AddsEntryOf actor.Env hub.old hub.new }
        ensures paid { result ≡ HubTurn.Made → (self.new.core.awaited ≡ None) × (self.new.ending ≡ None) }

        // Each other turn left the hub as it was. A call is cut as full exactly where the history has no room for it, and for want of memory only
        // where it has and where the call may want some; its frame is then to end so. Nothing is done exactly where nothing is pending and
        // no event is next, and then nothing changes.
        ensures hub { result ≢ HubTurn.Made → hub.new ≡ hub.old }
        ensures full { (result ≡ HubTurn.Cut Why.Full) ↔ Awaits self.old.core.awaited (λ c. IsTrue (is_full (hub_room N.numbers hub.old) c.call)) }
        ensures memory { result ≡ HubTurn.Cut Why.Memory
            → Awaits self.old.core.awaited (λ c. MayFindNoMemory (hub_room N.numbers hub.old) hub.old.hub actor.Env (given_by c) c.call) }
        ensures cut { IfCut result (λ why. (why ≢ Why.Asks)
            × (self.new ≡ record self.old { core = after_no_answer (length hub.old.history) self.old.core; ending = Some (FrameEnd.Cut why) })) }
        ensures nothing { (result ≡ HubTurn.Nothing) ↔ ((pending_at_hub self.old ≡ false) × (hub_event self.old.core.env hub.old.hub ≡ None)) }
        ensures stays { result ≡ HubTurn.Nothing → self.new ≡ self.old }
        ensures same { result ≢ HubTurn.Made → map (λ b. regs b) addons.new.items ≡ map (λ b. regs b) addons.old.items }

        // `finals` comes only where every thread and every worker has ended, and no work runs.
        ensures spent { SpentAtFinals hub.old.hub hub.new.hub }

        // A run that was followed goes on, over the history as it is then. It fits with the hub, and the journal, the addons and the limit stay.
        ensures goes { let before = states_of (λ b. regs b) (λ b. seen b) addons.old.items in
            let after = states_of (λ b. regs b) (λ b. seen b) addons.new.items in
            FollowsOnAt N.numbers (map (λ b. plan b) addons.old.items) self.old hub.old.history before self.new hub.new.history after }
        ensures fits { FitsHub self.new hub.new }
        ensures journal { self.new.core.journal ≡ self.old.core.journal }
        ensures addons { self.new.core.env.addons ≡ self.old.core.env.addons }
        ensures limit { self.new.core.limit ≡ self.old.core.limit }
        ensures others { let n = self.old.core.env.addons in
            drop n (map (λ b. regs b) addons.new.items) ≡ drop n (map (λ b. regs b) addons.old.items) }

        // The addon of a duty that begins has seen what it tells, after what it saw before. No other addon has seen anything more.
        ensures seen { let before = map (λ b. seen b) addons.old.items in
            let after = map (λ b. seen b) addons.new.items in
            HasSeen before (option_to_list (begins_at_hub self.old hub.old.hub)) after }

        // Only the addon of the innermost frame after the turn may have other registers than before.
        ensures untouched { let before = map (λ b. regs b) addons.old.items in
            let after = map (λ b. regs b) addons.new.items in
            result ≡ HubTurn.Made → OnlyInnermostChanges self.old.core.env.frames self.new.core.env.frames before after }
    {
        self.turn_at_hub(hub, addons)
    }

    /// Ends the run without an event, where no frame stands. It takes no memory.
    pub fn retire(self)
        requires { self.core.env.frames ≡ [] }
    {
        let EnvRun {
            core,
            begun,
            ending: _,
        } = self;
        let _journal = core.into_journal();
        none_stands(begun);
    }

    /// Hands out the journal of a run that came to its end, and the history of its hub. It takes no memory.
    pub fn into_record<J: Job, N: Naming>(self, hub: HubState<J, N>) -> Record
        requires { self.core.env.phase ≡ Phase.Gone }
        ensures journal { result.journal ≡ self.core.journal }
        ensures history { result.history ≡ hub.history }
    {
        let EnvRun {
            core,
            begun,
            ending: _,
        } = self;
        none_stands(begun);
        Record {
            journal: core.into_journal(),
            history: hub.into_history(),
        }
    }
}

/// Spends what a run holds of a duty whose frame stands, where none stands.
fn none_stands(begun: Option<Begun>)
    requires { begun ≡ None }
{
    if let Some(begun) = begun {
        let _ = begun.end();
        unreachable!();
    }
}
