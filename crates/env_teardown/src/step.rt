//! One move of the hub, and one step of the teardown.
ghost use Rattle.std.specs.Prelude.{◌≡◌, ◌≢◌, ◌↔◌, ℕ, length, true, false, Some, None, IfSome, IsTrue, option_map};
ghost use Rattle.napi_types.specs.declared.duties.DueInfo.{DueInfo};
ghost use Rattle.napi_types.specs.hub.Hub.{IsStageOf};
ghost use Rattle.napi_types.specs.hub.HubEvents.{may_move};
ghost use Rattle.napi_types.specs.hub.HubMoves.{Delivers, Closes, Finishes, hub_move};
ghost use Rattle.napi_types.specs.runs.Choice.{hub_choice};
ghost use Rattle.napi_types.specs.runs.Loop.{Moves, Abandons, Drains, FinalsCome};
ghost use Rattle.shared_hub.specs.HubStates.{KeepsStage};
ghost use Rattle.shared_hub.specs.HubTries.{polled_move, AddsMove, IfBegun, unspent_job};
ghost use Rattle.env_teardown.specs.TeardownSteps.{is_in_teardown, is_local_turn, tear_event, phase_after, AddsEvent, IsStepOf, IfBegins};

use addon_trait::Phased;
use async_work::Job;
use napi_types::{Due, Phase};
use shared_hub::{HubStage, HubState, Naming, Polled};

/// What a step of the teardown comes to. One that begins a frame has to be spent.
pub enum TearStep<J: Job> {
    /// The hub made its next event, and the core has taken it in.
    Moved,
    /// The frame of a duty begins, which stands in the hub; the core is as before. The job is there where the duty is the completion
    /// of a work that was cancelled before it started.
    Begin(Due, Option<J>),
    /// There is nothing to do until a thread or a worker has done something. It comes exactly in Drain where nothing is finished, no function has
    /// anything to do, and a work runs or an outside actor has not ended; and in Hooks, where no hook is left to begin and one is waiting,
    /// nothing is finished, no function has anything to do, and a thread has not ended, a work runs, or one is queued and there are workers.
    Nothing,
    /// The environment's turn is next: the frame of a ticket, or `gone`.
    LocalTurn,
}

/// Makes the hub's next move, and takes it into the core: where a function closes or finishes the core takes that in, at the position just after
/// the move's entry. The result is that of [`HubState::poll`].
///
/// In logarithmic time over all moves. It takes no memory.
pub fn poll_into<P: Phased, J: Job, N: Naming>(core: &mut P, hub: &mut HubState<J, N>) -> Polled<J>
    requires moving { IsTrue (may_move hub.old.hub) }

    // The hub makes its next move, which adds its entry to the history. Where it has none it is as before. It stays at its stage.
    ensures taken { polled_move result ≡ hub_move hub.old.hub }
    ensures event { AddsMove hub.old result hub.new }
    ensures keeps { KeepsStage hub.old.hub hub.new.hub }
    ensures unspent { IfBegun result (λ due job. option_map J.spec job ≡ unspent_job hub.old.hub.pool due) }

    // The core takes it in, at the history's length. Where a frame begins, or there is no move, it is as before.
    ensures closed { (n : ℕ) → hub_move hub.old.hub ≡ Some (Closes n) → P.moves core.old (length hub.new.history) core.new }
    ensures finished { (n : ℕ) → hub_move hub.old.hub ≡ Some (Finishes n)
        → P.finishes core.old (record { 0 = n }) (length hub.new.history) core.new }
    ensures begun { (due : DueInfo) → hub_move hub.old.hub ≡ Some (Delivers due) → core.new ≡ core.old }
    ensures nothing { hub_move hub.old.hub ≡ None → core.new ≡ core.old }

    // No move changes the core's phase, whether a ticket is next, or whether a frame of the environment's own stands.
    ensures phase { P.phase core.new ≡ P.phase core.old }
    ensures local { P.has_local core.new ≡ P.has_local core.old }
    ensures stands { P.stands core.new ≡ P.stands core.old }
{
    let polled = hub.poll();
    match &polled {
        Polled::Closed(_) => core.moved(position(hub)),
        Polled::Finished(function) => core.function_finished(*function, position(hub)),
        Polled::Begin(..) | Polled::Nothing => {}
    }
    polled
}

/// Makes the hub's next event after the loop, where one is next. Once no hook is left to begin, and while asynchronous ones wait, that is the
/// hub's next move, and `abandon` where it has none and nobody is left who could give it one. Where none waits it is `drain`. Then come the
/// moves that are left to the hub, and `finals` once there are none and every other actor has ended. The core takes it in, at the position
/// just after its entry.
///
/// The phase is Hooks, Drain or Finals and is the one that the hub has come to, and no frame stands. It takes no memory. `drain` takes time
/// linear in the works that waited and in the functions, a move logarithmic time over all moves.
pub fn teardown_step<P: Phased, J: Job, N: Naming>(
    core: &mut P,
    hub: &mut HubState<J, N>,
) -> TearStep<J>
    requires teardown { is_in_teardown (P.phase core.old) ≡ true }
    requires shown { IsStageOf (P.phase core.old) hub.old.hub.stage }
    requires alone { P.stands core.old ≡ false }
    requires ended { hub.old.hub.standing ≡ None }

    // The environment's turn is told by the phase, and by whether a ticket is next. Else the step is that of the event that the hub chooses,
    // and where it chooses none there is nothing to do.
    ensures local { (result ≡ TearStep.LocalTurn) ↔ (is_local_turn (P.phase core.old) (P.has_local core.old) ≡ true) }
    ensures step { let next = tear_event (P.phase core.old) (P.has_local core.old) (P.waiting core.old) hub.old.hub in
        IfSome next (λ event. IsStepOf event result) }
    ensures nothing { let local = is_local_turn (P.phase core.old) (P.has_local core.old) in
        (result ≡ TearStep.Nothing) ↔ ((local ≡ false) × (hub_choice hub.old.hub (P.waiting core.old) ≡ None)) }
    ensures unspent { IfBegins result (λ due job. option_map J.spec job ≡ unspent_job hub.old.hub.pool due) }

    // The event adds its entry to the history; where there is none the hub is as before.
    ensures event { let next = tear_event (P.phase core.old) (P.has_local core.old) (P.waiting core.old) hub.old.hub in
        IfSome next (λ event. AddsEvent (P.waiting core.old) hub.old event hub.new) }
    ensures hub { tear_event (P.phase core.old) (P.has_local core.old) (P.waiting core.old) hub.old.hub ≡ None → hub.new ≡ hub.old }

    // The core takes it in, at the history's length. Where a frame begins, or there is no event, it is as before.
    ensures abandoned { let next = tear_event (P.phase core.old) (P.has_local core.old) (P.waiting core.old) hub.old.hub in
        next ≡ Some Abandons → P.abandons core.old (length hub.new.history) core.new }
    ensures drained { let next = tear_event (P.phase core.old) (P.has_local core.old) (P.waiting core.old) hub.old.hub in
        next ≡ Some Drains → P.advances core.old Phase.Drain (length hub.new.history) core.new }
    ensures finals { let next = tear_event (P.phase core.old) (P.has_local core.old) (P.waiting core.old) hub.old.hub in
        next ≡ Some FinalsCome → P.advances core.old Phase.Finals (length hub.new.history) core.new }
    ensures closed { let next = tear_event (P.phase core.old) (P.has_local core.old) (P.waiting core.old) hub.old.hub in
        (n : ℕ) → next ≡ Some (Moves (Closes n)) → P.moves core.old (length hub.new.history) core.new }
    ensures finished { let next = tear_event (P.phase core.old) (P.has_local core.old) (P.waiting core.old) hub.old.hub in
        (n : ℕ) → next ≡ Some (Moves (Finishes n)) → P.finishes core.old (record { 0 = n }) (length hub.new.history) core.new }
    ensures core { result ≢ TearStep.Moved → core.new ≡ core.old }

    // The phase is still the one that the hub has come to, and no frame of the environment's own stands.
    ensures phase { let next = tear_event (P.phase core.old) (P.has_local core.old) (P.waiting core.old) hub.old.hub in
        P.phase core.new ≡ phase_after next (P.phase core.old) }
    ensures shown { IsStageOf (P.phase core.new) hub.new.hub.stage }
    ensures alone { P.stands core.new ≡ false }
{
    match core.phase() {
        Phase::Hooks if core.has_local() => TearStep::LocalTurn,
        // Once those that waited were abandoned the drain comes.
        Phase::Hooks if core.waiting() == 0 || !hub.is_at(HubStage::LoopEnded) => {
            let _cancelled = hub.drain();
            core.advance(Phase::Drain, position(hub));
            TearStep::Moved
        }
        Phase::Hooks | Phase::Drain => match poll_into(core, hub) {
            Polled::Begin(due, job) => TearStep::Begin(due, job),
            Polled::Closed(_) | Polled::Finished(_) => TearStep::Moved,
            Polled::Nothing if core.phase() == Phase::Hooks => {
                if !hub.abandon(core.waiting()) {
                    return TearStep::Nothing;
                }
                core.abandoned(position(hub));
                TearStep::Moved
            }
            Polled::Nothing => {
                if !hub.finals() {
                    return TearStep::Nothing;
                }
                core.advance(Phase::Finals, position(hub));
                TearStep::Moved
            }
        },
        _ => TearStep::LocalTurn,
    }
}

/// The position just after the entries that are there: how many they are.
fn position<J: Job, N: Naming>(hub: &HubState<J, N>) -> u64
    ensures { result ≡ length hub.now.history }
{
    hub.history().len() as u64
}
