//! One turn: of the environment, or of a thread or a worker.
ghost use Rattle.std.specs.Prelude.{◌≡◌, ◌<◌, ◌≤◌, false, length, map};
ghost use Rattle.std.specs.List.{All};
ghost use Rattle.addon_trait.specs.Addons.{TellSamePlans};
ghost use Rattle.env_loop.specs.ActorTurns.{IsActorOf, IsSameActor};
ghost use Rattle.stepper.specs.GivenTurns.{run_at, ActorTurns};
ghost use Rattle.stepper.specs.Stepping.{RunStands, EnvironmentSteps, ActorSteps, RestsAt};

use addon_trait::Addon;
use async_work::Job;
use env_loop::{ActorRun, ActorTurn, EnvRun, LocalTurn};
use shared_hub::{HubState, Naming};

/// The environment's turn: its own, and where it needs the hub then the one at the hub. It tells what the own turn came to.
pub(crate) fn environment_turn<J: Job, N: Naming>(
    env: &mut EnvRun,
    hub: &mut HubState<J, N>,
    addons: &mut Vec<Box<dyn Addon>>,
) -> LocalTurn
    requires stands { RunStands (run_at env.old hub.old (map (λ b. regs b) addons.old.items) (map (λ b. seen b) addons.old.items)) }
    requires enough { env.old.core.env.addons ≤ length addons.old.items }
    ensures plans { TellSamePlans (λ b. plan b) addons.old.items addons.new.items }
    ensures went { EnvironmentSteps N.numbers (map (λ b. plan b) addons.old.items) result
        (run_at env.old hub.old (map (λ b. regs b) addons.old.items) (map (λ b. seen b) addons.old.items))
        (run_at env.new hub.new (map (λ b. regs b) addons.new.items) (map (λ b. seen b) addons.new.items)) }
{
    hub.invariant();
    match env.local_turn(addons) {
        LocalTurn::Made => LocalTurn::Made,
        LocalTurn::NeedsHub => {
            let _ = env.hub_turn(hub, addons);
            hub.invariant();
            LocalTurn::NeedsHub
        }
        LocalTurn::Gone => LocalTurn::Gone,
    }
}

/// The turn of the thread or the worker at a place. It tells whether it made an entry: one that made none rests until the hub changes.
pub(crate) fn actor_turn<J: Job, N: Naming>(
    actors: &mut Vec<ActorRun<J>>,
    place: usize,
    hub: &mut HubState<J, N>,
) -> bool
    requires inside { place < length actors.old.items }
    requires stands { All (IsActorOf N.numbers hub.old) actors.old.items }
    ensures { ActorSteps N.numbers place result actors.old.items hub.old actors.new.items hub.new }
{
    hub.invariant();
    let made = take_turn(&mut actors[place], hub);
    hub.invariant();
    made
}

/// The turn of a thread or a worker: it executes the work that it started, and makes its next entry. It tells whether it made one.
fn take_turn<J: Job, N: Naming>(actor: &mut ActorRun<J>, hub: &mut HubState<J, N>) -> bool
    requires { IsActorOf N.numbers hub.old actor.old }
    ensures stands { IsActorOf N.numbers hub.new actor.new }
    ensures same { IsSameActor actor.old actor.new }
    ensures turn { ActorTurns N.numbers actor.old hub.old actor.new hub.new }
    ensures rests { result ≡ false → (hub.new ≡ hub.old) × RestsAt N.numbers hub.new actor.new }
{
    actor.between();
    matches!(actor.turn(hub), ActorTurn::Made)
}
