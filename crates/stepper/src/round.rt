//! The turns of a list, and those of a round.
ghost use Rattle.std.specs.Prelude.{◌≡◌, ◌≤◌, length, map, IsTrue};
ghost use Rattle.std.specs.List.{All};
ghost use Rattle.napi_types.specs.plain.Lists.{singleton};
ghost use Rattle.addon_trait.specs.Addons.{TellSamePlans};
ghost use Rattle.env_loop.specs.ActorTurns.{IsActorAt};
ghost use Rattle.stepper.specs.GivenTurns.{run_at, moment_of};
ghost use Rattle.stepper.specs.Stepping.{Stands, RestsAt, Steps, RoundSteps};

use crate::turn::{actor_turn, environment_turn};
use addon_trait::Addon;
use async_work::Job;
use env_loop::{ActorRun, EnvRun, LocalTurn};
use napi_types::Actor;
use shared_hub::{HubState, Naming};

/// Gives these turns, in their order. The workers stand behind so many threads.
pub(crate) fn give_turns<J: Job, N: Naming>(
    env: &mut EnvRun,
    hub: &mut HubState<J, N>,
    actors: &mut Vec<ActorRun<J>>,
    turns: &[Actor],
    addons: &mut Vec<Box<dyn Addon>>,
    threads: usize,
)
    requires stands { Stands N.numbers (moment_of (run_at env.old hub.old (map (λ b. regs b) addons.old.items) (map (λ b. seen b) addons.old.items)) actors.old.items) }
    requires enough { env.old.core.env.addons ≤ length addons.old.items }
    requires threads { threads ≡ N.numbers.threads }
    requires scheduled { All (IsActorAt N.numbers) turns.now }
    ensures plans { TellSamePlans (λ b. plan b) addons.old.items addons.new.items }
    ensures went { Steps N.numbers (map (λ b. plan b) addons.old.items) turns.now
        (moment_of (run_at env.old hub.old (map (λ b. regs b) addons.old.items) (map (λ b. seen b) addons.old.items)) actors.old.items)
        (moment_of (run_at env.new hub.new (map (λ b. regs b) addons.new.items) (map (λ b. seen b) addons.new.items)) actors.new.items) }
{
    for who in turns {
        give_turn(env, hub, actors, *who, addons, threads);
    }
}

/// Gives one of them its turn.
fn give_turn<J: Job, N: Naming>(
    env: &mut EnvRun,
    hub: &mut HubState<J, N>,
    actors: &mut Vec<ActorRun<J>>,
    who: Actor,
    addons: &mut Vec<Box<dyn Addon>>,
    threads: usize,
)
    requires stands { Stands N.numbers (moment_of (run_at env.old hub.old (map (λ b. regs b) addons.old.items) (map (λ b. seen b) addons.old.items)) actors.old.items) }
    requires enough { env.old.core.env.addons ≤ length addons.old.items }
    requires threads { threads ≡ N.numbers.threads }
    requires scheduled { IsActorAt N.numbers who }
    ensures plans { TellSamePlans (λ b. plan b) addons.old.items addons.new.items }
    ensures went { Steps N.numbers (map (λ b. plan b) addons.old.items) (singleton who)
        (moment_of (run_at env.old hub.old (map (λ b. regs b) addons.old.items) (map (λ b. seen b) addons.old.items)) actors.old.items)
        (moment_of (run_at env.new hub.new (map (λ b. regs b) addons.new.items) (map (λ b. seen b) addons.new.items)) actors.new.items) }
{
    match who {
        Actor::Env => {
            let _ = environment_turn(env, hub, addons);
        }
        Actor::Thread(thread) => {
            let _ = actor_turn(actors, thread as usize, hub);
        }
        Actor::Worker(worker) => {
            prove!(threads <= actors.len());
            let _ = actor_turn(actors, threads + worker as usize, hub);
        }
    }
}

/// Gives the turns of a round, unless the environment is gone. It tells whether it was.
///
/// `resting` tells whether all threads and workers have ended or wait. While the environment makes its entries alone the hub stays as it is, and so do they:
/// their turns would change nothing, and are passed over.
pub(crate) fn round<J: Job, N: Naming>(
    env: &mut EnvRun,
    hub: &mut HubState<J, N>,
    actors: &mut Vec<ActorRun<J>>,
    addons: &mut Vec<Box<dyn Addon>>,
    resting: &mut bool,
) -> bool
    requires stands { Stands N.numbers (moment_of (run_at env.old hub.old (map (λ b. regs b) addons.old.items) (map (λ b. seen b) addons.old.items)) actors.old.items) }
    requires enough { env.old.core.env.addons ≤ length addons.old.items }
    requires rest { IsTrue resting.old → All (RestsAt N.numbers hub.old) actors.old.items }
    ensures rest { IsTrue resting.new → All (RestsAt N.numbers hub.new) actors.new.items }
    ensures plans { TellSamePlans (λ b. plan b) addons.old.items addons.new.items }
    ensures went { RoundSteps N.numbers (map (λ b. plan b) addons.old.items) result
        (moment_of (run_at env.old hub.old (map (λ b. regs b) addons.old.items) (map (λ b. seen b) addons.old.items)) actors.old.items)
        (moment_of (run_at env.new hub.new (map (λ b. regs b) addons.new.items) (map (λ b. seen b) addons.new.items)) actors.new.items) }
{
    match environment_turn(env, hub, addons) {
        LocalTurn::Made => {
            if *resting {
                return false;
            }
        }
        LocalTurn::NeedsHub => {}
        LocalTurn::Gone => return true,
    }
    *resting = true;
    for place in 0..actors.len() {
        if actor_turn(actors, place, hub) {
            *resting = false;
        }
    }
    hub.invariant();
    false
}
