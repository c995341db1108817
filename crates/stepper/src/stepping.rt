//! Turns until the environment is gone.
ghost use Rattle.std.specs.Prelude.{◌≡◌, ◌≤◌, ℕ, [], ◌++◌, length, map, drop, true, List};
ghost use Rattle.std.specs.List.{All, AllZip};
ghost use Rattle.napi_types.specs.declared.lists.Record.{Record};
ghost use Rattle.addon_trait.specs.Addons.{TellSamePlans};
ghost use Rattle.shared_hub.specs.HubStates.{hub_seen};
ghost use Rattle.env_loop.specs.ActorTurns.{actor_of, is_over, IsActorAt, IsActorOf, IsUnstartedActor, IsSameActor};
ghost use Rattle.env_loop.specs.OpenedAndGone.{IsOpenedRun, EndsWhole};
ghost use Rattle.env_loop.specs.FollowedRuns.{FollowsOnAt};
ghost use Rattle.env_loop.specs.Recording.{states_of};
ghost use Rattle.stepper.specs.TakingPart.{actors_of, turns_of, rounds_of};
ghost use Rattle.stepper.specs.GivenTurns.{run_at, moment_of, TurnsThrough};
ghost use Rattle.stepper.specs.ListTurns.{AroseWhole};

use crate::order::{around_opening, threads_among};
use crate::round::{give_turns, round};
use addon_trait::Addon;
use async_work::Job;
use env_loop::{ActorRun, EnvRun};
use napi_types::{Actor, Phase};
use shared_hub::{HubState, Naming};

/// Gives turns to the environment, the threads and the workers until the environment is gone: first those of the schedule, in their order, and then rounds of
/// the environment, the threads rising and the workers rising.
///
/// The environment's first turn of the schedule is its opening, which is made already. A turn adds at most one entry. One of an actor that waits, has nothing
/// to do or has ended adds none, and neither does one after `gone`. A worker executes its job at the beginning of the turn in which it finishes.
///
/// No turn was made before but that opening. It always returns: each round before `gone` fills a place of the journal or of the history, or a call is stopped.
pub fn step_all<J: Job, N: Naming>(
    env: &mut EnvRun,
    hub: &mut HubState<J, N>,
    actors: &mut Vec<ActorRun<J>>,
    schedule: &[Actor],
    addons: &mut Vec<Box<dyn Addon>>,
)
    requires opened { IsOpenedRun env.old }
    requires empty { hub.old ≡ hub_seen N.numbers [] }
    requires order { map actor_of actors.old.items ≡ actors_of N.numbers }
    requires fresh { All IsUnstartedActor actors.old.items }
    requires scheduled { All (IsActorAt N.numbers) schedule.now }
    requires enough { env.old.core.env.addons ≤ length addons.old.items }
    ensures plans { TellSamePlans (λ b. plan b) addons.old.items addons.new.items }
    ensures gone { env.new.core.env.phase ≡ Phase.Gone }

    // All entries arose by these turns, in this order: those of the schedule, and then those of so many rounds.
    ensures turns { (rounds : ℕ) × TurnsThrough N.numbers (map (λ b. plan b) addons.old.items) (turns_of schedule.now ++ rounds_of N.numbers rounds)
        (moment_of (run_at env.old hub.old (map (λ b. regs b) addons.old.items) (map (λ b. seen b) addons.old.items)) actors.old.items)
        (moment_of (run_at env.new hub.new (map (λ b. regs b) addons.new.items) (map (λ b. seen b) addons.new.items)) actors.new.items) }

    // The two lists show it: each turn added an entry of its actor to one of them, or none where the actor could not go on.
    ensures arose { let before = states_of (λ b. regs b) (λ b. seen b) addons.old.items in
        let left : Record = record { journal = env.new.core.journal; history = hub.new.history } in
        AroseWhole N.numbers (map (λ b. plan b) addons.old.items) schedule.now env.old before actors.old.items left }

    // A run that was followed from its opening goes on, and came to its end in these two lists, in which nobody is lost. The addons that are no addons of the
    // script keep their registers.
    ensures goes { let before = states_of (λ b. regs b) (λ b. seen b) addons.old.items in
        let after = states_of (λ b. regs b) (λ b. seen b) addons.new.items in
        FollowsOnAt N.numbers (map (λ b. plan b) addons.old.items) env.old [] before env.new hub.new.history after }
    ensures ended { let before = states_of (λ b. regs b) (λ b. seen b) addons.old.items in
        let after = states_of (λ b. regs b) (λ b. seen b) addons.new.items in
        let left : Record = record { journal = env.new.core.journal; history = hub.new.history } in
        EndsWhole N.numbers (map (λ b. plan b) addons.old.items) env.old before left after }
    ensures others { let n = env.old.core.env.addons in
        drop n (map (λ b. regs b) addons.new.items) ≡ drop n (map (λ b. regs b) addons.old.items) }
    ensures addons { env.new.core.env.addons ≡ env.old.core.env.addons }
    ensures limit { env.new.core.limit ≡ env.old.core.limit }

    // Each thread made its script's calls, or a prefix of them where one stopped, and its end. Each worker's entries came by turns. All have ended.
    ensures stands { All (IsActorOf N.numbers hub.new) actors.new.items }
    ensures same { AllZip IsSameActor actors.old.items actors.new.items }
    ensures over { All (λ a. is_over a ≡ true) actors.new.items }
{
    let threads = threads_among(actors);
    let (before, after) = around_opening(schedule);
    give_turns(env, hub, actors, before, addons, threads);
    give_turns(env, hub, actors, after, addons, threads);
    let mut resting = false;
    'rounds: loop {
        if round(env, hub, actors, addons, &mut resting) {
            hub.invariant();
            return;
        }
    }
}
