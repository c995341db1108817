//! All actors of a run but the environment, with what they need to run on threads.
ghost use Rattle.std.specs.Prelude.{◌≡◌, ◌+◌, ◌≤◌, true, [], IfOk, length, map, drop, List};
ghost use Rattle.std.specs.List.{All, AllZip};
ghost use Rattle.addon_trait.specs.Addons.{TellSamePlans};
ghost use Rattle.shared_hub.specs.HubStates.{hub_seen};
ghost use Rattle.env_loop.specs.ActorTurns.{actor_of, actors_of, is_over, IsActorOf, IsUnstartedActor, IsSameActor};
ghost use Rattle.env_loop.specs.OpenedAndGone.{IsOpenedRun, EndsWhole};
ghost use Rattle.env_loop.specs.Recording.{states_of};
ghost use Rattle.env_loop.specs.RunsOverRows.{IsReplayed};
ghost use Rattle.env_loop.specs.declared.actor.ActorRun.{ActorRun};

use crate::closing::close;
use crate::making::{Equipment, equipment_for, passes_for, with_passes};
use crate::running::{Left, run_in_scope};
use crate::start_room::StartRoom;
use crate::unstarted::{Opened, Unstarted};
use addon_trait::Addon;
use async_work::Job;
use env_loop::{ActorRun, EnvRun};
use hub_lock::Hub;
use napi_types::{Gate, NoMemory, Record};
use shared_hub::{HubState, Naming};
use std::alloc::Global;
use std::marker::Model;
use std::mem;
use std::sync::Wait;
use std::sync::atomic::AtomicU64;
use std::thread::Threads;
use turn_lock::Pass;

/// The threads and workers of a run before their first turns, with the hub and with the memory that their starts, their joins and the close take.
/// Contracts see their runs.
pub struct Crew<J: Job, N: Naming> {
    alloc: Global,
    hub: Hub<J, N>,
    /// The environment's pass.
    first: Pass,
    unstarted: Vec<Unstarted>,
    /// A word for each of them: it is set where its start was refused.
    words: Vec<AtomicU64>,
    places: StartRoom<J, N>,
}

impl<J: Job, N: Naming> Model for Crew<J, N> {
    ghost use Rattle.std.specs.Prelude.{List, vec_len};
    ghost use Rattle.env_loop.specs.declared.actor.ActorRun.{ActorRun};
    ghost use Rattle.runner.specs.Crews.{runs_of, IsEquipped};

    ghost Value = { List (ActorRun J) };

    ghost view = { λ c. runs_of J c.unstarted.items };

    ghost invariant = { λ c. IsEquipped N.numbers c.hub c.first c.unstarted.items (vec_len c.words) c.places };
}

impl<J: Job, N: Naming> Crew<J, N> {
    /// Puts a hub that opens under its lock, and takes the memory of all starts, of the joins and of the close. Where there is none the actors are
    /// ended without an event. With the environment there are at most 64 actors.
    pub fn new(
        alloc: Global,
        state: HubState<J, N>,
        actors: Vec<ActorRun<J>>,
    ) -> Result<Crew<J, N>, NoMemory>
        requires opens { state.history ≡ [] }
        requires few { 1 + N.numbers.threads + N.numbers.workers ≤ 64 }
        requires order { map actor_of actors.items ≡ actors_of N.numbers }
        requires fresh { All IsUnstartedActor actors.items }
        ensures { IfOk result (λ crew. crew ≡ actors.items) }
    {
        let count = passes_for(&state, actors.len());
        let Ok(equipment) = equipment_for::<J, N>(alloc, actors) else {
            let _history = state.into_history();
            return Err(NoMemory);
        };
        let Equipment {
            idle,
            words,
            unstarted,
            places,
        } = equipment;
        let (hub, passes) = Hub::new(alloc, state, count)?;
        let (first, unstarted) = with_passes(idle, passes, unstarted);
        Ok(Crew {
            alloc,
            hub,
            first,
            unstarted,
            words,
            places,
        })
    }
}

impl<J: Job, N: Naming + Send + Sync> Crew<J, N> {
    /// Runs all of them to their ends: each thread and each worker on a thread of its own, where the system gives one, and the environment on this one. It
    /// closes the hub, and hands out the two lists. The starts, the joins and the close take no memory; calls of the run may want some, and are cut then.
    ///
    /// An actor for which the system gives no thread gets its turns from the environment's, and does not come to the gate.
    pub fn run<R: Threads + Wait + Sync, G: Gate>(
        self,
        rt: &R,
        env: EnvRun,
        addons: &mut Vec<Box<dyn Addon>>,
        gate: &G,
    ) -> Record
        requires opened { IsOpenedRun env }
        requires enough { env.core.env.addons ≤ length addons.old.items }
        ensures plans { TellSamePlans (λ b. plan b) addons.old.items addons.new.items }
        ensures led { IsReplayed N.numbers (hub_seen N.numbers result.history) }

        // What was followed from the opening came to its end in these two lists. The addons that are no addons of the script keep their registers.
        ensures ended { let before = states_of (λ b. regs b) (λ b. seen b) addons.old.items in
            let after = states_of (λ b. regs b) (λ b. seen b) addons.new.items in
            EndsWhole N.numbers (map (λ b. plan b) addons.old.items) env before result after }
        ensures others { let n = env.core.env.addons in
            drop n (map (λ b. regs b) addons.new.items) ≡ drop n (map (λ b. regs b) addons.old.items) }

        // Each thread made its script's calls, or a prefix of them where one stopped, and its end. Each worker's entries came by turns. All have ended.
        ensures actors { (last : List (ActorRun J)) × AllZip IsSameActor self last × All (IsActorOf N.numbers (hub_seen N.numbers result.history)) last
            × All (λ a. is_over a ≡ true) last }
    {
        let Crew {
            alloc,
            hub,
            first,
            unstarted,
            words,
            places,
        } = self;
        let taken = mem::replace(addons, Vec::new(alloc));
        let left = run_in_scope(
            rt,
            &hub,
            &words,
            gate,
            first,
            unstarted,
            places,
            Opened::of(env),
            taken,
        );
        let Left {
            env,
            addons: back,
            passes,
        } = left;
        *addons = back;
        close(hub, passes, env)
    }
}
