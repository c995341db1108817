//! What a crew is made of: actors that may be let go, words, passes and places.
ghost use Rattle.std.specs.Prelude.{◌≡◌, ◌+◌, ◌<◌, ◌≤◌, ◌^◌, [], ◌∷◌, IfOk, map, vec_len, vec_capacity};
ghost use Rattle.std.specs.List.{All};
ghost use Rattle.env_loop.specs.ActorTurns.{unstarted_run, HoldsNoWork, IsUnstartedActor};
ghost use Rattle.runner.specs.Crews.{HasStartRoom};

use crate::start_room::StartRoom;
use crate::unstarted::Unstarted;
use async_work::Job;
use env_loop::{ActorRun, UnstartedActor};
use napi_types::NoMemory;
use shared_hub::{HubState, Naming};
use std::alloc::Global;
use std::sync::atomic::AtomicU64;
use turn_lock::Pass;

/// The actors of which no turn was made, each of which may be let go.
#[tactic(auto, using(crate::proofs::MadeCrews::unstarted_hold_no_work))]
pub(crate) fn idle_actors<J: Job>(
    alloc: Global,
    actors: Vec<ActorRun<J>>,
) -> Result<Vec<UnstartedActor>, NoMemory>
    requires { All IsUnstartedActor actors.items }
    ensures { IfOk result (λ idle. map (λ i. unstarted_run i) idle.items ≡ actors.items) }
{
    let Ok(mut idle) = Vec::with_capacity(alloc, actors.len()) else {
        retire_all(actors);
        return Err(NoMemory);
    };
    let mut actors = actors.into_iter();
    while let Some(actor) = actors.next() {
        idle.push_reserved(actor.into_unstarted());
    }
    actors.destroy_empty();
    Ok(idle)
}

/// Ends the values of actors that hold no work, without an event.
fn retire_all<J: Job>(mut actors: Vec<ActorRun<J>>)
    requires { All HoldsNoWork actors.items }
{
    while let Some(actor) = actors.pop() {
        actor.retire();
    }
    actors.destroy_empty();
}

/// So many words that are not set.
pub(crate) fn words_for(alloc: Global, len: usize) -> Result<Vec<AtomicU64>, NoMemory>
    ensures { IfOk result (λ words. vec_len words ≡ len) }
{
    let mut words = Vec::with_capacity(alloc, len)?;
    for _ in 0..len {
        words.push_reserved(AtomicU64::new(0));
    }
    Ok(words)
}

/// How many passes a hub needs that opens, for so many actors and the environment.
#[tactic(auto, using(crate::proofs::MadeCrews::few_actors))]
pub(crate) fn passes_for<J: Job, N: Naming>(state: &HubState<J, N>, actors: usize) -> u32
    requires actors { actors ≡ N.numbers.threads + N.numbers.workers }
    requires opens { state.now.history ≡ [] }
    ensures { result ≡ 1 + N.numbers.threads + N.numbers.workers }
{
    state.invariant();
    1 + actors as u32
}

/// The environment's pass, which is the first, and the actors with the others, in their order, in the places that are there for them.
pub(crate) fn with_passes(
    actors: Vec<UnstartedActor>,
    passes: Vec<Pass>,
    mut unstarted: Vec<Unstarted>,
) -> (Pass, Vec<Unstarted>)
    requires passes { vec_len passes ≡ 1 + vec_len actors }
    requires none { unstarted.items ≡ [] }
    requires room { vec_len actors ≤ vec_capacity unstarted }
    ensures actors { map (λ w. w.actor) result.1.items ≡ actors.items }
    ensures passes { result.0 ∷ map (λ w. w.pass) result.1.items ≡ passes.items }
{
    let mut passes = passes.into_iter();
    let first = passes.next().unwrap();
    for actor in actors {
        let pass = passes.next().unwrap();
        unstarted.push_reserved(Unstarted { actor, pass });
    }
    (first, unstarted)
}

/// Places for so many actors, and for one pass more.
pub(crate) fn places_for<J: Job, N: Naming>(
    alloc: Global,
    len: usize,
) -> Result<StartRoom<J, N>, NoMemory>
    requires { len < 2 ^ 32 }
    ensures { IfOk result (λ places. HasStartRoom len places) }
{
    let children = Vec::with_capacity(alloc, len)?;
    let passes = Vec::with_capacity(alloc, 1 + len)?;
    let strays = Vec::with_capacity(alloc, len)?;
    Ok(StartRoom {
        children,
        strays,
        passes,
    })
}

/// What a crew takes of memory beside its hub: its actors, a word for each, places for them with their passes, and places of what comes of them.
pub(crate) struct Equipment<J: Job, N: Naming> {
    pub(crate) idle: Vec<UnstartedActor>,
    pub(crate) words: Vec<AtomicU64>,
    pub(crate) unstarted: Vec<Unstarted>,
    pub(crate) places: StartRoom<J, N>,
}

/// Takes it for these actors. Where there is no memory they are ended without an event.
pub(crate) fn equipment_for<J: Job, N: Naming>(
    alloc: Global,
    actors: Vec<ActorRun<J>>,
) -> Result<Equipment<J, N>, NoMemory>
    requires fresh { All IsUnstartedActor actors.items }
    requires few { vec_len actors < 2 ^ 32 }
    ensures idle { IfOk result (λ e. map (λ i. unstarted_run i) e.idle.items ≡ actors.items) }
    ensures words { IfOk result (λ e. vec_len e.words ≡ vec_len e.idle) }
    ensures none { IfOk result (λ e. e.unstarted.items ≡ []) }
    ensures room { IfOk result (λ e. vec_len e.idle ≤ vec_capacity e.unstarted) }
    ensures places { IfOk result (λ e. HasStartRoom (vec_len e.idle) e.places) }
{
    let idle = idle_actors(alloc, actors)?;
    let words = words_for(alloc, idle.len())?;
    let unstarted = Vec::with_capacity(alloc, idle.len())?;
    let places = places_for(alloc, idle.len())?;
    Ok(Equipment {
        idle,
        words,
        unstarted,
        places,
    })
}
