//! Whose turn it is.
ghost use Rattle.std.specs.Prelude.{◌≡◌, ◌++◌, map};
ghost use Rattle.shared_hub.specs.declared.naming.Numbers.{Numbers};
ghost use Rattle.env_loop.specs.ActorTurns.{actor_of};
ghost use Rattle.stepper.specs.TakingPart.{actors_of, turns_of};

use async_work::Job;
use env_loop::ActorRun;
use napi_types::Actor;

/// The turns of a schedule before its first one of the environment, which is its opening, and those after it.
pub(crate) fn around_opening(schedule: &[Actor]) -> (&[Actor], &[Actor])
    ensures { turns_of schedule.now ≡ result.0.now ++ result.1.now }
{
    for (place, who) in schedule.iter().enumerate() {
        if *who == Actor::Env {
            return (&schedule[..place], &schedule[place + 1..]);
        }
    }
    (schedule, &[])
}

/// How many of the actors are threads.
pub(crate) fn threads_among<J: Job>(actors: &[ActorRun<J>]) -> usize
    ensures { (n : Numbers) → map actor_of actors.now ≡ actors_of n → result ≡ n.threads }
{
    let mut threads = 0;
    for actor in actors {
        if let ActorRun::OfThread(_) = actor {
            threads += 1;
        }
    }
    threads
}
