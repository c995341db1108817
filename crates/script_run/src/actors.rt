//! The threads and the workers of a run: before their first turns, and after their last ones.
ghost use Rattle.std.specs.Prelude.{◌≡◌, ◌≤◌, ◌+◌, ◌++◌, length, vec_len, vec_capacity, IfOk};
ghost use Rattle.std.specs.List.{All};
ghost use Rattle.env_loop.specs.ActorTurns.{HoldsNoWork};
ghost use Rattle.script_run.specs.ScriptActors.{IsThreadScript, thread_runs, worker_runs};

use env_loop::ActorRun;
use napi_types::{NoMemory, OpLists};
use script_addon::ScriptJob;
use std::alloc::Global;

/// The threads with these operations rising, and then so many workers rising, before their first turns. Want of memory comes before one is made.
pub(crate) fn actor_runs(
    alloc: Global,
    threads: OpLists,
    workers: u32,
) -> Result<Vec<ActorRun<ScriptJob>>, NoMemory>
    requires threads { length threads ≤ 16 }
    requires scripts { All IsThreadScript threads }
    requires workers { workers ≤ 8 }
    ensures { IfOk result (λ actors. actors.items ≡ thread_runs 0 threads ++ worker_runs workers) }
{
    let most = threads.items().len() + workers as usize;
    let mut actors = Vec::with_capacity(alloc, most)?;
    add_threads(&mut actors, threads);
    add_workers(&mut actors, workers);
    Ok(actors)
}

/// Adds the threads, where there is room for them.
fn add_threads(actors: &mut Vec<ActorRun<ScriptJob>>, threads: OpLists)
    requires few { length threads ≤ 16 }
    requires scripts { All IsThreadScript threads }
    requires room { vec_len actors.old + length threads ≤ vec_capacity actors.old }
    ensures added { actors.new.items ≡ actors.old.items ++ thread_runs 0 threads }
    ensures len { vec_len actors.new ≡ vec_len actors.old + length threads }
    ensures capacity { vec_capacity actors.new ≡ vec_capacity actors.old }
{
    for (number, operations) in threads.into_items().into_iter().enumerate() {
        actors.push_reserved(ActorRun::thread(number as u32, operations));
    }
}

/// Adds so many workers, where there is room for them.
fn add_workers(actors: &mut Vec<ActorRun<ScriptJob>>, workers: u32)
    requires few { workers ≤ 8 }
    requires room { vec_len actors.old + workers ≤ vec_capacity actors.old }
    ensures { actors.new.items ≡ actors.old.items ++ worker_runs workers }
{
    for number in 0..workers {
        actors.push_reserved(ActorRun::worker(number));
    }
}

/// Ends the values of threads and workers that hold no work, without an event.
pub(crate) fn retire_all(mut actors: Vec<ActorRun<ScriptJob>>)
    requires { All HoldsNoWork actors.items }
{
    while let Some(actor) = actors.pop() {
        actor.retire();
    }
    actors.destroy_empty();
}
