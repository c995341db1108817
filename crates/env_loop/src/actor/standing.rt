//! What the runs of threads and workers keep while others go on, as laws: each function does nothing, and its contract states a law.
ghost use Rattle.env_loop.specs.ActorRuns.{ThreadRunsStand, WorkerRunsStand, ExecutedWorksStand};
ghost use Rattle.env_loop.specs.RunsOverRows.{ActorRunsStandOverRows};
ghost use Rattle.env_loop.specs.UnstartedAndEnded.{UnstartedActorsStand, EndedActorsHoldNoWork};

use async_work::Job;

/// The run of a thread, or of a worker, stays one of the hub's while another actor makes an entry.
pub fn actor_runs_stand_as_others_go_on()
    ensures threads { ThreadRunsStand }
    ensures workers { WorkerRunsStand }
{}

/// So it does, by the rows that the turn lock counts, as rows of other passes than its own come.
pub fn actor_runs_stand_over_rows<J: Job>()
    ensures { ActorRunsStandOverRows J }
{}

/// So does a worker's as it executes the work that it started.
pub fn worker_runs_stand_as_works_are_executed()
    ensures { ExecutedWorksStand }
{}

/// An actor of which no turn was made is one of a hub's that opens.
pub fn unstarted_actors_stand<J: Job>()
    ensures { UnstartedActorsStand J }
{}

/// One that has ended holds no work.
pub fn ended_actors_hold_no_work<J: Job>()
    ensures { EndedActorsHoldNoWork J }
{}
