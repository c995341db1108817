//! The environment's frames and its loop: one turn after another, each of which makes one entry.
//! The hub stands beside the run. Contracts see an `EnvRun` as the environment's core, the duty whose frame stands and the end that is pending
//! (`specs/RecordedRuns.antt`), and say of each turn that a run that was followed goes on (`specs/FollowedRuns.antt`). Threads of a script and
//! workers make their turns at the hub too (`specs/ActorRuns.antt`). The crate that gives turns in order stands above.
#![tactic(auto)]

mod actor;
mod burst;
mod hub_turn;
pub mod recorded_laws;
mod run;
mod turn;

pub use actor::{
    ActorRun, ActorTurn, NextStep, ThreadRun, UnstartedActor, UnstartedThread, WorkerRun,
};
pub use burst::Burst;
pub use run::{EnvRun, FrameEnd, HubTurn};
pub use turn::LocalTurn;
