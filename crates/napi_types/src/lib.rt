//! What every crate of the environment speaks of: numbers, calls, entries, lists, texts, and the ends of the outside.
//! Its `specs/` hold the definitions of the machine that the contracts of all crates cite, a file for each subject;
//! `laws` states what holds of all runs and is cited above; other laws stand in `machine_laws`.
//! Lists and texts are seen as lists. Every other crate stands on this one.
#![tactic(auto)]

mod body;
mod call;
mod duties;
mod edge;
mod entry;
mod fill;
pub mod hub_laws;
mod ids;
pub mod laws;
mod lists;
mod names;
pub mod once_laws;
mod op;
mod script;
mod status;
mod text;
mod view;

pub use body::Body;
pub use call::{Args, Ask, Call, CallGroup, Facts, JobSpec, Mode, Release};
pub use duties::{Begun, Due, DueInfo, SeenList, Slip};
pub use edge::{Gate, MemSink, MemSource, OpenGate, SafeSink, SafeSource, Sink, Source};
pub use entry::{
    Actor, Cause, Duty, Entry, Failed, Given, HostStep, Limits, Local, LoopEnd, MOST_ASKS,
    MOST_FRAMES, NoMemory, Out, Phase, Reply, SharedCall, Target, TsfnState, What, Why,
};
pub use ids::{
    AsyncHookId, DeferredId, HandleId, RefId, ScopeId, ScopeKind, TextNo, Ticket, TsfnId, ValueId,
    WorkId,
};
pub use lists::{Actors, AddonPlan, EntryList, Listed, LocalList, OpList, OpLists, Plans, Record};
pub use op::{Op, Regs};
pub use script::{HIGHEST_VERSION, LOWEST_VERSION, LimitName, Mistake, Script, ScriptPart};
pub use status::{Kind, Status};
pub use text::{Text, Texts};
pub use view::ViewInfo;
