//! Entries of the trace.
ghost use Rattle.std.specs.Prelude.{◌≡◌};
ghost use Rattle.napi_types.specs.plain.Replies.{plain as plain_reply};

use crate::{
    AsyncHookId, Call, DeferredId, HandleId, Kind, RefId, ScopeId, Status, TextNo, Ticket, TsfnId,
    WorkId,
};
use std::alloc::{AllocError, AllocFailed};
use std::error::Error;
use std::fmt;

/// Who made an entry.
#[derive(Clone, Copy, Debug, PartialEq, Eq)]
pub enum Actor {
    Env,
    Thread(u32),
    Worker(u32),
}

/// An obligation: a ticket's finalizer or hook, the completion of a work, an accepted item, a function's finalizer.
///
/// Works are numbered from 1 in the order of their queueing, and a function's items from 1.
#[derive(Clone, Copy, Debug, PartialEq, Eq)]
pub enum Duty {
    Ticket(Ticket),
    Work(u64),
    Item(TsfnId, u64),
    Function(TsfnId),
}

/// Why a frame began.
#[derive(Clone, Copy, Debug, PartialEq, Eq)]
pub enum Cause {
    Init,
    Call,
    Finalize,
    Complete,
    Item,
    Torn,
    Hook,
    Reaction,
}

/// An event that is no call.
#[derive(Clone, Copy, Debug, PartialEq, Eq)]
pub enum HostStep {
    Opened,
    Begin,
    End,
    Go,
    LoopEnd,
    Abandon,
    CloseTsfn,
    FinishTsfn,
    Drain,
    Finals,
    Gone,
    Start,
    Finish,
    ActorEnd,
}

/// What happened: a call or an event of the host.
#[derive(Clone, Copy)]
pub enum What {
    Call(Call),
    Host(HostStep),
}

/// Why the loop ended.
#[derive(Clone, Copy, Debug, PartialEq, Eq)]
pub enum LoopEnd {
    Exit,
    Idle,
    Quiet,
}

/// Why a frame or a thread was cut: a call stopped for want of memory or of room, or the frame made all its asks.
#[derive(Clone, Copy, Debug, PartialEq, Eq)]
pub enum Why {
    Memory,
    Full,
    Asks,
}

/// The result of an entry.
#[derive(Clone, Copy)]
pub enum Out {
    Nothing,
    Handle(HandleId),
    NoHandle,
    Scope(ScopeId),
    Ref(RefId),
    AsyncHook(AsyncHookId),
    /// A new deferred, and the handle of its promise.
    Promise(DeferredId, HandleId),
    Work(WorkId),
    Function(TsfnId),
    Signed(i64),
    Unsigned(u64),
    Flag(bool),
    Text(TextNo),
    Kind(Kind),
    Duty(Duty),
    /// The cause, the addon, the entry, and the duty where there is one.
    Begin(Cause, u32, u32, Option<Duty>),
    Ended(LoopEnd),
    Uncaught,
    Cut(Why),
}

/// What an entry answers, and the duties that it withdrew and made.
#[derive(Clone, Copy)]
pub struct Reply {
    pub status: Status,
    pub out: Out,
    pub dropped: Option<Duty>,
    pub made: Option<Duty>,
}

impl Reply {
    /// A reply that neither withdraws nor makes a duty.
    pub fn plain(status: Status, out: Out) -> Reply
        ensures { result ≡ plain_reply status out }
    {
        Reply {
            status,
            out,
            dropped: None,
            made: None,
        }
    }
}

/// Where the items of a thread-safe function are delivered, and whether a torn item's frame makes asks.
#[derive(Clone, Copy, Debug, PartialEq, Eq)]
pub struct Target {
    pub addon: u32,
    pub entry: u32,
    pub torn_runs: bool,
}

/// How far a thread-safe function has come. While it is closing the items that wait are still delivered; where it has a finalizer it is
/// finished until that begins, and then done.
#[derive(Clone, Copy, Debug, PartialEq, Eq)]
pub enum TsfnState {
    Open,
    Closing,
    Finished,
    Done,
}

/// What the environment hands to the hub with a shared call: the calling addon, the target of a new function,
/// and the environment's own refusal.
#[derive(Clone, Copy, Debug, PartialEq, Eq)]
pub struct Given {
    pub addon: u32,
    pub target: Option<Target>,
    pub refused: Option<Status>,
}

/// A call that the hub answers, with what the environment hands to it.
#[derive(Clone, Copy)]
pub struct SharedCall {
    pub call: Call,
    pub depth: u32,
    pub step: u32,
    pub addon: u32,
    pub target: Option<Target>,
    pub refused: Option<Status>,
}

/// One event of the trace.
///
/// For a call of a frame `depth` is the number of frames that stand and `step` the number of the ask in its frame,
/// from 0. For a call of a thread `depth` is 0 and `step` the number of its operation, from 0. For every other event both are 0.
#[derive(Clone, Copy)]
pub struct Entry {
    pub actor: Actor,
    pub depth: u32,
    pub step: u32,
    pub what: What,
    pub reply: Reply,
    pub given: Option<Given>,
}

/// An entry of the journal, and the length of the history at which it stands in the weave.
#[derive(Clone, Copy)]
pub struct Local {
    pub at: u64,
    pub entry: Entry,
}

/// How far the environment has come.
#[derive(Clone, Copy, Debug, PartialEq, Eq)]
pub enum Phase {
    Init,
    Live,
    Hooks,
    Drain,
    Finals,
    Gone,
}

/// How many frames may stand, the outermost counted: `most_frames` of the definitions.
pub const MOST_FRAMES: u32 = 64;

/// How many asks a frame may make: `most_asks` of the definitions.
pub const MOST_ASKS: u32 = 65536;

/// How many entries the journal and the history may have, reserved places included.
#[derive(Clone, Copy, Debug, PartialEq, Eq)]
pub struct Limits {
    pub journal: u32,
    pub history: u32,
}

/// A part found no memory. It means that and nothing else.
#[derive(Clone, Copy, Debug, PartialEq, Eq)]
pub struct NoMemory;

impl fmt::Display for NoMemory {
    fn fmt<W: fmt::Write>(&self, f: &mut fmt::Formatter<W>) -> fmt::Result {
        write!(f, "a part found no memory")
    }
}

impl Error for NoMemory {}

impl From<AllocError> for NoMemory {
    fn from(_: AllocError) -> NoMemory {
        NoMemory
    }
}

impl<T: Drop> From<AllocFailed<T>> for NoMemory {
    fn from(_: AllocFailed<T>) -> NoMemory {
        NoMemory
    }
}

/// A fault of the outside: its count of faults rose.
#[derive(Clone, Copy, Debug, PartialEq, Eq)]
pub struct Failed;

impl fmt::Display for Failed {
    fn fmt<W: fmt::Write>(&self, f: &mut fmt::Formatter<W>) -> fmt::Result {
        write!(f, "the outside failed")
    }
}

impl Error for Failed {}
