//! What calls of the hub come out as.
ghost use Rattle.std.specs.Prelude.{◌≡◌};

use async_work::Job;
use napi_types::{Due, Reply, Status, TsfnId};

/// What a call of a thread comes out as.
#[derive(Drop)]
pub enum ThreadTried {
    /// The call's reply; its entry stands in the history.
    Reply(Reply),
    /// The function's queue is full, and the call has to wait. It left no entry and changed nothing.
    Wait,
    /// The call stopped, with `NoMemory` or `TraceFull`. It left no entry and changed nothing.
    Stop(Status),
}

/// A move that the hub made of its own. One that begins has to be spent.
pub enum Polled<J: Job> {
    /// The frame of a duty begins. The job is there where the duty is the completion of a work that was cancelled before it started.
    Begin(Due, Option<J>),
    /// A thread-safe function began to close.
    Closed(TsfnId),
    /// A thread-safe function finished.
    Finished(TsfnId),
    /// There was nothing to do.
    Nothing,
}
