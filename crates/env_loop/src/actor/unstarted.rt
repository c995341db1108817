//! Threads of a script and workers of which no turn was made.
ghost use Rattle.std.specs.Prelude.{◌≡◌, ◌≤◌, length};
ghost use Rattle.std.specs.List.{All};
ghost use Rattle.env_loop.specs.ActorRuns.{IsOperationOfThread, new_thread};

use napi_types::OpList;
use std::marker::Model;

/// A thread of a script of which no turn was made. Contracts see its run.
#[derive(Drop)]
pub struct UnstartedThread {
    number: u32,
    operations: OpList,
}

impl Model for UnstartedThread {
    ghost use Rattle.env_loop.specs.ActorRuns.{ThreadSeen, IsThreadRun, new_thread};

    ghost Value = { ThreadSeen };

    ghost view = { λ idle. new_thread idle.number idle.operations };

    ghost invariant = { λ idle. IsThreadRun idle.operations 0 };
}

impl UnstartedThread {
    /// The thread of this number. Its operations, at most 16,384, are of the three kinds that threads make.
    pub(crate) fn new(number: u32, operations: OpList) -> UnstartedThread
        requires few { length operations ≤ 16384 }
        requires kinds { All IsOperationOfThread operations }
        ensures { result ≡ new_thread number operations }
    {
        UnstartedThread { number, operations }
    }

    /// Its number, and its operations.
    pub(crate) fn into_parts(self) -> (u32, OpList)
        ensures run { self ≡ new_thread result.0 result.1 }
        ensures few { length result.1 ≤ 16384 }
        ensures kinds { All IsOperationOfThread result.1 }
    {
        let UnstartedThread { number, operations } = self;
        (number, operations)
    }
}

/// A thread of a script, or a worker, of which no turn was made. It may be let go, which its run may not.
#[derive(Drop)]
pub enum UnstartedActor {
    Thread(UnstartedThread),
    Worker(u32),
}
