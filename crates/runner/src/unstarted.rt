//! Actors and environments before their first turns, and what a thread hands back.
ghost use Rattle.std.specs.Prelude.{◌≡◌};
ghost use Rattle.env_loop.specs.OpenedAndGone.{IsOpenedRun};

use env_loop::{EnvRun, UnstartedActor};
use std::marker::Model;
use turn_lock::Pass;

/// An actor before its first turn, with its pass.
#[derive(Drop)]
pub(crate) struct Unstarted {
    pub(crate) actor: UnstartedActor,
    pub(crate) pass: Pass,
}

/// What a thread hands back.
#[derive(Drop)]
pub(crate) enum HandedBack {
    /// The pass of an actor that has ended.
    Ran(Pass),
    /// An actor of which no turn was made.
    Unused(Unstarted),
}

/// An environment that has opened, and of which no turn was made, so that it may be let go. Contracts see its run.
pub(crate) struct Opened {
    run: EnvRun,
}

impl Model for Opened {
    ghost use Rattle.env_loop.specs.OpenedAndGone.{IsOpenedRun};
    ghost use Rattle.env_loop.specs.RecordedRuns.{Run};

    ghost Value = { Run };

    ghost view = { λ opened. opened.run };

    ghost invariant = { λ opened. IsOpenedRun opened.run };
}

impl Opened {
    /// The environment with this run.
    pub(crate) fn of(run: EnvRun) -> Opened
        requires { IsOpenedRun run }
        ensures { result ≡ run }
    {
        Opened { run }
    }

    /// Its run.
    pub(crate) fn into_run(self) -> EnvRun
        ensures run { result ≡ self }
        ensures opened { IsOpenedRun result }
    {
        let Opened { run } = self;
        run
    }
}

impl Drop for Opened {
    fn drop(self) {
        let Opened { run } = self;
        run.retire();
    }
}
