//! Jobs, and how a worker executes one.
ghost use Rattle.std.specs.Prelude.{◌≡◌};
ghost use Rattle.napi_types.specs.parts.Jobs.{job_value};

use napi_types::JobSpec;
use std::marker::Model;

/// What a worker executes for a work: the manual's `execute` callback.
///
/// A job is made, and dropped where it never runs, under the lock of the hub: both are to be short. It runs without the lock.
pub trait Job: Send + Drop {
    ghost use Rattle.napi_types.specs.declared.call.JobSpec.{JobSpec};

    /// What the job computes.
    ghost spec: { Self → JobSpec };

    /// A job that computes this. It takes no memory.
    fn of(given: JobSpec) -> Self
        ensures { spec result ≡ given };

    /// Computes it.
    fn execute(self) -> u64
        ensures { result ≡ job_value (spec self) };
}

/// A work that a worker started. It has to be spent, by [`Running::execute`]: a work that started finishes.
pub struct Running<J: Job> {
    number: u64,
    job: J,
}

impl<J: Job> Model for Running<J> {
    ghost use Rattle.async_work.specs.Executing.{StartedWork};

    ghost Value = { StartedWork };

    ghost view = { λ running. record { number = running.number; spec = J.spec running.job } };
}

impl<J: Job> Running<J> {
    /// The work of this number has started, with its job.
    pub(crate) fn new(number: u64, job: J) -> Running<J>
        ensures { result ≡ record { number = number; spec = J.spec job } }
    {
        Running { number, job }
    }

    /// The number of the work in the order of queueing. Constant time.
    pub fn number(&self) -> u64
        ensures { result ≡ self.now.number }
    {
        self.number
    }

    /// Executes the job. It takes as long as the job does.
    pub fn execute(self) -> Ran
        ensures { result ≡ record { number = self.number; value = job_value self.spec } }
    {
        let Running { number, job } = self;
        Ran {
            number,
            value: job.execute(),
        }
    }
}

/// A work that a worker executed, with its value. It has to be spent, by [`Pool::finish`](crate::Pool::finish).
pub struct Ran {
    number: u64,
    value: u64,
}

impl Model for Ran {
    ghost use Rattle.async_work.specs.Executing.{ExecutedWork};

    ghost Value = { ExecutedWork };

    ghost view = { λ ran. record { number = ran.number; value = ran.value } };
}

impl Ran {
    /// The number of the work in the order of queueing. Constant time.
    pub fn number(&self) -> u64
        ensures { result ≡ self.now.number }
    {
        self.number
    }

    /// The value that its job computed. Constant time.
    pub fn value(&self) -> u64
        ensures { result ≡ self.now.value }
    {
        self.value
    }

    /// The number and the value.
    pub(crate) fn into_parts(self) -> (u64, u64)
        ensures { (result.0 ≡ self.number) × (result.1 ≡ self.value) }
    {
        let Ran { number, value } = self;
        (number, value)
    }
}
