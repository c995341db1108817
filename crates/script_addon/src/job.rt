//! The job of a script's work: it computes what the script says.
ghost use Rattle.std.specs.Prelude.{◌≡◌, ◌%◌, ◌^◌};
ghost use Rattle.napi_types.specs.declared.call.JobSpec.TheVariants.{Sum};
ghost use Rattle.napi_types.specs.parts.Jobs.{job_value, mixed};

use async_work::Job;
use napi_types::JobSpec;

/// What mixing multiplies by, and what it adds.
const MULTIPLIER: u128 = 6_364_136_223_846_793_005;

const INCREMENT: u128 = 1_442_695_040_888_963_407;

/// What a worker executes for a work that a script creates by `create_async_work`: `["sum", n]` or `["mix", x, k]`.
///
/// A sum takes a few steps, whatever its number. A mix takes time linear in its count `k`, which is at most 1,000,000 in a script.
/// Neither takes memory.
#[derive(Drop)]
pub struct ScriptJob {
    spec: JobSpec,
}

impl Job for ScriptJob {
    ghost spec = { λ job. job.spec };

    fn of(given: JobSpec) -> ScriptJob {
        ScriptJob { spec: given }
    }

    fn execute(self) -> u64 {
        match self.spec {
            JobSpec::Sum(n) => sum(n),
            JobSpec::Mix(x, k) => mix(x, k),
        }
    }
}

/// The sum of the whole numbers up to this one, of which the last 64 bits are kept.
fn sum(n: u64) -> u64
    ensures { result ≡ job_value (Sum n) }
{
    let n = u128::from(n);
    last_bits(n * (n + 1) / 2)
}

/// A number, mixed so many times.
fn mix(mut x: u64, k: u64) -> u64
    ensures { result ≡ mixed x k }
{
    for _ in 0..k {
        x = mixed_once(x);
    }
    x
}

/// A number, mixed once.
fn mixed_once(x: u64) -> u64
    ensures { result ≡ mixed x 1 }
{
    last_bits(u128::from(x) * MULTIPLIER + INCREMENT)
}

/// The last 64 bits of a number.
fn last_bits(n: u128) -> u64
    ensures { result ≡ n % (2 ^ 64) }
{
    (n % (1 << 64)) as u64
}
