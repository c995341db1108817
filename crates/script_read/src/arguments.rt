//! The arguments of an operation, each form by itself: what a value is, `None` exactly where it has another form.
ghost use Rattle.std.specs.Prelude.{◌≡◌, ℤ, option_map};
ghost use Rattle.serde_json.specs.View.{view, items_view};
ghost use Rattle.napi_types.specs.scripts.ScriptArguments.{whole, whole_below, signed, flag, text_argument, is_none, or_none, register, register_or_none, short, entry_number, entry_or_none, text_or_none, mode_number, release_number, job_size, job_in, job_of, sum_job, mix_job, registers_in, registers_among, register_list};

use napi_types::{JobSpec, Mode, Regs, Release};
use serde_json::Value;

/// A whole number from 0 to 2^64-1.
#[tactic(auto, unfolding(napi_types::specs::scripts::ScriptArguments::whole))]
pub(crate) fn whole(value: &Value) -> Option<u64>
    ensures { result ≡ whole (view value.now) }
{
    value.as_u64()
}

/// A whole number below a bound.
#[tactic(auto, unfolding(napi_types::specs::scripts::ScriptArguments::whole_below))]
fn whole_below(bound: u64, value: &Value) -> Option<u64>
    ensures { result ≡ whole_below bound (view value.now) }
{
    let number = whole(value)?;
    if number < bound { Some(number) } else { None }
}

/// A signed whole number of 64 bits.
#[tactic(auto, unfolding(napi_types::specs::scripts::ScriptArguments::signed))]
pub(crate) fn signed(value: &Value) -> Option<i64>
    ensures { result ≡ signed (view value.now) }
{
    value.as_i64()
}

/// True or false.
#[tactic(auto, unfolding(napi_types::specs::scripts::ScriptArguments::flag))]
pub(crate) fn flag(value: &Value) -> Option<bool>
    ensures { result ≡ flag (view value.now) }
{
    value.as_bool()
}

/// A text.
#[tactic(auto, unfolding(napi_types::specs::scripts::ScriptArguments::text_argument))]
pub(crate) fn text(value: &Value) -> Option<&str>
    ensures { option_map (λ found. found.now) result ≡ text_argument (view value.now) }
{
    value.as_str()
}

/// The number -1, which stands for none.
#[tactic(auto, unfolding(napi_types::specs::scripts::ScriptArguments::is_none))]
fn is_none(value: &Value) -> bool
    ensures { result ≡ is_none (view value.now) }
{
    match value.as_i64() {
        Some(number) => number == -1,
        None => false,
    }
}

/// A register: 0 to 31.
#[tactic(auto, unfolding(napi_types::specs::scripts::ScriptArguments::register, napi_types::specs::scripts::ScriptArguments::whole_below))]
pub(crate) fn register(value: &Value) -> Option<u8>
    ensures { result ≡ register (view value.now) }
{
    let number = whole(value)?;
    if number < 32 {
        Some(number as u8)
    } else {
        None
    }
}

/// A register, or -1 for none.
#[tactic(auto, unfolding(napi_types::specs::scripts::ScriptArguments::register_or_none, napi_types::specs::scripts::ScriptArguments::or_none))]
pub(crate) fn register_or_none(value: &Value) -> Option<Option<u8>>
    ensures { result ≡ register_or_none (view value.now) }
{
    if is_none(value) {
        return Some(None);
    }
    Some(Some(register(value)?))
}

/// A whole number from 0 to 2^32-1.
#[tactic(auto, unfolding(napi_types::specs::scripts::ScriptArguments::short, napi_types::specs::scripts::ScriptArguments::whole_below))]
pub(crate) fn short(value: &Value) -> Option<u32>
    ensures { result ≡ short (view value.now) }
{
    let number = whole(value)?;
    if number < 4_294_967_296 {
        Some(number as u32)
    } else {
        None
    }
}

/// An entry of an addon with so many entries.
#[tactic(auto, unfolding(napi_types::specs::scripts::ScriptArguments::entry_number, napi_types::specs::scripts::ScriptArguments::whole_below))]
pub(crate) fn entry_number(entries: u32, value: &Value) -> Option<u32>
    ensures { result ≡ entry_number entries (view value.now) }
{
    let number = whole(value)?;
    if number < u64::from(entries) {
        Some(number as u32)
    } else {
        None
    }
}

/// An entry, or -1 for none.
#[tactic(auto, unfolding(napi_types::specs::scripts::ScriptArguments::entry_or_none, napi_types::specs::scripts::ScriptArguments::or_none))]
pub(crate) fn entry_or_none(entries: u32, value: &Value) -> Option<Option<u32>>
    ensures { result ≡ entry_or_none entries (view value.now) }
{
    if is_none(value) {
        return Some(None);
    }
    Some(Some(entry_number(entries, value)?))
}

/// A text, or -1 for none.
#[tactic(auto, unfolding(napi_types::specs::scripts::ScriptArguments::text_or_none, napi_types::specs::scripts::ScriptArguments::or_none))]
pub(crate) fn text_or_none(value: &Value) -> Option<Option<&str>>
    ensures { option_map (option_map (λ found. found.now)) result ≡ text_or_none (view value.now) }
{
    if is_none(value) {
        return Some(None);
    }
    Some(Some(text(value)?))
}

/// How a thread-safe function is called: 0 does not wait, 1 does.
#[tactic(auto, unfolding(napi_types::specs::scripts::ScriptArguments::mode_number, napi_types::specs::scripts::ScriptArguments::whole_below))]
pub(crate) fn mode(value: &Value) -> Option<Mode>
    ensures { result ≡ mode_number (view value.now) }
{
    match whole_below(2, value)? {
        0 => Some(Mode::Nonblocking),
        _ => Some(Mode::Blocking),
    }
}

/// How a thread-safe function is released: 0 by one, 1 with all that hold it.
#[tactic(auto, unfolding(napi_types::specs::scripts::ScriptArguments::release_number, napi_types::specs::scripts::ScriptArguments::whole_below))]
pub(crate) fn release(value: &Value) -> Option<Release>
    ensures { result ≡ release_number (view value.now) }
{
    match whole_below(2, value)? {
        0 => Some(Release::Release),
        _ => Some(Release::Abort),
    }
}

/// The last number of a job.
#[tactic(auto, unfolding(napi_types::specs::scripts::ScriptArguments::job_size))]
fn job_size(value: &Value) -> Option<u64>
    ensures { result ≡ job_size (view value.now) }
{
    whole_below(1_000_001, value)
}

/// The job of a sum.
#[tactic(auto, unfolding(napi_types::specs::scripts::ScriptArguments::sum_job))]
fn sum_job(word: &Value, number: &Value) -> Option<JobSpec>
    ensures { result ≡ sum_job (view word.now) (view number.now) }
{
    if text(word)? == "sum" {
        Some(JobSpec::Sum(job_size(number)?))
    } else {
        None
    }
}

/// The job of a mix.
#[tactic(auto, unfolding(napi_types::specs::scripts::ScriptArguments::mix_job))]
fn mix_job(word: &Value, number: &Value, times: &Value) -> Option<JobSpec>
    ensures { result ≡ mix_job (view word.now) (view number.now) (view times.now) }
{
    if text(word)? == "mix" {
        let number = whole(number)?;
        Some(JobSpec::Mix(number, job_size(times)?))
    } else {
        None
    }
}

/// The job that has these parts.
#[tactic(auto, unfolding(napi_types::specs::scripts::ScriptArguments::job_of))]
fn job_of(items: &[Value]) -> Option<JobSpec>
    ensures { result ≡ job_of (items_view items.now) }
{
    match items {
        [word, number] => sum_job(word, number),
        [word, number, times] => mix_job(word, number, times),
        _ => None,
    }
}

/// A job.
#[tactic(auto, unfolding(napi_types::specs::scripts::ScriptArguments::job_in))]
pub(crate) fn job(value: &Value) -> Option<JobSpec>
    ensures { result ≡ job_in (view value.now) }
{
    match value {
        Value::Array(items) => job_of(items.as_slice()),
        _ => None,
    }
}

fn list_of(count: u8, first: u8, second: u8, third: u8, fourth: u8) -> Regs
    ensures { result ≡ register_list count first second third fourth }
{
    Regs {
        count,
        regs: [first, second, third, fourth],
    }
}

#[tactic(auto, unfolding(napi_types::specs::scripts::ScriptArguments::registers_among))]
fn registers_among(items: &[Value]) -> Option<Regs>
    ensures { result ≡ registers_among (items_view items.now) }
{
    match items {
        [] => Some(list_of(0, 0, 0, 0, 0)),
        [a] => Some(list_of(1, register(a)?, 0, 0, 0)),
        [a, b] => Some(list_of(2, register(a)?, register(b)?, 0, 0)),
        [a, b, c] => Some(list_of(3, register(a)?, register(b)?, register(c)?, 0)),
        [a, b, c, d] => Some(list_of(4, register(a)?, register(b)?, register(c)?, register(d)?)),
        _ => None,
    }
}

/// A list of zero to four registers.
#[tactic(auto, unfolding(napi_types::specs::scripts::ScriptArguments::registers_in))]
pub(crate) fn registers(value: &Value) -> Option<Regs>
    ensures { result ≡ registers_in (view value.now) }
{
    match value {
        Value::Array(items) => registers_among(items.as_slice()),
        _ => None,
    }
}
