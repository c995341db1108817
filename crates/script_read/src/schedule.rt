//! The schedule of a script.
ghost use Rattle.std.specs.Prelude.{◌≡◌, ◌<◌, IfSome, option_map};
ghost use Rattle.serde_json.specs.View.{view, items_view};
ghost use Rattle.napi_types.specs.scripts.ScriptReading.{every};
ghost use Rattle.napi_types.specs.scripts.ScriptSchedule.{digit, small_number, number_below, lettered, actor_named, actor_in};
ghost use Rattle.napi_types.specs.scripts.ScriptThreads.{word_at, schedule_in};
ghost use Rattle.script_read.specs.Reads.{Reads};

use crate::arguments::text;
use crate::json::{ReadingStop, list_at};
use napi_types::{Actor, Actors, LimitName, Listed, Mistake, ScriptPart};
use serde_json::Value;
use std::alloc::Global;

/// How many words a schedule may have.
const MOST_WORDS: usize = 65_536;

/// The value of a digit.
#[tactic(auto, unfolding(napi_types::specs::scripts::ScriptSchedule::digit))]
fn digit(letter: u8) -> Option<u32>
    ensures value { result ≡ digit letter }
    ensures small { IfSome result (λ n. n < 10) }
{
    if 48 <= letter && letter <= 57 {
        Some(u32::from(letter - 48))
    } else {
        None
    }
}

/// A number from 0 to 19, as it is written.
#[tactic(auto, unfolding(napi_types::specs::scripts::ScriptSchedule::small_number))]
fn small_number(written: &[u8]) -> Option<u32>
    ensures { result ≡ small_number written.now }
{
    match written {
        [unit] => digit(*unit),
        [ten, unit] => {
            if *ten == 49 {
                Some(digit(*unit)? + 10)
            } else {
                None
            }
        }
        _ => None,
    }
}

/// A number that is written, below a bound.
#[tactic(auto, unfolding(napi_types::specs::scripts::ScriptSchedule::number_below))]
fn number_below(bound: usize, written: &[u8]) -> Option<u32>
    ensures { result ≡ number_below bound written.now }
{
    let number = small_number(written)?;
    if (number as usize) < bound {
        Some(number)
    } else {
        None
    }
}

/// A thread or a worker of the script, by its letter and its number.
#[tactic(auto, unfolding(napi_types::specs::scripts::ScriptSchedule::lettered))]
fn lettered(threads: usize, workers: usize, word: &[u8]) -> Option<Actor>
    ensures { result ≡ lettered threads workers word.now }
{
    match word {
        [] => None,
        [letter, written @ ..] => {
            if *letter == 116 {
                Some(Actor::Thread(number_below(threads, written)?))
            } else if *letter == 119 {
                Some(Actor::Worker(number_below(workers, written)?))
            } else {
                None
            }
        }
    }
}

/// The actor that a word names, in a script with so many threads and workers.
#[tactic(auto, unfolding(napi_types::specs::scripts::ScriptSchedule::actor_named))]
fn actor_named(threads: usize, workers: usize, word: &str) -> Option<Actor>
    ensures { result ≡ actor_named threads workers word.now }
{
    if word == "env" {
        Some(Actor::Env)
    } else {
        lettered(threads, workers, word.as_bytes())
    }
}

/// The actor that a value names.
#[tactic(auto, unfolding(napi_types::specs::scripts::ScriptSchedule::actor_in))]
fn actor_in(threads: usize, workers: usize, value: &Value) -> Option<Actor>
    ensures { result ≡ actor_in threads workers (view value.now) }
{
    actor_named(threads, workers, text(value)?)
}

/// A word of the schedule.
#[tactic(auto, unfolding(napi_types::specs::scripts::ScriptThreads::word_at))]
fn word_at(threads: usize, workers: usize, s: usize, value: &Value) -> Result<Actor, ReadingStop>
    ensures { Reads result (word_at threads workers s (view value.now)) }
{
    match actor_in(threads, workers, value) {
        Some(actor) => Ok(actor),
        None => Err(ReadingStop::Mistake(Mistake::Shape(ScriptPart::Word(s)))),
    }
}

/// The words that items are.
fn each_word(
    alloc: Global,
    threads: usize,
    workers: usize,
    items: &[Value],
) -> Result<Actors, ReadingStop>
    ensures { Reads result (every (word_at threads workers) 0 (items_view items.now)) }
{
    let mut list = Vec::new(alloc);
    for (s, item) in items.iter().enumerate() {
        let word = word_at(threads, workers, s, item)?;
        let Ok(()) = list.push(word) else {
            return Err(ReadingStop::NoMemory);
        };
    }
    Ok(Listed::of(list))
}

/// The schedule, where there is one.
#[tactic(auto, unfolding(napi_types::specs::scripts::ScriptThreads::schedule_in))]
pub(crate) fn schedule_in(
    alloc: Global,
    threads: usize,
    workers: usize,
    found: Option<&Value>,
) -> Result<Option<Actors>, ReadingStop>
    ensures { Reads result (schedule_in threads workers (option_map (λ v. view v.now) found.entry)) }
{
    let Some(value) = found else {
        return Ok(None);
    };
    let items = list_at(
        ScriptPart::Schedule,
        LimitName::Schedule,
        MOST_WORDS,
        Some(value),
    )?;
    Ok(Some(each_word(alloc, threads, workers, items)?))
}
