//! Passes sleep until another adds a row, again and again.
ghost use Rattle.std.specs.Prelude.{◌≡◌, false, map, length};
ghost use Rattle.std.specs.List.{range_with_len};
ghost use Rattle.turn_lock.specs.Rows.{GoesOn};
ghost use Rattle.turn_lock.specs.Passes.{new_pass};

use super::*;
use crate::rows::row_of;
use std::alloc::Global;
use std::sync::atomic::{AtomicU64, Ordering};
use std::test::*;
use std::thread::{Threads, join, sleep};
use std::time::{Clock, Duration};
use turn_lock::Row;

/// How many rows one adds while two look.
const ROWS: u64 = 8;

/// How often each of two answers the other.
const ANSWERS: u64 = 20_000;

/// A pass that does not sleep looks some thousand times.
const MOST_LOOKS: u64 = 100;

/// One adds a row once both others have seen the one before, and a while has passed. They sleep in between.
#[test]
fn two_see_each_row_of_a_third(rt: HostRuntime) {
    for before in [0, 65_537] {
        let (one, other) = watch(&rt, rt.alloc(), before);
        let looks = ROWS..=MOST_LOOKS;
        assert!(&rt; looks.contains(&one) && looks.contains(&other));
    }
}

/// How often each of two looked, where there were so many rows before.
fn watch<R: Threads + Wait + Clock + Abort + Sync>(
    rt: &R,
    alloc: Global,
    before: u64,
) -> (u64, u64) {
    let (turn, mut passes) = ample(rt, Turn::new(alloc, Rows::new(alloc), 3));
    let second = passes.remove(2);
    let first = passes.remove(1);
    let adder = add_many(rt, &turn, passes.remove(0), before);
    let seen = AtomicU64::new(0);
    let (_, looks) = join(
        rt,
        || -> ()
            requires { (adder.lock ≡ turn.lock) × (adder.holds ≡ false) }
        { add_slowly(rt, &turn, adder, &seen) },
        || -> (u64, u64)
            requires { (first.lock ≡ turn.lock) × (first.holds ≡ false) × (second.lock ≡ turn.lock) × (second.holds ≡ false) }
        { look_both(rt, &turn, first, second, before, &seen) },
    );
    looks
}

/// Adds so many rows.
fn add_many<R: Wait>(rt: &R, turn: &Turn<Rows>, mut pass: Pass, rows: u64) -> Pass
    requires lock { pass.lock ≡ turn.now.lock }
    requires free { pass.holds ≡ false }
    ensures lock { result.lock ≡ turn.now.lock }
    ensures free { result.holds ≡ false }
{
    for _done in 0..rows {
        let _added = add(rt, turn, &mut pass);
    }
    pass
}

/// Adds eight rows, each once the one before was seen twice, and a while has passed.
fn add_slowly<R: Wait + Clock>(rt: &R, turn: &Turn<Rows>, mut pass: Pass, seen: &AtomicU64)
    requires lock { pass.lock ≡ turn.now.lock }
    requires free { pass.holds ≡ false }
{
    for row in 0..ROWS {
        for _ in rt.forever() {
            if seen.load(Ordering::SeqCst) >= 2 * row {
                break;
            }
            sleep(rt, Duration::from_millis(1));
        }
        sleep(rt, Duration::from_millis(5));
        let _added = add(rt, turn, &mut pass);
    }
}

/// Two look, each in a thread of its own.
fn look_both<R: Threads + Wait + Sync>(
    rt: &R,
    turn: &Turn<Rows>,
    first: Pass,
    second: Pass,
    before: u64,
    seen: &AtomicU64,
) -> (u64, u64)
    requires first { (first.lock ≡ turn.now.lock) × (first.holds ≡ false) }
    requires second { (second.lock ≡ turn.now.lock) × (second.holds ≡ false) }
{
    join(
        rt,
        || -> u64
            requires { (first.lock ≡ turn.now.lock) × (first.holds ≡ false) }
        { look_for_all(rt, turn, first, before, seen) },
        || -> u64
            requires { (second.lock ≡ turn.now.lock) × (second.holds ≡ false) }
        { look_for_all(rt, turn, second, before, seen) },
    )
}

/// Looks until there are eight rows more than so many, and tells of each look that finds more. Answers how often it looked.
fn look_for_all<R: Wait>(
    rt: &R,
    turn: &Turn<Rows>,
    mut pass: Pass,
    before: u64,
    seen: &AtomicU64,
) -> u64
    requires lock { pass.lock ≡ turn.now.lock }
    requires free { pass.holds ≡ false }
{
    let mut known = before;
    let mut looks: u64 = 0;
    for _ in rt.forever() {
        let held = turn.take(rt, &mut pass);
        let rows = held.value.rows.len() as u64;
        turn.give(&mut pass, held);
        looks = looks.saturating_add(1);
        if rows > known {
            known = rows;
            seen.fetch_add(1, Ordering::SeqCst);
        }
        if rows >= before.saturating_add(ROWS) {
            return looks;
        }
        turn.wait_change(rt, &mut pass);
    }
    unreachable!()
}

/// Two passes add a row each by turns, and sleep until the other has.
#[test]
fn two_answer_each_other(rt: HostRuntime) {
    let alloc = rt.alloc();
    let (turn, passes) = ample(&rt, Turn::new(alloc, Rows::new(alloc), 2));
    assert_eq!(&rt; answer_each_other(&rt, &turn, passes), (ANSWERS, ANSWERS));
}

fn answer_each_other<R: Threads + Wait + Sync>(
    rt: &R,
    turn: &Turn<Rows>,
    mut passes: Vec<Pass>,
) -> (u64, u64)
    requires { passes.items ≡ map (new_pass turn.now.lock) (range_with_len 0 2) }
{
    let second = passes.remove(1);
    let first = passes.remove(0);
    join(
        rt,
        || -> u64
            requires { (first.lock ≡ turn.now.lock) × (first.holds ≡ false) }
        { answer_all(rt, turn, first) },
        || -> u64
            requires { (second.lock ≡ turn.now.lock) × (second.holds ≡ false) }
        { answer_all(rt, turn, second) },
    )
}

/// How many rows it added, each once the other had added one.
fn answer_all<R: Wait>(rt: &R, turn: &Turn<Rows>, mut pass: Pass) -> u64
    requires lock { pass.lock ≡ turn.now.lock }
    requires free { pass.holds ≡ false }
{
    let mut added: u64 = 0;
    for _ in rt.forever() {
        if added == ANSWERS {
            return added;
        }
        if answer(rt, turn, &mut pass) {
            added = added.saturating_add(1);
        } else {
            turn.wait_change(rt, &mut pass);
        }
    }
    unreachable!()
}

/// Adds a row where it is this pass's turn to. Answers whether it did.
fn answer<R: Wait>(rt: &R, turn: &Turn<Rows>, pass: &mut Pass) -> bool
    requires lock { pass.old.lock ≡ turn.now.lock }
    requires free { pass.old.holds ≡ false }
    ensures lock { pass.new.lock ≡ turn.now.lock }
    ensures free { pass.new.holds ≡ false }
{
    let row = row_of(pass.number());
    let mut held = turn.take(rt, pass);
    let added = push_at(&mut held.value, row);
    turn.give(pass, held);
    added
}

/// Adds a row of the first pass after an even number of rows, and one of the second after an odd number.
fn push_at(rows: &mut Rows, row: Row) -> bool
    ensures { GoesOn row.pass rows.old.rows.items rows.new.rows.items }
{
    rows.rows.len() as u64 % 2 == u64::from(row.pass % 2) && rows.push(row) > 0
}
