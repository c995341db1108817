//! A pass sleeps until another adds a row.
ghost use Rattle.std.specs.Prelude.{◌≡◌, false, map};
ghost use Rattle.std.specs.List.{range_with_len};
ghost use Rattle.turn_lock.specs.Passes.{new_pass};

use super::*;
use std::test::*;
use std::thread::{Threads, join, sleep};
use std::time::{Clock, Duration};

// A pass that does not sleep looks some hundred thousand times while the other waits.
const MOST_LOOKS: u64 = 100;

/// One pass looks for a row, and sleeps while there is none. The other adds a row once it was looked for, and a while has passed. The
/// first is woken, and has looked at least twice, but not over and over.
#[test]
fn a_sleeper_is_woken(rt: HostRuntime) {
    let alloc = rt.alloc();
    let (turn, passes) = ample(&rt, Turn::new(alloc, Rows::new(alloc), 2));
    let looks = look_and_add(&rt, &turn, passes);
    assert!(rt; (2..=MOST_LOOKS).contains(&looks));
}

/// Answers how often the second pass looked for a row.
fn look_and_add<R: Threads + Wait + Clock + Sync>(
    rt: &R,
    turn: &Turn<Rows>,
    mut passes: Vec<Pass>,
) -> u64
    requires { passes.items ≡ map (new_pass turn.now.lock) (range_with_len 0 2) }
{
    let looker = passes.remove(1);
    let adder = passes.remove(0);
    let (looks, _) = join(
        rt,
        || -> u64
            requires { (looker.lock ≡ turn.now.lock) × (looker.holds ≡ false) }
        { look(rt, turn, looker) },
        || -> u64
            requires { (adder.lock ≡ turn.now.lock) × (adder.holds ≡ false) }
        { add_later(rt, turn, adder) },
    );
    looks
}

/// Looks for a row until there is one, and answers how often it looked.
fn look<R: Wait>(rt: &R, turn: &Turn<Rows>, mut pass: Pass) -> u64
    requires lock { pass.lock ≡ turn.now.lock }
    requires free { pass.holds ≡ false }
{
    for _ in rt.forever() {
        let mut held = turn.take(rt, &mut pass);
        held.value.looks = held.value.looks.saturating_add(1);
        let looks = held.value.looks;
        let found = !held.value.rows.is_empty();
        turn.give(&mut pass, held);
        if found {
            return looks;
        }
        turn.wait_change(rt, &mut pass);
    }
    unreachable!()
}

/// Adds a row a while after the other pass has looked for one.
fn add_later<R: Wait + Clock>(rt: &R, turn: &Turn<Rows>, mut pass: Pass) -> u64
    requires lock { pass.lock ≡ turn.now.lock }
    requires free { pass.holds ≡ false }
{
    for _ in rt.forever() {
        let held = turn.take(rt, &mut pass);
        let looked = held.value.looks > 0;
        turn.give(&mut pass, held);
        if looked {
            break;
        }
        sleep(rt, Duration::from_millis(1));
    }
    sleep(rt, Duration::from_millis(50));
    add(rt, turn, &mut pass)
}
