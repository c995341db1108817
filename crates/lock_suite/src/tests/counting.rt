//! Two threads take the turn a thousand times each.
ghost use Rattle.std.specs.Prelude.{◌≡◌, ◌+◌, false, map, length};
ghost use Rattle.std.specs.List.{range_with_len};
ghost use Rattle.turn_lock.specs.Rows.{own_rows};
ghost use Rattle.turn_lock.specs.Passes.{new_pass};
ghost use Rattle.lock_suite.specs.Counting.{HasAdded};

use super::*;
use std::test::*;
use std::thread::{Threads, join};

const TURNS: u64 = 1000;

/// Each thread adds as many rows as it takes turns. That these are the rows that are there is what `two` ensures, by the clauses of
/// `close` alone.
#[test]
fn two_threads(rt: HostRuntime) {
    let alloc = rt.alloc();
    let (turn, passes) = ample(&rt, Turn::new(alloc, Rows::new(alloc), 2));
    let (rows, first, second) = two(&rt, turn, passes);
    let found = (rows.rows.len() as u64, first, second);
    assert_eq!(rt; found, (2 * TURNS, TURNS, TURNS));
}

/// Two passes take turns in threads of their own. Answers the rows, and how many each pass added.
fn two<R: Threads + Wait + Abort + Sync>(
    rt: &R,
    turn: Turn<Rows>,
    mut passes: Vec<Pass>,
) -> (Rows, u64, u64)
    requires two { turn.passes ≡ 2 }
    requires new { passes.items ≡ map (new_pass turn.lock) (range_with_len 0 2) }
    ensures first { length (own_rows 0 result.0.rows.items) ≡ result.1 }
    ensures second { length (own_rows 1 result.0.rows.items) ≡ result.2 }
    ensures all { length result.0.rows.items ≡ length (own_rows 0 result.0.rows.items) + length (own_rows 1 result.0.rows.items) }
{
    let second = passes.remove(1);
    let first = passes.remove(0);
    let ((first, one), (second, other)) = both(rt, &turn, first, second);
    passes.push(first).expect(rt, "there is no memory");
    passes.push(second).expect(rt, "there is no memory");
    (turn.close(passes), one, other)
}

fn both<R: Threads + Wait + Sync>(
    rt: &R,
    turn: &Turn<Rows>,
    first: Pass,
    second: Pass,
) -> ((Pass, u64), (Pass, u64))
    requires locks { (first.lock ≡ turn.now.lock) × (second.lock ≡ turn.now.lock) }
    requires free { (first.holds ≡ false) × (second.holds ≡ false) }
    ensures first { HasAdded first result.0.0 result.0.1 }
    ensures second { HasAdded second result.1.0 result.1.1 }
{
    join(
        rt,
        || -> (Pass, u64)
            requires { (first.lock ≡ turn.now.lock) × (first.holds ≡ false) }
            ensures { HasAdded first result.0 result.1 }
        { take_turns(rt, turn, first) },
        || -> (Pass, u64)
            requires { (second.lock ≡ turn.now.lock) × (second.holds ≡ false) }
            ensures { HasAdded second result.0 result.1 }
        { take_turns(rt, turn, second) },
    )
}

/// Takes the turn a thousand times, and adds a row each time. Answers how many it added.
fn take_turns<R: Wait>(rt: &R, turn: &Turn<Rows>, mut pass: Pass) -> (Pass, u64)
    requires lock { pass.lock ≡ turn.now.lock }
    requires free { pass.holds ≡ false }
    ensures { HasAdded pass result.0 result.1 }
{
    let mut added = 0;
    for _done in 0..TURNS {
        added += add(rt, turn, &mut pass);
    }
    (pass, added)
}
