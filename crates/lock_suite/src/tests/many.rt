//! A lock with three hundred passes, each of which takes the turn. No clause says that so many are accepted.
ghost use Rattle.std.specs.Prelude.{◌≡◌, ◌≤◌, false};
ghost use Rattle.std.specs.List.{All};

use super::*;
use std::alloc::Global;
use std::test::*;

/// How many rows the passes add, one each.
fn add_each<R: Wait>(rt: &R, turn: &Turn<Rows>, mut passes: Vec<Pass>) -> u64
    requires lock { All (λ p. p.lock ≡ turn.now.lock) passes.items }
    requires free { All (λ p. p.holds ≡ false) passes.items }
{
    let mut added = 0;
    while let Some(mut pass) = passes.pop() {
        added += add(rt, turn, &mut pass);
    }
    added
}

/// How many passes a lock gets that is to have so many, and how many rows they add.
fn many_passes<R: Wait + Abort>(rt: &R, alloc: Global, count: u32) -> (usize, u64)
    requires { 1 ≤ count }
{
    let (turn, passes) = ample(rt, Turn::new(alloc, Rows::new(alloc), count));
    (passes.len(), add_each(rt, &turn, passes))
}

#[test]
fn many_passes_take_turns(rt: HostRuntime) {
    let found = many_passes(&rt, rt.alloc(), 300);
    assert_eq!(rt; found, (300, 300));
}
