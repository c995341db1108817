//! A function is made and called, turn by turn.
ghost use Rattle.std.specs.Prelude.{◌≡◌, ◌≤◌, length};
ghost use Rattle.shared_hub.specs.HubStates.{HubSeen};
ghost use Rattle.env_loop.specs.RecordedRuns.{FitsHub};

use super::driving::{list_of, opened, opened_hub, to_end};
use addon_trait::Addon;
use env_loop::{EnvRun, LocalTurn};
use example_addon::ExampleAddon;
use napi_types::Record;
use shared_hub::Naming;
use std::alloc::Global;
use std::marker::Brand;
use std::process::Abort;

/// A list of one example addon. Its entry 0 makes an array and a reference to it, which it counts down from 2 until that is refused, and a
/// function, which it calls with the array; the function sets an element of the array at 2, and leaves with it. Then entry 0 asks for its length.
pub fn examples(rt: &impl Abort, alloc: Global) -> Vec<Box<dyn Addon>>
    ensures { length result.items ≡ 1 }
{
    list_of(
        rt,
        alloc,
        Box::new(alloc, ExampleAddon::new()).expect(rt, "an addon"),
    )
}

/// What a turn comes to.
fn turn(env: &mut EnvRun, addons: &mut Vec<Box<dyn Addon>>) -> LocalTurn
    requires enough { env.old.core.env.addons ≤ length addons.old.items }
    ensures enough { env.new.core.env.addons ≤ length addons.new.items }
    ensures fits { (hub : HubSeen) → FitsHub env.old hub → FitsHub env.new hub }
{
    env.local_turn(addons)
}

/// What thirteen turns come to.
fn thirteen(env: &mut EnvRun, addons: &mut Vec<Box<dyn Addon>>) -> [LocalTurn; 13]
    requires enough { env.old.core.env.addons ≤ length addons.old.items }
    ensures enough { env.new.core.env.addons ≤ length addons.new.items }
    ensures fits { (hub : HubSeen) → FitsHub env.old hub → FitsHub env.new hub }
{
    [
        turn(env, addons),
        turn(env, addons),
        turn(env, addons),
        turn(env, addons),
        turn(env, addons),
        turn(env, addons),
        turn(env, addons),
        turn(env, addons),
        turn(env, addons),
        turn(env, addons),
        turn(env, addons),
        turn(env, addons),
        turn(env, addons),
    ]
}

/// How many frames stood at each entry of a journal, where there are fourteen.
fn depths_of(record: &Record) -> [u32; 14] {
    let mut depths = [9; 14];
    for (depth, local) in depths.iter_mut().zip(record.journal.items()) {
        *depth = local.entry.depth;
    }
    depths
}

/// What thirteen turns come to, how many come then, and of what the run leaves the depths, and the lengths of both lists.
fn turns<N: Naming, A: Abort>(
    rt: &A,
    alloc: Global,
) -> ([LocalTurn; 13], u64, [u32; 14], [usize; 2])
    requires named { N.numbers ≡ record { threads = 0; workers = 0; limits = record { journal = 0; history = 100 } } }
{
    let mut addons = examples(rt, alloc);
    let mut hub = opened_hub::<N>(rt, alloc, 0, 0, 100);
    let mut env = opened(rt, alloc, 100);
    let first = thirteen(&mut env, &mut addons);
    let later = to_end(rt, &mut env, &mut hub, &mut addons);
    let record = env.into_record(hub);
    let lengths = [record.journal.items().len(), record.history.items().len()];
    (first, later, depths_of(&record), lengths)
}

#[test]
fn a_function_runs_in_a_frame_inside_its_callers(rt: HostRuntime) {
    let found = turns::<Brand, _>(&rt, rt.alloc());
    // The two begins, eight calls, and the two ends; then `go` is next, and with it four events of the hub, and `gone`.
    let mut first = [LocalTurn::Made; 13];
    first[12] = LocalTurn::NeedsHub;
    let depths = [0, 0, 1, 1, 1, 1, 1, 1, 0, 2, 0, 1, 0, 0];
    assert_eq!(rt; found, (first, 5, depths, [14, 4]));
}

#[test]
fn a_run_retires(rt: HostRuntime) {
    opened(&rt, rt.alloc(), 4).retire();
}
