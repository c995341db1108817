//! Many works, and many items of a thread-safe function: that each call is accepted where there is memory, also after 65,535 others. No clause
//! says so.
ghost use Rattle.std.specs.Prelude.{◌≡◌, ◌<◌, ◌^◌, [], false};
ghost use Rattle.napi_types.specs.parts.Functions.{accepted_items};
ghost use Rattle.napi_types.specs.parts.Pool.{new_pool};

use super::ample;
use super::functions::{add, created, deliver};
use super::works::{Works, accepted, complete, counts, create, queue, run};
use async_work::Pool;
use napi_types::{Actor, Mode, Release, Status, WorkId};
use std::alloc::Global;
use std::process::Abort;
use tsfn::{Tried, Tsfn};

/// How many works there are.
const WORKS: u64 = 150_000;

/// How many of them run.
const RUN: u64 = 100_000;

/// Works are created and queued. Their ids, in this order.
fn queue_works(rt: &impl Abort, alloc: Global, works: &mut Works) -> Vec<WorkId>
    requires { works.old ≡ new_pool }
    ensures executed { works.new.executions ≡ [] }
    ensures closing { works.new.closing ≡ false }
{
    let mut ids = Vec::new(alloc);
    for _place in 0..WORKS {
        let id = create(rt, works, 1);
        queue(rt, works, id);
        ids.push(id).expect(rt, "a place");
    }
    ids
}

/// The third of the works in the middle is cancelled.
fn cancel_works(rt: &impl Abort, works: &mut Works, ids: &[WorkId])
    requires { works.old.executions ≡ [] }
    ensures { works.new.executions ≡ [] }
{
    let third = ids.len() / 3;
    for id in &ids[third..2 * third] {
        accepted(rt, works.cancel(*id));
    }
}

/// The others start and finish, one after another.
fn run_works(rt: &impl Abort, works: &mut Works)
    requires { works.old.executions ≡ [] }
{
    for _place in 0..RUN {
        run(rt, works);
    }
}

/// How many completions begin. Then each work is deleted.
fn complete_works(rt: &impl Abort, works: &mut Works, ids: &[WorkId]) -> u64 {
    let mut completed = 0;
    for _place in 0..WORKS {
        if complete(works).is_some() {
            completed += 1;
        }
    }
    for id in ids {
        accepted(rt, works.delete(*id));
    }
    completed
}

/// How many works are queued, running and finished once a third is cancelled, and once the others ran. How many completions begin.
fn many_works(rt: &impl Abort, alloc: Global) -> ([[u64; 3]; 2], u64) {
    let mut works: Works = ample(rt, Pool::new(alloc));
    let ids = queue_works(rt, alloc, &mut works);
    cancel_works(rt, &mut works, &ids);
    let waiting = counts(&works);
    run_works(rt, &mut works);
    let ran = counts(&works);
    ([waiting, ran], complete_works(rt, &mut works, &ids))
}

#[test]
fn many_works_run(rt: HostRuntime) {
    let found = many_works(&rt, rt.alloc());
    let want = ([[RUN, 0, WORKS - RUN], [0, 0, WORKS]], WORKS);
    assert_eq!(rt; found, want);
}

/// So many items are queued, each by a thread that comes and goes.
fn queue_items(rt: &impl Abort, function: &mut Tsfn, items: u64)
    requires none { accepted_items function.old ≡ 0 }
    requires few { items < 2 ^ 18 }
    ensures { accepted_items function.new < 2 ^ 20 }
{
    for _item in 0..items {
        function.acquire();
        add(rt, function, 7);
        function.release(Release::Release);
    }
}

/// How many of so many items are delivered.
fn deliver_items(rt: &impl Abort, function: &mut Tsfn, items: u64) -> u64 {
    let mut delivered = 0;
    for _item in 0..items {
        if deliver(rt, function).is_some() {
            delivered += 1;
        }
    }
    delivered
}

/// So many items are queued with a function of this maximum. How many wait then, what is answered to one more, and how many are delivered.
fn many_items(rt: &impl Abort, alloc: Global, max: u32, items: u64) -> (u64, Tried, u64)
    requires { items < 2 ^ 18 }
{
    let mut function = created(rt, alloc, max, 1, None);
    queue_items(rt, &mut function, items);
    let waiting = function.queued();
    let next = ample(rt, function.call(8, Mode::Nonblocking, Actor::Env));
    (waiting, next, deliver_items(rt, &mut function, items))
}

#[test]
fn many_items_wait(rt: HostRuntime) {
    for (max, items, next) in [
        (0, 70_000, Tried::Answer(Status::Ok, Some(70_001))),
        (65_536, 65_536, Tried::Answer(Status::QueueFull, None)),
    ] {
        let found = many_items(&rt, rt.alloc(), max, items);
        assert_eq!(rt; found, (items, next, items), "with a maximum of {max}");
    }
}
