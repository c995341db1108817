//! Bursts of the environment's turns at the hub: how many entries each makes, and whom its events leave to be rung. The bursts and the history
//! were worked out by hand.
ghost use Rattle.std.specs.Prelude.{◌≡◌, ◌≤◌, length, None};
ghost use Rattle.napi_types.specs.declared.entry.Phase.TheVariants as phase;
ghost use Rattle.env_loop.specs.RecordedRuns.{FitsHub};
ghost use Rattle.env_loop.specs.Turns.{needs_hub};

use super::driving::{InHistory, LEAVE, history_of, list_of, opened, opened_hub};
use addon_trait::Addon;
use env_loop::{EnvRun, LocalTurn};
use napi_types::{
    AddonPlan, Ask, Begun, Call, Due, HandleId, Mode, Release, Reply, SeenList, TsfnId,
};
use script_addon::ScriptJob;
use shared_hub::{HubState, Naming, WaitsFor};
use std::alloc::Global;
use std::marker::Brand;
use std::process::Abort;

/// How many turns no run of these tests makes.
const MANY: u64 = 1000;

/// How many entries the history may have.
const PLACES: u32 = 400;

const FUNCTION: TsfnId = TsfnId(1);

/// What the addon does with its function.
#[derive(Clone, Copy)]
enum Does {
    /// The function has no entry of its own, so a function of the addon stands for it. So many items are put in its queue, and it is aborted.
    Aborts(u32),
    /// Its items begin frames of entry 1. An item fills its queue.
    Fills,
}

/// An addon that makes a function.
#[derive(Drop)]
struct Maker {
    does: Does,
    registers: [u64; 32],
    seen: SeenList,
}

impl Addon for Maker {
    ghost plan = { λ _. None };

    ghost regs = { λ addon. addon.registers };

    ghost seen = { λ addon. addon.seen };

    fn load(&mut self, _given: AddonPlan) {
        self.registers = [0; 32];
    }

    fn enter(&mut self, _entry: u32, gifts: &[u64; 8]) {
        self.registers[24..].copy_from_slice(gifts);
    }

    fn begin(&mut self, due: Due) -> Begun {
        let info = *due.info();
        self.enter(info.entry, &info.gifts);
        due.begin(&mut self.seen)
    }

    fn ask(&mut self, entry: u32, step: u32) -> Ask {
        match (entry, self.does) {
            (0, Does::Aborts(items)) => aborting(items, step),
            (0, Does::Fills) => filling(step),
            _ => LEAVE,
        }
    }

    fn note(&mut self, _entry: u32, _step: u32, _reply: &Reply) {}
}

/// A call that puts an item in the queue of the function.
const ITEM: Ask = Ask::Do(Call::CallThreadsafeFunction(FUNCTION, 7, Mode::Nonblocking));

/// What entry 0 asks at a step that aborts its function after so many items.
fn aborting(items: u32, step: u32) -> Ask {
    let last = items.saturating_add(2);
    match step {
        0 => Ask::Do(Call::CreateFunction(1, 70)),
        1 => Ask::Do(Call::CreateThreadsafeFunction(Some(HandleId(1)), None, 0, 1, None, 5)),
        _ if step < last => ITEM,
        _ if step == last => Ask::Do(Call::ReleaseThreadsafeFunction(FUNCTION, Release::Abort)),
        _ => LEAVE,
    }
}

/// What entry 0 asks at a step that fills the queue of its function.
fn filling(step: u32) -> Ask {
    match step {
        0 => Ask::Do(Call::CreateThreadsafeFunction(None, Some(1), 1, 1, None, 5)),
        1 => ITEM,
        _ => LEAVE,
    }
}

/// How many entries a burst made, and which passes are to be rung after it, a bit for each.
type Made = (u32, u64);

/// A burst of at most so many entries. The pass 1 sleeps until the loop goes, and the pass 2 until the function has room.
fn burst<N: Naming>(
    env: &mut EnvRun,
    hub: &mut HubState<ScriptJob, N>,
    addons: &mut Vec<Box<dyn Addon>>,
    most: u32,
) -> Made
    requires some { 1 ≤ most }
    requires few { most ≤ 64 }
    requires needs { needs_hub env.old }
    requires fits { FitsHub env.old hub.old }
    requires enough { env.old.core.env.addons ≤ length addons.old.items }
    ensures fits { FitsHub env.new hub.new }
    ensures enough { env.new.core.env.addons ≤ length addons.new.items }
{
    hub.note_sleep(1, WaitsFor::Go);
    hub.note_sleep(2, WaitsFor::Room(FUNCTION));
    let burst = env.hub_burst(hub, addons, most);
    (burst.made, hub.take_rings())
}

/// The bursts of a run until the environment is gone.
fn bursts_of<N: Naming>(
    rt: &impl Abort,
    alloc: Global,
    env: &mut EnvRun,
    hub: &mut HubState<ScriptJob, N>,
    addons: &mut Vec<Box<dyn Addon>>,
    most: u32,
) -> Vec<Made>
    requires some { 1 ≤ most }
    requires few { most ≤ 64 }
    requires fits { FitsHub env.old hub.old }
    requires enough { env.old.core.env.addons ≤ length addons.old.items }
    ensures { env.new.core.env.phase ≡ phase.Gone }
{
    let mut bursts = Vec::new(alloc);
    for _ in 0..MANY {
        match env.local_turn(addons) {
            LocalTurn::Made => {}
            LocalTurn::NeedsHub => {
                let made = burst(env, hub, addons, most);
                bursts.push(made).expect(rt, "a place");
            }
            LocalTurn::Gone => return bursts,
        }
    }
    panic!(rt; "the run does not end")
}

/// The bursts of a run of one addon, and its history.
fn ran<N: Naming>(
    rt: &impl Abort,
    alloc: Global,
    does: Does,
    most: u32,
) -> (Vec<Made>, Vec<InHistory>)
    requires named { N.numbers ≡ record { threads = 0; workers = 0; limits = record { journal = 0; history = 400 } } }
    requires some { 1 ≤ most }
    requires few { most ≤ 64 }
{
    let maker = Maker {
        does,
        registers: [0; 32],
        seen: SeenList::new(),
    };
    let mut addons = list_of(rt, alloc, Box::new(alloc, maker).expect(rt, "an addon"));
    let mut hub = opened_hub::<N>(rt, alloc, 0, 0, PLACES);
    let mut env = opened(rt, alloc, PLACES);
    let bursts = bursts_of(rt, alloc, &mut env, &mut hub, &mut addons, most);
    let record = env.into_record(hub);
    (bursts, history_of(rt, alloc, &record))
}

/// How many entries each burst of a run made after the calls of entry 0, each of which is a burst of its own; and the begins and ends of frames.
fn torn(rt: &impl Abort, alloc: Global, items: u32, most: u32) -> (Vec<u32>, Vec<InHistory>) {
    let (bursts, history) = ran::<Brand>(rt, alloc, Does::Aborts(items), most.clamp(1, 64));
    let mut sizes = Vec::new(alloc);
    let calls = items as usize + 2;
    for (made, _) in bursts.iter().skip(calls) {
        sizes.push(*made).expect(rt, "a place");
    }
    let mut frames = Vec::new(alloc);
    for entry in history.iter() {
        if entry.1 == "torn" || entry.1 == "end" {
            frames.push(*entry).expect(rt, "a place");
        }
    }
    (sizes, frames)
}

/// The begin and the end of the frame of each of so many items, in their order.
fn in_order(rt: &impl Abort, alloc: Global, items: u32) -> Vec<InHistory> {
    let mut frames = Vec::new(alloc);
    for item in 0..items {
        frames
            .push(("env", "torn", item as u64 + 1, [0; 3]))
            .expect(rt, "a place");
        frames.push(("env", "end", 0, [0; 3])).expect(rt, "a place");
    }
    frames
}

/// The frames of torn items make no asks. So they share bursts with `go` before them, and with what comes after them: the function finishes, the loop
/// ends, and the teardown drains and comes to `finals`.
#[test]
fn torn_items_share_bursts(rt: HostRuntime) {
    let alloc = rt.alloc();
    let rows: &[(u32, u32, &[u32])] = &[
        (100, 64, &[64, 64, 64, 13]),
        (2, 64, &[9]),
        (2, 4, &[4, 4, 1]),
        (2, 3, &[3, 3, 3]),
        (1, 1, &[1; 7]),
    ];
    for (items, most, sizes) in rows {
        let found = torn(&rt, alloc, *items, *most);
        let frames = in_order(&rt, alloc, *items);
        assert_eq!(&rt;
            (found.0.as_slice(), found.1.as_slice()),
            (*sizes, frames.as_slice())
        );
    }
}

/// A call rings nobody. `go` rings the first pass, and the begin of the item, which empties a full queue, the second. The second is rung again where
/// there is nothing to do, and the first by the drain.
#[test]
fn a_burst_forgets_nobody_who_is_to_be_rung(rt: HostRuntime) {
    let (bursts, _) = ran::<Brand>(&rt, rt.alloc(), Does::Fills, 64);
    let expected: &[Made] = &[(1, 0), (1, 0), (2, 6), (5, 6)];
    assert_eq!(&rt; bursts.as_slice(), expected);
}
