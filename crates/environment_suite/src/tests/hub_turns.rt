//! Turns of the environment at a hub without threads and workers, with few places: what is pending, where a frame is cut, and what addons are
//! asked. The two lists were worked out by hand.
ghost use Rattle.std.specs.Prelude.{◌≡◌, ◌≤◌, length, None};
ghost use Rattle.napi_types.specs.plain.Room.{most_entries};

use super::driving::{
    Entries, InHistory, InJournal, LEAVE, callers, history_of, journal_of, list_of, opened,
    opened_hub, to_end,
};
use addon_trait::Addon;
use napi_types::{
    AddonPlan, Ask, Begun, Call, Due, HandleId, JobSpec, Mode, Release, Reply, SeenList, TsfnId,
    WorkId,
};
use shared_hub::Naming;
use std::alloc::Global;
use std::marker::Brand;
use std::process::Abort;

/// How many turns a run makes, and what the entries of its journal and of its history tell.
type Ran = (u64, Vec<InJournal>, Vec<InHistory>);

/// A run of one addon, with so many places in the journal and in the history.
fn ran<N: Naming>(
    rt: &impl Abort,
    alloc: Global,
    mut addons: Vec<Box<dyn Addon>>,
    places: (u32, u32),
) -> Ran
    requires named { N.numbers ≡ record { threads = 0; workers = 0; limits = record { journal = 0; history = places.1 } } }
    requires one { length addons.items ≡ 1 }
    requires room { (4 ≤ places.0) × (5 ≤ places.1) }
    requires most { (places.0 ≤ most_entries) × (places.1 ≤ most_entries) }
{
    let mut hub = opened_hub::<N>(rt, alloc, 0, 0, places.1);
    let mut env = opened(rt, alloc, places.0);
    let turns = to_end(rt, &mut env, &mut hub, &mut addons);
    let record = env.into_record(hub);
    (
        turns,
        journal_of(rt, alloc, &record),
        history_of(rt, alloc, &record),
    )
}

/// The numbers are named here.
fn ran_within(
    rt: &impl Abort,
    alloc: Global,
    addons: Vec<Box<dyn Addon>>,
    places: (u32, u32),
) -> Ran
    requires one { length addons.items ≡ 1 }
    requires room { (4 ≤ places.0) × (5 ≤ places.1) }
    requires most { (places.0 ≤ most_entries) × (places.1 ≤ most_entries) }
{
    ran::<Brand>(rt, alloc, addons, places)
}

const FUNCTION: TsfnId = TsfnId(1);

/// A call that puts an item in the queue of the first function.
const ITEM: Ask = Ask::Do(Call::CallThreadsafeFunction(FUNCTION, 7, Mode::Nonblocking));

/// A call that makes a function whose items begin frames of entry 1.
const CREATION: Ask = Ask::Do(Call::CreateThreadsafeFunction(None, Some(1), 0, 1, None, 5));

/// A call that leaves its entry in the journal.
const VERSION: Ask = Ask::Do(Call::GetVersion);

/// A function with one item. Entry 1, which runs for each, adds three more.
const THREE_CALLS: Entries = [
    [CREATION, ITEM, LEAVE, LEAVE, LEAVE],
    [ITEM, ITEM, ITEM, LEAVE, LEAVE],
];

/// Such a function, and entry 1 makes four calls that leave their entries in the journal.
const FOUR_VERSIONS: Entries = [
    [CREATION, ITEM, LEAVE, LEAVE, LEAVE],
    [VERSION, VERSION, VERSION, VERSION, LEAVE],
];

/// A function without an entry of its own, with two items, which is aborted.
const TORN: Entries = [
    [
        Ask::Do(Call::CreateFunction(1, 70)),
        Ask::Do(Call::CreateThreadsafeFunction(Some(HandleId(1)), None, 0, 1, None, 5)),
        ITEM,
        ITEM,
        Ask::Do(Call::ReleaseThreadsafeFunction(FUNCTION, Release::Abort)),
    ],
    [VERSION; 5],
];

/// A work that is queued. Entry 1 completes it.
const WORK: Entries = [
    [
        Ask::Do(Call::CreateAsyncWork(JobSpec::Sum(3), 1, 7)),
        Ask::Do(Call::QueueAsyncWork(WorkId(1))),
        LEAVE,
        LEAVE,
        LEAVE,
    ],
    [VERSION, LEAVE, LEAVE, LEAVE, LEAVE],
];

/// No number of a status, of an ask or of a duty.
const PLAIN: [u64; 3] = [0; 3];

const OPENED: InJournal = ("number", 9, 0);

const BEGUN: InJournal = ("begin", 0, 0);

const FUNCTION_1: InHistory = ("env", "function", 1, PLAIN);

/// The call of a frame with the number of its ask, and the item that it makes.
const ITEM_1: InHistory = ("env", "status", 0, [0, 1, 1]);

const GO: InHistory = ("env", "go", 0, PLAIN);

const END: InHistory = ("env", "end", 0, PLAIN);

const CUT: InHistory = ("env", "cut for room", 0, PLAIN);

const IDLE: InHistory = ("env", "idle", 0, PLAIN);

const QUIET: InHistory = ("env", "quiet", 0, PLAIN);

const DRAIN: InHistory = ("env", "drain", 0, PLAIN);

const FINISHED: InHistory = ("env", "finished", 1, PLAIN);

const FINALS: InHistory = ("env", "finals", 0, PLAIN);

/// Compares the run of one addon, with so many places in the journal and in the history, with what it is to come to: how many turns it
/// makes, and what its journal and its history tell.
fn compare(
    rt: &impl Abort,
    alloc: Global,
    entries: Entries,
    places: (u32, u32),
    expected: (u64, &[InJournal], &[InHistory]),
) {
    let within = (places.0.clamp(4, 100), places.1.clamp(5, 100));
    let found = ran_within(rt, alloc, callers(rt, alloc, entries), within);
    assert_eq!(rt; (found.0, found.1.as_slice(), found.2.as_slice()), expected);
}

/// A call of a function wants three places. Two are accepted, and the third is stopped in a turn of its own. Its frame ends in the next one, at the
/// hub. The frames of the other two items find no place either.
#[test]
fn a_frame_of_the_hub_is_cut_in_the_turn_after_its_call_was_stopped(rt: HostRuntime) {
    compare(
        &rt,
        rt.alloc(),
        THREE_CALLS,
        (100, 18),
        (
            21,
            &[OPENED, BEGUN, ("status", 0, 2), ("status", 0, 15)],
            &[
                FUNCTION_1,
                ITEM_1,
                GO,
                ("env", "item", 1, PLAIN),
                ("env", "status", 0, [0, 0, 2]),
                ("env", "status", 0, [0, 1, 3]),
                CUT,
                ("env", "item", 2, PLAIN),
                CUT,
                ("env", "item", 3, PLAIN),
                CUT,
                QUIET,
                DRAIN,
                FINISHED,
                FINALS,
            ],
        ),
    );
}

/// The first call of an init frame is stopped. The frame ends in the next turn, and its addon is not asked again.
#[test]
fn a_frame_is_cut_whose_call_the_hub_stopped(rt: HostRuntime) {
    compare(
        &rt,
        rt.alloc(),
        THREE_CALLS,
        (100, 7),
        (
            8,
            &[OPENED, BEGUN, ("cut for room", 0, 0), ("status", 0, 4)],
            &[GO, IDLE, DRAIN, FINALS],
        ),
    );
}

/// The journal has two places more than it owes. The third call is stopped, and its frame ends at the hub in the same turn.
#[test]
fn a_frame_of_the_hub_is_cut_in_the_turn_of_a_local_call_without_a_place(rt: HostRuntime) {
    compare(
        &rt,
        rt.alloc(),
        FOUR_VERSIONS,
        (6, 100),
        (
            14,
            &[
                OPENED,
                BEGUN,
                ("status", 0, 2),
                ("number", 10, 4),
                ("number", 10, 4),
                ("status", 0, 9),
            ],
            &[
                FUNCTION_1,
                ITEM_1,
                GO,
                ("env", "item", 1, PLAIN),
                CUT,
                QUIET,
                DRAIN,
                FINISHED,
                FINALS,
            ],
        ),
    );
}

/// The frames of torn items of a function without an entry of its own make no asks.
#[test]
fn torn_items_without_an_entry_make_no_asks(rt: HostRuntime) {
    compare(
        &rt,
        rt.alloc(),
        TORN,
        (100, 100),
        (
            17,
            &[
                OPENED,
                BEGUN,
                ("handle", 1, 0),
                ("status", 0, 4),
                ("status", 0, 13),
            ],
            &[
                ("env", "function", 1, [0, 1, 0]),
                ("env", "status", 0, [0, 2, 1]),
                ("env", "status", 0, [0, 3, 2]),
                ("env", "status", 0, [0, 4, 0]),
                GO,
                ("env", "torn", 1, PLAIN),
                END,
                ("env", "torn", 2, PLAIN),
                END,
                FINISHED,
                IDLE,
                DRAIN,
                FINALS,
            ],
        ),
    );
}

/// Where there are no workers the loop ends beside a work that waits. The drain cancels it, and its frame begins with the status 11.
#[test]
fn a_work_is_cancelled_where_there_are_no_workers(rt: HostRuntime) {
    compare(
        &rt,
        rt.alloc(),
        WORK,
        (100, 100),
        (
            12,
            &[
                OPENED,
                BEGUN,
                ("status", 0, 2),
                ("number", 10, 6),
                ("status", 0, 8),
            ],
            &[
                ("env", "work", 1, PLAIN),
                ITEM_1,
                GO,
                QUIET,
                ("env", "drain", 1, PLAIN),
                ("env", "completion", 1, [11, 0, 0]),
                END,
                FINALS,
            ],
        ),
    );
}

/// An addon that counts how often it was asked. Its entry 0 makes a function, puts an item in its queue, and adds a hook; entry 1, which
/// runs for the item, leaves; entry 2, the hook's, makes a number of the count, and asks for it.
#[derive(Drop)]
struct Counter {
    asked: i64,
    registers: [u64; 32],
    seen: SeenList,
}

impl Addon for Counter {
    ghost plan = { λ _. None };

    ghost regs = { λ addon. addon.registers };

    ghost seen = { λ addon. addon.seen };

    fn load(&mut self, _given: AddonPlan) {
        self.registers = [0; 32];
    }

    fn enter(&mut self, _entry: u32, gifts: &[u64; 8]) {
        self.registers[24..].copy_from_slice(gifts);
    }

    fn begin(&mut self, due: Due) -> Begun {
        let info = *due.info();
        self.enter(info.entry, &info.gifts);
        due.begin(&mut self.seen)
    }

    fn ask(&mut self, entry: u32, step: u32) -> Ask {
        self.asked = self.asked.wrapping_add(1);
        match (entry, step) {
            (0, 0) => CREATION,
            (0, 1) => ITEM,
            (0, 2) => Ask::Do(Call::AddEnvCleanupHook(2, 0)),
            (2, 0) => Ask::Do(Call::CreateInt64(self.asked)),
            (2, 1) => Ask::Do(Call::GetValueInt64(HandleId(1))),
            _ => LEAVE,
        }
    }

    fn note(&mut self, _entry: u32, _step: u32, _reply: &Reply) {}
}

/// What an addon that counts is asked, and the two lists.
fn counted(rt: &impl Abort, alloc: Global) -> Ran {
    let addon = Counter {
        asked: 0,
        registers: [0; 32],
        seen: SeenList::new(),
    };
    let addon = Box::new(alloc, addon).expect(rt, "an addon");
    ran_within(rt, alloc, list_of(rt, alloc, addon), (100, 100))
}

/// While a call or the end of a frame is pending the environment is asked for its turn three times, and the addon is asked once. So the hook's
/// first ask is the sixth, after three calls and two frames that leave.
#[test]
fn an_addon_that_tells_no_plan_is_asked_once_while_something_is_owed(rt: HostRuntime) {
    let found = counted(&rt, rt.alloc());
    let journal: &[InJournal] = &[
        OPENED,
        BEGUN,
        ("status", 0, 2),
        ("status", 0, 2),
        ("begin", 1, 6),
        ("handle", 1, 6),
        ("signed", 6, 6),
        ("status", 0, 6),
        ("status", 0, 9),
    ];
    let history: &[InHistory] = &[
        FUNCTION_1,
        ITEM_1,
        GO,
        ("env", "item", 1, PLAIN),
        END,
        QUIET,
        DRAIN,
        FINISHED,
        FINALS,
    ];
    assert_eq!(&rt;
        (found.0, found.1.as_slice(), found.2.as_slice()),
        (17, journal, history)
    );
}
