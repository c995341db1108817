//! Whole journals of addons that tell no plan, with room for fewer and fewer of their calls: what such an addon is asked and told. The first call that finds
//! no place is not made, and its frame is cut. Places for the ends, for the frame of each ticket and for `gone` are kept.
ghost use Rattle.std.specs.Prelude.{◌≡◌, length, None};

use super::driving::{Entries, LEAVE, callers, opened, opened_hub, to_end};
use super::turns::examples;
use super::{DONE, Found, NONE, told};
use addon_trait::Addon;
use napi_types::{Ask, Call, HandleId, Record};
use shared_hub::Naming;
use std::alloc::Global;
use std::marker::Brand;
use std::process::Abort;

/// A list of one addon: the example, or one that makes these calls.
fn addons_of(rt: &impl Abort, alloc: Global, entries: Option<Entries>) -> Vec<Box<dyn Addon>>
    ensures { length result.items ≡ 1 }
{
    match entries {
        Some(entries) => callers(rt, alloc, entries),
        None => examples(rt, alloc),
    }
}

/// What the entries of a journal tell.
fn entries_of(rt: &impl Abort, alloc: Global, record: &Record) -> Vec<Found> {
    let mut entries = Vec::new(alloc);
    for local in record.journal.items() {
        entries.push(told(&local.entry.reply)).expect(rt, "a place");
    }
    entries
}

/// The journal of the run of one addon, with so many places.
fn journal_within<N: Naming, A: Abort>(
    rt: &A,
    alloc: Global,
    entries: Option<Entries>,
    places: u32,
) -> Vec<Found>
    requires named { N.numbers ≡ record { threads = 0; workers = 0; limits = record { journal = 0; history = 100 } } }
{
    let mut addons = addons_of(rt, alloc, entries);
    let mut hub = opened_hub::<N>(rt, alloc, 0, 0, 100);
    let mut env = opened(rt, alloc, places.clamp(4, 100));
    to_end(rt, &mut env, &mut hub, &mut addons);
    entries_of(rt, alloc, &env.into_record(hub))
}

/// The version that the opening tells, and the begins of frames: of one that no ticket began, and of those of tickets.
const OPENED: Found = ("number", 9, NONE);

const BEGUN: Found = ("begin", 0, NONE);

const BEGUN_1: Found = ("begin", 1, NONE);

const BEGUN_2: Found = ("begin", 2, NONE);

const BEGUN_3: Found = ("begin", 3, NONE);

/// The end of a frame that no call began, and of a call's, where they are cut.
const CUT: Found = ("cut for room", 0, NONE);

const CALL_CUT: Found = ("cut for room", 9, NONE);

/// Handles, and what the example is told beside them: the reference, its counts, the count that is refused, and the length of the array. Handle 1 is
/// the array's, 2 the function's, 3 the missing receiver's in the function's frame, and 4 what the call gives.
const HANDLE_1: Found = ("handle", 1, NONE);

const HANDLE_2: Found = ("handle", 2, NONE);

const HANDLE_3: Found = ("handle", 3, NONE);

const HANDLE_4: Found = ("handle", 4, NONE);

const REF_1: Found = ("reference", 1, NONE);

const COUNT_1: Found = ("number", 1, NONE);

const COUNT_0: Found = ("number", 0, NONE);

const REFUSED: Found = ("status", 9, NONE);

const LENGTH: Found = ("number", 3, NONE);

/// Calls that register under a ticket, of which one withdraws another.
const TICKET_1: Found = ("status", 0, [1, 0, 0, 0, 0, 0, 0, 0]);

const TICKET_2: Found = ("status", 0, [2, 0, 0, 0, 0, 0, 0, 0]);

const TICKET_3: Found = ("status", 0, [3, 0, 0, 0, 0, 0, 0, 0]);

const OTHER_2: Found = ("status", 0, [2, 1, 0, 0, 0, 0, 0, 0]);

/// What the frames of the tickets ask.
const UNDEFINED: Ask = Ask::Do(Call::GetUndefined);

/// An object with two finalizers.
const FINALIZERS: Entries = [
    [
        Ask::Do(Call::CreateObject),
        Ask::Do(Call::AddFinalizer(HandleId(1), 7, 1, 8, false)),
        Ask::Do(Call::AddFinalizer(HandleId(1), 9, 1, 10, false)),
        LEAVE,
        LEAVE,
    ],
    [UNDEFINED, LEAVE, LEAVE, LEAVE, LEAVE],
];

/// Instance data with a finalizer, other data with another in its place, and a hook.
const DATA: Entries = [
    [
        Ask::Do(Call::SetInstanceData(7, Some(1), 8)),
        Ask::Do(Call::SetInstanceData(9, Some(1), 10)),
        Ask::Do(Call::AddEnvCleanupHook(1, 5)),
        LEAVE,
        LEAVE,
    ],
    [UNDEFINED, LEAVE, LEAVE, LEAVE, LEAVE],
];

/// How many places a journal has, and what its entries tell: of the example. A call of a function wants two places.
static OF_EXAMPLE: [(u32, &[Found]); 8] = [
    (4, &[OPENED, BEGUN, CUT, DONE]),
    (5, &[OPENED, BEGUN, HANDLE_1, CUT, DONE]),
    (
        9,
        &[
            OPENED, BEGUN, HANDLE_1, REF_1, COUNT_1, COUNT_0, REFUSED, CUT, DONE,
        ],
    ),
    (
        10,
        &[
            OPENED, BEGUN, HANDLE_1, REF_1, COUNT_1, COUNT_0, REFUSED, HANDLE_2, CUT, DONE,
        ],
    ),
    (
        11,
        &[
            OPENED, BEGUN, HANDLE_1, REF_1, COUNT_1, COUNT_0, REFUSED, HANDLE_2, CUT, DONE,
        ],
    ),
    (
        12,
        &[
            OPENED, BEGUN, HANDLE_1, REF_1, COUNT_1, COUNT_0, REFUSED, HANDLE_2, BEGUN, CALL_CUT,
            DONE, DONE,
        ],
    ),
    (
        13,
        &[
            OPENED, BEGUN, HANDLE_1, REF_1, COUNT_1, COUNT_0, REFUSED, HANDLE_2, BEGUN, DONE,
            HANDLE_4, CUT, DONE,
        ],
    ),
    (
        14,
        &[
            OPENED, BEGUN, HANDLE_1, REF_1, COUNT_1, COUNT_0, REFUSED, HANDLE_2, BEGUN, DONE,
            HANDLE_4, LENGTH, DONE, DONE,
        ],
    ),
];

/// Of two finalizers. A call that registers wants three places, two of them for the frame of its ticket. So that frame begins and ends also where it
/// has no place for a call; it is cut then.
static OF_FINALIZERS: [(u32, &[Found]); 8] = [
    (4, &[OPENED, BEGUN, CUT, DONE]),
    (5, &[OPENED, BEGUN, HANDLE_1, CUT, DONE]),
    (7, &[OPENED, BEGUN, HANDLE_1, CUT, DONE]),
    (
        8,
        &[OPENED, BEGUN, HANDLE_1, TICKET_1, CUT, BEGUN_1, CUT, DONE],
    ),
    (
        10,
        &[
            OPENED, BEGUN, HANDLE_1, TICKET_1, CUT, BEGUN_1, HANDLE_2, DONE, DONE,
        ],
    ),
    (
        11,
        &[
            OPENED, BEGUN, HANDLE_1, TICKET_1, TICKET_2, DONE, BEGUN_1, CUT, BEGUN_2, CUT, DONE,
        ],
    ),
    (
        12,
        &[
            OPENED, BEGUN, HANDLE_1, TICKET_1, TICKET_2, DONE, BEGUN_1, HANDLE_2, DONE, BEGUN_2,
            CUT, DONE,
        ],
    ),
    (
        13,
        &[
            OPENED, BEGUN, HANDLE_1, TICKET_1, TICKET_2, DONE, BEGUN_1, HANDLE_2, DONE, BEGUN_2,
            HANDLE_3, DONE, DONE,
        ],
    ),
];

/// Of data and a hook. The second data wants three places too, though the first then gives two back.
static OF_DATA: [(u32, &[Found]); 5] = [
    (6, &[OPENED, BEGUN, CUT, DONE]),
    (7, &[OPENED, BEGUN, TICKET_1, CUT, BEGUN_1, CUT, DONE]),
    (
        9,
        &[OPENED, BEGUN, TICKET_1, CUT, BEGUN_1, HANDLE_1, DONE, DONE],
    ),
    (
        10,
        &[
            OPENED, BEGUN, TICKET_1, OTHER_2, CUT, BEGUN_2, HANDLE_1, DONE, DONE,
        ],
    ),
    (
        11,
        &[
            OPENED, BEGUN, TICKET_1, OTHER_2, TICKET_3, DONE, BEGUN_3, CUT, BEGUN_2, CUT, DONE,
        ],
    ),
];

/// Compares the journals of runs of one addon.
fn compare(rt: &impl Abort, alloc: Global, entries: Option<Entries>, journals: &[(u32, &[Found])]) {
    for (places, expected) in journals {
        let found = journal_within::<Brand, _>(rt, alloc, entries, *places);
        assert_eq!(rt; found.as_slice(), *expected, "with {places} places");
    }
}

#[test]
fn the_first_call_without_a_place_cuts_its_frame(rt: HostRuntime) {
    compare(&rt, rt.alloc(), None, &OF_EXAMPLE);
    compare(&rt, rt.alloc(), Some(FINALIZERS), &OF_FINALIZERS);
    compare(&rt, rt.alloc(), Some(DATA), &OF_DATA);
}
