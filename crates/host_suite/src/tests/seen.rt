//! What addons that tell no plan have seen, read after `host`: each of them the begins of its own finalizers, in order, with their gifts.
ghost use Rattle.std.specs.Prelude.{◌≡◌, ◌<◌, ◌≤◌, length, None};

use super::*;
use addon_trait::ask_at;
use napi_types::{AddonPlan, Ask, Begun, Call, Due, DueInfo, Duty, HandleId, Reply, SeenList};

/// An addon that tells no plan. In its init frame it makes an object and adds as many finalizers to it as its number says, counted
/// from 0. It keeps what begins, beside the list of what it has seen.
#[derive(Drop)]
struct Witness {
    registers: [u64; 32],
    number: u32,
    /// What began: the ticket, the payload and the hint. Only this many lines are kept.
    lines: [Line; MOST],
    seen: SeenList,
}

/// A begin: the ticket, the payload and the hint.
type Line = [u64; 3];

/// The most lines that a witness keeps.
const MOST: usize = 4;

/// The entry by which a test asks a witness what it has seen. No script has it.
const TELLS: u32 = 1_000_000;

/// The line of a begin.
fn line_of(info: &DueInfo) -> Line {
    let ticket = match info.duty {
        Duty::Ticket(ticket) => ticket.0,
        _ => 0,
    };
    [ticket, info.gifts[0], info.gifts[1]]
}

/// What the init frame of a witness asks. The objects of the three have the handles 1, 2 and 3.
fn init_ask(number: u32, step: u32) -> Ask {
    let object = HandleId(number as u64 + 1);
    match step {
        0 => Ask::Do(Call::CreateObject),
        _ if step <= number => {
            let payload = number as u64 * 10 + step as u64;
            Ask::Do(Call::AddFinalizer(object, payload, 5, payload + 100, false))
        }
        _ => Ask::Leave(None),
    }
}

impl Witness {
    /// What it tells a test: at step 0 how many duties it has seen, and at each further one a line.
    fn told(&self, step: u32) -> Ask {
        match self.lines.get((step as usize).wrapping_sub(1)) {
            Some(line) => Ask::Do(Call::TypeTagObject(HandleId(line[0]), line[1], line[2])),
            None => Ask::Do(Call::CreateFunction(0, self.seen.len())),
        }
    }
}

impl Addon for Witness {
    ghost plan = { λ _. None };

    ghost regs = { λ addon. addon.registers };

    ghost seen = { λ addon. addon.seen };

    fn load(&mut self, _given: AddonPlan) {
        self.registers = [0; 32];
    }

    fn enter(&mut self, _entry: u32, gifts: &[u64; 8]) {
        self.registers[24..].copy_from_slice(gifts);
    }

    fn begin(&mut self, due: Due) -> Begun {
        let info = *due.info();
        self.enter(info.entry, &info.gifts);
        let at = self.seen.len() as usize;
        if at < MOST {
            self.lines[at] = line_of(&info);
        }
        due.begin(&mut self.seen)
    }

    fn ask(&mut self, entry: u32, step: u32) -> Ask {
        match entry {
            0 => init_ask(self.number, step),
            _ if entry == TELLS => self.told(step),
            _ => Ask::Leave(None),
        }
    }

    fn note(&mut self, _entry: u32, _step: u32, _reply: &Reply) {}
}

/// What an addon has seen: how many duties, and the first lines.
type Seen = (u64, [Line; MOST]);

/// The line that an addon of a list tells at a step.
fn line_told(addons: &mut Vec<Box<dyn Addon>>, which: usize, step: u32) -> Line
    requires { which < length addons.old.items }
    ensures { length addons.new.items ≡ length addons.old.items }
{
    match ask_at(addons, which, TELLS, step) {
        Ask::Do(Call::TypeTagObject(ticket, payload, hint)) => [ticket.0, payload, hint],
        _ => NO_LINE,
    }
}

/// What an addon of a list tells that it has seen.
fn seen_by(addons: &mut Vec<Box<dyn Addon>>, which: usize) -> Seen
    requires { which < length addons.old.items }
    ensures { length addons.new.items ≡ length addons.old.items }
{
    let count = match ask_at(addons, which, TELLS, 0) {
        Ask::Do(Call::CreateFunction(_, count)) => count,
        _ => u64::MAX,
    };
    let lines = [
        line_told(addons, which, 1),
        line_told(addons, which, 2),
        line_told(addons, which, 3),
        line_told(addons, which, 4),
    ];
    (count, lines)
}

/// Scripts of three addons, and of two.
const THREE: &[u8] =
    br#"{"version":9,"workers":0,"addons":[{"name":"a","entries":[]},{"name":"b","entries":[]},{"name":"c","entries":[]}],"threads":[]}"#;

const TWO: &[u8] =
    br#"{"version":9,"workers":0,"addons":[{"name":"a","entries":[]},{"name":"b","entries":[]}],"threads":[]}"#;

const NO_LINE: Line = [0; 3];

const NOTHING_SEEN: Seen = (0, [NO_LINE; MOST]);

/// The second addon has one finalizer, with the ticket 1.
const SEEN_BY_THE_SECOND: Seen = (1, [[1, 11, 111], NO_LINE, NO_LINE, NO_LINE]);

/// The third addon has two, with the tickets 2 and 3. Where it is none of the script's it runs nothing.
const SEEN_BY_THE_THIRD: Seen = (2, [[2, 21, 121], [3, 22, 122], NO_LINE, NO_LINE]);

/// What three addons of a list have seen.
fn seen_by_each(addons: &mut Vec<Box<dyn Addon>>) -> [Seen; 3]
    requires { 3 ≤ length addons.old.items }
{
    [seen_by(addons, 0), seen_by(addons, 1), seen_by(addons, 2)]
}

/// The status of a run of a script with three witnesses, and what each of them has seen then.
fn seen_after<R: Abort + Threads + Wait + Sync>(
    rt: &R,
    alloc: Global,
    script: &[u8],
) -> (u8, [Seen; 3]) {
    let mut addons: Vec<Box<dyn Addon>> = Vec::new(alloc);
    for number in 0..3 {
        let witness = Witness {
            registers: [0; 32],
            number,
            lines: [NO_LINE; MOST],
            seen: SeenList::new(),
        };
        let addon = given(rt, Box::new(alloc, witness));
        given(rt, addons.push(addon));
    }
    let (status, _) = run_of(rt, alloc, script, &mut addons);
    if addons.len() < 3 {
        panic!(rt; "an addon is missing");
    }
    (status, seen_by_each(&mut addons))
}

#[test]
fn each_addon_has_seen_its_own_finalizers(rt: HostRuntime) {
    let alloc = rt.alloc();
    let found = [seen_after(&rt, alloc, THREE), seen_after(&rt, alloc, TWO)];
    assert_eq!(rt;
        found,
        [
            (0, [NOTHING_SEEN, SEEN_BY_THE_SECOND, SEEN_BY_THE_THIRD]),
            (0, [NOTHING_SEEN, SEEN_BY_THE_SECOND, NOTHING_SEEN]),
        ]
    );
}
