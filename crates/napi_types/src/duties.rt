//! Duties that fall due: the tokens that must be spent, so that none that is taken is lost and none begins twice, and the list of what an addon has seen.
//!
//! A [`Slip`] has the memory for one line of such a list. It is armed with what a duty tells, and is then a [`Due`]; that
//! begins, and is then a [`Begun`]; that ends. The language lets neither of the last two go and uses neither twice.
ghost use Rattle.std.specs.Prelude.{◌≡◌, ◌++◌, ◌^◌, ◌-◌, [], ◌∷◌, length, min};

use crate::{Cause, Duty, NoMemory, Status};
use std::alloc::Global;
use std::marker::Model;
use std::mem;
use std::snapshot::Snapshot;

/// What a duty tells the addon whose frame it begins.
#[derive(Clone, Copy)]
pub struct DueInfo {
    pub duty: Duty,
    pub cause: Cause,
    /// The addon, counted from 0.
    pub addon: u32,
    /// The entry of the addon that runs, counted from 0.
    pub entry: u32,
    /// How the duty came out: `Ok`, or why a work did not run.
    pub status: Status,
    /// What goes to registers 24 to 31 of the addon.
    pub gifts: [u64; 8],
    /// Whether the frame makes asks.
    pub runs: bool,
}

/// The lines of a list, the last one first. Each has the box of its own slip. What a line tells only clauses read, so it takes no bytes.
enum Lines {
    Empty,
    Line(Snapshot<DueInfo>, Box<Lines>),
}

// A loop, so that many lines do not run out of stack.
impl Drop for Lines {
    fn drop(mut self) {
        loop {
            match self {
                Lines::Empty => return,
                Lines::Line(_, before) => self = Box::into_inner(before),
            }
        }
    }
}

/// The memory for one line of a [`SeenList`]. It is taken as a duty is made, so that none is wanted as the duty begins.
#[derive(Drop)]
pub struct Slip {
    place: Box<Lines>,
}

impl Slip {
    /// Takes the memory.
    pub fn new(alloc: Global) -> Result<Slip, NoMemory> {
        let place = Box::new(alloc, Lines::Empty)?;
        Ok(Slip { place })
    }

    /// Arms the slip with what a duty tells: the duty is due.
    pub fn arm(self, info: DueInfo) -> Due
        ensures { result ≡ info }
    {
        let Slip { place } = self;
        Due { place, info }
    }

    /// Gives the memory back, of a duty that was withdrawn.
    pub fn discard(self) {
        let _ = self;
    }
}

/// A duty that is due. It has to be spent, by [`Due::begin`].
pub struct Due {
    place: Box<Lines>,
    info: DueInfo,
}

impl Model for Due {
    ghost use Rattle.napi_types.specs.declared.duties.DueInfo.{DueInfo};

    ghost Value = { DueInfo };

    ghost view = { λ due. due.info };
}

impl Due {
    /// What the duty tells.
    pub fn info(&self) -> &DueInfo
        ensures { result.now ≡ self.now }
    {
        &self.info
    }

    /// The duty begins: what it tells is the last line of what was seen. It takes no memory, since the slip has it.
    pub fn begin(self, seen: &mut SeenList) -> Begun
        ensures begun { result ≡ self }
        ensures seen { seen.new ≡ seen.old ++ self ∷ [] }
    {
        let Due { mut place, info } = self;
        *place = mem::replace(&mut seen.lines, Lines::Empty);
        seen.lines = Lines::Line(Snapshot::of(&info), place);
        seen.count = seen.count.saturating_add(1);
        Begun { info }
    }
}

/// A duty that has begun. It has to be spent, by [`Begun::end`].
pub struct Begun {
    info: DueInfo,
}

impl Model for Begun {
    ghost use Rattle.napi_types.specs.declared.duties.DueInfo.{DueInfo};

    ghost Value = { DueInfo };

    ghost view = { λ begun. begun.info };
}

impl Begun {
    /// What the duty told as it began.
    pub fn info(&self) -> &DueInfo
        ensures { result.now ≡ self.now }
    {
        &self.info
    }

    /// The duty ends.
    pub fn end(self) -> DueInfo
        ensures { result ≡ self }
    {
        let Begun { info } = self;
        info
    }
}

/// The duties that an addon has seen begin, in their order. The memory of its lines is that of their slips, so it takes none. What the lines tell is for
/// clauses alone: code reads how many there are.
#[derive(Drop)]
pub struct SeenList {
    lines: Lines,
    count: u64,
}

impl Model for SeenList {
    ghost use Rattle.std.specs.Prelude.{◌≡◌, ◌^◌, ◌-◌, List, length, min};
    ghost use Rattle.napi_types.specs.declared.duties.DueInfo.{DueInfo};
    ghost use Rattle.napi_types.specs.plain.SeenLines.{infos};

    ghost Value = { List DueInfo };

    ghost view = { λ seen. infos seen.lines };

    ghost invariant = { λ seen. seen.count ≡ min (length (infos seen.lines)) (2 ^ 64 - 1) };
}

impl SeenList {
    /// Nothing was seen.
    pub fn new() -> SeenList
        ensures { result ≡ [] }
    {
        SeenList {
            lines: Lines::Empty,
            count: 0,
        }
    }

    /// How many duties were seen, at most `u64::MAX`.
    pub fn len(&self) -> u64
        ensures { result ≡ min (length self.now) (2 ^ 64 - 1) }
    {
        self.count
    }
}
