//! A list of rows under the lock, and a turn that adds to it.
ghost use Rattle.std.specs.Prelude.{◌≡◌, ◌+◌, ◌≤◌, ◌^◌, false, [], length};
ghost use Rattle.turn_lock.specs.Rows.{GoesOn};
ghost use Rattle.lock_suite.specs.Counting.{HasAdded};

use napi_types::{Actor, Call, Entry, Out, Reply, Status, What};
use std::alloc::Global;
use std::sync::Wait;
use turn_lock::{Pass, Row, Told, Turn};

// No test adds as many.
const MOST: usize = 1 << 20;

/// Rows. What who takes the turn knows of them is that they are no more than 2^20.
#[derive(Drop)]
pub struct Rows {
    pub rows: Vec<Row>,
    /// How often a pass looked for a row.
    pub looks: u64,
    pub ghost few: { length rows.items ≤ 2 ^ 20 },
}

impl Told for Rows {
    ghost told = { λ r. r.rows.items };

    fn told_len(&self) -> u64 {
        self.rows.len() as u64
    }
}

impl Rows {
    /// No rows.
    pub fn new(alloc: Global) -> Rows
        ensures { result.rows.items ≡ [] }
    {
        Rows {
            rows: Vec::new(alloc),
            looks: 0,
        }
    }

    /// Adds a row where there is room and memory, and answers how many it added.
    pub fn push(&mut self, row: Row) -> u64
        ensures adds { GoesOn row.pass self.old.rows.items self.new.rows.items }
        ensures count { length self.new.rows.items ≡ length self.old.rows.items + result }
        ensures few { result ≤ 1 }
    {
        if self.rows.len() < MOST && self.rows.push(row).is_ok() {
            return 1;
        }
        0
    }
}

/// A row of a pass.
pub(crate) fn row_of(pass: u32) -> Row
    ensures { result.pass ≡ pass }
{
    let entry = Entry {
        actor: Actor::Thread(pass),
        depth: 0,
        step: 0,
        what: What::Call(Call::GetVersion),
        reply: Reply::plain(Status::Ok, Out::Nothing),
        given: None,
    };
    Row {
        pass,
        environment: 0,
        entry,
    }
}

/// Takes the turn, adds a row where there is room and memory, and gives the turn back. Answers how many rows the pass added.
pub fn add<R: Wait>(rt: &R, turn: &Turn<Rows>, pass: &mut Pass) -> u64
    requires lock { pass.old.lock ≡ turn.now.lock }
    requires free { pass.old.holds ≡ false }
    ensures added { HasAdded pass.old pass.new result }
    ensures few { result ≤ 1 }
{
    let row = row_of(pass.number());
    let mut held = turn.take(rt, pass);
    let added = held.value.push(row);
    turn.give(pass, held);
    added
}
