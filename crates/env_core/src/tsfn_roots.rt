//! The roots of thread-safe functions.
ghost use Rattle.std.specs.Prelude.{◌≡◌, ◌+◌, ◌*◌, ◌<◌, ◌≤◌, ◌^◌, ◌++◌, ◌==◌, not, true, [], None, length, map, filter, IsTrue, IfSome, OnOk};
ghost use Rattle.std.specs.List.{All};
ghost use Rattle.std.specs.VecDeque.{deque_len, deque_capacity};
ghost use Rattle.napi_types.specs.plain.Lists.{singleton};
ghost use Rattle.value_store.specs.StoreChanges.{numbers_of};
ghost use Rattle.env_core.specs.TsfnRooting.{kept_roots, AreRising, IsKeptAt, is_of_another};

use napi_types::{NoMemory, TsfnId, ValueId};
use std::alloc::Global;
use std::collections::VecDeque;
use std::marker::Model;
use std::mem;

/// A thread-safe function, and the value that it keeps alive until its root is dropped.
#[derive(Clone, Copy)]
struct RootRow {
    function: TsfnId,
    value: ValueId,
    kept: bool,
}

/// The values that thread-safe functions keep alive, in the order in which the functions were made.
#[derive(Drop)]
pub struct TsfnRoots {
    // The row of a root that is dropped stays, so that no others move. Once more than half of the rows are such, all such rows go.
    rows: VecDeque<RootRow>,
    dropped: usize,
    // Whether the functions' numbers rise, as the hub gives them: then a function's row is found by halves.
    rises: bool,
}

impl Model for TsfnRoots {
    ghost use Rattle.std.specs.Prelude.{List};
    ghost use Rattle.napi_types.specs.environment.Environment.{TsfnRoot};

    ghost Value = { List TsfnRoot };

    ghost use Rattle.env_core.specs.TsfnRooting.{kept_roots, AreRootRows};

    ghost view = { λ r. kept_roots r.rows.items };

    ghost invariant = { λ r. AreRootRows r.rows.items r.dropped r.rises };
}

/// The memory for roots, which contracts see as the number of roots for which it is enough. It is taken before a function is made,
/// so that its root needs none.
#[derive(Drop)]
pub struct RootRoom {
    // It holds nothing. The roots move into its places once they have filled theirs.
    rows: VecDeque<RootRow>,
}

impl Model for RootRoom {
    ghost use Rattle.std.specs.Prelude.{◌≡◌, ℕ, []};
    ghost use Rattle.std.specs.VecDeque.{deque_capacity};

    ghost Value = { ℕ };

    ghost view = { λ r. deque_capacity r.rows };

    ghost invariant = { λ r. r.rows.items ≡ [] };
}

impl RootRoom {
    /// Room for no root. It takes no memory.
    pub fn new(alloc: Global) -> RootRoom {
        RootRoom {
            rows: VecDeque::new(alloc),
        }
    }

    /// Takes the memory for one root more than so many, where it is not there yet.
    ///
    /// Near constant time: now and then the room doubles.
    pub fn reserve(&mut self, roots: usize) -> Result<(), NoMemory>
        requires { roots < 2 ^ 63 }
        ensures ok { OnOk result (roots < self.new) }
        ensures kept { self.old ≤ self.new }
    {
        if self.rows.capacity() <= roots {
            self.rows.reserve(2 * roots + 1)?;
        }
        Ok(())
    }
}

impl TsfnRoots {
    /// No function keeps a value alive. It takes no memory.
    pub fn new(alloc: Global) -> TsfnRoots
        ensures { result ≡ [] }
    {
        TsfnRoots {
            rows: VecDeque::new(alloc),
            dropped: 0,
            rises: true,
        }
    }

    /// For how many roots there are rows: for all of them, and for at most as many again that were dropped.
    pub fn places(&self) -> usize
        ensures enough { length self.now ≤ result }
        ensures few { result ≤ 2 * length self.now }
        ensures fits { result < 2 ^ 63 }
    {
        self.rows.len()
    }

    /// Adds the root of a function that was made. It takes no memory: there is room.
    ///
    /// Near constant time: now and then the roots move.
    pub fn push(&mut self, room: &mut RootRoom, function: TsfnId, value: ValueId)
        requires { length self.old < room.old }
        ensures { self.new ≡ self.old ++ singleton (record { function = function.0; value = value.0 }) }
    {
        if room.rows.capacity() <= self.rows.len() {
            close_up(&mut self.rows);
            self.dropped = 0;
        }
        self.rises = self.rises && is_above_newest(&self.rows, function);
        make_place(&mut self.rows, room);
        self.rows.push_back_reserved(RootRow {
            function,
            value,
            kept: true,
        });
    }

    /// Drops the root of a function, where it has one.
    ///
    /// In time logarithmic in how many roots there are, as the functions' numbers rise. Now and then the rows of dropped roots go, in
    /// time linear in the rows.
    pub fn remove(&mut self, function: TsfnId)
        ensures { self.new ≡ filter (λ r. not (r.function == function.0)) self.old }
    {
        if !self.rises {
            self.rows
                .retain(|row| row.kept && row.function.0 != function.0);
            self.dropped = 0;
        } else if let Some(at) = kept_at(&self.rows, function) {
            self.rows[at].kept = false;
            self.dropped += 1;
            if self.dropped > self.rows.len() / 2 {
                close_up(&mut self.rows);
                self.dropped = 0;
            }
        }
    }

    /// Adds the values to these, in the order of the roots.
    pub fn push_values(&self, values: &mut Vec<ValueId>) -> Result<(), NoMemory>
        ensures { OnOk result (numbers_of values.new.items ≡ numbers_of values.old.items ++ map (λ r. r.value) self.now) }
    {
        for at in 0..self.rows.len() {
            let row = self.rows[at];
            if row.kept {
                values.push(row.value)?;
            }
        }
        Ok(())
    }
}

/// Whether a function's number is above that of the newest row, where there is one.
fn is_above_newest(rows: &VecDeque<RootRow>, function: TsfnId) -> bool
    ensures { IsTrue result → AreRising rows.now.items → All (λ r. r.function.0 < function.0) rows.now.items }
{
    match rows.back() {
        Some(newest) => newest.function.0 < function.0,
        None => true,
    }
}

/// The place of the row of a function, `None` exactly where its root is dropped and where it has no row.
fn kept_at(rows: &VecDeque<RootRow>, function: TsfnId) -> Option<usize>
    requires { AreRising rows.now.items }
    ensures kept { IfSome result (λ at. IsKeptAt rows.now.items function.0 at) }
    ensures none { result ≡ None → All (λ r. is_of_another function.0 r ≡ true) (kept_roots rows.now.items) }
{
    match rows.binary_search_by_key(&function.0, |row| row.function.0) {
        Ok(at) if rows[at].kept => Some(at),
        _ => None,
    }
}

/// The rows of dropped roots go. It takes no memory.
fn close_up(rows: &mut VecDeque<RootRow>)
    ensures items { rows.new.items ≡ filter (λ r. r.kept) rows.old.items }
{
    rows.retain(|row| row.kept);
}

/// Makes a place for one row more, where there is room for it: where the rows fill their places, they move into those of the room.
fn make_place(rows: &mut VecDeque<RootRow>, room: &mut RootRoom)
    requires { deque_len rows.old < room.old }
    ensures items { rows.new.items ≡ rows.old.items }
    ensures place { deque_len rows.new < deque_capacity rows.new }
{
    if rows.len() == rows.capacity() {
        let Ok(()) = room.rows.append(rows) else {
            unreachable!()
        };
        mem::swap(rows, &mut room.rows);
    }
}
