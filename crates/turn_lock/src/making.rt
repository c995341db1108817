//! Making a lock with its passes.
ghost use Rattle.std.specs.Prelude.{◌≡◌, ◌<◌, ◌≤◌, ◌-◌, true, false, [], ◌∷◌, map, IfOk, OnOk};
ghost use Rattle.std.specs.List.{range_with_len};
ghost use Rattle.turn_lock.specs.PassMoves.{first_view, counted_view, new_view};
ghost use Rattle.turn_lock.specs.Passes.{new_pass};

use crate::pass::Pass;
use crate::told::Told;
use crate::turn::Turn;
use crate::view::{Law, Makes, View};
use atomic_table::{Badge, Seat, Shared, Table};
use napi_types::NoMemory;
use std::alloc::Global;

impl<S: Told + Drop> Turn<S> {
    /// A lock over a value that tells no rows yet, and its passes, at least one, with the numbers from 0 in order.
    ///
    /// Where there is no memory it makes none, and the value is dropped. The time grows with the passes.
    pub fn new(alloc: Global, value: S, passes: u32) -> Result<(Turn<S>, Vec<Pass>), NoMemory>
        requires some { 1 ≤ passes }
        requires blank { S.told value ≡ [] }
        ensures passes { IfOk result (λ made. made.0.passes ≡ passes) }
        ensures made { IfOk result (λ made. made.1.items ≡ map (new_pass made.0.lock) (range_with_len 0 passes)) }
    {
        let mut all = Vec::with_capacity(alloc, passes as usize)?;
        let (turn, mut first) = open(alloc, value, passes)?;
        make_others(&turn.table.shared, &mut first, passes, &mut all)?;
        let badge = first.into_badge();
        all.insert(
            0,
            Pass {
                number: 0,
                len: 0,
                badge,
            },
        )?;
        Ok((turn, all))
    }
}

// The lock, and the seat of its first pass.
fn open<S: Told + Drop>(
    alloc: Global,
    value: S,
    passes: u32,
) -> Result<(Turn<S>, Seat<Option<S>, View>), NoMemory>
    requires some { 1 ≤ passes }
    requires blank { S.told value ≡ [] }
    ensures passes { IfOk result (λ made. made.0.passes ≡ passes) }
    ensures lock { IfOk result (λ made. made.1.table_id ≡ made.0.lock) }
    ensures first { IfOk result (λ made. made.1.me ≡ (first_view 1, [])) }
{
    let mut slots = Vec::with_capacity(alloc, 1)?;
    slots.push_reserved(Some(value));
    match Table::new(alloc, &[0; 3], slots, &passes) {
        Ok((table, first)) => Ok((Turn { table, passes }, first)),
        Err(_) => Err(NoMemory),
    }
}

// All passes but the first.
fn make_others<S: Told>(
    shared: &Shared<Option<S>, View, u32, Law<S>>,
    first: &mut Seat<Option<S>, View>,
    passes: u32,
    all: &mut Vec<Pass>,
) -> Result<(), NoMemory>
    requires some { 1 ≤ passes }
    requires words { shared.now.table_id.words ≡ 3 }
    requires lock { first.old.table_id ≡ shared.now.table_id }
    requires key { shared.now.key ≡ passes }
    requires first { first.old.me ≡ (first_view 1, []) }
    requires none { all.old.items ≡ [] }
    ensures lock { first.new.table_id ≡ first.old.table_id }
    ensures first { OnOk result (first.new.me ≡ (first_view passes, [])) }
    ensures made { OnOk result (all.new.items ≡ map (new_pass shared.now.table_id) (range_with_len 1 (passes - 1))) }
{
    for number in 1..passes {
        let badge = another(shared, first);
        all.push(Pass {
            number,
            len: 0,
            badge,
        })?;
    }
    Ok(())
}

// One more pass.
fn another<S: Told>(
    shared: &Shared<Option<S>, View, u32, Law<S>>,
    first: &mut Seat<Option<S>, View>,
) -> Badge<View>
    requires words { shared.now.table_id.words ≡ 3 }
    requires lock { first.old.table_id ≡ shared.now.table_id }
    requires first { (first.old.me.0.number ≡ 0) × (first.old.me.0.is_live ≡ true) × (first.old.me.0.holds ≡ false) }
    requires few { first.old.me.0.count < shared.now.key }
    ensures lock { (first.new.table_id ≡ first.old.table_id) × (result.table_id ≡ first.old.table_id) }
    ensures first { first.new.me ≡ (counted_view first.old.me.0, first.old.me.1) }
    ensures made { result.views ≡ new_view first.old.me.0.count ∷ [] }
{
    shared.split_seat::<Makes>(first).into_badge()
}
