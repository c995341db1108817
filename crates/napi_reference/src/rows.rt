//! The rows of references, read and emptied.
ghost use Rattle.std.specs.Prelude.{◌≡◌, ℕ, ◌<◌, map, length, None, option_map, slice_index_or, slice_set};
ghost use Rattle.generation_slab.specs.HeldPlaces.{value_of};
ghost use Rattle.napi_types.specs.plain.Lists.{has_number};
ghost use Rattle.napi_reference.specs.Freed.{IsInOrder};
ghost use Rattle.napi_reference.specs.ReferencePlaces.{strong_in};
ghost use Rattle.napi_reference.specs.ReferenceRows.{reference_of, weak_emptied, held_emptied, rows_emptied};

use crate::freed::{Order, is_among, order_of};
use generation_slab::GenerationSlab;
use napi_types::ValueId;

/// A reference: its value, none where that was collected, and its count.
#[derive(Clone, Copy)]
pub(crate) struct ReferenceRow {
    pub(crate) value: Option<ValueId>,
    pub(crate) count: u32,
}

/// The row of a number.
pub(crate) fn row_at(rows: &GenerationSlab<ReferenceRow>, number: u64) -> Option<ReferenceRow>
    ensures { result ≡ value_of rows.now number }
{
    rows.get(number).copied()
}

/// The value that the row at a place keeps, where its count is above 0.
pub(crate) fn strong_value(place: Option<ReferenceRow>) -> Option<ValueId>
    ensures { (n : ℕ) → option_map (λ v. v.0) result ≡ strong_in (option_map (reference_of n) place) }
{
    match place {
        Some(row) => { if row.count == 0 { None } else { row.value } }
        None => None,
    }
}

/// Takes its value from each row that has the count 0 and one of these values.
pub(crate) fn empty_weak(rows: &mut GenerationSlab<ReferenceRow>, values: &[ValueId])
    ensures { rows.new ≡ rows_emptied (λ v. has_number v (map (λ v. v.0) values.now)) rows.old }
{
    let order = order_of(values);
    for at in 0..rows.places() {
        empty_at(rows, at, values, order);
    }
}

/// The same of the row at a place, where one stands there.
fn empty_at(rows: &mut GenerationSlab<ReferenceRow>, at: usize, values: &[ValueId], order: Order)
    requires within { at < length rows.old.places }
    requires order { IsInOrder order values.now }
    ensures places { rows.new.places ≡ slice_set rows.old.places at (option_map (held_emptied (λ v. has_number v (map (λ v. v.0) values.now))) (slice_index_or rows.old.places at None)) }
    ensures issued { rows.new.issued ≡ rows.old.issued }
    ensures room { rows.new.room ≡ rows.old.room }
{
    if let Some(row) = rows.value_in(at).copied() {
        rows.put_in(at, emptied(row, values, order));
    }
}

/// The row without its value, where it has the count 0 and one of these values.
fn emptied(row: ReferenceRow, values: &[ValueId], order: Order) -> ReferenceRow
    requires { IsInOrder order values.now }
    ensures { result ≡ weak_emptied (λ v. has_number v (map (λ v. v.0) values.now)) row }
{
    if row.count == 0
        && row
            .value
            .is_some_and(|value| is_among(values, order, value))
    {
        ReferenceRow { value: None, ..row }
    } else {
        row
    }
}
