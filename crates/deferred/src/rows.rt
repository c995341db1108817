//! The table of promises, that of the deferreds that are not settled, and that of reactions, read and changed together.
ghost use Rattle.std.specs.Prelude.{◌≡◌, ◌≤◌, ◌<◌, ◌++◌, [], ◌∷◌, ℕ, nat_eq, map, true, None, Some, cond, option_map, IsSome, OnOk, OnErr};
ghost use Rattle.std.specs.HashMap.{spare};
ghost use Rattle.std.specs.List.{IsDistinct};
ghost use Rattle.std.specs.Map.{lookup, keys_of};
ghost use Rattle.napi_types.specs.plain.Lists.{has_number};
ghost use Rattle.napi_types.specs.parts.Promises.{reactions_settled};
ghost use Rattle.deferred.specs.PromiseRows.{row_at, seen_row, is_deferred_of, reactions_in_row, NoneTwice, settled_row, added_row, taken_row, root_values, is_root_row};

use crate::row::{self, PromiseRow};
use finalizer_queue::Book;
use napi_types::{NoMemory, ValueId};
use std::collections::HashMap;

/// Takes a promise out of the three tables.
pub(crate) fn take_off(
    promises: &mut HashMap<u64, PromiseRow>,
    deferreds: &mut HashMap<u64, u64>,
    reactions: &mut HashMap<u64, u64>,
    value: u64,
)
    ensures promises { (w : ℕ) → row_at w promises.new.entries ≡ cond (nat_eq value w) None (row_at w promises.old.entries) }
    ensures deferreds { (n : ℕ) → lookup (nat_eq n) deferreds.new.entries
        ≡ cond (is_deferred_of n (row_at value promises.old.entries)) None (lookup (nat_eq n) deferreds.old.entries) }
    ensures reactions { (n : ℕ) → lookup (nat_eq n) reactions.new.entries
        ≡ cond (has_number n (reactions_in_row (row_at value promises.old.entries))) None (lookup (nat_eq n) reactions.old.entries) }
    ensures promises_spare { spare promises.old ≤ spare promises.new }
    ensures deferreds_spare { spare deferreds.old ≤ spare deferreds.new }
{
    let Some(row) = promises.remove(&value) else {
        return;
    };
    if let Some(number) = row.deferred {
        deferreds.remove(&number);
    }
    row::forget_all(reactions, &row.reactions);
}

/// Puts a promise where there is none of its value. There is room for it.
pub(crate) fn put(promises: &mut HashMap<u64, PromiseRow>, value: u64, row: PromiseRow)
    requires { 0 < spare promises.old }
    ensures { (w : ℕ) → row_at w promises.new.entries ≡ cond (nat_eq value w) (Some (seen_row row)) (row_at w promises.old.entries) }
{
    let Ok(_) = promises.insert(value, row) else {
        unreachable!()
    };
}

/// Puts a promise under a number. There is room for it.
pub(crate) fn put_number(numbers: &mut HashMap<u64, u64>, number: u64, promise: u64)
    requires { 0 < spare numbers.old }
    ensures { (n : ℕ) → lookup (nat_eq n) numbers.new.entries ≡ cond (nat_eq number n) (Some promise) (lookup (nat_eq n) numbers.old.entries) }
{
    let Ok(_) = numbers.insert(number, promise) else {
        unreachable!()
    };
}

/// Settles a promise: it has the new state and no deferred, and those of its reactions that are registered get the state as their hint and
/// fall due.
pub(crate) fn settle(
    promises: &mut HashMap<u64, PromiseRow>,
    value: u64,
    state: u8,
    book: &mut Book,
)
    requires { IsSome (row_at value promises.old.entries) }
    ensures rows { (w : ℕ) → row_at w promises.new.entries
        ≡ cond (nat_eq value w) (option_map (settled_row state) (row_at value promises.old.entries)) (row_at w promises.old.entries) }
    ensures settled { book.new.book ≡ reactions_settled state (reactions_in_row (row_at value promises.old.entries)) book.old.book }
    ensures spare { book.old.spare ≤ book.new.spare }
{
    let Some(row) = promises.get_mut(&value) else {
        unreachable!()
    };
    row.state = state;
    row.deferred = None;
    row::settle_all(&row.reactions, state, book);
}

/// Adds a reaction to a promise, behind the others.
pub(crate) fn add(
    promises: &mut HashMap<u64, PromiseRow>,
    value: u64,
    ticket: u64,
) -> Result<(), NoMemory>
    requires { IsSome (row_at value promises.old.entries) }
    ensures ok { OnOk result ((w : ℕ) → row_at w promises.new.entries
        ≡ cond (nat_eq value w) (option_map (added_row ticket) (row_at value promises.old.entries)) (row_at w promises.old.entries)) }
    ensures err { OnErr result ((w : ℕ) → row_at w promises.new.entries ≡ row_at w promises.old.entries) }
{
    let Some(row) = promises.get_mut(&value) else {
        unreachable!()
    };
    row.reactions.push_back(ticket)?;
    Ok(())
}

/// Takes a reaction out of a promise.
pub(crate) fn take_out(promises: &mut HashMap<u64, PromiseRow>, value: u64, ticket: u64)
    requires there { IsSome (row_at value promises.old.entries) }
    requires once { NoneTwice (reactions_in_row (row_at value promises.old.entries)) }
    ensures { (w : ℕ) → row_at w promises.new.entries
        ≡ cond (nat_eq value w) (option_map (taken_row ticket) (row_at value promises.old.entries)) (row_at w promises.old.entries) }
{
    let Some(row) = promises.get_mut(&value) else {
        unreachable!()
    };
    row::take_out(row, ticket);
}

/// Takes out the promise that is kept under a number.
pub(crate) fn take_number(numbers: &mut HashMap<u64, u64>, number: u64) -> Option<u64>
    ensures promise { result ≡ lookup (nat_eq number) numbers.old.entries }
    ensures taken { (n : ℕ) → lookup (nat_eq n) numbers.new.entries ≡ cond (nat_eq number n) None (lookup (nat_eq n) numbers.old.entries) }
    ensures same { result ≡ None → numbers.new.entries ≡ numbers.old.entries }
{
    numbers.remove(&number)
}

/// Adds the values of the promises that are roots, in the order of the table.
pub(crate) fn push_roots(
    promises: &HashMap<u64, PromiseRow>,
    roots: &mut Vec<ValueId>,
) -> Result<(), NoMemory>
    ensures pushed { OnOk result (map (λ v. v.0) roots.new.items ≡ map (λ v. v.0) roots.old.items ++ root_values promises.now.entries) }
    ensures once { OnOk result (IsDistinct nat_eq (keys_of promises.now.entries)) }
{
    for (value, row) in promises.iter() {
        push_if(roots, ValueId(*value), row)?;
    }
    Ok(())
}

/// Adds the value of a promise, where it is a root.
fn push_if(roots: &mut Vec<ValueId>, value: ValueId, row: &PromiseRow) -> Result<(), NoMemory>
    ensures { OnOk result (map (λ v. v.0) roots.new.items ≡ map (λ v. v.0) roots.old.items ++ cond (is_root_row (seen_row row.now)) (value.0 ∷ []) []) }
{
    if row::is_root(row) {
        roots.push(value)?;
    }
    Ok(())
}
