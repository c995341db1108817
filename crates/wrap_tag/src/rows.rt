//! The table of the rows of values, read and changed by the number of a value.
ghost use Rattle.std.specs.Prelude.{◌≡◌, ◌+◌, ◌<◌, ◌≤◌, None, Some, IsSome, option_map};
ghost use Rattle.std.specs.HashMap.{spare};
ghost use Rattle.std.specs.Option.{option_and_then, unwrap_or};
ghost use Rattle.wrap_tag.specs.ValueRows.{blank_row, unwrapped_row, value_row, PutsRow, PutsTicket};

use crate::row::{Chain, Tag, ValueRow, Wrap};
use napi_types::{Ticket, ValueId};
use std::collections::HashMap;

/// Takes out the row of a value: a blank one where it has none.
pub(crate) fn take(rows: &mut HashMap<u64, ValueRow>, value: ValueId) -> ValueRow
    ensures row { result ≡ unwrap_or (value_row value.0 rows.old.entries) blank_row }
    ensures taken { PutsRow value.0 None rows.old.entries rows.new.entries }
    ensures spare { spare rows.old ≤ spare rows.new }
{
    rows.remove(&value.0).unwrap_or(ValueRow::blank())
}

/// Puts the first row of a value. There is room for it.
fn put(rows: &mut HashMap<u64, ValueRow>, value: ValueId, row: ValueRow)
    requires { 0 < spare rows.old }
    ensures put { PutsRow value.0 (Some row) rows.old.entries rows.new.entries }
    ensures spare { spare rows.old ≤ spare rows.new + 1 }
{
    let Ok(_) = rows.insert(value.0, row) else {
        unreachable!()
    };
}

/// Puts a wrap into the row of a value. There is room for a row, where the value has none.
pub(crate) fn put_wrap(rows: &mut HashMap<u64, ValueRow>, value: ValueId, wrap: Wrap)
    requires { 0 < spare rows.old }
    ensures put { let row = unwrap_or (value_row value.0 rows.old.entries) blank_row in
        PutsRow value.0 (Some (record row { wrap = Some wrap })) rows.old.entries rows.new.entries }
    ensures spare { spare rows.old ≤ spare rows.new + 1 }
{
    match rows.get_mut(&value.0) {
        Some(row) => row.wrap = Some(wrap),
        None => put(rows, value, ValueRow::of_wrap(wrap)),
    }
}

/// Puts a tag into the row of a value. There is room for a row, where the value has none.
pub(crate) fn put_tag(rows: &mut HashMap<u64, ValueRow>, value: ValueId, tag: Tag)
    requires { 0 < spare rows.old }
    ensures put { let row = unwrap_or (value_row value.0 rows.old.entries) blank_row in
        PutsRow value.0 (Some (record row { tag = Some tag })) rows.old.entries rows.new.entries }
    ensures spare { spare rows.old ≤ spare rows.new + 1 }
{
    match rows.get_mut(&value.0) {
        Some(row) => row.tag = Some(tag),
        None => put(rows, value, ValueRow::of_tag(tag)),
    }
}

/// Puts a ticket in front of those in the row of a value. There is room for a row, where the value has none.
pub(crate) fn put_ticket(
    rows: &mut HashMap<u64, ValueRow>,
    value: ValueId,
    link: Box<Chain>,
    ticket: Ticket,
)
    requires { 0 < spare rows.old }
    ensures put { PutsTicket value.0 ticket.0 rows.old.entries rows.new.entries }
    ensures spare { spare rows.old ≤ spare rows.new + 1 }
{
    match rows.get_mut(&value.0) {
        Some(row) => row.tickets.push(link, ticket),
        None => {
            let mut row = ValueRow::blank();
            row.tickets.push(link, ticket);
            put(rows, value, row);
        }
    }
}

/// Takes the wrap out of the row of a value.
pub(crate) fn unwrap_out(rows: &mut HashMap<u64, ValueRow>, value: ValueId) -> Option<Wrap>
    ensures wrap { result ≡ option_and_then (λ row. row.wrap) (value_row value.0 rows.old.entries) }
    ensures taken { PutsRow value.0 (option_map unwrapped_row (value_row value.0 rows.old.entries)) rows.old.entries rows.new.entries }
    ensures spare { spare rows.new ≡ spare rows.old }
{
    rows.get_mut(&value.0)?.wrap.take()
}

/// The wrap of a value.
pub(crate) fn wrap_at(rows: &HashMap<u64, ValueRow>, value: ValueId) -> Option<Wrap>
    ensures { result ≡ option_and_then (λ row. row.wrap) (value_row value.0 rows.now.entries) }
{
    rows.get(&value.0)?.wrap
}

/// The tag of a value.
pub(crate) fn tag_at(rows: &HashMap<u64, ValueRow>, value: ValueId) -> Option<Tag>
    ensures { result ≡ option_and_then (λ row. row.tag) (value_row value.0 rows.now.entries) }
{
    rows.get(&value.0)?.tag
}
