//! Room in the lists of the pool.
ghost use Rattle.std.specs.Prelude.{◌≡◌, ◌+◌, ◌≤◌, OnOk};
ghost use Rattle.std.specs.VecDeque.{deque_capacity, deque_len};

use napi_types::NoMemory;
use std::collections::VecDeque;

/// Takes the memory for so many more at the end of a list. Where that is short it takes twice as much, if there is so much, so that a list of which the
/// front goes while its end grows moves seldom.
pub(crate) fn reserve_amply<T>(list: &mut VecDeque<T>, more: usize) -> Result<(), NoMemory>
    ensures items { list.new.items ≡ list.old.items }
    ensures len { deque_len list.new ≡ deque_len list.old }
    ensures capacity { deque_capacity list.old ≤ deque_capacity list.new }
    ensures ok { OnOk result (deque_len list.new + more ≤ deque_capacity list.new) }
{
    if more <= list.capacity() - list.len() {
        return Ok(());
    }
    if list.reserve(more.saturating_mul(2)).is_ok() {
        return Ok(());
    }
    list.reserve(more)?;
    Ok(())
}
