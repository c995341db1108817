//! The room in the history.
ghost use Rattle.std.specs.Prelude.{◌≡◌, ◌⊎◌, ◌+◌, ◌<◌, ◌≤◌, ◌↔◌, length, min, vec_capacity, IfErr, OnOk};
ghost use Rattle.napi_types.specs.plain.Room.{first_places, most_entries};

use napi_types::{Entry, Status};

/// How many places of the history have their memory from the start.
pub(crate) const FIRST_PLACES: u32 = 65536;

/// Takes the memory for so many places more than the history's entries and the places that it owes: `TraceFull` exactly where they pass
/// the limit, and `NoMemory` only where they pass the first places.
pub(crate) fn make_room(
    entries: &mut Vec<Entry>,
    limit: u32,
    reserved: u32,
    places: u32,
) -> Result<(), Status>
    requires within { length entries.old.items + reserved ≤ limit }
    requires small { (limit ≤ most_entries) × (places ≤ 8) }
    requires first { min first_places limit ≤ vec_capacity entries.old }
    ensures items { entries.new.items ≡ entries.old.items }
    ensures capacity { vec_capacity entries.old ≤ vec_capacity entries.new }
    ensures full { (result ≡ Err Status.TraceFull) ↔ (limit < length entries.old.items + reserved + places) }
    ensures room { OnOk result (length entries.old.items + reserved + places ≤ limit) }
    ensures memory { OnOk result (length entries.old.items + reserved + places ≤ vec_capacity entries.new) }
    ensures cause { IfErr result (λ status. (status ≡ Status.TraceFull) ⊎ (status ≡ Status.NoMemory)) }
    ensures wanted { result ≡ Err Status.NoMemory → min first_places limit < length entries.old.items + reserved + places }
{
    let wanted = reserved + places;
    if entries.len() as u32 + wanted > limit {
        return Err(Status::TraceFull);
    }
    match entries.reserve(wanted as usize) {
        Ok(()) => Ok(()),
        Err(_) => Err(Status::NoMemory),
    }
}
