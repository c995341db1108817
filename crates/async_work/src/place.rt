//! The works that there are, each held under its id.
ghost use Rattle.std.specs.Prelude.{◌≡◌, IsSome, Some, option_map};
ghost use Rattle.async_work.specs.WorkPlaces.{place_seen, places_seen, place_at, held_job, with_number_at};

use crate::Job;
use generation_slab::GenerationSlab;
use napi_types::{JobSpec, Slip};

/// Where the job of a work is. Until the work is queued it is here, with the memory for the line that its completion will be in a list of what was
/// seen; then both are in the queue, under the number of the work.
#[derive(Drop)]
pub(crate) enum Standing<J> {
    Created(J, Slip),
    Numbered(u64),
}

/// A work, without its id.
#[derive(Drop)]
pub(crate) struct WorkPlace<J> {
    /// What its job computes.
    pub(crate) spec: JobSpec,
    pub(crate) addon: u32,
    pub(crate) entry: u32,
    pub(crate) payload: u64,
    pub(crate) standing: Standing<J>,
}

/// The work of an id.
pub(crate) fn place_of<J: Job>(
    places: &GenerationSlab<WorkPlace<J>>,
    id: u64,
) -> Option<&WorkPlace<J>>
    ensures { option_map (λ p. place_seen J.spec p.now) result ≡ place_at (places_seen J.spec places.now) id }
{
    places.get(id)
}

/// Numbers a work as it is queued, and takes its job and its slip out of its place.
pub(crate) fn give_number<J: Job>(
    places: &mut GenerationSlab<WorkPlace<J>>,
    id: u64,
    number: u64,
) -> (J, Slip)
    requires { IsSome (held_job (place_at (places_seen J.spec places.old) id)) }
    ensures job { held_job (place_at (places_seen J.spec places.old) id) ≡ Some (J.spec result.0) }
    ensures numbered { places_seen J.spec places.new ≡ with_number_at id number (places_seen J.spec places.old) }
    ensures issued { places.new.issued ≡ places.old.issued }
{
    let Some(place) = places.get(id) else {
        unreachable!()
    };
    let numbered = WorkPlace {
        spec: place.spec,
        addon: place.addon,
        entry: place.entry,
        payload: place.payload,
        standing: Standing::Numbered(number),
    };
    let WorkPlace { standing, .. } = places.replace(id, numbered);
    match standing {
        Standing::Created(job, slip) => (job, slip),
        Standing::Numbered(_) => unreachable!(),
    }
}
