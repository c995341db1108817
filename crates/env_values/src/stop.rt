//! Why a call is not accepted.
ghost use Rattle.std.specs.Prelude.{◌≡◌};
ghost use Rattle.env_values.specs.declared.stop.Stop.TheVariants as stop_is;

use napi_types::{NoMemory, Status};

/// A call is refused, or finds no memory.
#[derive(Clone, Copy)]
pub(crate) enum Stop {
    Refused(Status),
    NoMemory,
}

impl From<Status> for Stop {
    ghost from_gives = { λ status stop. stop ≡ stop_is.Refused status };

    fn from(status: Status) -> Stop {
        Stop::Refused(status)
    }
}

impl From<NoMemory> for Stop {
    ghost from_gives = { λ _ stop. stop ≡ stop_is.NoMemory };

    fn from(_: NoMemory) -> Stop {
        Stop::NoMemory
    }
}
