//! Finalizers, as calls name them.
ghost use Rattle.std.specs.Prelude.{◌≡◌};
ghost use Rattle.finalizer_queue.specs.TicketRows.{registration_of as duty_registration};
ghost use Rattle.env_registry.specs.Registering.{finalizer_registration};

use finalizer_queue::NewDuty;
use napi_types::Cause;

/// A finalizer, as a call names it.
#[derive(Clone, Copy)]
pub struct Finalizer {
    /// The addon whose code it runs, counted from 0.
    pub addon: u32,
    /// The entry of the addon that it runs, counted from 0.
    pub entry: u32,
    /// The data that it is given.
    pub payload: u64,
    /// The hint that it is given.
    pub hint: u64,
}

impl Finalizer {
    /// What is registered of it.
    pub(crate) fn duty(self) -> NewDuty
        ensures { duty_registration result ≡ finalizer_registration self }
    {
        NewDuty {
            cause: Cause::Finalize,
            addon: self.addon,
            entry: self.entry,
            payload: self.payload,
            hint: self.hint,
        }
    }
}
