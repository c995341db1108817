//! The instance data of addons.
ghost use Rattle.std.specs.Prelude.{◌≡◌, ◌<◌, ◌^◌, length, option_map, IsSome, IfOk, OnOk, OnErr};
ghost use Rattle.napi_types.specs.parts.InstanceData.{instance_number, instance_ticket, with_instance};
ghost use Rattle.napi_types.specs.environment.Registering.{registered_only};
ghost use Rattle.env_registry.specs.Registering.{finalizer_registration, ticket_for, with_registration_if, duty_if, withdrawn_if};

use super::Registry;
use crate::finalizer::Finalizer;
use crate::registering::{duty_of, register_if, reserve_if, withdraw_if};
use napi_types::{Duty, NoMemory};

/// The duties that come and go as something takes the place of what was there before.
#[derive(Clone, Copy)]
pub struct Replaced {
    /// The duty that was withdrawn.
    pub dropped: Option<Duty>,
    /// The duty that was made.
    pub made: Option<Duty>,
}

impl Registry {
    /// Gives an addon other instance data. The finalizer of what was set before is withdrawn, where it is still registered, and this
    /// one is registered, where there is one; else no memory is taken. Where there is no memory nothing changes.
    pub fn set_instance_data(
        &mut self,
        addon: u32,
        payload: u64,
        finalizer: Option<Finalizer>,
    ) -> Result<Replaced, NoMemory>
        requires few { length self.old.parts.book < 2 ^ 62 }
        ensures dropped { let ticket = registered_only self.old.parts.book (instance_ticket self.old.parts.instances addon) in
            IfOk result (λ r. r.dropped ≡ duty_if ticket) }
        ensures made { IfOk result (λ r. r.made ≡ duty_if (ticket_for self.old.parts.book (option_map finalizer_registration finalizer))) }
        ensures set { let asked = option_map finalizer_registration finalizer in let before = self.old.parts in
            OnOk result (self.new.parts ≡ record before {
              book = with_registration_if asked (withdrawn_if (registered_only before.book (instance_ticket before.instances addon)) before.book);
              instances = with_instance addon (record { payload = payload; ticket = ticket_for before.book asked }) before.instances;
            }) }
        ensures err { OnErr result (self.new.parts ≡ self.old.parts) }
        ensures growing { OnErr result (IsSome finalizer) }
    {
        reserve_if(&mut self.book, finalizer)?;
        let dropped = withdraw_if(&mut self.book, self.instances.ticket(addon));
        let ticket = register_if(&mut self.book, finalizer);
        self.instances.set(addon, payload, ticket);
        Ok(Replaced {
            dropped,
            made: duty_of(ticket),
        })
    }

    /// The instance data of an addon, 0 where none was set.
    pub fn instance_data(&self, addon: u32) -> u64
        ensures { result ≡ instance_number self.now.parts.instances addon }
    {
        self.instances.payload(addon)
    }
}
