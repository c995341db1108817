//! The instance data of addons.
ghost use Rattle.std.specs.Prelude.{◌≡◌, replicate, None, IfOk, option_map};
ghost use Rattle.napi_types.specs.parts.InstanceData.{instance_number, instance_ticket, with_instance};

use napi_types::{NoMemory, Ticket};
use std::alloc::Global;
use std::marker::Model;

/// What an addon keeps for itself in the environment: its native data, and the ticket of the finalizer, where there is one.
#[derive(Clone, Copy)]
struct InstanceRow {
    payload: u64,
    ticket: Option<Ticket>,
}

/// The instance data of each addon of the script. The memory for all of it is there, so that setting it takes none.
#[derive(Drop)]
pub(crate) struct InstanceTable {
    // By the number of the addon.
    places: Vec<Option<InstanceRow>>,
}

impl Model for InstanceTable {
    ghost use Rattle.napi_types.specs.parts.InstanceData.{Instances as Seen};
    ghost use Rattle.env_registry.specs.Instancing.{instances_seen};

    ghost Value = { Seen };

    ghost view = { λ instances. instances_seen instances.places.items };
}

impl InstanceTable {
    /// A table with a place for each addon, all empty.
    pub(crate) fn new(alloc: Global, addons: u32) -> Result<InstanceTable, NoMemory>
        ensures { IfOk result (λ instances. instances ≡ replicate addons None) }
    {
        let places = vec![in alloc; None; addons as usize]?;
        Ok(InstanceTable { places })
    }

    /// The native data of an addon, 0 where none was set.
    pub(crate) fn payload(&self, addon: u32) -> u64
        ensures { result ≡ instance_number self.now addon }
    {
        match self.places.get(addon as usize) {
            Some(Some(data)) => data.payload,
            _ => 0,
        }
    }

    /// The ticket of its finalizer, where there is one.
    pub(crate) fn ticket(&self, addon: u32) -> Option<Ticket>
        ensures { option_map (λ t. t.0) result ≡ instance_ticket self.now addon }
    {
        match self.places.get(addon as usize) {
            Some(Some(data)) => data.ticket,
            _ => None,
        }
    }

    /// Sets that of an addon, in the place of what was set before. For an addon that is not there nothing changes.
    pub(crate) fn set(&mut self, addon: u32, payload: u64, ticket: Option<Ticket>)
        ensures { self.new ≡ with_instance addon (record { payload = payload; ticket = option_map (λ t. t.0) ticket }) self.old }
    {
        let place = addon as usize;
        if place < self.places.len() {
            self.places[place] = Some(InstanceRow { payload, ticket });
        }
    }
}
