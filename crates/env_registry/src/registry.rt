//! The registry of an environment.
ghost use Rattle.std.specs.Prelude.{◌≡◌, IfOk};
ghost use Rattle.napi_types.specs.parts.Buffers.{AreWithinLimits};
ghost use Rattle.array_buffers.specs.KeptBuffers.{AreBufferMaps};
ghost use Rattle.deferred.specs.KeptPromises.{AreMaps};
ghost use Rattle.env_registry.specs.KeptRegistry.{new_parts, AreOnce};

mod attached;
mod buffers;
mod hooks;
mod instances;
mod promises;
mod tickets;

use crate::instances::InstanceTable;
use array_buffers::Buffers;
use cleanup_hooks::Hooks;
use deferred::Deferreds;
use finalizer_queue::Book;
pub use instances::Replaced;
use napi_types::NoMemory;
use std::alloc::Global;
use std::marker::Model;
use wrap_tag::Wraps;

/// What is registered with an environment, and what is attached to its values. What is attached stays until it is taken off or its
/// value is freed, as do a promise, a buffer and a view, a hook until it begins or is removed, and a ticket for ever.
#[derive(Drop)]
pub struct Registry {
    wraps: Wraps,
    book: Book,
    hooks: Hooks,
    instances: InstanceTable,
    promises: Deferreds,
    buffers: Buffers,
}

impl Model for Registry {
    ghost use Rattle.env_registry.specs.KeptRegistry.{KeptRegistry, IsKeptRegistry, AgreeOnTickets};

    ghost Value = { KeptRegistry };

    ghost view = { λ r. record {
      parts = record {
        attachments = r.wraps.attachments;
        book = r.book.book;
        hooks = r.hooks.hooks;
        async_hooks = r.hooks.async_hooks;
        instances = r.instances;
        promises = r.promises.promises;
        buffers = r.buffers.buffers;
      };
      places = r.wraps.spare;
      slips = r.book.spare;
      deferreds = r.promises.spare;
      blocks = r.buffers.spare;
    } };

    ghost invariant = { λ r. IsKeptRegistry r.wraps.attachments r.book.book × AgreeOnTickets r.wraps.attachments r.buffers.buffers };
}

impl Registry {
    /// Nothing is registered, and nothing attached. There is a place for the instance data of each of so many addons.
    pub fn new(alloc: Global, addons: u32) -> Result<Registry, NoMemory>
        ensures { IfOk result (λ registry. registry.parts ≡ new_parts addons) }
    {
        let wraps = Wraps::new(alloc)?;
        let book = Book::new(alloc)?;
        let instances = InstanceTable::new(alloc, addons)?;
        let promises = Deferreds::new(alloc)?;
        let buffers = Buffers::new(alloc)?;
        Ok(Registry {
            wraps,
            book,
            hooks: Hooks::new(alloc),
            instances,
            promises,
            buffers,
        })
    }

    /// No effect. Its clauses are of the registry's invariant.
    pub fn invariant(&self)
        ensures once { AreOnce self.now.parts.attachments }
        ensures maps { AreMaps self.now.parts.promises }
        ensures limits { AreWithinLimits self.now.parts.buffers }
        ensures buffer_maps { AreBufferMaps self.now.parts.buffers }
    {
        self.promises.invariant();
        self.buffers.invariant();
    }
}
