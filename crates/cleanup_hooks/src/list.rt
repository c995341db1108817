//! The hooks that have neither begun nor been removed, in the order of adding.
ghost use Rattle.std.specs.Prelude.{◌≡◌, ◌<◌, ◌++◌, ◌∷◌, ◌↔◌, [], None, Some, IfSome, OnOk, OnErr, option_map};
ghost use Rattle.std.specs.List.{All, find};
ghost use Rattle.napi_types.specs.parts.Hooks.{Hook, last_hook, without_hook};
ghost use Rattle.cleanup_hooks.specs.KeptHooks.{hook_of, has_key};

use crate::key::HookKey;
use napi_types::{NoMemory, Ticket};
use std::alloc::Global;
use std::collections::BTreeMap;
use std::marker::Model;

/// The hooks of both kinds that have neither begun nor been removed.
#[derive(Drop)]
pub(crate) struct HookList {
    // What each hook is known by, under its ticket. Tickets rise as hooks are added, so this is the order of adding.
    by_ticket: BTreeMap<u64, HookKey>,
    // The ticket of each hook, under what it is known by.
    by_key: BTreeMap<HookKey, u64>,
}

impl Model for HookList {
    ghost use Rattle.std.specs.Prelude.{List};
    ghost use Rattle.napi_types.specs.parts.Hooks.{Hook};
    ghost use Rattle.cleanup_hooks.specs.KeptHooks.{hooks_of, AreKeptHooks};

    ghost Value = { List Hook };

    ghost view = { λ list. hooks_of list.by_ticket.entries };

    ghost invariant = { λ list. AreKeptHooks list.by_ticket list.by_key };
}

impl HookList {
    /// No hooks. It takes no memory.
    pub(crate) fn new(alloc: Global) -> HookList
        ensures { result ≡ [] }
    {
        HookList {
            by_ticket: BTreeMap::new(alloc),
            by_key: BTreeMap::new(alloc),
        }
    }

    /// The ticket of the hook that is known so, `None` exactly where there is none.
    pub(crate) fn find(&self, key: HookKey) -> Option<Ticket>
        ensures { option_map (λ t. t.0) result ≡ option_map (λ h. h.ticket) (find (has_key key) self.now) }
    {
        let ticket = self.by_key.get(&key)?;
        Some(Ticket(*ticket))
    }

    /// Adds a hook, as the last. None is known so, and its ticket is above those of all. Where there is no memory nothing changes.
    pub(crate) fn add(&mut self, key: HookKey, ticket: Ticket) -> Result<(), NoMemory>
        requires new { find (has_key key) self.old ≡ None }
        requires rising { All (λ h. h.ticket < ticket.0) self.old }
        ensures ok { OnOk result (self.new ≡ self.old ++ hook_of (ticket.0, key) ∷ []) }
        ensures err { OnErr result (self.new ≡ self.old) }
    {
        self.by_key.insert(key, ticket.0)?;
        match self.by_ticket.insert(ticket.0, key) {
            Ok(_) => Ok(()),
            Err(_) => {
                self.by_key.remove(&key);
                Err(NoMemory)
            }
        }
    }

    /// Removes the hook of a ticket. Where no hook has it nothing changes.
    #[tactic(auto, using(crate::proofs::HookOrder::hooks_of_remove_entry))]
    pub(crate) fn remove(&mut self, ticket: Ticket)
        ensures { self.new ≡ without_hook ticket.0 self.old }
    {
        if let Some(key) = self.by_ticket.remove(&ticket.0) {
            self.by_key.remove(&key);
        }
    }

    /// The ticket of the hook that was added last, `None` exactly where there are no hooks.
    #[tactic(auto, using(crate::proofs::HookOrder::last_hook_at))]
    pub(crate) fn last_added(&self) -> Option<Ticket>
        ensures { option_map (λ t. t.0) result ≡ option_map (λ h. h.ticket) (last_hook self.now) }
    {
        let (ticket, _) = self.by_ticket.last_key_value()?;
        Some(Ticket(*ticket))
    }

    /// Takes out the hook that was added last, and tells its ticket, and its number where it is an asynchronous one. `None` exactly where
    /// there are no hooks.
    #[tactic(auto, using(crate::proofs::HookOrder::last_hook_push, crate::proofs::HookOrder::without_hook_push))]
    pub(crate) fn take_last(&mut self) -> Option<(Ticket, Option<u64>)>
        ensures none { (result ≡ None) ↔ (self.old ≡ []) }
        ensures stays { result ≡ None → self.new ≡ self.old }
        ensures last { option_map (λ r. r.0.0) result ≡ option_map (λ h. h.ticket) (last_hook self.old) }
        ensures taken { IfSome result (λ r. self.new ≡ without_hook r.0.0 self.old) }
        ensures left { IfSome result (λ r. (h : Hook) × (h.ticket ≡ r.0.0) × (h.number ≡ r.1) × (self.old ≡ self.new ++ h ∷ [])) }
    {
        let (ticket, key) = self.by_ticket.pop_last()?;
        self.by_key.remove(&key);
        Some((Ticket(ticket), key.number))
    }
}
