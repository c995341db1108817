//! The cleanup hooks of both kinds.
ghost use Rattle.std.specs.Prelude.{◌≡◌, ◌+◌, ◌<◌, ◌^◌, ◌++◌, ◌∷◌, ◌↔◌, [], length, map, false, not, None, Some, IfSome, IfOk, IfErr, OnOk, OnErr, option_map};
ghost use Rattle.std.specs.List.{All};
ghost use Rattle.std.specs.Result.{is_err};
ghost use Rattle.napi_types.specs.declared.status.Status.TheVariants as status;
ghost use Rattle.napi_types.specs.plain.Lists.{has_number};
ghost use Rattle.napi_types.specs.parts.AsyncHooks.{has_async_hook, set_ticket, count_waiting, with_async_hook, with_removed, with_begun, with_abandoned};
ghost use Rattle.napi_types.specs.parts.Hooks.{Hook, hook_ticket, last_hook, without_hook};
ghost use Rattle.napi_types.specs.environment.HookCalls.{unhooked};

use crate::asynchronous::AsyncTable;
use crate::key::HookKey;
use crate::list::HookList;
use napi_types::{AsyncHookId, NoMemory, Status, Ticket};
use std::alloc::Global;
use std::marker::Model;

/// The cleanup hooks, plain and asynchronous, that have neither begun nor been removed, in the order of adding, and how far each
/// asynchronous one has come.
///
/// An asynchronous hook is set until it begins, and waits from then on; one that waits may be abandoned, and each may be removed once. Each
/// keeps a row of 16 bytes for ever, also where it was removed.
#[derive(Drop)]
pub struct Hooks {
    list: HookList,
    asynchronous: AsyncTable,
}

impl Model for Hooks {
    ghost use Rattle.cleanup_hooks.specs.HookLists.{HookLists, AreNumbered};

    ghost Value = { HookLists };

    ghost view = { λ h. record { hooks = h.list; async_hooks = h.asynchronous } };

    ghost invariant = { λ h. AreNumbered h.asynchronous h.list };
}

impl Hooks {
    /// No hooks. It takes no memory.
    pub fn new(alloc: Global) -> Hooks
        ensures { result ≡ record { hooks = []; async_hooks = [] } }
    {
        Hooks {
            list: HookList::new(alloc),
            asynchronous: AsyncTable::new(alloc),
        }
    }

    /// The ticket of the plain hook of this addon, this entry and this argument, `None` exactly where there is none.
    ///
    /// In time logarithmic in how many hooks there are.
    pub fn find(&self, addon: u32, entry: u32, argument: u64) -> Option<Ticket>
        ensures { option_map (λ t. t.0) result ≡ hook_ticket addon entry argument self.now.hooks }
    {
        self.list.find(HookKey {
            addon,
            entry,
            argument,
            number: None,
        })
    }

    /// Adds a plain hook, as the last: the manual's `napi_add_env_cleanup_hook`. No plain hook has its addon, its entry and its argument.
    /// Its ticket is above those of all hooks, also of the asynchronous ones that have begun or were removed. Where there is no memory
    /// nothing changes.
    ///
    /// In time logarithmic in how many hooks there are.
    pub fn add(
        &mut self,
        addon: u32,
        entry: u32,
        argument: u64,
        ticket: Ticket,
    ) -> Result<(), NoMemory>
        requires new { hook_ticket addon entry argument self.old.hooks ≡ None }
        requires rising { All (λ h. h.ticket < ticket.0) self.old.hooks }
        requires above { All (λ h. h.ticket < ticket.0) self.old.async_hooks }
        ensures ok { OnOk result (self.new ≡ record self.old {
          hooks = self.old.hooks ++ record { addon = addon; entry = entry; argument = argument; ticket = ticket.0; number = None } ∷ [];
        }) }
        ensures err { OnErr result (self.new ≡ self.old) }
    {
        let key = HookKey {
            addon,
            entry,
            argument,
            number: None,
        };
        self.list.add(key, ticket)?;
        Ok(())
    }

    /// Adds an asynchronous hook, as the last, and gives its number, which was never issued: the manual's `napi_add_async_cleanup_hook`.
    /// It is set. Its ticket is above those of all hooks, also of the asynchronous ones that have begun or were removed. Fewer than 2^62
    /// asynchronous hooks were added before. Where there is no memory nothing changes.
    ///
    /// In time logarithmic in how many hooks there are; now and then the rows grow.
    pub fn add_async(
        &mut self,
        addon: u32,
        entry: u32,
        argument: u64,
        ticket: Ticket,
    ) -> Result<AsyncHookId, NoMemory>
        requires rising { All (λ h. h.ticket < ticket.0) self.old.hooks }
        requires above { All (λ h. h.ticket < ticket.0) self.old.async_hooks }
        requires few { length self.old.async_hooks < 2 ^ 62 }
        ensures fresh { IfOk result (λ n. has_number n.0 (0 ∷ map (λ h. h.number) self.old.async_hooks) ≡ false) }
        ensures ok { IfOk result (λ n. self.new ≡ record {
          hooks = self.old.hooks ++ record { addon = addon; entry = entry; argument = argument; ticket = ticket.0; number = Some n.0 } ∷ [];
          async_hooks = with_async_hook n.0 ticket.0 self.old.async_hooks;
        }) }
        ensures err { OnErr result (self.new ≡ self.old) }
    {
        let number = self.asynchronous.next();
        let key = HookKey {
            addon,
            entry,
            argument,
            number: Some(number),
        };
        self.list.add(key, ticket)?;
        match self.asynchronous.add(ticket) {
            Ok(()) => Ok(AsyncHookId(number)),
            Err(NoMemory) => {
                self.list.remove(ticket);
                Err(NoMemory)
            }
        }
    }

    /// How many asynchronous hooks were added. Constant time.
    pub fn async_hooks_added(&self) -> u64
        ensures { result ≡ length self.now.async_hooks }
    {
        self.asynchronous.added()
    }

    /// Removes the hook of a ticket from those that wait for their begin: the manual's `napi_remove_env_cleanup_hook`, once
    /// [`Hooks::find`] told the ticket. Where no hook has it nothing changes.
    ///
    /// In time logarithmic in how many hooks there are. It takes no memory.
    pub fn remove(&mut self, ticket: Ticket)
        ensures { self.new ≡ record self.old { hooks = without_hook ticket.0 self.old.hooks } }
    {
        self.list.remove(ticket);
    }

    /// Removes an asynchronous hook: the manual's `napi_remove_async_cleanup_hook`. It answers with the ticket of one that was set, which is
    /// then taken out of those that wait for their begin as well, and with `None` where it waited or was abandoned. `InvalidArg` exactly
    /// where no hook has this number, or it was removed before: then nothing changes.
    ///
    /// In time logarithmic in how many hooks there are. It takes no memory.
    pub fn remove_async(&mut self, id: AsyncHookId) -> Result<Option<Ticket>, Status>
        ensures refused { is_err result ≡ not (has_async_hook id.0 self.old.async_hooks) }
        ensures err { IfErr result (λ s. s ≡ status.InvalidArg) }
        ensures stays { OnErr result (self.new ≡ self.old) }
        ensures told { IfOk result (λ t. option_map (λ x. x.0) t ≡ set_ticket id.0 self.old.async_hooks) }
        ensures removed { OnOk result (self.new ≡ record {
          hooks = unhooked (set_ticket id.0 self.old.async_hooks) self.old.hooks;
          async_hooks = with_removed id.0 self.old.async_hooks;
        }) }
    {
        let told = self.asynchronous.remove(id.0)?;
        if let Some(ticket) = told {
            self.list.remove(ticket);
        }
        Ok(told)
    }

    /// The ticket of the hook that was added last, `None` exactly where there are no hooks.
    ///
    /// In time logarithmic in how many hooks there are.
    pub fn last_added(&self) -> Option<Ticket>
        ensures { option_map (λ t. t.0) result ≡ option_map (λ h. h.ticket) (last_hook self.now.hooks) }
    {
        self.list.last_added()
    }

    /// Takes out the hook that was added last, of either kind, and tells its ticket; an asynchronous one waits from then on. `None` exactly
    /// where there are no hooks.
    ///
    /// In time logarithmic in how many hooks there are. It takes no memory.
    pub fn take_last(&mut self) -> Option<Ticket>
        ensures none { (result ≡ None) ↔ (self.old.hooks ≡ []) }
        ensures stays { result ≡ None → self.new ≡ self.old }
        ensures last { option_map (λ t. t.0) result ≡ option_map (λ h. h.ticket) (last_hook self.old.hooks) }
        ensures taken { IfSome result (λ t. self.new ≡ record {
          hooks = without_hook t.0 self.old.hooks;
          async_hooks = with_begun t.0 self.old.async_hooks;
        }) }
        ensures left { IfSome result (λ t. (h : Hook) × (h.ticket ≡ t.0) × (self.old.hooks ≡ self.new.hooks ++ h ∷ [])) }
    {
        let (ticket, number) = self.list.take_last()?;
        if let Some(number) = number {
            self.asynchronous.begin(number);
        }
        Some(ticket)
    }

    /// How many asynchronous hooks wait: they have begun, and were neither removed nor abandoned since. Constant time.
    pub fn waiting(&self) -> u64
        ensures { result ≡ count_waiting self.now.async_hooks }
    {
        self.asynchronous.waiting()
    }

    /// The asynchronous hooks that wait are abandoned.
    ///
    /// In time linear in how many asynchronous hooks were ever added. It takes no memory.
    pub fn abandon(&mut self)
        ensures { self.new ≡ record self.old { async_hooks = with_abandoned self.old.async_hooks } }
    {
        self.asynchronous.abandon();
    }
}
