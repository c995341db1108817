//! Cleanup hooks.
ghost use Rattle.std.specs.Prelude.{◌≡◌, ◌≤◌, ◌<◌, ◌^◌, ◌++◌, ◌∷◌, [], None, Some, length, map, false, not, option_map, IfOk, IfErr, OnOk, OnErr};
ghost use Rattle.std.specs.Result.{is_err};
ghost use Rattle.std.specs.List.{All};
ghost use Rattle.napi_types.specs.declared.status.Status.TheVariants as status;
ghost use Rattle.napi_types.specs.plain.Lists.{has_number};
ghost use Rattle.napi_types.specs.parts.AsyncHooks.{count_waiting, has_async_hook, set_ticket, with_abandoned, with_async_hook, with_removed};
ghost use Rattle.napi_types.specs.parts.Book.{new_ticket, ticket_duty, with_registration};
ghost use Rattle.napi_types.specs.parts.Hooks.{hook_ticket, without_hook};
ghost use Rattle.napi_types.specs.environment.HookCalls.{hook_registration, unhooked};
ghost use Rattle.napi_types.specs.environment.Registering.{registered_only};
ghost use Rattle.finalizer_queue.specs.TicketRows.{registration_of};
ghost use Rattle.env_registry.specs.Registering.{duty_if, withdrawn_if};

use super::Registry;
use crate::registering::withdraw_if;
use finalizer_queue::NewDuty;
use napi_types::{AsyncHookId, Cause, Duty, NoMemory, Status, Ticket};

/// A hook as it is registered. The hint is the number of an asynchronous one, and else 0.
fn hook_duty(addon: u32, entry: u32, argument: u64, hint: u64) -> NewDuty
    ensures { registration_of result ≡ hook_registration addon entry argument hint }
{
    NewDuty {
        cause: Cause::Hook,
        addon,
        entry,
        payload: argument,
        hint,
    }
}

impl Registry {
    /// The ticket of the plain hook of this addon, this entry and this argument, `None` exactly where there is none.
    pub fn find_hook(&self, addon: u32, entry: u32, argument: u64) -> Option<Ticket>
        ensures { option_map (λ t. t.0) result ≡ hook_ticket addon entry argument self.now.parts.hooks }
    {
        self.hooks.find(addon, entry, argument)
    }

    /// Adds a plain hook, as the last, and registers it: its duty. No plain hook has its addon, its entry and its argument. Where there
    /// is no memory nothing changes.
    pub fn add_hook(&mut self, addon: u32, entry: u32, argument: u64) -> Result<Duty, NoMemory>
        requires new { hook_ticket addon entry argument self.old.parts.hooks ≡ None }
        requires rising { All (λ h. h.ticket ≤ length self.old.parts.book) self.old.parts.hooks }
        requires given { All (λ h. h.ticket ≤ length self.old.parts.book) self.old.parts.async_hooks }
        requires few { length self.old.parts.book < 2 ^ 62 }
        ensures made { IfOk result (λ duty. duty ≡ ticket_duty (new_ticket self.old.parts.book)) }
        ensures added { let ticket = new_ticket self.old.parts.book in OnOk result (self.new.parts ≡ record self.old.parts {
          book = with_registration (hook_registration addon entry argument 0) self.old.parts.book;
          hooks = self.old.parts.hooks ++ record { addon = addon; entry = entry; argument = argument; ticket = ticket; number = None } ∷ [];
        }) }
        ensures err { OnErr result (self.new.parts ≡ self.old.parts) }
    {
        self.book.reserve()?;
        self.hooks.add(addon, entry, argument, self.book.next())?;
        let ticket = self.book.register(hook_duty(addon, entry, argument, 0));
        Ok(Duty::Ticket(ticket))
    }

    /// Adds an asynchronous hook, as the last, and registers it: its number, which was never issued, and its duty. The number is the hint of
    /// the registration. Where there is no memory nothing changes.
    pub fn add_async_hook(
        &mut self,
        addon: u32,
        entry: u32,
        argument: u64,
    ) -> Result<(AsyncHookId, Duty), NoMemory>
        requires rising { All (λ h. h.ticket ≤ length self.old.parts.book) self.old.parts.hooks }
        requires given { All (λ h. h.ticket ≤ length self.old.parts.book) self.old.parts.async_hooks }
        requires few { length self.old.parts.book < 2 ^ 62 }
        requires few_hooks { length self.old.parts.async_hooks < 2 ^ 62 }
        ensures fresh { IfOk result (λ r. has_number r.0.0 (0 ∷ map (λ h. h.number) self.old.parts.async_hooks) ≡ false) }
        ensures made { IfOk result (λ r. r.1 ≡ ticket_duty (new_ticket self.old.parts.book)) }
        ensures added { let ticket = new_ticket self.old.parts.book in IfOk result (λ r. self.new.parts ≡ record self.old.parts {
          book = with_registration (hook_registration addon entry argument r.0.0) self.old.parts.book;
          hooks = self.old.parts.hooks
              ++ record { addon = addon; entry = entry; argument = argument; ticket = ticket; number = Some r.0.0 } ∷ [];
          async_hooks = with_async_hook r.0.0 ticket self.old.parts.async_hooks;
        }) }
        ensures err { OnErr result (self.new.parts ≡ self.old.parts) }
    {
        self.book.reserve()?;
        let id = self
            .hooks
            .add_async(addon, entry, argument, self.book.next())?;
        let ticket = self.book.register(hook_duty(addon, entry, argument, id.0));
        Ok((id, Duty::Ticket(ticket)))
    }

    /// Takes the hook of a ticket off the list, and withdraws the ticket, where it is still registered: the duty that it withdrew.
    ///
    /// It takes no memory.
    pub fn remove_hook(&mut self, ticket: Ticket) -> Option<Duty>
        ensures dropped { result ≡ duty_if (registered_only self.old.parts.book (Some ticket.0)) }
        ensures removed { self.new.parts ≡ record self.old.parts {
          book = withdrawn_if (registered_only self.old.parts.book (Some ticket.0)) self.old.parts.book;
          hooks = without_hook ticket.0 self.old.parts.hooks;
        } }
    {
        self.hooks.remove(ticket);
        withdraw_if(&mut self.book, Some(ticket))
    }

    /// Removes an asynchronous hook, and withdraws the ticket of one that was set: the duty that it withdrew. `InvalidArg` exactly where no hook
    /// has this number, or it was removed before: then nothing changes.
    ///
    /// It takes no memory.
    pub fn remove_async_hook(&mut self, id: AsyncHookId) -> Result<Option<Duty>, Status>
        ensures refused { is_err result ≡ not (has_async_hook id.0 self.old.parts.async_hooks) }
        ensures err { IfErr result (λ s. s ≡ status.InvalidArg) }
        ensures stays { OnErr result (self.new.parts ≡ self.old.parts) }
        ensures dropped { let set = set_ticket id.0 self.old.parts.async_hooks in
            IfOk result (λ d. d ≡ duty_if (registered_only self.old.parts.book set)) }
        ensures removed { let set = set_ticket id.0 self.old.parts.async_hooks in OnOk result (self.new.parts ≡ record self.old.parts {
          book = withdrawn_if (registered_only self.old.parts.book set) self.old.parts.book;
          hooks = unhooked set self.old.parts.hooks;
          async_hooks = with_removed id.0 self.old.parts.async_hooks;
        }) }
    {
        let set = self.hooks.remove_async(id)?;
        Ok(withdraw_if(&mut self.book, set))
    }

    /// How many asynchronous hooks wait. Constant time.
    pub fn waiting_hooks(&self) -> u64
        ensures { result ≡ count_waiting self.now.parts.async_hooks }
    {
        self.hooks.waiting()
    }

    /// The asynchronous hooks that wait are abandoned.
    ///
    /// It takes no memory.
    pub fn abandon_hooks(&mut self)
        ensures { self.new.parts ≡ record self.old.parts { async_hooks = with_abandoned self.old.parts.async_hooks } }
    {
        self.hooks.abandon();
    }
}
