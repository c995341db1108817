//! Calls on cleanup hooks.
ghost use Rattle.std.specs.Prelude.{◌≡◌, ◌<◌, ◌^◌, length, None, IfOk, OnErr};
ghost use Rattle.napi_types.specs.declared.call.Call.TheVariants as call_of;
ghost use Rattle.napi_types.specs.plain.CallFacts.{group_of};
ghost use Rattle.napi_types.specs.parts.AsyncHooks.{count_waiting};
ghost use Rattle.napi_types.specs.environment.Changes.{with_none_waiting};
ghost use Rattle.napi_types.specs.environment.Hooked.{IsHooked};
ghost use Rattle.napi_types.specs.environment.Refusals.{refusal_by_state};
ghost use Rattle.env_core.specs.State.{AnswersInTime, FindsNoMemory, HasNumbersFor};

use super::State;
use napi_types::{AsyncHookId, Call, CallGroup, NoMemory, Out, Reply, Status};

impl State {
    /// What a call on cleanup hooks answers.
    #[tactic(auto, using(crate::proofs::Unrefused::stopped))]
    pub(super) fn answer_on_hooks(&mut self, call: &Call) -> Result<Reply, NoMemory>
        requires group { group_of call.now ≡ CallGroup.OnHooks }
        requires numbers { HasNumbersFor self.old }
        requires hooked { IsHooked self.old }
        ensures ok { IfOk result (λ reply. AnswersInTime self.old call.now reply self.new) }
        ensures stopped { OnErr result (FindsNoMemory self.old call.now (refusal_by_state self.old call.now) self.new) }
    {
        match call {
            Call::AddEnvCleanupHook(entry, argument) => {
                self.add_env_cleanup_hook(*entry, *argument)
            }
            Call::RemoveEnvCleanupHook(entry, argument) => {
                Ok(self.remove_env_cleanup_hook(*entry, *argument))
            }
            Call::AddAsyncCleanupHook(entry, argument) => {
                self.add_async_cleanup_hook(*entry, *argument)
            }
            Call::RemoveAsyncCleanupHook(hook) => Ok(self.remove_async_cleanup_hook(*hook)),
            _ => unreachable!(),
        }
    }

    /// Adds a hook of the addon that calls, and registers it. It is refused where the addon has added it, and it has neither begun
    /// nor been removed since.
    #[inline(never)]
    pub(super) fn add_env_cleanup_hook(
        &mut self,
        entry: u32,
        argument: u64,
    ) -> Result<Reply, NoMemory>
        requires hooked { IsHooked self.old }
        requires tickets { length self.old.book < 2 ^ 62 }
        ensures ok { IfOk result (λ reply. AnswersInTime self.old (call_of.AddEnvCleanupHook entry argument) reply self.new) }
        ensures err { OnErr result (self.new ≡ self.old) }
        ensures unrefused { OnErr result (refusal_by_state self.old (call_of.AddEnvCleanupHook entry argument) ≡ None) }
    {
        let addon = self.caller();
        if self.registry.find_hook(addon, entry, argument).is_some() {
            return Ok(Reply::plain(Status::InvalidArg, Out::Nothing));
        }
        let duty = self.registry.add_hook(addon, entry, argument)?;
        Ok(Reply {
            status: Status::Ok,
            out: Out::Nothing,
            dropped: None,
            made: Some(duty),
        })
    }

    /// Takes a hook of the addon that calls off the list, and withdraws its ticket, where it is still registered. It is refused
    /// where the addon has not added it, and where it has begun or was removed since.
    #[inline(never)]
    pub(super) fn remove_env_cleanup_hook(&mut self, entry: u32, argument: u64) -> Reply
        ensures { AnswersInTime self.old (call_of.RemoveEnvCleanupHook entry argument) result self.new }
    {
        let addon = self.caller();
        let Some(ticket) = self.registry.find_hook(addon, entry, argument) else {
            return Reply::plain(Status::InvalidArg, Out::Nothing);
        };
        Reply {
            status: Status::Ok,
            out: Out::Nothing,
            dropped: self.registry.remove_hook(ticket),
            made: None,
        }
    }

    /// Adds an asynchronous hook of the addon that calls, gives its number, and registers it.
    #[inline(never)]
    pub(super) fn add_async_cleanup_hook(
        &mut self,
        entry: u32,
        argument: u64,
    ) -> Result<Reply, NoMemory>
        requires hooked { IsHooked self.old }
        requires tickets { length self.old.book < 2 ^ 62 }
        ensures ok { IfOk result (λ reply. AnswersInTime self.old (call_of.AddAsyncCleanupHook entry argument) reply self.new) }
        ensures err { OnErr result (self.new ≡ self.old) }
        ensures unrefused { OnErr result (refusal_by_state self.old (call_of.AddAsyncCleanupHook entry argument) ≡ None) }
    {
        let addon = self.caller();
        let (id, duty) = self.registry.add_async_hook(addon, entry, argument)?;
        Ok(Reply {
            status: Status::Ok,
            out: Out::AsyncHook(id),
            dropped: None,
            made: Some(duty),
        })
    }

    /// Removes an asynchronous hook, whoever added it, and withdraws the ticket of one that has not begun. It is refused where none has this
    /// number, and where it was removed before.
    #[inline(never)]
    pub(super) fn remove_async_cleanup_hook(&mut self, hook: AsyncHookId) -> Reply
        ensures { AnswersInTime self.old (call_of.RemoveAsyncCleanupHook hook) result self.new }
    {
        let Ok(dropped) = self.registry.remove_async_hook(hook) else {
            return Reply::plain(Status::InvalidArg, Out::Nothing);
        };
        Reply {
            status: Status::Ok,
            out: Out::Nothing,
            dropped,
            made: None,
        }
    }

    /// How many asynchronous hooks wait. Constant time.
    pub fn waiting_hooks(&self) -> u64
        ensures { result ≡ count_waiting self.now.async_hooks }
    {
        self.registry.waiting_hooks()
    }

    /// The asynchronous hooks that wait are abandoned.
    pub fn abandon_hooks(&mut self)
        ensures { self.new ≡ with_none_waiting self.old }
    {
        self.registry.abandon_hooks();
    }
}
