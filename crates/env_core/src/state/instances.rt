//! Calls on instance data.
ghost use Rattle.std.specs.Prelude.{◌≡◌, ◌<◌, ◌^◌, length, None, IfOk, OnErr, IsSome};
ghost use Rattle.napi_types.specs.declared.call.Call.TheVariants as call_of;
ghost use Rattle.napi_types.specs.plain.CallFacts.{group_of};
ghost use Rattle.napi_types.specs.environment.Refusals.{refusal_by_state};
ghost use Rattle.env_core.specs.State.{AnswersInTime, FindsNoMemory, HasNumbersFor};

use super::State;
use napi_types::{Call, CallGroup, NoMemory, Out, Reply, Status};

impl State {
    /// What a call on instance data answers.
    #[tactic(auto, using(crate::proofs::Unrefused::stopped))]
    pub(super) fn answer_on_instances(&mut self, call: &Call) -> Result<Reply, NoMemory>
        requires group { group_of call.now ≡ CallGroup.OnInstances }
        requires numbers { HasNumbersFor self.old }
        ensures ok { IfOk result (λ reply. AnswersInTime self.old call.now reply self.new) }
        ensures stopped { OnErr result (FindsNoMemory self.old call.now (refusal_by_state self.old call.now) self.new) }
    {
        match call {
            Call::SetInstanceData(payload, finalizer, hint) => {
                self.set_instance_data(*payload, *finalizer, *hint)
            }
            Call::GetInstanceData => Ok(self.get_instance_data()),
            _ => unreachable!(),
        }
    }

    /// Gives the addon that calls other instance data. The finalizer of what was set before is withdrawn, where it is still
    /// registered, and one is registered where the call names an entry; else the hint is kept for nobody, and no memory is taken.
    #[inline(never)]
    pub(super) fn set_instance_data(
        &mut self,
        payload: u64,
        finalizer: Option<u32>,
        hint: u64,
    ) -> Result<Reply, NoMemory>
        requires tickets { length self.old.book < 2 ^ 62 }
        ensures ok { IfOk result (λ reply. AnswersInTime self.old (call_of.SetInstanceData payload finalizer hint) reply self.new) }
        ensures err { OnErr result (self.new ≡ self.old) }
        ensures growing { OnErr result (IsSome finalizer) }
        ensures unrefused { OnErr result (refusal_by_state self.old (call_of.SetInstanceData payload finalizer hint) ≡ None) }
    {
        let addon = self.caller();
        let asked = self.finalizer_if(payload, finalizer, hint);
        let replaced = self.registry.set_instance_data(addon, payload, asked)?;
        Ok(Reply {
            status: Status::Ok,
            out: Out::Nothing,
            dropped: replaced.dropped,
            made: replaced.made,
        })
    }

    /// The instance data of the addon that calls, 0 where none was set.
    #[inline(never)]
    pub(super) fn get_instance_data(&self) -> Reply
        ensures { AnswersInTime self.now call_of.GetInstanceData result self.now }
    {
        let payload = self.registry.instance_data(self.caller());
        Reply::plain(Status::Ok, Out::Unsigned(payload))
    }
}
