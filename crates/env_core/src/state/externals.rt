//! The call that creates an external.
ghost use Rattle.std.specs.Prelude.{◌≡◌, ◌≢◌, ◌+◌, ◌<◌, ◌^◌, [], length, None, IfOk, OnErr};
ghost use Rattle.napi_types.specs.declared.call.Call.TheVariants as call_of;
ghost use Rattle.napi_types.specs.plain.CallFacts.{group_of};
ghost use Rattle.napi_types.specs.parts.Properties.{most_names};
ghost use Rattle.napi_types.specs.environment.Refusals.{refusal_by_state};
ghost use Rattle.env_core.specs.State.{AnswersInTime, FindsNoMemory, HasNumbersFor};

use super::State;
use env_values::{invariant, make_held};
use napi_types::{Body, Call, CallGroup, NoMemory, Reply, Status};

impl State {
    /// What the call that creates an external answers.
    #[tactic(auto, using(crate::proofs::Unrefused::stopped))]
    pub(super) fn answer_on_externals(&mut self, call: &Call) -> Result<Reply, NoMemory>
        requires standing { self.old.frames ≢ [] }
        requires group { group_of call.now ≡ CallGroup.OnExternals }
        requires numbers { HasNumbersFor self.old }
        ensures ok { IfOk result (λ reply. AnswersInTime self.old call.now reply self.new) }
        ensures stopped { OnErr result (FindsNoMemory self.old call.now (refusal_by_state self.old call.now) self.new) }
    {
        match call {
            Call::CreateExternal(payload, finalizer, hint) => {
                self.create_external(*payload, *finalizer, *hint)
            }
            _ => unreachable!(),
        }
    }

    /// A new external, which holds this payload, and its handle. Where the call names an entry a finalizer is registered, else the
    /// hint is kept for nobody.
    #[inline(never)]
    pub(super) fn create_external(
        &mut self,
        payload: u64,
        finalizer: Option<u32>,
        hint: u64,
    ) -> Result<Reply, NoMemory>
        requires standing { self.old.frames ≢ [] }
        requires values { self.old.heap.made + most_names + 8 < 2 ^ 48 }
        requires handles { self.old.heap.handles < 2 ^ 62 }
        requires tickets { length self.old.book < 2 ^ 62 }
        ensures ok { IfOk result (λ reply. AnswersInTime self.old (call_of.CreateExternal payload finalizer hint) reply self.new) }
        ensures err { OnErr result (self.new ≡ self.old) }
        ensures unrefused { OnErr result (refusal_by_state self.old (call_of.CreateExternal payload finalizer hint) ≡ None) }
    {
        let asked = self.finalizer_if(payload, finalizer, hint);
        self.registry.reserve_finalizer(asked)?;
        let body = Body::External(payload);
        // What a view names is live, so it is seen as it was.
        invariant(&self.store);
        let (value, out) = make_held(&mut self.store, &mut self.scopes, body)?;
        let made = self.registry.attach(value, asked);
        Ok(Reply {
            status: Status::Ok,
            out,
            dropped: None,
            made,
        })
    }
}
