//! The collection.
ghost use Rattle.std.specs.Prelude.{◌≡◌, None, IfOk, OnErr};
ghost use Rattle.napi_types.specs.declared.call.Call.TheVariants as call_of;
ghost use Rattle.napi_types.specs.plain.CallFacts.{group_of};
ghost use Rattle.napi_types.specs.environment.Refusals.{refusal_by_state};
ghost use Rattle.env_core.specs.State.{AnswersInTime, FindsNoMemory};

use super::State;
use crate::roots::roots_of;
use env_values::invariant;
use napi_types::{Call, CallGroup, NoMemory, Out, Reply, Status};

impl State {
    /// What the call of a collection answers.
    #[tactic(auto, using(crate::proofs::Unrefused::stopped))]
    pub(super) fn answer_on_collection(&mut self, call: &Call) -> Result<Reply, NoMemory>
        requires group { group_of call.now ≡ CallGroup.OnCollection }
        ensures ok { IfOk result (λ reply. AnswersInTime self.old call.now reply self.new) }
        ensures stopped { OnErr result (FindsNoMemory self.old call.now (refusal_by_state self.old call.now) self.new) }
    {
        match call {
            Call::Collect => self.collect(),
            _ => unreachable!(),
        }
    }

    /// Frees the values that the roots do not reach, and tells how many there were: the references to them are emptied, what is
    /// attached to them goes, the tickets of their finalizers fall due, and those that were promises are none any more. All memory is
    /// taken before the first change.
    #[inline(never)]
    pub(super) fn collect(&mut self) -> Result<Reply, NoMemory>
        ensures ok { IfOk result (λ reply. AnswersInTime self.old call_of.Collect reply self.new) }
        ensures err { OnErr result (self.new ≡ self.old) }
        ensures unrefused { OnErr result (refusal_by_state self.old call_of.Collect ≡ None) }
    {
        let roots = roots_of(
            self.alloc,
            &self.store,
            &self.scopes,
            &self.references,
            &self.tsfn_roots,
            self.exceptions.pending(),
            &self.registry,
        )?;
        // What is attached to live values is told apart by their creation numbers, and a value has one wrap and one tag at most.
        invariant(&self.store);
        self.registry.invariant();
        let freed = trace_collect::collect(self.alloc, &mut self.store, &roots)?;
        // A view that is left has its buffer, since what a value names is live.
        invariant(&self.store);
        self.references.empty_of(&freed);
        self.registry.gone_all(&freed);
        Ok(Reply::plain(Status::Ok, Out::Unsigned(freed.len() as u64)))
    }
}
