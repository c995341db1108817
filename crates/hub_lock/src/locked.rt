//! What lies under the lock: the hub's state, in a box.
ghost use Rattle.std.specs.Prelude.{◌≡◌, ◌-◌, ◌<◌, true, None, IsTrue};
ghost use Rattle.napi_types.specs.hub.Hub.{threads_left};
ghost use Rattle.napi_types.specs.hub.HubCalls.{is_thread_call};
ghost use Rattle.napi_types.specs.plain.Lists.{has_number};
ghost use Rattle.shared_hub.specs.KeptHubs.{IsLedHub};
ghost use Rattle.napi_types.specs.parts.Pool.{executed_by};
ghost use Rattle.napi_types.specs.hub.ThreadSteps.{is_gone_on};
ghost use Rattle.napi_types.specs.hub.WorkerSteps.{is_worker_there};
ghost use Rattle.shared_hub.specs.HubStates.{AddsEntry};
ghost use Rattle.shared_hub.specs.SharedTries.{MayEnd};
ghost use Rattle.hub_lock.specs.LockedTurns.{AfterCall};
ghost use Rattle.hub_lock.specs.Working.{Executes, finish_entry, AfterStart};
ghost use Rattle.hub_lock.specs.LockedEnds.{AfterEnd};

use async_work::{Job, Picked, Ran};
use napi_types::{Actor, Call, Why};
use shared_hub::{HubState, Naming, ThreadTried};
use turn_lock::Told;

/// The state, as it lies under the lock, which moves its box alone.
#[derive(Drop)]
pub struct Locked<S: Told> {
    pub state: Box<S>,
}

impl<S: Told> Told for Locked<S> {
    ghost told = { λ l. S.told l.state.value };

    fn told_len(&self) -> u64 {
        self.state.told_len()
    }
}

impl<J: Job, N: Naming> Locked<HubState<J, N>> {
    /// No effect. Its clauses are the invariant of the state: see [`HubState::invariant`].
    pub fn invariant(&self)
        ensures { IsLedHub N.numbers self.now.state.value }
    {
        self.state.invariant();
    }

    /// The turn of the pass of this number ends. Where the hub's last answer said that it waits it is noted asleep. Which passes are to be rung, a bit for
    /// each.
    pub(crate) fn end_turn(&mut self, number: u32) -> u64
        ensures { self.new.state.value ≡ self.old.state.value }
    {
        if let Some(why) = self.state.take_wait() {
            self.state.note_sleep(number, why);
        }
        self.state.take_rings()
    }

    /// A call of the thread that has the pass of this number. It waits for `go`, or for room.
    pub(crate) fn call(&mut self, number: u32, step: u32, call: &Call) -> ThreadTried
        requires thread { 0 < number }
        requires left { has_number (number - 1) (threads_left self.old.state.value.hub) ≡ true }
        requires kind { is_thread_call call.now ≡ true }
        ensures after { AfterCall N.numbers (number - 1) step call.now self.old.state.value result self.new.state.value }
        ensures known { IsLedHub N.numbers self.new.state.value }
    {
        if !self.state.is_live() {
            self.state.wait_for_go();
            self.state.invariant();
            return ThreadTried::Wait;
        }
        let tried = self.state.thread_call(number - 1, step, call);
        self.state.invariant();
        tried
    }

    /// A start of a worker. It waits where there is nothing to start.
    #[tactic(auto, using(crate::proofs::LockedWorkers::start_after))]
    pub(crate) fn start(&mut self, worker: u32) -> Picked<J>
        requires there { IsTrue (is_worker_there self.old.state.value.hub worker) }
        requires free { executed_by self.old.state.value.hub.pool worker ≡ None }
        ensures after { AfterStart worker self.old.state.value result self.new.state.value }
        ensures known { IsLedHub N.numbers self.new.state.value }
    {
        let picked = self.state.start(worker);
        self.state.invariant();
        picked
    }

    /// The finish of a work that a worker executed.
    pub(crate) fn finish(&mut self, worker: u32, ran: Ran)
        requires { Executes worker ran.number ran.value self.old.state.value.hub }
        ensures after { AddsEntry self.old.state.value (finish_entry worker ran.value) self.new.state.value }
        ensures known { IsLedHub N.numbers self.new.state.value }
    {
        self.state.finish(worker, ran);
        self.state.invariant();
    }

    /// The end of a thread or a worker, where it may come. A thread waits for `go`.
    pub(crate) fn end(&mut self, actor: Actor, cut: Option<Why>) -> bool
        requires { is_gone_on self.old.state.value.hub.stage ≡ true → MayEnd self.old.state.value.hub actor cut }
        ensures after { AfterEnd actor cut self.old.state.value result self.new.state.value }
        ensures known { IsLedHub N.numbers self.new.state.value }
    {
        if !self.state.is_live() {
            self.state.wait_for_go();
            self.state.invariant();
            return false;
        }
        self.state.actor_end(actor, cut);
        self.state.invariant();
        true
    }
}
