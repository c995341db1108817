//! Turns of a thread of a script.
ghost use Rattle.std.specs.Prelude.{◌≡◌, ◌≢◌, ◌↔◌, ◌≤◌, false, true, length, drop, Some, IsTrue, IfNone, IfSome};
ghost use Rattle.std.specs.List.{All};
ghost use Rattle.napi_types.specs.declared.call.Ask.TheVariants as asks;
ghost use Rattle.napi_types.specs.declared.entry.Actor.TheVariants as actor_of;
ghost use Rattle.napi_types.specs.scripts.Registers.{operation_ask, blank_registers};
ghost use Rattle.napi_types.specs.hub.Actors.{thread_calls, EndsThread};
ghost use Rattle.napi_types.specs.hub.HubCalls.{is_thread_call};
ghost use Rattle.napi_types.specs.hub.ThreadSteps.{is_gone_on};
ghost use Rattle.shared_hub.specs.HubStates.{hub_room};
ghost use Rattle.shared_hub.specs.SharedTries.{actor_end_told as end_told_by};
ghost use Rattle.env_loop.specs.ActorRuns.{IsOperationOfThread, new_thread, IsThreadOf, SameThread, ThreadBlocked, AddsEntryOf, StoppedAt, calls_left};

use super::unstarted::UnstartedThread;
use super::{ActorTurn, NextStep};
use async_work::Job;
use napi_types::{Actor, Call, Op, OpList, Status, TsfnId, Why};
use shared_hub::{HubState, Naming, ThreadTried};
use std::marker::Model;

/// The run of a thread of a script. It has to be spent, by [`ActorRun::retire`](super::ActorRun::retire).
pub struct ThreadRun {
    number: u32,
    operations: OpList,
    // How many of them it made.
    made: u32,
    over: bool,
}

impl Model for ThreadRun {
    ghost use Rattle.env_loop.specs.ActorRuns.{ThreadSeen, IsThreadRun};

    ghost Value = { ThreadSeen };

    ghost view = { λ run. record { number = run.number; operations = run.operations; made = run.made; over = run.over } };

    ghost invariant = { λ run. IsThreadRun run.operations run.made };
}

impl ThreadRun {
    /// Before its first turn.
    pub(crate) fn new(number: u32, operations: OpList) -> ThreadRun
        requires few { length operations ≤ 16384 }
        requires kinds { All IsOperationOfThread operations }
        ensures { result ≡ new_thread number operations }
    {
        ThreadRun {
            number,
            operations,
            made: 0,
            over: false,
        }
    }

    /// What it does next.
    pub(crate) fn next_step(&self) -> NextStep {
        match self.operations.items().get(self.made as usize) {
            Some(_) if !self.over => NextStep::Operation,
            _ => NextStep::Ends,
        }
    }

    /// Makes its next entry: the next call of its script, or its end after the last one. A call that stops ends it in the same turn, cut.
    pub(crate) fn turn<J: Job, N: Naming>(&mut self, hub: &mut HubState<J, N>) -> ActorTurn
        requires { IsThreadOf N.numbers hub.old self.old }
        ensures stands { IsThreadOf N.numbers hub.new self.new }
        ensures script { SameThread self.old self.new }
        ensures made { result ≡ ActorTurn.Made → AddsEntryOf (actor_of.Thread self.old.number) hub.old hub.new }
        ensures blocked { result ≡ ActorTurn.Blocked → ThreadBlocked (hub_room N.numbers hub.old) hub.old.hub self.old }
        ensures same { result ≢ ActorTurn.Made → (hub.new ≡ hub.old) × (self.new ≡ self.old) }
        ensures ended { (result ≡ ActorTurn.Ended) ↔ IsTrue self.old.over }
        ensures cut { self.new.over ≡ true → StoppedAt (hub_room N.numbers hub.old) hub.old.hub self.old.number (calls_left self.old) }
    {
        if self.over {
            return ActorTurn::Ended;
        }
        if !hub.is_live() {
            hub.wait_for_go();
            return ActorTurn::Blocked;
        }
        hub.invariant();
        let Some(operation) = self.operations.items().get(self.made as usize) else {
            self.end(hub, None);
            return ActorTurn::Made;
        };
        match hub.thread_call(self.number, self.made, &call_of(operation)) {
            ThreadTried::Reply(_) => {
                self.made += 1;
                ActorTurn::Made
            }
            ThreadTried::Wait => ActorTurn::Blocked,
            ThreadTried::Stop(status) => {
                self.end(hub, Some(cause_of(status)));
                ActorTurn::Made
            }
        }
    }

    /// It ends, cut where a call stopped.
    fn end<J: Job, N: Naming>(&mut self, hub: &mut HubState<J, N>, cut: Option<Why>)
        requires stands { IsThreadOf N.numbers hub.old self.old }
        requires there { self.old.over ≡ false }
        requires live { is_gone_on hub.old.hub.stage ≡ true }
        requires exact { EndsThread (hub_room N.numbers hub.old) (drop self.old.made (thread_calls self.old.operations)) (end_told_by cut) }
        requires cause { cut ≢ Some Why.Asks }
        ensures stands { IsThreadOf N.numbers hub.new self.new }
        ensures script { SameThread self.old self.new }
        ensures made { AddsEntryOf (actor_of.Thread self.old.number) hub.old hub.new }
    {
        hub.invariant();
        hub.actor_end(Actor::Thread(self.number), cut);
        self.over = true;
    }

    /// What it is made of, where no turn of it was made.
    pub(crate) fn into_unstarted(self) -> UnstartedThread
        ensures { result ≡ new_thread self.number self.operations }
    {
        let ThreadRun {
            number,
            operations,
            made: _,
            over: _,
        } = self;
        UnstartedThread::new(number, operations)
    }

    /// Ends the value, without an event.
    pub(crate) fn retire(self) {
        let ThreadRun {
            number: _,
            operations: _,
            made: _,
            over: _,
        } = self;
    }
}

/// The call of an operation of a thread.
fn call_of(operation: &Op) -> Call
    requires { IsOperationOfThread operation.now }
    ensures asked { operation_ask operation.now blank_registers ≡ asks.Do result }
    ensures kind { is_thread_call result ≡ true }
{
    match *operation {
        Op::ThreadCall(id, payload, mode) => {
            Call::CallThreadsafeFunction(TsfnId(id), payload, mode)
        }
        Op::ThreadAcquire(id) => Call::AcquireThreadsafeFunction(TsfnId(id)),
        Op::ThreadRelease(id, mode) => Call::ReleaseThreadsafeFunction(TsfnId(id), mode),
        _ => unreachable!(),
    }
}

/// Why a thread is cut whose call stopped with this status.
fn cause_of(status: Status) -> Why
    ensures full { status ≡ Status.TraceFull → result ≡ Why.Full }
    ensures memory { status ≡ Status.NoMemory → result ≡ Why.Memory }
    ensures no_asks { result ≢ Why.Asks }
{
    if status == Status::TraceFull {
        Why::Full
    } else {
        Why::Memory
    }
}
