//! Turns of a worker.
ghost use Rattle.std.specs.Prelude.{◌≡◌, ◌≢◌, ◌↔◌, false, true, Some, None, IsTrue, IfSome};
ghost use Rattle.napi_types.specs.declared.entry.Actor.TheVariants as actor_of;
ghost use Rattle.napi_types.specs.hub.Waits.{worker_waits};
ghost use Rattle.env_loop.specs.ActorRuns.{WorkerSeen, NoWork, Executed, new_worker, IsWorkerOf, IsHandsReady, IsUnexecuted, IsHandsFree, held_executed, AddsEntryOf};
ghost use Rattle.env_loop.specs.HeldWorks.{held_in};

use super::{ActorTurn, NextStep};
use async_work::{Job, Picked, Ran, Running};
use napi_types::Actor;
use shared_hub::{HubState, Naming};
use std::marker::Model;
use std::mem;

/// What a worker has in its hands.
enum Hands<J: Job> {
    Empty,
    /// A work that it started.
    Started(Running<J>),
    /// A work that it executed.
    Executed(Ran),
}

/// The run of a worker. It has to be spent, by [`ActorRun::retire`](super::ActorRun::retire).
pub struct WorkerRun<J: Job> {
    number: u32,
    hands: Hands<J>,
    over: bool,
}

impl<J: Job> Model for WorkerRun<J> {
    ghost use Rattle.env_loop.specs.ActorRuns.{WorkerSeen};
    ghost use Rattle.env_loop.specs.HeldWorks.{held_in, IsWorkerRun};

    ghost Value = { WorkerSeen };

    ghost view = { λ run. record { number = run.number; held = held_in run.hands; over = run.over } };

    ghost invariant = { λ run. IsWorkerRun (held_in run.hands) run.over };
}

impl<J: Job> WorkerRun<J> {
    /// Before its first turn.
    pub(crate) fn new(number: u32) -> WorkerRun<J>
        ensures { result ≡ new_worker number }
    {
        WorkerRun {
            number,
            hands: Hands::Empty,
            over: false,
        }
    }

    /// What it does next.
    pub(crate) fn next_step(&self) -> NextStep
        ensures { result ≢ NextStep.Executes → IsHandsReady self.now.held }
    {
        match self.hands {
            Hands::Started(_) => NextStep::Executes,
            Hands::Empty | Hands::Executed(_) => NextStep::Serves,
        }
    }

    /// Executes the work that it started, where it holds one. It takes as long as the job does.
    pub(crate) fn between(&mut self)
        ensures { self.new ≡ record self.old { held = held_executed self.old.held } }
    {
        let hands = match mem::replace(&mut self.hands, Hands::Empty) {
            Hands::Started(running) => Hands::Executed(running.execute()),
            hands => hands,
        };
        take_up(&mut self.hands, hands);
    }

    /// Makes its next entry: the finish of the work that it executed, the start of the work that was queued first, or its end from the drain on.
    pub(crate) fn turn<N: Naming>(&mut self, hub: &mut HubState<J, N>) -> ActorTurn
        requires stands { IsWorkerOf N.numbers hub.old self.old }
        requires ready { IsHandsReady self.old.held }
        ensures stands { IsWorkerOf N.numbers hub.new self.new }
        ensures number { self.new.number ≡ self.old.number }
        ensures made { result ≡ ActorTurn.Made → AddsEntryOf (actor_of.Worker self.old.number) hub.old hub.new }
        ensures blocked { result ≡ ActorTurn.Blocked → worker_waits hub.old.hub self.old.number ≡ true }
        ensures same { result ≢ ActorTurn.Made → (hub.new ≡ hub.old) × (self.new ≡ self.old) }
        ensures ended { (result ≡ ActorTurn.Ended) ↔ IsTrue self.old.over }
        ensures unexecuted { result ≡ ActorTurn.Made → IsUnexecuted self.new.held }
    {
        if self.over {
            return ActorTurn::Ended;
        }
        hub.invariant();
        match mem::replace(&mut self.hands, Hands::Empty) {
            Hands::Executed(ran) => {
                hub.finish(self.number, ran);
                ActorTurn::Made
            }
            Hands::Empty => self.start(hub),
            _ => unreachable!(),
        }
    }

    /// One that is free starts the work that was queued first, or ends once no work starts any more.
    fn start<N: Naming>(&mut self, hub: &mut HubState<J, N>) -> ActorTurn
        requires stands { IsWorkerOf N.numbers hub.old self.old }
        requires free { self.old.held ≡ NoWork }
        requires there { self.old.over ≡ false }
        ensures stands { IsWorkerOf N.numbers hub.new self.new }
        ensures number { self.new.number ≡ self.old.number }
        ensures made { result ≡ ActorTurn.Made → AddsEntryOf (actor_of.Worker self.old.number) hub.old hub.new }
        ensures blocked { result ≡ ActorTurn.Blocked → worker_waits hub.old.hub self.old.number ≡ true }
        ensures same { result ≢ ActorTurn.Made → (hub.new ≡ hub.old) × (self.new ≡ self.old) }
        ensures ended { result ≢ ActorTurn.Ended }
        ensures unexecuted { result ≡ ActorTurn.Made → IsUnexecuted self.new.held }
    {
        hub.invariant();
        match hub.start(self.number) {
            Picked::Job(running) => {
                take_up(&mut self.hands, Hands::Started(running));
                ActorTurn::Made
            }
            Picked::Nothing => ActorTurn::Blocked,
            Picked::Closing => {
                hub.actor_end(Actor::Worker(self.number), None);
                self.over = true;
                ActorTurn::Made
            }
        }
    }

    /// Its number. The value ends, without an event.
    pub(crate) fn into_number(self) -> u32
        requires { IsHandsFree self.held }
        ensures { result ≡ self.number }
    {
        let number = self.number;
        self.retire();
        number
    }

    /// Ends the value, without an event.
    pub(crate) fn retire(self)
        requires { IsHandsFree self.held }
    {
        let WorkerRun {
            number: _,
            hands,
            over: _,
        } = self;
        let Hands::Empty = hands else { unreachable!() };
    }
}

/// Hands that are empty take this up.
fn take_up<J: Job>(place: &mut Hands<J>, hands: Hands<J>)
    requires { held_in place.old ≡ NoWork }
    ensures { place.new ≡ hands }
{
    let before = mem::replace(place, hands);
    let Hands::Empty = before else { unreachable!() };
}
