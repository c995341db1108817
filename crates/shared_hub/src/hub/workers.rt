//! What workers do, and the ends of threads and workers.
ghost use Rattle.std.specs.Prelude.{◌≡◌, ◌&&◌, not, IsTrue, None, Some};
ghost use Rattle.napi_types.specs.declared.entry.Actor.TheVariants as actor;
ghost use Rattle.napi_types.specs.declared.entry.Duty.TheVariants as duty;
ghost use Rattle.napi_types.specs.declared.entry.HostStep.TheVariants as host;
ghost use Rattle.napi_types.specs.declared.entry.Out.TheVariants as out;
ghost use Rattle.napi_types.specs.plain.Lists.{is_empty};
ghost use Rattle.napi_types.specs.parts.Pool.{executed_by, value_of_work};
ghost use Rattle.napi_types.specs.hub.HistoryLaws.{KeepsStanding};
ghost use Rattle.napi_types.specs.hub.HubStep.{actor_told as entry_told};
ghost use Rattle.napi_types.specs.hub.WorkerSteps.{is_worker_there};
ghost use Rattle.async_work.specs.Picking.{is_closing, is_nothing, picked_work, first_to_start};
ghost use Rattle.shared_hub.specs.HubStates.{AddsEntry};
ghost use Rattle.shared_hub.specs.HubTries.{AddsStart};
ghost use Rattle.shared_hub.specs.SharedTries.{MayEnd, actor_end_told as end_told_by};

use super::HubState;
use crate::naming::Naming;
use crate::sleepers::WaitsFor;
use async_work::{Job, Picked, Ran};
use napi_types::{Actor, Duty, Entry, HostStep, Out, Reply, Status, What, Why};

impl<J: Job, N: Naming> HubState<J, N> {
    /// A worker that executes nothing and has not ended starts the work that was queued first. `Closing` exactly from the drain on,
    /// `Nothing` exactly where none waits before it, and that the worker waits is noted: see [`HubState::take_wait`]. Where it starts none nothing changes.
    ///
    /// Constant time over all starts. It takes no memory.
    pub fn start(&mut self, worker: u32) -> Picked<J>
        requires there { IsTrue (is_worker_there self.old.hub worker) }
        requires free { executed_by self.old.hub.pool worker ≡ None }
        ensures closing { is_closing result ≡ self.old.hub.pool.closing }
        ensures nothing { is_nothing result ≡ (not self.old.hub.pool.closing && is_empty self.old.hub.pool.queued) }
        ensures job { picked_work result ≡ first_to_start self.old.hub.pool }
        ensures event { AddsStart worker self.old result self.new }
        ensures keeps { KeepsStanding self.old.hub self.new.hub }
    {
        match self.parts.start(worker) {
            Picked::Job(running) => {
                self.sleepers.note_entry();
                let started = Duty::Work(running.number());
                self.entries.push_reserved(actor_entry(
                    Actor::Worker(worker),
                    HostStep::Start,
                    Out::Duty(started),
                ));
                Picked::Job(running)
            }
            Picked::Nothing => {
                self.sleepers.wait_for(WaitsFor::Work);
                Picked::Nothing
            }
            Picked::Closing => Picked::Closing,
        }
    }

    /// A worker finishes the work that it executes, with the value that its job computed.
    ///
    /// Constant time. It takes no memory.
    pub fn finish(&mut self, worker: u32, ran: Ran)
        requires executed { executed_by self.old.hub.pool worker ≡ Some ran.number }
        requires value { ran.value ≡ value_of_work self.old.hub.pool ran.number }
        ensures next { AddsEntry self.old (entry_told (actor.Worker worker) host.Finish (out.Unsigned ran.value)) self.new }
        ensures keeps { KeepsStanding self.old.hub self.new.hub }
    {
        self.sleepers.note_entry();
        let value = ran.value();
        self.parts.finish(worker, ran);
        self.entries.push_reserved(actor_entry(
            Actor::Worker(worker),
            HostStep::Finish,
            Out::Unsigned(value),
        ));
    }

    /// A thread or a worker ends, which has not ended: a thread after `go`, cut or not, and a worker from the drain on, where it executes nothing.
    ///
    /// Constant time. It takes no memory.
    pub fn actor_end(&mut self, actor: Actor, cut: Option<Why>)
        requires { MayEnd self.old.hub actor cut }
        ensures next { AddsEntry self.old (entry_told actor host.ActorEnd (end_told_by cut)) self.new }
        ensures keeps { KeepsStanding self.old.hub self.new.hub }
    {
        self.sleepers.note_entry();
        self.progress.end(actor);
        self.entries
            .push_reserved(actor_entry(actor, HostStep::ActorEnd, end_told(cut)));
    }
}

/// An entry of a thread or a worker that is no call.
fn actor_entry(actor: Actor, event: HostStep, told: Out) -> Entry
    ensures { result ≡ entry_told actor event told }
{
    Entry {
        actor,
        depth: 0,
        step: 0,
        what: What::Host(event),
        reply: Reply::plain(Status::Ok, told),
        given: None,
    }
}

/// What the end of a thread or a worker tells.
fn end_told(cut: Option<Why>) -> Out
    ensures { result ≡ end_told_by cut }
{
    match cut {
        Some(why) => Out::Cut(why),
        None => Out::Nothing,
    }
}
