//! The great events of the hub.
ghost use Rattle.std.specs.Prelude.{◌≡◌, ◌<◌, ◌&&◌, ◌==◌, ◌||◌, length, true, None, Some, is_none, is_some, IfSome, MatchBool};
ghost use Rattle.std.specs.Option.{IfNone};
ghost use Rattle.napi_types.specs.declared.entry.HostStep.TheVariants as host;
ghost use Rattle.napi_types.specs.declared.entry.Out.TheVariants as out;
ghost use Rattle.napi_types.specs.plain.Entries.{host_entry as entry_of};
ghost use Rattle.napi_types.specs.hub.Hub.{Stage, Before, Live, LoopEnded, Drained, is_of_hooks};
ghost use Rattle.napi_types.specs.hub.HubEvents.{is_still};
ghost use Rattle.napi_types.specs.hub.HubMoves.{hub_move, is_quiet, is_spent, loop_end_of};
ghost use Rattle.shared_hub.specs.HubStates.{AddsEntry};

use super::HubState;
use crate::naming::Naming;
use crate::progress::HubStage;
use crate::sleepers::WaitsFor;
use async_work::Job;
use napi_types::{Actor, Entry, HostStep, LoopEnd, Out, Reply, Status, What};

impl<J: Job, N: Naming> HubState<J, N> {
    /// `go`: the init frames are over, and threads may make calls. Constant time. It takes no memory.
    pub fn go(&mut self)
        requires first { self.old.hub.stage ≡ Before }
        requires alone { self.old.hub.standing ≡ None }
        ensures { AddsEntry self.old (entry_of host.Go out.Nothing) self.new }
    {
        self.sleepers.ring_all(WaitsFor::Go);
        self.progress.stage = HubStage::Live;
        self.entries
            .push_reserved(host_entry(HostStep::Go, Out::Nothing));
    }

    /// `loop_end`, where the loop ends. It ends for `Exit` where exit was asked, else not while a ticket is due (`due`) or the hub has a
    /// move. Else it ends idle, where nothing is left to do, or quiet, where nobody is left who could give it something to do. `None`
    /// where it does not end, and nothing changes. That the environment waits is noted then: see [`HubState::take_wait`].
    ///
    /// Constant time. It takes no memory.
    pub fn loop_end(&mut self, exit: bool, due: bool) -> Option<LoopEnd>
        requires going { self.old.hub.stage ≡ Live }
        requires alone { self.old.hub.standing ≡ None }
        ensures reason { result ≡ loop_end_of exit due self.old.hub }
        ensures ended { IfSome result (λ why. AddsEntry self.old (entry_of host.LoopEnd (out.Ended why)) self.new) }
        ensures goes_on { IfNone result (self.new ≡ self.old) }
    {
        let Some(why) = self.end_reason(exit, due) else {
            self.sleepers.wait_for(WaitsFor::Entry);
            return None;
        };
        self.progress.stage = HubStage::LoopEnded;
        self.entries
            .push_reserved(host_entry(HostStep::LoopEnd, Out::Ended(why)));
        Some(why)
    }

    /// `abandon`, where it may come: the asynchronous hooks that wait, so many, are abandoned once the hub has no move, every thread has ended, no
    /// work runs, and none is queued unless there are no workers. So nobody is left who could remove one. Whether it came; where it did not
    /// nothing changes, and that the environment waits is noted: see [`HubState::take_wait`].
    ///
    /// It comes after `loop_end` and before `drain`, at most once, where at least one hook waits and no frame stands. Constant time. It takes no memory.
    pub fn abandon(&mut self, waiting: u64) -> bool
        requires looped { self.old.hub.stage ≡ LoopEnded }
        requires alone { self.old.hub.standing ≡ None }
        requires waiting { 0 < waiting }
        ensures may { result ≡ is_still self.old.hub }
        ensures comes { MatchBool result (AddsEntry self.old (entry_of host.Abandon (out.Unsigned waiting)) self.new) (self.new ≡ self.old) }
    {
        if !self.is_still() {
            self.sleepers.wait_for(WaitsFor::Entry);
            return false;
        }
        self.progress.stage = HubStage::HooksAbandoned;
        self.entries
            .push_reserved(host_entry(HostStep::Abandon, Out::Unsigned(waiting)));
        true
    }

    /// `drain`: no work starts any more, those that wait are cancelled, and every open function begins to close. How many works waited.
    ///
    /// It comes after `loop_end`, and after `abandon` where that came. In time linear in the works that waited and in the functions. It takes no memory.
    pub fn drain(&mut self) -> u64
        requires looped { is_of_hooks self.old.hub.stage ≡ true }
        requires alone { self.old.hub.standing ≡ None }
        ensures count { result ≡ length self.old.hub.pool.queued }
        ensures drained { AddsEntry self.old (entry_of host.Drain (out.Unsigned (length self.old.hub.pool.queued))) self.new }
    {
        self.sleepers.ring_everyone();
        let count = self.parts.drain();
        self.progress.stage = HubStage::Drained;
        self.entries
            .push_reserved(host_entry(HostStep::Drain, Out::Unsigned(count)));
        count
    }

    /// `finals`, where it may come: once every thread and every worker has ended, no work runs and the hub has no move. Whether it came;
    /// where it did not nothing changes, and that the environment waits is noted: see [`HubState::take_wait`].
    ///
    /// Constant time. It takes no memory.
    pub fn finals(&mut self) -> bool
        requires drained { self.old.hub.stage ≡ Drained }
        requires alone { self.old.hub.standing ≡ None }
        ensures may { result ≡ (is_none (hub_move self.old.hub) && is_spent self.old.hub) }
        ensures comes { MatchBool result (AddsEntry self.old (entry_of host.Finals out.Nothing) self.new) (self.new ≡ self.old) }
    {
        if self.parts.has_move() || !self.is_spent() {
            self.sleepers.wait_for(WaitsFor::Entry);
            return false;
        }
        self.progress.stage = HubStage::Final;
        self.entries
            .push_reserved(host_entry(HostStep::Finals, Out::Nothing));
        true
    }

    /// Why the loop ends, where it does.
    fn end_reason(&self, exit: bool, due: bool) -> Option<LoopEnd>
        ensures { result ≡ loop_end_of exit due self.now.hub }
    {
        if exit {
            return Some(LoopEnd::Exit);
        }
        if due || self.parts.has_move() {
            return None;
        }
        if self.parts.is_idle() {
            return Some(LoopEnd::Idle);
        }
        self.is_quiet().then_some(LoopEnd::Quiet)
    }

    /// Whether the hub has no move, and nobody is left who could give it one.
    fn is_still(&self) -> bool
        ensures { result ≡ is_still self.now.hub }
    {
        !self.parts.has_move() && self.is_quiet()
    }

    /// Whether nobody is left who could give the hub something to do.
    fn is_quiet(&self) -> bool
        ensures { result ≡ is_quiet self.now.hub }
    {
        self.progress.threads_left == 0
            && self.parts.running() == 0
            && (self.parts.queued() == 0 || self.progress.workers == 0)
    }

    /// Whether every thread and every worker has ended, and no work runs.
    fn is_spent(&self) -> bool
        ensures { result ≡ is_spent self.now.hub }
    {
        self.progress.is_deserted() && self.parts.running() == 0
    }
}

/// The entry of an event of the environment, with status 0.
pub(super) fn host_entry(event: HostStep, told: Out) -> Entry
    ensures { result ≡ entry_of event told }
{
    Entry {
        actor: Actor::Env,
        depth: 0,
        step: 0,
        what: What::Host(event),
        reply: Reply::plain(Status::Ok, told),
        given: None,
    }
}
