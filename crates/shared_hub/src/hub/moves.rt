//! The moves that the hub makes of its own, and the ends of its frames.
ghost use Rattle.std.specs.Prelude.{◌≡◌, true, IsTrue, None, Some, option_map};
ghost use Rattle.napi_types.specs.declared.entry.HostStep.TheVariants as host;
ghost use Rattle.napi_types.specs.plain.Entries.{host_entry as entry_of};
ghost use Rattle.napi_types.specs.hub.HubEvents.{may_move, is_frame_end, delivery_entry as entry_delivered};
ghost use Rattle.napi_types.specs.hub.HubMoves.{hub_move};
ghost use Rattle.shared_hub.specs.HubStates.{AddsEntry, KeepsStage};
ghost use Rattle.shared_hub.specs.HubTries.{polled_move, AddsMove, IfBegun, IfNoneBegun, unspent_job};

use super::HubState;
use super::events::host_entry;
use crate::naming::Naming;
use crate::parts::SharedParts;
use crate::sleepers::{Sleepers, WaitsFor};
use crate::tries::Polled;
use async_work::Job;
use napi_types::{Actor, Begun, Due, DueInfo, Duty, Entry, HostStep, Out, Reply, What};

impl<J: Job, N: Naming> HubState<J, N> {
    /// Makes the hub's next move: the completion of the work that ended first, or else that of the function with the lowest number that
    /// has something to do. An item of it is delivered, or is torn while it closes; it begins to close, or finishes; or its finalizer
    /// begins. `Nothing` exactly where there is nothing to do, and nothing changes.
    ///
    /// A completion comes with its job exactly where the work was cancelled before it started.
    ///
    /// In logarithmic time over all moves. It takes no memory.
    pub fn poll(&mut self) -> Polled<J>
        requires { IsTrue (may_move self.old.hub) }
        ensures taken { polled_move result ≡ hub_move self.old.hub }
        ensures event { AddsMove self.old result self.new }
        ensures keeps { KeepsStage self.old.hub self.new.hub }
        ensures stands { IfBegun result (λ due job. self.new.hub.standing ≡ Some due) }
        ensures alone { IfNoneBegun result (self.new.hub.standing ≡ None) }
        ensures unspent { IfBegun result (λ due job. option_map J.spec job ≡ unspent_job self.old.hub.pool due) }
    {
        match self.parts.take_move() {
            Polled::Begin(due, job) => {
                note_begin(&mut self.sleepers, &self.parts, &due);
                self.progress.stands = true;
                self.entries.push_reserved(delivery_entry(due.info()));
                Polled::Begin(due, job)
            }
            Polled::Closed(id) => {
                self.sleepers.ring_all(WaitsFor::Room(id));
                self.entries
                    .push_reserved(host_entry(HostStep::CloseTsfn, Out::Function(id)));
                Polled::Closed(id)
            }
            Polled::Finished(id) => {
                self.entries
                    .push_reserved(host_entry(HostStep::FinishTsfn, Out::Function(id)));
                Polled::Finished(id)
            }
            Polled::Nothing => {
                self.sleepers.ring_first_of_each();
                Polled::Nothing
            }
        }
    }

    /// The frame of a duty of the hub ends, which stands, in one of the ways in which frames end.
    ///
    /// Constant time. It takes no memory.
    pub fn end_frame(&mut self, begun: Begun, told: Out)
        requires stands { self.old.hub.standing ≡ Some begun }
        requires end { IsTrue (is_frame_end told) }
        ensures next { AddsEntry self.old (entry_of host.End told) self.new }
        ensures keeps { KeepsStage self.old.hub self.new.hub }
        ensures alone { self.new.hub.standing ≡ None }
    {
        let _info = begun.end();
        self.progress.stands = false;
        self.entries.push_reserved(host_entry(HostStep::End, told));
    }
}

/// Where the item that was taken out was the last one in its queue, one that waits for room is rung.
fn note_begin<J: Job>(sleepers: &mut Sleepers, parts: &SharedParts<J>, due: &Due) {
    if let Duty::Item(id, _) = due.info().duty {
        if parts.is_emptied(id) {
            sleepers.ring_for_room(id);
        }
    }
}

/// The begin of a duty's frame, which has the duty's status.
fn delivery_entry(info: &DueInfo) -> Entry
    ensures { result ≡ entry_delivered info.now }
{
    Entry {
        actor: Actor::Env,
        depth: 0,
        step: 0,
        what: What::Host(HostStep::Begin),
        reply: Reply::plain(
            info.status,
            Out::Begin(info.cause, info.addon, info.entry, Some(info.duty)),
        ),
        given: None,
    }
}
