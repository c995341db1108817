//! The ends of threads and workers.
ghost use Rattle.std.specs.Prelude.{◌≡◌, ◌<◌, false};
ghost use Rattle.hub_lock.specs.SeenTurns.{Added};
ghost use Rattle.hub_lock.specs.LockedEnds.{MayEndBy, pass_end_entry, TriedEnd, actor_of};

use super::Hub;
use async_work::Job;
use napi_types::{Actor, Why};
use shared_hub::Naming;
use std::sync::Wait;
use turn_lock::Pass;

impl<J: Job, N: Naming> Hub<J, N> {
    /// A thread or a worker ends. A thread waits until `go`, and may be cut; a worker has seen the drain, and executes nothing.
    ///
    /// The end's entry is the last row of the pass's own. `runner` does not use it: see [`Hub::call_tsfn`].
    pub fn actor_ends<R: Wait>(&self, rt: &R, pass: &mut Pass, cut: Option<Why>)
        requires lock { pass.old.lock ≡ self.now.lock }
        requires free { pass.old.holds ≡ false }
        requires may { MayEndBy N.numbers pass.old cut }
        ensures { Added N.numbers pass.old pass.new (pass_end_entry N.numbers pass.old.number cut) }
    {
        for _ in rt.forever() {
            if self.try_end(rt, pass, cut) {
                return;
            }
            self.sleep(rt, pass.number());
        }
        unreachable!()
    }

    /// One turn of an end.
    fn try_end<R: Wait>(&self, rt: &R, pass: &mut Pass, cut: Option<Why>) -> bool
        requires lock { pass.old.lock ≡ self.now.lock }
        requires free { pass.old.holds ≡ false }
        requires may { MayEndBy N.numbers pass.old cut }
        ensures { TriedEnd N.numbers pass.old cut result pass.new }
    {
        let number = pass.number();
        let actor = self.actor(number);
        let mut held = self.take(rt, pass);
        held.value.invariant();
        let ended = held.value.end(actor, cut);
        self.give(pass, held);
        ended
    }

    /// The thread or the worker that has the pass of this number.
    fn actor(&self, number: u32) -> Actor
        requires { 0 < number }
        ensures { result ≡ actor_of N.numbers number }
    {
        if number <= self.threads {
            Actor::Thread(number - 1)
        } else {
            Actor::Worker(number - 1 - self.threads)
        }
    }
}
