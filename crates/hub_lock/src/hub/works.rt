//! The starts and finishes of works.
ghost use Rattle.std.specs.Prelude.{◌≡◌, false};
ghost use Rattle.napi_types.specs.hub.Actors.{Free};
ghost use Rattle.hub_lock.specs.SeenTurns.{Added};
ghost use Rattle.hub_lock.specs.Working.{IsOfWorker, worker_of, StandsAs, IsAtWork, finish_entry, TriedStart, Started};

use super::Hub;
use async_work::{Job, Picked, Ran};
use shared_hub::Naming;
use std::sync::Wait;
use turn_lock::Pass;

impl<J: Job, N: Naming> Hub<J, N> {
    /// A worker starts the work that was queued first. It waits while none is queued and works may start. `Closing` from the drain on.
    ///
    /// The start's entry is the last row of the pass's own; where it starts none nothing is added. `runner` does not use it: see [`Hub::call_tsfn`].
    pub fn start_work<R: Wait>(&self, rt: &R, pass: &mut Pass) -> Picked<J>
        requires lock { pass.old.lock ≡ self.now.lock }
        requires free { pass.old.holds ≡ false }
        requires worker { IsOfWorker N.numbers pass.old }
        requires idle { StandsAs N.numbers Free pass.old }
        ensures { Started N.numbers pass.old result pass.new }
    {
        for _ in rt.forever() {
            match self.try_start(rt, pass) {
                Picked::Nothing => self.sleep(rt, pass.number()),
                Picked::Job(running) => return Picked::Job(running),
                Picked::Closing => return Picked::Closing,
            }
        }
        unreachable!()
    }

    /// One turn of a start.
    fn try_start<R: Wait>(&self, rt: &R, pass: &mut Pass) -> Picked<J>
        requires lock { pass.old.lock ≡ self.now.lock }
        requires free { pass.old.holds ≡ false }
        requires worker { IsOfWorker N.numbers pass.old }
        requires idle { StandsAs N.numbers Free pass.old }
        ensures { TriedStart N.numbers pass.old result pass.new }
    {
        let number = pass.number();
        let worker = self.worker(number);
        let mut held = self.take(rt, pass);
        held.value.invariant();
        let picked = held.value.start(worker);
        self.give(pass, held);
        picked
    }

    /// A worker finishes the work that it executed. The finish's entry is the last row of the pass's own. `runner` does not use it: see
    /// [`Hub::call_tsfn`].
    pub fn finish_work<R: Wait>(&self, rt: &R, pass: &mut Pass, ran: Ran)
        requires lock { pass.old.lock ≡ self.now.lock }
        requires free { pass.old.holds ≡ false }
        requires worker { IsOfWorker N.numbers pass.old }
        requires executed { IsAtWork N.numbers pass.old ran.number ran.value }
        ensures { Added N.numbers pass.old pass.new (finish_entry (worker_of N.numbers pass.old.number) ran.value) }
    {
        let worker = self.worker(pass.number());
        let mut held = self.take(rt, pass);
        held.value.invariant();
        held.value.finish(worker, ran);
        self.give(pass, held);
    }
}
