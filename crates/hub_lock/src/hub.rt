//! The hub: its lock, and its bells.
ghost use Rattle.std.specs.Prelude.{◌≡◌, ◌+◌, ◌<◌, ◌≤◌, ◌^◌, [], true, false, length, map, IfOk};
ghost use Rattle.std.specs.List.{All, range_with_len};
ghost use mathlib.Core.List.{IsPrefix};
ghost use Rattle.turn_lock.specs.Rows.{own_rows, GoesOn};
ghost use Rattle.turn_lock.specs.HoldingTurns.{holder, taken_rows, given_back};
ghost use Rattle.turn_lock.specs.Passes.{new_pass};
ghost use Rattle.shared_hub.specs.HubRows.{rows_of};
ghost use Rattle.hub_lock.specs.Working.{worker_of};

mod calls;
mod ends;
mod works;

use crate::bells::{bells_for, ring, sleep_on};
use crate::locked::Locked;
use async_work::Job;
use napi_types::NoMemory;
use shared_hub::{HubState, Naming};
use std::alloc::Global;
use std::marker::Model;
use std::sync::Wait;
use std::sync::atomic::AtomicU64;
use turn_lock::{Held, Pass, Turn};

/// The hub's state under a turn lock, with a bell for each pass.
#[derive(Drop)]
pub struct Hub<J: Job, N: Naming> {
    turn: Turn<Locked<HubState<J, N>>>,
    bells: Vec<AtomicU64>,
    // How many threads there are.
    threads: u32,
}

impl<J: Job, N: Naming> Model for Hub<J, N> {
    ghost use Rattle.turn_lock.specs.Passes.{TurnState};

    ghost Value = { TurnState };

    ghost view = { λ h. h.turn };

    ghost use Rattle.std.specs.Prelude.{◌≡◌};

    ghost invariant = { λ h. h.threads ≡ N.numbers.threads };
}

impl<J: Job, N: Naming> Hub<J, N> {
    /// A hub that opens, and its passes: that of the environment, then those of the threads, and then those of the workers. They are at most 64.
    ///
    /// Where there is no memory it makes none, and the state is dropped.
    pub fn new(
        alloc: Global,
        state: HubState<J, N>,
        actors: u32,
    ) -> Result<(Hub<J, N>, Vec<Pass>), NoMemory>
        requires actors { actors ≡ 1 + N.numbers.threads + N.numbers.workers }
        requires few { actors ≤ 64 }
        requires opens { state.history ≡ [] }
        ensures passes { IfOk result (λ made. made.0.passes ≡ actors) }
        ensures made { IfOk result (λ made. made.1.items ≡ map (new_pass made.0.lock) (range_with_len 0 actors)) }
    {
        let Ok(bells) = bells_for(alloc, actors) else {
            let _history = state.into_history();
            return Err(NoMemory);
        };
        let threads = threads_of(&state, actors);
        let locked = Locked {
            state: Box::new(alloc, state)?,
        };
        let (turn, passes) = Turn::new(alloc, locked, actors)?;
        Ok((
            Hub {
                turn,
                bells,
                threads,
            },
            passes,
        ))
    }

    /// Takes the turn, and the state: see [`Turn::take`].
    pub fn take<R: Wait>(&self, rt: &R, pass: &mut Pass) -> Held<Locked<HubState<J, N>>>
        requires lock { pass.old.lock ≡ self.now.lock }
        requires free { pass.old.holds ≡ false }
        ensures number { pass.new.number ≡ pass.old.number }
        ensures holds { pass.new.holds ≡ true }
        ensures holder { holder result ≡ record pass.old { holds = true } }
        ensures taken { taken_rows result ≡ rows_of N.numbers.threads result.value.state.value.history }
        ensures known { pass.old.own ≡ own_rows pass.old.number pass.old.seen }
        ensures seen { IsPrefix pass.old.seen (rows_of N.numbers.threads result.value.state.value.history) }
        ensures own { pass.old.own ≡ own_rows pass.old.number (rows_of N.numbers.threads result.value.state.value.history) }
    {
        self.turn.take(rt, pass)
    }

    /// Gives the turn back, and the state: see [`Turn::give`]. Then those are rung that the turn gave a reason to wake up.
    ///
    /// Where the hub's last answer said that its caller waits, the pass is noted asleep. Who will not sleep takes that note before: see
    /// [`HubState::take_wait`].
    pub fn give(&self, pass: &mut Pass, mut held: Held<Locked<HubState<J, N>>>)
        requires lock { (holder held).lock ≡ self.now.lock }
        requires number { (holder held).number ≡ pass.old.number }
        requires holds { pass.old.holds ≡ true }
        requires adds { GoesOn (holder held).number (taken_rows held) (rows_of N.numbers.threads held.value.state.value.history) }
        requires short { length (rows_of N.numbers.threads held.value.state.value.history) < 2 ^ 62 }
        ensures pass { pass.new ≡ given_back held (rows_of N.numbers.threads held.value.state.value.history) }
        ensures own { pass.new.own ≡ own_rows pass.new.number (rows_of N.numbers.threads held.value.state.value.history) }
    {
        let rings = held.value.end_turn(pass.number());
        self.turn.give(pass, held);
        ring(&self.bells, rings);
    }

    /// Sleeps until the history is longer than what the pass has seen: see [`Turn::wait_change`].
    pub fn wait_change<R: Wait>(&self, rt: &R, pass: &mut Pass)
        requires lock { pass.old.lock ≡ self.now.lock }
        requires free { pass.old.holds ≡ false }
        ensures { pass.new ≡ pass.old }
    {
        self.turn.wait_change(rt, pass);
    }

    /// Sleeps until the bell of this number rings. Who calls it was told in its last turn that it waits, or noted that it will sleep.
    ///
    /// It may sleep for ever, where nobody gives it a reason to wake up.
    pub fn sleep<R: Wait>(&self, rt: &R, number: u32) {
        sleep_on(rt, &self.bells, number);
    }

    /// The state, where all passes have come back: see [`Turn::close`].
    pub fn close(self, passes: Vec<Pass>) -> Box<HubState<J, N>>
        requires every { map (λ p. p.number) passes.items ≡ range_with_len 0 self.passes }
        requires lock { All (λ p. p.lock ≡ self.lock) passes.items }
        requires free { All (λ p. p.holds ≡ false) passes.items }
        ensures seen { All (λ p. IsPrefix p.seen (rows_of N.numbers.threads result.value.history)) passes.items }
        ensures own { All (λ p. p.own ≡ own_rows p.number (rows_of N.numbers.threads result.value.history)) passes.items }
        ensures below { All (λ r. r.pass < self.passes) (rows_of N.numbers.threads result.value.history) }
    {
        let Hub {
            turn,
            bells: _,
            threads: _,
        } = self;
        let Locked { state } = turn.close(passes);
        state
    }

    /// The worker that has the pass of this number.
    fn worker(&self, number: u32) -> u32
        requires { N.numbers.threads < number }
        ensures { result ≡ worker_of N.numbers number }
    {
        number - (1 + self.threads)
    }
}

/// How many threads a hub has that opens, by the number of its actors.
#[tactic(auto, using(crate::proofs::OpenedLocks::opened_workers))]
fn threads_of<J: Job, N: Naming>(state: &HubState<J, N>, actors: u32) -> u32
    requires actors { actors ≡ 1 + N.numbers.threads + N.numbers.workers }
    requires opens { state.now.history ≡ [] }
    ensures { result ≡ N.numbers.threads }
{
    state.invariant();
    actors - 1 - state.workers()
}
