//! What the teardown sees of an environment's core.
ghost use Rattle.std.specs.Prelude.{◌≡◌, ◌<◌, ℕ, Bool, false, Some};
ghost use Rattle.napi_types.specs.declared.entry.Phase.{Phase};
ghost use Rattle.napi_types.specs.declared.ids.TsfnId.{TsfnId};
ghost use Rattle.napi_types.specs.plain.Phases.{next_phase};

use napi_types::{Phase, TsfnId};

/// The core of an environment, as the steps of the teardown see it: its phase, whether a ticket is next, how many asynchronous hooks
/// wait, and the four calls by which an event of the hub reaches it. So those steps stand on no core of their own.
///
/// Each call that changes the core hands on a relation of the core's: between the core before, the arguments and the core
/// after. A position is the length of the history just after the entry of the event. No call takes memory.
pub trait Phased {
    /// How far the environment has come.
    ghost phase: { Self → Phase };

    /// Whether a ticket's frame would begin next, where none stands.
    ghost has_local: { Self → Bool };

    /// Whether a frame stands.
    ghost stands: { Self → Bool };

    /// How many asynchronous hooks wait: they have begun, and were neither removed nor abandoned.
    ghost waiting: { Self → ℕ };

    /// What a move to this phase, at this position, does.
    ghost advances: { Self → Phase → ℕ → Self → Type 0 };

    /// What the end of this thread-safe function, at this position, does.
    ghost finishes: { Self → TsfnId → ℕ → Self → Type 0 };

    /// What the close of a thread-safe function, at this position, does.
    ghost moves: { Self → ℕ → Self → Type 0 };

    /// What the abandoning of the hooks that wait, at this position, does.
    ghost abandons: { Self → ℕ → Self → Type 0 };

    /// How far the environment has come.
    fn phase(&self) -> Phase
        ensures { result ≡ phase self.now };

    /// Whether a ticket's frame would begin next, where none stands; in the loop whether or not exit was asked.
    fn has_local(&self) -> bool
        ensures { result ≡ has_local self.now };

    /// How many asynchronous hooks wait: they have begun, and were neither removed nor abandoned.
    fn waiting(&self) -> u64
        ensures { result ≡ waiting self.now };

    /// Moves to the next phase, where no frame stands. For `Gone` the position is left unused.
    fn advance(&mut self, to: Phase, position: u64)
        requires alone { stands self.old ≡ false }
        requires next { next_phase (phase self.old) ≡ Some to }
        ensures advanced { advances self.old to position self.new }
        ensures phase { phase self.new ≡ to }
        ensures alone { stands self.new ≡ false };

    /// Takes in that a thread-safe function has finished.
    fn function_finished(&mut self, id: TsfnId, position: u64)
        ensures finished { finishes self.old id position self.new }
        ensures phase { phase self.new ≡ phase self.old }
        ensures local { has_local self.new ≡ has_local self.old }
        ensures stands { stands self.new ≡ stands self.old };

    /// Takes in that a thread-safe function was closed.
    fn moved(&mut self, position: u64)
        ensures moved { moves self.old position self.new }
        ensures phase { phase self.new ≡ phase self.old }
        ensures local { has_local self.new ≡ has_local self.old }
        ensures stands { stands self.new ≡ stands self.old };

    /// Takes in that the asynchronous hooks that wait are abandoned, in the phase Hooks, where at least one waits.
    fn abandoned(&mut self, position: u64)
        requires hooks { phase self.old ≡ Phase.Hooks }
        requires waiting { 0 < waiting self.old }
        ensures abandoned { abandons self.old position self.new }
        ensures phase { phase self.new ≡ phase self.old }
        ensures local { has_local self.new ≡ has_local self.old }
        ensures stands { stands self.new ≡ stands self.old };
}
