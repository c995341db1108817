//! The interface that an addon gives to the environment, and calls of one addon of a list of addons.
//! Contracts see of an addon its `plan`, which may be untold, its `regs`, 32 numbers, and what it has `seen`, a list of
//! duties; of a list they see the list of each. Every crate that runs frames stands on this one.
#![tactic(auto)]

mod list;
mod phased;

ghost use Rattle.std.specs.Prelude.{◌≡◌, ℕ, List, [], ◌∷◌, ◌++◌, Option, None, IfSome, option_map};
ghost use Rattle.napi_types.specs.declared.duties.DueInfo.{DueInfo};
ghost use Rattle.napi_types.specs.declared.op.Op.{Op};
ghost use Rattle.napi_types.specs.scripts.Registers.{plan_ask, registers_after_reply, blank_registers, with_gifts};

pub use list::{ask_at, begin_at, enter_at, load_at, note_at};
use napi_types::{AddonPlan, Ask, Begun, Due, Reply};
pub use phased::Phased;

/// A native addon, as the environment runs it.
///
/// A frame of an addon runs one of its entries. It asks the addon for one step after another and tells it each reply,
/// until the addon leaves. An addon that tells its plan asks exactly what the plan says.
///
/// No call takes memory, and none changes whether the plan is told. What an addon has seen only grows, by `begin` alone.
pub trait Addon: Drop {
    /// The operations of each entry, `None` where the addon doesn't tell them.
    ghost plan: { Self → Option (List (List Op)) };

    /// The addon's registers. Their first one is register 0.
    ghost regs: { Self → List ℕ };

    /// The duties whose frames of this addon have begun, in their order, each with what it told.
    ghost seen: { Self → List DueInfo };

    /// Gives the addon the plan that its script has for it, and clears its registers.
    ///
    /// An addon that doesn't tell its plan may do otherwise than the plan says.
    fn load(&mut self, given: AddonPlan)
        ensures plan { plan self.new ≡ option_map (λ _. given.entries) (plan self.old) }
        ensures regs { regs self.new ≡ blank_registers }
        ensures seen { seen self.new ≡ seen self.old };

    /// Tells the addon that a frame of this entry begins, with the numbers that go to registers 24 to 31.
    fn enter(&mut self, entry: u32, gifts: &[u64; 8])
        ensures plan { plan self.new ≡ plan self.old }
        ensures regs { regs self.new ≡ with_gifts gifts.now (regs self.old) }
        ensures seen { seen self.new ≡ seen self.old };

    /// Tells the addon that a frame of a duty begins. What the duty tells is appended to what the addon has seen, and its
    /// gifts go to registers 24 to 31.
    ///
    /// The addon has to begin the duty, by [`Due::begin`], and takes no memory for it.
    fn begin(&mut self, due: Due) -> Begun
        ensures plan { plan self.new ≡ plan self.old }
        ensures begun { result ≡ due }
        ensures regs { regs self.new ≡ with_gifts due.gifts (regs self.old) }
        ensures seen { seen self.new ≡ seen self.old ++ due ∷ [] };

    /// What the frame of this entry does at this step, counted from 0: a call, or to leave.
    ///
    /// Where the plan is told, and has no such entry or no such step, it is to leave without a handle.
    fn ask(&mut self, entry: u32, step: u32) -> Ask
        ensures plan { plan self.new ≡ plan self.old }
        ensures regs { regs self.new ≡ regs self.old }
        ensures seen { seen self.new ≡ seen self.old }
        ensures asked { IfSome (plan self.old) (λ p. result ≡ plan_ask p (regs self.old) entry step) };

    /// Tells the addon the reply to the call that the frame of this entry made at this step.
    ///
    /// Where the plan is told, the result of an accepted call goes to the register that its operation names for it,
    /// and no other register changes.
    fn note(&mut self, entry: u32, step: u32, reply: &Reply)
        ensures plan { plan self.new ≡ plan self.old }
        ensures kept { IfSome (plan self.old)
            (λ p. regs self.new ≡ registers_after_reply p (regs self.old) entry step reply.now) }
        ensures seen { seen self.new ≡ seen self.old };
}
