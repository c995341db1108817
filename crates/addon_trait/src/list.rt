//! Calls of one addon of a list. Contracts see the list as the list of its addons' plans, the list of their registers and
//! the list of what each has seen. An addon is named by its place in the list, from 0.
ghost use Rattle.std.specs.Prelude.{◌≡◌, ◌<◌, [], ◌∷◌, ◌++◌, IfSome, length, map, set, option_map};
ghost use Rattle.napi_types.specs.scripts.Plans.{plan_of, registers_of};
ghost use Rattle.napi_types.specs.scripts.Registers.{plan_ask, registers_after_reply, blank_registers, with_gifts};
ghost use Rattle.addon_trait.specs.Addons.{loaded_at, OthersStay, seen_of, TellSamePlans};

use crate::Addon;
use napi_types::{AddonPlan, Ask, Begun, Due, Reply};

/// Gives an addon its plan, and clears its registers.
fn load(addon: &mut Box<dyn Addon>, given: AddonPlan)
    ensures plan { plan addon.new ≡ option_map (λ _. given.entries) (plan addon.old) }
    ensures regs { regs addon.new ≡ blank_registers }
    ensures seen { seen addon.new ≡ seen addon.old }
{
    addon.load(given);
}

/// Tells an addon that a frame begins.
fn enter(addon: &mut Box<dyn Addon>, entry: u32, gifts: &[u64; 8])
    ensures plan { plan addon.new ≡ plan addon.old }
    ensures regs { regs addon.new ≡ with_gifts gifts.now (regs addon.old) }
    ensures seen { seen addon.new ≡ seen addon.old }
{
    addon.enter(entry, gifts);
}

/// Tells an addon that a frame of a duty begins.
fn begin(addon: &mut Box<dyn Addon>, due: Due) -> Begun
    ensures plan { plan addon.new ≡ plan addon.old }
    ensures begun { result ≡ due }
    ensures regs { regs addon.new ≡ with_gifts due.gifts (regs addon.old) }
    ensures seen { seen addon.new ≡ seen addon.old ++ due ∷ [] }
{
    addon.begin(due)
}

/// What an addon's frame does next.
fn ask(addon: &mut Box<dyn Addon>, entry: u32, step: u32) -> Ask
    ensures plan { plan addon.new ≡ plan addon.old }
    ensures regs { regs addon.new ≡ regs addon.old }
    ensures seen { seen addon.new ≡ seen addon.old }
    ensures asked { IfSome (plan addon.old) (λ p. result ≡ plan_ask p (regs addon.old) entry step) }
{
    addon.ask(entry, step)
}

/// Tells an addon the reply to its call.
fn note(addon: &mut Box<dyn Addon>, entry: u32, step: u32, reply: &Reply)
    ensures plan { plan addon.new ≡ plan addon.old }
    ensures kept { IfSome (plan addon.old)
        (λ p. regs addon.new ≡ registers_after_reply p (regs addon.old) entry step reply.now) }
    ensures seen { seen addon.new ≡ seen addon.old }
{
    addon.note(entry, step, reply);
}

/// Gives the addon of this number its plan, and clears its registers. The other addons stay as they are, and none has seen
/// anything more.
pub fn load_at(addons: &mut Vec<Box<dyn Addon>>, which: usize, given: AddonPlan)
    requires { which < length addons.old.items }
    ensures count { length addons.new.items ≡ length addons.old.items }
    ensures plans { let plans = map (λ b. plan b) addons.old.items in
        map (λ b. plan b) addons.new.items ≡ loaded_at plans which given.entries }
    ensures regs { let registers = map (λ b. regs b) addons.old.items in
        map (λ b. regs b) addons.new.items ≡ set registers which blank_registers }
    ensures seen { map (λ b. seen b) addons.new.items ≡ map (λ b. seen b) addons.old.items }
{
    load(&mut addons[which], given);
}

/// Tells the addon of this number that a frame of this entry begins, with the numbers that go to registers 24 to 31.
/// The other addons stay as they are, and none has seen anything more.
pub fn enter_at(addons: &mut Vec<Box<dyn Addon>>, which: usize, entry: u32, gifts: &[u64; 8])
    requires { which < length addons.old.items }
    ensures plans { TellSamePlans (λ b. plan b) addons.old.items addons.new.items }
    ensures regs { let registers = map (λ b. regs b) addons.old.items in
        map (λ b. regs b) addons.new.items
        ≡ set registers which (with_gifts gifts.now (registers_of registers which)) }
    ensures seen { map (λ b. seen b) addons.new.items ≡ map (λ b. seen b) addons.old.items }
{
    enter(&mut addons[which], entry, gifts);
}

/// Tells the addon of this number that a frame of a duty begins. What the duty tells is appended to what that addon has seen,
/// and its gifts go to registers 24 to 31. The other addons stay as they are.
pub fn begin_at(addons: &mut Vec<Box<dyn Addon>>, which: usize, due: Due) -> Begun
    requires { which < length addons.old.items }
    ensures plans { TellSamePlans (λ b. plan b) addons.old.items addons.new.items }
    ensures begun { result ≡ due }
    ensures regs { let registers = map (λ b. regs b) addons.old.items in
        map (λ b. regs b) addons.new.items
        ≡ set registers which (with_gifts due.gifts (registers_of registers which)) }
    ensures seen { let before = map (λ b. seen b) addons.old.items in
        map (λ b. seen b) addons.new.items ≡ set before which (seen_of before which ++ due ∷ []) }
{
    begin(&mut addons[which], due)
}

/// What the frame of this entry, of the addon of this number, does at this step. Every addon keeps its registers, and none has
/// seen anything more.
pub fn ask_at(addons: &mut Vec<Box<dyn Addon>>, which: usize, entry: u32, step: u32) -> Ask
    requires { which < length addons.old.items }
    ensures plans { TellSamePlans (λ b. plan b) addons.old.items addons.new.items }
    ensures regs { map (λ b. regs b) addons.new.items ≡ map (λ b. regs b) addons.old.items }
    ensures seen { map (λ b. seen b) addons.new.items ≡ map (λ b. seen b) addons.old.items }
    ensures asked { let registers = registers_of (map (λ b. regs b) addons.old.items) which in
        IfSome (plan_of (map (λ b. plan b) addons.old.items) which)
        (λ p. result ≡ plan_ask p registers entry step) }
{
    ask(&mut addons[which], entry, step)
}

/// Tells the addon of this number the reply to the call that its frame of this entry made at this step.
/// The other addons stay as they are, and none has seen anything more.
pub fn note_at(addons: &mut Vec<Box<dyn Addon>>, which: usize, entry: u32, step: u32, reply: &Reply)
    requires { which < length addons.old.items }
    ensures plans { TellSamePlans (λ b. plan b) addons.old.items addons.new.items }
    ensures others { let before = map (λ b. regs b) addons.old.items in
        OthersStay before (map (λ b. regs b) addons.new.items) which }
    ensures kept { let before = registers_of (map (λ b. regs b) addons.old.items) which in
        let after = registers_of (map (λ b. regs b) addons.new.items) which in
        IfSome (plan_of (map (λ b. plan b) addons.old.items) which)
        (λ p. after ≡ registers_after_reply p before entry step reply.now) }
    ensures seen { map (λ b. seen b) addons.new.items ≡ map (λ b. seen b) addons.old.items }
{
    note(&mut addons[which], entry, step, reply);
}
