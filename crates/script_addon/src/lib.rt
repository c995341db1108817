//! The addon that follows its script: it tells its plan, and asks what the plan says. And the jobs of its works: they compute what a
//! script says. Contracts see an addon by `plan`, `regs` and `seen` of the trait `Addon`, and a job by `spec` of the trait `Job`. The
//! program hands such addons to the top calls.
#![tactic(auto)]

mod job;

ghost use Rattle.std.specs.Prelude.{◌≡◌, [], Some, option_map, set};
ghost use Rattle.napi_types.specs.scripts.Registers.{operation, blank_registers};

use addon_trait::Addon;
pub use job::ScriptJob;
use napi_types::{AddonPlan, Ask, Begun, Due, Listed, Op, Reply, SeenList, Status};
use std::alloc::Global;

/// An addon that keeps the plan of a script, 32 registers and what it has seen.
#[derive(Drop)]
pub struct ScriptAddon {
    plan: AddonPlan,
    registers: [u64; 32],
    seen: SeenList,
}

impl ScriptAddon {
    /// An addon with no entries, whose registers are 0 and which has seen nothing. It takes no memory.
    pub fn blank(alloc: Global) -> ScriptAddon
        ensures plan { ⟦<ScriptAddon as Addon>⟧.plan result ≡ Some [] }
        ensures regs { ⟦<ScriptAddon as Addon>⟧.regs result ≡ blank_registers }
        ensures seen { ⟦<ScriptAddon as Addon>⟧.seen result ≡ [] }
    {
        ScriptAddon {
            plan: AddonPlan {
                entries: Listed::of(Vec::new(alloc)),
            },
            registers: [0; 32],
            seen: SeenList::new(),
        }
    }

    /// The plan's operation of an entry at a step, `None` exactly where the plan has no such entry or step.
    fn operation(&self, entry: u32, step: u32) -> Option<&Op>
        ensures { option_map (λ found. found.now) result ≡ operation self.now.plan.entries entry step }
    {
        let operations = self.plan.entries.items().get(entry as usize)?;
        operations.items().get(step as usize)
    }
}

/// Keeps a number in a register. Where there is no such register it changes nothing.
#[tactic(auto, using(std::proofs::lemmas::List::set_past))]
fn keep(registers: &mut [u64; 32], register: u8, number: u64)
    ensures { registers.new ≡ set registers.old register number }
{
    let place = register as usize;
    if place < registers.len() {
        registers[place] = number;
    }
}

impl Addon for ScriptAddon {
    ghost plan = { λ addon. Some addon.plan.entries };

    ghost regs = { λ addon. addon.registers };

    ghost seen = { λ addon. addon.seen };

    fn load(&mut self, given: AddonPlan) {
        self.plan = given;
        self.registers = [0; 32];
    }

    fn enter(&mut self, _entry: u32, gifts: &[u64; 8]) {
        self.registers[24..].copy_from_slice(gifts);
    }

    fn begin(&mut self, due: Due) -> Begun {
        let info = *due.info();
        self.enter(info.entry, &info.gifts);
        due.begin(&mut self.seen)
    }

    fn ask(&mut self, entry: u32, step: u32) -> Ask {
        match self.operation(entry, step) {
            Some(operation) => operation.fill(&self.registers),
            None => Ask::Leave(None),
        }
    }

    fn note(&mut self, entry: u32, step: u32, reply: &Reply) {
        let Status::Ok = reply.status else {
            return;
        };
        let Some(operation) = self.operation(entry, step) else {
            return;
        };
        let Some((register, second)) = operation.result_registers() else {
            return;
        };
        let Some((number, other)) = reply.out.register_values() else {
            return;
        };
        keep(&mut self.registers, register, number);
        if let (Some(register), Some(number)) = (second, other) {
            keep(&mut self.registers, register, number);
        }
    }
}
