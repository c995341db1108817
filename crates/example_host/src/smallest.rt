//! The smallest addon. It tells no plan, and no method has a clause of its own.
ghost use Rattle.std.specs.Prelude.{None};
ghost use Rattle.napi_types.specs.scripts.Registers.{blank_registers, with_gifts};

use addon_trait::Addon;
use napi_types::{AddonPlan, Ask, Begun, Call, Due, Reply, SeenList};

/// Makes an object in its entry 0, and leaves.
#[derive(Drop)]
pub struct SmallestAddon {
    /// What the last frame was given that a call entered or a duty began.
    gifts: [u64; 8],
    /// The duties that began.
    seen: SeenList,
}

impl SmallestAddon {
    /// An addon that has seen nothing. It takes no memory.
    pub fn new() -> SmallestAddon {
        SmallestAddon {
            gifts: [0; 8],
            seen: SeenList::new(),
        }
    }
}

impl Addon for SmallestAddon {
    ghost plan = { λ _. None };

    ghost regs = { λ addon. with_gifts addon.gifts blank_registers };

    ghost seen = { λ addon. addon.seen };

    fn load(&mut self, _given: AddonPlan) {
        self.gifts = [0; 8];
    }

    fn enter(&mut self, _entry: u32, gifts: &[u64; 8]) {
        self.gifts = *gifts;
    }

    fn begin(&mut self, due: Due) -> Begun {
        self.gifts = due.info().gifts;
        due.begin(&mut self.seen)
    }

    fn ask(&mut self, _entry: u32, step: u32) -> Ask {
        match step {
            0 => Ask::Do(Call::CreateObject),
            _ => Ask::Leave(None),
        }
    }

    fn note(&mut self, _entry: u32, _step: u32, _reply: &Reply) {}
}
