//! The places of what comes of all actors.
ghost use Rattle.std.specs.Prelude.{◌≡◌, [], vec_capacity};

use crate::start::Child;
use crate::strays::Stray;
use async_work::Job;
use shared_hub::Naming;
use turn_lock::Pass;

/// Places of what becomes of the starts, of those that have no thread of their own, and of the passes that come back. All are empty.
pub(crate) struct StartRoom<J: Job, N: Naming> {
    pub(crate) children: Vec<Child<J, N>>,
    pub(crate) strays: Vec<Stray<J>>,
    pub(crate) passes: Vec<Pass>,
    ghost no_children: { children.items ≡ [] },
    ghost no_strays: { strays.items ≡ [] },
    ghost no_passes: { passes.items ≡ [] },
}

impl<J: Job, N: Naming> StartRoom<J, N> {
    /// The three lists, which are empty.
    pub(crate) fn into_lists(self) -> (Vec<Child<J, N>>, Vec<Stray<J>>, Vec<Pass>)
        ensures children { result.0 ≡ self.children }
        ensures strays { result.1 ≡ self.strays }
        ensures passes { result.2 ≡ self.passes }
    {
        let StartRoom {
            children,
            strays,
            passes,
        } = self;
        (children, strays, passes)
    }
}

impl<J: Job, N: Naming> Drop for StartRoom<J, N> {
    fn drop(self) {
        let StartRoom {
            children: _,
            strays,
            passes: _,
        } = self;
        strays.destroy_empty();
    }
}
