//! Which places of a list are busy.
ghost use Rattle.std.specs.Prelude.{◌≡◌, ◌<◌, ◌++◌, ◌∷◌, [], true, false, length, slice_set, IfSome, IfNone, OnOk, OnErr};
ghost use Rattle.tsfn.specs.BusyPlaces.{IsLowestBusy, NoneIsBusy};

use napi_types::NoMemory;
use std::alloc::Global;
use std::cmp::Reverse;
use std::collections::BinaryHeap;
use std::marker::Model;

/// Which places of a list are busy. The lowest of them is found in constant time, and a place gets busy without memory.
#[derive(Drop)]
pub(crate) struct BusyPlaces {
    busy: Vec<bool>,
    // The places that are, the lowest at the top. There is room for all.
    heap: BinaryHeap<Reverse<usize>>,
}

impl Model for BusyPlaces {
    ghost use Rattle.std.specs.Prelude.{List, Bool};
    ghost use Rattle.std.specs.BinaryHeap.{heap_items, heap_len, heap_capacity};
    ghost use Rattle.tsfn.specs.BusyPlaces.{IsInHeap};

    ghost Value = { List Bool };

    ghost view = { λ b. b.busy.items };

    ghost invariant = { λ b. IsInHeap b.busy.items (heap_items b.heap) (heap_len b.heap) (heap_capacity b.heap) };
}

impl BusyPlaces {
    /// There are no places.
    pub(crate) fn new(alloc: Global) -> BusyPlaces
        ensures { result ≡ [] }
    {
        BusyPlaces {
            busy: Vec::new(alloc),
            heap: BinaryHeap::new(alloc),
        }
    }

    /// One place more, which is not busy.
    ///
    /// Near constant time: now and then the lists grow. It takes all memory that the place will want.
    pub(crate) fn push(&mut self) -> Result<(), NoMemory>
        ensures ok { OnOk result (self.new ≡ self.old ++ false ∷ []) }
        ensures err { OnErr result (self.new ≡ self.old) }
    {
        let places = self.busy.len() + 1 - self.heap.len();
        self.heap.reserve(places)?;
        self.busy.push(false)?;
        Ok(())
    }

    /// A place is busy from now on.
    ///
    /// In time logarithmic in how many are. It takes no memory.
    pub(crate) fn mark(&mut self, place: usize)
        requires { place < length self.old }
        ensures { self.new ≡ slice_set self.old place true }
    {
        if self.busy[place] {
            return;
        }
        self.busy[place] = true;
        let Ok(()) = self.heap.push(Reverse(place)) else {
            unreachable!()
        };
    }

    /// The lowest place that is busy. `None` exactly where none is. Constant time.
    pub(crate) fn lowest(&self) -> Option<usize>
        ensures lowest { IfSome result (λ place. IsLowestBusy self.now place) }
        ensures none { IfNone result (NoneIsBusy self.now) }
    {
        let top = self.heap.peek()?;
        Some(top.0)
    }

    /// The lowest place that is busy is so no more.
    ///
    /// In time logarithmic in how many are. It takes no memory.
    pub(crate) fn settle(&mut self, place: usize)
        requires { IsLowestBusy self.old place }
        ensures { self.new ≡ slice_set self.old place false }
    {
        let Some(_) = self.heap.pop() else {
            unreachable!()
        };
        self.busy[place] = false;
    }
}
