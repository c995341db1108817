//! The thread-safe functions of a hub.
ghost use Rattle.std.specs.Prelude.{◌≡◌, ◌+◌, ◌-◌, ◌<◌, ◌≤◌, ◌^◌, ◌==◌, ◌||◌, [], ◌∷◌, ◌++◌, true, false, not, cond, length, map, sum_by, slice_index_or, slice_set};
ghost use Rattle.std.specs.Prelude.{None, Some, IfSome, IfNone, IfOk, OnOk, OnErr, option_map};
ghost use Rattle.std.specs.List.{All, list_all};
ghost use Rattle.std.specs.Option.{option_and_then, is_some};
ghost use Rattle.napi_types.specs.hub.HistoryRoom.{function_places};
ghost use Rattle.napi_types.specs.hub.HubMoves.{first_move};
ghost use Rattle.napi_types.specs.parts.Functions.{FunctionState, new_function, accepted_items, call_status, called, acquire_status, acquired, release_status, released, closed, with_referenced, is_done};
ghost use Rattle.tsfn.specs.BusyPlaces.{is_busy_at, IsLowestBusy, NoneIsBusy};
ghost use Rattle.tsfn.specs.FunctionList.{function_numbered, queued_items, status_there, changed_there, tried_there, context_there, functions_after_move};
ghost use Rattle.tsfn.specs.FunctionMoves.{is_busy, move_of};
ghost use Rattle.tsfn.specs.KeptFunctions.{holds_loop, MayRecount, IsRecounted};

use crate::busy::BusyPlaces;
use crate::{Moved, Tried, Tsfn, TsfnNew};
use napi_types::{Actor, Mode, NoMemory, Release, Status, TsfnId};
use std::alloc::Global;
use std::marker::Model;

/// The thread-safe functions of a hub. They are numbered from 1, and none is ever taken out.
#[derive(Drop)]
pub struct Functions {
    // The function of the number n stands at n - 1.
    list: Vec<Tsfn>,
    totals: Totals,
    alloc: Global,
}

impl Model for Functions {
    ghost use Rattle.std.specs.Prelude.{List};
    ghost use Rattle.napi_types.specs.parts.Functions.{FunctionState};
    ghost use Rattle.tsfn.specs.KeptFunctions.{AreTotals};

    ghost Value = { List FunctionState };

    ghost view = { λ functions. functions.list.items };

    ghost invariant = { λ functions. AreTotals functions.list.items functions.totals };
}

/// What is kept beside the functions, so that no call goes over all of them.
#[derive(Drop)]
struct Totals {
    // How many places of the history they owe.
    places: u64,
    // For how many of them the loop waits.
    awaited: u64,
    // Which of them have something to do.
    busy: BusyPlaces,
}

/// What one function adds to what is counted of all.
#[derive(Clone, Copy)]
struct Portion {
    places: u64,
    awaited: u64,
}

impl Functions {
    /// No functions. It takes no memory.
    pub fn new(alloc: Global) -> Functions
        ensures { result ≡ [] }
    {
        Functions {
            list: Vec::new(alloc),
            totals: Totals {
                places: 0,
                awaited: 0,
                busy: BusyPlaces::new(alloc),
            },
            alloc,
        }
    }

    /// How many functions there are. Constant time.
    pub fn len(&self) -> usize
        ensures { result ≡ length self.now }
    {
        self.list.len()
    }

    /// Creates a function, which gets the next number: the manual's `napi_create_threadsafe_function`. At least one thread holds it.
    ///
    /// Near constant time: now and then the lists of functions grow. It takes all memory that the function will want but that of its items.
    /// Where there is none nothing changes.
    pub fn create(&mut self, about: TsfnNew) -> Result<TsfnId, NoMemory>
        requires held { 0 < about.initial }
        requires few { sum_by function_places self.old < 2 ^ 62 }
        ensures number { IfOk result (λ id. id.0 ≡ length self.old + 1) }
        ensures made { OnOk result (self.new ≡ self.old ++
            new_function (length self.old + 1) about.addon about.target about.max about.initial about.finalize about.context ∷ []) }
        ensures err { OnErr result (self.new ≡ self.old) }
    {
        let id = TsfnId(self.list.len() as u64 + 1);
        let function = Tsfn::new(self.alloc, id, about)?;
        self.list.reserve(1)?;
        self.totals.add(&function)?;
        self.list.push_reserved(function);
        Ok(id)
    }

    /// Queues an item of a function behind all others: the manual's `napi_call_threadsafe_function`. Fewer than 2^62 items were accepted before.
    ///
    /// `InvalidArg` where no function has the number; else as [`Tsfn::call`]. Memory is wanted only where the item would be accepted; where there
    /// is none nothing changes, and neither where the call waits.
    ///
    /// In time logarithmic in how many functions have something to do; now and then the queue grows.
    pub fn call(
        &mut self,
        id: TsfnId,
        payload: u64,
        mode: Mode,
        who: Actor,
    ) -> Result<Tried, NoMemory>
        requires few { All (λ f. accepted_items f < 2 ^ 62) self.old }
        requires places { sum_by function_places self.old < 2 ^ 62 }
        ensures answer { IfOk result (λ tried. tried ≡ tried_there who mode (function_numbered id.0 self.old)) }
        ensures called { OnOk result (self.new ≡ changed_there (λ f. called (call_status who mode f) payload) (function_numbered id.0 self.old) self.old) }
        ensures waits { result ≡ Ok Tried.Wait → self.new ≡ self.old }
        ensures memory { OnErr result (option_and_then (call_status who mode) (function_numbered id.0 self.old) ≡ Some Status.Ok) }
        ensures err { OnErr result (self.new ≡ self.old) }
    {
        let Some(place) = self.place_of(id) else {
            return Ok(Tried::Answer(Status::InvalidArg, None));
        };
        let function = &mut self.list[place];
        let before = Portion::of(function);
        let tried = function.call(payload, mode, who)?;
        self.totals.note_call(place, before, function);
        Ok(tried)
    }

    /// One thread more holds a function: the manual's `napi_acquire_threadsafe_function`.
    ///
    /// `InvalidArg` where no function has the number; else as [`Tsfn::acquire`].
    ///
    /// Constant time. It takes no memory.
    pub fn acquire(&mut self, id: TsfnId) -> Status
        ensures status { result ≡ status_there acquire_status (function_numbered id.0 self.old) }
        ensures acquired { self.new ≡ changed_there (λ f. acquired (acquire_status f)) (function_numbered id.0 self.old) self.old }
    {
        let Some(place) = self.place_of(id) else {
            return Status::InvalidArg;
        };
        let function = &mut self.list[place];
        let before = Portion::of(function);
        let status = function.acquire();
        self.totals.note_call(place, before, function);
        status
    }

    /// One thread less holds a function: the manual's `napi_release_threadsafe_function`. An abort closes an open one.
    ///
    /// `InvalidArg` where no function has the number; else as [`Tsfn::release`].
    ///
    /// In time logarithmic in how many functions have something to do. It takes no memory.
    pub fn release(&mut self, id: TsfnId, mode: Release) -> Status
        ensures status { result ≡ status_there release_status (function_numbered id.0 self.old) }
        ensures released { self.new ≡ changed_there (λ f. released (release_status f) mode) (function_numbered id.0 self.old) self.old }
    {
        let Some(place) = self.place_of(id) else {
            return Status::InvalidArg;
        };
        let function = &mut self.list[place];
        let before = Portion::of(function);
        let status = function.release(mode);
        self.totals.note_call(place, before, function);
        status
    }

    /// The loop waits for a function: the manual's `napi_ref_threadsafe_function`. `InvalidArg` where no function has the number.
    ///
    /// Constant time. It takes no memory.
    pub fn refer(&mut self, id: TsfnId) -> Status
        ensures status { result ≡ status_there (λ f. Status.Ok) (function_numbered id.0 self.old) }
        ensures referred { self.new ≡ changed_there (λ f. with_referenced true) (function_numbered id.0 self.old) self.old }
    {
        let Some(place) = self.place_of(id) else {
            return Status::InvalidArg;
        };
        let function = &mut self.list[place];
        let before = Portion::of(function);
        function.refer();
        self.totals.note_call(place, before, function);
        Status::Ok
    }

    /// The loop does not wait for a function: the manual's `napi_unref_threadsafe_function`. `InvalidArg` where no function has the number.
    ///
    /// Constant time. It takes no memory.
    pub fn unrefer(&mut self, id: TsfnId) -> Status
        ensures status { result ≡ status_there (λ f. Status.Ok) (function_numbered id.0 self.old) }
        ensures unreferred { self.new ≡ changed_there (λ f. with_referenced false) (function_numbered id.0 self.old) self.old }
    {
        let Some(place) = self.place_of(id) else {
            return Status::InvalidArg;
        };
        let function = &mut self.list[place];
        let before = Portion::of(function);
        function.unrefer();
        self.totals.note_call(place, before, function);
        Status::Ok
    }

    /// The context of a function: the manual's `napi_get_threadsafe_function_context`. `InvalidArg` where no function has the number.
    ///
    /// Constant time.
    pub fn context(&self, id: TsfnId) -> Result<u64, Status>
        ensures { result ≡ context_there (function_numbered id.0 self.now) }
    {
        match self.place_of(id) {
            Some(place) => Ok(self.list[place].context()),
            None => Err(Status::InvalidArg),
        }
    }

    /// How many items of a function wait. `None` exactly where no function has the number. Constant time.
    pub fn queued(&self, id: TsfnId) -> Option<u64>
        ensures { result ≡ option_map queued_items (function_numbered id.0 self.now) }
    {
        match self.place_of(id) {
            Some(place) => Some(self.list[place].queued()),
            None => None,
        }
    }

    /// The function with the lowest number that has something to do does it, as [`Tsfn::take_move`]. `None` exactly where none has anything to
    /// do, and then nothing changes.
    ///
    /// In time logarithmic in how many functions have something to do. It takes no memory.
    pub fn take_move(&mut self) -> Option<Moved>
        ensures told { option_map move_of result ≡ first_move self.old }
        ensures left { self.new ≡ functions_after_move (first_move self.old) self.old }
    {
        let place = self.first_busy()?;
        let function = &mut self.list[place];
        let before = Portion::of(function);
        let moved = function.take_move();
        self.totals.note_move(place, before, function);
        moved
    }

    /// Whether one of them has something to do. Constant time.
    pub fn has_move(&self) -> bool
        ensures { result ≡ is_some (first_move self.now) }
    {
        self.first_busy().is_some()
    }

    /// Every open function begins to close, as at the drain.
    ///
    /// In time linear in how many functions there are, times the logarithm of that. It takes no memory.
    pub fn close_all_open(&mut self)
        ensures { self.new ≡ map closed self.old }
    {
        for place in 0..self.list.len() {
            self.close(place);
        }
    }

    /// Whether the loop waits for none of them: each is not referenced, or done. Constant time.
    pub fn are_done(&self) -> bool
        ensures { result ≡ list_all (λ f. not f.referenced || is_done f.state) self.now }
    {
        self.totals.awaited == 0
    }

    /// How many places of the history they owe. Constant time.
    pub fn places(&self) -> u64
        ensures { result ≡ sum_by function_places self.now }
    {
        self.totals.places
    }

    /// Where the function with the lowest number that has something to do stands. `None` exactly where none has anything to do.
    fn first_busy(&self) -> Option<usize>
        ensures lowest { IfSome result (λ place. IsLowestBusy (map is_busy self.now) place) }
        ensures none { IfNone result (NoneIsBusy (map is_busy self.now)) }
    {
        self.totals.busy.lowest()
    }

    /// Where the function of a number stands.
    fn place_of(&self, id: TsfnId) -> Option<usize>
        ensures there { IfSome result (λ place. place < length self.now × (place + 1 ≡ id.0)) }
        ensures none { IfNone result (function_numbered id.0 self.now ≡ None) }
    {
        let count = self.list.len();
        let place = id.0.checked_sub(1)? as usize;
        if place < count { Some(place) } else { None }
    }

    /// The function at a place begins to close, where it is open.
    fn close(&mut self, place: usize)
        requires { place < length self.old }
        ensures { (f : FunctionState) → self.new ≡ slice_set self.old place (closed (slice_index_or self.old place f)) }
    {
        let function = &mut self.list[place];
        let before = Portion::of(function);
        function.begin_close();
        self.totals.note_call(place, before, function);
    }
}

impl Totals {
    /// One function more, which was just created. It takes all memory that is wanted for it here.
    fn add(&mut self, function: &Tsfn) -> Result<(), NoMemory>
        requires idle { is_busy function.now ≡ false }
        requires places { self.old.places + function_places function.now < 2 ^ 64 }
        requires awaited { self.old.awaited + 1 < 2 ^ 64 }
        ensures places { OnOk result (self.new.places ≡ self.old.places + function_places function.now) }
        ensures awaited { OnOk result (self.new.awaited ≡ self.old.awaited + cond (holds_loop function.now) 1 0) }
        ensures busy { OnOk result (self.new.busy ≡ self.old.busy ++ is_busy function.now ∷ []) }
        ensures err { OnErr result (self.new ≡ self.old) }
    {
        self.busy.push()?;
        let portion = Portion::of(function);
        self.places += portion.places;
        self.awaited += portion.awaited;
        Ok(())
    }

    /// The function at a place came to this by a call, which takes away nothing that it has to do.
    fn note_call(&mut self, place: usize, before: Portion, function: &Tsfn)
        requires within { place < length self.old.busy }
        requires counted { MayRecount self.old before function.now }
        requires busy { is_busy_at self.old.busy place ≡ true → is_busy function.now ≡ true }
        ensures counted { IsRecounted self.old before function.now self.new }
        ensures busy { self.new.busy ≡ slice_set self.old.busy place (is_busy function.now) }
    {
        self.recount(before, function);
        if function.has_move() {
            self.busy.mark(place);
        }
    }

    /// The first function that had something to do, which stands at this place, came to this as it did it.
    fn note_move(&mut self, place: usize, before: Portion, function: &Tsfn)
        requires lowest { IsLowestBusy self.old.busy place }
        requires counted { MayRecount self.old before function.now }
        ensures counted { IsRecounted self.old before function.now self.new }
        ensures busy { self.new.busy ≡ slice_set self.old.busy place (is_busy function.now) }
    {
        self.recount(before, function);
        if !function.has_move() {
            self.busy.settle(place);
        }
    }

    /// A function that came to this before is counted as what it is now.
    fn recount(&mut self, before: Portion, function: &Tsfn)
        requires { MayRecount self.old before function.now }
        ensures counted { IsRecounted self.old before function.now self.new }
        ensures busy { self.new.busy ≡ self.old.busy }
    {
        let after = Portion::of(function);
        self.places = self.places - before.places + after.places;
        self.awaited = self.awaited - before.awaited + after.awaited;
    }
}

impl Portion {
    /// What a function adds.
    fn of(function: &Tsfn) -> Portion
        ensures places { result.places ≡ function_places function.now }
        ensures awaited { result.awaited ≡ cond (holds_loop function.now) 1 0 }
    {
        Portion {
            places: function.places(),
            awaited: function.holds_loop() as u64,
        }
    }
}
