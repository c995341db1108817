//! One thread-safe function.
ghost use Rattle.std.specs.Prelude.{◌≡◌, ◌+◌, ◌<◌, ◌^◌, [], true, false, length, Some, IfOk, OnOk, OnErr, option_map};
ghost use Rattle.std.specs.Option.{is_some};
ghost use Rattle.napi_types.specs.hub.HistoryRoom.{function_places};
ghost use Rattle.napi_types.specs.hub.HubMoves.{tsfn_move};
ghost use Rattle.napi_types.specs.plain.Lists.{head};
ghost use Rattle.napi_types.specs.parts.Functions.{new_function, is_full_queue, accepted_items, call_status, called, acquire_status, acquired, release_status, released, closed, with_referenced, item_info, torn_info, first_taken, finished, function_info, done};
ghost use Rattle.tsfn.specs.FunctionMoves.{move_of, moved_by, is_busy};
ghost use Rattle.tsfn.specs.KeptFunctions.{holds_loop};
ghost use Rattle.tsfn.specs.Trials.{tried_of};

use napi_types::{
    Actor, Cause, Due, DueInfo, Duty, Mode, NoMemory, Release, Slip, Status, Target, TsfnId,
    TsfnState,
};
use std::alloc::Global;
use std::collections::VecDeque;
use std::marker::Model;

/// What a function is created with: the arguments of the manual's `napi_create_threadsafe_function`.
#[derive(Clone, Copy)]
pub struct TsfnNew {
    /// The addon that creates it, counted from 0.
    pub addon: u32,
    /// Where its items are delivered.
    pub target: Target,
    /// How many items may wait, 0 for any number: the manual's `max_queue_size`.
    pub max: u32,
    /// How many threads hold it at first, above 0: the manual's `initial_thread_count`.
    pub initial: u32,
    /// The entry of its finalizer in the creating addon, where it has one.
    pub finalize: Option<u32>,
    pub context: u64,
}

/// What a function did of its own. A duty that begins has to be spent.
pub enum Moved {
    /// The frame of a duty begins: of an item, or of its finalizer.
    Delivers(Due),
    /// It began to close, since no thread holds it and no item waits.
    Closes(TsfnId),
    /// It finished: it is done, or waits for its finalizer where it has one.
    Finishes(TsfnId),
}

/// What a call of a function comes out as.
#[derive(Clone, Copy, Debug, PartialEq, Eq)]
pub enum Tried {
    /// The status, and the number of the item where it was accepted.
    Answer(Status, Option<u64>),
    /// The queue is full, and the thread that calls has to wait.
    Wait,
}

// An item that waits, with the memory for the line that it will be in a list of what was seen.
#[derive(Drop)]
struct Item {
    payload: u64,
    slip: Slip,
}

/// A thread-safe function: the manual's `napi_threadsafe_function`.
#[derive(Drop)]
pub struct Tsfn {
    id: TsfnId,
    about: TsfnNew,
    // Those that wait, the first to be delivered first.
    items: VecDeque<Item>,
    // How many items were taken out.
    taken: u64,
    count: u32,
    state: TsfnState,
    is_referenced: bool,
    // The finalizer's, until it begins.
    slip: Option<Slip>,
    alloc: Global,
}

impl Model for Tsfn {
    ghost use Rattle.napi_types.specs.parts.Functions.{FunctionState};

    ghost Value = { FunctionState };

    ghost use Rattle.tsfn.specs.KeptFunction.{function_of, IsKept};

    ghost view = { function_of };

    ghost invariant = { λ t. IsKept (function_of t) t.slip };
}

impl Tsfn {
    /// A function that is open, referenced and without items. At least one thread holds it.
    ///
    /// Constant time. It takes memory for its finalizer alone, where it has one.
    pub fn new(alloc: Global, id: TsfnId, about: TsfnNew) -> Result<Tsfn, NoMemory>
        requires { 0 < about.initial }
        ensures made { IfOk result (λ made. made ≡ new_function id.0 about.addon about.target about.max about.initial about.finalize about.context) }
        ensures memory { OnErr result (is_some about.finalize ≡ true) }
    {
        let slip = match about.finalize {
            Some(_) => Some(Slip::new(alloc)?),
            None => None,
        };
        Ok(Tsfn {
            id,
            about,
            items: VecDeque::new(alloc),
            taken: 0,
            count: about.initial,
            state: TsfnState::Open,
            is_referenced: true,
            slip,
            alloc,
        })
    }

    /// Queues an item behind all others: the manual's `napi_call_threadsafe_function`. Fewer than 2^62 items were accepted before.
    ///
    /// `InvalidArg` where no thread holds it. `Closing` where it is not open, and then one thread less holds it. Where the queue is
    /// full: `QueueFull` for a call that does not block, `WouldDeadlock` for one of the environment that does, and any other waits.
    /// Memory is wanted only where the item would be accepted; where there is none nothing changes, and neither where it waits.
    ///
    /// Near constant time: now and then the queue grows.
    pub fn call(&mut self, payload: u64, mode: Mode, who: Actor) -> Result<Tried, NoMemory>
        requires few { accepted_items self.old < 2 ^ 62 }
        ensures answer { IfOk result (λ tried. tried ≡ tried_of (call_status who mode self.old) (accepted_items self.old + 1)) }
        ensures called { OnOk result (self.new ≡ called (call_status who mode self.old) payload self.old) }
        ensures memory { OnErr result (call_status who mode self.old ≡ Some Status.Ok) }
        ensures err { OnErr result (self.new ≡ self.old) }
    {
        if self.count == 0 {
            return Ok(Tried::Answer(Status::InvalidArg, None));
        }
        if self.state != TsfnState::Open {
            self.count -= 1;
            return Ok(Tried::Answer(Status::Closing, None));
        }
        if self.is_full() {
            return Ok(match (mode, who) {
                (Mode::Nonblocking, _) => Tried::Answer(Status::QueueFull, None),
                (Mode::Blocking, Actor::Env) => Tried::Answer(Status::WouldDeadlock, None),
                (Mode::Blocking, _) => Tried::Wait,
            });
        }
        let slip = Slip::new(self.alloc)?;
        self.items.push_back(Item { payload, slip })?;
        let number = self.taken + self.items.len() as u64;
        Ok(Tried::Answer(Status::Ok, Some(number)))
    }

    /// One thread more holds it: the manual's `napi_acquire_threadsafe_function`.
    ///
    /// `Closing` where it is not open, `InvalidArg` where no thread holds it, `GenericFailure` where 4,294,967,295 do.
    ///
    /// Constant time. It takes no memory.
    pub fn acquire(&mut self) -> Status
        ensures status { result ≡ acquire_status self.old }
        ensures acquired { self.new ≡ acquired (acquire_status self.old) self.old }
    {
        if self.state != TsfnState::Open {
            return Status::Closing;
        }
        if self.count == 0 {
            return Status::InvalidArg;
        }
        match self.count.checked_add(1) {
            Some(count) => {
                self.count = count;
                Status::Ok
            }
            None => Status::GenericFailure,
        }
    }

    /// One thread less holds it: the manual's `napi_release_threadsafe_function`. An abort closes an open one.
    ///
    /// `InvalidArg` where no thread holds it.
    ///
    /// Constant time. It takes no memory.
    pub fn release(&mut self, mode: Release) -> Status
        ensures status { result ≡ release_status self.old }
        ensures released { self.new ≡ released (release_status self.old) mode self.old }
    {
        if self.count == 0 {
            return Status::InvalidArg;
        }
        self.count -= 1;
        if mode == Release::Abort && self.state == TsfnState::Open {
            self.begin_close();
        }
        Status::Ok
    }

    /// The loop waits for it: the manual's `napi_ref_threadsafe_function`. Constant time, and no memory.
    pub fn refer(&mut self)
        ensures { self.new ≡ with_referenced true self.old }
    {
        self.is_referenced = true;
    }

    /// The loop does not wait for it: the manual's `napi_unref_threadsafe_function`. Constant time, and no memory.
    pub fn unrefer(&mut self)
        ensures { self.new ≡ with_referenced false self.old }
    {
        self.is_referenced = false;
    }

    /// Takes out the first item of an open function, to be delivered. `None` exactly where none waits.
    ///
    /// Constant time. It takes no memory.
    pub fn pop(&mut self) -> Option<Due>
        requires { self.old.state ≡ TsfnState.Open }
        ensures told { result ≡ option_map (item_info self.old) (head self.old.items) }
        ensures taken { self.new ≡ first_taken self.old }
    {
        let (info, slip) = self.take_first()?;
        Some(slip.arm(info))
    }

    /// Takes out the first item of a closing function, to be delivered torn. `None` exactly where none waits.
    ///
    /// Constant time. It takes no memory.
    pub fn pop_torn(&mut self) -> Option<Due>
        requires { self.old.state ≡ TsfnState.Closing }
        ensures told { result ≡ option_map (torn_info self.old) (head self.old.items) }
        ensures taken { self.new ≡ first_taken self.old }
    {
        let (mut info, slip) = self.take_first()?;
        info.cause = Cause::Torn;
        // The environment is not there for it any more.
        info.gifts[1] = 0;
        info.runs = self.about.target.torn_runs;
        Some(slip.arm(info))
    }

    /// An open function begins to close. In any other state nothing changes. Constant time, and no memory.
    pub fn begin_close(&mut self)
        ensures { self.new ≡ closed self.old }
    {
        if self.state == TsfnState::Open {
            self.state = TsfnState::Closing;
        }
    }

    /// A closing function that has no items is finished where it has a finalizer, and done where it has none. Constant time, and
    /// no memory.
    pub fn finish(&mut self)
        requires closing { self.old.state ≡ TsfnState.Closing }
        requires empty { self.old.items ≡ [] }
        ensures { self.new ≡ finished self.old }
    {
        self.state = match self.about.finalize {
            Some(_) => TsfnState::Finished,
            None => TsfnState::Done,
        };
    }

    /// The finalizer of a finished function, which is done then.
    ///
    /// Constant time. It takes no memory.
    pub fn take_final(&mut self) -> Due
        requires { self.old.state ≡ TsfnState.Finished }
        ensures told { result ≡ function_info self.old }
        ensures done { self.new ≡ done self.old }
    {
        let (Some(entry), Some(slip)) = (self.about.finalize, self.slip.take()) else {
            unreachable!()
        };
        self.state = TsfnState::Done;
        slip.arm(DueInfo {
            duty: Duty::Function(self.id),
            cause: Cause::Finalize,
            addon: self.about.addon,
            entry,
            status: Status::Ok,
            gifts: [self.about.context, 0, 0, 0, 0, 0, 0, 0],
            runs: true,
        })
    }

    /// It does what it has to do next. While it is open its first item is delivered; where none waits it begins to close once nobody holds
    /// it. While it is closing the items that wait are torn; where none is left it finishes. Once it is finished its finalizer begins.
    /// `None` exactly where it has nothing to do, and then nothing changes.
    ///
    /// Constant time. It takes no memory.
    pub fn take_move(&mut self) -> Option<Moved>
        ensures told { option_map move_of result ≡ tsfn_move self.old }
        ensures left { self.new ≡ moved_by (tsfn_move self.old) self.old }
    {
        match self.state {
            TsfnState::Open => self.move_open(),
            TsfnState::Closing => Some(self.move_closing()),
            TsfnState::Finished => Some(Moved::Delivers(self.take_final())),
            TsfnState::Done => None,
        }
    }

    /// Whether it has something to do of its own. Constant time.
    pub fn has_move(&self) -> bool
        ensures { result ≡ is_busy self.now }
    {
        match self.state {
            TsfnState::Open => !self.items.is_empty() || self.count == 0,
            TsfnState::Closing | TsfnState::Finished => true,
            TsfnState::Done => false,
        }
    }

    /// Whether the loop waits for it: it is referenced and not done. Constant time.
    pub fn holds_loop(&self) -> bool
        ensures { result ≡ holds_loop self.now }
    {
        self.is_referenced && self.state != TsfnState::Done
    }

    /// How many places of the history it owes: those of its close, its finish and its finalizer's frame that are to come, and of the frame of
    /// each item that waits. Constant time.
    pub fn places(&self) -> u64
        ensures { result ≡ function_places self.now }
    {
        let finalizer = if self.about.finalize.is_some() { 2 } else { 0 };
        let own = match self.state {
            TsfnState::Open => 2 + finalizer,
            TsfnState::Closing => 1 + finalizer,
            TsfnState::Finished => 2,
            TsfnState::Done => 0,
        };
        own + 2 * self.items.len() as u64
    }

    /// Its context: the manual's `napi_get_threadsafe_function_context`. Constant time.
    pub fn context(&self) -> u64
        ensures { result ≡ self.now.context }
    {
        self.about.context
    }

    /// How far it has come. Constant time.
    pub fn state(&self) -> TsfnState
        ensures { result ≡ self.now.state }
    {
        self.state
    }

    /// How many threads hold it: the manual's thread count. Constant time.
    pub fn count(&self) -> u32
        ensures { result ≡ self.now.count }
    {
        self.count
    }

    /// How many items wait. Constant time.
    pub fn queued(&self) -> u64
        ensures { result ≡ length self.now.items }
    {
        self.items.len() as u64
    }

    /// Whether the loop waits for it. Constant time.
    pub fn is_referenced(&self) -> bool
        ensures { result ≡ self.now.referenced }
    {
        self.is_referenced
    }

    /// The move of an open function, where it has one.
    fn move_open(&mut self) -> Option<Moved>
        requires { self.old.state ≡ TsfnState.Open }
        ensures told { option_map move_of result ≡ tsfn_move self.old }
        ensures left { self.new ≡ moved_by (tsfn_move self.old) self.old }
    {
        if let Some(due) = self.pop() {
            return Some(Moved::Delivers(due));
        }
        if self.count > 0 {
            return None;
        }
        self.begin_close();
        Some(Moved::Closes(self.id))
    }

    /// The move of a closing function.
    fn move_closing(&mut self) -> Moved
        requires { self.old.state ≡ TsfnState.Closing }
        ensures told { Some (move_of result) ≡ tsfn_move self.old }
        ensures left { self.new ≡ moved_by (tsfn_move self.old) self.old }
    {
        if let Some(due) = self.pop_torn() {
            return Moved::Delivers(due);
        }
        self.finish();
        Moved::Finishes(self.id)
    }

    /// Whether no further item may wait: where any number may, never.
    fn is_full(&self) -> bool
        ensures { result ≡ is_full_queue self.now }
    {
        self.about.max > 0 && self.items.len() == self.about.max as usize
    }

    /// Takes out the first item, with what it tells where the function is open.
    fn take_first(&mut self) -> Option<(DueInfo, Slip)>
        ensures told { option_map (λ first. first.0) result ≡ option_map (item_info self.old) (head self.old.items) }
        ensures taken { self.new ≡ first_taken self.old }
    {
        let Item { payload, slip } = self.items.pop_front()?;
        self.taken += 1;
        let info = DueInfo {
            duty: Duty::Item(self.id, self.taken),
            cause: Cause::Item,
            addon: self.about.target.addon,
            entry: self.about.target.entry,
            status: Status::Ok,
            // What a call-js callback is given: the data, that the environment is there, and the context.
            gifts: [payload, 1, self.about.context, 0, 0, 0, 0, 0],
            runs: true,
        };
        Some((info, slip))
    }
}
