//! Who sleeps, for what, and who is to be rung.
//!
//! Where the hub answers that its caller waits it notes for what. The caller falls asleep as it gives its turn back, unless it has taken that note. Who
//! gives a reason to wake up notes under its own turn whom to ring. No contract sees the notes.
use napi_types::{Call, Release, Status, TsfnId};

/// Once anybody fell asleep so often since one did that sleeps for room, its own fall counted, the next ring for that room is its own.
const MOST_FALLS: u64 = 512;

/// For what a thread, a worker or the environment sleeps.
#[derive(Clone, Copy, Debug, PartialEq, Eq)]
pub enum WaitsFor {
    /// A thread, for `go`.
    Go,
    /// A thread, for room in the queue of this function, or for its closing.
    Room(TsfnId),
    /// A worker, for a work or for the drain.
    Work,
    /// The environment, for any entry of a thread or a worker.
    Entry,
}

/// What is noted of the pass of a number.
#[derive(Clone, Copy)]
enum SleepingPlace {
    Awake,
    /// When it fell asleep, counted in sleeps, and for what it sleeps.
    Sleeps(u64, WaitsFor),
}

impl SleepingPlace {
    /// It falls asleep now. Where it sleeps for this already it sleeps on.
    fn with(self, why: WaitsFor, now: u64) -> SleepingPlace {
        match self.since(why) {
            Some(since) => SleepingPlace::Sleeps(since, why),
            None => SleepingPlace::Sleeps(now, why),
        }
    }

    /// For what it sleeps, where it does.
    fn sleeps_for(self) -> Option<WaitsFor> {
        match self {
            SleepingPlace::Awake => None,
            SleepingPlace::Sleeps(_, why) => Some(why),
        }
    }

    /// Since when it sleeps for this, where it does.
    fn since(self, why: WaitsFor) -> Option<u64> {
        match self {
            SleepingPlace::Awake => None,
            SleepingPlace::Sleeps(since, before) => {
                if before == why { Some(since) } else { None }
            }
        }
    }
}

/// A note of which passes sleep, and of which are to be rung once the turn is given back. Contracts do not see it, and no answer of the hub depends on it.
#[derive(Clone, Copy)]
pub(crate) struct Sleepers {
    places: [SleepingPlace; 64],
    // A bit for each number whose pass sleeps.
    asleep: u64,
    // A bit for each number whose pass is to be rung.
    to_ring: u64,
    // How often one fell asleep.
    sleeps: u64,
    // Whether one was rung for room, and no thread or worker has made an entry since.
    rung_for_room: bool,
    // Whether one fell asleep for an entry, and no look since has found that none does. So that who makes an entry need not look.
    awaits_entry: bool,
    // For what the one that holds the turn waits, where the last answer said that it does.
    waits: Option<WaitsFor>,
}

impl Sleepers {
    /// Nobody sleeps.
    pub(crate) fn new() -> Sleepers {
        Sleepers {
            places: [SleepingPlace::Awake; 64],
            asleep: 0,
            to_ring: 0,
            sleeps: 0,
            rung_for_room: false,
            awaits_entry: false,
            waits: None,
        }
    }

    /// The one that holds the turn waits for this.
    pub(crate) fn wait_for(&mut self, why: WaitsFor) {
        self.waits = Some(why);
    }

    /// A call of a thread waits: for room in the queue of its function.
    pub(crate) fn wait_for_call(&mut self, call: &Call) {
        if let Call::CallThreadsafeFunction(id, _, _) = call {
            self.wait_for(WaitsFor::Room(*id));
        }
    }

    /// For what the one that holds the turn waits, where it does. Nothing is noted of that any more.
    pub(crate) fn take_wait(&mut self) -> Option<WaitsFor> {
        let waits = self.waits;
        self.waits = None;
        waits
    }

    /// The pass of this number, from 0 to 63, will sleep.
    pub(crate) fn fall_asleep(&mut self, number: u32, why: WaitsFor) {
        let number = number as usize % 64;
        let before = self.places[number];
        self.places[number] = before.with(why, self.sleeps);
        self.asleep |= bit(number);
        self.sleeps = self.sleeps.wrapping_add(1);
        if why == WaitsFor::Entry {
            self.awaits_entry = true;
        }
    }

    /// How often one fell asleep.
    pub(crate) fn sleeps(&self) -> u64 {
        self.sleeps
    }

    /// Which passes are to be rung, a bit for each number. None is after that.
    pub(crate) fn take_rings(&mut self) -> u64 {
        let rings = self.to_ring;
        self.to_ring = 0;
        rings
    }

    /// All that sleep for this are to be rung.
    pub(crate) fn ring_all(&mut self, why: WaitsFor) {
        if self.asleep == 0 {
            return;
        }
        for number in 0..64 {
            if self.since(number, why).is_some() {
                self.ring(number);
            }
        }
    }

    /// The first that fell asleep of those that sleep for this is to be rung.
    pub(crate) fn ring_first(&mut self, why: WaitsFor) {
        if let Some(number) = self.first(why) {
            self.ring(number);
        }
    }

    /// A thread or a worker makes an entry, or a call of a thread stops, so it does not wait: the environment is to be rung, and looks again for whom to ring.
    pub(crate) fn note_entry(&mut self) {
        self.waits = None;
        self.rung_for_room = false;
        if !self.awaits_entry {
            return;
        }
        match self.first(WaitsFor::Entry) {
            Some(number) => self.ring(number),
            None => self.awaits_entry = false,
        }
    }

    /// The queue of a function came to be empty: one of those that wait for room there is to be rung. It is the one that fell asleep last, since its
    /// processor has still at hand what it wants. But once anybody fell asleep so often since the first one did, it is that one. So each one comes to its
    /// turn, whatever comes of other functions.
    pub(crate) fn ring_for_room(&mut self, id: TsfnId) {
        let why = WaitsFor::Room(id);
        let found = match self.first(why) {
            Some(first) if self.falls_since(first) >= MOST_FALLS => Some(first),
            _ => self.last(why),
        };
        if let Some(number) = found {
            self.ring(number);
            self.rung_for_room = true;
        }
    }

    /// The environment has nothing to do: one is to be rung for each function for whose room one sleeps. Where one was rung that has still to come
    /// nobody is: it makes an entry, and after that the environment looks again.
    pub(crate) fn ring_first_of_each(&mut self) {
        if self.asleep == 0 || self.rung_for_room {
            return;
        }
        let before = *self;
        for number in 0..64 {
            if before.is_first_for_room(number) {
                self.ring(number);
                self.rung_for_room = true;
            }
        }
    }

    /// All that sleep are to be rung.
    pub(crate) fn ring_everyone(&mut self) {
        for number in 0..64 {
            if self.asleep & bit(number) > 0 {
                self.ring(number);
            }
        }
    }

    /// After a shared call, whoever made it: a work that was queued rings a worker, and an abort all that wait for the function.
    pub(crate) fn after_call(&mut self, call: &Call, status: Status) {
        if status != Status::Ok {
            return;
        }
        match call {
            Call::QueueAsyncWork(_) => self.ring_first(WaitsFor::Work),
            Call::ReleaseThreadsafeFunction(id, Release::Abort) => {
                self.ring_all(WaitsFor::Room(*id))
            }
            _ => {}
        }
    }

    /// Whether the pass of this number is the first that sleeps for room, of those that sleep for that function's.
    fn is_first_for_room(&self, number: usize) -> bool {
        let place = self.places[number % 64];
        match place.sleeps_for() {
            Some(WaitsFor::Room(id)) => self.first(WaitsFor::Room(id)) == Some(number),
            _ => false,
        }
    }

    /// How often anybody fell asleep since the pass of this number did, where it sleeps: its own fall is the first.
    fn falls_since(&self, number: usize) -> u64 {
        match self.places[number % 64] {
            SleepingPlace::Awake => 0,
            SleepingPlace::Sleeps(since, _) => self.sleeps.wrapping_sub(since),
        }
    }

    /// The pass that fell asleep first, of those that sleep for this.
    fn first(&self, why: WaitsFor) -> Option<usize> {
        if self.asleep == 0 {
            return None;
        }
        let mut first = None;
        let mut earliest = u64::MAX;
        for number in 0..64 {
            if let Some(since) = self.since(number, why) {
                if first.is_none() || since < earliest {
                    first = Some(number);
                    earliest = since;
                }
            }
        }
        first
    }

    /// The pass that fell asleep last, of those that sleep for this.
    fn last(&self, why: WaitsFor) -> Option<usize> {
        if self.asleep == 0 {
            return None;
        }
        let mut last = None;
        let mut latest = 0;
        for number in 0..64 {
            if let Some(since) = self.since(number, why) {
                if since >= latest {
                    last = Some(number);
                    latest = since;
                }
            }
        }
        last
    }

    /// Since when the pass of this number sleeps for this, where it does.
    fn since(&self, number: usize, why: WaitsFor) -> Option<u64> {
        let place = self.places[number % 64];
        place.since(why)
    }

    /// The pass of this number is to be rung, and sleeps no more.
    fn ring(&mut self, number: usize) {
        self.places[number % 64] = SleepingPlace::Awake;
        self.asleep &= !bit(number);
        self.to_ring |= bit(number);
    }
}

/// The bit of a number.
fn bit(number: usize) -> u64 {
    1 << (number % 64)
}
