//! The slab with generations.
ghost use Rattle.std.specs.Prelude.{◌≡◌, ℕ, ◌+◌, ◌-◌, ◌%◌, ◌<◌, ◌^◌, ◌≤◌, nat_eq, ◌∷◌, false, not, max, map, length, vec_capacity, is_some, IsSome, Some, None, IfOk, OnOk, OnErr, option_map, option_copied, slice_index_or, slice_set};
ghost use Rattle.std.specs.List.{IsDistinct};
ghost use Rattle.slab.specs.Slab.{get};
ghost use Rattle.napi_types.specs.plain.Lists.{has_number, with_number};
ghost use Rattle.generation_slab.specs.HeldPlaces.{standing, held, value_of, with_held, without_held, with_held_value, with_value, nothing_held, EachStandsOnce};
ghost use Rattle.generation_slab.specs.SlotNumbers.{live_in, number_of_slot};

use mark_bits::Bits;
use napi_types::NoMemory;
use slab::Slab;
use std::alloc::Global;
use std::marker::Model;
use std::mem;

/// How many slots a generation has.
const SLOTS: u64 = 0x1_0000_0000_0000;

/// Values, each held under a number. A number is never given twice.
///
/// What is freed under a number of the greatest generation is let go with the slab.
#[derive(Drop)]
pub struct GenerationSlab<T> {
    slots: Slab<T>,
    // The generation of each slot: that of the value which is there, or else of the next one. Above the greatest the slot is
    // retired: the value that was there last stays, so that the slot is not used again, and no number finds it.
    generations: Vec<u32>,
    // The greatest generation.
    last: u16,
    // A mark for each slot, set exactly where nothing is held. Slots that are still to come may have theirs too.
    vacant: Bits,
    // How many values are held.
    count: usize,
    // For how many values more the memory is taken.
    room: usize,
}

impl<T> Model for GenerationSlab<T> {
    ghost use Rattle.std.specs.Prelude.{vec_capacity};
    ghost use Rattle.generation_slab.specs.HeldPlaces.{HeldPlaces};

    ghost Value = { HeldPlaces T };

    ghost use Rattle.generation_slab.specs.SlotNumbers.{live_at, places_of, IsKept};

    ghost view = { λ s. places_of (live_at s.slots s.generations.items s.last) s.generations.items s.room };

    ghost invariant = { λ s. IsKept s.slots s.generations.items s.last s.count (vec_capacity s.generations) s.room s.vacant };
}

/// A generation for the slot, where it has none. Its memory is taken.
fn widen(generations: &mut Vec<u32>, slot: usize)
    requires { slot < vec_capacity generations.old }
    ensures kept { (k : ℕ) → slice_index_or generations.new.items k 0 ≡ slice_index_or generations.old.items k 0 }
    ensures size { length generations.new.items ≡ max (length generations.old.items) (slot + 1) }
    ensures capacity { vec_capacity generations.new ≡ vec_capacity generations.old }
{
    for _ in generations.len()..slot + 1 {
        generations.push_reserved(0);
    }
}

/// The slot of a number.
fn slot_of(number: u64) -> usize
    ensures { result ≡ (number - 1) % 2 ^ 48 }
{
    (number.saturating_sub(1) % SLOTS) as usize
}

/// The number of a slot in a generation.
fn number_of(generation: u32, slot: usize) -> u64
    requires generation { generation < 2 ^ 16 }
    requires slot { slot < 2 ^ 48 - 1 }
    ensures { result ≡ number_of_slot generation slot }
{
    u64::from(generation) * SLOTS + slot as u64 + 1
}

/// The value in a slot of a generation, none where that is above the greatest.
fn live<T>(slots: &Slab<T>, slot: usize, generation: u32, last: u16) -> Option<&T>
    ensures { option_copied result ≡ live_in last generation (get slots.now slot) }
{
    if generation > u32::from(last) {
        return None;
    }
    slots.get(slot)
}

impl<T: Drop> GenerationSlab<T> {
    ghost use Rattle.std.specs.Borrow.{sem};
    ghost use Rattle.generation_slab.specs.Lends.{lends_value};

    /// Nothing is held. It takes no memory.
    pub fn new(alloc: Global) -> GenerationSlab<T>
        ensures { result ≡ nothing_held }
    {
        GenerationSlab::with_generations(alloc, u16::MAX)
    }

    /// The same, where a slot has no generation after `last`: it is used `last + 1` times. It takes no memory. Contracts see no
    /// generations, so no clause tells `last`.
    pub fn with_generations(alloc: Global, last: u16) -> GenerationSlab<T>
        ensures { result ≡ nothing_held }
    {
        GenerationSlab {
            slots: Slab::new(alloc),
            generations: Vec::new(alloc),
            last,
            vacant: Bits::new(alloc),
            count: 0,
            room: 0,
        }
    }

    /// The value of a number, if one is held under it. Constant time.
    pub fn get(&self, number: u64) -> Option<&T>
        ensures { option_copied result ≡ value_of self.now number }
    {
        let slots = &self.slots;
        let at = number.checked_sub(1)?;
        let slot = (at % SLOTS) as usize;
        let generation = *self.generations.get(slot)?;
        if u64::from(generation) != at / SLOTS {
            return None;
        }
        live(slots, slot, generation, self.last)
    }

    /// Holds a value. Its number was never issued before, and is not 0.
    ///
    /// Near constant time: now and then the slots grow. All memory is taken before anything changes, and none where it is taken already.
    pub fn make(&mut self, value: T) -> Result<u64, NoMemory>
        ensures fresh { IfOk result (λ number. has_number number (0 ∷ self.old.issued) ≡ false) }
        ensures held { IfOk result (λ number. held self.new ≡ with_held number value (held self.old)) }
        ensures issued { IfOk result (λ number. self.new.issued ≡ with_number number self.old.issued) }
        ensures once { OnOk result (EachStandsOnce self.new) }
        ensures memory { OnErr result (self.old.room ≡ 0) }
        ensures err { OnErr result (self.new ≡ self.old) }
    {
        if self.room == 0 {
            self.reserve(1)?;
        }
        Ok(self.make_reserved(value))
    }

    /// Takes the memory for so many values more, all of it or none. It wants none where it is taken already, and then nothing changes.
    ///
    /// Constant time, where the memory is taken already; else linear in how many slots there are, at the most.
    pub fn reserve(&mut self, count: usize) -> Result<(), NoMemory>
        ensures kept { self.new ≡ record self.old { room = self.new.room } }
        ensures reserved { OnOk result (count ≤ self.new.room) }
        ensures memory { OnErr result (self.old.room < count) }
        ensures enough { count ≤ self.old.room → self.new ≡ self.old }
        ensures err { OnErr result (self.new.room ≡ 0) }
    {
        if self.room >= count {
            return Ok(());
        }
        self.room = 0;
        self.slots.reserve(count)?;
        let capacity = self.slots.capacity();
        if capacity as u64 >= SLOTS {
            return Err(NoMemory);
        }
        let more = capacity.saturating_sub(self.generations.len());
        self.generations.reserve(more)?;
        self.vacant.fill_up(capacity)?;
        // All the room that there is, so that what comes next asks for none.
        self.room = capacity - self.slots.len();
        Ok(())
    }

    /// `make`, where the memory for a value is taken: it takes none.
    ///
    /// Constant time.
    pub fn make_reserved(&mut self, value: T) -> u64
        requires { 0 < self.old.room }
        ensures fresh { has_number result (0 ∷ self.old.issued) ≡ false }
        ensures held { held self.new ≡ with_held result value (held self.old) }
        ensures issued { self.new.issued ≡ with_number result self.old.issued }
        ensures once { EachStandsOnce self.new }
        ensures room { self.new.room + 1 ≡ self.old.room }
    {
        let slot = self.slots.insert_reserved(value);
        widen(&mut self.generations, slot);
        self.vacant.unset(slot);
        self.count += 1;
        self.room -= 1;
        number_of(self.generations[slot], slot)
    }

    /// Frees a number: nothing is held under it any more, and it is never given again.
    ///
    /// Constant time. It takes no memory.
    pub fn free(&mut self, number: u64)
        requires { IsSome (value_of self.old number) }
        ensures freed { held self.new ≡ without_held number (held self.old) }
        ensures issued { self.new.issued ≡ self.old.issued }
        ensures once { EachStandsOnce self.new }
        ensures room { self.new.room ≡ self.old.room }
    {
        let slot = slot_of(number);
        let generation = self.generations[slot];
        self.generations[slot] = generation + 1;
        self.vacant.set(slot);
        self.count -= 1;
        if generation < u32::from(self.last) {
            self.slots.remove(slot);
        }
    }

    /// The value of a number, to be changed where it stands.
    ///
    /// Constant time. It takes no memory.
    pub fn value_mut(&mut self, number: u64) -> &mut T
        requires { IsSome (value_of self.old number) }
        ensures* writes_back { sem 𝓛 (lends_value T.row self.entry number result) }
        ensures value { value_of self.old number ≡ Some result.now }
    {
        let slot = slot_of(number);
        &mut self.slots[slot]
    }

    /// Holds another value under a number, and gives back the one that was held.
    ///
    /// Constant time. It takes no memory.
    pub fn replace(&mut self, number: u64, value: T) -> T
        requires { IsSome (value_of self.old number) }
        ensures given { value_of self.old number ≡ Some result }
        ensures replaced { held self.new ≡ with_held_value number value (held self.old) }
        ensures issued { self.new.issued ≡ self.old.issued }
        ensures room { self.new.room ≡ self.old.room }
    {
        let slot = slot_of(number);
        mem::replace(&mut self.slots[slot], value)
    }

    /// How many values are held. Constant time.
    pub fn count(&self) -> usize
        ensures { result ≡ length (standing self.now.places) }
    {
        self.count
    }

    /// How many places there are. What is held stands at exactly one, whichever that is. Constant time.
    pub fn places(&self) -> usize
        ensures places { result ≡ length self.now.places }
        ensures once { IsDistinct nat_eq (map (λ h. h.number) (standing self.now.places)) }
    {
        self.generations.len()
    }

    /// A mark for each place, set exactly where nothing stands. It takes time and memory in a 64th of the places.
    pub fn vacant_places(&self, alloc: Global) -> Result<Bits, NoMemory>
        ensures { IfOk result (λ marks. marks ≡ map (λ place. not (is_some place)) self.now.places) }
    {
        self.vacant.first(alloc, self.generations.len())
    }

    /// The value at a place, `None` exactly where nothing stands there. `at` is below `places`. Constant time.
    pub fn value_in(&self, at: usize) -> Option<&T>
        requires { at < length self.now.places }
        ensures { option_copied result ≡ option_map (λ h. h.value) (slice_index_or self.now.places at None) }
    {
        live(&self.slots, at, self.generations[at], self.last)
    }

    /// The number of what stands at a place, `None` exactly where nothing stands there. `at` is below `places`. Constant time.
    pub fn number_in(&self, at: usize) -> Option<u64>
        requires { at < length self.now.places }
        ensures { result ≡ option_map (λ h. h.number) (slice_index_or self.now.places at None) }
    {
        let generation = self.generations[at];
        live(&self.slots, at, generation, self.last)?;
        Some(number_of(generation, at))
    }

    /// The place where the value of a number stands. Constant time.
    pub fn place_of(&self, number: u64) -> usize
        requires { IsSome (value_of self.now number) }
        ensures { option_map (λ h. h.number) (slice_index_or self.now.places result None) ≡ Some number }
    {
        // What is held has a slot, as the slab's invariant says.
        let _ = &self.slots;
        slot_of(number)
    }

    /// Holds another value where one stands at a place. Constant time. It takes no memory.
    pub fn put_in(&mut self, at: usize, value: T)
        requires { IsSome (slice_index_or self.old.places at None) }
        ensures put { self.new.places ≡ slice_set self.old.places at (option_map (with_value value) (slice_index_or self.old.places at None)) }
        ensures issued { self.new.issued ≡ self.old.issued }
        ensures room { self.new.room ≡ self.old.room }
    {
        self.slots[at] = value;
    }
}
