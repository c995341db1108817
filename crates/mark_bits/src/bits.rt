//! Marks in the bits of words.
ghost use Rattle.std.specs.Prelude.{◌≡◌, ℕ, ◌+◌, ◌-◌, ◌*◌, ◌/◌, ◌%◌, ◌^◌, ◌<◌, ◌≤◌, ◌++◌, [], true, false, length, replicate, take, slice_set, IfOk, OnOk, OnErr};
ghost use Rattle.mark_bits.specs.PlaceMarks.{is_marked};

use napi_types::NoMemory;
use std::alloc::Global;
use std::marker::Model;

/// How many marks a word has.
const WORD: usize = 64;

/// A word of which each mark is set.
const FULL: u64 = u64::MAX;

/// Marks, each set or not, at places that count from 0.
#[derive(Drop)]
pub struct Bits {
    // The mark at a place is a bit of the word at a 64th of the place.
    words: Vec<u64>,
    many: usize,
}

impl Model for Bits {
    ghost use Rattle.std.specs.Prelude.{Bool, List, vec_len, ◌+◌, ◌/◌, ◌≡◌};

    ghost Value = { List Bool };

    ghost use Rattle.mark_bits.specs.WordBits.{marks_of};

    ghost view = { λ b. marks_of b.words.items b.many };

    ghost invariant = { λ b. vec_len b.words ≡ (b.many + 63) / 64 };
}

impl Bits {
    /// No marks. It takes no memory.
    pub fn new(alloc: Global) -> Bits
        ensures { result ≡ [] }
    {
        Bits {
            words: Vec::new(alloc),
            many: 0,
        }
    }

    /// How many marks there are. Constant time.
    pub fn len(&self) -> usize
        ensures { result ≡ length self.now }
    {
        self.many
    }

    /// Whether a mark is set. Constant time.
    pub fn is_set(&self, place: usize) -> bool
        requires { place < length self.now }
        ensures { result ≡ is_marked self.now place }
    {
        (self.words[place / WORD] >> (place % WORD)) & 1 == 1
    }

    /// Sets a mark. Constant time.
    pub fn set(&mut self, place: usize)
        requires { place < length self.old }
        ensures { self.new ≡ slice_set self.old place true }
    {
        self.words[place / WORD] |= 1 << (place % WORD);
    }

    /// Takes a mark away. Constant time.
    pub fn unset(&mut self, place: usize)
        requires { place < length self.old }
        ensures { self.new ≡ slice_set self.old place false }
    {
        self.words[place / WORD] &= !(1 << (place % WORD));
    }

    /// Adds marks until there are this many or a little more: 64 marks are added at a time, each of them set. Where there are
    /// this many, none is added.
    ///
    /// Near constant time for each 64 marks.
    pub fn fill_up(&mut self, many: usize) -> Result<(), NoMemory>
        requires whole { length self.old % 64 ≡ 0 }
        requires few { many < 2 ^ 63 }
        ensures filled { OnOk result (self.new ≡ self.old ++ replicate (64 * ((many + 63) / 64) - length self.old) true) }
        ensures err { OnErr result (self.new ≡ self.old) }
    {
        let words = many.div_ceil(WORD);
        if words > self.words.len() {
            self.words.resize(words, FULL)?;
            self.many = words * WORD;
        }
        Ok(())
    }

    /// The first marks, this many of them. It takes time and memory in a 64th of them.
    pub fn first(&self, alloc: Global, many: usize) -> Result<Bits, NoMemory>
        requires { many ≤ length self.now }
        ensures { IfOk result (λ bits. bits ≡ take many self.now) }
    {
        let words = self.words[..many.div_ceil(WORD)].to_vec(alloc)?;
        Ok(Bits { words, many })
    }

    /// The first place from this one on whose mark is not set; where each is set, the number of marks.
    ///
    /// A word of which each mark is set takes one compare.
    pub fn next_unset(&self, from: usize) -> usize
        requires { from ≤ length self.now }
        ensures within { (from ≤ result) × (result ≤ length self.now) }
        ensures passed { (place : ℕ) → from ≤ place → place < result → is_marked self.now place ≡ true }
        ensures unset { result < length self.now → is_marked self.now result ≡ false }
    {
        let mut place = from;
        while place < self.len() {
            let set = self.set_from(place);
            if set == 0 {
                return place;
            }
            place += set;
        }
        place
    }

    /// How many marks from a place on are seen at once to be set: the rest of a word of which each is, or else one at most.
    fn set_from(&self, place: usize) -> usize
        requires { place < length self.now }
        ensures within { place + result ≤ length self.now }
        ensures passed { (at : ℕ) → place ≤ at → at < place + result → is_marked self.now at ≡ true }
        ensures unset { result ≡ 0 → is_marked self.now place ≡ false }
    {
        if self.words[place / WORD] == FULL {
            (WORD - place % WORD).min(self.len() - place)
        } else if self.is_set(place) {
            1
        } else {
            0
        }
    }
}
