//! The numbers of lines.
ghost use Rattle.std.specs.Prelude.{◌≡◌, ◌+◌, ◌<◌, ◌≤◌, ◌^◌, decimal, length, take};

use itoa::Buffer;
use std::marker::Model;

/// How many digits the greatest number has.
pub const DIGITS: usize = 20;

/// The number of a line with its decimal text, which is kept from line to line: mostly its last digit alone changes.
#[derive(Drop)]
pub struct LineNumber {
    number: u64,
    digits: [u8; DIGITS],
    count: usize,
}

impl Model for LineNumber {
    ghost use Rattle.std.specs.Prelude.{◌≡◌, ◌≤◌, ℕ, decimal, length, take};

    ghost Value = { ℕ };

    ghost view = { λ line. line.number };

    ghost invariant = { λ line. (line.count ≤ 20) × (take line.count line.digits ≡ decimal line.number) };
}

impl LineNumber {
    /// This number.
    pub fn of(number: u64) -> LineNumber
        ensures { result ≡ number }
    {
        let mut buffer = Buffer::new();
        let text = buffer.format(number).as_bytes();
        let mut digits = [b'0'; DIGITS];
        digits[..text.len()].copy_from_slice(text);
        LineNumber {
            number,
            digits,
            count: text.len(),
        }
    }

    /// The digits, and bytes of no meaning behind them.
    pub fn digits(&self) -> &[u8; DIGITS]
        ensures digits { take (length (decimal self.now)) result.now ≡ decimal self.now }
        ensures all { length result.now ≡ 20 }
    {
        &self.digits
    }

    /// How many digits there are.
    pub fn count(&self) -> usize
        ensures count { result ≡ length (decimal self.now) }
        ensures few { result ≤ 20 }
    {
        self.count
    }

    /// The digits alone.
    pub fn text(&self) -> &[u8]
        ensures { result.now ≡ decimal self.now }
    {
        &self.digits[..self.count]
    }

    /// Goes on to the number of the next line.
    #[inline(always)]
    pub fn advance(&mut self)
        requires { self.old + 1 < 2 ^ 64 }
        ensures { self.new ≡ self.old + 1 }
    {
        let last = self.count - 1;
        if self.digits[last] < b'9' {
            self.digits[last] += 1;
            self.number += 1;
        } else {
            *self = LineNumber::of(self.number + 1);
        }
    }
}
