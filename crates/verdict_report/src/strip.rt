//! A line that is put together from its end, in place.
ghost use Rattle.std.specs.Prelude.{◌≡◌, ◌+◌, ◌≤◌, [], ◌++◌, decimal, length};
ghost use Rattle.std.specs.Fmt.{signed_decimal};
ghost use Rattle.knit_base.specs.Spelling.{needle_text};

use itoa::write_digits;
use knit_base::Needle;
use std::marker::Model;

// How many bytes there is room for.
const ROOM: usize = 64;

/// A line of at most 64 bytes. What is put to it stands before what it had.
#[derive(Drop)]
pub(crate) struct Strip {
    bytes: [u8; ROOM],
    start: usize,
}

impl Model for Strip {
    ghost use Rattle.std.specs.Prelude.{List, ℕ, ◌≡◌, ◌≤◌, drop, length};

    ghost Value = { List ℕ };

    ghost view = { λ s. drop s.start s.bytes };

    ghost invariant = { λ s. s.start ≤ 64 };
}

impl Strip {
    /// The empty line.
    #[inline(always)]
    pub fn new() -> Strip
        ensures text { result ≡ [] }
        ensures len { length result ≡ 0 }
    {
        Strip {
            bytes: [0; ROOM],
            start: ROOM,
        }
    }

    /// Puts a text before the line.
    #[inline(always)]
    pub fn put(&mut self, text: &str)
        requires room { length text.now + length self.old ≤ 64 }
        ensures text { self.new ≡ text.now ++ self.old }
        ensures len { length self.new ≡ length text.now + length self.old }
    {
        let bytes = text.as_bytes();
        let start = self.start - bytes.len();
        self.bytes[start..self.start].copy_from_slice(bytes);
        self.start = start;
    }

    /// Puts a number before the line, in decimal.
    #[inline(always)]
    pub fn put_number(&mut self, number: u32)
        requires room { 10 + length self.old ≤ 64 }
        ensures text { self.new ≡ decimal number ++ self.old }
        ensures len { length self.new ≤ 10 + length self.old }
    {
        self.start = write_digits(u64::from(number), &mut self.bytes, self.start);
    }

    /// Puts a needle before the line: its bed and its number.
    #[inline(always)]
    pub fn put_needle(&mut self, needle: Needle)
        requires room { 13 + length self.old ≤ 64 }
        ensures text { self.new ≡ needle_text needle ++ self.old }
        ensures len { length self.new ≤ 13 + length self.old }
    {
        self.put_signed(needle.at);
        self.put(needle.bed.letters());
    }

    // Puts a number with its sign before the line, in decimal.
    #[inline(always)]
    fn put_signed(&mut self, number: i16)
        requires room { 11 + length self.old ≤ 64 }
        ensures text { self.new ≡ signed_decimal number ++ self.old }
        ensures len { length self.new ≤ 11 + length self.old }
    {
        self.put_number(u32::from(number.unsigned_abs()));
        if number < 0 {
            self.put("-");
        }
    }

    /// The line's bytes.
    #[inline(always)]
    pub fn as_slice(&self) -> &[u8]
        ensures { result.now ≡ self.now }
    {
        &self.bytes[self.start..]
    }
}
