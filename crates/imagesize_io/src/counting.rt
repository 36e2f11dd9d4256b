//! The bytes of a reader in memory, as a source that counts them.
ghost use Rattle.std.specs.Prelude.{◌≡◌, ℕ, ◌+◌, ◌-◌, ◌^◌, ◌<◌, ◌≤◌, min, true, false, List, None, IfOk, IfErr, length, option_map};
ghost use Rattle.imagesize_source.specs.Limits.{allowance, most_held};
ghost use Rattle.imagesize_io.specs.Memory.{IsMemory, IsPaid, IsSpent, counting_state};
ghost use Rattle.imagesize_io.specs.Telling.{at_offset};

use crate::Told;
use crate::reader::ALLOWANCE;
use crate::window::WINDOW;
use imagesize_source::part::{copy_part, copy_text_at};
use imagesize_source::source::Source;
use imagesize_source::source::held::{Claims, Counts};
use imagesize_source::{Halt, ImageError, Reason, Text};
use std::io::SeekFrom;

/// The bytes of a reader in memory, read where they lie. It counts them as a source over the reader does, and keeps the offset at
/// which the reader is to be left.
#[derive(Drop)]
pub struct CountingSource<'a> {
    bytes: &'a [u8],
    // How many of the first bytes a source over the reader would hold. These are not counted again.
    front: u64,
    // A copy of `front`, for the test of reads within it. With one field for both tests, a read past the front would load it first.
    free: u64,
    // How many bytes the budget still has.
    left: u64,
    // The offset at which the reader is to be left: where the last read ended that gave a byte past the first bytes.
    position: u64,
    ghost within: { left ≤ length bytes.now + allowance },
    ghost there: { position ≤ length bytes.now },
    ghost same: { free ≡ front },
    ghost held: { front ≤ most_held },
    ghost short: { length bytes.now < 2 ^ 63 },
}

impl<'a> CountingSource<'a> {
    /// A source of the bytes of a reader that is at their end.
    #[inline(always)]
    pub fn new(bytes: &'a [u8]) -> Self
        ensures bytes { result.bytes.now ≡ bytes.now }
        ensures front { result.front ≡ 0 }
        ensures left { result.left ≡ length bytes.now + allowance }
        ensures position { result.position ≡ length bytes.now }
    {
        CountingSource {
            bytes,
            front: 0,
            free: 0,
            left: bytes.len() as u64 + ALLOWANCE,
            position: bytes.len() as u64,
        }
    }

    /// The offset at which the reader is to be left: where the last read ended that gave a byte past the first bytes.
    #[inline(always)]
    pub fn position(&self) -> u64
        ensures within { result ≤ length self.now.bytes.now }
        ensures position { result ≡ self.now.position }
    {
        self.position
    }

    // The result of a read of `count` bytes, which are counted.
    #[inline(always)]
    fn pay(&mut self, offset: u64, count: usize) -> Result<usize, Halt>
        requires there { 0 < count → offset + count ≤ length self.old.bytes.now }
        ensures bytes { self.new.bytes.now ≡ self.old.bytes.now }
        ensures paid { IfOk result (λ n. (n ≡ count)
            × IsPaid self.old.front self.old.left self.old.position self.new.front self.new.left self.new.position offset count) }
        ensures spent { IfErr result (λ halt. (halt ≡ Halt.Spent) × IsSpent self.old.front self.old.left self.new.left offset count) }
    {
        if offset <= self.front {
            let end = offset + count as u64;
            // A read within the front costs nothing, and moves nothing. Most reads of a size at fixed offsets are such.
            if end <= self.free || self.pays_on(end) {
                return Ok(count);
            }
            return Err(Halt::Spent);
        }
        if self.left < count as u64 {
            self.left = 0;
            return Err(Halt::Spent);
        }
        // Most reads lie past the front, and cost three tests and two stores here.
        if count > 0 {
            self.left -= count as u64;
            self.position = offset + count as u64;
        }
        Ok(count)
    }

    // Counts the bytes after the front up to an offset, and adds them to the front as far as they fit. Returns whether the budget
    // has them. Not inlined, since most reads lie within the front or past it.
    #[inline(never)]
    fn pays_on(&mut self, end: u64) -> bool
        requires ahead { self.old.front < end }
        requires there { end ≤ length self.old.bytes.now }
        ensures bytes { self.new.bytes.now ≡ self.old.bytes.now }
        ensures paid { result ≡ true → (self.new.left + (end - self.old.front) ≡ self.old.left) × (self.new.front ≡ min end most_held)
            × (self.new.position ≡ end) }
        ensures spent { result ≡ false → (self.new.left ≡ 0) × (self.old.left < end - self.old.front) }
    {
        let count = end - self.front;
        if self.left < count {
            self.left = 0;
            return false;
        }
        self.left -= count;
        self.position = end;
        self.front = end.min(WINDOW as u64);
        self.free = self.front;
        true
    }
}

impl Claims for CountingSource<'_> {}

impl Source for CountingSource<'_> {
    ghost state = { λ s. counting_state s.bytes.now s.front s.left s.position };

    #[inline(always)]
    fn told(&self) -> u64 {
        self.bytes.len() as u64
    }

    #[inline(always)]
    fn taken(&self) -> u64 {
        self.bytes.len() as u64 + ALLOWANCE - self.left
    }

    #[inline(always)]
    fn refusal(&self, halt: Halt) -> ImageError {
        halt.error(Reason::EndOfInput, self.bytes.len() as u64 + ALLOWANCE)
    }

    // It shows no bytes.
    #[inline(always)]
    fn pass(&mut self, _counts: Counts) {}

    #[inline(always)]
    fn read_at(&mut self, offset: u64, buffer: &mut [u8]) -> Result<usize, Halt> {
        let count = copy_part(self.bytes, offset, buffer);
        self.pay(offset, count)
    }

    #[inline]
    fn read_text(&mut self, offset: u64, text: Text, buffer: &mut [u8]) -> Result<usize, Halt> {
        let count = copy_text_at(self.bytes, offset, text, buffer);
        self.pay(offset, count)
    }
}

/// Moves a reader in memory to an offset within its bytes. Its seek cannot fail.
#[inline(always)]
pub fn leave<R: Told>(reader: &mut R, position: u64)
    ensures told { (d : List ℕ) → IsMemory (R.telling reader.old) d → position ≤ length d
        → R.telling reader.new ≡ option_map (λ t. at_offset t position) (R.telling reader.old) }
    ensures counts { R.count reader.new ≡ R.count reader.old }
    ensures fails { R.failure reader.old ≡ None → R.failure reader.new ≡ None }
{
    let _ = reader.seek_told(SeekFrom::Start(position));
}
