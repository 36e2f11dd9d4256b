//! What a reader of a file holds: the last block, and the first bytes.
ghost use Rattle.std.specs.Prelude.{◌≡◌, ◌+◌, ◌^◌, ◌<◌, ◌≤◌, [], length, take, IfOk, IfErr};
ghost use Rattle.std.specs.Io.KnownBytes.{Consumes, IsAtEnd, Keeps};
ghost use Rattle.imagesize_io.specs.Block.{held_from};
ghost use Rattle.imagesize_io.specs.ReaderState.{kept_window};

use crate::window::{Window, keep};
use std::io::{self, Read};

/// A block of a file in the caller's memory, and the first bytes of the file.
#[derive(Drop)]
pub(crate) struct Block<'a> {
    // The first `filled` bytes lie at the offset `start` of the file.
    memory: &'a mut [u8],
    filled: usize,
    start: u64,
    front: Window,
    ghost within: { filled ≤ length memory.now },
    ghost ends: { start + filled < 2 ^ 64 },
}

impl<'a> Block<'a> {
    // A block of no bytes.
    pub(crate) fn new(memory: &'a mut [u8]) -> Self
        ensures empty { (result.filled ≡ 0) × (result.front.items ≡ []) }
        ensures memory { result.memory.now ≡ memory.old }
    {
        Block {
            memory,
            filled: 0,
            start: 0,
            front: Window::new(),
        }
    }

    // The caller's memory.
    pub(crate) fn into_memory(self) -> &'a mut [u8]
        ensures { result.now ≡ self.entry.memory.now }
    {
        self.memory
    }

    // How many bytes the memory has.
    pub(crate) fn capacity(&self) -> usize
        ensures { result ≡ length self.now.memory.now }
    {
        self.memory.len()
    }

    // The offset at which the block ends.
    pub(crate) fn end(&self) -> u64
        ensures { result ≡ self.now.start + self.now.filled }
    {
        self.start + self.filled as u64
    }

    // The bytes from an offset on, as far as they are held.
    #[inline]
    pub(crate) fn held(&self, offset: u64) -> &[u8]
        ensures held { result.now ≡ held_from (take self.now.filled self.now.memory.now) self.now.start self.now.front.items offset }
        ensures fits { offset + length result.now < 2 ^ 64 }
    {
        match offset.checked_sub(self.start) {
            Some(ahead) if ahead < self.filled as u64 => {
                &self.memory[ahead as usize..self.filled]
            }
            _ => &self.front.as_slice()[self.front.len().min(offset as usize)..],
        }
    }

    // Reads at most `most` bytes from a file that is at `offset`, and returns how many it read.
    //
    // Errors: those of the file.
    pub(crate) fn fill<R: Read>(
        &mut self,
        file: &mut R,
        offset: u64,
        most: usize,
    ) -> io::Result<usize>
        requires fits { most ≤ length self.old.memory.now }
        requires below { offset + most < 2 ^ 64 }
        ensures reads { IfOk result (λ n. Consumes (R.remaining file.old) (R.remaining file.new) (take n self.new.memory.now)) }
        ensures end { IfOk result (λ n. n ≡ 0 → 0 < most → IsAtEnd (R.remaining file.new)) }
        ensures keeps { IfErr result (λ _. Keeps (R.remaining file.old) (R.remaining file.new)) }
        ensures block { IfOk result (λ n. (self.new.filled ≡ n) × (self.new.start ≡ offset)
            × (self.new.front.items ≡ kept_window self.old.front.items offset (take n self.new.memory.now))) }
        ensures fails { IfErr result (λ _. (self.new.filled ≡ 0) × (self.new.front ≡ self.old.front)) }
    {
        self.filled = 0;
        let count = read_front(file, self.memory, &mut self.front, offset, most)?;
        self.filled = count;
        self.start = offset;
        Ok(count)
    }
}

// Reads into the first `most` bytes of a buffer from a file that is at `offset`, and keeps the first bytes of the file.
fn read_front<R: Read>(
    file: &mut R,
    buffer: &mut [u8],
    front: &mut Window,
    offset: u64,
    most: usize,
) -> io::Result<usize>
    requires { most ≤ length buffer.old }
    ensures reads { IfOk result (λ n. Consumes (R.remaining file.old) (R.remaining file.new) (take n buffer.new)) }
    ensures end { IfOk result (λ n. n ≡ 0 → 0 < most → IsAtEnd (R.remaining file.new)) }
    ensures keeps { IfErr result (λ _. Keeps (R.remaining file.old) (R.remaining file.new)) }
    ensures bound { IfOk result (λ n. n ≤ most) }
    ensures front { IfOk result (λ n. front.new.items ≡ kept_window front.old.items offset (take n buffer.new)) }
    ensures fails { IfErr result (λ _. front.new ≡ front.old) }
{
    let count = file.read(&mut buffer[..most])?;
    keep(front, offset, &buffer[..count]);
    Ok(count)
}
