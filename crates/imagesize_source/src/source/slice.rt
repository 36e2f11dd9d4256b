//! A slice as a source. It reads nothing from a reader, and no read fails.
ghost use Rattle.std.specs.Prelude.{◌≡◌, ◌<◌, ◌-◌, ◌^◌, length};
ghost use Rattle.imagesize_source.specs.State.{slice_state};

use super::Source;
use super::held::{Claims, Counts};
use crate::part::{copy_part, copy_text_at};
use crate::{Halt, ImageError, Reason, Text};

/// A slice that is read at offsets.
#[derive(Clone, Copy, Debug)]
pub struct SliceSource<'a> {
    pub bytes: &'a [u8],
    ghost short: { length bytes.now < 2 ^ 63 },
}

impl<'a> SliceSource<'a> {
    /// A source of these bytes.
    #[inline(always)]
    pub fn new(bytes: &'a [u8]) -> Self
        ensures { result.bytes.now ≡ bytes.now }
    {
        // The proof needs that the length is below 2^63.
        let _length = bytes.len();
        SliceSource { bytes }
    }
}

impl Claims for SliceSource<'_> {}

impl Source for SliceSource<'_> {
    ghost state = { λ s. slice_state s.bytes.now };

    #[inline(always)]
    fn told(&self) -> u64 {
        self.bytes.len() as u64
    }

    #[inline(always)]
    fn taken(&self) -> u64 {
        0
    }

    #[inline(always)]
    fn refusal(&self, halt: Halt) -> ImageError {
        halt.error(Reason::EndOfInput, 0)
    }

    #[inline(always)]
    fn glance(&self, offset: u64) -> Option<[u8; 4]> {
        let mut four = [0; 4];
        if copy_part(self.bytes, offset, &mut four) < 4 {
            return None;
        }
        Some(four)
    }

    // It shows no bytes.
    #[inline(always)]
    fn pass(&mut self, _counts: Counts) {}

    #[inline(always)]
    fn read_at(&mut self, offset: u64, buffer: &mut [u8]) -> Result<usize, Halt> {
        Ok(copy_part(self.bytes, offset, buffer))
    }

    // Inlined, so that the compiler knows whether the text is a line or a word.
    #[inline(always)]
    fn read_text(&mut self, offset: u64, text: Text, buffer: &mut [u8]) -> Result<usize, Halt> {
        Ok(copy_text_at(self.bytes, offset, text, buffer))
    }
}
