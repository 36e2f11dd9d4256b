//! The bytes of a reader in memory, as a source.
ghost use Rattle.imagesize_source.specs.State.{slice_state};

use imagesize_source::source::Source;
use imagesize_source::source::held::{Claims, Counts};
use imagesize_source::source::slice::SliceSource;
use imagesize_source::{Halt, ImageError, Text};

/// The bytes of a reader in memory, read where they lie. It is a slice as a source, and keeps neither a count nor an offset.
///
/// It is a type of its own: the compiler makes a copy of the formats for it, and still inlines the copy for slices.
#[derive(Clone, Copy, Debug)]
pub struct MemorySource<'a> {
    pub slice: SliceSource<'a>,
}

impl Claims for MemorySource<'_> {}

impl Source for MemorySource<'_> {
    ghost state = { λ s. slice_state s.slice.bytes.now };

    #[inline(always)]
    fn told(&self) -> u64 {
        self.slice.told()
    }

    #[inline(always)]
    fn taken(&self) -> u64 {
        self.slice.taken()
    }

    #[inline(always)]
    fn refusal(&self, halt: Halt) -> ImageError {
        self.slice.refusal(halt)
    }

    #[inline(always)]
    fn glance(&self, offset: u64) -> Option<[u8; 4]> {
        self.slice.glance(offset)
    }

    // It shows no bytes.
    #[inline(always)]
    fn pass(&mut self, _counts: Counts) {}

    #[inline(always)]
    fn read_at(&mut self, offset: u64, buffer: &mut [u8]) -> Result<usize, Halt> {
        self.slice.read_at(offset, buffer)
    }

    // Inlined, so that the compiler knows whether the text is a line or a word.
    #[inline(always)]
    fn read_text(&mut self, offset: u64, text: Text, buffer: &mut [u8]) -> Result<usize, Halt> {
        self.slice.read_text(offset, text, buffer)
    }
}
