//! The bytes of an input that arrived so far, from an offset on.
ghost use Rattle.std.specs.Prelude.{◌≡◌, ◌+◌, ◌≤◌, length, nat_le};
ghost use Rattle.imagesize_source.specs.Text.{delimits};
ghost use Rattle.imagesize_pieces.specs.Stream.{known_of, run_at};

use imagesize_source::Text;
use imagesize_source::part::bytes_behind;
use imagesize_source::source::known::{Known, Missing};
use imagesize_source::source::parts::put;

// The proofs read each missing byte as this value. A text that it does not end goes on as far as the read requests.
const FILLER: u8 = 1;

/// The bytes from an offset on: the kept ones, and those of the next chunk after them. The input may have more.
#[derive(Drop)]
pub struct Arrived<'a> {
    /// The offset of the first byte.
    pub start: u64,
    /// The bytes that were kept.
    pub kept: &'a [u8],
    /// The bytes after the kept ones.
    pub chunk: &'a [u8],
    /// The length of the input in bytes.
    pub told: u64,
    ghost within: { start + length kept.now + length chunk.now ≤ told },
}

impl Known for Arrived<'_> {
    ghost content = { λ s. known_of s.told s.start s.kept.now s.chunk.now };

    ghost near = { λ s offset. run_at s.start s.kept.now s.chunk.now offset };

    // A text that misses a byte before `start` may end among the bytes after it.
    ghost certain = { λ s offset. nat_le s.start offset };

    #[inline(always)]
    fn told(&self) -> u64 {
        self.told
    }

    // The slice ends with the kept bytes, or with the chunk.
    #[inline(always)]
    #[tactic(auto, using(crate::proofs::Streaming::kept_known, crate::proofs::Streaming::chunk_known))]
    fn near(&self, offset: u64) -> &[u8] {
        if offset < self.start {
            return &self.kept[..0];
        }
        let index = offset - self.start;
        let kept = self.kept.len() as u64;
        if index < kept {
            return &self.kept[index as usize..];
        }
        bytes_behind(self.chunk, index - kept)
    }

    #[inline(always)]
    #[tactic(auto, using(crate::proofs::Streaming::last_none))]
    fn ends_near(&self, offset: u64) -> bool {
        if offset < self.start {
            return false;
        }
        offset - self.start >= self.kept.len() as u64
    }

    #[tactic(auto, using(imagesize_source::proofs::Parts::part_none))]
    fn gather(&mut self, offset: u64, buffer: &mut [u8]) -> usize {
        let first = self.near(offset);
        // Most records that miss a byte begin after the known ones. This saves a call that copies nothing.
        if first.is_empty() {
            return 0;
        }
        let count = put(first, buffer, 0);
        if count == buffer.len() {
            return count;
        }
        // The copied bytes are the last kept ones. The read goes on in the chunk.
        count + put(self.near(offset + count as u64), buffer, count)
    }

    #[inline(always)]
    fn missed_text(&self, text: Text, offset: u64, found: usize, left: usize) -> Missing {
        let start = offset + found as u64;
        let left = left as u64;
        if ends_with_filler(text) {
            return Missing {
                start,
                sure: 1,
                most: 1,
            };
        }
        if offset < self.start {
            return Missing {
                start,
                sure: 1,
                most: left,
            };
        }
        Missing {
            start,
            sure: left,
            most: left,
        }
    }
}

// Whether `FILLER` ends the text. No format has such a text.
#[inline(always)]
fn ends_with_filler(text: Text) -> bool
    ensures { result ≡ delimits text 1 }
{
    match text {
        Text::Line { delimiter } => delimiter == FILLER,
        Text::Word => false,
    }
}
