//! A custom reader: over two slices, one after the other.
ghost use Rattle.std.specs.Prelude.{◌≡◌, ℕ, ◌+◌, ◌-◌, ◌++◌, ◌<◌, ◌≤◌, ◌^◌, min, length, take, Some, None, false};
ghost use Rattle.imagesize.specs.Meaning.{meaning};
ghost use Rattle.imagesize_source.specs.Input.{part};

use imagesize::{ImageResult, ImageSize, Stop, Told, reader_size};
use std::io::{self, ErrorKind, SeekFrom};

/// Two slices as one input, which is read without a copy.
#[derive(Drop)]
pub struct Joined<'a> {
    first: &'a [u8],
    second: &'a [u8],
    offset: usize,
    ghost short: { length first.now + length second.now < 2 ^ 63 },
    ghost within: { offset ≤ length first.now + length second.now },
}

impl<'a> Joined<'a> {
    /// The bytes of both, read from the first one on.
    pub fn new(first: &'a [u8], second: &'a [u8]) -> Joined<'a>
        requires { length first.now + length second.now < 2 ^ 63 }
        ensures first { result.first ≡ first.entry }
        ensures second { result.second ≡ second.entry }
        ensures offset { result.offset ≡ 0 }
    {
        Joined {
            first,
            second,
            offset: 0,
        }
    }
}

/// Its model is the bytes of both and its offset. It cannot fail, is never interrupted and counts nothing. A read ends where
/// the first slice does.
impl Told for Joined<'_> {
    ghost telling = { λ r. Some (record {
      bytes = r.first.now ++ r.second.now;
      offset = r.offset;
      can_fail = false;
      interruptions = 0;
    }) };

    ghost count = { λ _. None };

    ghost failure = { λ _. None };

    fn read_told(&mut self, buffer: &mut [u8]) -> Result<usize, Stop> {
        let count = copy_front(rest_of(self.first, self.second, self.offset), buffer);
        self.offset += count;
        Ok(count)
    }

    fn seek_told(&mut self, to: SeekFrom) -> io::Result<u64> {
        let end = self.first.len() + self.second.len();
        let offset = match to {
            SeekFrom::Start(offset) => (offset as usize).min(end),
            SeekFrom::End(0) => end,
            SeekFrom::Current(0) => self.offset,
            _ => return Err(io::Error::from(ErrorKind::InvalidInput)),
        };
        self.offset = offset;
        Ok(offset as u64)
    }
}

// The bytes of two slices from an offset on, up to the end of the slice that has this offset.
#[tactic(auto, using(crate::proofs::Joins::in_first, crate::proofs::Joins::in_second))]
fn rest_of<'a>(first: &'a [u8], second: &'a [u8], offset: usize) -> &'a [u8]
    requires { offset ≤ length first.now + length second.now }
    ensures bytes { (n : ℕ) → n ≤ length result.now → take n result.now ≡ part (first.now ++ second.now) offset n }
    ensures fits { length result.now ≤ length first.now + length second.now - offset }
    ensures some { offset < length first.now + length second.now → 0 < length result.now }
{
    if offset < first.len() {
        &first[offset..]
    } else {
        &second[offset - first.len()..]
    }
}

/// Copies the first bytes into the buffer, and returns how many that is.
pub(crate) fn copy_front(bytes: &[u8], buffer: &mut [u8]) -> usize
    ensures count { result ≡ min (length buffer.old) (length bytes.now) }
    ensures copied { take result buffer.new ≡ take result bytes.now }
{
    let count = buffer.len().min(bytes.len());
    buffer[..count].copy_from_slice(&bytes[..count]);
    count
}

/// The size in pixels of the image whose bytes are in two slices, one after the other.
///
/// Errors: those of `imagesize::blob_size`.
pub fn joined_size(first: &[u8], second: &[u8]) -> ImageResult<ImageSize>
    requires { length first.now + length second.now < 2 ^ 63 }
    ensures { result ≡ (meaning (first.now ++ second.now) 0).answer }
{
    reader_size(Joined::new(first, second))
}
