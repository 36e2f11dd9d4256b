//! A check of uploads: an image is admitted if it has few enough pixels.
ghost use Rattle.std.specs.Prelude.{◌≡◌, ◌*◌, ◌+◌, ◌-◌, ◌^◌, ◌<◌, ◌≤◌, ◌||◌, IfOk, IsErr, None, Some, is_none, length, nat_eq, option_map, take, true};
ghost use Rattle.imagesize_io.specs.Answers.{Leaves, LeavesAt};
ghost use Rattle.imagesize.specs.Meaning.{meaning};
ghost use Rattle.imagesize_io.specs.Telling.{ReadTells, SeekTells, count_after, failure_after, failure_after_read, may_fail};
ghost use Rattle.imagesize_uses.specs.Gate.{Admits, Decides, IfTooLarge, IsFaultOf, gate_verdict, limit_of, limited_count, limited_failure};

use imagesize::{ImageError, ImageResult, ImageSize, Stop, Told, reader_probe};
use imagesize_io::reader::ALLOWANCE;
use imagesize_types::size::area;
use std::io::{self, SeekFrom};

/// Why an image is not admitted.
#[derive(Debug, Drop)]
pub enum Rejection {
    /// The image has this size, which is too many pixels.
    TooLarge(ImageSize),
    /// No size was found, for this reason.
    NoSize(ImageError),
}

/// The result of the check.
#[derive(Debug, Drop)]
pub struct Admission {
    /// The size in pixels of the admitted image, or why none is admitted.
    pub verdict: Result<ImageSize, Rejection>,
    /// How many bytes were read from the reader.
    pub taken: u64,
}

/// Admits the image in a reader's bytes if its size has at most `most_pixels` pixels.
///
/// Afterwards the reader may be used again. It is left as `reader_probe` leaves it.
pub fn admit<R: Told>(reader: &mut R, most_pixels: u64) -> Admission
    ensures admits { Admits (R.telling reader.old) most_pixels result }

    // For every reader, even one that reports a wrong length:
    ensures few { IfOk result.verdict (λ size. size.width * size.height ≤ most_pixels) }
    ensures many { IfTooLarge result.verdict (λ size. most_pixels < size.width * size.height) }
    ensures counts { R.count reader.new ≡ option_map (λ c. c + result.taken) (R.count reader.old) }
    ensures fault { IsFaultOf (R.failure reader.new) result.verdict }
    ensures leaves { Leaves (R.telling reader.old) (R.telling reader.new) }

    // An honest reader that cannot fail is left where the last read ended that gave a byte past the kept ones. If no read gave one,
    // it is left at its end.
    ensures offset { LeavesAt (R.telling reader.old) (R.telling reader.new) meaning }
{
    let probed = reader_probe(reader);
    Admission {
        verdict: judge(probed.answer, most_pixels),
        taken: probed.taken,
    }
}

/// The verdict on a size, or on its error.
pub(crate) fn judge(
    answer: ImageResult<ImageSize>,
    most_pixels: u64,
) -> Result<ImageSize, Rejection>
    ensures { result ≡ gate_verdict most_pixels answer }
{
    match answer {
        Ok(size) if area(&size) <= most_pixels as u128 => Ok(size),
        Ok(size) => Err(Rejection::TooLarge(size)),
        Err(error) => Err(Rejection::NoSize(error)),
    }
}

/// Gives what another reader gives, up to a number of bytes: each read past them is a fault.
#[derive(Drop)]
pub struct Limited<'a, R: Told> {
    /// The other reader.
    pub reader: &'a mut R,
    /// How many bytes may still be read.
    pub left: u64,
    /// The error of the last call that failed, if that was a read past the limit.
    pub spent: Option<io::Error>,
    pub ghost short: { left < 2 ^ 64 },
    pub ghost ends: { is_none spent || nat_eq left 0 ≡ true },
}

impl<R: Told> Told for Limited<'_, R> {
    ghost telling = { λ r. may_fail (R.telling r.reader.now) };

    // It rises as `left` falls, so no call gives more bytes than were left. It also has the count of the other reader.
    ghost count = { λ r. limited_count r.reader.ghost_name (R.count r.reader.now) r.left };

    ghost failure = { λ r. limited_failure r.spent (R.failure r.reader.now) };

    fn read_told(&mut self, buffer: &mut [u8]) -> Result<usize, Stop>
        ensures bound { IfOk result (λ n. n ≤ length buffer.new) }
        ensures told { ReadTells (may_fail (R.telling self.old.reader.now)) (may_fail (R.telling self.new.reader.now)) buffer.new result }
        ensures counts { limited_count self.new.reader.ghost_name (R.count self.new.reader.now) self.new.left
            ≡ count_after (limited_count self.old.reader.ghost_name (R.count self.old.reader.now) self.old.left) result }
        ensures fails { limited_failure self.new.spent (R.failure self.new.reader.now)
            ≡ failure_after_read (limited_failure self.old.spent (R.failure self.old.reader.now)) result }
        // Before the limit, a read makes one read of the other reader, of at most `left` bytes, and fails only if that one
        // does.
        ensures below { 0 < self.old.left → ReadTells (R.telling self.old.reader.now) (R.telling self.new.reader.now)
            (take self.old.left buffer.new) result }
        ensures last { 0 < self.old.left → R.failure self.new.reader.now ≡ failure_after_read (R.failure self.old.reader.now) result }
        ensures ends { self.old.left ≡ 0 → IsErr result }
    {
        if self.left == 0 {
            let error = io::Error::other("no more bytes may be taken");
            self.spent = Some(error);
            return Err(Stop::Fault(error));
        }
        let most = buffer.len().min(self.left as usize);
        let given = self.reader.read_told(&mut buffer[..most])?;
        self.left -= given as u64;
        Ok(given)
    }

    fn seek_told(&mut self, to: SeekFrom) -> io::Result<u64>
        ensures told { SeekTells (may_fail (R.telling self.old.reader.now)) (may_fail (R.telling self.new.reader.now)) to result }
        ensures counts { limited_count self.new.reader.ghost_name (R.count self.new.reader.now) self.new.left
            ≡ limited_count self.old.reader.ghost_name (R.count self.old.reader.now) self.old.left }
        ensures fails { limited_failure self.new.spent (R.failure self.new.reader.now)
            ≡ failure_after (limited_failure self.old.spent (R.failure self.old.reader.now)) result }
        ensures below { SeekTells (R.telling self.old.reader.now) (R.telling self.new.reader.now) to result }
    {
        let offset = self.reader.seek_told(to);
        if offset.is_err() {
            self.spent = None;
        }
        offset
    }
}

/// Works like `admit`, for an upload that should have this length. It reads at most 64 bytes more, whatever the reader does.
/// If the reader reports a greater length and the size needs more bytes than that, the error is a fault.
pub fn admit_within<R: Told>(reader: &mut R, length: u64, most_pixels: u64) -> Admission
    ensures admits { Admits (may_fail (R.telling reader.old)) most_pixels result }

    // For every reader, even one that reports a wrong length:
    ensures few { IfOk result.verdict (λ size. size.width * size.height ≤ most_pixels) }
    ensures many { IfTooLarge result.verdict (λ size. most_pixels < size.width * size.height) }
    ensures counts { R.count reader.new ≡ option_map (λ c. c + result.taken) (R.count reader.old) }
    ensures limit { result.taken ≤ limit_of length }

    // Below the limit a fault is the reader's own, and without a fault the image is judged.
    ensures fault { result.taken < limit_of length → IsFaultOf (R.failure reader.new) result.verdict }
    ensures whole { Decides (R.telling reader.old) (R.failure reader.new) (limit_of length) most_pixels result }
{
    let mut limited = Limited {
        reader,
        left: length.saturating_add(ALLOWANCE),
        spent: None,
    };
    admit(&mut limited, most_pixels)
}
