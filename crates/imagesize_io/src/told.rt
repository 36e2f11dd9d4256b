//! Readers, and the models that they may have.
ghost use Rattle.std.specs.Prelude.{◌≡◌, ℕ, ◌≤◌, length, Option, Some, None, false, ◌<◌, ◌^◌, IfOk, IfErr, IfSome, IsSome, Ok};
ghost use Rattle.std.specs.Io.Buffered.{reader_buffer, reader_inner, reader_position, reader_remaining};
ghost use Rattle.std.specs.Io.Cursor.{cursor_inner, cursor_position};
ghost use Rattle.std.specs.Io.KnownBytes.{ReadConsumes};
ghost use Rattle.std.specs.Io.Seek.{SeekMoves, IsAtOffset};
ghost use Rattle.std.specs.declared.io.Error.{Error};
ghost use Rattle.imagesize_io.specs.Held.{Holds};
ghost use Rattle.imagesize_io.specs.Memory.{IsMemory};
ghost use Rattle.imagesize_io.specs.Telling.{Telling, ReadTells, SeekTells, count_after, failure_after, failure_after_read};
ghost use Rattle.imagesize_io.specs.StopOf.{stop_of};

use imagesize_source::part::{copy_front, copy_part};
use std::io::{self, BufRead, BufReader, Cursor, ErrorKind, Read, Seek, SeekFrom};

/// Why a read gave no bytes.
#[derive(Debug, Drop)]
pub enum Stop {
    /// The read was interrupted, and may be tried again.
    Interrupted(io::Error),
    /// The read failed in any other way.
    Fault(io::Error),
}

impl From<io::Error> for Stop {
    ghost from_gives = { λ e stop. stop ≡ stop_of e };

    fn from(error: io::Error) -> Stop {
        if error.kind() == ErrorKind::Interrupted {
            Stop::Interrupted(error)
        } else {
            Stop::Fault(error)
        }
    }
}

/// A reader whose calls do what `read` and `seek` do. It may have a model, and then the contracts state its bytes and its
/// offset.
pub trait Told: Drop {
    /// The model: the bytes, the offset, whether a call can fail, and how many reads may still be interrupted. `None` without
    /// one.
    ghost telling: { Self → Option Telling };

    /// How many bytes the reader has given. `None` if it does not count them.
    ghost count: { Self → Option ℕ };

    /// The error of the last call that failed, including interruptions, or that none has failed. `None` if the reader keeps
    /// no error.
    ghost failure: { Self → Option (Option Error) };

    /// Reads into the buffer, and returns how many bytes were read.
    fn read_told(&mut self, buffer: &mut [u8]) -> Result<usize, Stop>
        ensures bound { IfOk result (λ n. n ≤ length buffer.new) }
        ensures told { ReadTells (telling self.old) (telling self.new) buffer.new result }
        ensures counts { count self.new ≡ count_after (count self.old) result }
        ensures fails { failure self.new ≡ failure_after_read (failure self.old) result };

    /// The bytes that the reader holds from its offset on. A read of them needs no call of the reader. This call may always
    /// return no bytes. A reader that counts the bytes it gives returns none.
    #[inline(always)]
    fn held(&self) -> &[u8]
        ensures told { Holds (telling self.now) result.now }
        ensures counts { 0 < length result.now → count self.now ≡ None }
    {
        &[]
    }

    /// All bytes of the reader, if they lie in memory. No call of such a reader fails or is interrupted, and it keeps no count
    /// and no error. This call may always return `None`.
    #[inline(always)]
    fn in_memory(&self) -> Option<&[u8]>
        ensures told { IfSome result (λ bytes. IsMemory (telling self.now) bytes.now) }
        ensures counts { IfSome result (λ _. count self.now ≡ None) }
        ensures fails { IfSome result (λ _. failure self.now ≡ None) }
    {
        None
    }

    /// Seeks, and returns the new offset in bytes from 0.
    fn seek_told(&mut self, to: SeekFrom) -> io::Result<u64>
        ensures told { SeekTells (telling self.old) (telling self.new) to result }
        ensures counts { count self.new ≡ count self.old }
        ensures fails { failure self.new ≡ failure_after (failure self.old) result };
}

/// A cursor over bytes has a model of its bytes and its offset. It cannot fail and is never interrupted. It counts no bytes,
/// and keeps no error of a seek to an invalid offset.
impl Told for Cursor<&[u8]> {
    ghost telling = { λ c. Some (record {
      bytes = (cursor_inner c).now;
      offset = cursor_position c;
      can_fail = false;
      interruptions = 0;
    }) };

    ghost count = { λ _. None };

    ghost failure = { λ _. None };

    #[inline(always)]
    fn read_told(&mut self, buffer: &mut [u8]) -> Result<usize, Stop> {
        let bytes = *self.get_ref();
        let offset = self.position();
        let count = copy_part(bytes, offset, buffer);
        self.set_position(offset + count as u64);
        Ok(count)
    }

    #[inline(always)]
    fn held(&self) -> &[u8] {
        let bytes = *self.get_ref();
        &bytes[bytes.len().min(self.position() as usize)..]
    }

    // A call then reads the bytes where they lie, and makes no call of the cursor for each read.
    #[inline(always)]
    fn in_memory(&self) -> Option<&[u8]> {
        Some(*self.get_ref())
    }

    #[inline(always)]
    fn seek_told(&mut self, to: SeekFrom) -> io::Result<u64> {
        // The proof needs that the offset and the length are below 2^64.
        let offset = self.position();
        let length = self.get_ref().len() as u64;
        let target = match to {
            SeekFrom::Start(target) => target,
            SeekFrom::Current(0) => offset,
            SeekFrom::End(0) => length,
            _ => return self.seek(to),
        };
        self.set_position(target);
        Ok(target)
    }
}

/// A buffered reader has no model. Its reads and seeks return what those of `BufReader` return, and a seek within the buffer
/// keeps the buffer.
impl<R: Read + Seek + Drop> Told for BufReader<R> {
    ghost telling = { λ _. None };

    ghost count = { λ _. None };

    ghost failure = { λ _. None };

    #[inline(always)]
    fn read_told(&mut self, buffer: &mut [u8]) -> Result<usize, Stop>
        ensures bound { IfOk result (λ n. n ≤ length buffer.new) }
        ensures stops { IfErr result (λ stop. (e : Error) × (stop ≡ stop_of e)) }
        ensures reads { ReadConsumes (reader_remaining R.remaining self.old) (reader_remaining R.remaining self.new) result buffer.new }
    {
        // Most reads are of a few bytes that the reader holds. For them this saves the call of `read`, whose result has room for an
        // error.
        let count = buffer.len();
        let held = self.buffer();
        if count > 0 && count <= held.len() {
            copy_front(held, count, buffer);
            self.consume(count);
            return Ok(count);
        }
        let count = read_unheld(self, buffer)?;
        Ok(count)
    }

    #[inline(always)]
    fn held(&self) -> &[u8]
        ensures { result.now ≡ reader_buffer self.now }
    {
        self.buffer()
    }

    // Inlined, so that no result with room for an error is built.
    #[inline(always)]
    fn seek_told(&mut self, to: SeekFrom) -> io::Result<u64>
        ensures seeks { SeekMoves (reader_position R.stream_position self.old) (reader_position R.stream_position self.new)
            (R.stream_bytes (reader_inner self.old)) to result }
    {
        match to {
            SeekFrom::Start(target) => seek_kept(self, target),
            SeekFrom::Current(0) => self.stream_position(),
            _ => self.seek(to),
        }
    }
}

// A read that the buffer does not hold as a whole. Not inlined, since few reads get here.
#[inline(never)]
fn read_unheld<R: Read>(reader: &mut BufReader<R>, buffer: &mut [u8]) -> Result<usize, Stop>
    ensures bound { IfOk result (λ n. n ≤ length buffer.new) }
    ensures stops { IfErr result (λ stop. (e : Error) × (stop ≡ stop_of e)) }
    ensures reads { ReadConsumes (reader_remaining R.remaining reader.old) (reader_remaining R.remaining reader.new) result buffer.new }
{
    let count = reader.read(buffer)?;
    Ok(count)
}

// Seeks to an offset, and keeps the buffer if it has that offset.
fn seek_kept<R: Read + Seek>(reader: &mut BufReader<R>, target: u64) -> io::Result<u64>
    ensures { SeekMoves (reader_position R.stream_position reader.old) (reader_position R.stream_position reader.new)
        (R.stream_bytes (reader_inner reader.old)) (SeekFrom.Start target) result }
{
    let offset = reader.stream_position()?;
    match distance(offset, target) {
        Some(distance) => {
            reader.seek_relative(distance)?;
            Ok(target)
        }
        None => reader.seek(SeekFrom::Start(target)),
    }
}

// The signed distance from one offset to another, if both are below 2^63.
fn distance(from: u64, to: u64) -> Option<i64>
    ensures offset { IfSome result (λ offset. IsAtOffset from offset to) }
    ensures known { from < 2 ^ 63 → to < 2 ^ 63 → IsSome result }
{
    let from = i64::try_from(from).ok()?;
    let to = i64::try_from(to).ok()?;
    to.checked_sub(from)
}
