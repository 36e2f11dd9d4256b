//! Readers that do what files rarely do.
ghost use Rattle.std.specs.Prelude.{◌≡◌, ◌≢◌, ℕ, pos, zero, ◌+◌, ◌-◌, ◌%◌, ◌^◌, ◌<◌, ◌≤◌, min, length, slice_get, Option, None, Some, Ok, Err, IfOk, IfErr, true, false, not};
ghost use Rattle.std.specs.Io.Cursor.{cursor_inner, cursor_position};
ghost use Rattle.std.specs.declared.io.Error.{Error};
ghost use Rattle.imagesize_io.specs.Telling.{ReadTells, SeekTells, count_after, failure_after, failure_after_read, may_fail};
ghost use Rattle.imagesize_readers.specs.Readers.{interrupted_more, halting_telling, StandsAt, StandsAtEnd, failure_at, left_after};

use imagesize_io::{Stop, Told};
use std::io::{self, Cursor, ErrorKind, SeekFrom};

/// Gives what another reader gives, in pieces of the listed lengths, over and over.
#[derive(Drop)]
pub struct Cutting<'a, R: Told> {
    /// The other reader.
    pub reader: R,
    /// How many bytes each read gives at most; one for a length of 0.
    pub lengths: &'a [usize],
    /// The index of the next length. After the last one a read gives one byte.
    pub next: usize,
}

impl<R: Told> Cutting<'static, R> {
    /// Gives what another reader gives, one byte per read.
    pub fn one_byte(reader: R) -> Self
        ensures reader { result.reader ≡ reader }
        ensures lengths { length result.lengths.now ≡ 0 }
    {
        Cutting {
            reader,
            lengths: &[],
            next: 0,
        }
    }
}

impl<R: Told> Told for Cutting<'_, R> {
    ghost telling = { λ r. R.telling r.reader };

    ghost count = { λ r. R.count r.reader };

    ghost failure = { λ r. R.failure r.reader };

    fn read_told(&mut self, buffer: &mut [u8]) -> Result<usize, Stop>
        ensures bound { IfOk result (λ n. n ≤ length buffer.new) }
        ensures told { ReadTells (R.telling self.old.reader) (R.telling self.new.reader) buffer.new result }
        ensures counts { R.count self.new.reader ≡ count_after (R.count self.old.reader) result }
        ensures fails { R.failure self.new.reader ≡ failure_after_read (R.failure self.old.reader) result }
        ensures cuts { (most : ℕ) → slice_get self.old.lengths.now self.old.next ≡ Some most → 0 < most
            → IfOk result (λ n. n ≤ most) }
        ensures one { slice_get self.old.lengths.now self.old.next ≡ None → IfOk result (λ n. n ≤ 1) }
    {
        let most = match self.lengths.get(self.next) {
            Some(length) => {
                self.next = self.next.saturating_add(1);
                buffer.len().min((*length).max(1))
            }
            None => {
                self.next = 0;
                buffer.len().min(1)
            }
        };
        self.reader.read_told(&mut buffer[..most])
    }

    fn seek_told(&mut self, to: SeekFrom) -> io::Result<u64> {
        self.reader.seek_told(to)
    }
}

/// Gives what another reader gives, and counts its bytes.
#[derive(Drop)]
pub struct Counting<'a, R: Told> {
    /// The other reader.
    pub reader: R,
    /// How many bytes were given. A read that would overflow the count is a fault.
    pub count: &'a mut u64,
}

impl<'a, R: Told> Counting<'a, R> {
    /// Gives what another reader gives, and adds the number of its bytes to this count.
    pub fn new(reader: R, count: &'a mut u64) -> Self
        ensures reader { result.reader ≡ reader }
        ensures count { result.count ≡ count.entry }
    {
        Counting { reader, count }
    }
}

impl<R: Told> Told for Counting<'_, R> {
    ghost telling = { λ r. may_fail (R.telling r.reader) };

    ghost count = { λ r. Some r.count.now };

    ghost failure = { λ _. None };

    fn read_told(&mut self, buffer: &mut [u8]) -> Result<usize, Stop>
        ensures bound { IfOk result (λ n. n ≤ length buffer.new) }
        ensures told { ReadTells (may_fail (R.telling self.old.reader)) (may_fail (R.telling self.new.reader)) buffer.new result }
        ensures counts { ◌≡◌ {A = Option ℕ} (Some self.new.count.now) (count_after (Some self.old.count.now) result) }
        ensures gives { self.old.count.now + length buffer.old < 2 ^ 64
            → ReadTells (R.telling self.old.reader) (R.telling self.new.reader) buffer.new result }
    {
        let given = self.reader.read_told(buffer)?;
        match self.count.checked_add(given as u64) {
            Some(count) => {
                *self.count = count;
                Ok(given)
            }
            None => Err(Stop::Fault(io::Error::other("the count is full"))),
        }
    }

    fn seek_told(&mut self, to: SeekFrom) -> io::Result<u64>
        ensures told { SeekTells (may_fail (R.telling self.old.reader)) (may_fail (R.telling self.new.reader)) to result }
        ensures counts { ◌≡◌ {A = Option ℕ} (Some self.new.count.now) (Some self.old.count.now) }
        ensures goes { SeekTells (R.telling self.old.reader) (R.telling self.new.reader) to result }
    {
        self.reader.seek_told(to)
    }
}

/// Gives what another reader gives, and counts its calls.
#[derive(Drop)]
pub struct Calls<'a, R: Told> {
    /// The other reader.
    pub reader: R,
    /// How many reads were made, and how many seeks.
    pub made: &'a mut (u32, u32),
}

impl<'a, R: Told> Calls<'a, R> {
    /// Gives what another reader gives, and adds its reads and its seeks to these numbers.
    pub fn new(reader: R, made: &'a mut (u32, u32)) -> Self
        ensures reader { result.reader ≡ reader }
        ensures made { result.made ≡ made.entry }
    {
        Calls { reader, made }
    }
}

impl<R: Told> Told for Calls<'_, R> {
    ghost telling = { λ r. R.telling r.reader };

    ghost count = { λ r. R.count r.reader };

    ghost failure = { λ r. R.failure r.reader };

    fn read_told(&mut self, buffer: &mut [u8]) -> Result<usize, Stop>
        ensures bound { IfOk result (λ n. n ≤ length buffer.new) }
        ensures told { ReadTells (R.telling self.old.reader) (R.telling self.new.reader) buffer.new result }
        ensures counts { R.count self.new.reader ≡ count_after (R.count self.old.reader) result }
        ensures fails { R.failure self.new.reader ≡ failure_after_read (R.failure self.old.reader) result }
        ensures made { self.new.made.now ≡ (min (self.old.made.now.0 + 1) u32.MAX, self.old.made.now.1) }
    {
        self.made.0 = self.made.0.saturating_add(1);
        self.reader.read_told(buffer)
    }

    fn seek_told(&mut self, to: SeekFrom) -> io::Result<u64>
        ensures told { SeekTells (R.telling self.old.reader) (R.telling self.new.reader) to result }
        ensures counts { R.count self.new.reader ≡ R.count self.old.reader }
        ensures fails { R.failure self.new.reader ≡ failure_after (R.failure self.old.reader) result }
        ensures made { self.new.made.now ≡ (self.old.made.now.0, min (self.old.made.now.1 + 1) u32.MAX) }
    {
        self.made.1 = self.made.1.saturating_add(1);
        self.reader.seek_told(to)
    }
}

/// Gives what another reader gives, after some reads were interrupted.
#[derive(Drop)]
pub struct Interrupted<R: Told> {
    /// The other reader.
    pub reader: R,
    /// How many reads are still interrupted.
    pub left: u64,
    /// The error of an interrupted read.
    pub error: io::Error,
}

impl<R: Told> Told for Interrupted<R> {
    ghost telling = { λ r. interrupted_more r.left (R.telling r.reader) };

    ghost count = { λ r. R.count r.reader };

    ghost failure = { λ _. None };

    fn read_told(&mut self, buffer: &mut [u8]) -> Result<usize, Stop>
        ensures bound { IfOk result (λ n. n ≤ length buffer.new) }
        ensures told { ReadTells (interrupted_more self.old.left (R.telling self.old.reader))
            (interrupted_more self.new.left (R.telling self.new.reader)) buffer.new result }
        ensures counts { R.count self.new.reader ≡ count_after (R.count self.old.reader) result }
        ensures interrupts { 0 < self.old.left → result ≡ Err (Stop.Interrupted self.old.error) }
    {
        if self.left > 0 {
            self.left -= 1;
            return Err(Stop::Interrupted(self.error));
        }
        self.reader.read_told(buffer)
    }

    fn seek_told(&mut self, to: SeekFrom) -> io::Result<u64> {
        self.reader.seek_told(to)
    }
}

/// A cursor that interrupts every second read, until the last interruption.
#[derive(Drop)]
pub struct Halting<'a> {
    /// The cursor, with the error of its interrupted reads.
    pub reader: Interrupted<Cursor<&'a [u8]>>,
    /// Whether the next read is interrupted.
    pub halts: bool,
}

impl Told for Halting<'_> {
    ghost telling = { λ r. halting_telling (cursor_inner r.reader.reader).now (cursor_position r.reader.reader) r.reader.left };

    ghost count = { λ _. None };

    ghost failure = { λ _. None };

    fn read_told(&mut self, buffer: &mut [u8]) -> Result<usize, Stop>
        ensures bound { IfOk result (λ n. n ≤ length buffer.new) }
        ensures told { ReadTells
            (halting_telling (cursor_inner self.old.reader.reader).now (cursor_position self.old.reader.reader) self.old.reader.left)
            (halting_telling (cursor_inner self.new.reader.reader).now (cursor_position self.new.reader.reader) self.new.reader.left)
            buffer.new result }
        ensures counts { ◌≡◌ {A = Option ℕ} None (count_after None result) }
        ensures interrupts { 0 < self.old.reader.left → self.old.halts ≡ true → result ≡ Err (Stop.Interrupted self.old.reader.error) }
        ensures turns { 0 < self.old.reader.left → self.new.halts ≡ not self.old.halts }
    {
        let halts = self.halts;
        self.halts = !halts;
        if halts {
            return self.reader.read_told(buffer);
        }
        self.reader.reader.read_told(buffer)
    }

    fn seek_told(&mut self, to: SeekFrom) -> io::Result<u64> {
        self.reader.seek_told(to)
    }
}

/// Does what another reader does, until one read or seek fails. Later calls succeed again.
#[derive(Drop)]
pub struct Failing<R: Told> {
    /// The other reader.
    pub reader: R,
    /// How many reads and seeks succeed before one fails; `None` after that.
    pub left: Option<u64>,
    /// The error of the call that fails.
    pub error: io::Error,
    /// The error of the last call that failed, of this reader or of the other one.
    pub last: Option<io::Error>,
}

impl<R: Told> Failing<R> {
    // Fails if it is time to.
    fn step(&mut self) -> io::Result<()>
        ensures fails { result ≡ failure_at self.old.left self.old.error }
        ensures keeps { self.new ≡ record self.old { left = left_after self.old.left } }
    {
        match self.left {
            None => Ok(()),
            Some(0) => {
                self.left = None;
                Err(self.error)
            }
            Some(left) => {
                self.left = Some(left - 1);
                Ok(())
            }
        }
    }
}

impl<R: Told> Told for Failing<R> {
    ghost telling = { λ r. may_fail (R.telling r.reader) };

    ghost count = { λ r. R.count r.reader };

    ghost failure = { λ r. Some r.last };

    fn read_told(&mut self, buffer: &mut [u8]) -> Result<usize, Stop>
        ensures bound { IfOk result (λ n. n ≤ length buffer.new) }
        ensures told { ReadTells (may_fail (R.telling self.old.reader)) (may_fail (R.telling self.new.reader)) buffer.new result }
        ensures counts { R.count self.new.reader ≡ count_after (R.count self.old.reader) result }
        ensures last { ◌≡◌ {A = Option (Option Error)} (Some self.new.last) (failure_after_read (Some self.old.last) result) }
        ensures fails { self.old.left ≡ Some 0 → result ≡ Err (Stop.Fault self.old.error) }
        ensures gives { failure_at self.old.left self.old.error ≡ Ok tt
            → ReadTells (R.telling self.old.reader) (R.telling self.new.reader) buffer.new result }
        ensures left { self.new.left ≡ left_after self.old.left }
    {
        let answer = match self.step() {
            Ok(()) => self.reader.read_told(buffer),
            Err(error) => Err(Stop::Fault(error)),
        };
        if let Err(Stop::Interrupted(error) | Stop::Fault(error)) = &answer {
            self.last = Some(*error);
        }
        answer
    }

    fn seek_told(&mut self, to: SeekFrom) -> io::Result<u64>
        ensures told { SeekTells (may_fail (R.telling self.old.reader)) (may_fail (R.telling self.new.reader)) to result }
        ensures counts { R.count self.new.reader ≡ R.count self.old.reader }
        ensures last { ◌≡◌ {A = Option (Option Error)} (Some self.new.last) (failure_after (Some self.old.last) result) }
        ensures fails { self.old.left ≡ Some 0 → result ≡ Err self.old.error }
        ensures goes { failure_at self.old.left self.old.error ≡ Ok tt
            → SeekTells (R.telling self.old.reader) (R.telling self.new.reader) to result }
        ensures left { self.new.left ≡ left_after self.old.left }
    {
        let answer = match self.step() {
            Ok(()) => self.reader.seek_told(to),
            Err(error) => Err(error),
        };
        if let Err(error) = &answer {
            self.last = Some(*error);
        }
        answer
    }
}

/// Gives what another reader gives, and reports a length of its own.
#[derive(Drop)]
pub struct Claiming<R: Told> {
    /// The other reader.
    pub reader: R,
    /// The length that it reports.
    pub told: u64,
    /// Whether a seek to the end goes to that length, and not to the end of the other reader.
    pub goes_there: bool,
}

impl<R: Told> Told for Claiming<R> {
    ghost telling = { λ _. None };

    ghost count = { λ r. R.count r.reader };

    ghost failure = { λ r. R.failure r.reader };

    fn read_told(&mut self, buffer: &mut [u8]) -> Result<usize, Stop>
        ensures bound { IfOk result (λ n. n ≤ length buffer.new) }
        ensures told { ReadTells None None buffer.new result }
        ensures counts { R.count self.new.reader ≡ count_after (R.count self.old.reader) result }
        ensures fails { R.failure self.new.reader ≡ failure_after_read (R.failure self.old.reader) result }
        ensures gives { ReadTells (R.telling self.old.reader) (R.telling self.new.reader) buffer.new result }
    {
        self.reader.read_told(buffer)
    }

    fn seek_told(&mut self, to: SeekFrom) -> io::Result<u64>
        ensures told { SeekTells None None to result }
        ensures counts { R.count self.new.reader ≡ R.count self.old.reader }
        ensures fails { R.failure self.new.reader ≡ failure_after (R.failure self.old.reader) result }
        ensures claims { to ≡ SeekFrom.End (pos zero) → IfOk result (λ offset. offset ≡ self.old.told) }
        ensures stands { self.old.goes_there ≡ true → to ≡ SeekFrom.End (pos zero) → IfOk result (λ offset.
            StandsAt (R.telling self.old.reader) (R.telling self.new.reader) self.old.told) }
        ensures stands_elsewhere { self.old.goes_there ≡ false → to ≡ SeekFrom.End (pos zero) → IfOk result (λ offset.
            StandsAtEnd (R.telling self.old.reader) (R.telling self.new.reader)) }
        ensures ends { self.old.goes_there ≡ true → to ≡ SeekFrom.End (pos zero) → IfErr result (λ e.
            SeekTells (R.telling self.old.reader) (R.telling self.new.reader) (SeekFrom.Start self.old.told) (Err e)) }
        ensures ends_elsewhere { self.old.goes_there ≡ false → to ≡ SeekFrom.End (pos zero) → IfErr result (λ e.
            SeekTells (R.telling self.old.reader) (R.telling self.new.reader) to (Err e)) }
        ensures goes { to ≢ SeekFrom.End (pos zero) → SeekTells (R.telling self.old.reader) (R.telling self.new.reader) to result }
    {
        let end = match to {
            SeekFrom::End(0) if self.goes_there => SeekFrom::Start(self.told),
            _ => to,
        };
        let offset = self.reader.seek_told(end)?;
        match to {
            SeekFrom::End(0) => Ok(self.told),
            _ => Ok(offset),
        }
    }
}

/// Bytes without end: a head, and then a part over and over. Every seek to an offset from the start succeeds.
#[derive(Drop)]
pub struct Endless<'a> {
    /// The first bytes.
    pub head: &'a [u8],
    /// The bytes after the head, which repeat; zeros if there are none.
    pub part: &'a [u8],
    /// Its offset.
    pub offset: u64,
}

impl Endless<'_> {
    // The byte at an offset.
    fn byte_at(&self, offset: u64) -> u8
        ensures head { offset < length self.now.head.now → slice_get self.now.head.now offset ≡ Some result }
        ensures part { length self.now.head.now ≤ offset → 0 < length self.now.part.now →
            slice_get self.now.part.now ((offset - length self.now.head.now) % length self.now.part.now) ≡ Some result }
    {
        let head = self.head.len() as u64;
        if offset < head {
            return self.head[offset as usize];
        }
        match (offset - head).checked_rem(self.part.len() as u64) {
            Some(index) => self.part[index as usize],
            None => 0,
        }
    }
}

impl Told for Endless<'_> {
    ghost telling = { λ _. None };

    ghost count = { λ _. None };

    ghost failure = { λ _. None };

    fn read_told(&mut self, buffer: &mut [u8]) -> Result<usize, Stop>
        ensures bound { IfOk result (λ n. n ≤ length buffer.new) }
        ensures fills { result ≡ Ok (length buffer.new) }
    {
        for byte in buffer.iter_mut() {
            *byte = self.byte_at(self.offset);
            self.offset = self.offset.wrapping_add(1);
        }
        Ok(buffer.len())
    }

    fn seek_told(&mut self, to: SeekFrom) -> io::Result<u64>
        ensures goes { (offset : ℕ) → to ≡ SeekFrom.Start offset → (result ≡ Ok offset) × (self.new.offset ≡ offset) }
        ensures stands { to ≡ SeekFrom.Current (pos zero) → (result ≡ Ok self.old.offset) × (self.new.offset ≡ self.old.offset) }
    {
        match to {
            SeekFrom::Start(offset) => {
                self.offset = offset;
                Ok(offset)
            }
            SeekFrom::Current(0) => Ok(self.offset),
            _ => Err(io::Error::from(ErrorKind::InvalidInput)),
        }
    }
}
