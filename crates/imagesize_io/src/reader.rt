//! A reader as a source.
ghost use Rattle.std.specs.Prelude.{◌≡◌, ℕ, ◌≤◌, Result, None, IfErr, IfSome, length, true, false};
ghost use Rattle.std.specs.declared.io.Error.{Error};
ghost use Rattle.imagesize_source.specs.Errors.{is_fault, is_memory};
ghost use Rattle.imagesize_io.specs.ReaderState.{held_at, reader_state, start_state, Opens};
ghost use Rattle.imagesize_io.specs.Standing.{stand};
ghost use Rattle.imagesize_io.specs.Answers.{IsLast};
ghost use Rattle.imagesize_io.specs.Telling.{SeekTells, account};
ghost use Rattle.imagesize_source.specs.Halts.{error_by};
ghost use Rattle.imagesize_io.specs.StopOf.{kept_error};
ghost use Rattle.imagesize_source.specs.State.{rejoined};

mod held;
mod windowed;

use self::held::{HeldText, held_from, read_held, read_held_text};
use self::windowed::{read_called, read_rest};
use crate::Told;
use crate::progress::Progress;
use crate::window::{WINDOW, Window};
use imagesize_source::source::Source;
use imagesize_source::source::held::{Claims, Counts, HeldSource};
use imagesize_source::{Halt, ImageError, ImageResult, Reason, Text};
use std::io::SeekFrom;

/// A reader that is read at offsets. It reads bytes within a budget, and keeps the first bytes of the input.
#[derive(Drop)]
pub struct ReaderSource<'a, R: Told> {
    reader: &'a mut R,
    ledger: Ledger,
}

/// What a source keeps beside its reader.
#[derive(Drop)]
pub struct Ledger {
    progress: Progress,
    window: Window,
    // The offset after the last read.
    present: u64,
}

impl<'a, R: Told> ReaderSource<'a, R> {
    /// A source over a reader whose input has the reported length `told`. The reader is assumed to be at that offset.
    #[inline(always)]
    pub fn new(reader: &'a mut R, told: u64) -> Self
        ensures same_reference { result.reader.ghost_name ≡ reader.entry.ghost_name }
        ensures state { reader_state (account R.telling R.count R.failure result.reader.now) result.reader.ghost_name
            result.ledger.progress result.ledger.window.items
            ≡ start_state (R.telling reader.old) (R.count reader.old) reader.entry.ghost_name told }
        ensures present { result.ledger.present ≡ told }
    {
        let progress = Progress {
            told,
            budget: told.saturating_add(ALLOWANCE),
            taken: 0,
            offset: told,
            position: told,
            retries: 0,
            fault: None,
        };
        let ledger = Ledger {
            progress,
            window: Window::new(),
            present: told,
        };
        ReaderSource { reader, ledger }
    }

    /// The offset at which the reader is to be left, if it is elsewhere: where the last read ended that gave a byte past the first
    /// bytes. Reads of bytes that the reader holds did not move it. `None` after a fault.
    #[inline(always)]
    pub fn left(&self) -> Option<u64>
        ensures position { IfSome result (λ position. position ≡ self.now.ledger.progress.position) }
        ensures told { IfSome result (λ position. position ≤ self.now.ledger.progress.told) }
        ensures calm { IfSome result (λ _. self.now.ledger.progress.fault ≡ None) }

        // Without a fault, a reader that is not to be moved is at this position, unless the position lies past the reported length.
        ensures there { result ≡ None → self.now.ledger.progress.fault ≡ None
            → self.now.ledger.progress.position ≤ self.now.ledger.progress.told
            → self.now.ledger.progress.position ≡ self.now.ledger.progress.offset }
    {
        let progress = &self.ledger.progress;
        let position = progress.position;
        if position == progress.offset || position > progress.told || progress.fault.is_some() {
            return None;
        }
        Some(position)
    }
}

impl<R: Told> Claims for ReaderSource<'_, R> {
    ghost claim = { λ s. held_at (stand (R.telling s.reader.now) s.ledger.progress) s.ledger.window.items };

    ghost kept = { λ s. length s.ledger.window.items };
}

impl<R: Told> Source for ReaderSource<'_, R> {
    ghost state = { λ s. reader_state (account R.telling R.count R.failure s.reader.now) s.reader.ghost_name s.ledger.progress
        s.ledger.window.items };

    // A reader that counts the bytes that it gives shows none.
    ghost shows = { λ s. R.count s.reader.now ≡ None };

    const SHOWS: bool = true;

    #[inline]
    fn told(&self) -> u64 {
        self.ledger.progress.told
    }

    #[inline]
    fn taken(&self) -> u64 {
        self.ledger.progress.taken
    }

    #[inline(always)]
    fn refusal(&self, halt: Halt) -> ImageError {
        refusal_of(halt, &self.ledger.progress)
    }

    #[inline(always)]
    fn held(&self, offset: u64) -> Option<HeldSource<'_, Self>> {
        // The proof needs that the window is not longer than its capacity.
        let _length = self.ledger.window.len();
        if offset < WINDOW as u64 {
            return None;
        }
        let bytes = held_from(self.reader, &self.ledger, offset)?;
        if bytes.is_empty() {
            return None;
        }
        let progress = &self.ledger.progress;
        let counts = Counts {
            taken: progress.taken,
            position: progress.position,
        };
        Some(HeldSource::new(self, bytes, offset, progress.told, progress.budget, counts))
    }

    // A caller may pass any count, and the budget bounds it.
    #[inline(always)]
    fn pass(&mut self, counts: Counts)
        ensures passes { R.count self.old.reader.now ≡ None → self.old.ledger.progress.taken ≤ counts.taken
            → counts.taken ≤ self.old.ledger.progress.budget
            → reader_state (account R.telling R.count R.failure self.new.reader.now) self.new.reader.ghost_name
            self.new.ledger.progress self.new.ledger.window.items
            ≡ rejoined (reader_state (account R.telling R.count R.failure self.old.reader.now) self.old.reader.ghost_name
            self.old.ledger.progress self.old.ledger.window.items) counts.taken counts.position }

        // A read past the reported length goes on only from here.
        ensures present { self.new.ledger.present ≡ counts.position }
    {
        let Ledger {
            progress,
            present,
            ..
        } = &mut self.ledger;
        progress.taken = counts.taken.min(progress.budget);
        progress.position = counts.position;
        *present = counts.position;
    }

    #[inline(always)]
    fn read_at(&mut self, offset: u64, buffer: &mut [u8]) -> Result<usize, Halt> {
        if read_held(self.reader, &mut self.ledger, offset, buffer) {
            return Ok(buffer.len());
        }
        read_called(self.reader, &mut self.ledger, offset, buffer)
    }

    fn read_text(&mut self, offset: u64, text: Text, buffer: &mut [u8]) -> Result<usize, Halt> {
        match read_held_text(self.reader, &mut self.ledger, offset, text, 0, buffer) {
            HeldText::Whole(count) => Ok(count),
            HeldText::Part(count) => {
                read_rest(self.reader, &mut self.ledger, offset, text, count, buffer)
            }
        }
    }
}

/// The budget of a call in bytes is the reported length plus this number.
pub const ALLOWANCE: u64 = 64;

/// Where a call reads first.
#[derive(Clone, Copy)]
pub enum Origin {
    /// At the first byte, wherever the reader is.
    Start,
    /// At the reader's offset.
    Offset,
}

/// What a reader reported when the call began.
#[derive(Clone, Copy, Debug)]
pub struct Opened {
    /// Its offset.
    pub offset: u64,
    /// The length of its input in bytes.
    pub told: u64,
}

/// Asks a reader for its offset and for the length of its input. Afterwards the reader is at the end, and the first read
/// seeks to its own offset. If that is the reported length, the read would not seek, although the length may be wrong. A call
/// that first reads at the reader's offset therefore seeks back here.
#[inline]
pub fn open<R: Told>(reader: &mut R, origin: Origin) -> ImageResult<Opened>
    ensures told { Opens (R.telling reader.old) (R.telling reader.new) result }
    ensures counts { R.count reader.new ≡ R.count reader.old }
    ensures fault { IfErr result (λ e. is_fault e ≡ true) }
    ensures last { IfErr result (IsLast (R.failure reader.new)) }
    ensures memory { IfErr result (λ e. is_memory e ≡ false) }
{
    let offset = reader.seek_told(SeekFrom::Current(0))?;
    let told = reader.seek_told(SeekFrom::End(0))?;
    if offset == told && matches!(origin, Origin::Offset) {
        reader.seek_told(SeekFrom::Start(offset))?;
    }
    Ok(Opened { offset, told })
}

/// Moves a reader that is no source any more to an offset, if there is one. The call has its result by then, so a seek that fails
/// changes nothing of it.
#[inline(always)]
pub fn settle<R: Told>(reader: &mut R, left: Option<u64>)
    ensures stays { left ≡ None → reader.new ≡ reader.old }
    ensures seeks { IfSome left (λ position. (r : Result ℕ Error)
        × SeekTells (R.telling reader.old) (R.telling reader.new) (SeekFrom.Start position) r) }
    ensures counts { R.count reader.new ≡ R.count reader.old }
{
    if let Some(position) = left {
        let _ = reader.seek_told(SeekFrom::Start(position));
    }
}

// The error that the call returns. Not inlined, since few reads fail.
#[cold]
#[inline(never)]
fn refusal_of(halt: Halt, progress: &Progress) -> ImageError
    ensures { result ≡ error_by (kept_error progress.now.fault) progress.now.budget halt }
{
    let failure = match progress.fault {
        Some(error) => Reason::Fault(error),
        None => Reason::EndOfInput,
    };
    halt.error(failure, progress.budget)
}
