//! A file as a reader, which is read block by block.
ghost use Rattle.std.specs.Prelude.{◌≡◌, ◌≢◌, ℕ, ℤ, ◌+◌, ◌^◌, ◌<◌, ◌≤◌, ◌⊎◌, min, [], length, take, Some, None, Ok, pos, IfOk, IfErr, IfSome, IsErrAnd};
ghost use Rattle.std.specs.Io.KnownBytes.{Consumes, IsAtEnd, Keeps, ReadConsumes, prepend_known};
ghost use Rattle.std.specs.Io.Seek.{IsAtOffset, SeekMoves};
ghost use Rattle.std.specs.Result.{result_ok};
ghost use Rattle.std.specs.declared.io.Error.{Error};
ghost use Rattle.std.specs.IoError.{error_kind};
ghost use Rattle.std.specs.declared.io.ErrorKind.TheVariants.{InvalidInput};
ghost use Rattle.imagesize_io.specs.File.{CanReadNoBlock, IsSoughtTo, held_of};
ghost use Rattle.imagesize_io.specs.ReaderState.{kept_window};
ghost use Rattle.imagesize_io.specs.StopOf.{stop_of};

use crate::block::Block;
use crate::{Stop, Told};
use imagesize_source::part::copy_front;
use std::fs::OpenFile;
use std::io::{self, ErrorKind, Read, Seek, SeekFrom};

/// How many bytes a block of a file has at most.
pub const BLOCK: usize = 8192;

// How many bytes a block has at most at the start of a file, and elsewhere than at the end of the block before.
const FIRST: usize = 4096;

/// Reads a file that was just opened, or any other reader at offset 0.
///
/// It reads blocks into the caller's memory, and allocates nothing. A block has at most 4,096 bytes. One that begins where the block
/// before ends has 8,192. No block is longer than the memory. The last block and the first 32 bytes are held: reading these again makes
/// no call of the file. Only a seek from the end calls the file, and not if it goes to the end and the length is known. After any other
/// seek, the next read seeks if it needs to, and returns the seek's error. A read of the file fails with `InvalidInput` at an offset
/// above 2^64 - 8,193, or if the memory has no bytes.
///
/// It has no model. The length is not checked. If something else moves the file, this reader does not notice.
///
/// ```
/// use imagesize::reader_size;
/// use imagesize_io::FileReader;
/// use imagesize_io::file::{BLOCK, length_of};
/// use std::fs;
///
/// let file = fs::open(&rt, "tiny.gif")?;
/// let length = length_of(&file);
/// let mut memory = [0; BLOCK];
/// let size = reader_size(FileReader::new(file, length, &mut memory))?;
/// assert_eq!((size.width, size.height), (100, 100));
/// ```
#[derive(Drop)]
pub struct FileReader<'a, R: Read + Seek + Drop> {
    file: R,
    // The file's own offset, if it is known.
    position: Option<u64>,
    block: Block<'a>,
    offset: u64,
    length: Option<u64>,
}

impl<'a, R: Read + Seek + Drop> FileReader<'a, R> {
    /// Wraps a file at offset 0, with its length in bytes if known. Its blocks are read into the memory: `BLOCK` bytes suffice. It makes
    /// no call of the file. A file at another offset gives wrong bytes.
    pub fn new(file: R, length: Option<u64>, memory: &'a mut [u8]) -> Self
        ensures file { result.file ≡ file }
        ensures start { (result.position ≡ Some 0) × (result.offset ≡ 0) }
        ensures length { result.length ≡ length }
        ensures empty { held_of result ≡ [] }
        ensures memory { result.block.memory.now ≡ memory.old }
    {
        FileReader {
            file,
            position: Some(0),
            block: Block::new(memory),
            offset: 0,
            length,
        }
    }

    /// Closes the file, and returns the memory for the reader of the next one.
    pub fn into_memory(self) -> &'a mut [u8]
        ensures { result.now ≡ self.entry.block.memory.now }
    {
        self.block.into_memory()
    }

    // Reads the block at the reader's offset. The file is sought there first, if it is elsewhere.
    // Errors: those of the file, and `InvalidInput` without memory, or above the offset 2^64 - 8,193.
    fn fetch(&mut self) -> io::Result<usize>
        ensures reads { IfOk result (λ n. (file : R)
            × IsSoughtTo R.stream_position R.stream_bytes self.old.file file self.old.position self.old.offset
            × Consumes (R.remaining file) (R.remaining self.new.file) (take n self.new.block.memory.now)
            × (n ≡ 0 → IsAtEnd (R.remaining self.new.file))) }
        ensures keeps { self.old.position ≡ Some self.old.offset
            → IfErr result (λ _. Keeps (R.remaining self.old.file) (R.remaining self.new.file)) }
        ensures block { IfOk result (λ n. (self.new.block.filled ≡ n) × (self.new.block.start ≡ self.old.offset)
            × (self.new.block.front.items ≡ kept_window self.old.block.front.items self.old.offset
            (take n self.new.block.memory.now))) }
        ensures position { IfOk result (λ n. self.new.position ≡ Some (self.old.offset + n)) }
        ensures unknown { IfErr result (λ _. self.new.position ≡ None) }
        ensures fails { IfErr result (λ _. (self.new.block.front ≡ self.old.block.front)
            × ((self.new.block ≡ self.old.block) ⊎ (self.new.block.filled ≡ 0))) }
        ensures refuses { CanReadNoBlock self.old → (self.new.file ≡ self.old.file) × IsErrAnd result (λ e. error_kind e ≡ InvalidInput) }
        ensures offset { self.new.offset ≡ self.old.offset }
        ensures length { self.new.length ≡ self.old.length }
    {
        let position = self.position.take();
        let capacity = self.block.capacity();
        if capacity == 0 || self.offset > u64::MAX - BLOCK as u64 {
            return Err(io::Error::from(ErrorKind::InvalidInput));
        }
        go(&mut self.file, position, self.offset)?;
        let most = most_of(self.offset, self.block.end(), capacity);
        let count = self.block.fill(&mut self.file, self.offset, most)?;
        self.position = Some(self.offset + count as u64);
        Ok(count)
    }

    // The offset at a distance from the end. If the length is known, the end itself needs no call.
    fn from_end(&mut self, distance: i64) -> io::Result<u64>
        ensures known { (n : ℕ) → self.old.length ≡ Some n → distance ≡ pos 0 → (result ≡ Ok n) × (self.new ≡ self.old) }
        ensures seeks { (self.old.length ≡ None) ⊎ (distance ≢ pos 0)
            → SeekMoves (R.stream_position self.old.file) (R.stream_position self.new.file)
            (R.stream_bytes self.old.file) (SeekFrom.End distance) result × (self.new.position ≡ result_ok result) }
        ensures block { self.new.block ≡ self.old.block }
        ensures offset { self.new.offset ≡ self.old.offset }
        ensures length { self.new.length ≡ self.old.length }
    {
        if let Some(length) = self.length
            && distance == 0
        {
            return Ok(length);
        }
        self.position = None;
        let offset = self.file.seek(SeekFrom::End(distance))?;
        self.position = Some(offset);
        Ok(offset)
    }
}

// How many bytes a block at an offset has at most, if the block before ended at `end`.
fn most_of(offset: u64, end: u64, capacity: usize) -> usize
    ensures block { result ≤ 8192 }
    ensures fits { result ≤ capacity }
    ensures some { 0 < capacity → 0 < result }
{
    // Elsewhere than at the end of the block before, a small block mostly has the bytes that are read next. It costs less.
    let most = if offset > 0 && offset == end {
        BLOCK
    } else {
        FIRST
    };
    most.min(capacity)
}

// Seeks a file to an offset, if it is elsewhere.
fn go<R: Seek>(file: &mut R, position: Option<u64>, offset: u64) -> io::Result<()>
    ensures stays { position ≡ Some offset → (result ≡ Ok tt) × (file.new ≡ file.old) }
    ensures goes { IfOk result (λ _. IsSoughtTo R.stream_position R.stream_bytes file.old file.new position offset) }
{
    if position == Some(offset) {
        return Ok(());
    }
    file.seek(SeekFrom::Start(offset))?;
    Ok(())
}

impl<R: Read + Seek + Drop> Told for FileReader<'_, R> {
    ghost telling = { λ _. None };

    ghost count = { λ _. None };

    ghost failure = { λ _. None };

    fn read_told(&mut self, buffer: &mut [u8]) -> Result<usize, Stop>
        ensures bound { IfOk result (λ n. n ≤ length buffer.new) }
        ensures stops { IfErr result (λ stop. (e : Error) × (stop ≡ stop_of e)) }
        ensures length { self.new.length ≡ self.old.length }
        ensures moves { IfOk result (λ n. self.new.offset ≡ self.old.offset + n) }

        // Held bytes are given with no call of the file.
        ensures holds { 0 < length (held_of self.old) → (n : ℕ) × (result ≡ Ok n)
            × (n ≡ min (length buffer.old) (length (held_of self.old)))
            × (take n buffer.new ≡ take n (held_of self.old)) × (self.new.file ≡ self.old.file) × (self.new.position ≡ self.old.position)
            × (self.new.block ≡ self.old.block) }

        // Else the file is read at the reader's offset, after a seek if it is elsewhere. The file is then at the end of the held bytes,
        // which are the rest of the new block, and the first bytes are kept.
        ensures reads { held_of self.old ≡ [] → IfOk result (λ n. (file : R)
            × IsSoughtTo R.stream_position R.stream_bytes self.old.file file self.old.position self.old.offset
            × ReadConsumes {E = Stop} (R.remaining file) (prepend_known (held_of self.new) (R.remaining self.new.file)) (Ok n) buffer.new
            × (self.new.position ≡ Some (self.new.offset + length (held_of self.new)))
            × (self.new.block.start ≡ self.old.offset)
            × (self.new.block.front.items ≡ kept_window self.old.block.front.items self.old.offset
            (take self.new.block.filled self.new.block.memory.now))) }
        ensures keeps { self.old.position ≡ Some self.old.offset
            → IfErr result (λ _. Keeps (R.remaining self.old.file) (R.remaining self.new.file)) }
        ensures unknown { IfErr result (λ _. self.new.position ≡ None) }

        // If no byte is held: without memory, or above the offset 2^64 - 8,193, the read fails with `InvalidInput`. The file is not called.
        ensures refuses { held_of self.old ≡ [] → CanReadNoBlock self.old → (self.new.file ≡ self.old.file)
            × IsErrAnd result (λ stop. (e : Error) × (stop ≡ stop_of e) × (error_kind e ≡ InvalidInput)) }

        // A read that fails moves no offset, and leaves the first bytes. The block is gone.
        ensures fails { IfErr result (λ _. (self.new.offset ≡ self.old.offset) × (self.new.block.front ≡ self.old.block.front)
            × (held_of self.new ≡ [])) }
    {
        if self.held().is_empty() {
            self.fetch()?;
        }
        let held = self.block.held(self.offset);
        let count = held.len().min(buffer.len());
        copy_front(held, count, buffer);
        self.offset += count as u64;
        Ok(count)
    }

    #[inline]
    fn held(&self) -> &[u8]
        ensures { result.now ≡ held_of self.now }
    {
        self.block.held(self.offset)
    }

    fn seek_told(&mut self, to: SeekFrom) -> io::Result<u64>
        ensures length { self.new.length ≡ self.old.length }
        ensures block { self.new.block ≡ self.old.block }
        ensures moves { IfOk result (λ n. self.new.offset ≡ n) }
        ensures fails { IfErr result (λ _. self.new.offset ≡ self.old.offset) }

        // A seek to an offset, or by a distance, makes no call. A seek to the end makes none if the length is known.
        ensures start { (n : ℕ) → to ≡ SeekFrom.Start n → (result ≡ Ok n) × (self.new.file ≡ self.old.file)
            × (self.new.position ≡ self.old.position) }
        ensures stays { to ≡ SeekFrom.Current (pos 0) → (result ≡ Ok self.old.offset) × (self.new ≡ self.old) }
        ensures by { (d : ℤ) → to ≡ SeekFrom.Current d → IfOk result (IsAtOffset self.old.offset d) × (self.new.file ≡ self.old.file)
            × (self.new.position ≡ self.old.position) }
        ensures finds { (d : ℤ) (n : ℕ) → n < 2 ^ 64 → to ≡ SeekFrom.Current d → IsAtOffset self.old.offset d n → result ≡ Ok n }
        ensures end { (n : ℕ) → self.old.length ≡ Some n → to ≡ SeekFrom.End (pos 0)
            → (result ≡ Ok n) × (self.new.file ≡ self.old.file) × (self.new.position ≡ self.old.position) }
        ensures seeks { (d : ℤ) → to ≡ SeekFrom.End d → (self.old.length ≡ None) ⊎ (d ≢ pos 0)
            → SeekMoves (R.stream_position self.old.file) (R.stream_position self.new.file) (R.stream_bytes self.old.file) to result
            × (self.new.position ≡ result_ok result) }
    {
        let target = match to {
            SeekFrom::Start(offset) => offset,
            SeekFrom::Current(distance) => match self.offset.checked_add_signed(distance) {
                Some(target) => target,
                None => return Err(io::Error::from(ErrorKind::InvalidInput)),
            },
            SeekFrom::End(distance) => self.from_end(distance)?,
        };
        self.offset = target;
        Ok(target)
    }
}

/// The length of a regular file in bytes. `None` for any other file, and for one that is empty or does not tell: a file of the
/// system may have bytes and the length 0.
pub fn length_of<F: OpenFile>(file: &F) -> Option<u64>
    ensures { IfSome result (λ n. 0 < n) }
{
    let metadata = file.metadata().ok()?;
    let length = metadata.len();
    if metadata.is_file() && length > 0 {
        Some(length)
    } else {
        None
    }
}
