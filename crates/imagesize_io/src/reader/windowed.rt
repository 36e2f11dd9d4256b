//! Reads that call the reader, within the budget. The window's bytes are not read again, and the bytes after it are kept.
ghost use Rattle.std.specs.Prelude.{◌≡◌, ◌+◌, ◌-◌, ◌^◌, ◌<◌, ◌≤◌, min, max, true, false, length, take, IfOk, IfErr, Some};
ghost use Rattle.imagesize_source.specs.Text.{is_ended};
ghost use Rattle.imagesize_io.specs.ReaderState.{ReadsAt, ReadsOn};
ghost use Rattle.imagesize_io.specs.Rest.{ReadsRest};
ghost use Rattle.imagesize_io.specs.Standing.{stand, Keeps, Fills, ReadsOnce, GoesTo, ReadsFrom};
ghost use Rattle.imagesize_io.specs.StopOf.{ending_of};
ghost use Rattle.imagesize_io.specs.Telling.{account};

use super::Ledger;
use super::held::{HeldText, read_held_text};
use crate::progress::Progress;
use crate::window::keep;
use crate::{Stop, Told};
use imagesize_source::part::copy_part;
use imagesize_source::text::ended_behind;
use imagesize_source::{Halt, Text};
use std::io::{self, SeekFrom};

// How many interrupted reads are tried again in one call.
const MAX_RETRIES: u64 = 64;

// The error that a stopped read ends with after `tries` retries, or `None` if it may be tried again.
#[cold]
#[inline(never)]
fn ending(stop: Stop, tries: u64) -> Option<io::Error>
    ensures { result ≡ ending_of stop tries }
{
    match stop {
        Stop::Fault(error) => Some(error),
        Stop::Interrupted(_) if tries < MAX_RETRIES => None,
        Stop::Interrupted(error) => Some(error),
    }
}

// One read from the reader's offset `offset`, which is tried again if it is interrupted. Counts the bytes, and advances the offset.
#[inline(always)]
fn read_counted<R: Told>(
    reader: &mut R,
    progress: &mut Progress,
    offset: u64,
    buffer: &mut [u8],
) -> Result<usize, Halt>
    requires fits { progress.old.taken + length buffer.old ≤ progress.old.budget }
    requires stands { progress.old.offset ≡ offset }
    ensures reads { ReadsOnce progress.old progress.new (account R.telling R.count R.failure reader.old)
        (account R.telling R.count R.failure reader.new) buffer.new result }
    ensures failed { IfErr result (λ halt. halt ≡ Halt.Failed) }
{
    loop {
        match reader.read_told(buffer) {
            Ok(count) => {
                // Most reads fill the buffer, whose length the compiler knows.
                if count == buffer.len() {
                    progress.taken += buffer.len() as u64;
                    progress.offset = offset.saturating_add(buffer.len() as u64);
                    return Ok(buffer.len());
                }
                progress.taken += count as u64;
                progress.offset = offset.saturating_add(count as u64);
                return Ok(count);
            }
            Err(stop) => match ending(stop, progress.retries) {
                Some(error) => {
                    progress.fault = Some(error);
                    return Err(Halt::Failed);
                }
                None => progress.retries += 1,
            },
        }
    }
}

// One read of at most as many bytes as the budget leaves.
#[inline(always)]
fn read_some<R: Told>(
    reader: &mut R,
    progress: &mut Progress,
    buffer: &mut [u8],
) -> Result<usize, Halt>
    ensures { ReadsOnce progress.old progress.new (account R.telling R.count R.failure reader.old)
        (account R.telling R.count R.failure reader.new) buffer.new result }
{
    let left = progress.budget - progress.taken;
    if left == 0 {
        return Err(Halt::Spent);
    }
    let most = (buffer.len() as u64).min(left) as usize;
    let offset = progress.offset;
    read_counted(reader, progress, offset, &mut buffer[..most])
}

// Reads from the reader's offset `offset` until the buffer is full or the input ends.
#[inline(always)]
fn fill<R: Told>(
    reader: &mut R,
    progress: &mut Progress,
    offset: u64,
    buffer: &mut [u8],
) -> Result<usize, Halt>
    requires { progress.old.offset ≡ offset }
    ensures { Fills progress.old progress.new (stand (R.telling reader.old) progress.old) (stand (R.telling reader.new) progress.new)
        (account R.telling R.count R.failure reader.old)
        (account R.telling R.count R.failure reader.new) buffer.new result }
{
    if buffer.len() as u64 > progress.budget - progress.taken {
        // With `?` here, only this path sets up stack space for the result.
        let count = fill_rest(reader, progress, buffer)?;
        return Ok(count);
    }
    let count = read_counted(reader, progress, offset, buffer)?;
    if count == buffer.len() || count == 0 {
        return Ok(count);
    }
    let rest = fill_rest(reader, progress, &mut buffer[count..])?;
    Ok(count + rest)
}

// Reads on until the buffer is full or the input ends, one read after another.
#[cold]
#[inline(never)]
fn fill_rest<R: Told>(
    reader: &mut R,
    progress: &mut Progress,
    buffer: &mut [u8],
) -> Result<usize, Halt>
    requires { progress.old.offset < 2 ^ 64 }
    ensures { Fills progress.old progress.new (stand (R.telling reader.old) progress.old) (stand (R.telling reader.new) progress.new)
        (account R.telling R.count R.failure reader.old)
        (account R.telling R.count R.failure reader.new) buffer.new result }
{
    let mut filled = 0;
    while filled < buffer.len() {
        let count = read_some(reader, progress, &mut buffer[filled..])?;
        if count == 0 {
            break;
        }
        filled += count;
    }
    Ok(filled)
}

// Seeks to an offset, and returns whether the reader is there: it does not seek past the reported length. The offset that the
// seek returns is not checked.
#[inline(always)]
fn go_to<R: Told>(reader: &mut R, progress: &mut Progress, offset: u64) -> Result<bool, Halt>
    ensures stand { GoesTo (stand (R.telling reader.old) progress.old)
        (stand (R.telling reader.new) progress.new) offset progress.new.offset result }
    ensures asked { IfOk result (λ there. there ≡ true → progress.new.offset ≡ offset) }
    ensures short { IfOk result (λ there. there ≡ true → offset ≤ max progress.old.told progress.old.offset) }
    ensures far { IfOk result (λ there. there ≡ false → progress.old.told < offset) }
    ensures stays { progress.old.offset ≡ offset → (result ≡ Ok true) × (reader.new ≡ reader.old) }
    ensures position { progress.new.position ≡ progress.old.position }
    ensures taken { progress.new.taken ≡ progress.old.taken }
    ensures keeps { Keeps progress.old progress.new (account R.telling R.count R.failure reader.old)
        (account R.telling R.count R.failure reader.new) result }
{
    if progress.offset == offset {
        return Ok(true);
    }
    if offset > progress.told {
        return Ok(false);
    }
    if let Err(fault) = reader.seek_told(SeekFrom::Start(offset)) {
        progress.fault = Some(fault);
        return Err(Halt::Failed);
    }
    progress.offset = offset;
    Ok(true)
}

// Reads from an offset on until the buffer is full or the input ends.
#[inline(always)]
fn read_from<R: Told>(
    reader: &mut R,
    progress: &mut Progress,
    offset: u64,
    buffer: &mut [u8],
) -> Result<usize, Halt>
    ensures reads { ReadsFrom progress.old progress.new (stand (R.telling reader.old) progress.old)
        (stand (R.telling reader.new) progress.new) (account R.telling R.count R.failure reader.old)
        (account R.telling R.count R.failure reader.new) offset buffer.new result }
    ensures offset { IfOk result (λ n. offset ≤ progress.old.told → progress.new.offset ≡ min (offset + n) (2 ^ 64 - 1)) }
{
    if !go_to(reader, progress, offset)? {
        return Ok(0);
    }
    let count = fill(reader, progress, offset, buffer)?;
    // A read that gives no byte moves nothing.
    if count > 0 {
        progress.position = progress.offset;
    }
    Ok(count)
}

// Reads from an offset on: first the window's bytes, then the reader's.
#[inline(always)]
fn read_within<R: Told>(
    reader: &mut R,
    ledger: &mut Ledger,
    offset: u64,
    buffer: &mut [u8],
) -> Result<usize, Halt>
    ensures { ReadsAt ledger.old ledger.new (account R.telling R.count R.failure reader.old)
        (account R.telling R.count R.failure reader.new) offset buffer.new result }
{
    // The proof needs that the window is not longer than its capacity.
    let _length = ledger.window.len();
    let copied = copy_part(ledger.window.as_slice(), offset, buffer);
    if copied == buffer.len() {
        return Ok(buffer.len());
    }
    let next = offset + copied as u64;
    let count = read_across(reader, &mut ledger.progress, next, &mut buffer[copied..])?;
    keep(&mut ledger.window, next, &buffer[copied..copied + count]);
    Ok(copied + count)
}

// Continues a read past the window in which it began.
#[cold]
#[inline(never)]
fn read_across<R: Told>(
    reader: &mut R,
    progress: &mut Progress,
    offset: u64,
    buffer: &mut [u8],
) -> Result<usize, Halt>
    ensures reads { ReadsFrom progress.old progress.new (stand (R.telling reader.old) progress.old)
        (stand (R.telling reader.new) progress.new) (account R.telling R.count R.failure reader.old)
        (account R.telling R.count R.failure reader.new) offset buffer.new result }
    ensures offset { IfOk result (λ n. offset ≤ progress.old.told → progress.new.offset ≡ min (offset + n) (2 ^ 64 - 1)) }
{
    read_from(reader, progress, offset, buffer)
}

/// Reads from an offset on, without a look at the bytes that the reader holds. Bytes right after the window are kept.
#[inline(always)]
pub(super) fn read_called<R: Told>(
    reader: &mut R,
    ledger: &mut Ledger,
    offset: u64,
    buffer: &mut [u8],
) -> Result<usize, Halt>
    ensures { ReadsOn reader.old reader.new ledger.old ledger.new (account R.telling R.count R.failure reader.old)
        (account R.telling R.count R.failure reader.new) offset buffer.new result }
{
    if ledger.progress.told < offset {
        return read_beyond(reader, ledger, offset, buffer);
    }
    if offset < ledger.window.len() as u64 || buffer.is_empty() {
        let count = read_within(reader, ledger, offset, buffer)?;
        ledger.present = offset + count as u64;
        return Ok(count);
    }
    let count = read_from(reader, &mut ledger.progress, offset, buffer)?;
    ledger.present = ledger.progress.offset;
    // Most reads fill the buffer, whose length the compiler knows.
    if count == buffer.len() {
        keep(&mut ledger.window, offset, buffer);
        return Ok(count);
    }
    keep(&mut ledger.window, offset, &buffer[..count]);
    Ok(count)
}

// Calls `read_above`. Inlined, so that stack space for its result is set up on this path alone.
#[inline(always)]
fn read_beyond<R: Told>(
    reader: &mut R,
    ledger: &mut Ledger,
    offset: u64,
    buffer: &mut [u8],
) -> Result<usize, Halt>
    requires { ledger.old.progress.told < offset }
    ensures { ReadsOn reader.old reader.new ledger.old ledger.new (account R.telling R.count R.failure reader.old)
        (account R.telling R.count R.failure reader.new) offset buffer.new result }
{
    let count = read_above(reader, ledger, offset, buffer)?;
    Ok(count)
}

// A read past the reported length continues only where the last read ended. Anywhere else it sees the end of the input, even
// if the window has bytes there. Not inlined, since few reads get here.
#[cold]
#[inline(never)]
fn read_above<R: Told>(
    reader: &mut R,
    ledger: &mut Ledger,
    offset: u64,
    buffer: &mut [u8],
) -> Result<usize, Halt>
    requires { ledger.old.progress.told < offset }
    ensures { ReadsOn reader.old reader.new ledger.old ledger.new (account R.telling R.count R.failure reader.old)
        (account R.telling R.count R.failure reader.new) offset buffer.new result }
{
    if offset != ledger.present {
        return Ok(0);
    }
    let count = read_within(reader, ledger, offset, buffer)?;
    ledger.present = offset.saturating_add(count as u64);
    Ok(count)
}

// Reads the rest of a text. The buffer has its first `count` bytes. A step reads a byte, and then all that the reader holds of the
// text after that byte. Returns how many bytes the text has. Not inlined, since a buffered reader holds most texts.
#[inline(never)]
pub(super) fn read_rest<R: Told>(
    reader: &mut R,
    ledger: &mut Ledger,
    offset: u64,
    text: Text,
    mut count: usize,
    buffer: &mut [u8],
) -> Result<usize, Halt>
    requires bound { count ≤ length buffer.old }
    requires open { is_ended text (take count buffer.old) ≡ false }
    ensures { ReadsRest ledger.old ledger.new (account R.telling R.count R.failure reader.old)
        (account R.telling R.count R.failure reader.new) text offset (take count buffer.old) buffer.new result }
{
    while count < buffer.len() {
        let next = offset.saturating_add(count as u64);
        if read_called(reader, ledger, next, &mut buffer[count..count + 1])? == 0 {
            return Ok(count);
        }
        let read = &buffer[..count + 1];
        if let Some(last) = ended_behind(text, &read[..count], &read[count..]) {
            return Ok(count + last);
        }
        count = match read_held_text(reader, ledger, offset, text, count + 1, buffer) {
            HeldText::Whole(all) => return Ok(all),
            HeldText::Part(part) => part,
        };
    }
    Ok(count)
}
