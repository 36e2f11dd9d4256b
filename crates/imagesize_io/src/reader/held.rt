//! Reads of the bytes that a reader holds, without a call of the reader.
ghost use Rattle.std.specs.Prelude.{◌≡◌, ◌+◌, ◌-◌, ◌^◌, ◌<◌, ◌≤◌, ◌++◌, min, true, false, None, Ok, IfSome, length, take};
ghost use Rattle.imagesize_source.specs.Text.{is_ended, text_front};
ghost use Rattle.imagesize_io.specs.Held.{HoldsFrom};
ghost use Rattle.imagesize_io.specs.ReaderState.{ReadsOn, kept_window};
ghost use Rattle.imagesize_io.specs.Rest.{ReadsMore};
ghost use Rattle.imagesize_io.specs.Standing.{Passed};
ghost use Rattle.imagesize_io.specs.Telling.{account};

use super::Ledger;
use crate::Told;
use crate::window::{WINDOW, keep};
use imagesize_source::Text;
use imagesize_source::part::copy_front;
use imagesize_source::text::ended_behind;

/// Fills the buffer from an offset on, if the reader holds all of these bytes. Returns whether it did.
///
/// A buffered reader holds the bytes of most reads. This saves the search of the first bytes, a seek and a read.
#[inline(always)]
pub(super) fn read_held<R: Told>(
    reader: &R,
    ledger: &mut Ledger,
    offset: u64,
    buffer: &mut [u8],
) -> bool
    ensures none { result ≡ false → ledger.new ≡ ledger.old }
    ensures reads { result ≡ true → ReadsOn reader.now reader.now ledger.old ledger.new
        (account R.telling R.count R.failure reader.now) (account R.telling R.count R.failure reader.now) offset buffer.new
        (Ok (length buffer.new)) }
{
    // The window has no byte past its capacity, and keeps none. The proof needs that it is not longer.
    let _length = ledger.window.len();
    if offset < WINDOW as u64 || buffer.is_empty() {
        return false;
    }
    let Some(bytes) = held_from(reader, ledger, offset) else {
        return false;
    };
    let count = buffer.len();
    if count > bytes.len() {
        return false;
    }
    buffer.copy_from_slice(&bytes[..count]);
    pass(ledger, offset, buffer.len());
    true
}

/// How much of a text was read from the bytes that a reader holds.
#[derive(Clone, Copy)]
pub(super) enum HeldText {
    /// All of it, which is so many bytes.
    Whole(usize),
    /// So many bytes, and the text goes on after them.
    Part(usize),
}

/// Reads what the reader holds of a text. The text begins at an offset, and the buffer has its first `count` bytes. Returns how
/// many of its bytes the buffer has then.
///
/// A text often goes on in the next block of a buffered reader. This saves a read for each of its bytes there.
#[inline(always)]
pub(super) fn read_held_text<R: Told>(
    reader: &R,
    ledger: &mut Ledger,
    offset: u64,
    text: Text,
    count: usize,
    buffer: &mut [u8],
) -> HeldText
    requires bound { count ≤ length buffer.old }
    requires open { is_ended text (take count buffer.old) ≡ false }
    ensures { ReadsMore ledger.old ledger.new (account R.telling R.count R.failure reader.now)
        (account R.telling R.count R.failure reader.now) text offset (take count buffer.old) buffer.new result }
{
    let next = offset.saturating_add(count as u64);
    if next < ledger.window.len() as u64 {
        return HeldText::Part(count);
    }
    let Some(bytes) = held_from(reader, ledger, next) else {
        return HeldText::Part(count);
    };
    // Both slices have one length, so the copy tests it once.
    let most = bytes.len().min(buffer.len() - count);
    let bytes = &bytes[..most];
    match end_of(text, &buffer[..count], bytes) {
        Some(last) => {
            read_part(ledger, next, bytes, last, &mut buffer[count..count + most]);
            HeldText::Whole(count + last)
        }
        None if most == 0 => HeldText::Part(count),
        None => {
            read_part(ledger, next, bytes, most, &mut buffer[count..count + most]);
            HeldText::Part(count + most)
        }
    }
}

// How many bytes a search compares at once. The search tests the same length, so the test for it is made once.
const SEARCHED: usize = 16;

// The result of `ended_behind`. A search finds the length of a line as a number that the next line's offset waits for. For a line of
// one or two bytes a branch decides about it, and the processor goes on with the length that it predicts.
#[inline(always)]
fn end_of(text: Text, first: &[u8], rest: &[u8]) -> Option<usize>
    requires { is_ended text first.now ≡ false }
    ensures ended { IfSome result (λ _. is_ended text (first.now ++ rest.now) ≡ true) }
    ensures within { IfSome result (λ n. n ≤ length rest.now) }
    ensures length { IfSome result (λ n. length first.now + n ≡ length (text_front text (first.now ++ rest.now))) }
    ensures open { result ≡ None → is_ended text (first.now ++ rest.now) ≡ false }
{
    if let Text::Line { delimiter } = text
        && rest.len() >= SEARCHED
    {
        if rest[0] == delimiter {
            return Some(1);
        }
        if rest[1] == delimiter {
            return Some(2);
        }
    }
    ended_behind(text, first, rest)
}

// Reads the first `count` held bytes from an offset on: copies them, keeps the first ones, and counts them.
#[inline(always)]
fn read_part(ledger: &mut Ledger, offset: u64, bytes: &[u8], count: usize, buffer: &mut [u8])
    requires there { count ≤ length bytes.now }
    requires fits { count ≤ length buffer.old }
    requires paid { ledger.old.progress.taken + count ≤ ledger.old.progress.budget }
    ensures copied { take count buffer.new ≡ take count bytes.now }
    ensures kept { ledger.new.window.items ≡ kept_window ledger.old.window.items offset (take count bytes.now) }
    ensures passed { Passed ledger.old.progress ledger.new.progress offset count }
{
    copy_front(bytes, count, buffer);
    keep(&mut ledger.window, offset, &bytes[..count]);
    pass(ledger, offset, count);
}

// The bytes that the reader holds from an offset on, up to the reported length and as many as the budget has. `None` if they begin
// later or end earlier, or if the offset is past the reported length.
//
// A read past the reported length continues only where the last one ended, and calls the reader. So no byte past it is read here.
#[inline(always)]
pub(super) fn held_from<'r, R: Told>(
    reader: &'r R,
    ledger: &Ledger,
    offset: u64,
) -> Option<&'r [u8]>
    ensures there { IfSome result (λ bytes. HoldsFrom (R.telling reader.now) ledger.now.progress.offset offset bytes.now) }
    ensures ahead { IfSome result (λ _. ledger.now.progress.offset ≤ offset) }
    ensures told { IfSome result (λ _. offset ≤ ledger.now.progress.told) }
    ensures within { IfSome result (λ bytes. offset + length bytes.now ≤ ledger.now.progress.told) }
    ensures paid { IfSome result (λ bytes. ledger.now.progress.taken + length bytes.now ≤ ledger.now.progress.budget) }
    ensures counts { IfSome result (λ bytes. 0 < length bytes.now → R.count reader.now ≡ None) }
{
    let progress = &ledger.progress;
    if offset > progress.told || offset < progress.offset {
        return None;
    }
    let ahead = offset - progress.offset;
    let held = reader.held();
    if ahead > held.len() as u64 {
        return None;
    }
    let bytes = &held[ahead as usize..];
    let left = progress.budget - progress.taken;
    let most = left.min(progress.told - offset);
    Some(&bytes[..bytes.len().min(most as usize)])
}

// Counts bytes that the reader holds. The reader stays where it is.
#[inline(always)]
fn pass(ledger: &mut Ledger, offset: u64, count: usize)
    requires { ledger.old.progress.taken + count ≤ ledger.old.progress.budget }
    ensures window { ledger.new.window ≡ ledger.old.window }
    ensures passed { Passed ledger.old.progress ledger.new.progress offset count }
    ensures present { ledger.new.present ≡ min (offset + count) (2 ^ 64 - 1) }
{
    // The proof needs that the budget fits its type.
    let _budget = ledger.progress.budget;
    ledger.progress.taken += count as u64;
    ledger.present = offset.saturating_add(count as u64);
    ledger.progress.position = ledger.present;
}
