//! The known parts of an input, as the bytes of a `KnownSource`.
ghost use Rattle.std.specs.Prelude.{◌≡◌, ℕ, List, ◌+◌, ◌-◌, ◌<◌, ◌≤◌, ◌++◌, ◌&&◌, [], if◌then◌else◌, min, take, drop, length, slice_index, nat_le, nat_lt, is_some, true, false, None, Some};
ghost use Rattle.std.specs.Option.{ForSome};
ghost use Rattle.imagesize_source.specs.Input.{part};
ghost use Rattle.imagesize_source.specs.Known.{LeavesOut, byte_in_parts, byte_of, filled_input, length_within};

use super::known::{Known, KnownSource, Missing};
use crate::part::{bytes_behind, part_of};
use crate::{Span, Text};

/// The known parts of an input.
#[derive(Drop)]
pub struct Parts<'a> {
    /// The spans of the known parts.
    pub spans: &'a [Span],
    /// The bytes of the spans, one span after another.
    pub bytes: &'a [u8],
    /// The length of the input in bytes.
    pub told: u64,
    /// The known bytes from offset 0 on: those of the first parts, as far as each begins where the one before ends. If the first part
    /// begins later, those of the first part that contains offset 0.
    pub front: &'a [u8],
    // The last parts, at which a search begins, once the parts before them were passed over.
    rest: Option<Rest<'a>>,
    ghost front_known: { (i : ℕ) → i < length front.now → byte_in_parts told spans.now bytes.now i ≡ Some (slice_index front.now i) },
    ghost later: { ForSome rest (λ r. LeavesOut told spans.now bytes.now r.floor r.spans.now r.bytes.now) },
}

// A list of at most so many parts is searched from its first part. That costs less than to pass over some of them.
const FEW: usize = 8;

// The last parts of a list, and their bytes. The parts before them have no byte from `floor` on.
#[derive(Clone, Copy, Debug)]
struct Rest<'a> {
    spans: &'a [Span],
    bytes: &'a [u8],
    floor: u64,
}

impl<'a> Parts<'a> {
    /// A source of these parts of an input of `told` bytes.
    pub fn source(spans: &'a [Span], bytes: &'a [u8], told: u64) -> KnownSource<Parts<'a>>
        ensures spans { result.known.spans.now ≡ spans.now }
        ensures bytes { result.known.bytes.now ≡ bytes.now }
        ensures told { result.known.told ≡ told }
        ensures seen { result.log.spans ≡ [] }
        ensures missed { result.missed ≡ None }
    {
        KnownSource::new(Parts {
            spans,
            bytes,
            told,
            front: known_front(spans, bytes, told),
            rest: None,
        })
    }

    // Copies what `gather` copies. The search begins after the parts that were passed over.
    #[inline(never)]
    fn gather_on(&mut self, offset: u64, buffer: &mut [u8]) -> usize
        requires { length buffer.old ≤ self.old.told - offset }
        ensures spans { self.new.spans.now ≡ self.old.spans.now }
        ensures bytes { self.new.bytes.now ≡ self.old.bytes.now }
        ensures told { self.new.told ≡ self.old.told }
        ensures within { result ≤ length buffer.old }
        ensures copied { take result buffer.new ≡ part (filled_input self.old.told self.old.spans.now self.old.bytes.now) offset result }
        ensures known { (i : ℕ) → i < result
            → is_some (byte_in_parts self.old.told self.old.spans.now self.old.bytes.now (offset + i)) ≡ true }
        ensures missing { result < length buffer.old
            → is_some (byte_in_parts self.old.told self.old.spans.now self.old.bytes.now (offset + result)) ≡ false }
    {
        self.pass_over(offset);
        let rest = self.rest_at(offset);
        self.gather_among(&rest, offset, buffer)
    }

    // Copies what `gather` copies. Each search for a byte begins at the first part of `rest`.
    #[inline(always)]
    fn gather_among(&self, rest: &Rest<'a>, offset: u64, buffer: &mut [u8]) -> usize
        requires fits { length buffer.old ≤ self.now.told - offset }
        requires later { LeavesOut self.now.told self.now.spans.now self.now.bytes.now
            rest.now.floor rest.now.spans.now rest.now.bytes.now }
        requires floor { rest.now.floor ≤ offset }
        ensures within { result ≤ length buffer.old }
        ensures copied { take result buffer.new ≡ part (filled_input self.now.told self.now.spans.now self.now.bytes.now) offset result }
        ensures known { (i : ℕ) → i < result
            → is_some (byte_in_parts self.now.told self.now.spans.now self.now.bytes.now (offset + i)) ≡ true }
        ensures missing { result < length buffer.old
            → is_some (byte_in_parts self.now.told self.now.spans.now self.now.bytes.now (offset + result)) ≡ false }
    {
        let mut count = 0;
        while count < buffer.len() {
            let run = self.known_at(rest, offset + count as u64);
            if run.is_empty() {
                return count;
            }
            count += put(run, buffer, count);
        }
        count
    }

    // The known bytes from an offset on, up to the end of the first part of `rest` that contains it.
    #[inline(always)]
    fn known_at(&self, rest: &Rest<'a>, offset: u64) -> &'a [u8]
        requires later { LeavesOut self.now.told self.now.spans.now self.now.bytes.now
            rest.now.floor rest.now.spans.now rest.now.bytes.now }
        requires floor { rest.now.floor ≤ offset }
        ensures known { (i : ℕ) → i < length result.now
            → byte_in_parts self.now.told self.now.spans.now self.now.bytes.now (offset + i) ≡ Some (slice_index result.now i) }
        ensures none { length result.now ≡ 0 → is_some (byte_in_parts self.now.told self.now.spans.now self.now.bytes.now offset) ≡ false }
    {
        known_from(rest.spans, rest.bytes, self.told, offset)
    }

    // The parts at which a search for an offset begins: those that are left, or all parts if the offset lies before `floor`.
    #[inline(always)]
    fn rest_at(&self, offset: u64) -> Rest<'a>
        ensures later { LeavesOut self.now.told self.now.spans.now self.now.bytes.now result.floor result.spans.now result.bytes.now }
        ensures floor { result.floor ≤ offset }
    {
        match self.rest {
            Some(rest) if rest.floor <= offset => rest,
            _ => self.all(),
        }
    }

    // All parts, to begin a search at the first one.
    #[inline(always)]
    fn all(&self) -> Rest<'a>
        ensures later { LeavesOut self.now.told self.now.spans.now self.now.bytes.now result.floor result.spans.now result.bytes.now }
        ensures floor { result.floor ≡ 0 }
    {
        Rest {
            spans: self.spans,
            bytes: self.bytes,
            floor: 0,
        }
    }

    // Passes over the parts that end before the offset, so that the next search begins after them.
    //
    // A search would go over all parts at each read. So a walk along n parts would take time that grows with the square of n.
    fn pass_over(&mut self, offset: u64)
        ensures spans { self.new.spans.now ≡ self.old.spans.now }
        ensures bytes { self.new.bytes.now ≡ self.old.bytes.now }
        ensures told { self.new.told ≡ self.old.told }
    {
        self.rest = Some(passed_over(&self.rest_at(offset), self.told, offset));
    }
}

impl Known for Parts<'_> {
    ghost content = { λ s. record { told = s.told; spans = s.spans.now; bytes = s.bytes.now } };

    ghost near = { λ s offset. drop offset s.front.now };

    #[inline(always)]
    fn told(&self) -> u64 {
        self.told
    }

    // The bytes of `front` from an offset on. Nearly all reads lie there, so a branch costs less than the minimum of `bytes_behind`.
    #[inline(always)]
    fn near(&self, offset: u64) -> &[u8] {
        let start = offset as usize;
        if start > self.front.len() {
            return &self.front[..0];
        }
        &self.front[start..]
    }

    // An empty read, such as one past the end, needs no part.
    #[inline(always)]
    fn gather(&mut self, offset: u64, buffer: &mut [u8]) -> usize {
        if buffer.is_empty() || self.spans.len() <= FEW {
            return self.gather_among(&self.all(), offset, buffer);
        }
        self.gather_on(offset, buffer)
    }

    // Any of the missing bytes may end the text.
    #[inline(always)]
    fn missed_text(&self, _text: Text, offset: u64, found: usize, left: usize) -> Missing {
        Missing {
            start: offset + found as u64,
            sure: 1,
            most: left as u64,
        }
    }
}

/// Copies the first of these bytes into the buffer from an index on, as many as fit, and returns how many it copied.
pub fn put(run: &[u8], buffer: &mut [u8], index: usize) -> usize
    requires { index ≤ length buffer.old }
    ensures count { result ≡ min (length run.now) (length buffer.old - index) }
    ensures copied { buffer.new ≡ take index buffer.old ++ take result run.now ++ drop (index + result) buffer.old }
{
    let count = run.len().min(buffer.len() - index);
    buffer[index..index + count].copy_from_slice(&run[..count]);
    count
}

// The known bytes from an offset on, from the first part that contains it. They end where the part ends, or where an earlier part
// of the list begins.
#[tactic(auto, using(crate::proofs::Gathering::found_none, crate::proofs::Gathering::found_run))]
fn known_from<'a>(spans: &[Span], bytes: &'a [u8], told: u64, offset: u64) -> &'a [u8]
    ensures known { (i : ℕ) → i < length result.now
        → byte_in_parts told spans.now bytes.now (offset + i) ≡ Some (slice_index result.now i) }
    ensures none { length result.now ≡ 0 → is_some (byte_in_parts told spans.now bytes.now offset) ≡ false }
{
    let mut rest = bytes;
    let mut most = u64::MAX;
    for span in spans {
        let len = length_within(span, told);
        if has_offset(span.start, len, offset) {
            let index = offset - span.start;
            return part_of(rest, index, most.min(len - index));
        }
        most = count_before(span.start, offset, most);
        rest = bytes_behind(rest, len);
    }
    &rest[..0]
}

// The known bytes from offset 0 on.
//
// Texts are requested piece by piece, and each piece begins where the one before ends. So a read of a text mostly needs no search.
#[tactic(auto, using(crate::proofs::Gathering::joined_at, crate::proofs::Parts::part_length))]
fn known_front<'a>(spans: &[Span], bytes: &'a [u8], told: u64) -> &'a [u8]
    ensures { (i : ℕ) → i < length result.now → byte_in_parts told spans.now bytes.now i ≡ Some (slice_index result.now i) }
{
    let end = joined_end(spans, told);
    if end == 0 {
        return known_from(spans, bytes, told, 0);
    }
    part_of(bytes, 0, end)
}

// Where the first parts end, as far as the first begins at offset 0 and each begins where the one before ends.
fn joined_end(spans: &[Span], told: u64) -> u64
    ensures { (bytes : List ℕ) (i : ℕ) → i < result → byte_in_parts told spans.now bytes i ≡ byte_of bytes i }
{
    let mut end = 0;
    for span in spans {
        // A part after the end of the input gives no byte.
        if span.start != end || end >= told {
            return end;
        }
        end += length_within(span, told);
    }
    end
}

// The parts from the first one on that does not end before the offset.
fn passed_over<'a>(rest: &Rest<'a>, told: u64, offset: u64) -> Rest<'a>
    ensures { (spans : List Span) (bytes : List ℕ) → LeavesOut told spans bytes rest.now.floor rest.now.spans.now rest.now.bytes.now
        → LeavesOut told spans bytes result.floor result.spans.now result.bytes.now }
{
    let Rest {
        mut spans,
        mut bytes,
        mut floor,
    } = *rest;
    while let Some((span, others)) = spans.split_first() {
        let len = length_within(span, told);
        let end = span.start + len;
        if end > offset {
            break;
        }
        spans = others;
        bytes = bytes_behind(bytes, len);
        floor = floor.max(end);
    }
    Rest {
        spans,
        bytes,
        floor,
    }
}

// How many bytes of a span lie within an input of this length.
fn length_within(span: &Span, told: u64) -> u64
    ensures { result ≡ length_within told span.now }
{
    span.len.min(told.saturating_sub(span.start))
}

// Whether the `len` bytes from `start` on contain the offset.
fn has_offset(start: u64, len: u64, offset: u64) -> bool
    ensures { result ≡ (nat_le start offset && nat_lt (offset - start) len) }
{
    start <= offset && offset - start < len
}

// The lesser of `most` and the distance to `start`, if `start` is after the offset. Else `most`.
fn count_before(start: u64, offset: u64, most: u64) -> u64
    ensures { result ≡ (if nat_lt offset start then min most (start - offset) else most) }
{
    if offset < start {
        most.min(start - offset)
    } else {
        most
    }
}
