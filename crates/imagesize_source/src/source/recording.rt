//! A slice as a source that records which bytes each read saw. It reads nothing from a reader, and no read fails.
ghost use Rattle.std.specs.Prelude.{◌≡◌, ◌-◌, ◌^◌, ◌<◌, ◌≤◌, List, [], ◌∷◌, ◌++◌, min, length};
ghost use Rattle.imagesize_source.specs.Buffer.{Holds};
ghost use Rattle.imagesize_source.specs.Input.{span_at};
ghost use Rattle.imagesize_source.specs.State.{recording_state, total};
ghost use Rattle.imagesize_source.specs.declared.span.Span.{Span};

use super::Source;
use super::held::{Claims, Counts};
use super::log::SpanLog;
use crate::part::{copy_part, copy_text_at};
use crate::{Halt, ImageError, Reason, Span, Text};

/// A slice that is read at offsets, and the spans of the reads so far, in order. A read that saw no byte has no span.
#[derive(Drop)]
pub struct RecordingSource<'a, 'b> {
    /// The bytes that are read.
    pub bytes: &'a [u8],
    /// The buffer whose front the spans are written to, as many as fit.
    pub buffer: &'b mut [Span],
    /// How many spans were recorded.
    pub count: usize,
    /// All recorded spans.
    pub log: SpanLog,
    ghost short: { length bytes.now < 2 ^ 63 },
    ghost written: { Holds buffer.now log.spans },
    ghost counted: { count ≡ min (length log.spans) (2 ^ 64 - 1) },
    ghost seen: { length log.spans ≤ total log.spans },
}

impl<'a, 'b> RecordingSource<'a, 'b> {
    /// A source of a slice's bytes that writes its spans to the caller's buffer. It has no spans yet.
    #[inline(always)]
    pub fn new(bytes: &'a [u8], buffer: &'b mut [Span]) -> Self
        ensures bytes { result.bytes.now ≡ bytes.now }
        ensures same_reference { result.buffer.ghost_name ≡ buffer.entry.ghost_name }
        ensures buffer { result.buffer.now ≡ buffer.old }
        ensures spans { result.log.spans ≡ [] }
    {
        // The proof needs that the length is below 2^63.
        let _length = bytes.len();
        RecordingSource {
            bytes,
            buffer,
            count: 0,
            log: SpanLog::new(),
        }
    }

    // Records `count` bytes from an offset on. Without bytes it records no span.
    #[inline(always)]
    #[tactic(auto, using(crate::proofs::Runs::lengths), unfolding(crate::specs::Input::span_at))]
    fn record(&mut self, start: u64, count: usize)
        ensures same_reference { self.new.buffer.ghost_name ≡ self.old.buffer.ghost_name }
        ensures bytes { self.new.bytes.now ≡ self.old.bytes.now }
        ensures recorded { self.new.log.spans ≡ self.old.log.spans ++ span_at start count }
    {
        if count == 0 {
            return;
        }
        let len = count as u64;
        let span = Span { start, len };
        put(self.buffer, self.count, span);
        self.count = self.count.saturating_add(1);
        self.log = SpanLog::with(&self.log, &span);
    }
}

// Writes a span after `count` others, if it fits.
#[inline(always)]
fn put(buffer: &mut [Span], count: usize, span: Span)
    ensures { (spans : List Span) → count ≡ min (length spans) (2 ^ 64 - 1) → Holds buffer.old spans
        → Holds buffer.new (spans ++ span ∷ []) }
{
    if count < buffer.len() {
        buffer[count] = span;
    }
}

impl Claims for RecordingSource<'_, '_> {}

impl Source for RecordingSource<'_, '_> {
    ghost state = { λ s. recording_state s.bytes.now s.log.spans s.buffer.ghost_name };

    #[inline(always)]
    fn told(&self) -> u64 {
        self.bytes.len() as u64
    }

    #[inline(always)]
    fn taken(&self) -> u64 {
        0
    }

    fn refusal(&self, halt: Halt) -> ImageError {
        halt.error(Reason::EndOfInput, 0)
    }

    // It shows no bytes.
    #[inline(always)]
    fn pass(&mut self, _counts: Counts) {}

    #[inline(always)]
    fn read_at(&mut self, offset: u64, buffer: &mut [u8]) -> Result<usize, Halt> {
        let count = copy_part(self.bytes, offset, buffer);
        self.record(offset, count);
        Ok(count)
    }

    // Inlined, so that the compiler knows whether the text is a line or a word. This saves a third of the instructions of an empty
    // line.
    #[inline(always)]
    fn read_text(&mut self, offset: u64, text: Text, buffer: &mut [u8]) -> Result<usize, Halt> {
        let length = copy_text_at(self.bytes, offset, text, buffer);
        self.record(offset, length);
        Ok(length)
    }
}
