//! The known bytes of an input as a source. A read of known bytes succeeds; any other read fails and records which byte it misses.
ghost use Rattle.std.specs.Prelude.{◌≡◌, ℕ, Bool, List, ◌+◌, ◌-◌, ◌^◌, ◌<◌, ◌≤◌, ◌++◌, ◌&&◌, [], min, take, length, not, nat_lt, true, false, None, Some, IfSome, IsSomeAnd, ok_or};
ghost use Rattle.std.specs.Option.{ForSome};
ghost use Rattle.imagesize_source.specs.Input.{part, span_at};
ghost use Rattle.imagesize_source.specs.Known.{AllKnown, AreKnown, KnownBytes, Lacks, MissesText, end_of, input_of, is_known, known_state};
ghost use Rattle.imagesize_source.specs.Reading.{part_read, text_read, map_answer};
ghost use Rattle.imagesize_source.specs.State.{Runs};
ghost use Rattle.imagesize_source.specs.Text.{is_ended, text_front};

use super::Source;
use super::held::{Claims, Counts};
use super::log::SpanLog;
use crate::part::copy_ended;
use crate::text::ended_behind;
use crate::{Halt, ImageError, Reason, Text};

/// What a read misses, from its first unknown byte on.
#[derive(Clone, Copy)]
pub struct Missing {
    /// The offset of that byte.
    pub start: u64,
    /// How many bytes from there on are certain to be read: 1 for a text whose end may be among them, else all that the read
    /// requests.
    pub sure: u64,
    /// How many bytes the read requests from there on.
    pub most: u64,
}

/// Bytes of an input that are known.
pub trait Known: Drop {
    /// The length of the input, and the known bytes with their spans.
    ghost content: { Self → KnownBytes };

    /// Known bytes from an offset on, from one slice. More may be known, even if the slice is empty.
    ghost near: { Self → ℕ → List ℕ };

    /// Whether a read that misses the byte at an offset is certain to read all that it requests from there on.
    ghost certain: { Self → ℕ → Bool } = { λ _ _. false };

    /// The length of the input in bytes.
    fn told(&self) -> u64
        ensures { result ≡ (content self.now).told };

    /// Known bytes from an offset on, from one slice. More may be known, even if the slice is empty.
    fn near(&self, offset: u64) -> &[u8]
        ensures near { result.now ≡ near self.now offset }
        ensures known { AreKnown (content self.now) offset result.now };

    /// Whether the byte after `near` is missing. The implementation may always return false: `true` only saves a search.
    #[inline(always)]
    fn ends_near(&self, _offset: u64) -> bool
        ensures { result ≡ true → is_known (content self.now) (_offset + length (near self.now _offset)) ≡ false }
    {
        false
    }

    /// Copies the known bytes of a read into the buffer, up to the first missing byte, and returns how many it copied. The buffer
    /// must end within the input.
    fn gather(&mut self, offset: u64, buffer: &mut [u8]) -> usize
        requires { length buffer.old ≤ (content self.old).told - offset }
        ensures same { content self.new ≡ content self.old }
        ensures certain { (offset : ℕ) → certain self.new offset ≡ certain self.old offset }
        ensures within { result ≤ length buffer.old }
        ensures copied { take result buffer.new ≡ part (input_of (content self.old)) offset result }
        ensures known { (i : ℕ) → i < result → is_known (content self.old) (offset + i) ≡ true }
        ensures missing { result < length buffer.old → is_known (content self.old) (offset + result) ≡ false };

    /// What a text read misses, if its first `found` bytes are known and do not end the text. `left` more requested bytes lie
    /// within the input.
    fn missed_text(&self, text: Text, offset: u64, found: usize, left: usize) -> Missing
        requires known { (i : ℕ) → i < found → is_known (content self.now) (offset + i) ≡ true }
        requires unknown { is_known (content self.now) (offset + found) ≡ false }
        requires open { is_ended text (part (input_of (content self.now)) offset found) ≡ false }
        requires some { 0 < left }
        requires fits { offset + found + left ≤ (content self.now).told }
        ensures lacks { Lacks (content self.now) result }
        ensures start { result.start ≡ offset + found }
        ensures certain { certain self.now (offset + found) ≡ true → result.sure ≡ result.most }
        ensures misses { (most : ℕ) → found + left ≡ min most ((content self.now).told - offset)
            → MissesText (content self.now) text offset found most result };
}

/// The known bytes of an input, as a source.
#[derive(Drop)]
pub struct KnownSource<K: Known> {
    /// The known bytes.
    pub known: K,
    /// What the last failed read misses.
    pub missed: Option<Missing>,
    /// The spans of the reads.
    pub log: SpanLog,
    ghost seen: { AllKnown (K.content known).told (K.content known).spans (K.content known).bytes log.spans },
    ghost lacks: { ForSome missed (Lacks (K.content known)) },
    ghost sure: { ForSome missed (λ m. K.certain known m.start ≡ true → m.sure ≡ m.most) },
    ghost fits: { ForSome missed (λ m. m.start + m.most < 2 ^ 64) },
}

impl<K: Known> KnownSource<K> {
    /// A source of these bytes.
    #[inline(always)]
    pub fn new(known: K) -> Self
        ensures known { result.known ≡ known }
        ensures seen { result.log.spans ≡ [] }
        ensures missed { result.missed ≡ None }
    {
        KnownSource {
            known,
            missed: None,
            log: SpanLog::new(),
        }
    }

    /// Forgets what the reads so far saw and missed. The known bytes stay as they are.
    #[inline(always)]
    pub fn forget(&mut self)
        ensures same { self.new.known ≡ self.old.known }
        ensures seen { self.new.log.spans ≡ [] }
        ensures missed { self.new.missed ≡ None }
    {
        self.log = SpanLog::new();
        self.missed = None;
    }

    /// The offset after the last byte that the last failed read requests.
    pub fn end(&self) -> u64
        ensures { result ≡ end_of self.now.missed }
    {
        match self.missed {
            Some(missing) => missing.start + missing.most,
            None => 0,
        }
    }

    // Records `count` bytes from an offset on. Without bytes it records no span.
    #[inline(always)]
    fn see(&mut self, start: u64, count: usize)
        requires { (i : ℕ) → i < count → is_known (K.content self.old.known) (start + i) ≡ true }
        ensures same { self.new.known ≡ self.old.known }
        ensures seen { self.new.log.spans ≡ self.old.log.spans ++ span_at start count }
        ensures missed { self.new.missed ≡ self.old.missed }
    {
        self.log.see(start, count);
    }

    // Records a read whose first `count` bytes are known, and what it misses.
    #[inline(always)]
    fn miss(&mut self, start: u64, count: usize, missing: Missing)
        requires known { (i : ℕ) → i < count → is_known (K.content self.old.known) (start + i) ≡ true }
        requires lacks { Lacks (K.content self.old.known) missing }
        requires certain { K.certain self.old.known missing.start ≡ true → missing.sure ≡ missing.most }
        requires short { (K.content self.old.known).told < 2 ^ 64 }
        ensures same { self.new.known ≡ self.old.known }
        ensures seen { self.new.log.spans ≡ self.old.log.spans ++ span_at start count }
        ensures missed { self.new.missed ≡ Some missing }
    {
        self.see(start, count);
        self.missed = Some(missing);
    }

    // Copies the known bytes of a read into the buffer, up to the first missing byte. Returns how many it copied, and how many
    // bytes of the buffer lie within the input.
    #[inline(always)]
    fn fill_known(&mut self, offset: u64, buffer: &mut [u8]) -> (usize, usize)
        ensures same { K.content self.new.known ≡ K.content self.old.known }
        ensures seen { self.new.log.spans ≡ self.old.log.spans }
        ensures missed { self.new.missed ≡ self.old.missed }
        ensures wanted { result.1 ≡ min (length buffer.new) ((K.content self.old.known).told - offset) }
        ensures short { (K.content self.old.known).told < 2 ^ 64 }
        ensures within { result.0 ≤ result.1 }
        ensures copied { take result.0 buffer.new ≡ part (input_of (K.content self.old.known)) offset result.0 }
        ensures known { (i : ℕ) → i < result.0 → is_known (K.content self.old.known) (offset + i) ≡ true }
        ensures missing { result.0 < result.1 → is_known (K.content self.old.known) (offset + result.0) ≡ false }
    {
        let wanted = count_there(self.known.told(), offset, buffer.len());
        let found = self.known.gather(offset, &mut buffer[..wanted]);
        (found, wanted)
    }

    // The `count` bytes from an offset on, or `None` if `near` does not have them all.
    #[inline(always)]
    fn whole_from(&self, offset: u64, count: usize) -> Option<&[u8]>
        ensures long { IfSome result (λ found. length found.now ≡ count) }
        ensures known { IfSome result (λ found. AreKnown (K.content self.now.known) offset found.now) }
    {
        let near = self.known.near(offset);
        if near.len() < count {
            return None;
        }
        Some(&near[..count])
    }

    // A read that `near` does not have as a whole. `None` means that a byte is missing. A number is returned in a register. A `Halt`
    // would go through memory.
    #[cold]
    #[inline(never)]
    fn gather_at(&mut self, offset: u64, buffer: &mut [u8]) -> Option<usize>
        ensures bound { IfSome result (λ n. n ≤ length buffer.new) }
        ensures there { IfSome result (λ n. n ≤ (K.content self.old.known).told - offset) }

        // A failed read misses all its bytes from the first missing one on, as far as the input goes.
        ensures all { result ≡ None → IsSomeAnd self.new.missed
            (λ m. (m.start + m.sure ≡ min (offset + length buffer.old) (K.content self.old.known).told) × (m.most ≡ m.sure)) }
        ensures runs { Runs (known_state (K.content self.old.known) self.old.log.spans self.old.missed)
            (known_state (K.content self.new.known) self.new.log.spans self.new.missed)
            (map_answer (λ n. take n buffer.new) (ok_or result Halt.Failed))
            (part_read (input_of (K.content self.old.known)) offset (length buffer.new)) }
    {
        let (found, wanted) = self.fill_known(offset, buffer);
        if found < wanted {
            let missing = (wanted - found) as u64;
            self.miss(
                offset,
                found,
                Missing {
                    start: offset + found as u64,
                    sure: missing,
                    most: missing,
                },
            );
            return None;
        }
        self.see(offset, found);
        Some(found)
    }

    // A text that the bytes of `near` do not end. They are not searched again. `None` means that a byte is missing.
    #[cold]
    #[inline(never)]
    fn gather_text(&mut self, offset: u64, text: Text, buffer: &mut [u8]) -> Option<usize>
        requires { is_ended text (take (length buffer.old) (K.near self.old.known offset)) ≡ false }
        ensures bound { IfSome result (λ n. n ≤ length buffer.new) }
        ensures there { IfSome result (λ n. n ≤ (K.content self.old.known).told - offset) }
        ensures runs { Runs (known_state (K.content self.old.known) self.old.log.spans self.old.missed)
            (known_state (K.content self.new.known) self.new.log.spans self.new.missed)
            (map_answer (λ n. take n buffer.new) (ok_or result Halt.Failed))
            (text_read (input_of (K.content self.old.known)) text offset (length buffer.new)) }
    {
        let at_hand = self.known.near(offset).len();
        // If the text goes on past the last known byte, no copy is needed.
        if self.known.ends_near(offset) {
            let wanted = count_there(self.known.told(), offset, buffer.len());
            if at_hand < wanted {
                self.miss_text(offset, text, at_hand, wanted);
                return None;
            }
        }
        let (found, wanted) = self.fill_known(offset, buffer);
        let searched = at_hand.min(found);
        let Some(count) = uncut_length(text, &buffer[..found], searched, wanted) else {
            self.miss_text(offset, text, found, wanted);
            return None;
        };
        self.see(offset, count);
        Some(count)
    }

    // Records a read of a text that misses a byte. Its first `found` bytes are known, and do not end it. `wanted` is how many of the
    // requested bytes lie within the input.
    #[inline(always)]
    fn miss_text(&mut self, offset: u64, text: Text, found: usize, wanted: usize)
        requires known { (i : ℕ) → i < found → is_known (K.content self.old.known) (offset + i) ≡ true }
        requires unknown { is_known (K.content self.old.known) (offset + found) ≡ false }
        requires open { is_ended text (part (input_of (K.content self.old.known)) offset found) ≡ false }
        requires few { found < wanted }
        requires there { wanted ≤ (K.content self.old.known).told - offset }
        requires short { (K.content self.old.known).told < 2 ^ 64 }
        ensures { (most : ℕ) → wanted ≡ min most ((K.content self.old.known).told - offset) → Runs {X = List ℕ}
            (known_state (K.content self.old.known) self.old.log.spans self.old.missed)
            (known_state (K.content self.new.known) self.new.log.spans self.new.missed)
            (Err Halt.Failed)
            (text_read (input_of (K.content self.old.known)) text offset most) }
    {
        let missing = self.known.missed_text(text, offset, found, wanted - found);
        self.miss(offset, found, missing);
    }
}

impl<K: Known> Claims for KnownSource<K> {}

impl<K: Known> Source for KnownSource<K> {
    ghost state = { λ s. known_state (K.content s.known) s.log.spans s.missed };

    #[inline(always)]
    fn told(&self) -> u64 {
        self.known.told()
    }

    fn taken(&self) -> u64 {
        0
    }

    #[inline(always)]
    fn refusal(&self, halt: Halt) -> ImageError {
        halt.error(Reason::EndOfInput, 0)
    }

    // It shows no bytes.
    #[inline(always)]
    fn pass(&mut self, _counts: Counts) {}

    #[inline(always)]
    fn read_at(&mut self, offset: u64, buffer: &mut [u8]) -> Result<usize, Halt> {
        let Some(found) = self.whole_from(offset, buffer.len()) else {
            return self.gather_at(offset, buffer).ok_or(Halt::Failed);
        };
        buffer.copy_from_slice(found);
        self.see(offset, buffer.len());
        Ok(buffer.len())
    }

    #[inline(always)]
    fn read_text(&mut self, offset: u64, text: Text, buffer: &mut [u8]) -> Result<usize, Halt> {
        let Some(count) = copy_ended(self.known.near(offset), text, buffer) else {
            return self.gather_text(offset, text, buffer).ok_or(Halt::Failed);
        };
        self.see(offset, count);
        Ok(count)
    }
}

// How many bytes from an offset on lie within an input of this length, up to the length of the buffer.
fn count_there(told: u64, offset: u64, buffer: usize) -> usize
    ensures { result ≡ min buffer (told - offset) }
{
    let left = told.saturating_sub(offset);
    if left < buffer as u64 {
        left as usize
    } else {
        buffer
    }
}

// How many bytes the text at the front of the bytes has. `None` if it may go on after them: none of them ends it, and the read
// requests more. The first `searched` bytes do not end it.
#[tactic(auto, using(crate::proofs::Texts::fronts, crate::proofs::Texts::whole_fronts))]
fn uncut_length(text: Text, bytes: &[u8], searched: usize, wanted: usize) -> Option<usize>
    requires searched { searched ≤ length bytes.now }
    requires unended { is_ended text (take searched bytes.now) ≡ false }
    ensures within { IfSome result (λ n. n ≤ length bytes.now) }
    ensures length { IfSome result (λ n. n ≡ length (text_front text bytes.now)) }
    ensures uncut { IfSome result (λ _. (nat_lt (length bytes.now) wanted && not (is_ended text bytes.now)) ≡ false) }
    ensures cut { result ≡ None → (nat_lt (length bytes.now) wanted && not (is_ended text bytes.now)) ≡ true }
{
    // If all bytes are searched and more are wanted, this saves the call.
    if searched == bytes.len() && searched < wanted {
        return None;
    }
    match ended_behind(text, &bytes[..searched], &bytes[searched..]) {
        Some(more) => Some(searched + more),
        None if bytes.len() < wanted => None,
        None => Some(bytes.len()),
    }
}
