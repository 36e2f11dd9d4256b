//! A source: the bytes of an input, read at offsets.
ghost use Rattle.std.specs.Prelude.{◌≡◌, ◌+◌, ◌-◌, ◌^◌, ◌<◌, ◌≤◌, true, None, take, length, IfOk, IfSome};
ghost use Rattle.imagesize_source.specs.Input.{part};
ghost use Rattle.imagesize_source.specs.Halts.{error_by};
ghost use Rattle.imagesize_source.specs.Paying.{Paid};
ghost use Rattle.imagesize_source.specs.Reading.{map_answer, part_read, text_read};
ghost use Rattle.imagesize_source.specs.State.{State, Runs, IsSlice, IsSound, rejoined, shown_by, shown_state};

use crate::{Halt, ImageError, Text};
use held::{Claims, Counts, HeldSource};

pub mod held;
pub mod known;
pub mod log;
pub mod parts;
pub mod recording;
pub mod slice;

/// An input that is read at offsets, which count bytes from 0.
pub trait Source: Claims {
    /// The input, the bytes read from a reader, and the recorded spans.
    ghost state: { Self → State };

    /// What holds for a source that shows bytes by `held`.
    ghost shows: { Self → Type 0 } = { λ _. ⊥ };

    /// Whether `held` may return bytes. A walk asks only such a source for them. One that leaves this false is walked more slowly, with
    /// the same results.
    const SHOWS: bool = false;

    /// The length of the input in bytes, as it was reported.
    fn told(&self) -> u64
        ensures told { result ≡ (state self.now).frame.told }
        ensures sound { IsSound (state self.now) };

    /// How many bytes were read from a reader.
    fn taken(&self) -> u64
        ensures { result ≡ (state self.now).taken };

    /// The error that the call returns after a read failed with this `Halt`.
    fn refusal(&self, halt: Halt) -> ImageError
        ensures { result ≡ error_by (state self.now).failure (state self.now).frame.budget halt };

    /// The four bytes from an offset on, if this is a slice that has them. A read of a slice changes nothing, so more bytes may be
    /// looked at than are read. This call may always return `None`.
    #[inline(always)]
    fn glance(&self, _offset: u64) -> Option<[u8; 4]>
        ensures slice { IfSome result (λ _. IsSlice (state self.now)) }
        ensures short { IfSome result (λ _. length (state self.now).held.input < 2 ^ 63) }
        ensures fits { IfSome result (λ _. _offset + 4 ≤ length (state self.now).held.input) }
        ensures there { IfSome result (λ four. four ≡ part (state self.now).held.input _offset 4) }
    {
        None
    }

    /// The bytes from an offset on that the source holds, as a source of their own. A read of them makes no call of a reader.
    /// `pass` counts these reads afterwards. This call may always return `None`.
    #[inline(always)]
    fn held(&self, _offset: u64) -> Option<HeldSource<'_, Self>>
        ensures shows { IfSome result (λ held. shows self.now) }
        ensures start { IfSome result (λ held. held.start ≡ _offset) }
        ensures told { IfSome result (λ held. shown_state held.told held.budget (Self.kept held.of.now) (Self.claim held.of.now)
            (held.budget - held.left) held.position ≡ shown_by (state self.now)) }
        ensures counts { IfSome result (λ held. ((state self.now).frame.counts ≡ true) × ((state self.now).recorded ≡ None)) }
    {
        None
    }

    /// Counts what was read of the bytes that `held` returned. No other read was made since.
    fn pass(&mut self, counts: Counts)
        ensures { shows self.old → (state self.old).taken ≤ counts.taken → counts.taken ≤ (state self.old).frame.budget
            → state self.new ≡ rejoined (state self.old) counts.taken counts.position };

    /// Reads the bytes from an offset on into the buffer, as far as there are any, and returns how many. Fails with a `Halt`.
    fn read_at(&mut self, offset: u64, buffer: &mut [u8]) -> Result<usize, Halt>
        ensures bound { IfOk result (λ n. n ≤ length buffer.new) }

        // Bytes past the reported length and past the held bytes count against the budget.
        ensures pays { IfOk result (λ n. 0 < n → Paid (state self.old) (state self.new) offset) }
        ensures runs { Runs (state self.old) (state self.new)
            (map_answer (λ n. take n buffer.new) result)
            (part_read (state self.old).held.input offset (length buffer.new)) };

    /// Reads the text from an offset on into the buffer: the white space before a word, the text, and the byte that ends it.
    /// Returns how many bytes that is, or a `Halt`. It stops at the end of the input or of the buffer, and reads no byte
    /// after the text.
    fn read_text(&mut self, offset: u64, text: Text, buffer: &mut [u8]) -> Result<usize, Halt>
        ensures bound { IfOk result (λ n. n ≤ length buffer.new) }

        // Bytes past the reported length and past the held bytes count against the budget.
        ensures pays { IfOk result (λ n. 0 < n → Paid (state self.old) (state self.new) offset) }
        ensures runs { Runs (state self.old) (state self.new)
            (map_answer (λ n. take n buffer.new) result)
            (text_read (state self.old).held.input text offset (length buffer.new)) };
}
