//! Values at fixed offsets, read from the first bytes of an input that arrives in chunks.
ghost use Rattle.std.specs.Prelude.{◌≡◌, ℕ, ◌<◌, ◌≤◌, ◌^◌, Bool, List, length, min, true, false};
ghost use Rattle.imagesize_source.specs.Agreement.{AllRead};
ghost use Rattle.imagesize_source.specs.Layout.{Layout, layout_reads};
ghost use Rattle.imagesize_source.specs.Reading.{is_faulted, is_stopped};
ghost use Rattle.imagesize_source.specs.State.{Follows};
ghost use Rattle.imagesize_pieces.specs.Stream.{AllBelow, Begins, Needs, Reach, Says};

use crate::arrived::Arrived;
use imagesize_source::Halt;
use imagesize_source::source::Source;
use imagesize_source::source::known::KnownSource;

/// A value at fixed offsets.
pub trait Fixed {
    /// The value.
    type Answer: Drop;

    /// The layout of its bytes.
    ghost layout: { Self → Layout Self.Answer };

    /// Reads the value.
    fn read<S: Source>(&self, source: &mut S) -> Result<Self::Answer, Halt>
        ensures { Follows (S.state source.old) (S.state source.new) result (layout self.now) };
}

/// Reads the value from the first bytes of an input of at most `told` bytes. The read fails if a byte that it needs is missing.
/// Also returns the offset after the last byte that a failed read requests.
pub fn read_first<F: Fixed>(fixed: &F, bytes: &[u8], told: u64) -> (Result<F::Answer, Halt>, u64)
    requires fits { length bytes.now ≤ told }
    requires short { told < 2 ^ 63 }
    ensures says { is_faulted result.0 ≡ false → Says bytes.now told (λ d. layout_reads d (F.layout fixed.now)) result.0 }
    ensures unstopped { is_faulted result.0 ≡ false → is_stopped result.0 ≡ false }
    ensures few { is_faulted result.0 ≡ true → (high : ℕ) → Reach 0 high (F.layout fixed.now) → length bytes.now < high }
    ensures complete { is_faulted result.0 ≡ true → (d : List ℕ) → Begins bytes.now told d → length d ≡ told
        → AllBelow (length bytes.now) (layout_reads d (F.layout fixed.now)).marks → ⊥ }

    // The value depends on a missing byte that the failed read requests. If no text is read, that read ends with the last of them.
    ensures marked { is_faulted result.0 ≡ true → (d : List ℕ) → Begins bytes.now told d → length d ≡ told
        → (texts : Bool) (high : ℕ) → AllRead texts (F.layout fixed.now) → Reach 0 high (F.layout fixed.now)
        → Needs texts (length bytes.now) (min result.1 high) (layout_reads d (F.layout fixed.now)).marks }

    // If all bytes of the input are here, the read does not fail.
    ensures whole { told ≤ length bytes.now → is_faulted result.0 ≡ false }

    // A failed read requests more than these bytes.
    ensures ends { is_faulted result.0 ≡ true → (length bytes.now < result.1) × (result.1 ≤ told) }
{
    let mut source = KnownSource::new(Arrived {
        start: 0,
        kept: bytes,
        chunk: &[],
        told,
    });
    let found = fixed.read(&mut source);
    (found, source.end())
}
