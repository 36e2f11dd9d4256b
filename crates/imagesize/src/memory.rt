//! Calls over bytes in memory.
ghost use Rattle.std.specs.Prelude.{◌≡◌, ℕ, ◌≤◌, length, IfOk, IfErr, IfSome, IsSome, false};
ghost use Rattle.imagesize_io.specs.Answers.{Answers, PlacedAt};
ghost use Rattle.imagesize_source.specs.Errors.{budget_spent, end_of_input, is_memory, is_stopped};
ghost use Rattle.imagesize_source.specs.Halts.{error_by};
ghost use Rattle.imagesize_source.specs.Limits.{allowance};
ghost use Rattle.imagesize.specs.Meaning.{kind_of, meaning, size_of};
ghost use Rattle.imagesize.specs.Opening.{in_memory};
ghost use Rattle.imagesize.specs.Probed.{Probes, counted_answer, counted_probe};

use crate::calls::probe;
use crate::formats::{detect, size};
use crate::types::ImageType;
use crate::{ImageError, ImageResult};
use imagesize_io::counting::CountingSource;
use imagesize_io::memory::MemorySource;
use imagesize_source::halt::with_error;
use imagesize_source::source::Source;
use imagesize_source::source::slice::SliceSource;
use imagesize_source::{Halt, Reason};
use imagesize_types::size::ImageSize;

// The type of the image at an offset of bytes in memory.
#[tactic(auto, using(crate::proofs::Endings::over_slice))]
pub(crate) fn memory_type(bytes: &[u8], offset: u64) -> ImageResult<ImageType>
    ensures value { result ≡ (kind_of bytes.now offset).answer }
    ensures unstopped { is_stopped result ≡ false }
{
    let mut source = MemorySource {
        slice: SliceSource::new(bytes),
    };
    let found = detect(&mut source, offset);
    with_error(found, &source)
}

// The size of the image in bytes in memory, whose type is found at an offset.
#[tactic(auto, using(crate::proofs::Endings::over_slice))]
pub(crate) fn memory_size(bytes: &[u8], offset: u64) -> ImageResult<ImageSize>
    ensures value { result ≡ (meaning bytes.now offset).answer }
    ensures unstopped { is_stopped result ≡ false }
{
    let mut source = MemorySource {
        slice: SliceSource::new(bytes),
    };
    let (_, found) = probe(&mut source, offset);
    with_error(found, &source)
}

// What was found in the bytes of a reader in memory.
#[derive(Drop)]
pub(crate) struct Counted {
    pub(crate) kind: Option<ImageType>,
    pub(crate) found: Result<ImageSize, Halt>,
    // How many bytes a source over the reader would have read.
    pub(crate) taken: u64,
    // The offset at which the reader is to be left.
    pub(crate) position: u64,
}

// Type and size of the image in the bytes of a reader in memory. The caller makes the error of a `Halt`: a result with room
// for an error would be copied once more, in 48 instructions.
pub(crate) fn memory_probe(bytes: &[u8], offset: u64) -> Counted
    ensures probes { Probes (in_memory bytes.now offset) (counted_probe (length bytes.now) result) }
    ensures typed { IfOk result.found (λ _. IsSome result.kind) }
    ensures spent { IfErr (counted_probe (length bytes.now) result).answer (λ e. IfSome (budget_spent e)
        (λ budget. (budget ≡ result.taken) × (allowance ≤ budget))) }
    ensures memory { IfErr (counted_probe (length bytes.now) result).answer (λ e. is_memory e ≡ false) }
    ensures there { result.position ≤ length bytes.now }
    ensures offset { PlacedAt (in_memory bytes.now offset) meaning result.position }
{
    let mut source = CountingSource::new(bytes);
    let (kind, found) = probe(&mut source, offset);
    let taken = source.taken();
    Counted {
        kind,
        found,
        taken,
        position: source.position(),
    }
}

// The error of a call over bytes in memory. Not inlined, so that a size is written into the result at once.
#[cold]
#[inline(never)]
pub(crate) fn refused(halt: Halt, budget: u64) -> ImageError
    ensures { result ≡ error_by end_of_input budget halt }
{
    halt.error(Reason::EndOfInput, budget)
}

// The size of the image in the bytes of a reader in memory, read as a type, and the offset at which the reader is to be left. The
// caller makes the error of a `Halt`: a result with room for an error would be copied once more.
pub(crate) fn memory_size_as(kind: ImageType, bytes: &[u8]) -> (Result<ImageSize, Halt>, u64)
    ensures answers { (offset : ℕ) → Answers (in_memory bytes.now offset) (λ d offset. size_of kind d)
        (counted_answer (length bytes.now) result.0) }
    ensures spent { IfErr (counted_answer (length bytes.now) result.0) (λ e. IfSome (budget_spent e) (λ budget. allowance ≤ budget)) }
    ensures memory { IfErr (counted_answer (length bytes.now) result.0) (λ e. is_memory e ≡ false) }
    ensures there { result.1 ≤ length bytes.now }
    ensures offset { (offset : ℕ) → PlacedAt (in_memory bytes.now offset) (λ d offset. size_of kind d) result.1 }
{
    let mut source = CountingSource::new(bytes);
    // Matched at once: a result that is passed on is copied field by field.
    match size(&mut source, kind) {
        Ok(size) => (Ok(size), source.position()),
        Err(halt) => (Err(halt), source.position()),
    }
}
