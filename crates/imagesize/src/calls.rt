//! The calls: type and size of the image in a slice, or in a reader's bytes.
ghost use Rattle.std.specs.Prelude.{◌≡◌, ℕ, ◌+◌, ◌<◌, ◌≤◌, List, length, ◌++◌, IsTrue, IfOk, IsOkAnd, IfErr, IfSome, IsSome, true, false, Ok, Err, option_map};
ghost use Rattle.imagesize_io.specs.Answers.{Answers, CountsWithin, IsLast, Leaves, LeavesAt};
ghost use Rattle.imagesize_source.specs.Limits.{allowance};
ghost use Rattle.imagesize_source.specs.Errors.{end_of_input, is_fault, is_memory, budget_spent, is_stopped};
ghost use Rattle.imagesize_source.specs.Reading.{is_stopped as has_stopped};
ghost use Rattle.imagesize_source.specs.State.{Runs};
ghost use Rattle.imagesize_source.specs.Agreement.{Agrees};
ghost use Rattle.imagesize.specs.Counts.{Stays, cost, keeps, lasts_as, most_bytes, stated_bytes};
ghost use Rattle.std.specs.Result.{result_ok};
ghost use Rattle.imagesize.specs.Meaning.{kind_of, kind_reads, meaning, meaning_reads, size_of};
ghost use Rattle.imagesize.specs.Opening.{IsOpened, before};
ghost use Rattle.imagesize.specs.Probed.{FindsKind, Probes, SpentAll};
ghost use Rattle.imagesize.specs.Short.{Ends};

use crate::formats::{detect, size};
use crate::memory::{Counted, memory_probe, memory_size, memory_size_as, memory_type, refused};
use crate::types::ImageType;
use crate::{ImageResult, Told};
use imagesize_io::counting::leave;
use imagesize_io::reader::{ALLOWANCE, Opened, Origin, ReaderSource, open, settle};
use imagesize_source::Halt;
use imagesize_source::halt::with_error;
use imagesize_source::source::Source;
use imagesize_source::source::slice::SliceSource;
use imagesize_types::size::ImageSize;

/// What was found in a reader's bytes, and how many bytes were read to find it.
#[derive(Debug, Drop)]
pub struct Probed {
    /// The type, if one was found.
    pub kind: Option<ImageType>,
    /// The size in pixels, or the error.
    pub answer: ImageResult<ImageSize>,
    /// How many bytes the reads of this call gave.
    pub taken: u64,
}

/// Detects the type of an image from its first bytes, with its compression if the type has several. The compression is
/// `Unknown` if these bytes do not have it.
///
/// Errors: `NotSupported` if the bytes are of no known type, and `EndOfInput` if there are fewer than 12 bytes.
///
/// ```
/// use imagesize::{ImageType, image_type};
///
/// assert_eq!(image_type(b"GIF89a\x80\x02\xe0\x01\0\0").ok(), Some(ImageType::Gif));
/// ```
#[tactic(auto, using(crate::proofs::Endings::over_slice, crate::proofs::Locality::same_kind_of, crate::proofs::Short::no_kind))]
pub fn image_type(header: &[u8]) -> ImageResult<ImageType>
    ensures value { result ≡ (kind_of header.now 0).answer }
    ensures short { length header.now < 12 → result ≡ Err end_of_input }

    // Another input of this length that agrees on the spans `marks` has the same type, at every offset.
    ensures local { (offset : ℕ) (e : List ℕ) → Agrees header.now e (kind_of header.now offset).marks
        → kind_of e offset ≡ kind_of header.now offset }

    // Appended bytes change no type but TGA, and no compression but an unknown one.
    ensures lasts { IfOk result (λ type. IsTrue (keeps type) → (x : List ℕ) → IsOkAnd (kind_of (header.now ++ x) 0).answer (Stays type)) }

    // Over a slice no read fails, there is no budget, and nothing is allocated.
    ensures unstopped { is_stopped result ≡ false }
{
    let mut source = SliceSource::new(header);
    with_error(detect(&mut source, 0), &source)
}

/// Reads the size in pixels of the image in a slice.
///
/// Errors: `NotSupported` if the first bytes are of no known type, `EndOfInput` if the bytes end before the size, and the
/// errors of the type's format.
///
/// ```
/// use imagesize::blob_size;
///
/// let size = blob_size(b"GIF89a\x80\x02\xe0\x01\0\0")?;
/// assert_eq!((size.width, size.height), (640, 480));
/// ```
#[tactic(auto, using(crate::proofs::Endings::over_slice, crate::proofs::Counts::costs, crate::proofs::Extension::size_lasts, crate::proofs::Locality::same_meaning, crate::proofs::Short::no_meaning))]
pub fn blob_size(data: &[u8]) -> ImageResult<ImageSize>
    ensures value { result ≡ (meaning «data».now 0).answer }
    ensures short { length «data».now < 12 → result ≡ Err end_of_input }

    // Another input of this length that agrees on the spans `marks` has the same size and the same spans, at every offset.
    ensures local { (offset : ℕ) (e : List ℕ) → Agrees «data».now e (meaning «data».now offset).marks
        → meaning e offset ≡ meaning «data».now offset }

    // `cost` adds up the lengths of the spans. At every offset it is at most 41 for an unknown type and for a size at fixed
    // offsets. For a walk it is at most 64, plus 20 for each segment, chunk, box or entry that is begun.
    ensures stated { (offset : ℕ) → cost «data».now offset ≤ stated_bytes «data».now offset }

    // Each format has its own bound: a number for fixed offsets, and for a walk a number plus another for each record that is
    // begun. Walks and text formats also cost at most 28 bytes more than the input has.
    ensures most { (offset : ℕ) → cost «data».now offset ≤ most_bytes «data».now offset }

    // Every size and every error costs at most 64 bytes more than the input has.
    ensures within { (offset : ℕ) → cost «data».now offset ≤ length «data».now + allowance }

    // Appended bytes change no size, except for HEIF, icons and TGA.
    ensures lasts { IsTrue (lasts_as (kind_of «data».now 0).answer) → IfOk result (λ size.
        (x : List ℕ) → (meaning («data».now ++ x) 0).answer ≡ Ok size) }

    // Over a slice no read fails, there is no budget, and nothing is allocated.
    ensures unstopped { is_stopped result ≡ false }
{
    let source = SliceSource::new(data);
    with_error(probe_slice(data).1, &source)
}

/// Reads type and size of the image in a slice. The type is found once for both. It is there even if the size has an error.
///
/// The errors are those of `blob_size`.
///
/// ```
/// use imagesize::{ImageType, blob_probe};
///
/// let (kind, size) = blob_probe(b"GIF89a\x80\x02");
/// assert_eq!(kind, Some(ImageType::Gif));
/// assert!(size.is_err());
/// ```
#[tactic(auto, using(crate::proofs::Endings::over_slice, crate::proofs::Meanings::same_kind))]
pub fn blob_probe(data: &[u8]) -> (Option<ImageType>, ImageResult<ImageSize>)
    ensures kind { result.0 ≡ result_ok (kind_of «data».now 0).answer }
    ensures value { result.1 ≡ (meaning «data».now 0).answer }

    // Over a slice no read fails, there is no budget, and nothing is allocated.
    ensures unstopped { is_stopped result.1 ≡ false }
{
    let source = SliceSource::new(data);
    let (kind, found) = probe_slice(data);
    (kind, with_error(found, &source))
}

// Type and size of the image in a slice.
#[tactic(auto, using(crate::proofs::Endings::over_slice))]
fn probe_slice(data: &[u8]) -> (Option<ImageType>, Result<ImageSize, Halt>)
    ensures value { result.1 ≡ (meaning_reads «data».now 0).answer }
    ensures kind { result.0 ≡ result_ok (kind_reads «data».now 0).answer }
    ensures unstopped { has_stopped result.1 ≡ false }
{
    probe(&mut SliceSource::new(data), 0)
}

// The type at an offset of a source, and the size by that type.
pub(crate) fn probe<S: Source>(
    source: &mut S,
    offset: u64,
) -> (Option<ImageType>, Result<ImageSize, Halt>)
    ensures runs { Runs (S.state source.old) (S.state source.new) result.1
        (meaning_reads (S.state source.old).held.input offset) }
    ensures kind { FindsKind (S.state source.old) offset result.0 result.1 }
    ensures typed { IfOk result.1 (λ _. IsSome result.0) }
{
    match detect(source, offset) {
        Ok(found) => (Some(found), size(source, found)),
        Err(halt) => (None, Err(halt)),
    }
}

/// Detects the type of the image in a reader's bytes, from the twelve bytes at the reader's offset.
///
/// Errors: `NotSupported` if the bytes are of no known type, `EndOfInput` if fewer than 12 are left, and `Fault` if a call of
/// the reader fails.
///
/// ```
/// use imagesize::{ImageType, reader_type};
/// use std::io::Cursor;
///
/// let bytes: &[u8] = b"GIF89a\x80\x02\xe0\x01\0\0";
/// assert_eq!(reader_type(Cursor::new(bytes)).ok(), Some(ImageType::Gif));
/// ```
#[tactic(auto, using(crate::proofs::Memories::memory_answers, crate::proofs::Short::answers_end, crate::proofs::Short::no_kind))]
pub fn reader_type<R: Told>(mut reader: R) -> ImageResult<ImageType>
    ensures answers { Answers (R.telling reader) kind_of result }
    ensures short { Ends (R.telling reader) result }
    ensures memory { IfErr result (λ e. is_memory e ≡ false) }

    // A spent budget is the reported length plus 64.
    ensures spent { IfErr result (λ e. IfSome (budget_spent e) (λ budget. allowance ≤ budget)) }
{
    let opened = open(&mut reader, Origin::Offset)?;
    // Bytes in memory are read where they lie, and are not counted: that saves half of the instructions of a call over a cursor.
    if let Some(bytes) = reader.in_memory() {
        return memory_type(bytes, opened.offset);
    }
    let mut source = ReaderSource::new(&mut reader, opened.told);
    let found = detect(&mut source, opened.offset);
    with_error(found, &source)
}

/// Reads the size in pixels of the image in a reader's bytes. The twelve bytes at the reader's offset give the type, and the
/// size is read at offsets from the first byte of the input.
///
/// Errors: those of `reader_type`, `EndOfInput` if the bytes end before the size, and the errors of the type's format.
/// `BudgetSpent` if more bytes would be read than the length of the input, as its seeks report it, plus 64.
///
/// ```
/// use imagesize::reader_size;
/// use std::io::Cursor;
///
/// let bytes: &[u8] = b"GIF89a\x80\x02\xe0\x01\0\0";
/// assert_eq!(reader_size(Cursor::new(bytes))?.width, 640);
/// ```
#[tactic(auto, using(crate::proofs::Memories::opening, crate::proofs::Short::answers_end, crate::proofs::Short::no_meaning))]
pub fn reader_size<R: Told>(mut reader: R) -> ImageResult<ImageSize>
    ensures answers { Answers (R.telling reader) meaning result }
    ensures short { Ends (R.telling reader) result }
    ensures memory { IfErr result (λ e. is_memory e ≡ false) }

    // A spent budget is the reported length plus 64.
    ensures spent { IfErr result (λ e. IfSome (budget_spent e) (λ budget. allowance ≤ budget)) }
{
    let opened = open(&mut reader, Origin::Offset)?;
    match reader.in_memory() {
        Some(bytes) => memory_size(bytes, opened.offset),
        None => probe_opened(&mut reader, opened).answer,
    }
}

/// Reads type and size of the image in a reader's bytes, and counts the bytes that are read for them.
///
/// The errors are those of `reader_size`. Afterwards the reader may be used again. A reader whose calls cannot fail is left where
/// the last read ended that gave a byte past the kept ones. If no read gave one, it is left at its end. The first bytes of the
/// input, at most 32, are kept.
///
/// ```
/// use imagesize::reader_probe;
/// use std::io::Cursor;
///
/// let bytes: &[u8] = b"GIF89a\x80\x02\xe0\x01\0\0";
/// let probed = reader_probe(&mut Cursor::new(bytes));
/// assert_eq!(probed.taken, 12);
/// ```
// Not inlined: the copy in each caller would write the result a second time, in 30 instructions.
#[inline(never)]
#[tactic(auto, using(crate::proofs::Memories::opening))]
pub fn reader_probe<R: Told>(reader: &mut R) -> Probed
    ensures probes { Probes (R.telling reader.old) result }

    // For every reader, even one without a model that reports a wrong length:
    ensures typed { IfOk result.answer (λ _. IsSome result.kind) }
    ensures counts { R.count reader.new ≡ option_map (λ c. c + result.taken) (R.count reader.old) }
    ensures spent { IfErr result.answer (λ e. IfSome (budget_spent e) (λ budget. (budget ≡ result.taken) × (allowance ≤ budget))) }
    ensures memory { IfErr result.answer (λ e. is_memory e ≡ false) }

    // A `Fault` carries the error of the last call that failed, and the reader may be used again.
    ensures fault { IfErr result.answer (λ e. is_fault e ≡ true → IsLast (R.failure reader.new) e) }
    ensures leaves { Leaves (R.telling reader.old) (R.telling reader.new) }

    // An honest reader that cannot fail is left where the last read ended that gave a byte past the kept ones. If no read gave one,
    // it is left at its end.
    ensures offset { LeavesAt (R.telling reader.old) (R.telling reader.new) meaning }
{
    let opened = match open(reader, Origin::Offset) {
        Ok(opened) => opened,
        Err(error) => {
            return Probed {
                kind: None,
                answer: Err(error),
                taken: 0,
            };
        }
    };
    let Some(bytes) = reader.in_memory() else {
        return probe_opened(reader, opened);
    };
    // Bytes in memory are read where they lie, and are counted. No read calls the reader. The result is written once, here: a
    // call that returned it would have it copied, which takes 60 instructions.
    let told = bytes.len() as u64;
    let Counted {
        kind,
        found,
        taken,
        position,
    } = memory_probe(bytes, opened.offset);
    leave(reader, position);
    let size = match found {
        Ok(size) => size,
        Err(halt) => {
            return Probed {
                kind,
                answer: Err(refused(halt, told + ALLOWANCE)),
                taken,
            };
        }
    };
    Probed {
        kind,
        answer: Ok(size),
        taken,
    }
}

impl ImageType {
    /// Reads the size in pixels of the image in a reader's bytes, as this type.
    ///
    /// The size is read at offsets from the first byte of the input, whatever the reader's offset. The bytes need not be of
    /// this type. The errors are those of `reader_size` except `NotSupported`. Afterwards the reader may be used again. It is left
    /// where `reader_probe` would leave it after the same reads.
    ///
    /// ```
    /// use imagesize::ImageType;
    /// use std::io::Cursor;
    ///
    /// let bytes: &[u8] = b"GIF89a\x80\x02\xe0\x01\0\0";
    /// assert_eq!(ImageType::Gif.reader_size(&mut Cursor::new(bytes))?.height, 480);
    /// ```
    // Inlined: a caller over a cursor then gets a size without a copy of the whole result, which has room for an error. That saves 65
    // instructions.
    #[inline]
    #[tactic(auto, using(crate::proofs::Memories::opening))]
    pub fn reader_size<R: Told>(&self, reader: &mut R) -> ImageResult<ImageSize>
        ensures answers { Answers (R.telling reader.old) (λ d offset. size_of self.now d) result }
        ensures counts { CountsWithin (R.telling reader.old) (R.count reader.old) (R.count reader.new) (λ d offset. size_of self.now d) }

        // For every reader, even one without a model that reports a wrong length:
        ensures spent { IfErr result (λ e. IfSome (budget_spent e) (λ budget. SpentAll (R.count reader.old) (R.count reader.new) budget)) }
        ensures memory { IfErr result (λ e. is_memory e ≡ false) }

        // A `Fault` carries the error of the last call that failed, and the reader may be used again.
        ensures fault { IfErr result (λ e. is_fault e ≡ true → IsLast (R.failure reader.new) e) }
        ensures leaves { Leaves (R.telling reader.old) (R.telling reader.new) }

        // An honest reader that cannot fail is left where the last read ended that gave a byte past the kept ones. If no read gave
        // one, it is left at its end.
        ensures offset { LeavesAt (R.telling reader.old) (R.telling reader.new) (λ d offset. size_of self.now d) }
    {
        let opened = open(reader, Origin::Start)?;
        let Some(bytes) = reader.in_memory() else {
            return size_opened(*self, reader, opened);
        };
        let budget = bytes.len() as u64 + ALLOWANCE;
        let (found, position) = memory_size_as(*self, bytes);
        leave(reader, position);
        match found {
            Ok(size) => Ok(size),
            Err(halt) => Err(refused(halt, budget)),
        }
    }
}

// The size of the image in the bytes of a reader that was opened, read as this type.
fn size_opened<R: Told>(kind: ImageType, reader: &mut R, opened: Opened) -> ImageResult<ImageSize>
    requires { IsOpened (R.telling reader.old) opened }
    ensures answers { Answers (before (R.telling reader.old) opened) (λ d offset. size_of kind d) result }
    ensures counts { CountsWithin (before (R.telling reader.old) opened) (R.count reader.old) (R.count reader.new)
        (λ d offset. size_of kind d) }
    ensures spent { IfErr result (λ e. IfSome (budget_spent e) (λ budget. SpentAll (R.count reader.old) (R.count reader.new) budget)) }
    ensures memory { IfErr result (λ e. is_memory e ≡ false) }
    ensures fault { IfErr result (λ e. is_fault e ≡ true → IsLast (R.failure reader.new) e) }
    ensures leaves { Leaves (before (R.telling reader.old) opened) (R.telling reader.new) }
    ensures offset { LeavesAt (before (R.telling reader.old) opened) (R.telling reader.new) (λ d offset. size_of kind d) }
{
    let mut source = ReaderSource::new(reader, opened.told);
    let found = size(&mut source, kind);
    let left = source.left();
    let answer = with_error(found, &source);
    settle(reader, left);
    answer
}

// Type and size of the image in the bytes of a reader that was opened.
#[inline(always)]
fn probe_opened<R: Told>(reader: &mut R, opened: Opened) -> Probed
    requires { IsOpened (R.telling reader.old) opened }
    ensures probes { Probes (before (R.telling reader.old) opened) result }
    ensures typed { IfOk result.answer (λ _. IsSome result.kind) }
    ensures counts { R.count reader.new ≡ option_map (λ c. c + result.taken) (R.count reader.old) }
    ensures spent { IfErr result.answer (λ e. IfSome (budget_spent e) (λ budget. (budget ≡ result.taken) × (allowance ≤ budget))) }
    ensures memory { IfErr result.answer (λ e. is_memory e ≡ false) }
    ensures fault { IfErr result.answer (λ e. is_fault e ≡ true → IsLast (R.failure reader.new) e) }
    ensures leaves { Leaves (before (R.telling reader.old) opened) (R.telling reader.new) }
    ensures offset { LeavesAt (before (R.telling reader.old) opened) (R.telling reader.new) meaning }
{
    let mut source = ReaderSource::new(reader, opened.told);
    let (kind, found) = probe(&mut source, opened.offset);
    let taken = source.taken();
    let left = source.left();
    let answer = with_error(found, &source);
    settle(reader, left);
    Probed {
        kind,
        answer,
        taken,
    }
}
