//! The calls: the size of the PNG in a slice, or in a reader's bytes.
ghost use Rattle.std.specs.Prelude.{◌≡◌, ℕ, ◌≤◌, List, ◌++◌, length, IfOk, IfErr, IfSome, Option, Ok, Err, true, false};
ghost use Rattle.imagesize.specs.Probed.{SpentAll};
ghost use Rattle.imagesize_io.specs.Answers.{Answers, CountsWithin, IsLast, Leaves, LeavesAt, PlacedAt};
ghost use Rattle.imagesize_io.specs.Memory.{IsMemory};
ghost use Rattle.imagesize_io.specs.ReaderState.{Opens};
ghost use Rattle.imagesize_io.specs.Telling.{Telling};
ghost use Rattle.imagesize_png.specs.Png.{png_of};
ghost use Rattle.imagesize_source.specs.Agreement.{Agrees};
ghost use Rattle.imagesize_source.specs.declared.error.ImageError.TheVariants.{NotSupported};
ghost use Rattle.imagesize_source.specs.Errors.{budget_spent, is_fault, is_memory, is_stopped};
ghost use Rattle.imagesize_source.specs.Limits.{allowance};
ghost use Rattle.imagesize_source.specs.State.{total};

use crate::Told;
use crate::format::size;
use imagesize_io::counting::{CountingSource, leave};
use imagesize_io::reader::{Opened, Origin, ReaderSource, open, settle};
use imagesize_source::ImageResult;
use imagesize_source::halt::with_error;
use imagesize_source::source::slice::SliceSource;
use imagesize_types::size::ImageSize;

/// Reads the size in pixels of the PNG in a slice, from its first bytes.
///
/// Errors: `NotSupported` if the first eight bytes are not the signature, and `EndOfInput` if the bytes end before the
/// signature or the size. 24 bytes are enough.
///
/// ```
/// use imagesize_png::blob_size;
///
/// let size = blob_size(b"\x89PNG\r\n\x1a\n\0\0\0\x0dIHDR\0\0\x02\x80\0\0\x01\xe0")?;
/// assert_eq!((size.width, size.height), (640, 480));
/// ```
pub fn blob_size(data: &[u8]) -> ImageResult<ImageSize>
    ensures value { result ≡ (png_of «data».now 0).answer }

    // Another input of this length that agrees on the spans `marks` has the same size and the same spans, at every offset.
    ensures local { (offset : ℕ) (e : List ℕ) → Agrees «data».now e (png_of «data».now offset).marks
        → png_of e offset ≡ png_of «data».now offset }

    // Only the signature, the width and the height are read.
    ensures few { (offset : ℕ) → total (png_of «data».now offset).marks ≤ 16 }

    // Appended bytes change no size.
    ensures lasts { IfOk result (λ size. (x : List ℕ) → (png_of («data».now ++ x) 0).answer ≡ Ok size) }

    // Appended bytes do not make a PNG of other bytes.
    ensures refused { IfErr result (λ e. e ≡ NotSupported → (x : List ℕ) → (png_of («data».now ++ x) 0).answer ≡ Err NotSupported) }

    // Over a slice no read fails, there is no budget, and nothing is allocated.
    ensures unstopped { is_stopped result ≡ false }
{
    let mut source = SliceSource::new(data);
    let found = size(&mut source, 0);
    with_error(found, &source)
}

/// Reads the size in pixels of the PNG in a reader's bytes. The signature must be at the reader's offset.
///
/// The size is read at offsets from the first byte of the input, as in `imagesize::reader_size`. Afterwards the reader may be
/// used again. It is left as `imagesize::reader_probe` leaves it.
///
/// Errors: those of `blob_size`, and `Fault` if a call of the reader fails. `BudgetSpent` if more bytes would be read than
/// the length of the input, as its seeks report it, plus 64.
///
/// ```
/// use imagesize_png::reader_size;
/// use std::io::Cursor;
///
/// let bytes: &[u8] = b"\x89PNG\r\n\x1a\n\0\0\0\x0dIHDR\0\0\x02\x80\0\0\x01\xe0";
/// assert_eq!(reader_size(&mut Cursor::new(bytes))?.width, 640);
/// ```
pub fn reader_size<R: Told>(reader: &mut R) -> ImageResult<ImageSize>
    ensures answers { Answers (R.telling reader.old) png_of result }
    ensures counts { CountsWithin (R.telling reader.old) (R.count reader.old) (R.count reader.new) png_of }

    // For every reader, even one without a model that reports a wrong length:
    ensures spent { IfErr result (λ e. IfSome (budget_spent e) (λ budget. SpentAll (R.count reader.old) (R.count reader.new) budget)) }
    ensures memory { IfErr result (λ e. is_memory e ≡ false) }

    // A `Fault` carries the error of the last call that failed, and the reader may be used again.
    ensures fault { IfErr result (λ e. is_fault e ≡ true → IsLast (R.failure reader.new) e) }
    ensures leaves { Leaves (R.telling reader.old) (R.telling reader.new) }

    // An honest reader that cannot fail is left where the last read ended that gave a byte past the kept ones. If no read gave one,
    // it is left at its end.
    ensures offset { LeavesAt (R.telling reader.old) (R.telling reader.new) png_of }
{
    let opened = open(reader, Origin::Offset)?;
    let Some(bytes) = reader.in_memory() else {
        return size_opened(reader, opened);
    };
    // Bytes in memory are read where they lie, and are counted. No read calls the reader.
    let (answer, position) = memory_size(bytes, opened);
    leave(reader, position);
    answer
}

// The size of the image in the bytes of a reader in memory, and the offset at which the reader is to be left.
#[inline(always)]
fn memory_size(bytes: &[u8], opened: Opened) -> (ImageResult<ImageSize>, u64)
    ensures answers { (telling mid : Option Telling) → Opens telling mid (Ok opened) → IsMemory mid bytes.now
        → Answers telling png_of result.0 }
    ensures spent { IfErr result.0 (λ e. IfSome (budget_spent e) (λ budget. allowance ≤ budget)) }
    ensures memory { IfErr result.0 (λ e. is_memory e ≡ false) }
    ensures fault { IfErr result.0 (λ e. is_fault e ≡ false) }
    ensures there { result.1 ≤ length bytes.now }
    ensures offset { (telling mid : Option Telling) → Opens telling mid (Ok opened) → IsMemory mid bytes.now
        → PlacedAt telling png_of result.1 }
{
    let Opened { offset, .. } = opened;
    let mut source = CountingSource::new(bytes);
    let found = size(&mut source, offset);
    (with_error(found, &source), source.position())
}

// The size of the image in the bytes of a reader that was opened.
fn size_opened<R: Told>(reader: &mut R, opened: Opened) -> ImageResult<ImageSize>
    ensures answers { (telling : Option Telling) → Opens telling (R.telling reader.old) (Ok opened)
        → Answers telling png_of result }
    ensures counts { (telling : Option Telling) → Opens telling (R.telling reader.old) (Ok opened)
        → CountsWithin telling (R.count reader.old) (R.count reader.new) png_of }
    ensures spent { IfErr result (λ e. IfSome (budget_spent e) (λ budget. SpentAll (R.count reader.old) (R.count reader.new) budget)) }
    ensures memory { IfErr result (λ e. is_memory e ≡ false) }
    ensures fault { IfErr result (λ e. is_fault e ≡ true → IsLast (R.failure reader.new) e) }
    ensures leaves { (telling : Option Telling) → Opens telling (R.telling reader.old) (Ok opened)
        → Leaves telling (R.telling reader.new) }
    ensures offset { (telling : Option Telling) → Opens telling (R.telling reader.old) (Ok opened)
        → LeavesAt telling (R.telling reader.new) png_of }
{
    let mut source = ReaderSource::new(reader, opened.told);
    let found = size(&mut source, opened.offset);
    let left = source.left();
    let answer = with_error(found, &source);
    settle(reader, left);
    answer
}
