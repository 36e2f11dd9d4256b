//! The size from parts of an input, for a caller that does not have all of it.
ghost use Rattle.std.specs.Prelude.{◌≡◌, ℕ, ◌^◌, ◌<◌, false, List, None, if◌then◌else◌, option_map};
ghost use Rattle.imagesize.specs.Parted.{Fits, HasKnown, IfFound, SaysOf, Tells, found_or_wanted, wanted_of};
ghost use Rattle.imagesize_png.specs.Png.{png_of};
ghost use Rattle.imagesize_source.specs.Known.{AllKnown};
ghost use Rattle.imagesize_source.specs.Errors.{end_of_input, is_stopped};
ghost use Rattle.imagesize_source.specs.Halts.{with_error};
ghost use Rattle.imagesize_source.specs.Reading.{is_faulted};

use crate::format::size;
use crate::{ImageResult, Span};
use imagesize::PartsAnswer;
use imagesize_source::Halt;
use imagesize_source::halt::with_error;
use imagesize_source::source::known::KnownSource;
use imagesize_source::source::parts::Parts;
use imagesize_types::size::ImageSize;

/// Reads the size in pixels of the PNG in an input of `total` bytes from the parts that are known, or requests another part.
///
/// The parts are passed as to `imagesize::parts_probe`. The errors are those of `blob_size` over the whole input.
///
/// ```
/// use imagesize_png::{PartsAnswer, Span, parts_size};
///
/// let front = [Span { start: 0, len: 8 }];
/// match parts_size(b"\x89PNG\r\n\x1a\n", &front, 5_000_000) {
///     PartsAnswer::Found(answer) => println!("{} pixels wide", answer?.width),
///     PartsAnswer::Wanted(span) => assert_eq!((span.start, span.len), (16, 4)),
/// }
/// ```
pub fn parts_size(bytes: &[u8], spans: &[Span], total: u64) -> PartsAnswer<ImageResult<ImageSize>>
    // For each input of that length that has the known bytes of these parts (there always is one):
    ensures says { (d : List ℕ) → HasKnown d total spans.now bytes.now → total < 2 ^ 63
        → SaysOf false (png_of d 0) total spans.now bytes.now result }

    // If the parts have every byte that the size depends on, the call returns it.
    ensures complete { (d : List ℕ) → HasKnown d total spans.now bytes.now → total < 2 ^ 63
        → AllKnown total spans.now bytes.now (png_of d 0).marks → Tells result }
    ensures fits { Fits total result }

    // No result is a fault, a spent budget or a lack of memory.
    ensures unstopped { total < 2 ^ 63 → IfFound result (λ answer. is_stopped answer ≡ false) }
{
    let mut source = Parts::source(spans, bytes, total);
    size_of_parts(&mut source)
}

// The size, by reads that start anew.
#[inline(always)]
fn size_of_parts(source: &mut KnownSource<Parts<'_>>) -> PartsAnswer<ImageResult<ImageSize>>
    ensures says { (d : List ℕ) → HasKnown d source.old.known.told source.old.known.spans.now source.old.known.bytes.now
        → source.old.known.told < 2 ^ 63
        → SaysOf false (png_of d 0) source.old.known.told source.old.known.spans.now source.old.known.bytes.now result }
    ensures fits { Fits source.old.known.told result }
    ensures unstopped { source.old.known.told < 2 ^ 63 → IfFound result (λ answer. is_stopped answer ≡ false) }
{
    source.forget();
    let found = size(source, 0);
    found_or_wanted(found, source)
}

// The result if no part is missing, and else the bytes that are certain to be read.
#[inline(always)]
fn found_or_wanted(
    found: Result<ImageSize, Halt>,
    source: &KnownSource<Parts<'_>>,
) -> PartsAnswer<ImageResult<ImageSize>>
    ensures { result ≡ found_or_wanted (with_error end_of_input 0 found)
        (option_map (wanted_of false) (if is_faulted found then source.now.missed else None)) }
{
    let missed = if matches!(found, Err(Halt::Failed)) {
        source.missed
    } else {
        None
    };
    match missed {
        Some(missing) => PartsAnswer::Wanted(Span {
            start: missing.start,
            len: missing.sure,
        }),
        None => PartsAnswer::Found(with_error(found, source)),
    }
}
