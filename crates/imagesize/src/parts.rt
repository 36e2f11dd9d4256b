//! Types and sizes from parts of an input, for a caller that does not have all of it.
ghost use Rattle.std.specs.Prelude.{◌≡◌, ℕ, ◌+◌, ◌^◌, ◌<◌, true, false, List, None, if◌then◌else◌, option_map};
ghost use Rattle.imagesize.specs.Meaning.{kind_of, meaning, size_of};
ghost use Rattle.imagesize.specs.Parted.{Fits, HasKnown, IfFound, IfWanted, IsProbed, Says, SaysOf, Tells, TellsOf, has_texts, texts_of, found_or_wanted, wanted_of, with_type};
ghost use Rattle.imagesize_source.specs.Agreement.{EndsBetween};
ghost use Rattle.imagesize_source.specs.Known.{AllKnown, filled_input};
ghost use Rattle.imagesize_source.specs.Errors.{end_of_input, is_stopped};
ghost use Rattle.imagesize_source.specs.Halts.{with_error};
ghost use Rattle.imagesize_source.specs.Reading.{is_faulted};

use crate::formats::{detect, size};
use crate::types::ImageType;
use crate::{ImageResult, Span};
use imagesize_source::Halt;
use imagesize_source::halt::with_error;
use imagesize_source::source::known::{KnownSource, Missing};
use imagesize_source::source::parts::Parts;
use imagesize_types::size::ImageSize;

/// What the known parts of an input give.
#[derive(Debug, Drop)]
pub enum PartsAnswer<T> {
    /// The parts are enough for this result.
    Found(T),
    /// Bytes that are needed and not known yet. The result depends on the first of them, and all of them are enough for the
    /// read that requests them. Except for OpenEXR, Radiance and the portable bitmaps, the result depends on each of them.
    Wanted(Span),
}

/// Reads type and size of the image in an input of `total` bytes from the parts that are known, or requests another part.
///
/// `bytes` has the bytes of all spans, one span after another. A span counts bytes from 0. Leave out the bytes of a span that
/// lie past the end of the input. Spans may be in any order, overlap, repeat, or be empty. If `bytes` is shorter than the
/// spans, the missing bytes at the end count as unknown. Bytes that are left over are ignored. No arguments are rejected.
///
/// The result is the type, if one was found, and the size or the error. The errors are those of `image_type` and `blob_size`
/// over the whole input. A caller that adds the requested bytes always gets further:
///
/// ```
/// use imagesize::{PartsAnswer, Span, parts_probe};
///
/// let file = b"GIF89a\x80\x02\xe0\x01\0\0 and what else there is";
/// let mut known = 0;
/// loop {
///     // here the known part is always the beginning of the file
///     let spans = [Span { start: 0, len: known as u64 }];
///     match parts_probe(&file[..known], &spans, file.len() as u64) {
///         PartsAnswer::Found((_, answer)) => break assert_eq!(answer?.width, 640),
///         PartsAnswer::Wanted(span) => known = (span.start + span.len) as usize,
///     }
/// }
/// ```
pub fn parts_probe(
    bytes: &[u8],
    spans: &[Span],
    total: u64,
) -> PartsAnswer<(Option<ImageType>, ImageResult<ImageSize>)>
    // For each input of that length that has the known bytes of these parts (there always is one):
    ensures says { (d : List ℕ) → HasKnown d total spans.now bytes.now → total < 2 ^ 63
        → Says (texts_of d) (IsProbed d) (meaning d 0).marks total spans.now bytes.now result }

    // If the parts have every byte that the result depends on, the call returns it.
    ensures complete { (d : List ℕ) → HasKnown d total spans.now bytes.now → total < 2 ^ 63
        → AllKnown total spans.now bytes.now (meaning d 0).marks → Tells result }
    ensures fits { Fits total result }

    // Once a text format is known, a span reaches to the end of the text. That end is where the text may end at the latest: in
    // the input whose unknown bytes are all 1.
    ensures reaches { total < 2 ^ 63 → AllKnown total spans.now bytes.now (kind_of (filled_input total spans.now bytes.now) 0).marks
        → texts_of (filled_input total spans.now bytes.now) ≡ true
        → IfWanted result (λ w. EndsBetween w.start (w.start + w.len) (meaning (filled_input total spans.now bytes.now) 0).marks) }

    // No result is a fault, a spent budget or a lack of memory.
    ensures unstopped { total < 2 ^ 63 → IfFound result (λ found. is_stopped found.1 ≡ false) }
{
    let mut source = Parts::source(spans, bytes, total);
    match type_of(&mut source) {
        PartsAnswer::Found(Ok(image)) => with_type(image, size_as(&mut source, image)),
        PartsAnswer::Found(Err(error)) => PartsAnswer::Found((None, Err(error))),
        PartsAnswer::Wanted(span) => PartsAnswer::Wanted(span),
    }
}

/// Detects the type of the image in an input from the parts that are known, or requests another part.
///
/// The parts are passed as to `parts_probe`. The errors are those of `image_type` over the whole input.
///
/// ```
/// use imagesize::{ImageType, PartsAnswer, Span, parts_type};
///
/// let front = [Span { start: 0, len: 12 }];
/// match parts_type(b"GIF89a\x80\x02\xe0\x01\0\0", &front, 5_000_000) {
///     PartsAnswer::Found(answer) => assert_eq!(answer.ok(), Some(ImageType::Gif)),
///     PartsAnswer::Wanted(span) => println!("{} bytes from {} on", span.len, span.start),
/// }
/// ```
#[tactic(auto, using(crate::proofs::Wanted::moved, crate::proofs::Wanted::tells))]
pub fn parts_type(bytes: &[u8], spans: &[Span], total: u64) -> PartsAnswer<ImageResult<ImageType>>
    // For each input of that length that has the known bytes of these parts (there always is one):
    ensures says { (d : List ℕ) → HasKnown d total spans.now bytes.now → total < 2 ^ 63
        → SaysOf false (kind_of d 0) total spans.now bytes.now result }

    // If the parts have every byte that the type depends on, the call returns it.
    ensures complete { (d : List ℕ) → HasKnown d total spans.now bytes.now → total < 2 ^ 63
        → AllKnown total spans.now bytes.now (kind_of d 0).marks → Tells result }
    ensures fits { Fits total result }

    // No result is a fault, a spent budget or a lack of memory.
    ensures unstopped { total < 2 ^ 63 → IfFound result (λ answer. is_stopped answer ≡ false) }
{
    let mut source = Parts::source(spans, bytes, total);
    type_of(&mut source)
}

impl ImageType {
    /// Reads the size in pixels of the image in an input, as this type, from the parts that are known, or requests another
    /// part.
    ///
    /// The parts are passed as to `parts_probe`. The input may be of another type. The errors are those of `blob_size` except
    /// `NotSupported`.
    ///
    /// ```
    /// use imagesize::{ImageType, PartsAnswer, Span};
    ///
    /// // the width and the height of a GIF come after its first six bytes
    /// let sides = [Span { start: 6, len: 4 }];
    /// match ImageType::Gif.parts_size(b"\x80\x02\xe0\x01", &sides, 5_000_000) {
    ///     PartsAnswer::Found(answer) => assert_eq!(answer?.width, 640),
    ///     PartsAnswer::Wanted(span) => println!("{} bytes from {} on", span.len, span.start),
    /// }
    /// ```
    #[tactic(auto, using(crate::proofs::Wanted::moved, crate::proofs::Wanted::tells))]
    pub fn parts_size(
        &self,
        bytes: &[u8],
        spans: &[Span],
        total: u64,
    ) -> PartsAnswer<ImageResult<ImageSize>>
        // For each input of that length that has the known bytes of these parts (there always is one):
        ensures says { (d : List ℕ) → HasKnown d total spans.now bytes.now → total < 2 ^ 63
            → SaysOf (has_texts self.now) (size_of self.now d) total spans.now bytes.now result }

        // If the parts have every byte that the size depends on, the call returns it.
        ensures complete { (d : List ℕ) → HasKnown d total spans.now bytes.now → total < 2 ^ 63
            → AllKnown total spans.now bytes.now (size_of self.now d).marks → Tells result }
        ensures fits { Fits total result }

        // For a text format, a span reaches to the end of the text, as `parts_probe` says.
        ensures reaches { total < 2 ^ 63 → has_texts self.now ≡ true
            → IfWanted result
            (λ w. EndsBetween w.start (w.start + w.len) (size_of self.now (filled_input total spans.now bytes.now)).marks) }

        // No result is a fault, a spent budget or a lack of memory.
        ensures unstopped { total < 2 ^ 63 → IfFound result (λ answer. is_stopped answer ≡ false) }
    {
        let mut source = Parts::source(spans, bytes, total);
        size_as(&mut source, *self)
    }
}

// The type, by reads that start anew.
#[inline(always)]
fn type_of(source: &mut KnownSource<Parts<'_>>) -> PartsAnswer<ImageResult<ImageType>>
    ensures tells { TellsOf false (λ d. kind_of d 0)
        source.old.known.told source.old.known.spans.now source.old.known.bytes.now result }

    // The parts do not change.
    ensures spans { source.new.known.spans.now ≡ source.old.known.spans.now }
    ensures bytes { source.new.known.bytes.now ≡ source.old.known.bytes.now }
    ensures told { source.new.known.told ≡ source.old.known.told }
{
    source.forget();
    let found = detect(source, 0);
    found_or_wanted(found, source, false)
}

// The size, read as this type, by reads that start anew.
#[inline(always)]
fn size_as(
    source: &mut KnownSource<Parts<'_>>,
    image: ImageType,
) -> PartsAnswer<ImageResult<ImageSize>>
    ensures { TellsOf (has_texts image) (size_of image)
        source.old.known.told source.old.known.spans.now source.old.known.bytes.now result }
{
    source.forget();
    let found = size(source, image);
    let texts = has_texts(&image);
    found_or_wanted(found, source, texts)
}

// The result, or the missing part if a read failed for lack of it.
#[inline(always)]
fn found_or_wanted<T: Drop>(
    found: Result<T, Halt>,
    source: &KnownSource<Parts<'_>>,
    texts: bool,
) -> PartsAnswer<ImageResult<T>>
    ensures { result ≡ found_or_wanted (with_error end_of_input 0 found)
        (option_map (wanted_of texts) (if is_faulted found then source.now.missed else None)) }
{
    let missed = if matches!(found, Err(Halt::Failed)) {
        source.missed
    } else {
        None
    };
    match missed {
        Some(missing) => PartsAnswer::Wanted(wanted_of(missing, texts)),
        None => PartsAnswer::Found(with_error(found, source)),
    }
}

// The result for a size, with its type.
fn with_type(
    image: ImageType,
    answer: PartsAnswer<ImageResult<ImageSize>>,
) -> PartsAnswer<(Option<ImageType>, ImageResult<ImageSize>)>
    ensures { result ≡ with_type image answer }
{
    match answer {
        PartsAnswer::Found(size) => PartsAnswer::Found((Some(image), size)),
        PartsAnswer::Wanted(span) => PartsAnswer::Wanted(span),
    }
}

// Whether a type is a text format.
fn has_texts(image: &ImageType) -> bool
    ensures { result ≡ has_texts image.now }
{
    matches!(image, ImageType::Exr | ImageType::Hdr | ImageType::Pnm)
}

// All requested bytes for text formats, and else those that are certain to be read.
fn wanted_of(missing: Missing, texts: bool) -> Span
    ensures { result ≡ wanted_of texts missing }
{
    Span {
        start: missing.start,
        len: if texts { missing.most } else { missing.sure },
    }
}
