//! Type and size of an image from spans of it that the caller fetches, in rounds.
ghost use Rattle.imagesize_stream.specs.Probe.{IsNext, next_prop};

use crate::probe::StreamProbe;
use imagesize::{ImageResult, ImageType, PartsAnswer, Span};
use imagesize_source::part::bytes_behind;
use imagesize_types::size::ImageSize;

/// The type of an image and its size in pixels, from spans of it that the caller fetches, in rounds.
///
/// A round asks for a span and passes its bytes. The probe goes on from what it kept, so no round reads again what an earlier
/// one read. `parts_probe` starts anew in each round and needs all parts so far.
///
/// ```
/// use imagesize::PartsAnswer;
/// use imagesize_stream::PartsProbe;
///
/// let file = b"GIF89a\x80\x02\xe0\x01\0\0 and what else there is";
/// let mut probe = PartsProbe::new(file.len() as u64);
/// loop {
///     match probe.answer() {
///         PartsAnswer::Found((_, size)) => break assert_eq!(size?.width, 640),
///         PartsAnswer::Wanted(span) => {
///             // here a block of 16 bytes is fetched, whatever the length of the span
///             let start = span.start as usize;
///             let end = (start + 16).min(file.len());
///             probe.supply(span.start, &file[start..end]);
///         }
///     }
/// }
/// ```
///
/// If the input turns out to be shorter than `total`, start a new probe with the true length.
///
/// It keeps at most 1,023 bytes of the input, and allocates nothing.
#[derive(Drop)]
pub struct PartsProbe {
    probe: StreamProbe,
    ghost next: { IsNext probe.stage probe.stand } by { next_prop probe.stage probe.stand.start probe.stand.passed probe.stand.end
        probe.stand.told },
}

impl PartsProbe {
    ghost use Rattle.std.specs.Prelude.{◌≡◌, ◌⊎◌, ℕ, ◌+◌, ◌-◌, ◌<◌, ◌≤◌, ◌^◌, false, List, length, min};
    ghost use Rattle.imagesize.specs.Meaning.{meaning};
    ghost use Rattle.imagesize.specs.Parted.{Fits, IfFound, IfWanted, IsProbed, texts_of};
    ghost use Rattle.imagesize.specs.declared.parts.PartsAnswer.TheVariants as answer;
    ghost use Rattle.imagesize_pieces.specs.Stream.{AllBelow, EndsAt};
    ghost use Rattle.imagesize_source.specs.Agreement.{EndsBetween};
    ghost use Rattle.imagesize_source.specs.Errors.{is_stopped};
    ghost use Rattle.imagesize_stream.specs.Given.{HasPart};
    ghost use Rattle.imagesize_stream.specs.Pushed.{KeepsNothing};
    ghost use Rattle.imagesize_stream.specs.Parts.{HasMarked, MayBe, latest_of, next_of, total_of};

    /// A probe of an input of `total` bytes. Of a length of 2^63 bytes or more, nothing is promised.
    pub fn new(total: u64) -> PartsProbe
        ensures total { total_of result ≡ min total (2 ^ 63 - 1) }
        ensures begins { (d : List ℕ) → length d ≡ total_of result → MayBe result d }

        // The first span has 18 bytes at least, or the whole input.
        ensures first { IfWanted (next_of result) (λ w. (w.start ≡ 0) × (min 18 (total_of result) ≤ w.len)) }

        // The first span has 18 bytes at most.
        ensures few { IfWanted (next_of result) (λ w. w.len ≤ 18) }
    {
        let mut probe = StreamProbe::new(Some(total));
        probe.take_in(&[]);
        probe.skip();
        PartsProbe { probe }
    }

    /// Returns the type, if one was found, and the size or the error. If bytes are missing, requests a span.
    ///
    /// The span has all bytes that the next read requests. It lies within the input. It has 1 to 132 bytes, or up to 1,024 for
    /// the text formats (OpenEXR, Radiance and the portable bitmaps). If the caller always passes whole spans, the result
    /// depends on a byte of each span.
    pub fn answer(&self) -> PartsAnswer<(Option<ImageType>, ImageResult<ImageSize>)>
        ensures is { result ≡ next_of self.now }

        // For each input that has the parts so far:
        ensures says { (d : List ℕ) → MayBe self.now d → IfFound result (IsProbed d) }
        ensures wants { (d : List ℕ) → MayBe self.now d → IfWanted result (λ w. AllBelow w.start (meaning d 0).marks → ⊥) }
        ensures fits { Fits (total_of self.now) result }

        // The result depends on a byte of the span. Which bytes of a TGA's header it depends on is known after its last bytes. So
        // a caller that supplied 12 to 17 bytes is asked for the rest of the 18, whether or not the result depends on them.
        ensures within { (d : List ℕ) → MayBe self.now d → IfWanted result (λ w. (w.start < 12) ⊎ (18 ≤ w.start) → HasMarked w d) }

        // For a type without texts, a read that the result depends on ends in the span: one span is enough for a read.
        ensures reaches { (d : List ℕ) → MayBe self.now d → texts_of d ≡ false → IfWanted result (λ w. (w.start < 12) ⊎ (18 ≤ w.start)
            → EndsBetween w.start (w.start + w.len) (meaning d 0).marks) }

        // For a type without texts, a span that ends after the first 18 bytes ends where a read ends that the result depends on.
        ensures exact { (d : List ℕ) → MayBe self.now d → texts_of d ≡ false → IfWanted result (λ w. 18 < w.start + w.len
            → EndsAt (w.start + w.len) (meaning d 0).marks) }

        // No result is a fault, a spent budget or a lack of memory.
        ensures unstopped { IfFound result (λ found. is_stopped found.1 ≡ false) }

        // The span has 1,024 bytes at most. Unless the type is a text format, it has 132 at most.
        ensures short { IfWanted result (λ w. w.len ≤ 1024) }
        ensures shorter { (d : List ℕ) → MayBe self.now d → texts_of d ≡ false → IfWanted result (λ w. w.len ≤ 132) }

        // As long as fewer than 12 bytes are there, the span ends with the first 18 bytes at the latest.
        ensures early { IfWanted result (λ w. w.start < 12 → w.start + w.len ≤ 18) }

        // In a record, the span ends at the latest with the last byte that such a record may read. Before the first record, it ends
        // within the first 132 bytes.
        ensures latest { IfWanted result (λ w. w.start + w.len ≤ latest_of self.now) }
    {
        match self.probe.answer() {
            Some(found) => PartsAnswer::Found(found),
            None => {
                let start = self.probe.stand.passed;
                let len = self.probe.stand.end - start;
                PartsAnswer::Wanted(Span { start, len })
            }
        }
    }

    /// Passes the bytes from an offset on: those of the requested span, or more of them, or fewer.
    ///
    /// Bytes before the requested span are ignored, and so are bytes past the end of the input. If `offset` lies after the
    /// start of the requested span, the call changes nothing. No byte of a span that was passed whole is requested again.
    pub fn supply(&mut self, offset: u64, bytes: &[u8])
        ensures total { total_of self.new ≡ total_of self.old }

        // An answer is kept.
        ensures keeps { IfFound (next_of self.old) (λ found. next_of self.new ≡ answer.Found found) }

        // After an answer, no more bytes are kept or counted.
        ensures idle { IfFound (next_of self.old) (λ _. KeepsNothing self.old.probe self.new.probe) }

        // The input may be each that has the parts so far and these bytes.
        ensures goes_on { (d : List ℕ) → MayBe self.old d → HasPart d offset bytes.now → MayBe self.new d }

        // Bytes after a gap are not taken.
        ensures gap { IfWanted (next_of self.old) (λ w. w.start < offset → self.new ≡ self.old) }

        // With the first byte that was requested there is an answer, or a later span is requested.
        ensures further { IfWanted (next_of self.old) (λ w. offset ≤ w.start → w.start < offset + length bytes.now
            → IfWanted (next_of self.new) (λ next. w.start < next.start)) }

        // With the whole requested span there is an answer, or a span after it is requested.
        ensures beyond { IfWanted (next_of self.old) (λ w. offset ≤ w.start → w.start + w.len ≤ offset + length bytes.now
            → IfWanted (next_of self.new) (λ next. w.start + w.len ≤ next.start)) }
    {
        let start = self.probe.stand.passed;
        if offset > start {
            return;
        }
        self.probe.take_in(bytes_behind(bytes, start - offset));
        self.probe.skip();
    }
}
