//! A push parser: the caller passes the bytes of an image as they arrive, in chunks of any length.
ghost use Rattle.std.specs.Prelude.{◌≡◌, ℕ, ◌+◌, ◌-◌, ◌≤◌, ◌^◌, ◌++◌, [], false, true, List, length, take, max, min, Option, None, Some, IfSome, Err, unwrap_or};
ghost use Rattle.std.specs.Result.{result_ok};
ghost use Rattle.imagesize.specs.Meaning.{kind_of, meaning};
ghost use Rattle.imagesize_pieces.specs.Stream.{AllBelow, Begins};
ghost use Rattle.imagesize_source.specs.Errors.{is_stopped};
ghost use Rattle.imagesize_source.specs.Outcome.{stated};
ghost use Rattle.imagesize_stream.specs.Given.{MayBeAt};
ghost use Rattle.imagesize_stream.specs.Heard.{RestsOnMore};
ghost use Rattle.imagesize_stream.specs.Probe.{HoldsAt, IfAwaiting, IsAhead, IsCut, IsNext, SearchedBy, TypedBy, holds_prop, searched_prop};

use crate::stage::{ROOM, Stage, begin, pass_over, wait, walk};
use imagesize::{ImageResult, ImageType};
use imagesize_pieces::buffer::front_of;
use imagesize_pieces::pending::keep_pending;
use imagesize_pieces::stand::Stand;
use imagesize_source::{Halt, ImageError, Reason, Text};
use imagesize_types::size::ImageSize;

// The length of an input whose length is unknown. No input is longer.
const MOST: u64 = (1 << 63) - 1;

/// The type of an image and its size in pixels, from bytes that arrive in chunks of any length.
///
/// It keeps at most 1,023 bytes of the input, and allocates nothing.
///
/// ```
/// use imagesize::ImageType;
/// use imagesize_stream::StreamProbe;
///
/// let mut probe = StreamProbe::new(None);
/// let mut chunks = b"GIF89a\x80\x02\xe0\x01\0\0 and what else there is".chunks(5);
/// let (kind, size) = loop {
///     match chunks.next() {
///         Some(chunk) => {
///             if let Some(result) = probe.push(chunk) {
///                 break result;
///             }
///         }
///         None => break probe.finish(),
///     }
/// };
/// assert_eq!(kind, Some(ImageType::Gif));
/// assert_eq!(size?.width, 640);
/// ```
#[derive(Drop)]
pub struct StreamProbe {
    pub(crate) stand: Stand,
    buffer: [u8; ROOM],
    kind: Option<ImageType>,
    stage: Stage,
    // How many of the first kept bytes do not end the text that is next.
    searched: usize,
    ghost holds: { HoldsAt stage stand } by { holds_prop stage stand.start stand.offset stand.passed },
    ghost pending: { SearchedBy stage searched (stand.passed - stand.start) buffer } by { searched_prop stage searched
        (stand.passed - stand.start) buffer },
}

impl StreamProbe {
    ghost use Rattle.imagesize_stream.specs.Pushed.{Came, KeepsNothing, TakesIn, answer_of, told_of};

    /// Begins an input of `total` bytes, or of unknown length. Bytes past that length do not count.
    pub fn new(total: Option<u64>) -> StreamProbe
        ensures told { told_of result ≡ min (unwrap_or total (2 ^ 63 - 1)) (2 ^ 63 - 1) }
        ensures begins { Came result [] }
    {
        StreamProbe {
            stand: Stand {
                start: 0,
                offset: 0,
                passed: 0,
                end: 0,
                told: total.unwrap_or(MOST).min(MOST),
            },
            buffer: [0; ROOM],
            kind: None,
            stage: Stage::First,
            searched: 0,
        }
    }

    /// Passes the next bytes. Returns the type, if one was found, and the size or the error, as soon as they depend on no byte
    /// that has not arrived. From then on each call returns the same. `None` means that more bytes are needed.
    pub fn push(&mut self, chunk: &[u8]) -> Option<(Option<ImageType>, ImageResult<ImageSize>)>
        ensures told { told_of self.new ≡ told_of self.old }

        // Once there is a result, it stays.
        ensures is { result ≡ answer_of self.new }
        ensures keeps { IfSome (answer_of self.old) (λ answer. answer_of self.new ≡ Some answer) }

        // After a result, no more bytes are kept or counted.
        ensures idle { IfSome (answer_of self.old) (λ _. KeepsNothing self.old self.new) }

        // For each list of bytes that may have arrived before:
        ensures goes_on { (front : List ℕ) → Came self.old front
            → Came self.new (front ++ take (told_of self.old - length front) chunk.now) }

        // The result holds for every input that begins with these bytes and is no longer than the reported length.
        ensures says { (front : List ℕ) → Came self.old front → IfSome result (λ answer. (d : List ℕ)
            → Begins (front ++ take (told_of self.old - length front) chunk.now) (told_of self.old) d
            → (answer.0 ≡ result_ok (kind_of d 0).answer) × (answer.1 ≡ (meaning d 0).answer)) }

        // There is a result once an input of the reported length that begins with these bytes depends on them alone, and once all
        // bytes have arrived.
        ensures complete { result ≡ None → (front : List ℕ) → Came self.old front → (d : List ℕ)
            → Begins (front ++ take (told_of self.old - length front) chunk.now) (told_of self.old) d → length d ≡ told_of self.old
            → AllBelow (length front + length (take (told_of self.old - length front) chunk.now)) (meaning d 0).marks → ⊥ }
        ensures whole { result ≡ None → (front : List ℕ) → Came self.old front → told_of self.old ≤ length front + length chunk.now → ⊥ }

        // The type is known once an input of the reported length that begins with these bytes has it by them alone.
        ensures typed { self.new.kind ≡ None → (front : List ℕ) → Came self.old front → (d : List ℕ)
            → Begins (front ++ take (told_of self.old - length front) chunk.now) (told_of self.old) d → length d ≡ told_of self.old
            → AllBelow (length front + length (take (told_of self.old - length front) chunk.now)) (kind_of d 0).marks
            → result_ok (kind_of d 0).answer ≡ None }

        // No result is a fault, a spent budget or a lack of memory.
        ensures unstopped { IfSome result (λ answer. is_stopped answer.1 ≡ false) }
    {
        if self.pass_over(chunk) {
            return None;
        }
        self.take_in(chunk);
        self.answer()
    }

    /// The type, once it is known.
    pub fn kind(&self) -> Option<ImageType>
        // The type that `typed` of `push` speaks of.
        ensures is { result ≡ self.now.kind }
        ensures answered { IfSome (answer_of self.now) (λ answer. result ≡ answer.0) }
        ensures says { (front : List ℕ) → Came self.now front → IfSome result (λ kind. (d : List ℕ) → Begins front (told_of self.now) d
            → result_ok (kind_of d 0).answer ≡ Some kind) }
    {
        self.kind
    }

    /// Ends the input. Returns the type, if one was found, and the size or the error, as for a slice of the bytes that were passed.
    pub fn finish(mut self) -> (Option<ImageType>, ImageResult<ImageSize>)
        ensures kind { (front : List ℕ) → Came self front → result.0 ≡ result_ok (kind_of front 0).answer }
        ensures size { (front : List ℕ) → Came self front → result.1 ≡ (meaning front 0).answer }
        ensures unstopped { is_stopped result.1 ≡ false }
    {
        if let Some(answer) = self.answer() {
            return answer;
        }
        self.stand.told = self.stand.passed;
        self.take_in(&[]);
        match self.answer() {
            Some(answer) => answer,
            None => (None, Err(ImageError::NotSupported)),
        }
    }

    // Reads the next chunk. Bytes past the reported length do not count. Not inlined, so that the callers stay small.
    #[inline(never)]
    pub(crate) fn take_in(&mut self, chunk: &[u8])
        ensures { TakesIn self.old self.new chunk.now }
    {
        if self.awaits_text(chunk) {
            self.take_in_text(chunk);
        } else {
            self.proceed(chunk);
        }
    }

    // Reads the next chunk, where the next record is a text. Not inlined, so that other records skip its stack frame.
    #[inline(never)]
    fn take_in_text(&mut self, chunk: &[u8])
        ensures { TakesIn self.old self.new chunk.now }
    {
        if self.keep_text(chunk) {
            return;
        }
        self.proceed(chunk);
    }

    // Whether the next record is a text that this chunk may leave without its end. A single byte that ends its line is not kept, so
    // it is not searched twice.
    #[inline(always)]
    fn awaits_text(&self, chunk: &[u8]) -> bool {
        let Stage::Records { next } = &self.stage else {
            return false;
        };
        match (next.first_text(), chunk) {
            (Some((Text::Line { delimiter }, _)), [byte]) => {
                *byte != delimiter || self.stand.passed < self.stand.start
            }
            (Some(_), _) => true,
            (None, _) => false,
        }
    }

    // Continues the stage with the next chunk.
    fn proceed(&mut self, chunk: &[u8])
        ensures { TakesIn self.old self.new chunk.now }
    {
        let chunk = front_of(chunk, self.stand.told - self.stand.passed);
        self.searched = 0;
        match &mut self.stage {
            Stage::First => {
                begin(
                    &mut self.stage,
                    &mut self.kind,
                    &mut self.stand,
                    &mut self.buffer,
                    chunk,
                );
            }
            Stage::Records { next } => {
                let found = walk(next, &mut self.stand, &mut self.buffer, chunk);
                if let Some(size) = found {
                    self.stage = Stage::Done { size };
                }
            }
            Stage::Footer { size } => {
                self.stage = wait(
                    *size,
                    &mut self.kind,
                    &mut self.stand,
                    &mut self.buffer,
                    chunk,
                );
            }
            Stage::Done { .. } => {}
        }
    }

    // Counts a chunk that ends before the next record begins, and returns whether it does. Most chunks of a large segment end
    // there. For them this saves a walk, and the copies of the state that it begins with.
    #[inline(always)]
    fn pass_over(&mut self, chunk: &[u8]) -> bool
        ensures told { told_of self.new ≡ told_of self.old }
        ensures stays { result ≡ false → self.new ≡ self.old }
        ensures open { result ≡ true → answer_of self.old ≡ None }
        ensures none { result ≡ true → answer_of self.new ≡ None }
        ensures goes_on { result ≡ true → (front : List ℕ) → Came self.old front
            → Came self.new (front ++ take (told_of self.old - length front) chunk.now) }
        ensures complete { result ≡ true → (front : List ℕ) → Came self.old front
            → RestsOnMore (front ++ take (told_of self.old - length front) chunk.now) (told_of self.old) }
        ensures whole { result ≡ true → (front : List ℕ) → Came self.old front → told_of self.old ≤ length front + length chunk.now → ⊥ }
        ensures typed { result ≡ true → (front : List ℕ) → Came self.old front
            → TypedBy self.new.stage self.new.kind (front ++ take (told_of self.old - length front) chunk.now) (told_of self.old) }
    {
        let more = front_of(chunk, self.stand.told - self.stand.passed);
        match &self.stage {
            Stage::Records { next } => pass_over(next, &mut self.stand, more.len() as u64),
            _ => false,
        }
    }

    // Keeps a chunk that comes before the text that is next, or belongs to it and does not end it. Returns whether it does. Nearly
    // all chunks of a few bytes are such. For them this saves a walk, which searches the text from its start.
    #[inline(always)]
    fn keep_text(&mut self, chunk: &[u8]) -> bool
        ensures stays { result ≡ false → self.new ≡ self.old }
        ensures unanswered { result ≡ true → (answer_of self.old ≡ None) × (answer_of self.new ≡ None) }
        ensures takes { result ≡ true → TakesIn self.old self.new chunk.now }
    {
        let more = front_of(chunk, self.stand.told - self.stand.passed);
        let Stage::Records { next } = &self.stage else {
            return false;
        };
        let Some((text, most)) = next.first_text() else {
            return false;
        };
        keep_pending(
            text,
            most,
            &mut self.searched,
            &mut self.stand,
            &mut self.buffer,
            more,
        )
    }

    // Skips the bytes that are not needed, up to the first one that is, and requests those that the next read may need.
    pub(crate) fn skip(&mut self)
        requires { IsAhead self.old.stage self.old.stand }
        ensures told { told_of self.new ≡ told_of self.old }
        ensures keeps { answer_of self.new ≡ answer_of self.old }
        ensures idle { IfSome (answer_of self.old) (λ _. KeepsNothing self.old self.new) }
        ensures next { IsNext self.new.stage self.new.stand }
        ensures later { self.old.stand.passed ≤ self.new.stand.passed }
        ensures passed { IfAwaiting self.new.stage (self.new.stand.passed ≡ max self.old.stand.passed self.old.stand.start) }
        ensures parts { (d : List ℕ) → MayBeAt self.old.stage self.old.kind self.old.stand self.old.buffer d
            → MayBeAt self.new.stage self.new.kind self.new.stand self.new.buffer d }
    {
        if let Stage::Done { .. } = self.stage {
            return;
        }
        self.stand.end = self.requested_end();
        self.stand.passed = self.stand.passed.max(self.stand.start);
    }

    // The offset after the last byte that is requested. No read of a record goes further. `read_on` does not promise that.
    fn requested_end(&self) -> u64
        requires { IsAhead self.now.stage self.now.stand }
        ensures { IsCut self.now.stage self.now.stand.start self.now.stand.end result }
    {
        match &self.stage {
            Stage::Records { next } => self.stand.end.min(self.stand.start + next.most_read()),
            _ => self.stand.end,
        }
    }

    // The type and the size, once they are known.
    pub(crate) fn answer(&self) -> Option<(Option<ImageType>, ImageResult<ImageSize>)>
        ensures is { result ≡ answer_of self.now }
        ensures unstopped { IfSome result (λ answer. is_stopped answer.1 ≡ false) }
    {
        // A size is not passed through a result that has room for an error: this saves three copies of 96 bytes.
        let Stage::Done { size } = &self.stage else {
            return None;
        };
        let size = match size {
            Ok(size) => *size,
            // The error of an input of no type is not rare, so it is made without a call.
            Err(Halt::NotSupported) => return Some((self.kind, Err(ImageError::NotSupported))),
            Err(halt) => return halted(self.kind, *halt),
        };
        Some((self.kind, Ok(size)))
    }
}

// What `answer` returns for a `Halt`: the type, if one was found, and the error. Few pushes end in one. Not inlined: else a size is
// copied in the parts that a `Halt` has, and a load of the whole waits for all of them.
#[cold]
#[inline(never)]
fn halted(
    kind: Option<ImageType>,
    halt: Halt,
) -> Option<(Option<ImageType>, ImageResult<ImageSize>)>
    ensures { result ≡ Some (kind, stated (Err halt)) }
{
    Some((kind, Err(halt.error(Reason::EndOfInput, 0))))
}
