//! An input that is fetched, for example by range requests, until its type and size are known.
ghost use Rattle.std.specs.Prelude.{◌≡◌, ℕ, ◌+◌, ◌*◌, ◌^◌, ◌<◌, ◌≤◌, false, List, Option, Some, length, take, IfErr, IfOk};
ghost use Rattle.imagesize.specs.Meaning.{meaning};
ghost use Rattle.imagesize.specs.Parted.{texts_of};
ghost use Rattle.imagesize_source.specs.Counts.{offsets};
ghost use Rattle.imagesize_source.specs.Input.{part};
ghost use Rattle.imagesize_uses.specs.Remote.{Fetch, IsOf, Stops, most_at_once};

use crate::cache::bytes_of_span;
use crate::joined::copy_front;
use imagesize::{ImageResult, ImageSize, ImageType, PartsAnswer, Span};
use imagesize_stream::PartsProbe;
use std::io::{self, ErrorKind};

/// An input whose bytes are elsewhere, and are fetched by offset.
pub trait Remote {
    /// Its bytes.
    ghost input: { Self → List ℕ };

    /// How many fetches there were: each that gave bytes, and the failed ones as far as it counts them.
    ghost fetches: { Self → ℕ };

    /// How many bytes they requested in all.
    ghost asked: { Self → ℕ };

    /// The last fetch.
    ghost last: { Self → Option Fetch };

    /// The length of the input in bytes.
    fn length(&self) -> u64
        ensures length { result ≡ length (input self.now) }
        ensures short { result < 2 ^ 63 };

    /// Fetches the bytes from an offset on into the buffer, and returns how many came.
    fn fetch(&mut self, offset: u64, buffer: &mut [u8]) -> io::Result<usize>
        ensures bound { IfOk result (λ n. n ≤ length buffer.new) }
        ensures bytes { IfOk result (λ n. take n buffer.new ≡ part (input self.old) offset n) }
        ensures same { input self.new ≡ input self.old }
        ensures counts { fetches self.new ≤ fetches self.old + 1 }
        ensures asks { asked self.new ≤ asked self.old + length buffer.new }
        ensures each { IfOk result (λ _. fetches self.new ≡ fetches self.old + 1) }
        ensures last { last self.new ≡ Some (record { wanted = length buffer.new; gave = result }) };
}

/// Type and size of an input.
#[derive(Debug, Drop)]
pub struct Probed {
    /// The type, if one was found.
    pub kind: Option<ImageType>,
    /// The size in pixels, or the error.
    pub answer: ImageResult<ImageSize>,
}

/// Why an input could not be probed.
#[derive(Debug, Drop)]
pub enum Interrupted {
    /// A fetch failed.
    Failed(io::Error),
    /// A fetch gave fewer bytes than it requested.
    Short,
}

// How many bytes one fetch requests at most, of any type.
const MOST: usize = 1024;

/// Reads type and size of the image in an input, and fetches only what is needed for them.
///
/// A fetch requests at most 132 bytes, or 1,024 for the text formats (OpenEXR, Radiance and the portable bitmaps). All fetches
/// together request at most as many bytes as the input has. The call allocates nothing.
///
/// Errors: the first fetch that fails or gives too few bytes.
pub fn probe_remote<R: Remote>(remote: &mut R) -> Result<Probed, Interrupted>
    ensures answer { IfOk result (IsOf (R.input remote.old)) }
    ensures stops { Stops (R.last remote.new) result }

    // There are at most as many fetches as the spans of the trace cover bytes, each byte counted once.
    ensures few { R.fetches remote.new ≤ R.fetches remote.old
        + offsets (length (R.input remote.old)) (meaning (R.input remote.old) 0).marks }

    // Unless the format stores its size in texts, there are at most as many fetches as the trace has spans.
    ensures rounds { texts_of (R.input remote.old) ≡ false
        → R.fetches remote.new ≤ R.fetches remote.old + length (meaning (R.input remote.old) 0).marks }

    // All fetches together request at most as many bytes as the input has.
    ensures once { R.asked remote.new ≤ R.asked remote.old + length (R.input remote.old) }

    // They request at most 132 bytes for each byte that the spans cover, or 1,024 in a text format.
    ensures most { R.asked remote.new ≤ R.asked remote.old
        + offsets (length (R.input remote.old)) (meaning (R.input remote.old) 0).marks * most_at_once (R.input remote.old) }

    // It fails only if a byte is needed: a result that needs none makes no fetch.
    ensures some { IfErr result (λ _. 0 < offsets (length (R.input remote.old)) (meaning (R.input remote.old) 0).marks) }
{
    let whole = remote.length();
    let mut probe = PartsProbe::new(whole);
    let mut buffer = [0u8; MOST];
    'rounds: loop {
        match probe.answer() {
            PartsAnswer::Found((kind, answer)) => return Ok(Probed { kind, answer }),
            PartsAnswer::Wanted(span) => {
                let part = &mut buffer[..span.len as usize];
                fetch_part(remote, span.start, part)?;
                probe.supply(span.start, part);
            }
        }
    }
}

// Fetches the bytes from an offset on, until the buffer is full.
fn fetch_part<R: Remote>(remote: &mut R, offset: u64, buffer: &mut [u8]) -> Result<(), Interrupted>
    ensures same { R.input remote.new ≡ R.input remote.old }
    ensures counts { R.fetches remote.new ≤ R.fetches remote.old + 1 }
    ensures bytes { IfOk result (λ _. buffer.new ≡ part (R.input remote.old) offset (length buffer.old)) }
    ensures asks { R.asked remote.new ≤ R.asked remote.old + length buffer.old }
    ensures stops { Stops (R.last remote.new) result }
{
    match remote.fetch(offset, buffer) {
        Err(error) => Err(Interrupted::Failed(error)),
        Ok(count) if count < buffer.len() => Err(Interrupted::Short),
        Ok(_) => Ok(()),
    }
}

/// An input in memory that is fetched. A fetch gives at most `most` bytes, and after a number of fetches each fails.
#[derive(Drop)]
pub struct Held<'a> {
    bytes: &'a [u8],
    most: usize,
    left: u64,
    fetches: u64,
    asked: u64,
    wanted: usize,
    gave: io::Result<usize>,
}

impl<'a> Held<'a> {
    /// An input with these bytes. Each fetch gives at most `most` of them, and the first `left` fetches succeed.
    pub fn new(bytes: &'a [u8], most: usize, left: u64) -> Held<'a>
        ensures { result.bytes.now ≡ bytes.now }
    {
        Held {
            bytes,
            most,
            left,
            fetches: 0,
            asked: 0,
            wanted: 0,
            gave: Ok(0),
        }
    }

    /// How many fetches there were.
    pub fn fetches(&self) -> u64
        ensures { result ≡ self.now.fetches }
    {
        self.fetches
    }
}

impl Remote for Held<'_> {
    ghost input = { λ h. h.bytes.now };

    ghost fetches = { λ h. h.fetches };

    ghost asked = { λ h. h.asked };

    ghost last = { λ h. Some (record { wanted = h.wanted; gave = h.gave }) };

    fn length(&self) -> u64 {
        self.bytes.len() as u64
    }

    fn fetch(&mut self, offset: u64, buffer: &mut [u8]) -> io::Result<usize> {
        self.wanted = buffer.len();
        self.asked = self.asked.saturating_add(buffer.len() as u64);
        self.gave = if self.left > 0 && self.fetches < u64::MAX {
            Ok(copy_part(self.bytes, offset, self.most, buffer))
        } else {
            Err(io::Error::from(ErrorKind::TimedOut))
        };
        self.left = self.left.saturating_sub(1);
        self.fetches = self.fetches.saturating_add(1);
        self.gave
    }
}

// Copies the bytes from an offset on, as far as there are any and at most `most`, and returns how many were copied.
fn copy_part(bytes: &[u8], offset: u64, most: usize, buffer: &mut [u8]) -> usize
    ensures bound { result ≤ length buffer.new }
    ensures copied { take result buffer.new ≡ part bytes.now offset result }
{
    let span = Span {
        start: offset,
        len: most as u64,
    };
    copy_front(bytes_of_span(bytes, &span), buffer)
}
