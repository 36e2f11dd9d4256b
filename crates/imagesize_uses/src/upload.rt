//! A check of uploads whose bytes come in chunks. It ends as soon as the size is known.
ghost use Rattle.std.specs.Prelude.{◌≡◌, ℕ, ◌+◌, ◌-◌, ◌≤◌, ◌++◌, [], List, None, Some, IfSome, length, take};
ghost use Rattle.imagesize.specs.Meaning.{meaning};
ghost use Rattle.imagesize_pieces.specs.Stream.{AllBelow, Begins};
ghost use Rattle.imagesize_uses.specs.Upload.{Fed, IsOfAdmit, joined, byte_limit, limit_by, verdict_of, verdict_on};

use crate::gate::{Rejection, judge};
use imagesize::ImageSize;
use imagesize_stream::StreamProbe;

/// Admits the image in an upload if its size has at most a number of pixels, from chunks of any length.
///
/// The verdict is the one that `admit` returns for the same bytes. A gate keeps at most 1,023 bytes of the upload, and
/// allocates nothing.
///
/// ```
/// use imagesize_uses::upload::UploadGate;
///
/// // at most 20 MB of the upload are read, and an image may have 50 megapixels
/// let mut gate = UploadGate::new(Some(20_000_000), 50_000_000);
/// let verdict = loop {
///     match body.next_chunk()? {
///         Some(chunk) => {
///             if let Some(verdict) = gate.feed(&chunk) {
///                 break verdict; // the rest of the upload need not come
///             }
///         }
///         None => break gate.finish(),
///     }
/// };
/// ```
#[derive(Drop)]
pub struct UploadGate {
    probe: StreamProbe,
    most_pixels: u64,
}

impl UploadGate {
    /// A gate for an upload of at most `most_bytes` bytes, which is its length or a limit. Bytes past that do not count.
    pub fn new(most_bytes: Option<u64>, most_pixels: u64) -> UploadGate
        ensures bytes { byte_limit result ≡ limit_by most_bytes }
        ensures pixels { result.most_pixels ≡ most_pixels }
        ensures begins { Fed result [] }
    {
        UploadGate {
            probe: StreamProbe::new(most_bytes),
            most_pixels,
        }
    }

    /// Takes the next bytes. Returns the verdict as soon as no further byte can change it, and `None` until then. After a
    /// verdict, each call returns it again.
    pub fn feed(&mut self, chunk: &[u8]) -> Option<Result<ImageSize, Rejection>>
        ensures bytes { byte_limit self.new ≡ byte_limit self.old }
        ensures pixels { self.new.most_pixels ≡ self.old.most_pixels }

        // A verdict is kept.
        ensures is { result ≡ verdict_of self.new }
        ensures keeps { IfSome (verdict_of self.old) (λ verdict. verdict_of self.new ≡ Some verdict) }

        // For each list of bytes that came before:
        ensures goes_on { (front : List ℕ) → Fed self.old front
            → Fed self.new (front ++ take (byte_limit self.old - length front) chunk.now) }

        // A verdict is that on every input that begins with these bytes and is no longer than expected.
        ensures says { (front : List ℕ) → Fed self.old front → IfSome result (λ verdict. (d : List ℕ)
            → Begins (front ++ take (byte_limit self.old - length front) chunk.now) (byte_limit self.old) d
            → verdict ≡ verdict_on self.old.most_pixels d) }

        // There is a verdict if an input of the expected length that begins so depends on these bytes alone, and once all came.
        ensures complete { result ≡ None → (front : List ℕ) → Fed self.old front → (d : List ℕ)
            → Begins (front ++ take (byte_limit self.old - length front) chunk.now) (byte_limit self.old) d → length d ≡ byte_limit self.old
            → AllBelow (length front + length (take (byte_limit self.old - length front) chunk.now)) (meaning d 0).marks → ⊥ }
        ensures whole { result ≡ None → (front : List ℕ) → Fed self.old front → byte_limit self.old ≤ length front + length chunk.now → ⊥ }
    {
        let (_, answer) = self.probe.push(chunk)?;
        Some(judge(answer, self.most_pixels))
    }

    /// Ends the upload. Returns the verdict on the bytes that came.
    pub fn finish(self) -> Result<ImageSize, Rejection>
        ensures { (front : List ℕ) → Fed self front → result ≡ verdict_on self.most_pixels front }
    {
        judge(self.probe.finish().1, self.most_pixels)
    }
}

/// Returns the verdict on an upload that comes in these chunks. Chunks after the verdict are not read.
pub fn admit_chunks(
    chunks: &[&[u8]],
    most_bytes: Option<u64>,
    most_pixels: u64,
) -> Result<ImageSize, Rejection>
    ensures { result ≡ verdict_on most_pixels (take (limit_by most_bytes) (joined chunks.now)) }
{
    let mut gate = UploadGate::new(most_bytes, most_pixels);
    for chunk in chunks {
        if let Some(verdict) = gate.feed(chunk) {
            return verdict;
        }
    }
    gate.finish()
}

// What `admit` returns over the bytes of an input, an upload gate returns of the same bytes.
fn upload_laws()
    ensures { (most : ℕ) (d : List ℕ) → IsOfAdmit most d (verdict_on most d) }
{}
