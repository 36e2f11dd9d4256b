//! JPEG: ITU-T T.81, annex B. Walks along the segments up to the first frame of the image itself.
ghost use Rattle.std.specs.Prelude.{◌≡◌, ℕ, ◌<◌, ◌≤◌, ◌+◌, ◌^◌};
ghost use Rattle.imagesize_walked.specs.Jpeg.{is_frame, is_jpeg, is_own_end, is_own_frame, jpeg};
ghost use Rattle.imagesize_walked.specs.Walks.{depth_behind, is_plain, jpeg_first, jpeg_holds, jpeg_step, HasRole};
ghost use Rattle.imagesize_walked.specs.declared.formats.jpeg.Segments.{Segments};
ghost use Rattle.imagesize_source.specs.Reading.{number_read};
ghost use Rattle.imagesize_source.specs.State.{Runs, State};
ghost use Rattle.imagesize_source.specs.Strides.{Strides};
ghost use Rattle.imagesize_source.specs.declared.endian.Endian.TheVariants as endian;

use imagesize_source::readings::{read_bytes, read_u16, read_u16_behind};
use imagesize_source::source::Source;
use imagesize_source::walk::{Found, RecordResult, Records, ended, walk_on};
use imagesize_source::{Endian, Halt};
use imagesize_types::size::ImageSize;

/// Whether the input begins with the start of an image and the first byte of another marker.
#[inline(always)]
#[tactic(auto, unfolding(crate::specs::Jpeg::is_jpeg))]
pub fn matches(head: &[u8; 12]) -> bool
    ensures { result ≡ is_jpeg head.now }
{
    matches!(head, [0xFF, 0xD8, 0xFF, ..])
}

/// The width and the height in pixels, from the first frame that does not belong to an image within the image. Returns
/// `Corrupted` if a segment does not begin with FF or the image ends before its frame, and `Ended` if the input does.
#[tactic(auto, using(crate::proofs::Jpeg::jpeg_follows))]
pub fn size<S: Source>(source: &mut S) -> Result<ImageSize, Halt>
    ensures { Runs (S.state source.old) (S.state source.new) result (jpeg (S.state source.old).held.input) }
{
    let mut offset = pass_plain(source, 2);
    walk_on(&mut Segments { depth: 0 }, &mut offset, source)
}

// The offset of the first segment from this one on that may be a frame, or that does not lie whole in a slice. Before a frame, a JPEG
// mostly has segments with a marker below C0 or above D9. In a slice, this reads the four bytes of each at once.
#[inline(always)]
fn pass_plain<S: Source>(source: &S, first: u64) -> u64
    ensures ahead { first ≤ result }
    ensures strides { (a : State) (s : Segments) (offset : ℕ)
        → Strides jpeg_step a (S.state source.now) s offset jpeg_first first
        → Strides jpeg_step a (S.state source.now) s offset jpeg_first result }
{
    let mut offset = first;
    while let Some(head) = source.glance(offset)
        && is_plain(head)
    {
        offset += 2 + Endian::Big.u16([head[2], head[3]]) as u64;
    }
    offset
}

// Whether a segment that begins with these bytes is neither a frame nor a start or an end of an image.
#[inline(always)]
fn is_plain(head: [u8; 4]) -> bool
    ensures { result ≡ is_plain head }
{
    head[0] == 0xFF && !matches!(head[1], 0xC0..=0xD9)
}

/// The segments after the start of the image. `depth` says how many images within the image the next segment is in.
#[derive(Clone, Copy)]
pub struct Segments {
    /// How many images within the image the next segment is in.
    pub depth: u64,
}

impl Records for Segments {
    type State = Segments;

    type Answer = ImageSize;

    ghost step = { jpeg_step };

    ghost state = { λ segments. segments };

    ghost holds = { jpeg_holds };

    // Reads the segment at an offset.
    #[inline(always)]
    #[tactic(auto, using(imagesize_source::proofs::Runs::steps, imagesize_source::proofs::Runs::missed_before))]
    fn read_record<S: Source>(&mut self, source: &mut S, offset: u64) -> RecordResult<ImageSize> {
        let [first, marker] = read_bytes::<S, 2>(source, offset)?;
        if first != 0xFF {
            return Err(Halt::Corrupted);
        }
        match role_of(self.depth, marker) {
            Role::Frame => {
                let height = read_u16_behind(source, offset, 5, Endian::Big)? as usize;
                let width = read_u16_behind(source, offset, 7, Endian::Big)? as usize;
                Ok(Found::Answer(ImageSize { width, height }))
            }
            Role::End => Err(Halt::Corrupted),
            Role::Other { depth } => {
                let length = read_length(source, offset)? as u64;
                if let Some(depth) = depth {
                    self.depth = depth;
                }
                Ok(Found::Other { length: 2 + length })
            }
        }
    }

    // The input ends before the size.
    #[inline(always)]
    #[tactic(auto, using(crate::proofs::Jpeg::jpeg_ends))]
    fn at_end(&self) -> Result<ImageSize, Halt> {
        ended()
    }
}

// The length of the segment at an offset: how many bytes it has after its marker. In held bytes, `checked_add` saves 4 of 40
// instructions a segment compared with `read_u16_behind`, whose sum saturates. A sum that does not fit is past the end of every input.
#[inline(always)]
fn read_length<S: Source>(source: &mut S, offset: u64) -> Result<u16, Halt>
    ensures { Runs (S.state source.old) (S.state source.new) result
        (number_read (S.state source.old).held.input endian.Big (offset + 2) 2) }
{
    match offset.checked_add(2) {
        Some(behind) => read_u16(source, behind, Endian::Big),
        None => read_u16_behind(source, offset, 2, Endian::Big),
    }
}

// What a marker means for the image itself.
#[derive(Clone, Copy)]
enum Role {
    // It starts a frame of the image.
    Frame,
    // It ends the image.
    End,
    // Neither. `depth` is the depth of the next segment. `None`: the depth stays the same, and is not written.
    Other { depth: Option<u64> },
}

// What a marker at this depth means. Most markers are not from C0 to D9.
#[inline(always)]
fn role_of(depth: u64, marker: u8) -> Role
    requires { depth + 1 < 2 ^ 64 }
    ensures { HasRole depth marker result }
{
    if !matches!(marker, 0xC0..=0xD9) {
        return Role::Other { depth: None };
    }
    if is_own_frame(depth, marker) {
        return Role::Frame;
    }
    if is_own_end(depth, marker) {
        return Role::End;
    }
    Role::Other {
        depth: Some(depth_behind(depth, marker)),
    }
}

// Whether a marker starts a frame.
#[inline(always)]
fn is_frame(marker: u8) -> bool
    ensures { result ≡ is_frame marker }
{
    matches!(marker, 0xC0..=0xCF) && !matches!(marker, 0xC4 | 0xC8 | 0xCC)
}

// Whether a marker starts a frame of the image itself.
#[inline(always)]
fn is_own_frame(depth: u64, marker: u8) -> bool
    ensures { result ≡ is_own_frame depth marker }
{
    depth == 0 && is_frame(marker)
}

// Whether a marker ends the image itself.
#[inline(always)]
fn is_own_end(depth: u64, marker: u8) -> bool
    ensures { result ≡ is_own_end depth marker }
{
    depth == 0 && marker == 0xD9
}

// The depth after a segment with this marker.
#[inline(always)]
fn depth_behind(depth: u64, marker: u8) -> u64
    requires fits { depth + 1 < 2 ^ 64 }
    requires inner { marker ≡ 0xD9 → 0 < depth }
    ensures { result ≡ depth_behind depth marker }
{
    match marker {
        0xD8 => depth + 1,
        0xD9 => depth - 1,
        _ => depth,
    }
}
