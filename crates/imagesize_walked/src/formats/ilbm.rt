//! Interleaved bitmaps: "EA IFF 85" (forms and chunks) and its supplement "ILBM" (the bitmap header).
ghost use Rattle.imagesize_source.specs.State.{Runs};
ghost use Rattle.std.specs.Prelude.{◌≡◌};
ghost use Rattle.imagesize_walked.specs.Ilbm.{chunk_bytes, chunk_length, ilbm, is_bitmap_header, is_body, is_ilbm};
ghost use Rattle.imagesize_walked.specs.Walks.{ilbm_step};

use imagesize_source::readings::{read_exact_at, read_u16_behind};
use imagesize_source::source::Source;
use imagesize_source::walk::{Found, RecordResult, Records, walk};
use imagesize_source::{Endian, Halt};
use imagesize_types::size::ImageSize;

/// Whether the input begins with a form of the type `ILBM` or `PBM `.
#[inline(always)]
#[tactic(auto, unfolding(crate::specs::Ilbm::is_ilbm))]
pub fn matches(head: &[u8; 12]) -> bool
    ensures { result ≡ is_ilbm head.now }
{
    matches!(head, [b'F', b'O', b'R', b'M', ..])
        && (matches!(head, [_, _, _, _, _, _, _, _, b'I', b'L', b'B', b'M', ..])
            || matches!(head, [_, _, _, _, _, _, _, _, b'P', b'B', b'M', b' ', ..]))
}

/// The width and the height in pixels, from the first bitmap header before the pixels. Returns `Corrupted` if the pixels come
/// first, and `Ended` if the input ends before the size.
#[tactic(auto, using(crate::proofs::Ilbm::ilbm_follows, crate::proofs::Ilbm::ilbm_is))]
pub fn size<S: Source>(source: &mut S) -> Result<ImageSize, Halt>
    ensures { Runs (S.state source.old) (S.state source.new) result (ilbm (S.state source.old).held.input) }
{
    walk(Chunks, source, 12)
}

/// The chunks after the form's type.
#[derive(Clone, Copy)]
pub struct Chunks;

impl Records for Chunks {
    type State = Chunks;

    type Answer = ImageSize;

    ghost step = { ilbm_step };

    ghost state = { λ chunks. chunks };

    // Reads the chunk at an offset.
    #[inline(always)]
    #[tactic(auto, using(imagesize_source::proofs::Runs::steps))]
    fn read_record<S: Source>(&mut self, source: &mut S, offset: u64) -> RecordResult<ImageSize> {
        // Read into a buffer: bytes returned in a result are copied in parts, and a load of the whole waits for all of them.
        let mut head = [0u8; 8];
        read_exact_at(source, offset, &mut head)?;
        if is_bitmap_header(&head) {
            let width = read_u16_behind(source, offset, 8, Endian::Big)? as usize;
            let height = read_u16_behind(source, offset, 10, Endian::Big)? as usize;
            return Ok(Found::Answer(ImageSize { width, height }));
        }
        if is_body(&head) {
            return Err(Halt::Corrupted);
        }
        Ok(Found::Other {
            length: chunk_bytes(chunk_length(&head)),
        })
    }

    // The input ends before the size.
    #[inline(always)]
    #[tactic(auto, using(crate::proofs::Ilbm::ilbm_ends))]
    fn at_end(&self) -> Result<ImageSize, Halt> {
        Err(Halt::Ended)
    }
}

#[inline(always)]
fn is_bitmap_header(head: &[u8; 8]) -> bool
    ensures { result ≡ is_bitmap_header head.now }
{
    matches!(head, [b'B', b'M', b'H', b'D', ..])
}

#[inline(always)]
fn is_body(head: &[u8; 8]) -> bool
    ensures { result ≡ is_body head.now }
{
    matches!(head, [b'B', b'O', b'D', b'Y', ..])
}

// The length of a chunk's data in bytes.
#[inline(always)]
#[tactic(auto, using(imagesize_source::proofs::Bytes::last_four), unfolding(crate::specs::Ilbm::chunk_length))]
fn chunk_length(head: &[u8; 8]) -> u32
    ensures { result ≡ chunk_length head.now }
{
    u32::from_be_bytes([head[4], head[5], head[6], head[7]])
}

// The length of a chunk in bytes: its name, its length, its data, and the padding after data of an odd length.
#[inline(always)]
fn chunk_bytes(length: u32) -> u64
    ensures { result ≡ chunk_bytes length }
{
    let length = length as u64;
    8 + (length + length % 2)
}
