//! JPEG XL, by ISO/IEC 18181-1 (the codestream) and 18181-2 (the boxes around it).
ghost use Rattle.std.specs.Prelude.{◌≡◌};
ghost use Rattle.imagesize_boxes.specs.Jxl.{is_jxl, jxl, jxl_start};
ghost use Rattle.imagesize_source.specs.State.{Follows, Runs};

mod bits;
pub mod boxes;
pub mod front;
mod header;

use front::Front;
use imagesize_source::Halt;
use imagesize_source::readings::read_bytes;
use imagesize_source::source::Source;
use imagesize_types::size::ImageSize;

/// Whether the input begins with a codestream or with a signature box.
#[inline(always)]
#[tactic(auto, unfolding(crate::specs::Jxl::is_jxl))]
pub fn matches(head: &[u8; 12]) -> bool
    ensures { result ≡ is_jxl head.now }
{
    matches!(head, [0xFF, 0x0A, ..])
        || matches!(
            head,
            [
                0, 0, 0, 0x0C, b'J', b'X', b'L', b' ', 0x0D, 0x0A, 0x87, 0x0A
            ]
        )
}

/// The width and the height in pixels, from the header of the codestream, as the image is shown: some orientations
/// exchange them.
///
/// Errors:
/// - `Corrupted` if a box ends above 2^64-1, or the header is cut.
/// - `InvalidJxlBoxSize` if a box is smaller than its own header.
/// - `InvalidJxlSignature` if the codestream does not begin with its signature.
/// - `Ended` if the input ends within its first two bytes, or within the header of a box. The same of a `jxlp` box that is
///   too short for its index.
pub fn size<S: Source>(source: &mut S) -> Result<ImageSize, Halt>
    ensures { Runs (S.state source.old) (S.state source.new) result
        (jxl (S.state source.old).held.input) }
{
    match read_start(source)? {
        Some(front) => front.size(),
        None => boxes::size_in_boxes(source),
    }
}

/// The first bytes of an input that is a codestream, or `None` if it has boxes.
#[tactic(auto, using(imagesize_source::proofs::Runs::steps))]
pub fn read_start<S: Source>(source: &mut S) -> Result<Option<Front>, Halt>
    ensures { Follows (S.state source.old) (S.state source.new) result jxl_start }
{
    let start = read_bytes::<S, 2>(source, 0)?;
    if !header::has_signature(&start) {
        return Ok(None);
    }
    let mut buffer = [0u8; 14];
    let there = source.read_at(2, &mut buffer)?;
    Ok(Some(Front::of_start(start, buffer, there)))
}
