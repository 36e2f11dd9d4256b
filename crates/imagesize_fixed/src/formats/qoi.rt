//! QOI: the header in the Quite OK Image Format Specification 1.0.
ghost use Rattle.std.specs.Prelude.{◌≡◌};
ghost use Rattle.imagesize_fixed.specs.Qoi.{is_qoi, qoi};
ghost use Rattle.imagesize_source.specs.State.{Follows};

use crate::readings::sides_u32;
use imagesize_source::source::Source;
use imagesize_source::{Endian, Halt};
use imagesize_types::size::ImageSize;

/// Whether the input begins with the magic bytes.
#[inline(always)]
#[tactic(auto, unfolding(crate::specs::Qoi::is_qoi))]
pub fn matches(head: &[u8; 12]) -> bool
    ensures { result ≡ is_qoi head.now }
{
    matches!(head, [b'q', b'o', b'i', b'f', ..])
}

/// The width and the height in pixels. Returns `Ended` if the input ends before them.
#[inline(always)]
#[tactic(auto, using(imagesize_source::proofs::Runs::steps))]
pub fn size<S: Source>(source: &mut S) -> Result<ImageSize, Halt>
    ensures { Follows (S.state source.old) (S.state source.new) result qoi }
{
    sides_u32(source, Endian::Big, 4, 8)
}
