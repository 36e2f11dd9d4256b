//! KTX 2.0: the fields `identifier`, `pixelWidth` and `pixelHeight` in the Khronos KTX File Format Specification.
ghost use Rattle.std.specs.Prelude.{◌≡◌};
ghost use Rattle.imagesize_fixed.specs.Ktx2.{is_ktx2, ktx2};
ghost use Rattle.imagesize_source.specs.State.{Follows};

use crate::readings::sides_u32;
use imagesize_source::source::Source;
use imagesize_source::{Endian, Halt};
use imagesize_types::size::ImageSize;

/// Whether the input begins with the identifier.
#[inline(always)]
#[tactic(auto, unfolding(crate::specs::Ktx2::is_ktx2))]
pub fn matches(head: &[u8; 12]) -> bool
    ensures { result ≡ is_ktx2 head.now }
{
    matches!(
        head,
        [
            0xAB, 0x4B, 0x54, 0x58, 0x20, 0x32, 0x30, 0xBB, 0x0D, 0x0A, 0x1A, 0x0A
        ]
    )
}

/// The width and the height of the texture in pixels, at its first level. Returns `Ended` if the input ends before them.
#[inline(always)]
#[tactic(auto, using(imagesize_source::proofs::Runs::steps))]
pub fn size<S: Source>(source: &mut S) -> Result<ImageSize, Halt>
    ensures { Follows (S.state source.old) (S.state source.new) result ktx2 }
{
    sides_u32(source, Endian::Little, 20, 24)
}
