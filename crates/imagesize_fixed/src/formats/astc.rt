//! Textures in ASTC: the file header of `astcenc` ("The .astc File Format").
ghost use Rattle.std.specs.Prelude.{◌≡◌};
ghost use Rattle.imagesize_fixed.specs.Astc.{is_astc, astc};
ghost use Rattle.imagesize_source.specs.State.{Follows};

use crate::readings::sides_u24;
use imagesize_source::source::Source;
use imagesize_source::{Endian, Halt};
use imagesize_types::size::ImageSize;

/// Whether the input begins with the magic number.
#[inline(always)]
#[tactic(auto, unfolding(crate::specs::Astc::is_astc))]
pub fn matches(head: &[u8; 12]) -> bool
    ensures { result ≡ is_astc head.now }
{
    matches!(head, [0x13, 0xAB, 0xA1 | 0xA0, 0x5C, ..])
}

/// The first two of the three dimensions, in pixels. Returns `Ended` if the input ends before them.
#[inline(always)]
#[tactic(auto, using(imagesize_source::proofs::Runs::steps))]
pub fn size<S: Source>(source: &mut S) -> Result<ImageSize, Halt>
    ensures { Follows (S.state source.old) (S.state source.new) result astc }
{
    sides_u24(source, Endian::Little, 7, 10)
}
