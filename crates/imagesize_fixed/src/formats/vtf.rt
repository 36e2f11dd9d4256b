//! Valve textures: "VTF header" in the Valve Texture Format.
ghost use Rattle.std.specs.Prelude.{◌≡◌};
ghost use Rattle.imagesize_fixed.specs.Vtf.{is_vtf, vtf};
ghost use Rattle.imagesize_source.specs.State.{Follows};

use crate::readings::sides_u16;
use imagesize_source::source::Source;
use imagesize_source::{Endian, Halt};
use imagesize_types::size::ImageSize;

/// Whether the input begins with the signature.
#[inline(always)]
#[tactic(auto, unfolding(crate::specs::Vtf::is_vtf))]
pub fn matches(head: &[u8; 12]) -> bool
    ensures { result ≡ is_vtf head.now }
{
    matches!(head, [b'V', b'T', b'F', 0, ..])
}

/// The width and the height of the largest mipmap in pixels. Returns `Ended` if the input ends before them.
#[inline(always)]
#[tactic(auto, using(imagesize_source::proofs::Runs::steps))]
pub fn size<S: Source>(source: &mut S) -> Result<ImageSize, Halt>
    ensures { Follows (S.state source.old) (S.state source.new) result vtf }
{
    sides_u16(source, Endian::Little, 16, 18)
}
