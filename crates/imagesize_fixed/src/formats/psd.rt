//! Photoshop documents: "File Header Section" in the Adobe Photoshop File Formats Specification.
ghost use Rattle.std.specs.Prelude.{◌≡◌};
ghost use Rattle.imagesize_fixed.specs.Psd.{is_psd, psd};
ghost use Rattle.imagesize_source.specs.State.{Follows};

use crate::readings::height_first_u32;
use imagesize_source::source::Source;
use imagesize_source::{Endian, Halt};
use imagesize_types::size::ImageSize;

/// Whether the input begins with the signature.
#[inline(always)]
#[tactic(auto, unfolding(crate::specs::Psd::is_psd))]
pub fn matches(head: &[u8; 12]) -> bool
    ensures { result ≡ is_psd head.now }
{
    matches!(head, [b'8', b'B', b'P', b'S', ..])
}

/// The height and the width in pixels. Returns `Ended` if the input ends before them.
#[inline(always)]
#[tactic(auto, using(imagesize_source::proofs::Runs::steps))]
pub fn size<S: Source>(source: &mut S) -> Result<ImageSize, Halt>
    ensures { Follows (S.state source.old) (S.state source.new) result psd }
{
    height_first_u32(source, Endian::Big, 14, 18)
}
