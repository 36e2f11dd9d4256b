//! Farbfeld: "FORMAT" in the manual page farbfeld(5).
ghost use Rattle.std.specs.Prelude.{◌≡◌};
ghost use Rattle.imagesize_fixed.specs.Farbfeld.{is_farbfeld, farbfeld};
ghost use Rattle.imagesize_source.specs.State.{Follows};

use crate::readings::sides_u32;
use imagesize_source::source::Source;
use imagesize_source::{Endian, Halt};
use imagesize_types::size::ImageSize;

/// Whether the input begins with the magic value.
#[inline(always)]
#[tactic(auto, unfolding(crate::specs::Farbfeld::is_farbfeld))]
pub fn matches(head: &[u8; 12]) -> bool
    ensures { result ≡ is_farbfeld head.now }
{
    matches!(head, [b'f', b'a', b'r', b'b', b'f', b'e', b'l', b'd', ..])
}

/// The width and the height in pixels. Returns `Ended` if the input ends before them.
#[inline(always)]
#[tactic(auto, using(imagesize_source::proofs::Runs::steps))]
pub fn size<S: Source>(source: &mut S) -> Result<ImageSize, Halt>
    ensures { Follows (S.state source.old) (S.state source.new) result farbfeld }
{
    sides_u32(source, Endian::Big, 8, 12)
}
