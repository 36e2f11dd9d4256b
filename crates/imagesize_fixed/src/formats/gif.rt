//! GIF: sections 17 (Header) and 18 (Logical Screen Descriptor) of the GIF89a Specification.
ghost use Rattle.std.specs.Prelude.{◌≡◌};
ghost use Rattle.imagesize_fixed.specs.Gif.{is_gif, gif};
ghost use Rattle.imagesize_source.specs.State.{Follows};

use crate::readings::sides_u16;
use imagesize_source::source::Source;
use imagesize_source::{Endian, Halt};
use imagesize_types::size::ImageSize;

/// Whether the input begins with `GIF8`, as both versions do.
#[inline(always)]
#[tactic(auto, unfolding(crate::specs::Gif::is_gif))]
pub fn matches(head: &[u8; 12]) -> bool
    ensures { result ≡ is_gif head.now }
{
    matches!(head, [b'G', b'I', b'F', b'8', ..])
}

/// The width and the height of the logical screen in pixels. Returns `Ended` if the input ends before them.
#[inline(always)]
#[tactic(auto, using(imagesize_source::proofs::Runs::steps))]
pub fn size<S: Source>(source: &mut S) -> Result<ImageSize, Halt>
    ensures { Follows (S.state source.old) (S.state source.new) result gif }
{
    sides_u16(source, Endian::Little, 6, 8)
}
