//! Sprites of the editor Aseprite: the header in "Aseprite File Format (.ase/.aseprite) Specifications".
ghost use Rattle.std.specs.Prelude.{◌≡◌};
ghost use Rattle.imagesize_fixed.specs.Aseprite.{is_aseprite, aseprite};
ghost use Rattle.imagesize_source.specs.State.{Follows};

use crate::readings::sides_u16;
use imagesize_source::source::Source;
use imagesize_source::{Endian, Halt};
use imagesize_types::size::ImageSize;

/// Whether the magic number 0xA5E0 comes after the length of the file.
#[inline(always)]
#[tactic(auto, unfolding(crate::specs::Aseprite::is_aseprite))]
pub fn matches(head: &[u8; 12]) -> bool
    ensures { result ≡ is_aseprite head.now }
{
    matches!(head, [_, _, _, _, 0xE0, 0xA5, ..])
}

/// The width and the height of the sprite in pixels. Returns `Ended` if the input ends before them.
#[inline(always)]
#[tactic(auto, using(imagesize_source::proofs::Runs::steps))]
pub fn size<S: Source>(source: &mut S) -> Result<ImageSize, Halt>
    ensures { Follows (S.state source.old) (S.state source.new) result aseprite }
{
    sides_u16(source, Endian::Little, 8, 10)
}
