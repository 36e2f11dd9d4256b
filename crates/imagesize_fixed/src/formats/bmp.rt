//! Windows bitmaps: `BITMAPFILEHEADER` and `BITMAPINFOHEADER` in the Windows GDI reference ("Bitmap Storage").
ghost use Rattle.std.specs.Prelude.{◌≡◌};
ghost use Rattle.imagesize_fixed.specs.Bmp.{is_bmp, bmp};
ghost use Rattle.imagesize_source.specs.State.{Follows};

use crate::readings::sides_u32;
use imagesize_source::source::Source;
use imagesize_source::{Endian, Halt};
use imagesize_types::size::ImageSize;

/// Whether the file has the type `BM`.
#[inline(always)]
#[tactic(auto, unfolding(crate::specs::Bmp::is_bmp))]
pub fn matches(head: &[u8; 12]) -> bool
    ensures { result ≡ is_bmp head.now }
{
    matches!(head, [b'B', b'M', ..])
}

/// The width and the height in pixels, read as unsigned numbers. Returns `Ended` if the input ends before them.
#[inline(always)]
#[tactic(auto, using(imagesize_source::proofs::Runs::steps))]
pub fn size<S: Source>(source: &mut S) -> Result<ImageSize, Halt>
    ensures { Follows (S.state source.old) (S.state source.new) result bmp }
{
    sides_u32(source, Endian::Little, 18, 22)
}
