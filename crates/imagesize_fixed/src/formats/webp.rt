//! WebP: RFC 9649, sections 2.4 (the file header) and 2.5 to 2.7 (its three forms), and RFC 6386, section 9.1.
ghost use Rattle.std.specs.Prelude.{◌≡◌, ◌%◌, ◌^◌};
ghost use Rattle.imagesize_fixed.specs.Webp.{is_webp, webp, lossy_webp, lossless_webp, extended_webp};
ghost use Rattle.imagesize_source.specs.State.{Follows};

use imagesize_source::readings::{read_bytes, read_u16, read_u24, read_u32};
use imagesize_source::source::Source;
use imagesize_source::{Endian, Halt};
use imagesize_types::size::ImageSize;

/// Whether the input begins with a RIFF header of the type `WEBP`.
#[inline(always)]
#[tactic(auto, unfolding(crate::specs::Webp::is_webp))]
pub fn matches(head: &[u8; 12]) -> bool
    ensures { result ≡ is_webp head.now }
{
    matches!(
        head,
        [b'R', b'I', b'F', b'F', _, _, _, _, b'W', b'E', b'B', b'P']
    )
}

/// The width and the height in pixels of the canvas, or of the only image. Returns `InvalidVp8Tag` if the fourth byte of the
/// first chunk's name is not that of `VP8 `, `VP8L` or `VP8X`. Returns `Ended` if the input ends before the size.
#[inline(always)]
#[tactic(auto, using(imagesize_source::proofs::Runs::steps))]
pub fn size<S: Source>(source: &mut S) -> Result<ImageSize, Halt>
    ensures { Follows (S.state source.old) (S.state source.new) result webp }
{
    let [_, _, _, form] = read_bytes::<S, 4>(source, 12)?;
    match form {
        b' ' => lossy_size(source),
        b'L' => lossless_size(source),
        b'X' => extended_size(source),
        _ => Err(Halt::InvalidVp8Tag),
    }
}

// The low 14 bits of each field are the dimension. The bits above say how to scale it.
#[inline(always)]
#[tactic(auto, using(imagesize_source::proofs::Runs::steps))]
fn lossy_size<S: Source>(source: &mut S) -> Result<ImageSize, Halt>
    ensures { Follows (S.state source.old) (S.state source.new) result lossy_webp }
{
    let width = low_14_bits(read_u16(source, 26, Endian::Little)? as u32);
    let height = low_14_bits(read_u16(source, 28, Endian::Little)? as u32);
    Ok(ImageSize { width, height })
}

// 14 bits each for the width minus one and the height minus one.
#[inline(always)]
#[tactic(auto, using(imagesize_source::proofs::Runs::steps))]
fn lossless_size<S: Source>(source: &mut S) -> Result<ImageSize, Halt>
    ensures { Follows (S.state source.old) (S.state source.new) result lossless_webp }
{
    let dimensions = read_u32(source, 21, Endian::Little)?;
    let width = low_14_bits(dimensions) + 1;
    let height = low_14_bits(dimensions >> 14) + 1;
    Ok(ImageSize { width, height })
}

// 24 bits each for the width minus one and the height minus one.
#[inline(always)]
#[tactic(auto, using(imagesize_source::proofs::Runs::steps))]
fn extended_size<S: Source>(source: &mut S) -> Result<ImageSize, Halt>
    ensures { Follows (S.state source.old) (S.state source.new) result extended_webp }
{
    let width = read_u24(source, 24, Endian::Little)? as usize + 1;
    let height = read_u24(source, 27, Endian::Little)? as usize + 1;
    Ok(ImageSize { width, height })
}

#[inline(always)]
fn low_14_bits(number: u32) -> usize
    ensures { result ≡ number % 2 ^ 14 }
{
    (number & 0x3FFF) as usize
}
