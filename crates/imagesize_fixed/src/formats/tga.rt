//! TGA: fields 1 to 5 (the header) and the footer in "Truevision TGA File Format Specification", version 2.0.
ghost use Rattle.std.specs.Prelude.{◌≡◌, length};
ghost use Rattle.imagesize_fixed.specs.Tga.{is_map_sound, is_pixel_sound, is_tga, is_tga_footer, lacks_its_map, may_be_tga, tga, tga_by_header};
ghost use Rattle.imagesize_source.specs.State.{Follows, IsSound};

use crate::readings::sides_u16;
use imagesize_source::readings::{read_bytes, read_u8};
use imagesize_source::source::Source;
use imagesize_source::{Endian, Halt};
use imagesize_types::size::ImageSize;

/// Whether the input is a TGA. Its types must be known, and the footer must have the signature or the header must be
/// consistent.
pub fn matches<S: Source>(source: &mut S, head: &[u8; 12]) -> Result<bool, Halt>
    ensures { Follows (S.state source.old) (S.state source.new) result (is_tga (length (S.state source.old).held.input) head.now) }
{
    let length = source.told();
    matches_by_length(source, head, length)
}

// Whether an input of this length in bytes, with this head, is a TGA.
#[tactic(auto, using(imagesize_source::proofs::Runs::steps), unfolding(crate::specs::Tga::is_tga))]
fn matches_by_length<S: Source>(source: &mut S, head: &[u8; 12], length: u64) -> Result<bool, Halt>
    requires { IsSound (S.state source.old) }
    ensures { Follows (S.state source.old) (S.state source.new) result (is_tga length head.now) }
{
    if !may_be_tga(head) || length < 18 {
        return Ok(false);
    }
    let footer = read_bytes::<S, 18>(source, length - 18)?;
    if is_footer(&footer) {
        return Ok(true);
    }
    if lacks_its_map(head) {
        return Ok(false);
    }
    has_sound_header(source, head)
}

/// Whether the fields of the colour map and of the pixels agree with each other.
#[tactic(auto, using(imagesize_source::proofs::Runs::steps))]
pub fn has_sound_header<S: Source>(source: &mut S, head: &[u8; 12]) -> Result<bool, Halt>
    ensures { Follows (S.state source.old) (S.state source.new) result (tga_by_header head.now) }
{
    let map = read_bytes::<S, 4>(source, 3)?;
    let map_bits = read_u8(source, 7)?;
    if !is_map_sound(head[1], &map, map_bits) {
        return Ok(false);
    }
    let bits = read_u8(source, 16)?;
    let descriptor = read_u8(source, 17)?;
    Ok(is_pixel_sound(bits, descriptor))
}

/// Whether the image type and the type of the colour map are known.
#[tactic(auto, unfolding(crate::specs::Tga::may_be_tga))]
pub fn may_be_tga(head: &[u8; 12]) -> bool
    ensures { result ≡ may_be_tga head.now }
{
    matches!(head[2], 1 | 2 | 3 | 9 | 10 | 11) && head[1] <= 1
}

/// Whether the footer ends with the signature.
#[tactic(auto, unfolding(crate::specs::Tga::is_tga_footer))]
pub fn is_footer(footer: &[u8; 18]) -> bool
    ensures { result ≡ is_tga_footer footer.now }
{
    *footer == *b"TRUEVISION-XFILE.\0"
}

/// Whether the pixels are indices into a colour map that the file does not have.
#[tactic(auto, unfolding(crate::specs::Tga::lacks_its_map))]
pub fn lacks_its_map(head: &[u8; 12]) -> bool
    ensures { result ≡ lacks_its_map head.now }
{
    (head[2] == 1 || head[2] == 9) && head[1] == 0
}

// Whether the fields of the colour map are all zero without a map, and its entries have a known size with one.
#[tactic(auto, unfolding(crate::specs::Tga::is_map_sound))]
fn is_map_sound(map_type: u8, map: &[u8; 4], bits: u8) -> bool
    ensures { result ≡ is_map_sound map_type map.now bits }
{
    if map_type == 0 {
        return *map == [0; 4] && bits == 0;
    }
    matches!(bits, 0 | 8 | 16 | 24 | 32)
}

// Whether the pixels go from left to right, and have a known size with a known number of alpha bits.
#[tactic(auto, unfolding(crate::specs::Tga::is_pixel_sound))]
fn is_pixel_sound(bits: u8, descriptor: u8) -> bool
    ensures { result ≡ is_pixel_sound bits descriptor }
{
    if descriptor / 16 % 2 != 0 {
        return false;
    }
    let alpha = descriptor % 16;
    match bits {
        8 | 24 => alpha == 0,
        16 => alpha <= 1,
        32 => alpha == 0 || alpha == 8,
        _ => false,
    }
}

/// The width and the height in pixels. Returns `Ended` if the input ends before them.
#[inline(always)]
#[tactic(auto, using(imagesize_source::proofs::Runs::steps))]
pub fn size<S: Source>(source: &mut S) -> Result<ImageSize, Halt>
    ensures { Follows (S.state source.old) (S.state source.new) result tga }
{
    sides_u16(source, Endian::Little, 12, 14)
}
