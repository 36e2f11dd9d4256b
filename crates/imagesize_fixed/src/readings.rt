//! Two sides at fixed offsets. Each function returns `Ended` if the input ends before them.
ghost use Rattle.imagesize_fixed.specs.Sides.{height_first, sides};
ghost use Rattle.imagesize_source.specs.State.{Follows};

use imagesize_source::readings::{read_u16, read_u24, read_u32};
use imagesize_source::source::Source;
use imagesize_source::{Endian, Halt};
use imagesize_types::size::ImageSize;

/// The width and the height, of two bytes each.
#[inline(always)]
#[tactic(auto, using(imagesize_source::proofs::Runs::steps))]
pub fn sides_u16<S: Source>(
    source: &mut S,
    endian: Endian,
    at_width: u64,
    at_height: u64,
) -> Result<ImageSize, Halt>
    ensures { Follows (S.state source.old) (S.state source.new) result (sides endian 2 at_width at_height) }
{
    let width = read_u16(source, at_width, endian)? as usize;
    let height = read_u16(source, at_height, endian)? as usize;
    Ok(ImageSize { width, height })
}

/// The width and the height, of three bytes each.
#[inline(always)]
#[tactic(auto, using(imagesize_source::proofs::Runs::steps))]
pub fn sides_u24<S: Source>(
    source: &mut S,
    endian: Endian,
    at_width: u64,
    at_height: u64,
) -> Result<ImageSize, Halt>
    ensures { Follows (S.state source.old) (S.state source.new) result (sides endian 3 at_width at_height) }
{
    let width = read_u24(source, at_width, endian)? as usize;
    let height = read_u24(source, at_height, endian)? as usize;
    Ok(ImageSize { width, height })
}

/// The width and the height, of four bytes each.
#[inline(always)]
#[tactic(auto, using(imagesize_source::proofs::Runs::steps))]
pub fn sides_u32<S: Source>(
    source: &mut S,
    endian: Endian,
    at_width: u64,
    at_height: u64,
) -> Result<ImageSize, Halt>
    ensures { Follows (S.state source.old) (S.state source.new) result (sides endian 4 at_width at_height) }
{
    let width = read_u32(source, at_width, endian)? as usize;
    let height = read_u32(source, at_height, endian)? as usize;
    Ok(ImageSize { width, height })
}

/// The height and then the width, of four bytes each.
#[inline(always)]
#[tactic(auto, using(imagesize_source::proofs::Runs::steps))]
pub fn height_first_u32<S: Source>(
    source: &mut S,
    endian: Endian,
    at_height: u64,
    at_width: u64,
) -> Result<ImageSize, Halt>
    ensures { Follows (S.state source.old) (S.state source.new) result (height_first endian 4 at_height at_width) }
{
    let height = read_u32(source, at_height, endian)? as usize;
    let width = read_u32(source, at_width, endian)? as usize;
    Ok(ImageSize { width, height })
}
