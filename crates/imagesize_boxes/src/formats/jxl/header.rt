//! The header of a JPEG XL codestream, by ISO/IEC 18181-1, annex D: the size and the orientation of the image.
ghost use Rattle.std.specs.Prelude.{◌≡◌, ◌+◌, ◌*◌, ◌^◌, ◌<◌, ◌≤◌, length, take, IfSome, ok_or};
ghost use Rattle.imagesize_boxes.specs.Walks.{found_in};
ghost use Rattle.imagesize_boxes.specs.Jxl.{exchanges_sides, has_signature, jxl_header, jxl_size, side_fields, side_bits, width_by, width_side};
ghost use Rattle.imagesize_types.specs.Sides.{exchange_if};
ghost use Rattle.imagesize_source.specs.declared.halt.Halt.TheVariants as halt;

use super::bits::Bits;
use super::front::MOST;
use imagesize_source::Halt;
use imagesize_types::size::ImageSize;

// A width or a height, and the position of the next bit.
#[derive(Clone, Copy)]
pub(super) struct Side {
    pub(super) length: u64,
    pub(super) end: u32,
}

// The size, from the first `len` bytes of a codestream.
#[inline(always)]
pub(super) fn codestream_size(bytes: &[u8; MOST], len: usize) -> Result<ImageSize, Halt>
    requires { len ≤ 16 }
    ensures { result ≡ jxl_size (take len bytes.now) }
{
    if len < 2 {
        return Err(Halt::Corrupted);
    }
    if !has_signature(bytes) {
        return Err(Halt::InvalidJxlSignature);
    }
    header_size(&Bits::of(bytes, len)).ok_or(Halt::Corrupted)
}

// Whether the bytes begin with the signature of a codestream.
#[inline]
pub(super) fn has_signature(bytes: &[u8]) -> bool
    requires { 2 ≤ length bytes.now }
    ensures { result ≡ has_signature bytes.now }
{
    matches!(bytes, [0xFF, 0x0A, ..])
}

// The size of the image as it is shown, or `None` if the header is cut.
#[inline(always)]
#[tactic(auto, using(crate::proofs::Fields::fields))]
fn header_size(bits: &Bits) -> Option<ImageSize>
    ensures { ok_or result halt.Corrupted ≡ found_in bits.now.number bits.now.count jxl_header }
{
    let small = bits.field(16, 1)? == 1;
    let height = read_side(bits, small, 17)?;
    let width = read_width(bits, small, &height)?;
    let exchanged = read_exchanged(bits, width.end)?;
    Some(size_of_sides(exchanged, width.length, height.length))
}

// The side whose field begins at a bit, or `None` if the field is cut.
#[inline(always)]
fn read_side(bits: &Bits, small: bool, from: u32) -> Option<Side>
    requires { from ≤ 100 }
    ensures found { ok_or result halt.Corrupted ≡ found_in bits.now.number bits.now.count (side_fields small from) }
    ensures length { IfSome result (λ side_fields. side_fields.length ≤ 2 ^ 30) }
    ensures end { IfSome result (λ side_fields. side_fields.end ≤ from + 32) }
{
    if small {
        let units = bits.field(from, 5)?;
        return Some(Side {
            length: (units as u64 + 1) * 8,
            end: from + 5,
        });
    }
    let count = side_bits(bits.field(from, 2)?);
    let less_one = bits.field(from + 2, count)?;
    Some(Side {
        length: less_one as u64 + 1,
        end: from + 2 + count,
    })
}

// The number of bits of a side, from its selector.
#[inline(always)]
fn side_bits(selector: u32) -> u32
    ensures is { result ≡ side_bits selector }
    ensures some { 0 < result }
    ensures few { result ≤ 30 }
{
    match selector {
        0 => 9,
        1 => 13,
        2 => 18,
        _ => 30,
    }
}

// The width, from its ratio to the height or from a field of its own.
#[inline(always)]
fn read_width(bits: &Bits, small: bool, height: &Side) -> Option<Side>
    requires length { height.now.length ≤ 2 ^ 30 }
    requires end { height.now.end ≤ 60 }
    ensures found { ok_or result halt.Corrupted ≡ found_in bits.now.number bits.now.count (width_side small height.now) }
    ensures length { IfSome result (λ side_fields. side_fields.length < 2 ^ 35) }
    ensures end { IfSome result (λ side_fields. side_fields.end ≤ 100) }
{
    let ratio = bits.field(height.end, 3)?;
    if ratio == 0 {
        return read_side(bits, small, height.end + 3);
    }
    Some(Side {
        length: width_by(ratio, height.length),
        end: height.end + 3,
    })
}

// The width with a ratio to the height.
#[inline(always)]
fn width_by(ratio: u32, height: u64) -> u64
    requires { height ≤ 2 ^ 30 }
    ensures is { result ≡ width_by ratio height }
    ensures few { result < 2 ^ 35 }
{
    match ratio {
        1 => height,
        2 => height * 12 / 10,
        3 => height * 4 / 3,
        4 => height * 3 / 2,
        5 => height * 16 / 9,
        6 => height * 5 / 4,
        _ => height * 2,
    }
}

// Whether the orientation exchanges width and height.
#[inline(always)]
fn read_exchanged(bits: &Bits, from: u32) -> Option<bool>
    requires { from ≤ 100 }
    ensures { ok_or result halt.Corrupted ≡ found_in bits.now.number bits.now.count (exchanges_sides from) }
{
    if bits.field(from, 1)? == 1 || bits.field(from + 1, 1)? == 0 {
        return Some(false);
    }
    Some(bits.field(from + 2, 3)? >= 4)
}

// The size with these sides, exchanged or not.
#[inline(always)]
fn size_of_sides(exchanged: bool, width: u64, height: u64) -> ImageSize
    ensures { result ≡ exchange_if exchanged (record { width = width; height = height }) }
{
    let (width, height) = (width as usize, height as usize);
    if exchanged {
        return ImageSize {
            width: height,
            height: width,
        };
    }
    ImageSize { width, height }
}
