//! DirectDraw surfaces: `DDS_HEADER`, `DDS_PIXELFORMAT` and `DDS_HEADER_DXT10` in the Programming Guide for DDS (Direct3D).
ghost use Rattle.std.specs.Prelude.{◌≡◌};
ghost use Rattle.imagesize_fixed.specs.Dds.{dds, dds_bit_counts, dds_codes, dds_compression, dds_number_of, dxgi_formats, is_dds};
ghost use Rattle.imagesize_types.specs.Table.{look_up, look_up_text};
ghost use Rattle.imagesize_source.specs.State.{Follows};
ghost use Rattle.imagesize_source.specs.Layout.{if_there};
ghost use Rattle.imagesize_source.specs.Layout.Layout.{«done»};

use crate::readings::height_first_u32;
use imagesize_source::readings::read_whole_at;
use imagesize_source::source::Source;
use imagesize_source::{Endian, Halt};
use imagesize_types::compression::DdsCompression;
use imagesize_types::size::ImageSize;

/// Whether the input begins with the magic number.
#[inline(always)]
pub fn matches(head: &[u8; 12]) -> bool
    ensures { result ≡ is_dds head.now }
{
    is_dds(head)
}

// Whether the bytes begin with the magic number.
#[inline(always)]
#[tactic(auto, unfolding(crate::specs::Dds::is_dds))]
pub(super) fn is_dds(header: &[u8]) -> bool
    ensures { result ≡ is_dds header.now }
{
    matches!(header, [b'D', b'D', b'S', b' ', ..])
}

/// How the pixels are stored, from the four-character code and the fields that it refers to. `Unknown` if the input ends
/// before them.
#[inline(always)]
#[tactic(auto, using(crate::proofs::Dds::dds_steps), unfolding(crate::specs::Dds::dds_compression))]
pub fn detect_compression<S: Source>(source: &mut S) -> Result<DdsCompression, Halt>
    ensures { Follows (S.state source.old) (S.state source.new) result dds_compression }
{
    let mut code = [0u8; 4];
    if !read_whole_at(source, 84, &mut code)? {
        return Ok(DdsCompression::Unknown);
    }
    if code == *b"DX10" {
        return extended_compression(source);
    }
    if code == [0; 4] {
        return plain_compression(source);
    }
    Ok(code_compression(&code))
}

// How the pixels are stored, from the format in the extended header. `Unknown` if the input ends before it.
#[tactic(auto, using(imagesize_source::proofs::Runs::steps, imagesize_source::proofs::Numbers::little_4))]
fn extended_compression<S: Source>(source: &mut S) -> Result<DdsCompression, Halt>
    ensures { Follows (S.state source.old) (S.state source.new) result (if_there 128 4 (λ bs. done (dds_number_of dxgi_formats bs))) }
{
    let mut format = [0u8; 4];
    if !read_whole_at(source, 128, &mut format)? {
        return Ok(DdsCompression::Unknown);
    }
    Ok(format_compression(u32::from_le_bytes(format)))
}

// How the pixels are stored, from the bits per pixel. `Unknown` if the input ends before them.
#[tactic(auto, using(imagesize_source::proofs::Runs::steps, imagesize_source::proofs::Numbers::little_4))]
fn plain_compression<S: Source>(source: &mut S) -> Result<DdsCompression, Halt>
    ensures { Follows (S.state source.old) (S.state source.new) result (if_there 88 4 (λ bs. done (dds_number_of dds_bit_counts bs))) }
{
    let mut bits = [0u8; 4];
    if !read_whole_at(source, 88, &mut bits)? {
        return Ok(DdsCompression::Unknown);
    }
    Ok(bits_compression(u32::from_le_bytes(bits)))
}

// How pixels with this four-character code are stored.
fn code_compression(code: &[u8; 4]) -> DdsCompression
    ensures { result ≡ look_up_text dds_codes DdsCompression.Unknown code.now }
{
    match code {
        b"DXT1" => DdsCompression::Bc1,
        b"DXT3" => DdsCompression::Bc2,
        b"DXT5" => DdsCompression::Bc3,
        b"ATI1" | b"BC4U" | b"BC4S" => DdsCompression::Bc4,
        b"ATI2" | b"BC5U" | b"BC5S" => DdsCompression::Bc5,
        b"BC6H" => DdsCompression::Bc6h,
        b"BC7U" | b"BC7L" => DdsCompression::Bc7,
        _ => DdsCompression::Unknown,
    }
}

// How pixels in this DXGI format are stored.
fn format_compression(format: u32) -> DdsCompression
    ensures { result ≡ look_up dxgi_formats DdsCompression.Unknown format }
{
    match format {
        95 | 96 => DdsCompression::Bc6h,
        98 | 99 => DdsCompression::Bc7,
        _ => DdsCompression::Unknown,
    }
}

// How pixels with this many bits are stored.
fn bits_compression(bits: u32) -> DdsCompression
    ensures { result ≡ look_up dds_bit_counts DdsCompression.Unknown bits }
{
    match bits {
        32 => DdsCompression::Rgba32,
        24 => DdsCompression::Rgb24,
        _ => DdsCompression::Unknown,
    }
}

/// The height and the width in pixels. Returns `Ended` if the input ends before them.
#[inline(always)]
#[tactic(auto, using(imagesize_source::proofs::Runs::steps))]
pub fn size<S: Source>(source: &mut S) -> Result<ImageSize, Halt>
    ensures { Follows (S.state source.old) (S.state source.new) result dds }
{
    height_first_u32(source, Endian::Little, 12, 16)
}
