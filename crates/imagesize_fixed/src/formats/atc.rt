//! ATC textures in PKM files and in DDS files: GL_AMD_compressed_ATC_texture.
ghost use Rattle.std.specs.Prelude.{◌≡◌, ◌≤◌, length, drop};
ghost use Rattle.imagesize_fixed.specs.Atc.{atc, atc_compression, atc_data_types, is_atc};
ghost use Rattle.imagesize_types.specs.Table.{look_up};
ghost use Rattle.imagesize_source.specs.Numbers.{number};
ghost use Rattle.imagesize_source.specs.declared.endian.Endian.TheVariants as endian;
ghost use Rattle.imagesize_source.specs.State.{Follows};

use crate::formats::{dds, pkm, pvrtc};
use imagesize_source::Halt;
use imagesize_source::readings::{read_exact_at, read_whole_at};
use imagesize_source::source::Source;
use imagesize_types::compression::AtcCompression;
use imagesize_types::size::ImageSize;

/// Whether the input begins as a PKM file with an ATC data type.
#[inline(always)]
pub fn matches(head: &[u8; 12]) -> bool
    ensures { result ≡ is_atc head.now }
{
    is_atc(head)
}

// Whether these bytes begin a PKM file with an ATC data type.
#[inline(always)]
#[tactic(auto, unfolding(crate::specs::Atc::is_atc))]
fn is_atc(header: &[u8]) -> bool
    requires { 8 ≤ length header.now }
    ensures { result ≡ is_atc header.now }
{
    pkm::is_pkm(header)
        && (matches!(header, [_, _, _, _, _, _, 0x8C, 0x92 | 0x93, ..])
            || matches!(header, [_, _, _, _, _, _, 0x87, 0xEE, ..]))
}

/// How the pixels are stored, from the data type. `Unknown` if the input ends before it or is not a PKM file.
#[inline(always)]
#[tactic(auto, using(imagesize_source::proofs::Runs::steps), unfolding(crate::specs::Atc::atc_compression))]
pub fn detect_compression<S: Source>(source: &mut S) -> Result<AtcCompression, Halt>
    ensures { Follows (S.state source.old) (S.state source.new) result atc_compression }
{
    let mut header = [0u8; 8];
    if !read_whole_at(source, 0, &mut header)? {
        return Ok(AtcCompression::Unknown);
    }
    if !pkm::is_pkm(&header) {
        return Ok(AtcCompression::Unknown);
    }
    Ok(compression(data_type(&header)))
}

// The data type in a PKM header.
#[tactic(auto, using(imagesize_source::proofs::Bytes::last_two))]
fn data_type(header: &[u8; 8]) -> u16
    ensures { result ≡ number endian.Big (drop 6 header.now) }
{
    u16::from_be_bytes([header[6], header[7]])
}

// How pixels with this data type are stored.
fn compression(data_type: u16) -> AtcCompression
    ensures { result ≡ look_up atc_data_types AtcCompression.Unknown data_type }
{
    match data_type {
        0x8C92 => AtcCompression::Rgb,
        0x8C93 => AtcCompression::RgbaExplicit,
        0x87EE => AtcCompression::RgbaInterpolated,
        _ => AtcCompression::Unknown,
    }
}

/// The width and the height in pixels, from a DDS header, a PKM header with an ATC data type, or else an older PowerVR
/// header.
#[inline(always)]
#[tactic(auto, using(imagesize_source::proofs::Runs::steps))]
pub fn size<S: Source>(source: &mut S) -> Result<ImageSize, Halt>
    ensures { Follows (S.state source.old) (S.state source.new) result atc }
{
    let mut tag = [0u8; 4];
    read_exact_at(source, 0, &mut tag)?;
    if dds::is_dds(&tag) {
        return dds::size(source);
    }
    let mut header = [0u8; 8];
    read_exact_at(source, 0, &mut header)?;
    if is_atc(&header) {
        return pkm::size(source);
    }
    pvrtc::older_size(source)
}
