//! PKM files, which contain textures in ETC1, ETC2 and EAC: the header of `etcpack` (Ericsson) and of `etc2comp`.
ghost use Rattle.std.specs.Prelude.{◌≡◌};
ghost use Rattle.imagesize_fixed.specs.Pkm.{is_eac, is_pkm, pkm, pkm_compression, pkm_data_types};
ghost use Rattle.imagesize_types.specs.Table.{look_up};
ghost use Rattle.imagesize_source.specs.State.{Follows};

use crate::readings::sides_u16;
use imagesize_source::readings::{read_u16, read_whole_at};
use imagesize_source::source::Source;
use imagesize_source::{Endian, Halt};
use imagesize_types::compression::PkmCompression;
use imagesize_types::size::ImageSize;

/// Whether the input begins with the tag and a known version.
#[inline(always)]
pub fn matches(head: &[u8; 12]) -> bool
    ensures { result ≡ is_pkm head.now }
{
    is_pkm(head)
}

/// Whether the input begins as a PKM file with an EAC data type.
#[inline(always)]
#[tactic(auto, unfolding(crate::specs::Pkm::is_eac))]
pub fn matches_eac(head: &[u8; 12]) -> bool
    ensures { result ≡ is_eac head.now }
{
    is_pkm(head) && head[6] == 0x16 && head[7] >= 0x08 && head[7] <= 0x0B
}

/// Whether the bytes begin with the tag and a known version.
#[inline(always)]
#[tactic(auto, unfolding(crate::specs::Pkm::is_pkm))]
pub fn is_pkm(header: &[u8]) -> bool
    ensures { result ≡ is_pkm header.now }
{
    matches!(header, [b'P', b'K', b'M', b' ', b'1' | b'2', b'0', ..])
}

/// How the pixels are stored, from the data type. `Unknown` if the input ends before it.
#[inline(always)]
#[tactic(auto, using(crate::proofs::Pkm::pkm_steps), unfolding(crate::specs::Pkm::pkm_compression))]
pub fn detect_compression<S: Source>(source: &mut S) -> Result<PkmCompression, Halt>
    ensures { Follows (S.state source.old) (S.state source.new) result pkm_compression }
{
    let mut data_type = [0u8; 2];
    if !read_whole_at(source, 6, &mut data_type)? {
        return Ok(PkmCompression::Unknown);
    }
    Ok(compression(u16::from_be_bytes(data_type)))
}

// How pixels with this data type are stored.
fn compression(data_type: u16) -> PkmCompression
    ensures { result ≡ look_up pkm_data_types PkmCompression.Unknown data_type }
{
    match data_type {
        0 => PkmCompression::Etc1,
        1 => PkmCompression::Etc2,
        2 | 4 => PkmCompression::Etc2A1,
        3 | 5 => PkmCompression::Etc2A8,
        0x1608 => PkmCompression::EacRgSigned,
        0x1609 => PkmCompression::EacRSigned,
        0x160A => PkmCompression::EacR,
        0x160B => PkmCompression::EacRg,
        _ => PkmCompression::Unknown,
    }
}

/// The width and the height in pixels. The sizes that are rounded up to whole blocks are read too. Returns `Ended` if the
/// input ends before any of these.
#[inline(always)]
#[tactic(auto, using(imagesize_source::proofs::Runs::steps))]
pub fn size<S: Source>(source: &mut S) -> Result<ImageSize, Halt>
    ensures { Follows (S.state source.old) (S.state source.new) result pkm }
{
    let _padded_width = read_u16(source, 8, Endian::Big)?;
    let _padded_height = read_u16(source, 10, Endian::Big)?;
    sides_u16(source, Endian::Big, 12, 14)
}
