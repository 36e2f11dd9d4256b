//! PowerVR textures: the PVR File Format Specification (version 3) and its appendix on the older header.
ghost use Rattle.std.specs.Prelude.{◌≡◌};
ghost use Rattle.imagesize_fixed.specs.Pvrtc.{is_pvr3, is_pvrtc, pvr2, pvr3, pvrtc, pvrtc_compression, pvrtc_format_of, pvrtc_formats};
ghost use Rattle.imagesize_types.specs.Table.{look_up};
ghost use Rattle.imagesize_source.specs.State.{Follows};
ghost use Rattle.imagesize_source.specs.Layout.{if_there};
ghost use Rattle.imagesize_source.specs.Layout.Layout.{«done»};

use crate::readings::height_first_u32;
use imagesize_source::readings::{read_bytes, read_whole_at};
use imagesize_source::source::Source;
use imagesize_source::{Endian, Halt};
use imagesize_types::compression::PvrtcCompression;
use imagesize_types::size::ImageSize;

/// Whether the input begins with the length of the older header, or with the version of the newer one.
#[inline(always)]
#[tactic(auto, unfolding(crate::specs::Pvrtc::is_pvrtc))]
pub fn matches(head: &[u8; 12]) -> bool
    ensures { result ≡ is_pvrtc head.now }
{
    matches!(head, [52, 0, 0, 0, ..]) || is_version_3(head)
}

#[inline(always)]
#[tactic(auto, unfolding(crate::specs::Pvrtc::is_pvr3))]
fn is_version_3(header: &[u8]) -> bool
    ensures { result ≡ is_pvr3 header.now }
{
    matches!(header, [b'P', b'V', b'R', 3, ..])
}

/// How the pixels are stored, from the newer header. `Unknown` for the older header.
#[inline(always)]
#[tactic(auto, using(crate::proofs::Pvrtc::pvrtc_steps), unfolding(crate::specs::Pvrtc::pvrtc_compression))]
pub fn detect_compression<S: Source>(source: &mut S) -> Result<PvrtcCompression, Halt>
    ensures { Follows (S.state source.old) (S.state source.new) result pvrtc_compression }
{
    let mut tag = [0u8; 4];
    if !read_whole_at(source, 0, &mut tag)? {
        return Ok(PvrtcCompression::Unknown);
    }
    if !is_version_3(&tag) {
        return Ok(PvrtcCompression::Unknown);
    }
    format(source)
}

// How the pixels are stored, from the pixel format. `Unknown` if the input ends before it.
#[inline(always)]
#[tactic(auto, using(imagesize_source::proofs::Runs::steps, imagesize_source::proofs::Numbers::little_8))]
fn format<S: Source>(source: &mut S) -> Result<PvrtcCompression, Halt>
    ensures { Follows (S.state source.old) (S.state source.new) result (if_there 8 8 (λ bs. done (pvrtc_format_of bs))) }
{
    let mut format = [0u8; 8];
    if !read_whole_at(source, 8, &mut format)? {
        return Ok(PvrtcCompression::Unknown);
    }
    Ok(format_compression(u64::from_le_bytes(format)))
}

// How pixels in this format are stored.
fn format_compression(format: u64) -> PvrtcCompression
    ensures { result ≡ look_up pvrtc_formats PvrtcCompression.Unknown format }
{
    match format {
        0 => PvrtcCompression::Pvrtc2BppRgb,
        1 => PvrtcCompression::Pvrtc2BppRgba,
        2 => PvrtcCompression::Pvrtc4BppRgb,
        3 => PvrtcCompression::Pvrtc4BppRgba,
        22 => PvrtcCompression::Etc2Rgb,
        23 => PvrtcCompression::Etc2Rgba,
        24 => PvrtcCompression::Etc2RgbA1,
        25 => PvrtcCompression::EacR11,
        26 => PvrtcCompression::EacRg11,
        _ => PvrtcCompression::Unknown,
    }
}

/// The height and the width in pixels, from the newer or the older header. Returns `Ended` if the input ends before them.
#[inline(always)]
#[tactic(auto, using(imagesize_source::proofs::Runs::steps))]
pub fn size<S: Source>(source: &mut S) -> Result<ImageSize, Halt>
    ensures { Follows (S.state source.old) (S.state source.new) result pvrtc }
{
    let tag = read_bytes::<S, 4>(source, 0)?;
    if is_version_3(&tag) {
        return newer_size(source);
    }
    older_size(source)
}

// The height and the width in the newer header.
#[inline(always)]
#[tactic(auto, using(imagesize_source::proofs::Runs::steps))]
fn newer_size<S: Source>(source: &mut S) -> Result<ImageSize, Halt>
    ensures { Follows (S.state source.old) (S.state source.new) result pvr3 }
{
    height_first_u32(source, Endian::Little, 24, 28)
}

// The height and the width in the older header.
#[inline(always)]
#[tactic(auto, using(imagesize_source::proofs::Runs::steps))]
pub(super) fn older_size<S: Source>(source: &mut S) -> Result<ImageSize, Halt>
    ensures { Follows (S.state source.old) (S.state source.new) result pvr2 }
{
    height_first_u32(source, Endian::Little, 4, 8)
}
