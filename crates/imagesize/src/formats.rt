//! The image formats: the table that distinguishes them, and the size by each of them.
ghost use Rattle.std.specs.Prelude.{◌≡◌, length};
ghost use Rattle.imagesize.specs.Kind.{first_row, kind, kind_by, tga_or_none, with_compression};
ghost use Rattle.imagesize.specs.Types.{rows};
ghost use Rattle.imagesize.specs.Meaning.{size_reads};
ghost use Rattle.imagesize_fixed.specs.Tga.{is_tga};
ghost use Rattle.imagesize_source.specs.Layout.{bind};
ghost use Rattle.imagesize_source.specs.State.{Follows, Runs, IsSound};

use crate::types::ImageType;
use imagesize_boxes::formats::{heif, jxl};
use imagesize_fixed::formats::{
    aseprite, astc, atc, bmp, dds, farbfeld, gif, ktx2, pkm, psd, pvrtc, qoi, tga, vtf, webp,
};
use imagesize_source::Halt;
use imagesize_source::readings::read_exact_at;
use imagesize_source::source::Source;
use imagesize_texts::formats::{exr, hdr, pnm};
use imagesize_types::compression::{
    AtcCompression, Compression, DdsCompression, PkmCompression, PvrtcCompression,
};
use imagesize_types::size::ImageSize;
use imagesize_walked::formats::{ico, ilbm, jpeg, tiff};

/// The type at an offset, from the twelve bytes there.
#[inline(always)]
#[tactic(auto, using(imagesize_source::proofs::Runs::steps))]
pub(crate) fn detect<S: Source>(source: &mut S, offset: u64) -> Result<ImageType, Halt>
    ensures { Follows (S.state source.old) (S.state source.new) result (kind (length (S.state source.old).held.input) offset) }
{
    let mut head = [0u8; 12];
    read_exact_at(source, offset, &mut head)?;
    by_head(source, offset, &head)
}

// The type from the twelve bytes at an offset.
#[inline(always)]
#[tactic(auto, using(imagesize_source::proofs::Runs::steps, imagesize_source::proofs::Layouts::binding))]
fn by_head<S: Source>(source: &mut S, offset: u64, head: &[u8; 12]) -> Result<ImageType, Halt>
    requires { IsSound (S.state source.old) }
    ensures { Follows (S.state source.old) (S.state source.new) result
        (kind_by (length (S.state source.old).held.input) offset head.now (first_row rows head.now)) }
{
    match first_row(head) {
        Some(found) => with_compression(source, offset, head, found),
        None => tga_or_none(source, head),
    }
}

// TGA has no signature at its beginning, and is tried after the rows.
#[inline(always)]
#[tactic(auto, using(imagesize_source::proofs::Runs::steps, imagesize_source::proofs::Layouts::binding))]
fn tga_or_none<S: Source>(source: &mut S, head: &[u8; 12]) -> Result<ImageType, Halt>
    requires { IsSound (S.state source.old) }
    ensures { Follows (S.state source.old) (S.state source.new) result
        (bind (is_tga (length (S.state source.old).held.input) head.now) tga_or_none) }
{
    if tga::matches(source, head)? {
        return Ok(ImageType::Tga);
    }
    Err(Halt::NotSupported)
}

// The type of the first row that matches. Its compression is still unknown.
#[inline(always)]
pub fn first_row(head: &[u8; 12]) -> Option<ImageType>
    ensures { result ≡ first_row rows head.now }
{
    Some(match head {
        head if jpeg::matches(head) => ImageType::Jpeg,
        head if gif::matches(head) => ImageType::Gif,
        head if tiff::matches(head) => ImageType::Tiff,
        head if webp::matches(head) => ImageType::Webp,
        head if heif::matches(head) => ImageType::Heif(Compression::Unknown),
        head if jxl::matches(head) => ImageType::Jxl,
        head if bmp::matches(head) => ImageType::Bmp,
        head if psd::matches(head) => ImageType::Psd,
        head if ico::matches(head) => ImageType::Ico,
        head if aseprite::matches(head) => ImageType::Aseprite,
        head if astc::matches(head) => ImageType::Astc,
        head if atc::matches(head) => ImageType::Atc(AtcCompression::Unknown),
        head if pvrtc::matches(head) => ImageType::Pvrtc(PvrtcCompression::Unknown),
        head if pkm::matches_eac(head) => ImageType::Eac(PkmCompression::Unknown),
        head if pkm::matches(head) => ImageType::Etc2(PkmCompression::Unknown),
        head if exr::matches(head) => ImageType::Exr,
        head if hdr::matches(head) => ImageType::Hdr,
        head if dds::matches(head) => ImageType::Dds(DdsCompression::Unknown),
        head if ktx2::matches(head) => ImageType::Ktx2,
        head if qoi::matches(head) => ImageType::Qoi,
        head if farbfeld::matches(head) => ImageType::Farbfeld,
        head if pnm::matches(head) => ImageType::Pnm,
        head if vtf::matches(head) => ImageType::Vtf,
        head if ilbm::matches(head) => ImageType::Ilbm,
        _ => return None,
    })
}

// The same type, with its compression read if the type has several.
#[inline(always)]
#[tactic(auto, using(imagesize_source::proofs::Runs::steps), unfolding(crate::specs::Kind::with_compression))]
pub fn with_compression<S: Source>(
    source: &mut S,
    offset: u64,
    head: &[u8; 12],
    found: ImageType,
) -> Result<ImageType, Halt>
    requires { IsSound (S.state source.old) }
    ensures { Follows (S.state source.old) (S.state source.new) result (with_compression offset head.now found) }
{
    match found {
        ImageType::Heif(_)
        | ImageType::Atc(_)
        | ImageType::Pvrtc(_)
        | ImageType::Eac(_)
        | ImageType::Etc2(_)
        | ImageType::Dds(_) => read_compression(source, offset, head, found),
        _ => Ok(found),
    }
}

// The type with its compression, if the type has several.
#[inline(always)]
#[tactic(auto, using(crate::proofs::Detection::steps_bound), unfolding(crate::specs::Kind::with_compression))]
fn read_compression<S: Source>(
    source: &mut S,
    offset: u64,
    head: &[u8; 12],
    found: ImageType,
) -> Result<ImageType, Halt>
    requires { IsSound (S.state source.old) }
    ensures { Follows (S.state source.old) (S.state source.new) result (with_compression offset head.now found) }
{
    Ok(match found {
        ImageType::Heif(_) => ImageType::Heif(heif::detect_compression(source, offset, head)?),
        ImageType::Atc(_) => ImageType::Atc(atc::detect_compression(source)?),
        ImageType::Pvrtc(_) => ImageType::Pvrtc(pvrtc::detect_compression(source)?),
        ImageType::Eac(_) | ImageType::Etc2(_) => {
            in_pkm(found, pkm::detect_compression(source)?)
        }
        ImageType::Dds(_) => ImageType::Dds(dds::detect_compression(source)?),
        _ => found,
    })
}

// The type of a texture in a PKM file with this compression. Both types share one read of the compression, so that it is
// inlined.
#[inline(always)]
fn in_pkm(found: ImageType, compression: PkmCompression) -> ImageType
    ensures eac { (old : PkmCompression) → found ≡ ImageType.Eac old → result ≡ ImageType.Eac compression }
    ensures etc2 { (old : PkmCompression) → found ≡ ImageType.Etc2 old → result ≡ ImageType.Etc2 compression }
{
    match found {
        ImageType::Eac(_) => ImageType::Eac(compression),
        _ => ImageType::Etc2(compression),
    }
}

/// The size of the image, read as this type whatever its first bytes are.
#[tactic(auto, using(imagesize_source::proofs::Runs::steps))]
pub(crate) fn size<S: Source>(source: &mut S, kind: ImageType) -> Result<ImageSize, Halt>
    ensures { Runs (S.state source.old) (S.state source.new) result
        (size_reads kind (S.state source.old).held.input) }
{
    match kind {
        ImageType::Aseprite => aseprite::size(source),
        ImageType::Astc => astc::size(source),
        ImageType::Atc(_) => atc::size(source),
        ImageType::Bmp => bmp::size(source),
        ImageType::Dds(_) => dds::size(source),
        ImageType::Eac(_) | ImageType::Etc2(_) => pkm::size(source),
        ImageType::Exr => exr::size(source),
        ImageType::Farbfeld => farbfeld::size(source),
        ImageType::Gif => gif::size(source),
        ImageType::Hdr => hdr::size(source),
        ImageType::Heif(_) => heif::size(source),
        ImageType::Ico => ico::size(source),
        ImageType::Ilbm => ilbm::size(source),
        ImageType::Jpeg => jpeg::size(source),
        ImageType::Jxl => jxl::size(source),
        ImageType::Ktx2 => ktx2::size(source),
        ImageType::Pnm => pnm::size(source),
        ImageType::Pvrtc(_) => pvrtc::size(source),
        ImageType::Psd => psd::size(source),
        ImageType::Qoi => qoi::size(source),
        ImageType::Tga => tga::size(source),
        ImageType::Tiff => tiff::size(source),
        ImageType::Vtf => vtf::size(source),
        ImageType::Webp => webp::size(source),
    }
}
