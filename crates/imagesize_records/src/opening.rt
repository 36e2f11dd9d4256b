//! What the first bytes of an image say: its type, and its size if they contain it.
ghost use Rattle.imagesize_fixed.specs.Tga.{tga, tga_by_header};
ghost use Rattle.imagesize_source.specs.State.{Follows};
ghost use Rattle.imagesize.specs.Types.{way_of};
ghost use Rattle.imagesize_boxes.specs.Jxl.{jxl_start};
ghost use Rattle.imagesize_boxes.specs.Walks.{heif_open};
ghost use Rattle.imagesize_source.specs.Layout.{bind};
ghost use Rattle.imagesize_texts.specs.Exr.{exr_open};
ghost use Rattle.imagesize_texts.specs.Hdr.{hdr_open};
ghost use Rattle.imagesize_walked.specs.Walks.{ico_open, tiff_open};
ghost use Rattle.imagesize_records.specs.Streamed.{IfFixed, first_layout, jxl_opened, opening, opens, opens_at, sized};
ghost use Rattle.imagesize_records.specs.declared.awaited.Awaited.TheVariants as awaited;

use crate::awaited::Awaited;
use imagesize::ImageType;
use imagesize::formats::{first_row, with_compression};
use imagesize_boxes::formats::heif;
use imagesize_boxes::formats::jxl::boxes::Boxes;
use imagesize_boxes::formats::jxl::read_start;
use imagesize_fixed::formats::tga::{has_sound_header, may_be_tga};
use imagesize_fixed::formats::{
    aseprite, astc, atc, bmp, dds, farbfeld, gif, ktx2, pkm, psd, pvrtc, qoi, tga, vtf, webp,
};
use imagesize_pieces::first::Fixed;
use imagesize_source::Halt;
use imagesize_source::readings::read_exact_at;
use imagesize_source::source::Source;
use imagesize_texts::formats::pnm::Part;
use imagesize_texts::formats::{exr, hdr};
use imagesize_types::size::ImageSize;
use imagesize_walked::formats::ilbm::Chunks;
use imagesize_walked::formats::jpeg::Segments;
use imagesize_walked::formats::{ico, tiff};

/// What the first bytes say about the type.
#[derive(Drop)]
pub enum First {
    /// The type.
    Type(ImageType),
    /// The first twelve bytes of what may be a TGA. Its header decides, or else its last bytes.
    MaybeTga { head: [u8; 12] },
}

/// The type, from the first bytes.
#[derive(Clone, Copy)]
pub struct FirstBytes;

impl Fixed for FirstBytes {
    type Answer = First;

    ghost layout = { λ _. first_layout };

    #[tactic(auto, using(imagesize_source::proofs::Runs::steps, imagesize_source::proofs::Layouts::binding))]
    fn read<S: Source>(&self, source: &mut S) -> Result<First, Halt> {
        let mut head = [0u8; 12];
        read_exact_at(source, 0, &mut head)?;
        match first_row(&head) {
            Some(found) => {
                let image = with_compression(source, 0, &head, found)?;
                Ok(First::Type(image))
            }
            None if may_be_tga(&head) => Ok(First::MaybeTga { head }),
            None => Err(Halt::NotSupported),
        }
    }
}

/// What the first bytes say about the size.
#[derive(Drop)]
pub enum Opening {
    /// The size.
    Size(ImageSize),
    /// The size is in records. `next` is the first, at this offset.
    Records { next: Awaited, offset: u64 },
}

/// The size of an image of this type, from the first bytes.
#[derive(Clone, Copy)]
pub struct FirstSize {
    pub image: ImageType,
}

impl Fixed for FirstSize {
    type Answer = Opening;

    ghost layout = { λ size. opening size.image };

    #[tactic(auto, using(imagesize_source::proofs::Runs::steps, imagesize_source::proofs::Layouts::binding))]
    fn read<S: Source>(&self, source: &mut S) -> Result<Opening, Halt> {
        match self.image {
            ImageType::Exr => open_exr(source),
            ImageType::Hdr => open_hdr(source),
            ImageType::Heif(_) => open_heif(source),
            ImageType::Ico => open_ico(source),
            ImageType::Ilbm => open_at(source, Awaited::Ilbm(Chunks), 12),
            ImageType::Jpeg => open_at(source, Awaited::Jpeg(Segments { depth: 0 }), 2),
            ImageType::Jxl => open_jxl(source),
            ImageType::Pnm => open_at(source, Awaited::Pnm(Part::Word), 2),
            ImageType::Tiff => open_tiff(source),
            image => open_fixed(source, image),
        }
    }
}

/// Whether the header of what may be a TGA is sound.
#[derive(Clone, Copy)]
pub struct TgaHeader {
    pub head: [u8; 12],
}

impl Fixed for TgaHeader {
    type Answer = bool;

    ghost layout = { λ header. tga_by_header header.head };

    fn read<S: Source>(&self, source: &mut S) -> Result<bool, Halt> {
        has_sound_header(source, &self.head)
    }
}

/// The size of a TGA.
#[derive(Clone, Copy)]
pub struct TgaSize;

impl Fixed for TgaSize {
    type Answer = ImageSize;

    ghost layout = { λ _. tga };

    fn read<S: Source>(&self, source: &mut S) -> Result<ImageSize, Halt> {
        tga::size(source)
    }
}

// What the first bytes say about a size at fixed offsets.
fn open_fixed<S: Source>(source: &mut S, image: ImageType) -> Result<Opening, Halt>
    ensures { IfFixed (way_of image) (λ layout. Follows (S.state source.old) (S.state source.new) result (sized layout)) }
{
    let size = fixed_size(source, image)?;
    Ok(Opening::Size(size))
}

// The size of an image of a type that stores it at fixed offsets. For any other type nothing is read.
fn fixed_size<S: Source>(source: &mut S, image: ImageType) -> Result<ImageSize, Halt>
    ensures { IfFixed (way_of image) (λ layout. Follows (S.state source.old) (S.state source.new) result layout) }
{
    match image {
        ImageType::Aseprite => aseprite::size(source),
        ImageType::Astc => astc::size(source),
        ImageType::Atc(_) => atc::size(source),
        ImageType::Bmp => bmp::size(source),
        ImageType::Dds(_) => dds::size(source),
        ImageType::Eac(_) | ImageType::Etc2(_) => pkm::size(source),
        ImageType::Farbfeld => farbfeld::size(source),
        ImageType::Gif => gif::size(source),
        ImageType::Ktx2 => ktx2::size(source),
        ImageType::Pvrtc(_) => pvrtc::size(source),
        ImageType::Psd => psd::size(source),
        ImageType::Qoi => qoi::size(source),
        ImageType::Tga => tga::size(source),
        ImageType::Vtf => vtf::size(source),
        ImageType::Webp => webp::size(source),
        _ => Err(Halt::NotSupported),
    }
}

// The records of a format that begin at a fixed offset.
#[inline(always)]
#[tactic(auto, using(imagesize_source::proofs::Runs::steps))]
fn open_at<S: Source>(source: &mut S, next: Awaited, offset: u64) -> Result<Opening, Halt>
    ensures { Follows (S.state source.old) (S.state source.new) result (opens next offset) }
{
    // The proof needs that the length is below 2^63.
    let _told = source.told();
    Ok(Opening::Records { next, offset })
}

#[tactic(auto, using(imagesize_source::proofs::Runs::steps, imagesize_source::proofs::Layouts::binding))]
fn open_exr<S: Source>(source: &mut S) -> Result<Opening, Halt>
    ensures { Follows (S.state source.old) (S.state source.new) result (bind exr_open (opens_at awaited.Exr)) }
{
    let start = exr::open(source)?;
    Ok(Opening::Records {
        next: Awaited::Exr {
            long: start.records,
        },
        offset: start.offset,
    })
}

#[tactic(auto, using(imagesize_source::proofs::Runs::steps, imagesize_source::proofs::Layouts::binding))]
fn open_hdr<S: Source>(source: &mut S) -> Result<Opening, Halt>
    ensures { Follows (S.state source.old) (S.state source.new) result (bind hdr_open (opens_at (λ _. awaited.Hdr))) }
{
    let start = hdr::open(source)?;
    Ok(Opening::Records {
        next: Awaited::Hdr,
        offset: start.offset,
    })
}

#[tactic(auto, using(imagesize_source::proofs::Runs::steps, imagesize_source::proofs::Layouts::binding))]
fn open_ico<S: Source>(source: &mut S) -> Result<Opening, Halt>
    ensures { Follows (S.state source.old) (S.state source.new) result (bind ico_open (opens_at awaited.Ico)) }
{
    let start = ico::open(source)?;
    Ok(Opening::Records {
        next: Awaited::Ico(start.records),
        offset: start.offset,
    })
}

#[tactic(auto, using(imagesize_source::proofs::Runs::steps, imagesize_source::proofs::Layouts::binding))]
fn open_tiff<S: Source>(source: &mut S) -> Result<Opening, Halt>
    ensures { Follows (S.state source.old) (S.state source.new) result (bind tiff_open (opens_at awaited.Tiff)) }
{
    let start = tiff::open(source)?;
    Ok(Opening::Records {
        next: Awaited::Tiff(start.records),
        offset: start.offset,
    })
}

#[tactic(auto, using(imagesize_source::proofs::Runs::steps, imagesize_source::proofs::Layouts::binding))]
fn open_heif<S: Source>(source: &mut S) -> Result<Opening, Halt>
    ensures { Follows (S.state source.old) (S.state source.new) result (bind heif_open (opens_at awaited.Heif)) }
{
    let start = heif::open(source)?;
    Ok(Opening::Records {
        next: Awaited::Heif(start.records),
        offset: start.offset,
    })
}

#[tactic(auto, using(imagesize_source::proofs::Runs::steps, imagesize_source::proofs::Layouts::binding))]
fn open_jxl<S: Source>(source: &mut S) -> Result<Opening, Halt>
    ensures { Follows (S.state source.old) (S.state source.new) result (bind jxl_start jxl_opened) }
{
    match read_start(source)? {
        Some(front) => {
            let size = front.size()?;
            Ok(Opening::Size(size))
        }
        None => Ok(Opening::Records {
            next: Awaited::Jxl(Boxes::new()),
            offset: 12,
        }),
    }
}
