//! The image types: their list, and their names and positions in it.
ghost use Rattle.std.specs.Prelude.{◌≡◌};
ghost use Rattle.imagesize.specs.Types.{type_name_of, type_rank, types};

use imagesize_types::compression::{
    AtcCompression, Compression, DdsCompression, PkmCompression, PvrtcCompression,
};

/// An image type, with its compression if the type has several.
///
/// Types are ordered as in the list below, then by their compressions.
#[derive(Clone, Copy, Debug, PartialEq, Eq, PartialOrd, Ord, Hash)]
pub enum ImageType {
    /// Animated sprites of the editor Aseprite.
    Aseprite,
    /// Adaptive scalable texture compression.
    Astc,
    /// A texture in ATC, in a PKM file.
    Atc(AtcCompression),
    /// Windows bitmap.
    Bmp,
    /// DirectDraw surface.
    Dds(DdsCompression),
    /// A texture in EAC, in a PKM file.
    Eac(PkmCompression),
    /// A texture in ETC1 or ETC2, in a PKM file.
    Etc2(PkmCompression),
    /// OpenEXR.
    Exr,
    /// Farbfeld.
    Farbfeld,
    /// Graphics interchange format.
    Gif,
    /// Radiance RGBE.
    Hdr,
    /// HEIF, the container of HEIC and AVIF.
    Heif(Compression),
    /// Windows icon.
    Ico,
    /// Interleaved bitmap, in an IFF file.
    Ilbm,
    /// JPEG.
    Jpeg,
    /// JPEG XL.
    Jxl,
    /// Khronos texture, version 2.
    Ktx2,
    /// The portable bitmaps: PBM, PGM and PPM.
    Pnm,
    /// PowerVR texture.
    Pvrtc(PvrtcCompression),
    /// Photoshop document.
    Psd,
    /// Quite OK image.
    Qoi,
    /// Truevision TGA.
    Tga,
    /// Tagged image file, including BigTIFF.
    Tiff,
    /// Valve texture.
    Vtf,
    /// WebP.
    Webp,
}

// The types in order, each with its compressions in order.
static TYPES: [ImageType; 65] = [
    ImageType::Aseprite,
    ImageType::Astc,
    ImageType::Atc(AtcCompression::Rgb),
    ImageType::Atc(AtcCompression::RgbaExplicit),
    ImageType::Atc(AtcCompression::RgbaInterpolated),
    ImageType::Atc(AtcCompression::Unknown),
    ImageType::Bmp,
    ImageType::Dds(DdsCompression::Bc1),
    ImageType::Dds(DdsCompression::Bc2),
    ImageType::Dds(DdsCompression::Bc3),
    ImageType::Dds(DdsCompression::Bc4),
    ImageType::Dds(DdsCompression::Bc5),
    ImageType::Dds(DdsCompression::Bc6h),
    ImageType::Dds(DdsCompression::Bc7),
    ImageType::Dds(DdsCompression::Rgba32),
    ImageType::Dds(DdsCompression::Rgb24),
    ImageType::Dds(DdsCompression::Unknown),
    ImageType::Eac(PkmCompression::Etc1),
    ImageType::Eac(PkmCompression::Etc2),
    ImageType::Eac(PkmCompression::Etc2A1),
    ImageType::Eac(PkmCompression::Etc2A8),
    ImageType::Eac(PkmCompression::EacR),
    ImageType::Eac(PkmCompression::EacRg),
    ImageType::Eac(PkmCompression::EacRSigned),
    ImageType::Eac(PkmCompression::EacRgSigned),
    ImageType::Eac(PkmCompression::Unknown),
    ImageType::Etc2(PkmCompression::Etc1),
    ImageType::Etc2(PkmCompression::Etc2),
    ImageType::Etc2(PkmCompression::Etc2A1),
    ImageType::Etc2(PkmCompression::Etc2A8),
    ImageType::Etc2(PkmCompression::EacR),
    ImageType::Etc2(PkmCompression::EacRg),
    ImageType::Etc2(PkmCompression::EacRSigned),
    ImageType::Etc2(PkmCompression::EacRgSigned),
    ImageType::Etc2(PkmCompression::Unknown),
    ImageType::Exr,
    ImageType::Farbfeld,
    ImageType::Gif,
    ImageType::Hdr,
    ImageType::Heif(Compression::Av1),
    ImageType::Heif(Compression::Hevc),
    ImageType::Heif(Compression::Jpeg),
    ImageType::Heif(Compression::Unknown),
    ImageType::Ico,
    ImageType::Ilbm,
    ImageType::Jpeg,
    ImageType::Jxl,
    ImageType::Ktx2,
    ImageType::Pnm,
    ImageType::Pvrtc(PvrtcCompression::Pvrtc2BppRgb),
    ImageType::Pvrtc(PvrtcCompression::Pvrtc2BppRgba),
    ImageType::Pvrtc(PvrtcCompression::Pvrtc4BppRgb),
    ImageType::Pvrtc(PvrtcCompression::Pvrtc4BppRgba),
    ImageType::Pvrtc(PvrtcCompression::Etc2Rgb),
    ImageType::Pvrtc(PvrtcCompression::Etc2Rgba),
    ImageType::Pvrtc(PvrtcCompression::Etc2RgbA1),
    ImageType::Pvrtc(PvrtcCompression::EacR11),
    ImageType::Pvrtc(PvrtcCompression::EacRg11),
    ImageType::Pvrtc(PvrtcCompression::Unknown),
    ImageType::Psd,
    ImageType::Qoi,
    ImageType::Tga,
    ImageType::Tiff,
    ImageType::Vtf,
    ImageType::Webp,
];

impl ImageType {
    /// All types in order, each with each of its compressions.
    ///
    /// ```
    /// use imagesize::ImageType;
    ///
    /// assert!(ImageType::all().contains(&ImageType::Gif));
    /// ```
    pub fn all() -> &'static [ImageType]
        ensures { result.now ≡ types }
    {
        &TYPES
    }

    /// The name of the type, as in this list.
    ///
    /// ```
    /// use imagesize::ImageType;
    ///
    /// assert_eq!(ImageType::Gif.name(), "Gif");
    /// ```
    pub fn name(&self) -> &'static str
        ensures { result.now ≡ type_name_of self.now }
    {
        self.row().1
    }

    /// The position of the type in the list, counted from 0, whatever its compression.
    ///
    /// ```
    /// use imagesize::ImageType;
    ///
    /// assert_eq!(ImageType::Aseprite.position(), 0);
    /// ```
    pub fn position(&self) -> u32
        ensures { result ≡ type_rank self.now }
    {
        self.row().0
    }

    // The position of the type, and its name.
    fn row(&self) -> (u32, &'static str)
        ensures position { result.0 ≡ type_rank self.now }
        ensures name { (result.1).now ≡ type_name_of self.now }
    {
        match self {
            ImageType::Aseprite => (0, "Aseprite"),
            ImageType::Astc => (1, "Astc"),
            ImageType::Atc(_) => (2, "Atc"),
            ImageType::Bmp => (3, "Bmp"),
            ImageType::Dds(_) => (4, "Dds"),
            ImageType::Eac(_) => (5, "Eac"),
            ImageType::Etc2(_) => (6, "Etc2"),
            ImageType::Exr => (7, "Exr"),
            ImageType::Farbfeld => (8, "Farbfeld"),
            ImageType::Gif => (9, "Gif"),
            ImageType::Hdr => (10, "Hdr"),
            ImageType::Heif(_) => (11, "Heif"),
            ImageType::Ico => (12, "Ico"),
            ImageType::Ilbm => (13, "Ilbm"),
            ImageType::Jpeg => (14, "Jpeg"),
            ImageType::Jxl => (15, "Jxl"),
            ImageType::Ktx2 => (16, "Ktx2"),
            ImageType::Pnm => (17, "Pnm"),
            ImageType::Pvrtc(_) => (18, "Pvrtc"),
            ImageType::Psd => (19, "Psd"),
            ImageType::Qoi => (20, "Qoi"),
            ImageType::Tga => (21, "Tga"),
            ImageType::Tiff => (22, "Tiff"),
            ImageType::Vtf => (23, "Vtf"),
            ImageType::Webp => (24, "Webp"),
        }
    }
}

/// What the compressions of textures have in common, across containers.
#[derive(Clone, Copy, Debug, PartialEq, Eq, PartialOrd, Ord, Hash)]
pub enum CompressionFamily {
    /// The block compressions BC1 to BC7.
    BlockCompression,
    /// ETC1 and ETC2.
    Etc,
    /// EAC with one or two channels.
    Eac,
    /// PVRTC.
    Pvrtc,
    /// ASTC.
    Astc,
    /// ATC.
    Atc,
    /// Uncompressed pixels.
    Uncompressed,
}
