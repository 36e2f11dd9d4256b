//! What a type says about its compression and its container, across types.
ghost use Rattle.std.specs.Prelude.{◌≡◌, ◌↔◌, IsTrue, IsSome, Some};
ghost use Rattle.std.specs.Option.{option_copied};
ghost use Rattle.imagesize.specs.Queries.{family_of, dds_family_of, pkm_family_of, pvrtc_family_of, container_of, is_multi_container};
ghost use Rattle.imagesize.specs.declared.types.CompressionFamily.TheVariants.{BlockCompression};

use crate::types::{CompressionFamily, ImageType};
use imagesize_types::compression::{DdsCompression, PkmCompression, PvrtcCompression};

impl ImageType {
    /// What the image's compression has in common with those of other types. `None` for types that are not textures, and for
    /// unknown compressions.
    ///
    /// ```
    /// use imagesize::{CompressionFamily, DdsCompression, ImageType};
    ///
    /// let texture = ImageType::Dds(DdsCompression::Bc7);
    /// assert_eq!(texture.compression_family(), Some(CompressionFamily::BlockCompression));
    /// ```
    pub fn compression_family(&self) -> Option<CompressionFamily>
        ensures { result ≡ family_of self.now }
    {
        match self {
            ImageType::Dds(compression) => dds_family(*compression),
            ImageType::Etc2(compression) | ImageType::Eac(compression) => pkm_family(*compression),
            ImageType::Pvrtc(compression) => pvrtc_family(*compression),
            ImageType::Atc(_) => Some(CompressionFamily::Atc),
            ImageType::Astc => Some(CompressionFamily::Astc),
            _ => None,
        }
    }

    /// Whether the image is a texture in one of the block compressions BC1 to BC7.
    ///
    /// ```
    /// use imagesize::{DdsCompression, ImageType};
    ///
    /// assert!(ImageType::Dds(DdsCompression::Bc7).is_block_compressed());
    /// ```
    pub fn is_block_compressed(&self) -> bool
        ensures { IsTrue result ↔ (family_of self.now ≡ Some BlockCompression) }
    {
        self.compression_family() == Some(CompressionFamily::BlockCompression)
    }

    /// The name of the container, or `None` for types without one.
    ///
    /// ```
    /// use imagesize::ImageType;
    ///
    /// assert_eq!(ImageType::Ktx2.container_format(), Some("KTX2"));
    /// ```
    pub fn container_format(&self) -> Option<&'static str>
        ensures { option_copied result ≡ container_of self.now }
    {
        match self {
            ImageType::Dds(_) => Some("DDS"),
            ImageType::Etc2(_) | ImageType::Eac(_) | ImageType::Atc(_) => Some("PKM"),
            ImageType::Pvrtc(_) => Some("PowerVR"),
            ImageType::Astc => Some("ASTC"),
            ImageType::Heif(_) => Some("HEIF"),
            ImageType::Ktx2 => Some("KTX2"),
            _ => None,
        }
    }

    /// Whether the container can hold textures of several compression families.
    ///
    /// ```
    /// use imagesize::ImageType;
    ///
    /// assert!(ImageType::Ktx2.is_multi_compression_container());
    /// ```
    pub fn is_multi_compression_container(&self) -> bool
        ensures value { result ≡ is_multi_container self.now }
        ensures named { IsTrue result → IsSome (container_of self.now) }
    {
        matches!(
            self,
            ImageType::Dds(_) | ImageType::Pvrtc(_) | ImageType::Ktx2
        )
    }
}

fn dds_family(compression: DdsCompression) -> Option<CompressionFamily>
    ensures { result ≡ dds_family_of compression }
{
    match compression {
        DdsCompression::Bc1
        | DdsCompression::Bc2
        | DdsCompression::Bc3
        | DdsCompression::Bc4
        | DdsCompression::Bc5
        | DdsCompression::Bc6h
        | DdsCompression::Bc7 => Some(CompressionFamily::BlockCompression),
        DdsCompression::Rgba32 | DdsCompression::Rgb24 => Some(CompressionFamily::Uncompressed),
        DdsCompression::Unknown => None,
    }
}

fn pkm_family(compression: PkmCompression) -> Option<CompressionFamily>
    ensures { result ≡ pkm_family_of compression }
{
    match compression {
        PkmCompression::Etc1
        | PkmCompression::Etc2
        | PkmCompression::Etc2A1
        | PkmCompression::Etc2A8 => Some(CompressionFamily::Etc),
        PkmCompression::EacR
        | PkmCompression::EacRg
        | PkmCompression::EacRSigned
        | PkmCompression::EacRgSigned => Some(CompressionFamily::Eac),
        PkmCompression::Unknown => None,
    }
}

fn pvrtc_family(compression: PvrtcCompression) -> Option<CompressionFamily>
    ensures { result ≡ pvrtc_family_of compression }
{
    match compression {
        PvrtcCompression::Pvrtc2BppRgb
        | PvrtcCompression::Pvrtc2BppRgba
        | PvrtcCompression::Pvrtc4BppRgb
        | PvrtcCompression::Pvrtc4BppRgba => Some(CompressionFamily::Pvrtc),
        PvrtcCompression::Etc2Rgb | PvrtcCompression::Etc2Rgba | PvrtcCompression::Etc2RgbA1 => {
            Some(CompressionFamily::Etc)
        }
        PvrtcCompression::EacR11 | PvrtcCompression::EacRg11 => Some(CompressionFamily::Eac),
        PvrtcCompression::Unknown => None,
    }
}
