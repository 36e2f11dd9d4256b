//! How a type is printed, and the names of its compressions.
ghost use Rattle.std.specs.Prelude.{◌≡◌, Some};
ghost use Rattle.std.specs.Option.{option_copied};
ghost use Rattle.imagesize.specs.Names.{compression_name_of};
ghost use Rattle.imagesize.specs.Compressions.{atc_name_of, dds_name_of, heif_name_of, pkm_name_of, pvrtc_name_of};

use crate::types::ImageType;
use imagesize_types::compression::{
    AtcCompression, Compression, DdsCompression, PkmCompression, PvrtcCompression,
};
use std::fmt;

/// A type as it is printed: its name, and the name of its compression in parentheses if it has one.
#[derive(Clone, Copy)]
pub struct TypeName(pub ImageType);

impl fmt::Display for TypeName {
    ghost use Rattle.imagesize.specs.Names.{type_text};

    ghost output = { λ shown. Some (type_text shown.0) };

    fn fmt<W: fmt::Write>(&self, f: &mut fmt::Formatter<W>) -> fmt::Result {
        let name = self.0.name();
        match self.0.compression_name() {
            Some(compression) => write!(f, "{name}({compression})"),
            None => f.write_str(name),
        }
    }
}

impl ImageType {
    /// The name of the type's compression, or `None` if the type does not have several.
    ///
    /// ```
    /// use imagesize::{DdsCompression, ImageType};
    ///
    /// assert_eq!(ImageType::Dds(DdsCompression::Bc7).compression_name(), Some("Bc7"));
    /// ```
    pub fn compression_name(&self) -> Option<&'static str>
        ensures { option_copied result ≡ compression_name_of self.now }
    {
        match self {
            ImageType::Atc(compression) => Some(atc_name(*compression)),
            ImageType::Dds(compression) => Some(dds_name(*compression)),
            ImageType::Eac(compression) | ImageType::Etc2(compression) => Some(pkm_name(
                *compression,
            )),
            ImageType::Heif(compression) => Some(heif_name(*compression)),
            ImageType::Pvrtc(compression) => Some(pvrtc_name(*compression)),
            _ => None,
        }
    }
}

// The name of an ATC compression.
fn atc_name(compression: AtcCompression) -> &'static str
    ensures { result.now ≡ atc_name_of compression }
{
    match compression {
        AtcCompression::Rgb => "Rgb",
        AtcCompression::RgbaExplicit => "RgbaExplicit",
        AtcCompression::RgbaInterpolated => "RgbaInterpolated",
        AtcCompression::Unknown => "Unknown",
    }
}

// The name of a DDS compression.
fn dds_name(compression: DdsCompression) -> &'static str
    ensures { result.now ≡ dds_name_of compression }
{
    match compression {
        DdsCompression::Bc1 => "Bc1",
        DdsCompression::Bc2 => "Bc2",
        DdsCompression::Bc3 => "Bc3",
        DdsCompression::Bc4 => "Bc4",
        DdsCompression::Bc5 => "Bc5",
        DdsCompression::Bc6h => "Bc6h",
        DdsCompression::Bc7 => "Bc7",
        DdsCompression::Rgba32 => "Rgba32",
        DdsCompression::Rgb24 => "Rgb24",
        DdsCompression::Unknown => "Unknown",
    }
}

// The name of a HEIF compression.
fn heif_name(compression: Compression) -> &'static str
    ensures { result.now ≡ heif_name_of compression }
{
    match compression {
        Compression::Av1 => "Av1",
        Compression::Hevc => "Hevc",
        Compression::Jpeg => "Jpeg",
        Compression::Unknown => "Unknown",
    }
}

// The name of a PKM compression.
fn pkm_name(compression: PkmCompression) -> &'static str
    ensures { result.now ≡ pkm_name_of compression }
{
    match compression {
        PkmCompression::Etc1 => "Etc1",
        PkmCompression::Etc2 => "Etc2",
        PkmCompression::Etc2A1 => "Etc2A1",
        PkmCompression::Etc2A8 => "Etc2A8",
        PkmCompression::EacR => "EacR",
        PkmCompression::EacRg => "EacRg",
        PkmCompression::EacRSigned => "EacRSigned",
        PkmCompression::EacRgSigned => "EacRgSigned",
        PkmCompression::Unknown => "Unknown",
    }
}

// The name of a PowerVR compression.
fn pvrtc_name(compression: PvrtcCompression) -> &'static str
    ensures { result.now ≡ pvrtc_name_of compression }
{
    match compression {
        PvrtcCompression::Pvrtc2BppRgb => "Pvrtc2BppRgb",
        PvrtcCompression::Pvrtc2BppRgba => "Pvrtc2BppRgba",
        PvrtcCompression::Pvrtc4BppRgb => "Pvrtc4BppRgb",
        PvrtcCompression::Pvrtc4BppRgba => "Pvrtc4BppRgba",
        PvrtcCompression::Etc2Rgb => "Etc2Rgb",
        PvrtcCompression::Etc2Rgba => "Etc2Rgba",
        PvrtcCompression::Etc2RgbA1 => "Etc2RgbA1",
        PvrtcCompression::EacR11 => "EacR11",
        PvrtcCompression::EacRg11 => "EacRg11",
        PvrtcCompression::Unknown => "Unknown",
    }
}
