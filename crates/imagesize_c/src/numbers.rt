//! The numbers of types, compressions and families: a base plus the position in the list.
ghost use Rattle.std.specs.Prelude.{◌≡◌};
ghost use Rattle.imagesize_c.specs.Numbers.{compression_number, family_number, has_numbers, type_number, type_numbered};

use imagesize::{
    AtcCompression, Compression, CompressionFamily, DdsCompression, ImageType, PkmCompression,
    PvrtcCompression,
};

/// The number of a type.
pub fn type_number(image: ImageType) -> u32
    ensures { result ≡ type_number image }
{
    1 + image.position()
}

/// The number of a type's compression, or 0 if it has none.
pub fn compression_number(image: ImageType) -> u32
    ensures { result ≡ compression_number image }
{
    match image {
        ImageType::Atc(AtcCompression::Unknown)
        | ImageType::Dds(DdsCompression::Unknown)
        | ImageType::Eac(PkmCompression::Unknown)
        | ImageType::Etc2(PkmCompression::Unknown)
        | ImageType::Heif(Compression::Unknown)
        | ImageType::Pvrtc(PvrtcCompression::Unknown) => 1,
        ImageType::Atc(compression) => 2 + compression as u32,
        ImageType::Dds(compression) => 5 + compression as u32,
        ImageType::Heif(compression) => 14 + compression as u32,
        ImageType::Eac(compression) | ImageType::Etc2(compression) => 17 + compression as u32,
        ImageType::Pvrtc(compression) => 25 + compression as u32,
        _ => 0,
    }
}

/// The type with this number, and with the compression of this number. `None` if there is none.
pub fn type_numbered(number: u32, compression: u32) -> Option<ImageType>
    ensures { result ≡ type_numbered number compression }
{
    ImageType::all()
        .iter()
        .find(|image| has_numbers(number, compression, **image))
        .copied()
}

fn has_numbers(number: u32, compression: u32, image: ImageType) -> bool
    ensures { result ≡ has_numbers number compression image }
{
    type_number(image) == number && compression_number(image) == compression
}

/// The number of a family, or 0 for none.
pub fn family_number(family: Option<CompressionFamily>) -> u32
    ensures { result ≡ family_number family }
{
    match family {
        None => 0,
        Some(family) => 1 + family as u32,
    }
}
