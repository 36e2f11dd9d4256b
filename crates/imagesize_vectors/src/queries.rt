//! What a type returns about itself.

use imagesize::{
    AtcCompression, Compression, CompressionFamily, DdsCompression, ImageType, PkmCompression,
    PvrtcCompression,
};

#[test]
fn families_across_containers(rt: HostRuntime) {
    for (image_type, family) in [
        (
            ImageType::Dds(DdsCompression::Bc1),
            Some(CompressionFamily::BlockCompression),
        ),
        (
            ImageType::Dds(DdsCompression::Rgb24),
            Some(CompressionFamily::Uncompressed),
        ),
        (
            ImageType::Etc2(PkmCompression::Etc1),
            Some(CompressionFamily::Etc),
        ),
        (
            ImageType::Eac(PkmCompression::EacRg),
            Some(CompressionFamily::Eac),
        ),
        (
            ImageType::Pvrtc(PvrtcCompression::Etc2Rgb),
            Some(CompressionFamily::Etc),
        ),
        (
            ImageType::Pvrtc(PvrtcCompression::Pvrtc4BppRgba),
            Some(CompressionFamily::Pvrtc),
        ),
        (
            ImageType::Atc(AtcCompression::Unknown),
            Some(CompressionFamily::Atc),
        ),
        (ImageType::Astc, Some(CompressionFamily::Astc)),
        (ImageType::Heif(Compression::Av1), None),
        (ImageType::Gif, None),
    ] {
        assert_eq!(rt;
            image_type.compression_family(),
            family,
            "of {image_type:?}"
        );
        let is_block = family == Some(CompressionFamily::BlockCompression);
        assert_eq!(rt;
            image_type.is_block_compressed(),
            is_block,
            "of {image_type:?}"
        );
    }
}

#[test]
fn containers_and_their_names(rt: HostRuntime) {
    for (image_type, container, is_multi) in [
        (ImageType::Dds(DdsCompression::Bc1), Some("DDS"), true),
        (ImageType::Etc2(PkmCompression::Etc1), Some("PKM"), false),
        (ImageType::Eac(PkmCompression::EacR), Some("PKM"), false),
        (ImageType::Atc(AtcCompression::Rgb), Some("PKM"), false),
        (
            ImageType::Pvrtc(PvrtcCompression::Pvrtc2BppRgb),
            Some("PowerVR"),
            true,
        ),
        (ImageType::Astc, Some("ASTC"), false),
        (ImageType::Heif(Compression::Hevc), Some("HEIF"), false),
        (ImageType::Ktx2, Some("KTX2"), true),
        (ImageType::Gif, None, false),
    ] {
        assert_eq!(rt;
            image_type.container_format(),
            container,
            "of {image_type:?}"
        );
        assert_eq!(rt;
            image_type.is_multi_compression_container(),
            is_multi,
            "of {image_type:?}"
        );
    }
}
