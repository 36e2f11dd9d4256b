//! The test vectors that tests name. Each is a row of the table too: the program counts them.

use imagesize::ImageSize;
use std::alloc::{AllocError, Global};

/// A GIF of 100 by 100 pixels.
pub const GIF: &[u8] = b"GIF89ad\0d\0\0\0";

/// A TGA of 3 by 4 pixels.
pub const TGA: &[u8] = b"\0\0\x02\0\0\0\0\0\0\0\0\0\x03\0\x04\0\x18\0";

/// A lossy WebP of 16 by 8 pixels.
pub const LOSSY_WEBP: &[u8] = b"RIFF\0\0\0\0WEBPVP8 \0\0\0\0\0\0\0\0\0\0\x10@\x08\0";

/// A DDS of 7 by 5 pixels.
pub const DDS: &[u8] = b"DDS |\0\0\0\x07\x10\0\0\x05\0\0\0\x07\0\0\0";

/// An ETC2 texture of 64 by 64 pixels.
pub const ETC2: &[u8] = b"PKM 20\0\x01\0@\0@\0@\0@";

/// A JPEG with an image within, whose frame is skipped.
pub const NESTED_JPEG: &[u8] =
    b"\xFF\xD8\xFF\xD8\0\x02\xFF\xC0\0\x02\xFF\xD9\0\x02\xFF\xC0\0\x11\x08\0\x05\0\x07";

/// An icon with two images of the greatest area.
pub const ICON: &[u8] = b"\0\0\x01\0\x03\0\x10 \0\0\0\0\0\0\0\0\0\0\0\0\0\0 \x10";

/// An AVIF of 64 by 48 pixels that is shown rotated by 90 degrees.
pub const TURNED: &[u8] = b"\0\0\0\x10ftypavif\0\0\0\0\
    \0\0\0\x39meta\0\0\0\0\0\0\0\x2Diprp\0\0\0\x25ipco\
    \0\0\0\x14ispe\0\0\0\0\0\0\0\x40\0\0\0\x30\0\0\0\x09irot\x01";

/// A PNM whose comment is one word.
pub const PNM_WITH_A_COMMENT: &[u8] = b"P1\n#c\n4 4\n5 5\n";

/// Whether a test names these bytes.
pub fn is_named(bytes: &[u8]) -> bool {
    [
        GIF,
        TGA,
        LOSSY_WEBP,
        DDS,
        ETC2,
        NESTED_JPEG,
        ICON,
        TURNED,
        PNM_WITH_A_COMMENT,
    ]
    .iter()
    .any(|named| *named == bytes)
}

/// A JPEG of 7 by 5 pixels with a number of empty segments before its frame.
pub fn jpeg_behind(alloc: Global, segments: usize) -> Result<Vec<u8>, AllocError> {
    let mut bytes = Vec::new(alloc);
    bytes.extend_from_slice(b"\xFF\xD8")?;
    for _ in 0..segments {
        bytes.extend_from_slice(b"\xFF\xE0\0\x02")?;
    }
    bytes.extend_from_slice(b"\xFF\xC0\0\x11\x08\0\x05\0\x07")?;
    Ok(bytes)
}

/// The size of that JPEG, in pixels.
pub const JPEG_SIZE: ImageSize = ImageSize {
    width: 7,
    height: 5,
};
