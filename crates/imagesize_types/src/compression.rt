//! Ways to store pixels, for the formats that have several.

/// How an ATC texture stores its pixels.
#[derive(Clone, Copy, Debug, PartialEq, Eq, PartialOrd, Ord, Hash)]
pub enum AtcCompression {
    /// No alpha.
    Rgb,
    /// Explicit alpha.
    RgbaExplicit,
    /// Alpha interpolated between two values of the block.
    RgbaInterpolated,
    /// None of these.
    Unknown,
}

/// How a DDS stores its pixels.
#[derive(Clone, Copy, Debug, PartialEq, Eq, PartialOrd, Ord, Hash)]
pub enum DdsCompression {
    /// BC1, also known as DXT1.
    Bc1,
    /// BC2, also known as DXT3. DXT2, which has premultiplied alpha, is `Unknown`.
    Bc2,
    /// BC3, also known as DXT5. DXT4, which has premultiplied alpha, is `Unknown`.
    Bc3,
    /// BC4, with one channel.
    Bc4,
    /// BC5, with two channels.
    Bc5,
    /// BC6H, with floating-point channels.
    Bc6h,
    /// BC7.
    Bc7,
    /// 32 bits per pixel, with alpha.
    Rgba32,
    /// 24 bits per pixel.
    Rgb24,
    /// None of these.
    Unknown,
}

/// How a HEIF stores its pixels.
#[derive(Clone, Copy, Debug, PartialEq, Eq, PartialOrd, Ord, Hash)]
pub enum Compression {
    /// AV1, as in AVIF.
    Av1,
    /// HEVC, as in HEIC.
    Hevc,
    /// JPEG.
    Jpeg,
    /// None of these.
    Unknown,
}

/// How a PKM file stores its pixels.
#[derive(Clone, Copy, Debug, PartialEq, Eq, PartialOrd, Ord, Hash)]
pub enum PkmCompression {
    /// ETC1.
    Etc1,
    /// ETC2 without alpha.
    Etc2,
    /// ETC2 with one bit of alpha.
    Etc2A1,
    /// ETC2 with eight bits of alpha.
    Etc2A8,
    /// EAC with one channel.
    EacR,
    /// EAC with two channels.
    EacRg,
    /// EAC with one signed channel.
    EacRSigned,
    /// EAC with two signed channels.
    EacRgSigned,
    /// None of these.
    Unknown,
}

/// How a PowerVR texture stores its pixels.
#[derive(Clone, Copy, Debug, PartialEq, Eq, PartialOrd, Ord, Hash)]
pub enum PvrtcCompression {
    /// PVRTC with 2 bits per pixel, without alpha.
    Pvrtc2BppRgb,
    /// PVRTC with 2 bits per pixel, with alpha.
    Pvrtc2BppRgba,
    /// PVRTC with 4 bits per pixel, without alpha.
    Pvrtc4BppRgb,
    /// PVRTC with 4 bits per pixel, with alpha.
    Pvrtc4BppRgba,
    /// ETC2 without alpha.
    Etc2Rgb,
    /// ETC2 with eight bits of alpha.
    Etc2Rgba,
    /// ETC2 with one bit of alpha.
    Etc2RgbA1,
    /// EAC with one channel.
    EacR11,
    /// EAC with two channels.
    EacRg11,
    /// None of these.
    Unknown,
}
