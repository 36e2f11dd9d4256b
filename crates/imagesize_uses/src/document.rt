//! A writer of documents: how large an image is on a page, in points.
ghost use Rattle.std.specs.Prelude.{◌≡◌, ◌<◌};
ghost use Rattle.std.specs.Int.{div_ceil};
ghost use Rattle.imagesize.specs.Meaning.{size_of};
ghost use Rattle.imagesize_uses.specs.Document.{on_page, points_of};

use imagesize::{ImageResult, ImageSize, ImageType};
use std::io::Cursor;

/// A size on a page in points, which are 1/72 inch.
#[derive(Clone, Copy, Debug, PartialEq, Eq)]
pub struct PageSize {
    /// The width in points.
    pub width: u128,
    /// The height in points.
    pub height: u128,
}

/// The size of an image of a known type on a page, printed at a number of pixels per inch. Points are rounded up.
///
/// Errors: those of `ImageType::reader_size`, except that no read fails.
pub fn size_on_page(kind: ImageType, data: &[u8], pixels_per_inch: u32) -> ImageResult<PageSize>
    requires { 0 < pixels_per_inch }
    ensures { result ≡ on_page pixels_per_inch (size_of kind «data».now).answer }
{
    let ImageSize { width, height } = kind.reader_size(&mut Cursor::new(data))?;
    Ok(PageSize {
        width: points(width, pixels_per_inch),
        height: points(height, pixels_per_inch),
    })
}

// The length of this many pixels in points, rounded up.
fn points(pixels: usize, pixels_per_inch: u32) -> u128
    requires { 0 < pixels_per_inch }
    ensures { result ≡ points_of pixels_per_inch pixels }
{
    (pixels as u128 * 72).div_ceil(pixels_per_inch as u128)
}
