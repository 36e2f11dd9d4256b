//! What the calls write: a type, a size, or a part that they request.
ghost use Rattle.std.specs.Prelude.{◌≡◌, false, Option, Some};
ghost use Rattle.std.specs.Result.{result_ok};
ghost use Rattle.imagesize_c.specs.Status.{is_answered, status_of};
ghost use Rattle.imagesize_c.specs.Told.{TellsSize, TellsType};

use crate::numbers::{compression_number, type_number};
use crate::status::{ANSWERED, BYTES_WANTED, refusal_status};
use imagesize::{ImageResult, ImageSize, ImageType, Span};

/// Writes the numbers of a type and of its compression, if one was found.
#[inline(always)]
pub fn tell_type(kind: Option<ImageType>, number: &mut u32, compression: &mut u32)
    ensures { TellsType kind number.old number.new compression.old compression.new }
{
    if let Some(image) = kind {
        *number = type_number(image);
        *compression = compression_number(image);
    }
}

/// Writes the numbers of a type and of its compression, if there is one, and returns the status.
#[inline(always)]
pub fn tell_found(answer: ImageResult<ImageType>, number: &mut u32, compression: &mut u32) -> u32
    ensures status { result ≡ status_of answer }
    ensures told { TellsType (result_ok answer) number.old number.new compression.old compression.new }
    ensures left { is_answered result ≡ false → (number.new ≡ number.old) × (compression.new ≡ compression.old) }
{
    match answer {
        Ok(image) => {
            tell_type(Some(image), number, compression);
            ANSWERED
        }
        Err(error) => refusal_status(&error),
    }
}

/// Writes a size, if there is one, and returns the status.
#[inline(always)]
pub fn tell_size(answer: ImageResult<ImageSize>, width: &mut u64, height: &mut u64) -> u32
    ensures status { result ≡ status_of answer }
    ensures told { TellsSize answer width.old width.new height.old height.new }
    ensures left { is_answered result ≡ false → (width.new ≡ width.old) × (height.new ≡ height.old) }
{
    match answer {
        Ok(size) => {
            *width = size.width as u64;
            *height = size.height as u64;
            ANSWERED
        }
        Err(error) => refusal_status(&error),
    }
}

/// Writes the requested part, and returns the status for it.
#[inline(always)]
pub fn tell_wanted(span: Span, wanted: &mut Span) -> u32
    ensures status { result ≡ 30 }
    ensures told { wanted.new ≡ span }
{
    *wanted = span;
    BYTES_WANTED
}
