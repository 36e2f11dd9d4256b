//! Type and size of the image in some bytes.
ghost use Rattle.std.specs.Prelude.{◌≡◌, false};
ghost use Rattle.std.specs.Result.{result_ok};
ghost use Rattle.imagesize.specs.Meaning.{kind_of, meaning};
ghost use Rattle.imagesize_c.specs.Status.{is_stop_status, status_of};
ghost use Rattle.imagesize_c.specs.Told.{TellsSize, TellsType};

use crate::tell::{tell_found, tell_size};
use imagesize::{blob_size, image_type};

/// Detects the type of an image from its first bytes, with its compression. With an error neither number changes.
#[unsafe(no_mangle)]
pub extern "C" fn imagesize_type(bytes: &[u8], number: &mut u32, compression: &mut u32) -> u32
    ensures status { result ≡ status_of (kind_of bytes.now 0).answer }
    ensures unstopped { is_stop_status result ≡ false }
    ensures told { TellsType (result_ok (kind_of bytes.now 0).answer) number.old number.new compression.old compression.new }
{
    tell_found(image_type(bytes), number, compression)
}

/// Reads the size in pixels of the image in some bytes. With an error width and height do not change.
#[unsafe(no_mangle)]
pub extern "C" fn imagesize_size(bytes: &[u8], width: &mut u64, height: &mut u64) -> u32
    ensures status { result ≡ status_of (meaning bytes.now 0).answer }
    ensures unstopped { is_stop_status result ≡ false }
    ensures told { TellsSize (meaning bytes.now 0).answer width.old width.new height.old height.new }
{
    tell_size(blob_size(bytes), width, height)
}

/// Reads type and size. If only the size has an error, the type is written, and width and height do not change.
#[unsafe(no_mangle)]
pub extern "C" fn imagesize_probe(
    bytes: &[u8],
    number: &mut u32,
    compression: &mut u32,
    width: &mut u64,
    height: &mut u64,
) -> u32
    ensures status { result ≡ status_of (meaning bytes.now 0).answer }
    ensures unstopped { is_stop_status result ≡ false }
    ensures kind { TellsType (result_ok (kind_of bytes.now 0).answer) number.old number.new compression.old compression.new }
    ensures size { TellsSize (meaning bytes.now 0).answer width.old width.new height.old height.new }
{
    imagesize_type(bytes, number, compression);
    imagesize_size(bytes, width, height)
}
