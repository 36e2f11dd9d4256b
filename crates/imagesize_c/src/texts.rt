//! Texts, each in the caller's buffer.
ghost use Rattle.std.specs.Prelude.{◌≡◌};
ghost use Rattle.imagesize.specs.Types.{type_name_of};
ghost use Rattle.imagesize_c.specs.Lends.{Lends, LendsIf};
ghost use Rattle.imagesize_c.specs.Told.{compression_text, container_text, status_text, text_of};

use crate::numbers::type_numbered;
use crate::status::{ANSWERED, BUFFER_TOO_SMALL, UNKNOWN_STATUS, UNKNOWN_TYPE, status_text};

/// The name of a type.
#[unsafe(no_mangle)]
pub extern "C" fn imagesize_type_name(
    number: u32,
    compression: u32,
    text: &mut [u8],
    length: &mut usize,
) -> u32
    ensures { LendsIf (text_of type_name_of number compression) 28 text.old text.new length.old length.new result }
{
    match type_numbered(number, compression) {
        Some(image) => lend(image.name(), text, length),
        None => UNKNOWN_TYPE,
    }
}

/// The name of a type's compression. It is empty if the type has none.
#[unsafe(no_mangle)]
pub extern "C" fn imagesize_compression_name(
    number: u32,
    compression: u32,
    text: &mut [u8],
    length: &mut usize,
) -> u32
    ensures { LendsIf (text_of compression_text number compression) 28 text.old text.new length.old length.new result }
{
    match type_numbered(number, compression) {
        Some(image) => lend(image.compression_name().unwrap_or(""), text, length),
        None => UNKNOWN_TYPE,
    }
}

/// The name of a type's container. It is empty if the type has none.
#[unsafe(no_mangle)]
pub extern "C" fn imagesize_container_format(
    number: u32,
    compression: u32,
    text: &mut [u8],
    length: &mut usize,
) -> u32
    ensures { LendsIf (text_of container_text number compression) 28 text.old text.new length.old length.new result }
{
    match type_numbered(number, compression) {
        Some(image) => lend(image.container_format().unwrap_or(""), text, length),
        None => UNKNOWN_TYPE,
    }
}

/// The text of a status.
#[unsafe(no_mangle)]
pub extern "C" fn imagesize_status_text(status: u32, text: &mut [u8], length: &mut usize) -> u32
    ensures { LendsIf (status_text status) 29 text.old text.new length.old length.new result }
{
    match status_text(status) {
        Some(found) => lend(found, text, length),
        None => UNKNOWN_STATUS,
    }
}

// Writes a text to the front of a buffer if it fits, and its length in either case.
fn lend(text: &str, buffer: &mut [u8], length: &mut usize) -> u32
    ensures { Lends text.now buffer.old buffer.new length.new result }
{
    *length = text.len();
    if text.len() > buffer.len() {
        return BUFFER_TOO_SMALL;
    }
    buffer[..text.len()].copy_from_slice(text.as_bytes());
    ANSWERED
}
