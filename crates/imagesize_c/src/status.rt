//! The status that a call returns.
ghost use Rattle.std.specs.Prelude.{◌≡◌};
ghost use Rattle.std.specs.Option.{option_copied};
ghost use Rattle.imagesize_c.specs.Status.{reason_status, refusal_status};
ghost use Rattle.imagesize_c.specs.Told.{status_text};

use imagesize::{ImageError, Reason};

/// The call succeeded.
pub const ANSWERED: u32 = 0;

/// The result has more items than the buffer.
pub const BUFFER_TOO_SMALL: u32 = 27;

/// No type has the numbers that were passed.
pub const UNKNOWN_TYPE: u32 = 28;

/// No status has the number that was passed.
pub const UNKNOWN_STATUS: u32 = 29;

/// The call needs more bytes of the input.
pub const BYTES_WANTED: u32 = 30;

/// The status of an error.
pub fn refusal_status(error: &ImageError) -> u32
    ensures { result ≡ refusal_status error.now }
{
    match error {
        ImageError::NotSupported => 1,
        ImageError::CorruptedImage => 2,
        ImageError::IoError(reason) => reason_status(reason),
    }
}

// The status of an error's reason.
fn reason_status(reason: &Reason) -> u32
    ensures { result ≡ reason_status reason.now }
{
    match reason {
        Reason::Fault(_) => 3,
        Reason::EndOfInput => 4,
        Reason::NotEnoughData => 5,
        Reason::BudgetSpent { .. } => 6,
        Reason::Memory => 7,
        Reason::NoDelimiter { .. } => 8,
        Reason::NotUtf8 => 9,
        Reason::InvalidHeifBoxSize { .. } => 10,
        Reason::InvalidJxlBoxSize { .. } => 11,
        Reason::InvalidJxlSignature => 12,
        Reason::InvalidTiffHeader => 13,
        Reason::BigTiffOffsetSize => 14,
        Reason::InvalidBigTiffHeader => 15,
        Reason::InvalidIfdOffset => 16,
        Reason::IfdTypeForStandardTiff => 17,
        Reason::InvalidIfdType => 18,
        Reason::InvalidIfdValueLength => 19,
        Reason::NoDimensionsInIfd => 20,
        Reason::InvalidVp8Tag => 21,
        Reason::DataWindowNotFound => 22,
        Reason::InvalidHdrIdentifier => 23,
        Reason::InvalidHdrDimensionsLine => 24,
        Reason::HdrDimensionsNotFound => 25,
        Reason::PnmDimensionsNotFound => 26,
    }
}

/// The text of a status, or `None` if there is no such status.
pub fn status_text(status: u32) -> Option<&'static str>
    ensures { option_copied result ≡ status_text status }
{
    Some(match status {
        0 => "No refusal",
        1 => "Could not decode image",
        2 => "Hit end of file before finding size",
        3 => "A call of the reader failed",
        4 => "failed to fill whole buffer",
        5 => "Not enough data",
        6 => "Read budget is spent",
        7 => "Out of memory",
        8 => "Delimiter not found within the bytes that a text may have",
        9 => "invalid utf-8",
        10 => "Invalid heif box size",
        11 => "Invalid size for a JXL box",
        12 => "Invalid JXL signature",
        13 => "Invalid TIFF header",
        14 => "Unrecognised BigTiff offset size",
        15 => "Invalid BigTiff header",
        16 => "Invalid IFD offset",
        17 => "Invalid IFD type for standard TIFF",
        18 => "Invalid IFD type",
        19 => "Invalid IFD value length",
        20 => "No dimensions in IFD tags",
        21 => "Invalid VP8 Tag",
        22 => "Data window not found",
        23 => "Invalid HDR format identifier",
        24 => "Invalid HDR dimensions line",
        25 => "HDR dimensions not found",
        26 => "PNM dimensions not found",
        27 => "The buffer is too small",
        28 => "No type has these numbers",
        29 => "No status has this number",
        30 => "More bytes are wanted",
        _ => return None,
    })
}
