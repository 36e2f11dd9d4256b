//! Why a read returns early, and the error that the call then returns.
ghost use Rattle.std.specs.Prelude.{◌≡◌, ◌<◌};
ghost use Rattle.imagesize_source.specs.Halts.{error_by, with_error};
ghost use Rattle.imagesize_source.specs.declared.error.ImageError.TheVariants as error;

use crate::source::Source;
use crate::{ImageError, ImageResult, Reason};

/// Why a read returned early: it failed, or the bytes break the format. This type is kept small, since every read returns it.
/// The source keeps the reader's own error and the budget until `with_error` fetches them.
#[derive(Clone, Copy, Debug)]
pub enum Halt {
    /// A call of the reader failed, or a requested byte is not known or not held.
    Failed,
    /// The budget is spent.
    Spent,
    /// The input ends before the last of the requested bytes.
    Ended,
    /// The segments, chunks, boxes or entries of the image end, or are broken, before one gives the size.
    Corrupted,
    /// The first bytes are those of no known image type.
    NotSupported,
    // The bytes break the format: see the `Reason` of the same name.
    NotEnoughData,
    NoDelimiter { max_size: u32 },
    NotUtf8,
    InvalidHeifBoxSize { size: u8 },
    // The tag's four bytes as a big-endian number: without arrays, a `Halt` is moved as one value.
    InvalidJxlBoxSize { size: u8, tag: u32 },
    InvalidJxlSignature,
    InvalidTiffHeader,
    BigTiffOffsetSize,
    InvalidBigTiffHeader,
    InvalidIfdOffset,
    IfdTypeForStandardTiff,
    InvalidIfdType,
    InvalidIfdValueLength,
    NoDimensionsInIfd,
    InvalidVp8Tag,
    DataWindowNotFound,
    InvalidHdrIdentifier,
    InvalidHdrDimensionsLine,
    HdrDimensionsNotFound,
    PnmDimensionsNotFound,
}

impl Halt {
    /// The error that a call returns for this value. `failure` is the error of a failed call of the reader, and `budget` is
    /// in bytes.
    #[cold]
    #[inline(never)]
    pub fn error(self, failure: Reason, budget: u64) -> ImageError
        ensures { result ≡ error_by (error.IoError failure) budget self }
    {
        ImageError::IoError(match self {
            Halt::NotSupported => return ImageError::NotSupported,
            Halt::Corrupted => return ImageError::CorruptedImage,
            Halt::Failed => failure,
            Halt::Spent => Reason::BudgetSpent { budget },
            Halt::Ended => Reason::EndOfInput,
            Halt::NotEnoughData => Reason::NotEnoughData,
            Halt::NoDelimiter { max_size } => Reason::NoDelimiter {
                max_size: max_size as usize,
            },
            Halt::NotUtf8 => Reason::NotUtf8,
            Halt::InvalidHeifBoxSize { size } => Reason::InvalidHeifBoxSize { size: size as u32 },
            Halt::InvalidJxlBoxSize { size, tag } => Reason::InvalidJxlBoxSize {
                tag: tag.to_be_bytes(),
                size: size as u64,
            },
            Halt::InvalidJxlSignature => Reason::InvalidJxlSignature,
            Halt::InvalidTiffHeader => Reason::InvalidTiffHeader,
            Halt::BigTiffOffsetSize => Reason::BigTiffOffsetSize,
            Halt::InvalidBigTiffHeader => Reason::InvalidBigTiffHeader,
            Halt::InvalidIfdOffset => Reason::InvalidIfdOffset,
            Halt::IfdTypeForStandardTiff => Reason::IfdTypeForStandardTiff,
            Halt::InvalidIfdType => Reason::InvalidIfdType,
            Halt::InvalidIfdValueLength => Reason::InvalidIfdValueLength,
            Halt::NoDimensionsInIfd => Reason::NoDimensionsInIfd,
            Halt::InvalidVp8Tag => Reason::InvalidVp8Tag,
            Halt::DataWindowNotFound => Reason::DataWindowNotFound,
            Halt::InvalidHdrIdentifier => Reason::InvalidHdrIdentifier,
            Halt::InvalidHdrDimensionsLine => Reason::InvalidHdrDimensionsLine,
            Halt::HdrDimensionsNotFound => Reason::HdrDimensionsNotFound,
            Halt::PnmDimensionsNotFound => Reason::PnmDimensionsNotFound,
        })
    }
}

/// Turns the `Halt` of a failed call into the error that the caller sees.
#[inline(always)]
pub fn with_error<S: Source, T>(answer: Result<T, Halt>, source: &S) -> ImageResult<T>
    ensures { result ≡ with_error (S.state source.now).failure (S.state source.now).frame.budget answer }
{
    match answer {
        Ok(value) => Ok(value),
        Err(halt) => Err(source.refusal(halt)),
    }
}
