//! What is promised for readers with a model: each of these is proved for an actual reader.
ghost use Rattle.std.specs.Prelude.{◌≡◌, ◌+◌, ◌^◌, ◌<◌, ◌≤◌, length, false, true, IfErr, Some};
ghost use Rattle.imagesize_io.specs.Answers.{IsLast, RisesWithin};
ghost use Rattle.std.specs.Io.Cursor.{cursor_inner};
ghost use Rattle.imagesize.specs.Meaning.{meaning, size_of};
ghost use Rattle.imagesize_source.specs.Errors.{is_fault, is_stopped, is_faulted};
ghost use Rattle.imagesize_source.specs.State.{total};

#[cfg(test)]
use crate::inputs::{GIF, NESTED_JPEG};
use imagesize::{ImageResult, ImageSize, ImageType, Probed, reader_probe, reader_size};
use imagesize_readers::readers::{Counting, Cutting, Failing, Halting, Interrupted};
#[cfg(test)]
use std::io::ErrorKind;
use std::io::{self, Cursor};
#[cfg(test)]
use std::test::Fail;

/// The size in pixels through a reader with a call that fails, or the fault of that failure. Other errors are those of
/// `blob_size`.
pub fn size_or_fault(bytes: &[u8], left: u64, error: io::Error) -> ImageResult<ImageSize>
    ensures size { is_stopped result ≡ false → (meaning bytes.now 0).answer ≡ result }
    ensures fault { is_stopped result ≡ true → is_faulted result ≡ true }
{
    // The proof needs that the length is below 2^63.
    let _length = bytes.len();
    reader_size(Failing {
        reader: Cursor::new(bytes),
        left: Some(left),
        error,
        last: None,
    })
}

/// The size in pixels through a reader with one byte per read, in which every second read is interrupted, at most 64 times.
/// The result is that of `blob_size`.
pub fn size_in_pieces(bytes: &[u8], left: u64, error: io::Error) -> ImageResult<ImageSize>
    requires { left ≤ 64 }
    ensures { result ≡ (meaning bytes.now 0).answer }
{
    let _length = bytes.len();
    reader_size(Cutting::one_byte(Halting {
        reader: Interrupted {
            reader: Cursor::new(bytes),
            left,
            error,
        },
        halts: true,
    }))
}

/// The size in pixels through a reader whose reads give pieces of these lengths in bytes. The result is that of `blob_size`.
pub fn size_by_lengths(bytes: &[u8], lengths: &[usize]) -> ImageResult<ImageSize>
    ensures { result ≡ (meaning bytes.now 0).answer }
{
    let _length = bytes.len();
    reader_size(Cutting {
        reader: Cursor::new(bytes),
        lengths,
        next: 0,
    })
}

/// The size in pixels through a reader whose first reads are interrupted, at most 64 times. The result is that of
/// `blob_size`.
pub fn size_at_last(bytes: &[u8], left: u64, error: io::Error) -> ImageResult<ImageSize>
    requires { left ≤ 64 }
    ensures { result ≡ (meaning bytes.now 0).answer }
{
    let _length = bytes.len();
    reader_size(Interrupted {
        reader: Cursor::new(bytes),
        left,
        error,
    })
}

/// The size in pixels, as this type, through a counting reader. Its count rises by at most the lengths of the spans. The
/// errors are those of `ImageType::reader_size`, and a fault if the count is full.
pub fn counted_size(
    kind: ImageType,
    reader: &mut Counting<'_, Cursor<&[u8]>>,
) -> ImageResult<ImageSize>
    requires { length (cursor_inner reader.old.reader).now < 2 ^ 63 }
    ensures size { is_stopped result ≡ false → (size_of kind (cursor_inner reader.old.reader).now).answer ≡ result }
    ensures counts { RisesWithin (Some reader.old.count.now) (Some reader.new.count.now)
        (total (size_of kind (cursor_inner reader.old.reader).now).marks) }
{
    kind.reader_size(reader)
}

/// What is found through a counting reader, whose count rises by the bytes that are read.
pub fn counted_probe(reader: &mut Counting<'_, Cursor<&[u8]>>) -> Probed
    ensures { reader.new.count.now ≡ reader.old.count.now + result.taken }
{
    reader_probe(reader)
}

/// The size in pixels through a borrowed reader with a call that fails: a fault is its last failure.
pub fn lent_size(reader: &mut Failing<Cursor<&[u8]>>) -> ImageResult<ImageSize>
    ensures { IfErr result (λ e. is_fault e ≡ true → IsLast (Some reader.new.last) e) }
{
    let probed = reader_probe(reader);
    probed.answer
}

/// The size in pixels, as this type, through a cursor that another call has read from. The result is that of its bytes.
pub fn size_again(kind: ImageType, reader: &mut Cursor<&[u8]>) -> ImageResult<ImageSize>
    requires { length (cursor_inner reader.old).now < 2 ^ 63 }
    ensures { result ≡ (size_of kind (cursor_inner reader.old).now).answer }
{
    let _probed = reader_probe(reader);
    kind.reader_size(reader)
}

#[cfg(test)]
const GIF_SIZE: ImageSize = ImageSize {
    width: 100,
    height: 100,
};

#[test]
fn promises_over_telling_readers_are_met(rt: HostRuntime) -> Result<(), Fail> {
    let error = io::Error::from(ErrorKind::Interrupted);
    assert_eq!(rt; size_or_fault(GIF, 4, error)?, GIF_SIZE);
    assert!(rt; size_or_fault(GIF, 3, error).is_err());
    assert_eq!(rt; size_in_pieces(GIF, 64, error)?, GIF_SIZE);
    assert_eq!(rt; size_by_lengths(GIF, &[5, 3])?, GIF_SIZE);
    assert_eq!(rt; size_at_last(GIF, 64, error)?, GIF_SIZE);
    assert_eq!(rt;
        size_again(ImageType::Gif, &mut Cursor::new(GIF))?,
        GIF_SIZE
    );
    let mut reader = Failing {
        reader: Cursor::new(GIF),
        left: Some(3),
        error,
        last: None,
    };
    assert!(rt; lent_size(&mut reader).is_err());
    assert!(rt; lent_size(&mut reader).is_ok());
    let mut count = 0;
    let mut reader = Counting::new(Cursor::new(NESTED_JPEG), &mut count);
    assert!(rt; counted_size(ImageType::Jpeg, &mut reader).is_ok());
    assert_eq!(rt; count, 18);
    let mut reader = Counting::new(Cursor::new(NESTED_JPEG), &mut count);
    assert_eq!(rt; counted_probe(&mut reader).taken, 20);
    assert_eq!(rt; count, 38);
    Ok(())
}
