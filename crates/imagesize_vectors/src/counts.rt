//! How many bytes are read, and which calls of a reader are made.

use crate::inputs::{ETC2, GIF, NESTED_JPEG, TGA};
use imagesize::{
    ImageError, ImageType, PkmCompression, Reason, reader_probe, reader_size, reader_type,
};
use imagesize_readers::readers::{Calls, Counting, Cutting};
use std::io::{Cursor, ErrorKind};
use std::test::Fail;

// An input that comes after four other bytes, with the reader at its first byte.
const GIF_BEHIND: &[u8] = b"abcdGIF89ad\0d\0\0\0";

// An input, the offset of its first byte, and how many bytes are read for its type, and for its type and its size.
static TAKEN: [(&[u8], u64, u64, u64); 5] = [
    (GIF, 0, 12, 12),
    (GIF_BEHIND, 4, 12, 16),
    (TGA, 0, 18, 18),
    (ETC2, 0, 12, 16),
    (NESTED_JPEG, 0, 12, 20),
];

fn cursor_at(bytes: &[u8], offset: u64) -> Cursor<&[u8]> {
    let mut cursor = Cursor::new(bytes);
    cursor.set_position(offset);
    cursor
}

#[test]
fn no_byte_is_taken_again(rt: HostRuntime) {
    for (bytes, offset, _, whole) in TAKEN {
        let probed = reader_probe(&mut cursor_at(bytes, offset));
        assert_eq!(rt; probed.taken, whole, "{bytes:?}");
        assert!(rt; probed.answer.is_ok());
    }
}

#[test]
fn a_counting_reader_counts_what_is_taken(rt: HostRuntime) {
    for (bytes, offset, of_type, whole) in TAKEN {
        let mut count = 1000;
        let reader = Counting::new(cursor_at(bytes, offset), &mut count);
        assert!(rt; reader_size(reader).is_ok());
        assert_eq!(rt; count.checked_sub(1000), Some(whole), "{bytes:?}");
        let mut count = 1000;
        let reader = Counting::new(cursor_at(bytes, offset), &mut count);
        assert!(rt; reader_type(reader).is_ok());
        assert_eq!(rt; count.checked_sub(1000), Some(of_type), "{bytes:?}");
    }
}

#[test]
fn one_byte_a_read_changes_no_count(rt: HostRuntime) {
    for (bytes, offset, _, whole) in TAKEN {
        let mut count = 0;
        let mut reader = Counting::new(Cutting::one_byte(cursor_at(bytes, offset)), &mut count);
        assert_eq!(rt; reader_probe(&mut reader).taken, whole, "{bytes:?}");
        assert_eq!(rt; count, whole, "{bytes:?}");
    }
}

#[test]
fn a_read_that_cannot_be_counted_is_a_fault(rt: HostRuntime) {
    let mut count = u64::MAX - 11;
    let mut reader = Counting::new(Cursor::new(GIF), &mut count);
    let probed = reader_probe(&mut reader);
    let Err(ImageError::IoError(Reason::Fault(error))) = probed.answer else {
        panic!(rt; "no fault");
    };
    assert_eq!(rt; error.kind(), ErrorKind::Other);
    assert_eq!(rt; probed.taken, 0);
    assert_eq!(rt; count, u64::MAX - 11);
}

const ETC2_TYPE: ImageType = ImageType::Etc2(PkmCompression::Etc2);

// The reads and the seeks of a call.
type Made = (u32, u32);

// An input, the offset of its first byte, its type, and what is made for the type, for type and size, and for the size alone.
//
// A call asks for the offset and for the length once each. One that detects the type goes back to the offset once. Each read then
// seeks if the reader is at another offset, and reads once, unless the window has the bytes.
static MADE: [(&[u8], u64, ImageType, Made, Made, Made); 5] = [
    (GIF, 0, ImageType::Gif, (1, 3), (1, 3), (2, 3)),
    (GIF_BEHIND, 4, ImageType::Gif, (1, 3), (3, 4), (2, 3)),
    (TGA, 0, ImageType::Tga, (2, 3), (2, 3), (2, 3)),
    (ETC2, 0, ETC2_TYPE, (1, 3), (3, 3), (4, 3)),
    (NESTED_JPEG, 0, ImageType::Jpeg, (1, 3), (5, 4), (9, 4)),
];

#[test]
fn no_call_is_made_twice(rt: HostRuntime) -> Result<(), Fail> {
    for (bytes, offset, kind, of_type, whole, of_size) in MADE {
        let cursor = || cursor_at(bytes, offset);
        let mut made = (0, 0);
        assert_eq!(rt; reader_type(Calls::new(cursor(), &mut made))?, kind);
        assert_eq!(rt; made, of_type, "the type of {bytes:?}");
        let mut made = (0, 0);
        assert!(rt; reader_size(Calls::new(cursor(), &mut made)).is_ok());
        assert_eq!(rt; made, whole, "the size of {bytes:?}");
        let mut made = (0, 0);
        let probed = reader_probe(&mut Calls::new(cursor(), &mut made));
        assert!(rt; probed.answer.is_ok());
        assert_eq!(rt; made, whole, "{bytes:?}");
        let mut made = (0, 0);
        let size = kind.reader_size(&mut Calls::new(cursor(), &mut made));
        assert!(rt; size.is_ok());
        assert_eq!(rt; made, of_size, "the size alone of {bytes:?}");
    }
    Ok(())
}
