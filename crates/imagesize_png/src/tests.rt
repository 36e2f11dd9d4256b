//! Sizes of a few inputs, found by hand from the specification, and readers that read byte by byte or fail.

use crate::{
    ImageError, ImageResult, ImageSize, PartsAnswer, Reason, Span, blob_size, is_png, parts_size,
    reader_size,
};
use imagesize_readers::readers::{Counting, Cutting, Failing};
use std::io::{self, Cursor};
use std::test::Fail;

// An image of 640 by 480: the signature, the length and the name of the image header, and its width and height.
const PNG: &[u8] = b"\x89PNG\r\n\x1a\n\0\0\0\x0dIHDR\0\0\x02\x80\0\0\x01\xe0";

// Inputs that have a size.
static SIZED: [(&[u8], usize, usize); 5] = [
    (PNG, 640, 480),
    // with more of the header, and the first byte of its checksum
    (
        b"\x89PNG\r\n\x1a\n\0\0\0\x0dIHDR\0\0\0\x01\0\0\0\x02\x08\x06\0\0\0\x99",
        1,
        2,
    ),
    // the greatest numbers of four bytes, which the specification forbids
    (
        b"\x89PNG\r\n\x1a\n\0\0\0\x0dIHDR\xff\xff\xff\xff\xff\xff\xff\xfe",
        4294967295,
        4294967294,
    ),
    // no width and no height, which it forbids too
    (b"\x89PNG\r\n\x1a\n\0\0\0\x0dIHDR\0\0\0\0\0\0\0\0", 0, 0),
    // another chunk before the image header, as some phones write it: its bytes are read as width and height
    (
        b"\x89PNG\r\n\x1a\n\0\0\0\x04CgBI\x50\0\x20\x06\0\0\0\x07",
        1342185478,
        7,
    ),
];

// Inputs that are not a PNG.
static OTHERS: [&[u8]; 7] = [
    b"\x89PNG\r\n\x1a\r\0\0\0\x0dIHDR\0\0\x02\x80\0\0\x01\xe0",
    b"\x89PNG\n\x1a\n\0\0\0\x0dIHDR\0\0\x02\x80\0\0\x01\xe0\0",
    b"\x89PNG another file",
    b"\x09PNG\r\n\x1a\n\0\0\0\x0dIHDR\0\0\x02\x80\0\0\x01\xe0",
    b"\x8aMNG\r\n\x1a\n\0\0\0\x1cMHDR\0\0\x02\x80\0\0\x01\xe0",
    b"\x8bJNG\r\n\x1a\n\0\0\0\x10JHDR\0\0\x02\x80\0\0\x01\xe0",
    b"GIF89a\x80\x02\xe0\x01\0\0",
];

fn is_end(answer: &ImageResult<ImageSize>) -> bool {
    matches!(answer, Err(ImageError::IoError(Reason::EndOfInput)))
}

fn is_unsupported(answer: &ImageResult<ImageSize>) -> bool {
    matches!(answer, Err(ImageError::NotSupported))
}

fn is_fault(answer: &ImageResult<ImageSize>) -> bool {
    matches!(answer, Err(ImageError::IoError(Reason::Fault(_))))
}

// The size in a slice, in a reader in memory, and in one that gives a byte per read.
fn sizes(bytes: &[u8]) -> [ImageResult<ImageSize>; 3] {
    [
        blob_size(bytes),
        reader_size(&mut Cursor::new(bytes)),
        reader_size(&mut Cutting::one_byte(Cursor::new(bytes))),
    ]
}

#[test]
fn the_sides_stand_in_the_image_header(rt: HostRuntime) -> Result<(), Fail> {
    for (bytes, width, height) in SIZED {
        assert!(rt; is_png(bytes));
        for size in sizes(bytes) {
            assert_eq!(rt; size?, ImageSize { width, height });
        }
    }
    Ok(())
}

#[test]
fn other_bytes_are_no_png(rt: HostRuntime) {
    for bytes in OTHERS {
        assert!(rt; !is_png(bytes));
        assert!(rt; sizes(bytes).iter().all(is_unsupported));
    }
}

#[test]
fn what_is_cut_ends(rt: HostRuntime) {
    for length in 0..PNG.len() {
        let cut = &PNG[..length];
        assert_eq!(rt; is_png(cut), length >= 8);
        assert!(rt; sizes(cut).iter().all(is_end));
    }
}

#[test]
fn a_reader_gives_no_more_than_24_bytes(rt: HostRuntime) -> Result<(), Fail> {
    let mut long = [0u8; 4096];
    long[..24].copy_from_slice(PNG);
    let mut count = 0;
    let mut reader = Counting::new(Cursor::new(long.as_slice()), &mut count);
    assert_eq!(rt; reader_size(&mut reader)?.height, 480);
    assert!(rt; count <= 24);
    Ok(())
}

// Both kinds of reader, in memory and not, are left after the last byte that was read.
#[test]
fn a_reader_is_left_after_the_last_byte(rt: HostRuntime) {
    for (bytes, left) in [
        (PNG, 24),
        (&PNG[..20], 20),
        (&PNG[..5], 5),
        (OTHERS[6], 8),
        (&PNG[..0], 0),
    ] {
        let mut cursor = Cursor::new(bytes);
        let _answer = reader_size(&mut cursor);
        assert_eq!(rt; cursor.position(), left);
        let mut pieces = Cutting::one_byte(Cursor::new(bytes));
        let _answer = reader_size(&mut pieces);
        assert_eq!(rt; pieces.reader.position(), left);
    }
}

#[test]
fn a_signature_may_stand_behind_other_bytes(rt: HostRuntime) -> Result<(), Fail> {
    let bytes: &[u8] = b"abc\x89PNG\r\n\x1a\n\0\0\0\x0dIHDR\0\0\x02\x80\0\0\x01\xe0";
    let mut reader = Cursor::new(bytes);
    reader.set_position(3);
    // The width and the height are read at offsets 16 and 20 of the whole input.
    let size = ImageSize {
        width: 0x48445200,
        height: 0x00028000,
    };
    assert_eq!(rt; reader_size(&mut reader)?, size);
    Ok(())
}

#[test]
fn each_call_of_a_reader_may_fail(rt: HostRuntime) {
    for left in 0..3 {
        let mut reader = Failing {
            reader: Cursor::new(PNG),
            left: Some(left),
            error: io::Error::other("the disk is gone"),
            last: None,
        };
        assert!(rt; is_fault(&reader_size(&mut reader)));
    }
}

// The signature, the width and the height, one after another, and their spans.
const KNOWN: &[u8] = b"\x89PNG\r\n\x1a\n\0\0\x02\x80\0\0\x01\xe0";

const SPANS: [Span; 3] = [
    Span { start: 0, len: 8 },
    Span { start: 16, len: 4 },
    Span { start: 20, len: 4 },
];

#[test]
fn parts_are_asked_for_in_their_order(rt: HostRuntime) {
    for (length, count) in [(0, 0), (8, 1), (12, 2)] {
        let answer = parts_size(&KNOWN[..length], &SPANS[..count], 5_000_000);
        assert!(rt; matches!(answer, PartsAnswer::Wanted(span) if span == SPANS[count]));
    }
    let answer = parts_size(KNOWN, &SPANS, 5_000_000);
    assert!(rt; matches!(answer, PartsAnswer::Found(Ok(size)) if size.width == 640));
}

#[test]
fn parts_tell_where_an_input_is_cut(rt: HostRuntime) {
    for (total, length, count) in [(0, 0, 0), (8, 8, 1), (16, 8, 1), (20, 12, 2)] {
        let answer = parts_size(&KNOWN[..length], &SPANS[..count], total);
        assert!(rt; matches!(answer, PartsAnswer::Found(answer) if is_end(&answer)));
    }
}

#[test]
fn parts_of_other_bytes_are_no_png(rt: HostRuntime) {
    let front = [Span { start: 0, len: 8 }];
    for bytes in OTHERS {
        assert!(rt;
            matches!(parts_size(&bytes[..8], &front, 5_000_000), PartsAnswer::Found(answer) if is_unsupported(&answer))
        );
    }
}
