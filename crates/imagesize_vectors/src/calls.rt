//! The results for inputs that are read as a type, and for readers whose offset is not 0.

use crate::checks::parts::{How, fetch};
use crate::inputs::{DDS, GIF, LOSSY_WEBP, PNM_WITH_A_COMMENT};
use imagesize::{AtcCompression, ImageResult, ImageSize, ImageType, reader_size, reader_type};
use imagesize_readers::readers::{Counting, Cutting};
use std::alloc::{AllocError, Global};
use std::fmt::Display;
use std::io::Cursor;
use std::process::Abort;
use std::test::Fail;

// A width and a height in pixels, or the text of an error.
type Wanted<'a> = Result<(usize, usize), &'a str>;

// An input that is read as a type, which need not be its own.
#[derive(Clone, Copy)]
struct ReadAs {
    // What it shows.
    shows: &'static str,
    // Its bytes.
    bytes: &'static [u8],
    // The type that it is read as.
    kind: ImageType,
    // Its size, or its error.
    answer: Wanted<'static>,
    // How many bytes a reader gives for its size.
    taken: u64,
}

static READ_AS: [ReadAs; 8] = [
    ReadAs {
        shows: "a WebP as a WebP",
        bytes: LOSSY_WEBP,
        kind: ImageType::Webp,
        answer: Ok((16, 8)),
        taken: 8,
    },
    ReadAs {
        shows: "no bytes as a GIF",
        bytes: b"",
        kind: ImageType::Gif,
        answer: Err("failed to fill whole buffer"),
        taken: 0,
    },
    ReadAs {
        shows: "a DDS as an ATC texture in one",
        bytes: DDS,
        kind: ImageType::Atc(AtcCompression::Rgb),
        answer: Ok((7, 5)),
        taken: 12,
    },
    ReadAs {
        shows: "a GIF as an ATC texture",
        bytes: GIF,
        kind: ImageType::Atc(AtcCompression::Unknown),
        answer: Ok((100, 6578489)),
        taken: 12,
    },
    ReadAs {
        shows: "an icon of which no entry is whole",
        bytes: b"\0\0\x01\0\x01\0\x10",
        kind: ImageType::Ico,
        answer: Err("Hit end of file before finding size"),
        taken: 3,
    },
    ReadAs {
        shows: "an icon that is cut within its count",
        bytes: b"\0\0\x01\0\x01",
        kind: ImageType::Ico,
        answer: Err("failed to fill whole buffer"),
        taken: 1,
    },
    ReadAs {
        shows: "a first line that is longer than the identifier of an HDR",
        bytes: b"#?RGBE1234567\n",
        kind: ImageType::Hdr,
        answer: Err("Delimiter not found within 11 bytes"),
        taken: 11,
    },
    ReadAs {
        shows: "a first line that is no identifier of an HDR",
        bytes: PNM_WITH_A_COMMENT,
        kind: ImageType::Hdr,
        answer: Err("Invalid HDR format identifier"),
        taken: 3,
    },
];

// Whether a size is the expected one, or an error has the expected text.
fn is_answer(
    alloc: Global,
    wanted: Wanted<'_>,
    answer: &ImageResult<ImageSize>,
) -> Result<bool, AllocError> {
    match answer {
        Ok(size) => Ok(wanted == Ok((size.width, size.height))),
        Err(error) => Ok(wanted == Err(error.to_string(alloc)?.as_str())),
    }
}

#[test]
fn offsets_of_a_size_count_from_the_first_byte(rt: HostRuntime) -> Result<(), Fail> {
    let bytes = b"abcdGIF89a\x64\0\x64\0\0\0";
    let mut cursor = Cursor::new(bytes.as_slice());
    cursor.set_position(4);
    assert_eq!(rt; reader_type(cursor)?, ImageType::Gif);
    let mut cursor = Cursor::new(bytes.as_slice());
    cursor.set_position(4);
    let size = ImageSize {
        width: 14406,
        height: 24889,
    };
    assert_eq!(rt; reader_size(cursor)?, size);
    Ok(())
}

// A type reads a size, whatever the reader's offset is.
fn check_size_as(
    rt: &(impl Abort + AllocGlobal),
    bytes: &[u8],
    kind: ImageType,
    wanted: Wanted<'_>,
) -> Result<(), Fail> {
    let alloc = rt.alloc();
    for offset in [0, 4, 1000] {
        let mut cursor = Cursor::new(bytes);
        cursor.set_position(offset);
        assert!(rt;
            is_answer(alloc, wanted, &kind.reader_size(&mut cursor))?,
            "{bytes:?}"
        );
        let mut reader = Cutting::one_byte(cursor);
        assert!(rt;
            is_answer(alloc, wanted, &kind.reader_size(&mut reader))?,
            "{bytes:?}"
        );
    }
    Ok(())
}

// A type reads a size from the parts of an input, byte by byte, and fetches no more bytes than a reader gives for it.
fn check_parts_as(rt: &(impl Abort + AllocGlobal), row: &ReadAs) -> Result<(), Fail> {
    let alloc = rt.alloc();
    let fetched = fetch(alloc, &row.kind, row.bytes, How::OneByte)
        .ok()
        .expect(rt, "an answer");
    let shows = row.shows;
    assert!(rt; is_answer(alloc, row.answer, &fetched.found)?, "{shows}");
    assert!(rt; fetched.bytes as u64 <= row.taken, "{shows}");
    Ok(())
}

#[test]
fn parts_are_read_as_another_type(rt: HostRuntime) -> Result<(), Fail> {
    for row in READ_AS {
        check_parts_as(&rt, &row)?;
    }
    Ok(())
}

#[test]
fn a_type_reads_its_size_wherever_the_reader_stands(rt: HostRuntime) -> Result<(), Fail> {
    for row in READ_AS {
        check_size_as(&rt, row.bytes, row.kind, row.answer)?;
    }
    Ok(())
}

#[test]
fn a_type_takes_what_its_size_is_read_from(rt: HostRuntime) -> Result<(), Fail> {
    let alloc = rt.alloc();
    for ReadAs {
        shows,
        bytes,
        kind,
        answer,
        taken,
    } in READ_AS {
        let mut count = 0;
        let mut reader = Counting::new(Cursor::new(bytes), &mut count);
        let found = kind.reader_size(&mut reader);
        assert!(rt; is_answer(alloc, answer, &found)?, "{shows}");
        assert_eq!(rt; count, taken, "{shows}");
    }
    Ok(())
}
