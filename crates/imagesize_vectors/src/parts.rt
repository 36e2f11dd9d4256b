//! Few bytes of large inputs are fetched, and parts of any shape give what they have. The other checks of the test vectors
//! also check their results from parts.

use crate::checks::parts::{Both, How, TypeAndSize, fetch};
use crate::inputs::{GIF, TURNED, jpeg_behind};
use imagesize::{ImageSize, ImageType, PartsAnswer, Span, image_type, parts_probe};
use std::alloc::{AllocError, Global};
use std::process::Abort;
use std::test::Fail;

// A JPEG with 216,000 bytes before its frame, and 2,000,000 after it.
fn long_jpeg(alloc: Global) -> Result<Vec<u8>, AllocError> {
    let mut bytes = Vec::new(alloc);
    bytes.extend_from_slice(b"\xFF\xD8\xFF\xE1\x4E\x20")?;
    bytes.resize(2 + 2 + 20_000, 0)?;
    for _ in 0..3 {
        let here = bytes.len();
        bytes.extend_from_slice(b"\xFF\xE2\xFF\xFF")?;
        bytes.resize(here.saturating_add(2 + 65_535), 0)?;
    }
    bytes.extend_from_slice(b"\xFF\xC0\0\x11\x08\0\x05\0\x07")?;
    bytes.resize(bytes.len().saturating_add(2_000_000), 0)?;
    Ok(bytes)
}

// A TIFF of 2 MiB with its directory of twelve entries at the end.
fn long_tiff(alloc: Global) -> Result<Vec<u8>, AllocError> {
    let mut bytes = Vec::new(alloc);
    bytes.extend_from_slice(b"II*\0\0\0\x20\0")?;
    bytes.resize(0x200000, 0)?;
    bytes.extend_from_slice(b"\x0C\0")?;
    for _ in 0..10 {
        bytes.extend_from_slice(b"\x10\x01\x03\0\x01\0\0\0\x01\0\0\0")?;
    }
    bytes.extend_from_slice(b"\0\x01\x03\0\x01\0\0\0\x07\0\0\0")?;
    bytes.extend_from_slice(b"\x01\x01\x03\0\x01\0\0\0\x05\0\0\0")?;
    Ok(bytes)
}

// An AVIF of 64 by 48 pixels, rotated, with a megabyte of pixels.
fn long_avif(alloc: Global) -> Result<Vec<u8>, AllocError> {
    let mut bytes = Vec::new(alloc);
    bytes.extend_from_slice(TURNED)?;
    bytes.extend_from_slice(b"\0\x10\0\x08mdat")?;
    bytes.resize(bytes.len().saturating_add(0x100000), 0)?;
    Ok(bytes)
}

// A PNM of 640 by 480 pixels with a comment of 900 bytes.
fn long_pnm(alloc: Global) -> Result<Vec<u8>, AllocError> {
    let mut bytes = Vec::new(alloc);
    bytes.extend_from_slice(b"P6\n#")?;
    bytes.resize(900, b'x')?;
    bytes.extend_from_slice(b"\n640 480\n255\n")?;
    bytes.resize(921_600, 0)?;
    Ok(bytes)
}

// A large input has its result after at most so many rounds and bytes.
fn check_large(
    rt: &(impl Abort + AllocGlobal),
    input: &[u8],
    size: (usize, usize),
    how: How,
    most: (usize, usize),
) -> Result<(), Fail> {
    let kind = image_type(input).ok();
    let fetched = fetch(rt.alloc(), &TypeAndSize, input, how)
        .ok()
        .expect(rt, "an answer");
    let (width, height) = size;
    let (found, answer) = &fetched.found;
    assert!(rt; *found == kind);
    assert!(rt;
        matches!(answer, Ok(found) if *found == ImageSize { width, height }),
        "{:?}",
        kind
    );
    assert!(rt;
        fetched.rounds <= most.0 && fetched.bytes <= most.1,
        "{:?}: {} rounds, {} bytes",
        kind,
        fetched.rounds,
        fetched.bytes
    );
    Ok(())
}

#[test]
fn few_bytes_of_large_inputs_are_wanted(rt: HostRuntime) -> Result<(), Fail> {
    let alloc = rt.alloc();
    let jpeg = long_jpeg(alloc)?;
    check_large(&rt, &jpeg, (7, 5), How::Exactly, (10, 30))?;
    check_large(&rt, &jpeg, (7, 5), How::Blocks(4095), (5, 5 * 4096))?;
    let tiff = long_tiff(alloc)?;
    check_large(&rt, &tiff, (7, 5), How::Exactly, (26, 158))?;
    check_large(&rt, &tiff, (7, 5), How::Blocks(4095), (2, 4096 + 146))?;
    let avif = long_avif(alloc)?;
    // the bytes of the short one, and the head of the box after them
    check_large(&rt, &avif, (48, 64), How::Exactly, (10, 69 + 8))?;
    check_large(&rt, &avif, (48, 64), How::Blocks(4095), (1, 4096))?;
    let pnm = long_pnm(alloc)?;
    check_large(&rt, &pnm, (640, 480), How::Exactly, (2, 1026))?;
    check_large(&rt, &pnm, (640, 480), How::Blocks(4095), (1, 4096))?;
    let segments = jpeg_behind(alloc, 100)?;
    check_large(&rt, &segments, (7, 5), How::Exactly, (199, 408))?;
    check_large(&rt, &segments, (7, 5), How::Blocks(4095), (1, 411))
}

fn span(start: u64, len: u64) -> Span {
    Span { start, len }
}

// One sequence of bytes after another.
fn joined(alloc: Global, first: &[u8], second: &[u8]) -> Result<Vec<u8>, AllocError> {
    let mut bytes = Vec::new(alloc);
    bytes.extend_from_slice(first)?;
    bytes.extend_from_slice(second)?;
    Ok(bytes)
}

// Whether a GIF of 12 bytes is found.
fn is_gif(answer: &PartsAnswer<Both>) -> bool {
    matches!(answer, PartsAnswer::Found((Some(ImageType::Gif), Ok(_))))
}

// The offset of the byte that is requested, if one is.
fn wanted_of(answer: &PartsAnswer<Both>) -> Option<u64> {
    match answer {
        PartsAnswer::Wanted(wanted) => Some(wanted.start),
        PartsAnswer::Found(_) => None,
    }
}

#[test]
fn parts_in_any_shape_tell_what_they_have(rt: HostRuntime) -> Result<(), Fail> {
    let gif = GIF;
    let twice = joined(rt.alloc(), gif, gif)?;
    // past the end, twice, empty, after the end, and overlapping
    assert!(rt; is_gif(&parts_probe(gif, &[span(0, u64::MAX)], 12)));
    assert!(rt; is_gif(&parts_probe(&twice, &[span(0, 12), span(0, 12)], 12)));
    assert!(rt; is_gif(&parts_probe(gif, &[span(3, 0), span(0, 12), span(0, 0)], 12)));
    assert!(rt;
        is_gif(&parts_probe(
            gif,
            &[span(u64::MAX, u64::MAX), span(12, 5), span(0, 12)],
            12
        ))
    );
    let crossed = joined(rt.alloc(), b"9ad\0d\0\0\0", b"GIF89ad\0d")?;
    assert!(rt; is_gif(&parts_probe(&crossed, &[span(4, 8), span(0, 9)], 12)));
    // too few bytes, and more of them than the spans have
    assert_eq!(rt;
        wanted_of(&parts_probe(b"GIF89", &[span(0, 12)], 12)),
        Some(5)
    );
    assert_eq!(rt; wanted_of(&parts_probe(&twice, &[span(0, 7)], 12)), Some(7));
    assert_eq!(rt; wanted_of(&parts_probe(b"", &[], 12)), Some(0));
    // parts that contradict one another, and a total that no input has: the call returns
    let other = joined(rt.alloc(), gif, b"RIFF")?;
    let _either = parts_probe(&other, &[span(0, 12), span(0, 4)], 12);
    for total in [0, 1, 1 << 63, u64::MAX] {
        let _short = parts_probe(gif, &[span(0, 12)], total);
        let _crossed = parts_probe(gif, &[span(total / 2, 12), span(0, u64::MAX)], total);
    }
    Ok(())
}
