//! Each caller once, on test vectors.

use crate::cache::{keep, still_holds};
use crate::document::{PageSize, size_on_page};
use crate::gallery::size_by_front;
use crate::gate::{Limited, Rejection, admit, admit_within};
use crate::joined::joined_size;
use crate::remote::{Held, Interrupted, probe_remote};
use crate::texture::{Flaw, check_texture};
use crate::upload::{UploadGate, admit_chunks};
use imagesize::{CompressionFamily, ImageError, ImageSize, ImageType, Reason};
use std::alloc::{AllocError, Allocator};
use std::io::{Cursor, ErrorKind};
use std::test::Fail;

// A GIF of 100 by 100.
const GIF: &[u8] = b"GIF89ad\0d\0\0\0";

// A JPEG of 7 by 5 pixels with 30 empty segments before its frame, read to its end.
const LONG_JPEG: &[u8] = b"\xFF\xD8\
    \xFF\xE0\0\x02\xFF\xE0\0\x02\xFF\xE0\0\x02\xFF\xE0\0\x02\xFF\xE0\0\x02\xFF\xE0\0\x02\
    \xFF\xE0\0\x02\xFF\xE0\0\x02\xFF\xE0\0\x02\xFF\xE0\0\x02\xFF\xE0\0\x02\xFF\xE0\0\x02\
    \xFF\xE0\0\x02\xFF\xE0\0\x02\xFF\xE0\0\x02\xFF\xE0\0\x02\xFF\xE0\0\x02\xFF\xE0\0\x02\
    \xFF\xE0\0\x02\xFF\xE0\0\x02\xFF\xE0\0\x02\xFF\xE0\0\x02\xFF\xE0\0\x02\xFF\xE0\0\x02\
    \xFF\xE0\0\x02\xFF\xE0\0\x02\xFF\xE0\0\x02\xFF\xE0\0\x02\xFF\xE0\0\x02\xFF\xE0\0\x02\
    \xFF\xC0\0\x11\x08\0\x05\0\x07";

// The size of that JPEG.
const JPEG_SIZE: ImageSize = ImageSize {
    width: 7,
    height: 5,
};

// A size of equal sides.
fn square(side: usize) -> ImageSize {
    ImageSize {
        width: side,
        height: side,
    }
}

#[test]
fn a_gate_admits_by_the_area(rt: HostRuntime) {
    let admission = admit(&mut Cursor::new(GIF), 10_000);
    assert!(rt; matches!(admission.verdict, Ok(size) if size == square(100)));
    assert_eq!(rt; admission.taken, 12);
    let admission = admit(&mut Cursor::new(GIF), 9_999);
    assert!(rt; matches!(admission.verdict, Err(Rejection::TooLarge(size)) if size == square(100)));
}

#[test]
fn a_limited_gate_takes_no_more(rt: HostRuntime) {
    let admission = admit_within(&mut Cursor::new(GIF), 12, 10_000);
    assert!(rt; matches!(admission.verdict, Ok(size) if size == square(100)));
    let admission = admit_within(&mut Cursor::new(LONG_JPEG), LONG_JPEG.len() as u64, 35);
    assert!(rt; matches!(admission.verdict, Ok(size) if size == JPEG_SIZE));
    let mut limited = Limited {
        reader: &mut Cursor::new(GIF),
        left: 11,
        spent: None,
    };
    let admission = admit(&mut limited, 10_000);
    assert!(rt; matches!(admission.verdict, Err(Rejection::NoSize(_))));
    assert_eq!(rt; admission.taken, 11);
}

#[test]
fn an_upload_gate_ends_once_the_size_is_known(rt: HostRuntime) {
    let mut gate = UploadGate::new(None, 10_000);
    assert!(rt; gate.feed(&GIF[..11]).is_none());
    let verdict = gate.feed(&GIF[11..]);
    assert!(rt; matches!(verdict, Some(Ok(size)) if size == square(100)));
    let verdict = gate.feed(b"these bytes are not looked at");
    assert!(rt; matches!(verdict, Some(Ok(size)) if size == square(100)));
    assert!(rt; matches!(gate.finish(), Ok(size) if size == square(100)));
}

#[test]
fn an_upload_gate_decides_at_the_end(rt: HostRuntime) {
    let mut gate = UploadGate::new(None, 10_000);
    assert!(rt; gate.feed(&GIF[..11]).is_none());
    let Err(Rejection::NoSize(error)) = gate.finish() else {
        panic!(rt; "a size");
    };
    assert!(rt; matches!(error, ImageError::IoError(Reason::EndOfInput)));
}

#[test]
fn an_upload_in_chunks_has_its_verdict(rt: HostRuntime) {
    let (first, second) = LONG_JPEG.split_at(70);
    let verdict = admit_chunks(&[first, second], None, 35);
    assert!(rt; matches!(verdict, Ok(size) if size == JPEG_SIZE));
    let verdict = admit_chunks(&[first, b"", second], Some(LONG_JPEG.len() as u64), 34);
    assert!(rt; matches!(verdict, Err(Rejection::TooLarge(size)) if size == JPEG_SIZE));
    let verdict = admit_chunks(&[first, second], Some(70), 35);
    assert!(rt; matches!(verdict, Err(Rejection::NoSize(_))));
}

#[test]
fn a_gallery_knows_which_fronts_tell(rt: HostRuntime) {
    assert_eq!(rt; size_by_front(GIF), Some(square(100)));
    assert_eq!(rt; size_by_front(b"GIF89ad\0d\0\0"), None);
    let tga = b"\0\0\x02\0\0\0\0\0\0\0\0\0\x03\0\x04\0\x18\0";
    assert_eq!(rt; size_by_front(tga), None);
}

#[test]
fn a_cache_sees_the_spans_alone(rt: HostRuntime) -> Result<(), Fail> {
    let kept = keep(rt.alloc(), b"GIF89ad\0d\0\0\0a")?;
    assert!(rt; still_holds(&kept, b"GIF89ad\0d\0\0\0b"));
    assert!(rt; !still_holds(&kept, b"GIF89ae\0d\0\0\0a"));
    assert!(rt; !still_holds(&kept, GIF));
    Ok(())
}

#[test]
fn a_texture_has_its_compression_and_sides(rt: HostRuntime) {
    let pkm = b"PKM 20\0\x01\0@\0@\0@\0@";
    match check_texture(pkm, CompressionFamily::Etc, 64) {
        Ok(texture) => {
            assert_eq!(rt; texture.size, square(64));
            assert_eq!(rt; texture.container, Some("PKM"));
        }
        Err(_) => assert!(rt; false),
    }
    let refused = check_texture(pkm, CompressionFamily::Etc, 63);
    assert!(rt; matches!(refused, Err(Flaw::Sides(size)) if size == square(64)));
    let refused = check_texture(pkm, CompressionFamily::Eac, 64);
    assert!(rt; matches!(refused, Err(Flaw::OtherCompression(ImageType::Etc2(_)))));
}

#[test]
fn a_page_holds_the_pixels(rt: HostRuntime) {
    for (pixels_per_inch, points) in [(72, 100), (300, 24), (301, 24), (299, 25)] {
        let page = size_on_page(ImageType::Gif, GIF, pixels_per_inch);
        let wanted = PageSize {
            width: points,
            height: points,
        };
        assert!(rt; matches!(page, Ok(page) if page == wanted));
    }
}

#[test]
fn slices_are_read_as_one(rt: HostRuntime) {
    let size = joined_size(b"GIF89ad", b"\0d\0\0\0");
    assert!(rt; matches!(size, Ok(size) if size == square(100)));
}

// An ILBM of 7 by 5 pixels, with 1,000 chunks of 200 bytes before its bitmap header.
fn ilbm_of_chunks<A: Allocator>(alloc: A) -> Result<Vec<u8, A>, AllocError> {
    let mut bytes = Vec::new(alloc);
    bytes.extend_from_slice(b"FORM\0\x03\x2C\xA0ILBM")?;
    for _ in 0..1_000 {
        bytes.extend_from_slice(b"ANNO\0\0\0\xC8")?;
        bytes.extend_from_slice(&[b' '; 200])?;
    }
    bytes.extend_from_slice(b"BMHD\0\0\0\x14\0\x07\0\x05")?;
    Ok(bytes)
}

#[test]
fn a_remote_input_is_fetched_until_it_is_known(rt: HostRuntime) {
    let mut remote = Held::new(LONG_JPEG, usize::MAX, u64::MAX);
    let probed = probe_remote(&mut remote);
    let probed = probed.ok().expect(&rt, "a result");
    assert_eq!(rt; probed.kind, Some(ImageType::Jpeg));
    assert!(rt; matches!(probed.answer, Ok(size) if size == JPEG_SIZE));
}

#[test]
fn a_remote_input_takes_a_fetch_for_each_record(rt: HostRuntime) -> Result<(), Fail> {
    let bytes = ilbm_of_chunks(rt.alloc())?;
    let mut remote = Held::new(&bytes, 1_024, u64::MAX);
    let probed = probe_remote(&mut remote);
    let probed = probed.ok().expect(&rt, "a result");
    assert!(rt; matches!(probed.answer, Ok(size) if size == JPEG_SIZE));
    // one for the type, one for the head of each chunk, and one for each side
    assert_eq!(rt; remote.fetches(), 1 + 1_001 + 2);
    Ok(())
}

#[test]
fn a_fetch_that_fails_or_is_short_ends_it(rt: HostRuntime) {
    let failed = probe_remote(&mut Held::new(LONG_JPEG, usize::MAX, 3));
    assert!(rt;
        matches!(failed, Err(Interrupted::Failed(error)) if error.kind() == ErrorKind::TimedOut)
    );
    let short = probe_remote(&mut Held::new(GIF, 11, u64::MAX));
    assert!(rt; matches!(short, Err(Interrupted::Short)));
}
