ghost use Rattle.std.specs.Prelude.{◌≡◌, ◌++◌, IfOk, IsSomeAnd, Some, is_ok};
ghost use Rattle.std.specs.Result.{result_ok};
ghost use Rattle.imagesize.specs.Meaning.{kind_of, meaning};
ghost use Rattle.imagesize_probe.specs.Line.{answer_line, ReportsSpans};

use super::{report, report_spans, write_refusal};
use crate::fakes::Weak;
use imagesize::{ImageError, Stop, Told};
use std::alloc::Global;
use std::io::{self, Cursor, ErrorKind, SeekFrom};
use std::str;
use std::test::Fail;

// Reports on the bytes of a slice, from its first byte on.
fn report_bytes(name: &str, bytes: &[u8], written: &mut Vec<u8>) -> io::Result<bool>
    ensures line { IfOk result (λ sized. IsSomeAnd
        (answer_line name.now (result_ok (kind_of bytes.now 0).answer) (meaning bytes.now 0).answer)
        (λ text. written.new.items ≡ written.old.items ++ text)) }
    ensures sized { IfOk result (λ sized. sized ≡ is_ok (meaning bytes.now 0).answer) }
{
    // The proof needs that the length is below 2^63.
    let _length = bytes.len();
    report(name, &mut Cursor::new(bytes), written)
}

const GIF: [u8; 12] = *b"GIF89a\x64\0\x64\0\0\0";

#[test]
fn lines_of_sizes_name_type_and_compression(rt: HostRuntime) -> Result<(), Fail> {
    for (name, bytes, line) in [
        ("tiny.gif", GIF.as_slice(), "tiny.gif: Gif 100x100\n"),
        (
            "x.webp",
            b"RIFF\0\0\0\0WEBPVP8 \0\0\0\0\0\0\0\0\0\0\x10\x40\x08\0",
            "x.webp: Webp 16x8\n",
        ),
        (
            "b.bmp",
            b"BM\0\0\0\0\0\0\0\0\0\0\0\0\0\0\0\0\x02\0\0\0\xFE\xFF\xFF\xFF",
            "b.bmp: Bmp 2x4294967294\n",
        ),
        (
            "",
            b"PKM 20\0\x01\0\x40\0\x40\0\x40\0\x40",
            ": Etc2(Etc2) 64x64\n",
        ),
    ] {
        let mut written = Vec::new(rt.alloc());
        assert_eq!(rt; report_bytes(name, bytes, &mut written)?, true);
        assert_eq!(rt; written.as_slice(), line.as_bytes());
    }
    Ok(())
}

#[test]
fn lines_of_refusals_say_why(rt: HostRuntime) -> Result<(), Fail> {
    for (name, bytes, line) in [
        (
            "cut.gif",
            b"GIF89a\x64\0\x64\0".as_slice(),
            "cut.gif: error: failed to fill whole buffer\n",
        ),
        ("e", b"", "e: error: failed to fill whole buffer\n"),
        (
            "a.png",
            b"\x89PNG\r\n\x1A\n\0\0\0\x0D",
            "a.png: error: Could not decode image\n",
        ),
        (
            "vp8z.webp",
            b"RIFF\0\0\0\0WEBPVP8Z",
            "vp8z.webp: error: Invalid VP8 Tag\n",
        ),
    ] {
        let mut written = Vec::new(rt.alloc());
        assert_eq!(rt; report_bytes(name, bytes, &mut written)?, false);
        assert_eq!(rt; written.as_slice(), line.as_bytes());
    }
    Ok(())
}

// Reports on the bytes of a slice, and on the bytes that the result depends on.
fn report_slice(alloc: Global, name: &str, bytes: &[u8], written: &mut Vec<u8>) -> io::Result<bool>
    ensures { IfOk result (ReportsSpans bytes.now name.now (Some written.old.items) (Some written.new.items)) }
{
    report_spans(alloc, name, bytes, written)
}

#[test]
fn lines_of_spans_stand_below(rt: HostRuntime) -> Result<(), Fail> {
    let alloc = rt.alloc();
    for (name, bytes, lines, sized) in [
        (
            "tiny.gif",
            GIF.as_slice(),
            "tiny.gif: Gif 100x100\n  0+12\n  6+2\n  8+2\n",
            true,
        ),
        (
            "cut.gif",
            b"GIF89a\x64\0\x64\0",
            "cut.gif: error: failed to fill whole buffer\n  0+10\n",
            false,
        ),
        ("e", b"", "e: error: failed to fill whole buffer\n", false),
    ] {
        let mut written = Vec::new(alloc);
        assert_eq!(rt; report_slice(alloc, name, bytes, &mut written)?, sized);
        assert_eq!(rt; written.as_slice(), lines.as_bytes());
    }
    Ok(())
}

// A reader whose seeks fail.
#[derive(Drop)]
struct Unseekable;

impl Told for Unseekable {
    ghost use Rattle.std.specs.Prelude.{None};

    ghost telling = { λ _. None };

    ghost count = { λ _. None };

    ghost failure = { λ _. None };

    fn read_told(&mut self, _buffer: &mut [u8]) -> Result<usize, Stop> {
        Ok(0)
    }

    fn seek_told(&mut self, _to: SeekFrom) -> io::Result<u64> {
        Err(fault())
    }
}

fn fault() -> io::Error {
    io::Error::new(ErrorKind::NotSeekable, "the pipe has no places")
}

#[test]
fn line_of_a_fault_has_its_text(rt: HostRuntime) -> Result<(), Fail> {
    let alloc = rt.alloc();
    let mut written = Vec::new(alloc);
    assert_eq!(rt; report("pipe", &mut Unseekable, &mut written)?, false);
    let error = fault();
    let line = format!(in alloc; "pipe: error: {error}\n")?;
    assert_eq!(rt; written.as_slice(), line.as_bytes());
    Ok(())
}

#[test]
fn line_of_a_fault_is_one_line(rt: HostRuntime) -> Result<(), Fail> {
    for (message, line) in [
        ("no disk\nin the drive", "a: error: no disk in the drive\n"),
        ("\nno disk\n\n", "a: error:  no disk  \n"),
        ("\n", "a: error:  \n"),
        ("", "a: error: \n"),
    ] {
        let error = ImageError::from(io::Error::new(ErrorKind::Other, message));
        let mut written = Vec::new(rt.alloc());
        assert_eq!(rt; write_refusal("a", &error, &mut written)?, false);
        assert_eq!(rt; written.as_slice(), line.as_bytes());
    }
    Ok(())
}

#[test]
fn text_of_an_error_has_at_most_512_bytes(rt: HostRuntime) -> Result<(), Fail> {
    let bytes = [b'x'; 513];
    let mut written = Vec::new(rt.alloc());
    assert!(rt; write_refusal("a", str::from_utf8(&bytes)?, &mut written).is_err());
    assert!(rt; written.is_empty());
    assert_eq!(rt;
        write_refusal("a", str::from_utf8(&bytes[1..])?, &mut written)?,
        false
    );
    assert_eq!(rt; written.len(), 523);
    Ok(())
}

// A writer that accepts so many bytes and then fails.
fn full(left: usize) -> Weak {
    Weak {
        written: left,
        sent: usize::MAX,
    }
}

fn report_into(left: usize, bytes: &[u8]) -> io::Result<bool> {
    report("a", &mut Cursor::new(bytes), &mut full(left))
}

#[test]
fn fails_where_the_writer_does(rt: HostRuntime) {
    for left in 0..15 {
        let error = report_into(left, &GIF).expect_err(&rt, "a full writer");
        assert_eq!(rt; error.kind(), ErrorKind::StorageFull);
    }
    assert!(rt; report_into(0, b"").is_err());
    assert!(rt; matches!(report_into(15, &GIF), Ok(true)));
    let alloc = rt.alloc();
    for left in 0..34 {
        let error = report_spans(alloc, "a", &GIF, &mut full(left)).expect_err(
            &rt,
            "a full writer",
        );
        assert_eq!(rt; error.kind(), ErrorKind::StorageFull);
    }
    assert!(rt; matches!(report_spans(alloc, "a", &GIF, &mut full(34)), Ok(true)));
}
