ghost use Rattle.std.specs.Prelude.{◌≡◌, ◌++◌, IfOk, IfErr, MatchResult, None, Some, Ok, Err, IfSome, false, length, map};
ghost use Rattle.std.specs.String.{string_bytes};
ghost use Rattle.imagesize_probe.specs.Run.{lines_of, is_any_refused, names_in, wants_spans};
ghost use Rattle.imagesize_probe.specs.Status.{exit_status};
ghost use Rattle.imagesize_source.specs.declared.error.ImageError.TheVariants.{IoError};
ghost use Rattle.imagesize_source.specs.declared.error.Reason.TheVariants.{Memory};

use super::{Open, WHOLE, exit_code, run};
use crate::fakes::Weak;
use crate::{Disk, buffered};
use imagesize::{ImageError, ImageResult, Reason, Told};
use imagesize_io::file::BLOCK;
use std::alloc::{AllocError, Global};
use std::fs;
use std::io::{self, Cursor, ErrorKind, Write};
use std::process::Abort;
use std::rt::Files;
use std::test::Fail;

const GIF: &[u8] = b"GIF89a\x64\0\x64\0\0\0";

const CUT: &[u8] = b"GIF89a\x64\0\x64\0";

// Opens files by their names, and counts how often it was asked.
#[derive(Drop)]
struct Shelf {
    alloc: Global,
    asked: u32,
}

impl Open for Shelf {
    type Reader = Cursor<&'static [u8]>;

    ghost known = { λ _. None };

    fn open(&mut self, name: &str) -> ImageResult<Cursor<&'static [u8]>> {
        self.asked = self.asked.saturating_add(1);
        match name {
            "tiny.gif" => Ok(Cursor::new(GIF)),
            "cut.gif" => Ok(Cursor::new(CUT)),
            "huge.gif" => Err(ImageError::IoError(Reason::Memory)),
            _ => Err(ImageError::from(lost())),
        }
    }

    fn load(&mut self, name: &str) -> ImageResult<Vec<u8>> {
        self.asked = self.asked.saturating_add(1);
        match name {
            "tiny.gif" => copied(self.alloc, GIF),
            "cut.gif" => copied(self.alloc, CUT),
            "e" => copied(self.alloc, b""),
            "huge.gif" => Err(ImageError::IoError(Reason::Memory)),
            "16777216" => zeros(self.alloc, 16_777_216),
            "16777217" => zeros(self.alloc, 16_777_217),
            _ => Err(ImageError::from(lost())),
        }
    }
}

// What was made, or `Memory`, if it could not be allocated.
fn or_memory<T, E: Drop>(made: Result<T, E>) -> ImageResult<T>
    ensures { MatchResult made (λ value. result ≡ Ok value) (λ _. result ≡ Err (IoError Memory)) }
{
    match made {
        Ok(value) => Ok(value),
        Err(_) => Err(ImageError::IoError(Reason::Memory)),
    }
}

// A copy of these bytes.
fn copied(alloc: Global, bytes: &[u8]) -> ImageResult<Vec<u8>>
    ensures same { IfOk result (λ copy. copy.items ≡ bytes.now) }
    ensures refused { IfErr result (λ e. e ≡ IoError Memory) }
{
    let mut copy = Vec::new(alloc);
    or_memory(copy.extend_from_slice(bytes))?;
    Ok(copy)
}

// `count` bytes of 0.
fn zeros(alloc: Global, count: usize) -> ImageResult<Vec<u8>> {
    or_memory(Vec::from_elem(alloc, 0, count))
}

// The error for any other file.
fn lost() -> io::Error {
    io::Error::new(ErrorKind::NotFound, "no such file on the shelf")
}

// Has the same bytes for every name.
#[derive(Drop)]
struct Same<'a> {
    alloc: Global,
    bytes: &'a [u8],
}

impl<'a> Open for Same<'a> {
    type Reader = Cursor<&'a [u8]>;

    ghost known = { λ same. Some (λ _. Ok same.bytes.now) };

    fn open(&mut self, _name: &str) -> ImageResult<Cursor<&'a [u8]>> {
        // The proof needs that the length is below 2^63.
        let _length = self.bytes.len();
        Ok(Cursor::new(self.bytes))
    }

    fn load(&mut self, _name: &str) -> ImageResult<Vec<u8>> {
        if self.bytes.len() <= WHOLE {
            let all = copied(self.alloc, self.bytes)?;
            return Ok(all);
        }
        copied(self.alloc, &self.bytes[..WHOLE + 1])
    }
}

fn strings(alloc: Global, texts: &[&str]) -> Result<Vec<String>, AllocError> {
    let mut all = Vec::new(alloc);
    for text in texts {
        all.push(String::from_str(alloc, text)?)?;
    }
    Ok(all)
}

// The exit status for these arguments over the files of the shelf.
fn run_on_shelf<W: Write, E: Write>(
    alloc: Global,
    arguments: &[String],
    output: &mut W,
    errors: &mut E,
) -> io::Result<u8> {
    run(
        alloc,
        arguments,
        &mut Shelf { alloc, asked: 0 },
        output,
        errors,
    )
}

// The lines for names that all have these bytes, and the status.
fn run_same(
    alloc: Global,
    names: &[String],
    bytes: &[u8],
    output: &mut Vec<u8>,
    errors: &mut Vec<u8>,
) -> io::Result<u8>
    ensures { IfOk result (λ status. wants_spans (map string_bytes names.now) ≡ false
        → IfSome (lines_of (λ _. Ok bytes.now) (names_in (map string_bytes names.now)))
        (λ text. output.new.items ≡ output.old.items ++ text)
        × (status ≡ exit_status (length (names_in (map string_bytes names.now)))
        (is_any_refused (λ _. Ok bytes.now) (names_in (map string_bytes names.now))))) }
{
    run(alloc, names, &mut Same { alloc, bytes }, output, errors)
}

// The lines of two files of the shelf.
const SIZED: &str = "tiny.gif: Gif 100x100\n";

const ENDED: &str = "cut.gif: error: failed to fill whole buffer\n";

// Checks the lines for these arguments over the files of the shelf, and the status. Only status 2 comes with a message.
fn check_lines(
    rt: &(impl Abort + AllocGlobal),
    arguments: &[&str],
    lines: &[&str],
    status: u8,
) -> Result<(), Fail> {
    let alloc = rt.alloc();
    let mut expected: Vec<u8> = Vec::new(alloc);
    for line in lines {
        expected.extend_from_slice(line.as_bytes())?;
    }
    let names = strings(alloc, arguments)?;
    let mut output = Vec::new(alloc);
    let mut errors = Vec::new(alloc);
    let ended = run_on_shelf(alloc, &names, &mut output, &mut errors)?;
    assert_eq!(rt; ended, status, "{arguments:?}");
    assert_eq!(rt; output, expected);
    assert_eq!(rt; errors.is_empty(), status != 2);
    Ok(())
}

#[test]
fn each_name_has_a_line_in_its_turn(rt: HostRuntime) -> Result<(), Fail> {
    for (names, lines, status) in [
        (["tiny.gif"].as_slice(), [SIZED].as_slice(), 0),
        (&["cut.gif"], &[ENDED], 1),
        (&["tiny.gif", "cut.gif"], &[SIZED, ENDED], 1),
        (
            &["cut.gif", "tiny.gif", "tiny.gif"],
            &[ENDED, SIZED, SIZED],
            1,
        ),
        (&["huge.gif"], &["huge.gif: error: Out of memory\n"], 1),
        (
            &["a.gif", "tiny.gif"],
            &["a.gif: error: no such file on the shelf\n", SIZED],
            1,
        ),
    ] {
        check_lines(&rt, names, lines, status)?;
    }
    Ok(())
}

#[test]
fn the_usage_is_written_where_none_is_named(rt: HostRuntime) -> Result<(), Fail> {
    let alloc = rt.alloc();
    let mut output = Vec::new(alloc);
    let mut errors = Vec::new(alloc);
    assert_eq!(rt; run_on_shelf(alloc, &[], &mut output, &mut errors)?, 2);
    assert!(rt; output.is_empty());
    assert_eq!(rt;
        errors.as_slice(),
        b"usage: imagesize_probe [--spans] FILE...\n".as_slice()
    );
    let mut full = Weak {
        written: 0,
        sent: 0,
    };
    assert_eq!(rt; run_on_shelf(alloc, &[], &mut output, &mut full)?, 2);
    Ok(())
}

#[test]
fn an_output_that_fails_ends_the_run(rt: HostRuntime) -> Result<(), Fail> {
    let alloc = rt.alloc();
    let names = strings(alloc, &["tiny.gif", "cut.gif", "tiny.gif"])?;
    // The first line has 22 bytes and the second one 44. The row says what fails, and how many files were opened before that.
    for (written, sent, fault, asked) in [
        (0, 9, ErrorKind::StorageFull, 1),
        (21, 9, ErrorKind::StorageFull, 1),
        (22, 9, ErrorKind::StorageFull, 2),
        (65, 9, ErrorKind::StorageFull, 2),
        (66, 9, ErrorKind::StorageFull, 3),
        (900, 0, ErrorKind::BrokenPipe, 1),
        (900, 1, ErrorKind::BrokenPipe, 2),
        (900, 2, ErrorKind::BrokenPipe, 3),
    ] {
        let mut shelf = Shelf { alloc, asked: 0 };
        let mut output = Weak { written, sent };
        let mut errors = Vec::new(alloc);
        let ended = run(alloc, &names, &mut shelf, &mut output, &mut errors);
        assert_eq!(rt; ended.expect_err(&rt, "an output that fails").kind(), fault);
        assert_eq!(rt; shelf.asked, asked, "{written} bytes and {sent} sends");
        assert!(rt; errors.is_empty());
    }
    Ok(())
}

#[test]
fn each_line_is_sent_before_the_next_file(rt: HostRuntime) -> Result<(), Fail> {
    let alloc = rt.alloc();
    let names = strings(alloc, &["tiny.gif", "cut.gif"])?;
    let mut output = Weak {
        written: 900,
        sent: 9,
    };
    let mut errors = Vec::new(alloc);
    assert_eq!(rt; run_on_shelf(alloc, &names, &mut output, &mut errors)?, 1);
    assert_eq!(rt; output.sent, 7);
    Ok(())
}

#[test]
fn the_same_bytes_have_the_same_line(rt: HostRuntime) -> Result<(), Fail> {
    let alloc = rt.alloc();
    let names = strings(alloc, &["a", ""])?;
    let mut output = Vec::new(alloc);
    let mut errors = Vec::new(alloc);
    assert_eq!(rt; run_same(alloc, &names, GIF, &mut output, &mut errors)?, 0);
    assert_eq!(rt; run_same(alloc, &names, CUT, &mut output, &mut errors)?, 1);
    let lines = "a: Gif 100x100\n: Gif 100x100\n\
        a: error: failed to fill whole buffer\n: error: failed to fill whole buffer\n";
    assert_eq!(rt; output.as_slice(), lines.as_bytes());
    Ok(())
}

#[test]
fn the_option_is_known_as_the_first_argument(rt: HostRuntime) -> Result<(), Fail> {
    let spans = "  0+12\n  6+2\n  8+2\n";
    let empty = "e: error: failed to fill whole buffer\n";
    let lost = "--spans: error: no such file on the shelf\n";
    for (arguments, lines, status) in [
        (
            ["--spans", "tiny.gif"].as_slice(),
            [SIZED, spans].as_slice(),
            0,
        ),
        (&["--spans", "cut.gif", "e"], &[ENDED, "  0+10\n", empty], 1),
        (&["--spans", "--spans"], &[lost], 1),
        (&["tiny.gif", "--spans"], &[SIZED, lost], 1),
        (
            &["--spans", "huge.gif"],
            &["huge.gif: error: Out of memory\n"],
            1,
        ),
        (&["--spans"], &[], 2),
        (
            &["--spans ", "--spans"],
            &["--spans : error: no such file on the shelf\n", lost],
            1,
        ),
    ] {
        check_lines(&rt, arguments, lines, status)?;
    }
    Ok(())
}

#[test]
fn files_are_read_whole_up_to_a_length(rt: HostRuntime) -> Result<(), Fail> {
    let unknown = "16777216: error: Could not decode image\n  0+12\n";
    check_lines(&rt, &["--spans", "16777216"], &[unknown], 1)?;
    let long = "16777217: error: file is longer than 16777216 bytes\n";
    check_lines(&rt, &["--spans", "16777217"], &[long], 1)
}

// What the program writes for these arguments over the files of this machine, if its status is 1.
fn refused_lines<R: Files + AllocGlobal + Abort>(
    rt: &R,
    arguments: &[&str],
) -> Result<String, Fail> {
    let alloc = rt.alloc();
    let arguments = strings(alloc, arguments)?;
    let mut output = Vec::new(alloc);
    let mut errors = Vec::new(alloc);
    let mut memory = [0; BLOCK];
    let mut disk = Disk {
        rt,
        memory: &mut memory,
    };
    let status = run(alloc, &arguments, &mut disk, &mut output, &mut errors)?;
    assert_eq!(rt; status, 1);
    Ok(String::from_utf8(output)?)
}

#[test]
fn files_that_cannot_be_read_have_a_line(rt: HostRuntime) -> Result<(), Fail> {
    let error = fs::open(&rt, "no such file").expect_err(&rt, "a file that is not there");
    let none = format!(in rt.alloc(); "no such file: error: {error}")?;
    let error = io::Error::from_raw_os_error(21);
    let folder = format!(in rt.alloc(); ".: error: {error}")?;
    let arguments = ["--spans", "no such file", "/dev/null", ".", "no such file"];
    for given in [&arguments[..], &arguments[1..]] {
        let text = refused_lines(&rt, given)?;
        let mut lines = text.lines();
        assert_eq!(rt; lines.next(), Some(none.as_str()));
        assert_eq!(rt;
            lines.next(),
            Some("/dev/null: error: failed to fill whole buffer")
        );
        assert_eq!(rt; lines.next(), Some(folder.as_str()));
        assert_eq!(rt; lines.next(), Some(none.as_str()));
        assert_eq!(rt; lines.next(), None);
    }
    Ok(())
}

// Opens two files, one after another.
fn check_memory<R: Files + AllocGlobal + Abort>(rt: &R, memory: &mut [u8]) -> Result<(), Fail> {
    let length = memory.len();
    let mut disk = Disk { rt, memory };
    let mut reader = disk.open("/dev/zero")?;
    assert!(rt; matches!(reader.read_told(&mut [0u8; 12]), Ok(12)));
    assert!(rt; !reader.held().is_empty());
    disk.close(reader);
    assert!(rt; disk.open("no such file").is_err());
    assert_eq!(rt; disk.memory.len(), length);
    let reader = disk.open("/dev/null")?;
    assert!(rt; disk.memory.is_empty());
    assert!(rt; reader.held().is_empty());
    Ok(())
}

#[test]
fn one_memory_serves_one_file_after_another(rt: HostRuntime) -> Result<(), Fail> {
    check_memory(&rt, &mut [0; 100])
}

#[test]
fn no_more_of_a_file_is_read_than_shows_that_it_is_too_long(rt: HostRuntime) -> Result<(), Fail> {
    assert_eq!(rt;
        refused_lines(&rt, &["--spans", "/dev/zero"])?.as_str(),
        "/dev/zero: error: file is longer than 16777216 bytes\n"
    );
    Ok(())
}

#[test]
fn a_failed_output_is_status_1(rt: HostRuntime) {
    assert_eq!(rt; exit_code(Ok(2)), 2);
    assert_eq!(rt; exit_code(Err(lost())), 1);
}

#[test]
fn lines_go_out_at_once_with_no_memory_for_a_buffer(rt: HostRuntime) {
    assert_eq!(rt; buffered(&rt, 8192).capacity(), 8192);
    assert_eq!(rt; buffered(&rt, usize::MAX).capacity(), 0);
}
