//! The lines for many names, and the program's exit status.
ghost use Rattle.std.specs.Prelude.{◌≡◌, ℕ, ◌<◌, List, Option, Result, Ok, IfOk, IfErr, IsOk, OnOk, codes, false, length, map};
ghost use Rattle.std.specs.Io.KnownBytes.{Appends};
ghost use Rattle.imagesize_probe.specs.Line.{refused_line};
ghost use Rattle.std.specs.String.{string_bytes};
ghost use Rattle.imagesize_source.specs.declared.error.ImageError.{ImageError};
ghost use Rattle.imagesize_probe.specs.Run.{Loads, LoadsNone, OpensTo, ReportsWhole, RunsWith, WritesEach, WritesLine, WritesOne, WritesSpans, exit_code, names_in, wants_spans};

use crate::report::{report, report_spans, status, write_refusal};
use imagesize::{ImageResult, Told};
use std::alloc::{Allocator, Global};
use std::io::{self, Write};

/// Opens readers by name.
pub trait Open {
    /// The reader for a name.
    type Reader: Told;

    /// What each name has: bytes that are read from the first one on without a fault, or an error. `None` if this is not
    /// known.
    ghost known: { Self → Option (List ℕ → Result (List ℕ) ImageError) };

    /// Opens the reader for a name.
    fn open(&mut self, name: &str) -> ImageResult<Self::Reader>
        ensures opens { OpensTo Self.Reader.telling (known self.old) name.now result }
        ensures keeps { known self.new ≡ known self.old };

    /// Takes back a reader whose line is written. What it holds may serve the next one.
    fn close(&mut self, _reader: Self::Reader)
        ensures keeps { known self.new ≡ known self.old }
    {}

    /// The bytes for a name, at most one more than the greatest number whose spans are shown.
    fn load(&mut self, name: &str) -> ImageResult<Vec<u8>>
        ensures loads { IfOk result (λ bytes. Loads (known self.old) name.now bytes.items) }
        ensures refuses { IfErr result (LoadsNone (known self.old) name.now) }
        ensures keeps { known self.new ≡ known self.old };
}

/// The greatest length in bytes of a file whose spans are shown.
pub const WHOLE: usize = 16_777_216;

/// Writes a line for each name, flushed before the next name is opened, and returns the program's status. If the first
/// argument is `--spans`, the others are the names, and the spans of each come below its line.
///
/// Errors: those of `output`, at once. If `errors` fails, the status is the same.
pub fn run<O: Open, W: Write, E: Write>(
    alloc: Global,
    arguments: &[String],
    opener: &mut O,
    output: &mut W,
    errors: &mut E,
) -> io::Result<u8>
    ensures runs { IfOk result
        (RunsWith (O.known opener.old) (map string_bytes arguments.now) (W.contents output.old) (W.contents output.new)) }

    // Without a name, no failing output changes the status. With one, nothing is written to `errors`.
    ensures unnamed { length (names_in (map string_bytes arguments.now)) ≡ 0 → result ≡ Ok 2 }
    ensures quiet { 0 < length (names_in (map string_bytes arguments.now)) → errors.new ≡ errors.old }
{
    let (spans, names) = named(arguments);
    let files = names.len();
    if files == 0 {
        let _ = writeln!(errors, "usage: imagesize_probe [--spans] FILE...");
    }
    let refused = write_lines(alloc, spans, names, opener, output)?;
    Ok(status(files, refused))
}

// Whether the first argument is the option, and the names.
fn named(arguments: &[String]) -> (bool, &[String])
    ensures spans { result.0 ≡ wants_spans (map string_bytes arguments.now) }
    ensures names { map string_bytes result.1.now ≡ names_in (map string_bytes arguments.now) }
{
    match arguments.split_first() {
        Some((first, names)) if first.as_str() == "--spans" => (true, names),
        _ => (false, arguments),
    }
}

// Writes the lines for each name, flushed before the next name is opened, and returns whether one of them has no size.
fn write_lines<O: Open, W: Write>(
    alloc: Global,
    spans: bool,
    names: &[String],
    opener: &mut O,
    output: &mut W,
) -> io::Result<bool>
    ensures lines { IfOk result
        (WritesEach (WritesOne spans (O.known opener.old)) (map string_bytes names.now) (W.contents output.old) (W.contents output.new)) }
    ensures none { length names.now ≡ 0 → IsOk result }
{
    let mut refused = false;
    for name in names {
        let sized = write_named(alloc, spans, name.as_str(), opener, output)?;
        refused |= !sized;
        output.flush()?;
    }
    Ok(refused)
}

// Writes the lines for a name, and returns whether it has a size.
fn write_named<O: Open, W: Write>(
    alloc: Global,
    spans: bool,
    name: &str,
    opener: &mut O,
    output: &mut W,
) -> io::Result<bool>
    ensures line { IfOk result (WritesOne spans (O.known opener.old) name.now (W.contents output.old) (W.contents output.new)) }
    ensures keeps { O.known opener.new ≡ O.known opener.old }
{
    if spans {
        write_with_spans(alloc, name, opener, output)
    } else {
        write_line(name, opener, output)
    }
}

// Writes the line for a name, and returns whether it has a size.
fn write_line<O: Open, W: Write>(name: &str, opener: &mut O, output: &mut W) -> io::Result<bool>
    ensures line { IfOk result (WritesLine (O.known opener.old) name.now (W.contents output.old) (W.contents output.new)) }
    ensures keeps { O.known opener.new ≡ O.known opener.old }
{
    match opener.open(name) {
        Ok(mut reader) => {
            let sized = report(name, &mut reader, output);
            opener.close(reader);
            sized
        }
        Err(error) => write_refusal(name, &error, output),
    }
}

// Writes the line for a name and its spans, and returns whether it has a size.
fn write_with_spans<O: Open, W: Write>(
    alloc: Global,
    name: &str,
    opener: &mut O,
    output: &mut W,
) -> io::Result<bool>
    ensures line { IfOk result (WritesSpans (O.known opener.old) name.now (W.contents output.old) (W.contents output.new)) }
    ensures keeps { O.known opener.new ≡ O.known opener.old }
{
    match opener.load(name) {
        Ok(bytes) => write_whole(alloc, name, &bytes, output),
        Err(error) => write_refusal(name, &error, output),
    }
}

// Writes the line and the spans for the bytes of a name, unless these are too many.
fn write_whole<A: Allocator, W: Write>(
    alloc: A,
    name: &str,
    data: &[u8],
    output: &mut W,
) -> io::Result<bool>
    ensures { IfOk result (ReportsWhole «data».now name.now (W.contents output.old) (W.contents output.new)) }
{
    if data.len() > WHOLE {
        return write_too_long(name, output);
    }
    report_spans(alloc, name, data, output)
}

// Writes the line for a file that is too long, and returns false.
fn write_too_long<W: Write>(name: &str, output: &mut W) -> io::Result<bool>
    ensures text { OnOk result (Appends (W.contents output.old) (W.contents output.new)
        (refused_line name.now (codes "file is longer than 16777216 bytes"))) }
    ensures refused { IfOk result (λ sized. sized ≡ false) }
{
    writeln!(output, "{name}: error: file is longer than 16777216 bytes")?;
    Ok(false)
}

/// The program's exit status: the status of the run, or 1 if its output failed.
pub fn exit_code(ended: io::Result<u8>) -> u8
    ensures { result ≡ exit_code ended }
{
    match ended {
        Ok(status) => status,
        Err(_) => 1,
    }
}

#[cfg(test)]
mod tests;
