//! The line for one image.
ghost use Rattle.std.specs.Prelude.{◌≡◌, ◌++◌, IfOk, IfSome, IsSome, OnOk, true, false, is_ok};
ghost use Rattle.std.specs.Fmt.InlineText.{inline_text};
ghost use Rattle.std.specs.Io.KnownBytes.{Appends};
ghost use Rattle.imagesize_probe.specs.Line.{answer_line, one_line, sized_line, refused_line, span_line, span_lines, AppendsLine, Reports, ReportsSpans};
ghost use Rattle.imagesize_probe.specs.Status.{exit_status};

use imagesize::{
    ImageError, ImageResult, ImageSize, ImageType, Reason, Span, Told, Trace, TypeName, blob_trace,
    reader_probe,
};
use std::alloc::Allocator;
use std::fmt::{self, Display, Formatter, InlineText};
use std::io::{self, Write};

/// Writes the line for a reader's bytes, `NAME: KIND WxH` or `NAME: error: TEXT`, and returns whether they have a size.
///
/// Errors: only those of the writer, which may already have a part of the line.
pub fn report<R: Told, W: Write>(name: &str, reader: &mut R, writer: &mut W) -> io::Result<bool>
    ensures line { IfOk result (AppendsLine name.now (W.contents writer.old) (W.contents writer.new)) }
    ensures told { IfOk result (Reports (R.telling reader.old) name.now (W.contents writer.old) (W.contents writer.new)) }
{
    let probed = reader_probe(reader);
    write_line(name, probed.kind, probed.answer, writer)
}

/// Writes the line for a slice, then ` START+LENGTH` for each read, and returns whether the slice has a size. If memory for
/// the spans cannot be allocated, writes only the line for that error and returns false.
///
/// Errors: only those of the writer, which may already have a part of the lines.
pub fn report_spans<A: Allocator, W: Write>(
    alloc: A,
    name: &str,
    data: &[u8],
    writer: &mut W,
) -> io::Result<bool>
    ensures { IfOk result (ReportsSpans «data».now name.now (W.contents writer.old) (W.contents writer.new)) }
{
    match blob_trace(alloc, data) {
        Ok(trace) => write_trace(name, trace, writer),
        Err(_) => write_refusal(name, &ImageError::IoError(Reason::Memory), writer),
    }
}

// Writes the line for a result and one for each of its spans, and returns whether it has a size.
fn write_trace<A: Allocator, W: Write>(
    name: &str,
    trace: Trace<A>,
    writer: &mut W,
) -> io::Result<bool>
    requires typed { OnOk trace.answer (IsSome trace.kind) }
    ensures lines { OnOk result (IfSome (answer_line name.now trace.kind trace.answer)
        (λ text. Appends (W.contents writer.old) (W.contents writer.new) (text ++ span_lines trace.spans.items))) }
    ensures sized { IfOk result (λ sized. sized ≡ is_ok trace.answer) }
{
    let Trace {
        kind,
        answer,
        spans,
    } = trace;
    let sized = write_line(name, kind, answer, writer)?;
    write_spans(&spans, writer)?;
    Ok(sized)
}

// Writes a line for each span.
fn write_spans<W: Write>(spans: &[Span], writer: &mut W) -> io::Result<()>
    ensures { OnOk result (Appends (W.contents writer.old) (W.contents writer.new) (span_lines spans.now)) }
{
    for span in spans {
        write_span(span, writer)?;
    }
    Ok(())
}

// Writes the line for a span.
fn write_span<W: Write>(span: &Span, writer: &mut W) -> io::Result<()>
    ensures { OnOk result (Appends (W.contents writer.old) (W.contents writer.new) (span_line span.now)) }
{
    let Span { start, len } = *span;
    writeln!(writer, "  {start}+{len}")
}

// Writes the line for a result, in which a size comes with a type, and returns whether it is a size.
fn write_line<W: Write>(
    name: &str,
    kind: Option<ImageType>,
    answer: ImageResult<ImageSize>,
    writer: &mut W,
) -> io::Result<bool>
    requires typed { OnOk answer (IsSome kind) }
    ensures text { OnOk result (IfSome (answer_line name.now kind answer)
        (Appends (W.contents writer.old) (W.contents writer.new))) }
    ensures line { IfOk result (AppendsLine name.now (W.contents writer.old) (W.contents writer.new)) }
    ensures sized { IfOk result (λ sized. sized ≡ is_ok answer) }
{
    match answer {
        Ok(size) => write_size(name, kind.unwrap(), size, writer),
        Err(error) => write_refusal(name, &error, writer),
    }
}

/// Writes the line for an image's type and size, and returns true.
fn write_size<W: Write>(
    name: &str,
    image: ImageType,
    size: ImageSize,
    writer: &mut W,
) -> io::Result<bool>
    ensures line { OnOk result (Appends (W.contents writer.old) (W.contents writer.new) (sized_line name.now image size)) }
    ensures sized { IfOk result (λ sized. sized ≡ true) }
{
    let shown = TypeName(image);
    let ImageSize { width, height } = size;
    writeln!(writer, "{name}: {shown} {width}x{height}")?;
    Ok(true)
}

/// Writes the line for an error of any type, with a space for each line feed in its text, and returns false.
///
/// Errors: those of the writer, which may already have a part of the line, and a text of more than 512 bytes. An `io::Error`
/// has at most 256 bytes, and the system's error number after them.
pub fn write_refusal<E: Display + Drop, W: Write>(
    name: &str,
    error: E,
    writer: &mut W,
) -> io::Result<bool>
    ensures text { OnOk result (IfSome (E.output error)
        (λ text. Appends (W.contents writer.old) (W.contents writer.new) (refused_line name.now (one_line text)))) }
    ensures line { IfOk result (AppendsLine name.now (W.contents writer.old) (W.contents writer.new)) }
    ensures sized { IfOk result (λ sized. sized ≡ false) }
{
    let kept = text_of(error)?;
    let text = OneLine(kept.as_str());
    writeln!(writer, "{name}: error: {text}")?;
    Ok(false)
}

// The text of an error. The library does not specify the text of an `io::Error`, so the text is stored before it is written. An
// `ImageError` has fewer than 512 bytes of text.
//
// Errors: the text has more than 512 bytes.
fn text_of<E: Display + Drop>(error: E) -> Result<InlineText<512>, fmt::Error>
    ensures { IfOk result (λ kept. IfSome (E.output error) (λ text. inline_text kept ≡ text)) }
{
    let mut kept = InlineText::new();
    fmt::Write::write(&mut kept, error)?;
    Ok(kept)
}

// Prints a text with a space for each line feed.
#[derive(Clone, Copy)]
struct OneLine<'a>(&'a str);

impl Display for OneLine<'_> {
    ghost use Rattle.std.specs.Prelude.{Some};
    ghost use Rattle.imagesize_probe.specs.Line.{one_line};

    ghost output = { λ line. Some (one_line line.0.now) };

    fn fmt<W: fmt::Write>(&self, f: &mut Formatter<W>) -> fmt::Result {
        let mut rest = self.0;
        while let Some((line, after)) = rest.split_once('\n') {
            f.write_str(line)?;
            f.write_str(" ")?;
            rest = after;
        }
        f.write_str(rest)
    }
}

/// The program's exit status after `files` files: 0 if each has a size, 1 if one has none, and 2 without files.
pub fn status(files: usize, refused: bool) -> u8
    ensures { result ≡ exit_status files refused }
{
    match (files, refused) {
        (0, _) => 2,
        (_, true) => 1,
        (_, false) => 0,
    }
}

#[cfg(test)]
mod tests;
