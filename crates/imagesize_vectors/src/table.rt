//! The table of test vectors: one row per line, with its cells separated by tabs.

use imagesize::Span;
use std::alloc::{AllocError, AllocFailed, Global};
use std::fmt;

/// A test vector, with its expected result.
#[derive(Drop)]
pub struct Row<'a> {
    /// What it shows.
    pub shows: &'a str,
    /// Its bytes.
    pub bytes: Vec<u8>,
    /// Its type, or `-` for none.
    pub kind: &'a str,
    /// Its size, as `100x100`, or its error.
    pub answer: &'a str,
    /// The spans of its reads, in order, if they are compared.
    pub spans: Option<Vec<Span>>,
    /// How many bytes a reader gives for its type and its size, if they are compared.
    pub taken: Option<u64>,
}

/// What is wrong with a row.
#[derive(Clone, Copy, Debug, Drop)]
pub struct Wrong {
    /// What it is.
    pub what: &'static str,
    /// How many there are, if these are too many.
    pub count: Option<u64>,
}

impl Wrong {
    /// This mistake, in a row as a whole.
    pub fn new(what: &'static str) -> Wrong {
        Wrong { what, count: None }
    }
}

impl From<AllocError> for Wrong {
    fn from(_error: AllocError) -> Wrong {
        Wrong::new("memory is out")
    }
}

impl<T: Drop> From<AllocFailed<T>> for Wrong {
    fn from(_error: AllocFailed<T>) -> Wrong {
        Wrong::new("memory is out")
    }
}

impl fmt::Display for Wrong {
    fn fmt<W: fmt::Write>(&self, f: &mut fmt::Formatter<W>) -> fmt::Result {
        let what = self.what;
        match self.count {
            Some(count) => write!(f, "{what}: {count}"),
            None => write!(f, "{what}"),
        }
    }
}

/// `Ok` if this is so, and else what is wrong.
pub fn holds(is_so: bool, what: &'static str) -> Result<(), Wrong> {
    if is_so { Ok(()) } else { Err(Wrong::new(what)) }
}

/// The row of a line.
pub fn row_of<'a>(alloc: Global, line: &'a str) -> Result<Row<'a>, Wrong> {
    let (shows, rest) = first_cell(line)?;
    let (bytes, rest) = first_cell(rest)?;
    let (kind, rest) = first_cell(rest)?;
    let (answer, rest) = first_cell(rest)?;
    let (spans, taken) = first_cell(rest)?;
    Ok(Row {
        shows,
        bytes: bytes_of(alloc, bytes)?,
        kind,
        answer,
        spans: spans_of(alloc, spans)?,
        taken: if taken == "?" {
            None
        } else {
            Some(number_of(taken)?)
        },
    })
}

// The first cell, and the others.
fn first_cell(cells: &str) -> Result<(&str, &str), Wrong> {
    cells
        .split_once('\t')
        .ok_or(Wrong::new("a row of six cells is wanted"))
}

fn number_of(text: &str) -> Result<u64, Wrong> {
    text.parse::<u64>()
        .ok()
        .ok_or(Wrong::new("a number is wanted"))
}

// The bytes that a text writes: groups in hex, each with how often it repeats, or `-` for no byte.
fn bytes_of(alloc: Global, text: &str) -> Result<Vec<u8>, Wrong> {
    let mut bytes = Vec::new(alloc);
    if text == "-" {
        return Ok(bytes);
    }
    for group in text.split(' ') {
        let (digits, times) = match group.split_once('*') {
            Some((digits, times)) => (digits, number_of(times)?),
            None => (group, 1),
        };
        let part = decoded(alloc, digits)?;
        extend_times(&mut bytes, &part, times)?;
    }
    Ok(bytes)
}

// The bytes of a group, of two digits each.
fn decoded(alloc: Global, digits: &str) -> Result<Vec<u8>, Wrong> {
    let mut bytes = Vec::new(alloc);
    for pair in digits.as_bytes().chunks(2) {
        holds(pair.len() == 2, "two digits a byte are wanted")?;
        let byte = str::from_utf8(pair)
            .ok()
            .and_then(|pair| u8::from_str_radix(pair, 16).ok());
        bytes.push(byte.ok_or(Wrong::new("bytes in hex are wanted"))?)?;
    }
    Ok(bytes)
}

// Appends a part to the bytes, so many times.
fn extend_times(bytes: &mut Vec<u8>, part: &[u8], times: u64) -> Result<(), AllocError> {
    for _ in 0..times {
        bytes.extend_from_slice(part)?;
    }
    Ok(())
}

// The spans that a text writes, as `0+12 6+2`: `-` for none, and `?` if they are not compared.
fn spans_of(alloc: Global, text: &str) -> Result<Option<Vec<Span>>, Wrong> {
    let mut spans = Vec::new(alloc);
    match text {
        "?" => return Ok(None),
        "-" => return Ok(Some(spans)),
        _ => {}
    }
    for span in text.split(' ') {
        let (start, len) = span.split_once('+').ok_or(Wrong::new("a span is wanted"))?;
        spans.push(Span {
            start: number_of(start)?,
            len: number_of(len)?,
        })?;
    }
    Ok(Some(spans))
}
