//! Calls over readers. Each is in a function of its own, as those over slices are.

use crate::calls::Input;
use crate::results::{Results, add_found_type};
use imagesize::{ImageType, Told, reader_probe, reader_size, reader_type};
use imagesize_uses::gate::{Rejection, admit};
use std::alloc::Global;
use std::fs;
use std::io::{self, BufReader, Cursor};
use std::rt::Files;

/// A call over a reader.
#[derive(Clone, Copy)]
pub enum ReaderCall {
    /// `reader_type`.
    Type,
    /// `reader_size`.
    Size,
    /// `reader_probe`.
    Probe,
    /// `ImageType::reader_size`, by the type that the input has.
    SizeByType,
    /// `admit` of `imagesize_uses`, for images of at most 50 million pixels.
    Admit,
    /// `reader_size` of `imagesize_png`.
    PngSize,
}

/// The reader of an input.
#[derive(Clone, Copy)]
pub enum Wrapped {
    /// A cursor over the bytes.
    Cursor,
    /// A `BufReader` over such a cursor.
    Buffer,
    /// A `BufReader` over the file, which is opened anew.
    File,
}

/// Makes a call on a reader of an input, and adds its result.
pub fn make<F: Files + AllocGlobal, R: Results>(
    rt: &F,
    call: ReaderCall,
    wrapped: Wrapped,
    input: &Input,
    results: &mut R,
) -> io::Result<()> {
    match wrapped {
        Wrapped::Cursor => add_over_cursor(call, input, results),
        Wrapped::Buffer => return add_over_buffer(rt.alloc(), call, input, results),
        Wrapped::File => return add_over_file(rt, call, input, results),
    }
    Ok(())
}

#[inline(never)]
fn add_over_cursor<R: Results>(call: ReaderCall, input: &Input, results: &mut R) {
    add(call, Cursor::new(input.data), input.image, results);
}

#[inline(never)]
fn add_over_buffer<R: Results>(
    alloc: Global,
    call: ReaderCall,
    input: &Input,
    results: &mut R,
) -> io::Result<()> {
    let reader = BufReader::new(alloc, Cursor::new(input.data))?;
    add(call, reader, input.image, results);
    Ok(())
}

#[inline(never)]
fn add_over_file<F: Files + AllocGlobal, R: Results>(
    rt: &F,
    call: ReaderCall,
    input: &Input,
    results: &mut R,
) -> io::Result<()> {
    let reader = BufReader::new(rt.alloc(), fs::open(rt, input.file)?)?;
    add(call, reader, input.image, results);
    Ok(())
}

// Makes a call on a reader, and adds its result.
fn add<T: Told, R: Results>(
    call: ReaderCall,
    mut reader: T,
    image: Option<ImageType>,
    results: &mut R,
) {
    match call {
        ReaderCall::Type => add_type(reader, results),
        ReaderCall::Size => add_size(reader, results),
        ReaderCall::Probe => add_probed(&mut reader, results),
        ReaderCall::SizeByType => add_size_by_type(&mut reader, image, results),
        ReaderCall::Admit => add_admission(&mut reader, results),
        ReaderCall::PngSize => add_png_size(&mut reader, results),
    }
}

#[inline(never)]
fn add_type<T: Told, R: Results>(reader: T, results: &mut R) {
    add_found_type(reader_type(reader), results);
}

#[inline(never)]
fn add_size<T: Told, R: Results>(reader: T, results: &mut R) {
    results.add_size(reader_size(reader));
}

#[inline(never)]
fn add_probed<T: Told, R: Results>(reader: &mut T, results: &mut R) {
    let probed = reader_probe(reader);
    results.add_type(probed.kind);
    results.add_size(probed.answer);
    results.add_read(probed.taken);
}

#[inline(never)]
fn add_size_by_type<T: Told, R: Results>(
    reader: &mut T,
    image: Option<ImageType>,
    results: &mut R,
) {
    if let Some(image) = image {
        results.add_size(image.reader_size(reader));
    }
}

#[inline(never)]
fn add_admission<T: Told, R: Results>(reader: &mut T, results: &mut R) {
    let admission = admit(reader, 50_000_000);
    match admission.verdict {
        Ok(size) => results.add_size(Ok(size)),
        Err(Rejection::TooLarge(size)) => results.add_too_large(size),
        Err(Rejection::NoSize(error)) => results.add_size(Err(error)),
    }
    results.add_read(admission.taken);
}

#[inline(never)]
fn add_png_size<T: Told, R: Results>(reader: &mut T, results: &mut R) {
    results.add_size(imagesize_png::reader_size(reader));
}
