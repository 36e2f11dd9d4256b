//! The calls, and their names.

mod chunks;
mod parts;
mod readers;
mod slices;

use crate::results::Results;
use Call::{Reader, Slice};
use imagesize::{ImageType, Span, size};
use readers::ReaderCall;
use readers::Wrapped::{self, Buffer, Cursor, File};
use slices::SliceCall;
use std::alloc::Global;
use std::io;
use std::rt::Files;

/// A public call, and how it gets its input.
#[derive(Clone, Copy)]
pub enum Call {
    /// A call over all bytes in memory.
    Slice(SliceCall),
    /// A call over a reader.
    Reader(ReaderCall, Wrapped),
    /// `size` of the file.
    Path,
    /// A `StreamProbe` that gets chunks of so many bytes.
    Stream(usize),
    /// A `PartsProbe` that gets the requested spans.
    Rounds,
    /// A `PartsProbe` that gets blocks of so many bytes, each from the offset of a requested span.
    Blocks(usize),
    /// `parts_probe` of all bytes as one part.
    Parts,
    /// `parts_probe` in rounds, of all spans that were requested so far.
    PartsList,
    /// `parts_type` of all bytes as one part.
    PartsType,
    /// `ImageType::parts_size` of all bytes as one part, by the type that the input has.
    PartsByType,
    /// `parts_size` of `imagesize_png`, of all bytes as one part.
    PngParts,
}

/// The names of the calls.
pub const CALLS: [(&str, Call); 35] = [
    ("type", Slice(SliceCall::Type)),
    ("size", Slice(SliceCall::Size)),
    ("spans", Slice(SliceCall::Spans)),
    ("count", Slice(SliceCall::Count)),
    ("trace", Slice(SliceCall::Trace)),
    ("reader_type", Reader(ReaderCall::Type, Cursor)),
    ("reader_type_buffered", Reader(ReaderCall::Type, Buffer)),
    ("reader", Reader(ReaderCall::Size, Cursor)),
    ("buffered", Reader(ReaderCall::Size, Buffer)),
    ("file", Reader(ReaderCall::Size, File)),
    ("path", Call::Path),
    ("probe", Reader(ReaderCall::Probe, Cursor)),
    ("probe_buffered", Reader(ReaderCall::Probe, Buffer)),
    ("by_type", Reader(ReaderCall::SizeByType, Cursor)),
    ("by_type_buffered", Reader(ReaderCall::SizeByType, Buffer)),
    ("admit", Reader(ReaderCall::Admit, Cursor)),
    ("admit_buffered", Reader(ReaderCall::Admit, Buffer)),
    ("stream", Call::Stream(usize::MAX)),
    ("stream_4096", Call::Stream(4_096)),
    ("stream_1400", Call::Stream(1_400)),
    ("stream_16", Call::Stream(16)),
    ("stream_8", Call::Stream(8)),
    ("stream_2", Call::Stream(2)),
    ("stream_1", Call::Stream(1)),
    ("rounds", Call::Rounds),
    ("blocks_4096", Call::Blocks(4_096)),
    ("blocks_16", Call::Blocks(16)),
    ("blocks_1", Call::Blocks(1)),
    ("parts", Call::Parts),
    ("parts_list", Call::PartsList),
    ("parts_type", Call::PartsType),
    ("parts_by_type", Call::PartsByType),
    ("png", Slice(SliceCall::PngSize)),
    ("png_reader", Reader(ReaderCall::PngSize, Cursor)),
    ("png_parts", Call::PngParts),
];

/// A file, its bytes, and the type that its first bytes have.
#[derive(Drop)]
pub struct Input<'a> {
    pub file: &'a str,
    pub data: &'a [u8],
    pub image: Option<ImageType>,
}

/// The memory that calls write into. It is allocated once.
#[derive(Drop)]
pub struct Buffers {
    spans: [Span; 512],
    bytes: Vec<u8>,
}

impl Buffers {
    /// Buffers without contents.
    pub fn new(alloc: Global) -> Buffers {
        Buffers {
            spans: [Span { start: 0, len: 0 }; 512],
            bytes: Vec::new(alloc),
        }
    }
}

/// Makes a call on an input, and adds its result.
///
/// Errors: a buffer could not be allocated, or the file could not be opened.
pub fn make<F: Files + AllocGlobal, R: Results>(
    rt: &F,
    call: Call,
    input: &Input,
    buffers: &mut Buffers,
    results: &mut R,
) -> io::Result<()> {
    let data = input.data;
    match call {
        Slice(call) => slices::make(rt.alloc(), call, data, &mut buffers.spans, results)?,
        Reader(call, wrapped) => readers::make(rt, call, wrapped, input, results)?,
        Call::Path => add_size_of_file(rt, input.file, results),
        Call::Stream(length) => chunks::push(data, length, results),
        Call::Rounds => parts::rounds(data, usize::MAX, results),
        Call::Blocks(length) => parts::rounds(data, length, results),
        Call::Parts => parts::whole(data, results),
        Call::PartsList => parts::list(data, &mut buffers.spans, &mut buffers.bytes, results)?,
        Call::PartsType => parts::whole_type(data, results),
        Call::PartsByType => parts::whole_by_type(data, input.image, results),
        Call::PngParts => parts::whole_png(data, results),
    }
    Ok(())
}

#[inline(never)]
fn add_size_of_file<F: Files + AllocGlobal, R: Results>(rt: &F, file: &str, results: &mut R) {
    results.add_size(size(rt, rt.alloc(), file));
}
