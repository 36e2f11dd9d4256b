//! Calls over a slice, and over a reader of its bytes.

use crate::digest::Digest;
use imagesize::{
    ImageType, Span, blob_size, blob_spans, blob_trace, image_type, reader_probe, reader_size,
};
use std::alloc::{AllocError, Global};
use std::io::{BufReader, Cursor};

/// The size of an image.
pub fn size(bytes: &[u8], digest: &mut Digest) {
    digest.add_answer(&blob_size(bytes));
}

/// The size of an image, over a cursor.
pub fn reader_size_of(bytes: &[u8], digest: &mut Digest) {
    digest.add_answer(&reader_size(Cursor::new(bytes)));
}

/// Type and size of an image, over a buffered reader.
pub fn probe_buffered(alloc: Global, bytes: &[u8], digest: &mut Digest) -> Result<(), AllocError> {
    let Ok(mut reader) = BufReader::new(alloc, Cursor::new(bytes)) else {
        return Err(AllocError);
    };
    let probed = reader_probe(&mut reader);
    digest.add_kind(probed.kind);
    digest.add_answer(&probed.answer);
    digest.add(probed.taken);
    Ok(())
}

/// What a texture is.
pub fn kind(bytes: &[u8], digest: &mut Digest) {
    let kind = image_type(bytes).ok();
    digest.add_kind(kind);
    if let Some(kind) = kind {
        add_queries(kind, digest);
    }
}

// Adds what a type says about its compression.
fn add_queries(kind: ImageType, digest: &mut Digest) {
    digest.add(kind.is_block_compressed() as u64);
    digest.add(kind.compression_family().is_some() as u64);
    digest.add(kind.container_format().map_or(0, str::len) as u64);
}

/// The spans that type and size depend on, in new memory.
pub fn trace(alloc: Global, bytes: &[u8], digest: &mut Digest) -> Result<(), AllocError> {
    let trace = blob_trace(alloc, bytes)?;
    digest.add_kind(trace.kind);
    digest.add_answer(&trace.answer);
    digest.add_spans(&trace.spans);
    Ok(())
}

/// The spans that type and size depend on, in a buffer.
pub fn spans(bytes: &[u8], digest: &mut Digest) {
    let mut buffer = [Span { start: 0, len: 0 }; 16];
    let count = blob_spans(bytes, &mut buffer);
    digest.add_spans(&buffer[..count.min(16)]);
}
