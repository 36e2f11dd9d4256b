//! The type of an image and its size in pixels, from the few bytes that contain them.
#![tactic(auto)]

mod calls;
mod file;
#[doc(hidden)]
pub mod formats;
mod laws;
mod memory;
mod names;
mod parts;
mod queries;
mod trace;
mod types;

pub use calls::{
    Probed, blob_probe, blob_size, image_type, reader_probe, reader_size, reader_type,
};
pub use file::size;
pub use imagesize_io::{Stop, Told};
pub use imagesize_source::{ImageError, ImageResult, Reason, Span};
pub use imagesize_types::compression::{
    AtcCompression, Compression, DdsCompression, PkmCompression, PvrtcCompression,
};
pub use imagesize_types::size::ImageSize;
pub use names::TypeName;
pub use parts::{PartsAnswer, parts_probe, parts_type};
pub use trace::{Trace, blob_spans, blob_trace};
pub use types::{CompressionFamily, ImageType};
