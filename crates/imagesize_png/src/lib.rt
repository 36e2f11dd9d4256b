//! PNG: the size in pixels, from the signature and the image header.
//!
//! The calls of `imagesize` leave PNG out. These calls support only PNG, and read inputs in the same way.
#![tactic(auto)]

mod calls;
mod format;
mod parts;
#[cfg(test)]
mod tests;

pub use calls::{blob_size, reader_size};
pub use format::is_png;
pub use imagesize::PartsAnswer;
pub use imagesize_io::Told;
pub use imagesize_source::{ImageError, ImageResult, Reason, Span};
pub use imagesize_types::size::ImageSize;
pub use parts::parts_size;
