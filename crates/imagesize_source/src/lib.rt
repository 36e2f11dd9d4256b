//! How `imagesize` reads an input: reads at offsets, in plain and in recorded slices, numbers, and errors.
#![tactic(auto)]

pub mod endian;
pub mod error;
pub mod halt;
pub mod part;
pub mod readings;
mod search;
pub mod source;
pub mod span;
pub mod text;
pub mod walk;

pub use endian::Endian;
pub use error::{ImageError, ImageResult, Reason};
pub use halt::Halt;
pub use span::Span;
pub use text::Text;
