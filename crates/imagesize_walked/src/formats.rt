//! Image formats whose size is in one of a sequence of segments, chunks or entries.

pub mod ico;
pub mod ilbm;
pub mod jpeg;
pub mod tiff;
