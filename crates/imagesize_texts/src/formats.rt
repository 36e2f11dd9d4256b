//! Text formats.

pub mod exr;
pub mod hdr;
pub mod pnm;
