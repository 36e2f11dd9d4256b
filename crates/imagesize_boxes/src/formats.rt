//! Formats of one compression, in boxes.

pub mod heif;
pub mod jxl;
