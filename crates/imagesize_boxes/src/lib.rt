//! Formats that store their size in boxes: HEIF (with HEIC and AVIF) and JPEG XL.
#![tactic(auto)]

pub mod formats;
