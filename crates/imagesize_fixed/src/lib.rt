//! Formats with the size at fixed offsets.
#![tactic(auto)]

pub mod formats;
pub mod readings;
