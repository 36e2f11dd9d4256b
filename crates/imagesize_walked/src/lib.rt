//! Formats whose size is found by a walk along segments, chunks or entries.
#![tactic(auto)]

pub mod formats;
