//! What formats have in common: sizes, and ways to store pixels.
#![tactic(auto)]

pub mod compression;
mod laws;
pub mod size;
