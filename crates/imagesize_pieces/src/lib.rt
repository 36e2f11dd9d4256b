//! Inputs that arrive in chunks: what the bytes so far say about every input that begins with them.
#![tactic(auto)]

pub mod arrived;
pub mod buffer;
pub mod first;
pub mod pending;
pub mod stand;
pub mod walk;
