//! The type of an image and its size in pixels, from bytes that arrive in chunks.
#![tactic(auto)]

mod hear;
mod laws;
mod parts;
mod probe;
mod stage;

pub use laws::probe_two;
pub use parts::PartsProbe;
pub use probe::StreamProbe;
