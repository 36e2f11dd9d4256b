//! Readers as sources: a reader's model and its offset, and how its bytes are read at offsets within a budget.
#![tactic(auto)]

mod block;
pub mod counting;
pub mod file;
pub mod memory;
pub mod progress;
pub mod reader;
pub mod told;
mod window;

pub use file::FileReader;
pub use told::{Stop, Told};
