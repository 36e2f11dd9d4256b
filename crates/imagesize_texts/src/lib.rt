//! Text formats: the size is written in lines or words.
#![tactic(auto)]

pub mod formats;
mod utf8;
pub mod util;
