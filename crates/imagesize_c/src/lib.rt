//! The calls of `imagesize` for C, and for languages that call C. `include/imagesize.h` says how to call them, and
//! `docs/PROMISES.md` says what is proved about them.
#![tactic(auto)]

pub mod calls;
mod laws;
mod numbers;
pub mod parts;
pub mod parts_alone;
pub mod png;
pub mod queries;
pub mod rounds;
pub mod spans;
mod status;
pub mod streams;
mod tell;
pub mod texts;
