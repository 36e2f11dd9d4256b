//! Readers that cut, count, are interrupted, fail, lie or never end, and allocators that fail: the tools of the tests. Its
//! own tests are for what the formats need: words and lines, buffered readers, and the texts of errors.
#![tactic(auto)]

pub mod allocators;
#[cfg(test)]
mod buffered;
pub mod readers;
#[cfg(test)]
mod refusals;
#[cfg(test)]
mod texts;
