//! Callers of `imagesize` as their authors would write them. Each is proved by the contracts of the public calls.
#![tactic(auto)]

pub mod cache;
pub mod document;
pub mod gallery;
pub mod gate;
pub mod joined;
pub mod remote;
#[cfg(test)]
mod tests;
pub mod texture;
pub mod upload;
