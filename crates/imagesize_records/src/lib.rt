//! What the first bytes of an image say, and the next record of any format whose size is in records.
#![tactic(auto)]

pub mod awaited;
pub mod opening;
pub mod records;
