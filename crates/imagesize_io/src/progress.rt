//! The counters of a call that reads from a reader.
ghost use Rattle.std.specs.Prelude.{◌≤◌};

use std::io;

/// The numbers that a call keeps beside its reader.
#[derive(Debug, Drop)]
pub struct Progress {
    /// The length of the input in bytes, as the reader reported it.
    pub told: u64,
    /// How many bytes the call may read in all.
    pub budget: u64,
    /// How many bytes the call has read.
    pub taken: u64,
    /// The reader's offset.
    pub offset: u64,
    /// The offset at which the reader is to be left: where the last read ended that gave a byte past the first bytes.
    pub position: u64,
    /// How many interrupted reads were tried again.
    pub retries: u64,
    /// The error of the last failed call of the reader that ended a read; `None` if there was none.
    pub fault: Option<io::Error>,
    ghost within: { taken ≤ budget },
}
