//! The position of a walk.
ghost use Rattle.std.specs.Prelude.{◌<◌, ◌≤◌, ◌^◌};

/// The position of a walk along the records of an input that arrives in chunks.
#[derive(Clone, Copy)]
pub struct Stand {
    /// The offset of the first byte in the buffer.
    pub start: u64,
    /// The offset of the next record.
    pub offset: u64,
    /// How many bytes arrived.
    pub passed: u64,
    /// The offset after the last byte that is requested.
    pub end: u64,
    /// How many bytes the input has at most.
    pub told: u64,
    ghost ahead: { start ≤ offset },
    ghost fits: { passed ≤ told },
    ghost short: { told < 2 ^ 63 },
}
