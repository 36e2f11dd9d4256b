//! The part of an input that a read saw.

/// The `len` bytes of an input from offset `start` on. Offsets count bytes from 0. A span that a call returns has at least 1
/// byte.
#[repr(C)]
#[derive(Clone, Copy, Debug, PartialEq, Eq, Hash)]
pub struct Span {
    pub start: u64,
    pub len: u64,
}
