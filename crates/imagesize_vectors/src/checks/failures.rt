//! Readers whose calls fail, and readers that are interrupted.

use crate::table::{Wrong, holds};
use imagesize::{ImageError, ImageType, Reason, Told, reader_probe, reader_size, reader_type};
use imagesize_readers::readers::{Failing, Interrupted};
use std::alloc::{AllocError, Global};
use std::fmt::Display;
use std::io::{self, Cursor, ErrorKind};

/// The calls that take a reader.
#[derive(Clone, Copy, Debug)]
pub enum Call {
    /// `reader_type`
    Type,
    /// `reader_size`
    Size,
    /// `reader_probe`
    Probe,
    /// the size as a type
    SizeAs(ImageType),
}

/// Each call.
pub fn calls(kind: ImageType) -> [Call; 4] {
    [Call::Type, Call::Size, Call::Probe, Call::SizeAs(kind)]
}

/// The error of a call, if there is one.
pub fn error_of<R: Told>(call: Call, mut reader: R) -> Option<ImageError> {
    match call {
        Call::Type => reader_type(reader).err(),
        Call::Size => reader_size(reader).err(),
        Call::Probe => reader_probe(&mut reader).answer.err(),
        Call::SizeAs(kind) => kind.reader_size(&mut reader).err(),
    }
}

/// The error of a call that failed.
pub fn fault_of<R: Told>(call: Call, reader: R) -> Option<io::Error> {
    match error_of(call, reader) {
        Some(ImageError::IoError(Reason::Fault(error))) => Some(error),
        _ => None,
    }
}

/// Whether two errors have the same `ErrorKind`, the same number of the system and the same text.
pub fn is_same(alloc: Global, error: &io::Error, other: &io::Error) -> Result<bool, AllocError> {
    Ok(
        error.kind() == other.kind()
            && error.raw_os_error() == other.raw_os_error()
            && error.to_string(alloc)? == other.to_string(alloc)?,
    )
}

// Errors with an `ErrorKind` alone, a text and a number of the system. Other readers return one of them at their end.
fn failures() -> [io::Error; 4] {
    [
        io::Error::from(ErrorKind::InvalidData),
        io::Error::new(ErrorKind::UnexpectedEof, "the line was cut"),
        io::Error::other("the disk is on fire"),
        io::Error::from_raw_os_error(5),
    ]
}

/// Errors whose `ErrorKind` is `Interrupted`.
pub fn interruptions() -> [io::Error; 3] {
    [
        io::Error::from(ErrorKind::Interrupted),
        io::Error::new(ErrorKind::Interrupted, "a bell rang"),
        io::Error::from_raw_os_error(4),
    ]
}

/// How many calls fail in turn, at most. No input that needs so many calls is tried.
pub const TURNS: u64 = 10_000;

// Each read and seek of a call fails in turn, until one more than the call makes. The fault is that failure.
fn check_turns(alloc: Global, bytes: &[u8], call: Call, failure: io::Error) -> Result<(), Wrong> {
    let mut turns = 0;
    for turn in 0..TURNS {
        let reader = Failing {
            reader: Cursor::new(bytes),
            left: Some(turn),
            error: failure,
            last: None,
        };
        let Some(fault) = fault_of(call, reader) else {
            break;
        };
        holds(is_same(alloc, &fault, &failure)?, "the fault of a failure")?;
        turns = turn + 1;
    }
    // Each call asks for the offset and for the length. Those that detect the type also seek back and read.
    let least = match call {
        Call::SizeAs(_) => 2,
        _ => 4,
    };
    holds(least <= turns && turns < TURNS, "the calls that may fail")
}

/// For these bytes and this type, each read and each seek fails in turn, and the call returns that failure as its fault.
pub fn check_failures(alloc: Global, bytes: &[u8], kind: ImageType) -> Result<(), Wrong> {
    for failure in failures() {
        for call in calls(kind) {
            check_turns(alloc, bytes, call, failure)?;
        }
    }
    Ok(())
}

// 64 interrupted reads change nothing. With one more, the call returns its error as the fault.
fn check_interrupted(
    alloc: Global,
    bytes: &[u8],
    call: Call,
    error: io::Error,
) -> Result<(), Wrong> {
    let reader = |left| Interrupted {
        reader: Cursor::new(bytes),
        left,
        error,
    };
    let refused = error_of(call, Cursor::new(bytes)).is_some();
    let same = error_of(call, reader(64)).is_some() == refused;
    holds(
        same && fault_of(call, reader(64)).is_none(),
        "64 interruptions",
    )?;
    match fault_of(call, reader(65)) {
        Some(fault) => holds(is_same(alloc, &fault, &error)?, "the last interruption"),
        None => Err(Wrong::new("65 interruptions")),
    }
}

/// For these bytes and this type, reads are tried again 64 times in each call.
pub fn check_interruptions(alloc: Global, bytes: &[u8], kind: ImageType) -> Result<(), Wrong> {
    for error in interruptions() {
        for call in calls(kind) {
            check_interrupted(alloc, bytes, call, error)?;
        }
    }
    Ok(())
}
