//! The results for files.

use imagesize::{ImageError, ImageResult, ImageSize, Reason, size};
use std::fs;
use std::io::{self, ErrorKind};
use std::test::Fail;

// The fault of a file, if there is one.
fn fault_of(answer: ImageResult<ImageSize>) -> Option<io::Error> {
    match answer {
        Err(ImageError::IoError(Reason::Fault(error))) => Some(error),
        _ => None,
    }
}

#[test]
fn a_file_that_cannot_be_opened_is_a_fault(rt: HostRuntime) -> Result<(), Fail> {
    let fault = fault_of(size(&rt, rt.alloc(), "no such file")).expect(&rt, "a fault");
    let error = fs::open(&rt, "no such file").expect_err(&rt, "a file that is not there");
    assert_eq!(rt; fault.kind(), ErrorKind::NotFound);
    assert_eq!(rt; fault.raw_os_error(), error.raw_os_error());
    Ok(())
}

#[test]
fn a_folder_is_a_fault(rt: HostRuntime) {
    let fault = fault_of(size(&rt, rt.alloc(), ".")).expect(&rt, "a fault");
    assert_eq!(rt; fault.kind(), ErrorKind::IsADirectory);
}

#[test]
fn a_file_of_no_bytes_ends_at_once(rt: HostRuntime) {
    let answer = size(&rt, rt.alloc(), "/dev/null");
    assert!(rt; matches!(answer, Err(ImageError::IoError(Reason::EndOfInput))));
}
