//! What is returned with a fault, and for readers that are interrupted.

use crate::checks::failures::{Call, error_of, fault_of, interruptions, is_same};
use crate::inputs::{GIF, ICON, JPEG_SIZE, jpeg_behind};
use imagesize::{ImageType, reader_probe, reader_size};
use imagesize_readers::readers::{Cutting, Failing, Halting, Interrupted};
use std::io::{self, Cursor, ErrorKind};
use std::test::Fail;

#[test]
fn the_type_beside_a_fault_is_that_of_the_bytes(rt: HostRuntime) {
    for turn in 0..1000u64 {
        let mut reader = Failing {
            reader: Cursor::new(ICON),
            left: Some(turn),
            error: io::Error::from(ErrorKind::Other),
            last: None,
        };
        let probed = reader_probe(&mut reader);
        // The first four calls ask for the offset and the length, go back, and read the twelve bytes of the type.
        let kind = if turn < 4 { None } else { Some(ImageType::Ico) };
        assert_eq!(rt; probed.kind, kind, "call {turn}");
        if probed.answer.is_ok() {
            assert!(rt; reader.left.is_some());
            break;
        }
        assert!(rt; reader.left.is_none());
    }
}

#[test]
fn interrupted_reads_take_no_byte(rt: HostRuntime) {
    for (left, taken, kind) in [(64, 12, Some(ImageType::Gif)), (65, 0, None)] {
        let mut reader = Interrupted {
            reader: Cursor::new(GIF),
            left,
            error: io::Error::from(ErrorKind::Interrupted),
        };
        let probed = reader_probe(&mut reader);
        assert_eq!(rt; probed.taken, taken);
        assert_eq!(rt; probed.kind, kind);
    }
}

// A reader with one byte per read, in which every second read is interrupted.
fn halting(bytes: &[u8], left: u64, error: io::Error) -> Cutting<'static, Halting<'_>> {
    Cutting::one_byte(Halting {
        reader: Interrupted {
            reader: Cursor::new(bytes),
            left,
            error,
        },
        halts: true,
    })
}

#[test]
fn sixty_four_tries_are_those_of_a_whole_call(rt: HostRuntime) -> Result<(), Fail> {
    let bytes = jpeg_behind(rt.alloc(), 100)?;
    for error in interruptions() {
        assert_eq!(rt; reader_size(halting(&bytes, 64, error))?, JPEG_SIZE);
        for call in [Call::Size, Call::Probe, Call::SizeAs(ImageType::Jpeg)] {
            assert!(rt;
                error_of(call, halting(&bytes, 64, error)).is_none(),
                "{call:?}"
            );
            let fault = fault_of(call, halting(&bytes, 65, error)).expect(
                &rt,
                "the last interruption",
            );
            assert!(rt; is_same(rt.alloc(), &fault, &error)?, "{call:?}");
        }
        // The type needs twelve bytes, so that only twelve reads of it are interrupted.
        assert!(rt; error_of(Call::Type, halting(&bytes, 65, error)).is_none());
    }
    Ok(())
}
