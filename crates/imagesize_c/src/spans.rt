//! The bytes that a result depends on, in the caller's buffer.
ghost use Rattle.std.specs.Prelude.{◌≡◌, ◌+◌, ◌≤◌, length, take};
ghost use Rattle.imagesize.specs.Meaning.{meaning};
ghost use Rattle.imagesize.specs.Traced.{AreWithin};
ghost use Rattle.imagesize_c.specs.Lends.{Lends};
ghost use Rattle.imagesize_source.specs.Limits.{allowance};

use crate::status::{ANSWERED, BUFFER_TOO_SMALL};
use imagesize::{Span, blob_spans};

/// The spans of the reads that find type and size of the image in some bytes, in order and with repeats.
#[unsafe(no_mangle)]
pub extern "C" fn imagesize_spans(bytes: &[u8], spans: &mut [Span], count: &mut usize) -> u32
    ensures lends { Lends (meaning bytes.now 0).marks spans.old spans.new count.new result }

    // Each span has a byte and lies within the input. There are at most as many as the input has bytes, plus 64.
    ensures cuts { count.new ≤ length spans.old → AreWithin (length bytes.now) (take count.new spans.new) }
    ensures few { count.new ≤ length bytes.now + allowance }
{
    *count = blob_spans(bytes, spans);
    if *count > spans.len() {
        return BUFFER_TOO_SMALL;
    }
    ANSWERED
}
