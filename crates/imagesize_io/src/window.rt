//! The first bytes of an input, kept as they were read.
ghost use Rattle.std.specs.Prelude.{◌≡◌};
ghost use Rattle.imagesize_io.specs.ReaderState.{kept_window};

use arrayvec::ArrayVec;

// How many of the first bytes a reader's source keeps.
pub(crate) const WINDOW: usize = 32;

/// The first bytes of an input.
pub(crate) type Window = ArrayVec<u8, WINDOW>;

// Keeps bytes that were read at an offset, if they come right after the window, as far as they fit.
#[inline(always)]
pub(crate) fn keep(window: &mut Window, offset: u64, bytes: &[u8])
    ensures { window.new.items ≡ kept_window window.old.items offset bytes.now }
{
    if offset != window.len() as u64 || window.try_extend_from_slice(bytes).is_ok() {
        return;
    }
    // As many bytes as still fit.
    let kept = window.remaining_capacity();
    let _ = window.try_extend_from_slice(&bytes[..kept]);
}
