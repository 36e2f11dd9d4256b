//! PNG, which the other calls leave out.
ghost use Rattle.std.specs.Prelude.{◌≡◌, ℕ, ◌^◌, ◌<◌, List, true, false};
ghost use Rattle.std.specs.Int.{from_bool};
ghost use Rattle.imagesize.specs.Parted.{HasKnown, IsWithin, Wants};
ghost use Rattle.imagesize_c.specs.Status.{is_answered, is_stop_status, is_wanted, status_of};
ghost use Rattle.imagesize_c.specs.Told.{TellsSize};
ghost use Rattle.imagesize_png.specs.Png.{is_png, png_of};
ghost use Rattle.imagesize_source.specs.Known.{AllKnown};

use crate::status::ANSWERED;
use crate::tell::{tell_size, tell_wanted};
use imagesize::{PartsAnswer, Span};
use imagesize_png::{blob_size, is_png, parts_size};

/// Whether some bytes begin with the signature of PNG: 1 if they do, and else 0.
#[unsafe(no_mangle)]
pub extern "C" fn imagesize_png_matches(bytes: &[u8], answer: &mut u32) -> u32
    ensures status { result ≡ 0 }
    ensures told { answer.new ≡ from_bool (is_png bytes.now) }
{
    *answer = u32::from(is_png(bytes));
    ANSWERED
}

/// Reads the size in pixels of the PNG in some bytes. With an error width and height do not change.
#[unsafe(no_mangle)]
#[tactic(auto, using(crate::proofs::Statuses::unstopped))]
pub extern "C" fn imagesize_png_size(bytes: &[u8], width: &mut u64, height: &mut u64) -> u32
    ensures status { result ≡ status_of (png_of bytes.now 0).answer }
    ensures unstopped { is_stop_status result ≡ false }
    ensures told { TellsSize (png_of bytes.now 0).answer width.old width.new height.old height.new }
{
    tell_size(blob_size(bytes), width, height)
}

/// Reads the size in pixels of the PNG in an input from the parts that are known, or requests another part.
#[unsafe(no_mangle)]
#[tactic(auto, using(crate::proofs::Statuses::never_wanted, crate::proofs::Statuses::unstopped))]
pub extern "C" fn imagesize_png_parts_size(
    bytes: &[u8],
    spans: &[Span],
    total: u64,
    width: &mut u64,
    height: &mut u64,
    wanted: &mut Span,
) -> u32
    // For each input of that length that has the known bytes of these parts:
    ensures status { (d : List ℕ) → HasKnown d total spans.now bytes.now → total < 2 ^ 63 → is_wanted result ≡ false
        → result ≡ status_of (png_of d 0).answer }
    ensures size { (d : List ℕ) → HasKnown d total spans.now bytes.now → total < 2 ^ 63 → is_wanted result ≡ false
        → TellsSize (png_of d 0).answer width.old width.new height.old height.new }
    ensures wants { (d : List ℕ) → HasKnown d total spans.now bytes.now → total < 2 ^ 63 → is_wanted result ≡ true
        → Wants false (png_of d 0).marks total spans.now bytes.now wanted.new }

    // If the parts have every byte that the size depends on, the call returns it.
    ensures complete { (d : List ℕ) → HasKnown d total spans.now bytes.now → total < 2 ^ 63
        → AllKnown total spans.now bytes.now (png_of d 0).marks → is_wanted result ≡ false }
    ensures fits { is_wanted result ≡ true → IsWithin total wanted.new }

    // A fault, a spent budget or a lack of memory is never the status.
    ensures unstopped { total < 2 ^ 63 → is_stop_status result ≡ false }

    // Values that are not found do not change.
    ensures sides { is_answered result ≡ false → (width.new ≡ width.old) × (height.new ≡ height.old) }
    ensures enough { is_wanted result ≡ false → wanted.new ≡ wanted.old }
{
    match parts_size(bytes, spans, total) {
        PartsAnswer::Found(answer) => tell_size(answer, width, height),
        PartsAnswer::Wanted(span) => tell_wanted(span, wanted),
    }
}
