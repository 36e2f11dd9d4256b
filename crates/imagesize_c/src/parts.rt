//! Type and size from the parts of an input that the caller has so far.
ghost use Rattle.std.specs.Prelude.{◌≡◌, ℕ, ◌^◌, ◌<◌, List, true, false};
ghost use Rattle.std.specs.Result.{result_ok};
ghost use Rattle.imagesize.specs.Meaning.{kind_of, meaning};
ghost use Rattle.imagesize.specs.Parted.{HasKnown, IsWithin, Wants, texts_of};
ghost use Rattle.imagesize_c.specs.Status.{is_answered, is_stop_status, is_wanted, status_of};
ghost use Rattle.imagesize_c.specs.Told.{TellsSize, TellsType};
ghost use Rattle.imagesize_source.specs.Known.{AllKnown};

use crate::tell::{tell_size, tell_type, tell_wanted};
use imagesize::{PartsAnswer, Span, parts_probe};

/// Reads type and size of the image in an input from the parts that are known, or requests another part.
#[unsafe(no_mangle)]
#[tactic(auto, using(crate::proofs::Statuses::never_wanted, crate::proofs::Statuses::unstopped))]
pub extern "C" fn imagesize_parts_probe(
    bytes: &[u8],
    spans: &[Span],
    total: u64,
    number: &mut u32,
    compression: &mut u32,
    width: &mut u64,
    height: &mut u64,
    wanted: &mut Span,
) -> u32
    // For each input of that length that has the known bytes of these parts:
    ensures status { (d : List ℕ) → HasKnown d total spans.now bytes.now → total < 2 ^ 63 → is_wanted result ≡ false
        → result ≡ status_of (meaning d 0).answer }
    ensures kind { (d : List ℕ) → HasKnown d total spans.now bytes.now → total < 2 ^ 63 → is_wanted result ≡ false
        → TellsType (result_ok (kind_of d 0).answer) number.old number.new compression.old compression.new }
    ensures size { (d : List ℕ) → HasKnown d total spans.now bytes.now → total < 2 ^ 63 → is_wanted result ≡ false
        → TellsSize (meaning d 0).answer width.old width.new height.old height.new }
    ensures wants { (d : List ℕ) → HasKnown d total spans.now bytes.now → total < 2 ^ 63 → is_wanted result ≡ true
        → Wants (texts_of d) (meaning d 0).marks total spans.now bytes.now wanted.new }

    // If the parts have every byte that the result depends on, the call returns it.
    ensures complete { (d : List ℕ) → HasKnown d total spans.now bytes.now → total < 2 ^ 63
        → AllKnown total spans.now bytes.now (meaning d 0).marks → is_wanted result ≡ false }
    ensures fits { is_wanted result ≡ true → IsWithin total wanted.new }

    // A fault, a spent budget or a lack of memory is never the status.
    ensures unstopped { total < 2 ^ 63 → is_stop_status result ≡ false }

    // Values that are not found do not change.
    ensures unknown { is_wanted result ≡ true → (number.new ≡ number.old) × (compression.new ≡ compression.old) }
    ensures sides { is_answered result ≡ false → (width.new ≡ width.old) × (height.new ≡ height.old) }
    ensures enough { is_wanted result ≡ false → wanted.new ≡ wanted.old }
{
    match parts_probe(bytes, spans, total) {
        PartsAnswer::Found((kind, answer)) => {
            tell_type(kind, number, compression);
            tell_size(answer, width, height)
        }
        PartsAnswer::Wanted(span) => tell_wanted(span, wanted),
    }
}
