//! The type alone, or the size by a given type, from the parts of an input that the caller has so far.
ghost use Rattle.std.specs.Prelude.{◌≡◌, ℕ, ◌^◌, ◌<◌, List, true, false, None, IfSome};
ghost use Rattle.std.specs.Result.{result_ok};
ghost use Rattle.imagesize.specs.Meaning.{kind_of, size_of};
ghost use Rattle.imagesize.specs.Parted.{HasKnown, IsWithin, Wants, has_texts};
ghost use Rattle.imagesize_c.specs.Numbers.{type_numbered};
ghost use Rattle.imagesize_c.specs.Status.{is_answered, is_stop_status, is_wanted, status_of};
ghost use Rattle.imagesize_c.specs.Told.{TellsSize, TellsType};
ghost use Rattle.imagesize_source.specs.Known.{AllKnown};

use crate::numbers::type_numbered;
use crate::status::UNKNOWN_TYPE;
use crate::tell::{tell_found, tell_size, tell_wanted};
use imagesize::{PartsAnswer, Span, parts_type};

/// Detects the type of the image in an input from the parts that are known, or requests another part.
#[unsafe(no_mangle)]
#[tactic(auto, using(crate::proofs::Statuses::never_wanted, crate::proofs::Statuses::unstopped))]
pub extern "C" fn imagesize_parts_type(
    bytes: &[u8],
    spans: &[Span],
    total: u64,
    number: &mut u32,
    compression: &mut u32,
    wanted: &mut Span,
) -> u32
    // For each input of that length that has the known bytes of these parts:
    ensures status { (d : List ℕ) → HasKnown d total spans.now bytes.now → total < 2 ^ 63 → is_wanted result ≡ false
        → result ≡ status_of (kind_of d 0).answer }
    ensures told { (d : List ℕ) → HasKnown d total spans.now bytes.now → total < 2 ^ 63 → is_wanted result ≡ false
        → TellsType (result_ok (kind_of d 0).answer) number.old number.new compression.old compression.new }
    ensures wants { (d : List ℕ) → HasKnown d total spans.now bytes.now → total < 2 ^ 63 → is_wanted result ≡ true
        → Wants false (kind_of d 0).marks total spans.now bytes.now wanted.new }

    // If the parts have every byte that the type depends on, the call returns it.
    ensures complete { (d : List ℕ) → HasKnown d total spans.now bytes.now → total < 2 ^ 63
        → AllKnown total spans.now bytes.now (kind_of d 0).marks → is_wanted result ≡ false }
    ensures fits { is_wanted result ≡ true → IsWithin total wanted.new }

    // A fault, a spent budget or a lack of memory is never the status.
    ensures unstopped { total < 2 ^ 63 → is_stop_status result ≡ false }

    // Values that are not found do not change.
    ensures unknown { is_answered result ≡ false → (number.new ≡ number.old) × (compression.new ≡ compression.old) }
    ensures enough { is_wanted result ≡ false → wanted.new ≡ wanted.old }
{
    match parts_type(bytes, spans, total) {
        PartsAnswer::Found(answer) => tell_found(answer, number, compression),
        PartsAnswer::Wanted(span) => tell_wanted(span, wanted),
    }
}

/// Reads the size of the image in an input, as the type with these numbers, from the parts that are known, or requests
/// another part.
#[unsafe(no_mangle)]
#[tactic(auto, using(crate::proofs::Statuses::never_wanted, crate::proofs::Statuses::unstopped))]
pub extern "C" fn imagesize_parts_size(
    number: u32,
    compression: u32,
    bytes: &[u8],
    spans: &[Span],
    total: u64,
    width: &mut u64,
    height: &mut u64,
    wanted: &mut Span,
) -> u32
    // Read as this type, for each input of that length that has the known bytes of these parts:
    ensures status { IfSome (type_numbered number compression) (λ image. (d : List ℕ) → HasKnown d total spans.now bytes.now
        → total < 2 ^ 63 → is_wanted result ≡ false → result ≡ status_of (size_of image d).answer) }
    ensures size { IfSome (type_numbered number compression) (λ image. (d : List ℕ) → HasKnown d total spans.now bytes.now
        → total < 2 ^ 63 → is_wanted result ≡ false → TellsSize (size_of image d).answer width.old width.new height.old height.new) }
    ensures wants { IfSome (type_numbered number compression) (λ image. (d : List ℕ) → HasKnown d total spans.now bytes.now
        → total < 2 ^ 63 → is_wanted result ≡ true → Wants (has_texts image) (size_of image d).marks total spans.now bytes.now wanted.new) }

    // If the parts have every byte that the size depends on, the call returns it.
    ensures complete { IfSome (type_numbered number compression) (λ image. (d : List ℕ) → HasKnown d total spans.now bytes.now
        → total < 2 ^ 63 → AllKnown total spans.now bytes.now (size_of image d).marks → is_wanted result ≡ false) }
    ensures fits { is_wanted result ≡ true → IsWithin total wanted.new }

    // A fault, a spent budget or a lack of memory is never the status.
    ensures unstopped { total < 2 ^ 63 → is_stop_status result ≡ false }

    // If no type has the numbers, the status says so. Values that are not found do not change.
    ensures unknown { type_numbered number compression ≡ None → result ≡ 28 }
    ensures sides { is_answered result ≡ false → (width.new ≡ width.old) × (height.new ≡ height.old) }
    ensures enough { is_wanted result ≡ false → wanted.new ≡ wanted.old }
{
    let Some(image) = type_numbered(number, compression) else {
        return UNKNOWN_TYPE;
    };
    match image.parts_size(bytes, spans, total) {
        PartsAnswer::Found(answer) => tell_size(answer, width, height),
        PartsAnswer::Wanted(span) => tell_wanted(span, wanted),
    }
}
