//! Type and size of an image from spans of it that the caller fetches, in rounds. The caller keeps no span and no byte.
ghost use Rattle.std.specs.Prelude.{◌≡◌, ◌⊎◌, ℕ, ◌<◌, ◌≤◌, List, true, false};
ghost use Rattle.std.specs.Borrow.{full_share, sem};
ghost use Rattle.std.specs.Ptr.{lies_at, room_at};
ghost use Rattle.std.specs.Result.{result_ok};
ghost use Rattle.imagesize.specs.Meaning.{kind_of, meaning};
ghost use Rattle.imagesize.specs.Parted.{IsWithin, texts_of};
ghost use Rattle.imagesize_c.specs.Rounds.{EndsEarly, Opens, TakesPart, TellsNext};
ghost use Rattle.imagesize_c.specs.Status.{is_answered, is_stop_status, is_wanted, status_of};
ghost use Rattle.imagesize_c.specs.Told.{TellsSize, TellsType};
ghost use Rattle.imagesize_pieces.specs.Stream.{AllBelow};
ghost use Rattle.imagesize_stream.specs.Parts.{HasMarked, MayBe, next_of, total_of};
ghost use Rattle.imagesize_stream.specs.contracts.parts.PartsProbe.{the_row};
ghost use Rattle.imagesize_stream.specs.declared.parts.PartsProbe.{PartsProbe};

use crate::tell::{tell_size, tell_type, tell_wanted};
use imagesize::{PartsAnswer, Span};
use imagesize_stream::PartsProbe;

// The header declares a probe as so many bytes, with the alignment of a `uint64_t`.
const _: () = prove!(size_of::<PartsProbe>() <= 1280);

const _: () = prove!(align_of::<PartsProbe>() <= 8);

/// Begins an input of `total` bytes in the caller's memory, whatever the memory holds.
#[unsafe(no_mangle)]
pub unsafe extern "C" fn imagesize_rounds_new(parts: *mut PartsProbe, total: u64)
    requires* { sem 𝓛 (room_at the_row parts) }
    ensures* { ∃ₛ (λ (after : PartsProbe). sem 𝓛 (lies_at the_row full_share parts after) ∗ ⌜ Opens after total ⌝) }
{
    std::ptr::write(parts, begin(total));
}

/// Passes the bytes from an offset on: those of the requested span, or more of them, or fewer.
#[unsafe(no_mangle)]
pub unsafe extern "C" fn imagesize_rounds_supply(parts: *mut PartsProbe, offset: u64, bytes: &[u8])
    ghost held: { PartsProbe }
    requires* { sem 𝓛 (lies_at the_row full_share parts held) }
    ensures* { ∃ₛ (λ (after : PartsProbe). sem 𝓛 (lies_at the_row full_share parts after) ∗ ⌜ TakesPart held after offset bytes.now ⌝) }
{
    supply_to(&mut *parts, offset, bytes);
}

/// Reads type and size from the spans that were passed, or requests another span. The memory does not change.
#[unsafe(no_mangle)]
pub unsafe extern "C" fn imagesize_rounds_answer(
    parts: *const PartsProbe,
    number: &mut u32,
    compression: &mut u32,
    width: &mut u64,
    height: &mut u64,
    wanted: &mut Span,
) -> u32
    ghost held: { PartsProbe }
    requires* { sem 𝓛 (lies_at the_row full_share parts held) }

    // For each input of this length that has the spans that were passed:
    ensures status { (d : List ℕ) → MayBe held d → is_wanted result ≡ false → result ≡ status_of (meaning d 0).answer }
    ensures kind { (d : List ℕ) → MayBe held d → is_wanted result ≡ false
        → TellsType (result_ok (kind_of d 0).answer) number.old number.new compression.old compression.new }
    ensures size { (d : List ℕ) → MayBe held d → is_wanted result ≡ false
        → TellsSize (meaning d 0).answer width.old width.new height.old height.new }
    ensures wants { (d : List ℕ) → MayBe held d → is_wanted result ≡ true → AllBelow wanted.new.start (meaning d 0).marks → ⊥ }

    // The result depends on a byte of the span that is requested, unless that is the rest of the first 18 bytes.
    ensures within { (d : List ℕ) → MayBe held d → is_wanted result ≡ true → (wanted.new.start < 12) ⊎ (18 ≤ wanted.new.start)
        → HasMarked wanted.new d }
    ensures fits { is_wanted result ≡ true → IsWithin (total_of held) wanted.new }

    // The span has 1,024 bytes at most. Unless the type is a text format, it has 132 at most. Past the first 18 bytes, it then ends
    // where a read ends that the result depends on.
    ensures short { is_wanted result ≡ true → (wanted.new.len ≤ 1024) × EndsEarly held wanted.new }
    ensures shorter { (d : List ℕ) → MayBe held d → is_wanted result ≡ true → texts_of d ≡ false → wanted.new.len ≤ 132 }

    // Values that are not found do not change.
    ensures unknown { is_wanted result ≡ true → (number.new ≡ number.old) × (compression.new ≡ compression.old) }
    ensures sides { is_answered result ≡ false → (width.new ≡ width.old) × (height.new ≡ height.old) }
    ensures enough { is_wanted result ≡ false → wanted.new ≡ wanted.old }

    // No result is a fault, a spent budget or a lack of memory.
    ensures unstopped { is_stop_status result ≡ false }

    // The status and what is written are the result of the probe, or the span that it requests.
    ensures told { TellsNext (next_of held) result number.old number.new compression.old compression.new
        width.old width.new height.old height.new wanted.old wanted.new }
    ensures* stays { sem 𝓛 (lies_at the_row full_share parts held) }
{
    answer_by(&*parts, number, compression, width, height, wanted)
}

// A probe of an input of `total` bytes.
fn begin(total: u64) -> PartsProbe
    ensures { Opens result total }
{
    PartsProbe::new(total)
}

// Passes the bytes from an offset on.
fn supply_to(parts: &mut PartsProbe, offset: u64, bytes: &[u8])
    ensures { TakesPart parts.old parts.new offset bytes.now }
{
    parts.supply(offset, bytes);
}

// Writes the result, or the span that is requested.
#[tactic(auto, using(crate::proofs::Statuses::never_wanted, crate::proofs::Statuses::unstopped))]
fn answer_by(
    parts: &PartsProbe,
    number: &mut u32,
    compression: &mut u32,
    width: &mut u64,
    height: &mut u64,
    wanted: &mut Span,
) -> u32
    ensures status { (d : List ℕ) → MayBe parts.now d → is_wanted result ≡ false → result ≡ status_of (meaning d 0).answer }
    ensures kind { (d : List ℕ) → MayBe parts.now d → is_wanted result ≡ false
        → TellsType (result_ok (kind_of d 0).answer) number.old number.new compression.old compression.new }
    ensures size { (d : List ℕ) → MayBe parts.now d → is_wanted result ≡ false
        → TellsSize (meaning d 0).answer width.old width.new height.old height.new }
    ensures wants { (d : List ℕ) → MayBe parts.now d → is_wanted result ≡ true → AllBelow wanted.new.start (meaning d 0).marks → ⊥ }
    ensures within { (d : List ℕ) → MayBe parts.now d → is_wanted result ≡ true → (wanted.new.start < 12) ⊎ (18 ≤ wanted.new.start)
        → HasMarked wanted.new d }
    ensures fits { is_wanted result ≡ true → IsWithin (total_of parts.now) wanted.new }
    ensures short { is_wanted result ≡ true → (wanted.new.len ≤ 1024) × EndsEarly parts.now wanted.new }
    ensures shorter { (d : List ℕ) → MayBe parts.now d → is_wanted result ≡ true → texts_of d ≡ false → wanted.new.len ≤ 132 }
    ensures unknown { is_wanted result ≡ true → (number.new ≡ number.old) × (compression.new ≡ compression.old) }
    ensures sides { is_answered result ≡ false → (width.new ≡ width.old) × (height.new ≡ height.old) }
    ensures enough { is_wanted result ≡ false → wanted.new ≡ wanted.old }
    ensures unstopped { is_stop_status result ≡ false }
    ensures told { TellsNext (next_of parts.now) result number.old number.new compression.old compression.new
        width.old width.new height.old height.new wanted.old wanted.new }
{
    match parts.answer() {
        PartsAnswer::Found((kind, answer)) => {
            tell_type(kind, number, compression);
            tell_size(answer, width, height)
        }
        PartsAnswer::Wanted(span) => tell_wanted(span, wanted),
    }
}
