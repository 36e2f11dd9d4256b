//! The push parser: type and size of an image whose bytes come one after another.
ghost use Rattle.std.specs.Prelude.{◌≡◌, ℕ, ◌+◌, ◌≤◌, List, length, true, false};
ghost use Rattle.std.specs.Borrow.{full_share, sem};
ghost use Rattle.std.specs.Ptr.{lies_at, room_at};
ghost use Rattle.std.specs.Result.{result_ok};
ghost use Rattle.imagesize.specs.Meaning.{kind_of, meaning};
ghost use Rattle.imagesize_c.specs.Status.{is_answered, is_stop_status, is_wanted, status_of};
ghost use Rattle.imagesize_c.specs.Streams.{Begun, GoesOn, OfEach, TellsProbed};
ghost use Rattle.imagesize_c.specs.Told.{TellsSize, TellsType};
ghost use Rattle.imagesize_pieces.specs.Stream.{AllBelow};
ghost use Rattle.imagesize_stream.specs.Pushed.{Came, answer_of, told_of};
ghost use Rattle.imagesize_stream.specs.contracts.probe.StreamProbe.{the_row};
ghost use Rattle.imagesize_stream.specs.declared.probe.StreamProbe.{StreamProbe};

use crate::status::BYTES_WANTED;
use crate::tell::{tell_size, tell_type};
use imagesize_stream::StreamProbe;

// The header declares a push parser as so many bytes, with the alignment of a `uint64_t`.
const _: () = prove!(size_of::<StreamProbe>() <= 1280);

const _: () = prove!(align_of::<StreamProbe>() <= 8);

/// Begins an input of `total` bytes in the caller's memory, whatever the memory holds.
#[unsafe(no_mangle)]
pub unsafe extern "C" fn imagesize_stream_new(stream: *mut StreamProbe, total: u64)
    requires* { sem 𝓛 (room_at the_row stream) }
    ensures* { ∃ₛ (λ (after : StreamProbe). sem 𝓛 (lies_at the_row full_share stream after) ∗ ⌜ Begun after total ⌝) }
{
    std::ptr::write(stream, begin(total));
}

/// Passes the next bytes. Reads type and size once no further byte can change them, or requests more bytes.
#[unsafe(no_mangle)]
pub unsafe extern "C" fn imagesize_stream_push(
    stream: *mut StreamProbe,
    bytes: &[u8],
    number: &mut u32,
    compression: &mut u32,
    width: &mut u64,
    height: &mut u64,
) -> u32
    ghost held: { StreamProbe }
    requires* { sem 𝓛 (lies_at the_row full_share stream held) }

    // For each input that begins with the bytes that came and is no longer than the length that was passed:
    ensures status { OfEach held bytes.now (λ came d. is_wanted result ≡ false → result ≡ status_of (meaning d 0).answer) }
    ensures kind { OfEach held bytes.now (λ came d. is_wanted result ≡ false
        → TellsType (result_ok (kind_of d 0).answer) number.old number.new compression.old compression.new) }
    ensures size { OfEach held bytes.now (λ came d. is_wanted result ≡ false
        → TellsSize (meaning d 0).answer width.old width.new height.old height.new) }

    // If all bytes that the result depends on came, or all bytes of the input, the call returns it.
    ensures complete { OfEach held bytes.now (λ came d. is_wanted result ≡ true → length d ≡ told_of held
        → AllBelow (length came) (meaning d 0).marks → ⊥) }
    ensures whole { (front : List ℕ) → Came held front → is_wanted result ≡ true
        → told_of held ≤ length front + length bytes.now → ⊥ }

    // Values that are not found do not change.
    ensures unknown { is_wanted result ≡ true → (number.new ≡ number.old) × (compression.new ≡ compression.old) }
    ensures sides { is_answered result ≡ false → (width.new ≡ width.old) × (height.new ≡ height.old) }

    // No result is a fault, a spent budget or a lack of memory.
    ensures unstopped { is_stop_status result ≡ false }

    // The bytes came. The status and what is written are the result of the push parser, which keeps it.
    ensures* goes_on { ∃ₛ (λ (after : StreamProbe). sem 𝓛 (lies_at the_row full_share stream after) ∗ ⌜ GoesOn held after bytes.now
        × TellsProbed (answer_of after) result number.old number.new compression.old compression.new
        width.old width.new height.old height.new ⌝) }
{
    push_on(&mut *stream, bytes, number, compression, width, height)
}

/// Ends the input. Reads type and size of the bytes that were passed. Then the memory is free.
#[unsafe(no_mangle)]
pub unsafe extern "C" fn imagesize_stream_finish(
    stream: *mut StreamProbe,
    number: &mut u32,
    compression: &mut u32,
    width: &mut u64,
    height: &mut u64,
) -> u32
    ghost held: { StreamProbe }
    requires* { sem 𝓛 (lies_at the_row full_share stream held) }

    // For the bytes that came:
    ensures status { (front : List ℕ) → Came held front → result ≡ status_of (meaning front 0).answer }
    ensures kind { (front : List ℕ) → Came held front
        → TellsType (result_ok (kind_of front 0).answer) number.old number.new compression.old compression.new }
    ensures size { (front : List ℕ) → Came held front
        → TellsSize (meaning front 0).answer width.old width.new height.old height.new }

    // More bytes are never requested. A size that is not found does not change.
    ensures ends { is_wanted result ≡ false }
    ensures sides { is_answered result ≡ false → (width.new ≡ width.old) × (height.new ≡ height.old) }

    // The result is no fault, no spent budget and no lack of memory.
    ensures unstopped { is_stop_status result ≡ false }
    ensures* buffer { sem 𝓛 (room_at the_row stream) }
{
    finish(std::ptr::read(stream), number, compression, width, height)
}

// A push parser of an input of `total` bytes.
fn begin(total: u64) -> StreamProbe
    ensures { Begun result total }
{
    StreamProbe::new(Some(total))
}

// Passes the next bytes, and writes the result if there is one.
#[tactic(auto, using(crate::proofs::Statuses::never_wanted, crate::proofs::Statuses::unstopped))]
fn push_on(
    stream: &mut StreamProbe,
    bytes: &[u8],
    number: &mut u32,
    compression: &mut u32,
    width: &mut u64,
    height: &mut u64,
) -> u32
    ensures status { OfEach stream.old bytes.now (λ came d. is_wanted result ≡ false → result ≡ status_of (meaning d 0).answer) }
    ensures kind { OfEach stream.old bytes.now (λ came d. is_wanted result ≡ false
        → TellsType (result_ok (kind_of d 0).answer) number.old number.new compression.old compression.new) }
    ensures size { OfEach stream.old bytes.now (λ came d. is_wanted result ≡ false
        → TellsSize (meaning d 0).answer width.old width.new height.old height.new) }
    ensures complete { OfEach stream.old bytes.now (λ came d. is_wanted result ≡ true → length d ≡ told_of stream.old
        → AllBelow (length came) (meaning d 0).marks → ⊥) }
    ensures whole { (front : List ℕ) → Came stream.old front → is_wanted result ≡ true
        → told_of stream.old ≤ length front + length bytes.now → ⊥ }
    ensures unknown { is_wanted result ≡ true → (number.new ≡ number.old) × (compression.new ≡ compression.old) }
    ensures sides { is_answered result ≡ false → (width.new ≡ width.old) × (height.new ≡ height.old) }
    ensures unstopped { is_stop_status result ≡ false }
    ensures goes_on { GoesOn stream.old stream.new bytes.now }
    ensures told { TellsProbed (answer_of stream.new) result number.old number.new compression.old compression.new
        width.old width.new height.old height.new }
{
    match stream.push(bytes) {
        Some((kind, size)) => {
            tell_type(kind, number, compression);
            tell_size(size, width, height)
        }
        None => BYTES_WANTED,
    }
}

// Ends the input, and writes its result.
#[tactic(auto, using(crate::proofs::Statuses::never_wanted, crate::proofs::Statuses::unstopped))]
fn finish(
    stream: StreamProbe,
    number: &mut u32,
    compression: &mut u32,
    width: &mut u64,
    height: &mut u64,
) -> u32
    ensures status { (front : List ℕ) → Came stream front → result ≡ status_of (meaning front 0).answer }
    ensures kind { (front : List ℕ) → Came stream front
        → TellsType (result_ok (kind_of front 0).answer) number.old number.new compression.old compression.new }
    ensures size { (front : List ℕ) → Came stream front
        → TellsSize (meaning front 0).answer width.old width.new height.old height.new }
    ensures ends { is_wanted result ≡ false }
    ensures sides { is_answered result ≡ false → (width.new ≡ width.old) × (height.new ≡ height.old) }
    ensures unstopped { is_stop_status result ≡ false }
{
    let (kind, answer) = stream.finish();
    tell_type(kind, number, compression);
    tell_size(answer, width, height)
}
