//! The stages of a push parser, and how each chunk continues them.
ghost use Rattle.std.specs.Prelude.{◌≡◌, ℕ, ◌+◌, ◌<◌, ◌≤◌, ◌++◌, List, Option, true, false, length, take};
ghost use Rattle.imagesize.specs.declared.types.ImageType.{ImageType};
ghost use Rattle.imagesize_source.specs.Input.{part};
ghost use Rattle.imagesize_stream.specs.Given.{IsGiven, MayBeAt};
ghost use Rattle.imagesize_stream.specs.Heard.{RestsOnMore};
ghost use Rattle.imagesize_stream.specs.Probe.{CameTo, Continues, Counts, HoldsAt, IfAwaiting, RestsOnNext, TypedBy, stage_after};
ghost use Rattle.imagesize_stream.specs.Skips.{PassesOver};
ghost use Rattle.imagesize_records.specs.Steps.{is_text};
ghost use Rattle.imagesize_stream.specs.declared.stage.Stage.TheVariants as stage;

use crate::hear::hear;
use imagesize::ImageType;
use imagesize_fixed::formats::tga::is_footer;
use imagesize_pieces::buffer::{append, front_of, keep_behind};
use imagesize_pieces::stand::Stand;
use imagesize_pieces::walk::read_on;
use imagesize_records::awaited::Awaited;
use imagesize_records::records::Texts;
use imagesize_source::Halt;
use imagesize_source::part::bytes_behind;
use imagesize_texts::util::WORD_ROOM;
use imagesize_types::size::ImageSize;

/// The most bytes that are kept.
pub(crate) const ROOM: usize = 1023;

// How many first bytes always suffice for the type, and for the size or the offset of the first record.
const FIRST: u64 = 132;

// How many bytes the header of a TGA has. So many are requested at once.
const HEADER: u64 = 18;

// How many bytes of a record that is a text are read at most.
const TEXT: u64 = 1024;

// How many bytes of any other record are read at most.
const RECORD: u64 = 132;

/// The stage of a push parser.
#[derive(Clone, Copy)]
pub(crate) enum Stage {
    /// The type or its size needs more of the first bytes. All bytes so far are kept.
    First,
    /// The size is in records. This record is next.
    Records { next: Awaited },
    /// The last bytes of the input decide whether it is a TGA of this size. The last 18 bytes so far are kept.
    Footer { size: ImageSize },
    /// The size or the error is known.
    Done { size: Result<ImageSize, Halt> },
}

/// Counts a chunk of so many bytes, if it ends before the next record begins, and returns whether it does. Most chunks of a large
/// segment end there. This saves a walk that misses the record's first byte. The requested span ends where the record's first read
/// does, or with the input.
#[inline(always)]
pub(crate) fn pass_over(next: &Awaited, stand: &mut Stand, count: u64) -> bool
    requires { stand.old.passed + count ≤ stand.old.told }
    ensures stays { result ≡ false → stand.new ≡ stand.old }
    ensures passes { result ≡ true → PassesOver next.now stand.old stand.new count }
{
    let passed = stand.passed + count;
    if passed > stand.start || stand.start != stand.offset || stand.start >= stand.told {
        return false;
    }
    let most = next.first_read();
    if most == 0 {
        return false;
    }
    stand.passed = passed;
    stand.end = (stand.start + most).min(stand.told);
    true
}

/// Continues the walk along the records with the next chunk, from the next record on. Returns the size or the error, once it is
/// known. Otherwise `next` is the record that is next.
pub(crate) fn walk(
    next: &mut Awaited,
    stand: &mut Stand,
    buffer: &mut [u8; ROOM],
    chunk: &[u8],
) -> Option<Result<ImageSize, Halt>>
    requires holds { HoldsAt (stage.Records next.old) stand.old }
    requires fits { stand.old.passed + length chunk.now ≤ stand.old.told }
    ensures counts { Counts (stage_after next.new result) stand.old stand.new chunk.now }
    ensures continues { (kind : Option ImageType) → Continues (stage.Records next.old) (stage_after next.new result) kind kind
        stand.old stand.new buffer.old buffer.new chunk.now }
{
    if next.is_text() {
        return walk_texts(next, stand, buffer, chunk);
    }
    match read_on(next, stand, buffer, chunk) {
        Some(size) => Some(size),
        None => {
            stand.end = stand.end.min(stand.start + RECORD);
            None
        }
    }
}

// Continues the walk along records that are texts with the next chunk.
fn walk_texts(
    next: &mut Awaited,
    stand: &mut Stand,
    buffer: &mut [u8; ROOM],
    chunk: &[u8],
) -> Option<Result<ImageSize, Halt>>
    requires holds { HoldsAt (stage.Records next.old) stand.old }
    requires text { is_text next.old ≡ true }
    requires fits { stand.old.passed + length chunk.now ≤ stand.old.told }
    ensures counts { Counts (stage_after next.new result) stand.old stand.new chunk.now }
    ensures continues { (kind : Option ImageType) → Continues (stage.Records next.old) (stage_after next.new result) kind kind
        stand.old stand.new buffer.old buffer.new chunk.now }
{
    let mut texts = Texts {
        next: *next,
        buffer: [0; WORD_ROOM],
    };
    match read_on(&mut texts, stand, buffer, chunk) {
        Some(size) => Some(size),
        None => {
            stand.end = stand.end.min(stand.start + TEXT);
            *next = texts.next;
            None
        }
    }
}

/// Waits for the last bytes. Once all bytes arrived, these decide whether it is a TGA.
pub(crate) fn wait(
    size: ImageSize,
    kind: &mut Option<ImageType>,
    stand: &mut Stand,
    buffer: &mut [u8; ROOM],
    chunk: &[u8],
) -> Stage
    requires some { 18 ≤ stand.old.passed }
    requires fits { stand.old.passed + length chunk.now ≤ stand.old.told }
    ensures counts { Counts result stand.old stand.new chunk.now }
    ensures continues { Continues (stage.Footer size) result kind.old kind.new stand.old stand.new buffer.old buffer.new chunk.now }

    // Of each input with these parts:
    ensures parts { (d : List ℕ) → IsGiven (stage.Footer size) kind.old stand.old buffer.old d
        → chunk.now ≡ part d stand.old.passed (length chunk.now) → MayBeAt result kind.new stand.new buffer.new d }
{
    let count = chunk.len() as u64;
    keep_behind(buffer, 18, chunk, count);
    stand.passed += count;
    if stand.passed < stand.told {
        stand.start = stand.told - 18;
        stand.offset = stand.start;
        stand.end = stand.told;
        return Stage::Footer { size };
    }
    let mut last = [0u8; 18];
    last.copy_from_slice(&buffer[..18]);
    if is_footer(&last) {
        *kind = Some(ImageType::Tga);
        return Stage::Done { size: Ok(size) };
    }
    *kind = None;
    Stage::Done {
        size: Err(Halt::NotSupported),
    }
}

/// Continues with the next chunk while the first bytes do not suffice. The buffer holds all bytes so far. `into` becomes the stage
/// after the chunk: a stage that is returned is copied once more.
pub(crate) fn begin(
    into: &mut Stage,
    kind: &mut Option<ImageType>,
    stand: &mut Stand,
    buffer: &mut [u8; ROOM],
    chunk: &[u8],
)
    requires first { into.old ≡ stage.First }
    requires start { stand.old.start ≡ 0 }
    requires few { stand.old.passed < 132 }
    requires fits { stand.old.passed + length chunk.now ≤ stand.old.told }
    ensures counts { Counts into.new stand.old stand.new chunk.now }
    ensures continues { Continues stage.First into.new kind.old kind.new stand.old stand.new buffer.old buffer.new chunk.now }
{
    let left = FIRST - stand.passed;
    let more = front_of(chunk, left);
    let rest = bytes_behind(chunk, left);
    append(buffer, stand.passed as usize, more);
    stand.passed += more.len() as u64;
    begun(into, kind, stand, buffer, rest);
}

// Continues from the first bytes, which are all in the buffer, with the rest of the chunk. `into` becomes the stage after it.
fn begun(
    into: &mut Stage,
    kind: &mut Option<ImageType>,
    stand: &mut Stand,
    buffer: &mut [u8; ROOM],
    chunk: &[u8],
)
    requires first { into.old ≡ stage.First }
    requires start { stand.old.start ≡ 0 }
    requires few { stand.old.passed ≤ 132 }
    requires all { stand.old.passed < 132 → length chunk.now ≡ 0 }
    requires fits { stand.old.passed + length chunk.now ≤ stand.old.told }
    ensures counts { Counts into.new stand.old stand.new chunk.now }
    ensures goes_on { CameTo into.new kind.new stand.new buffer.new (take stand.old.passed buffer.old ++ chunk.now) }
    ensures complete { IfAwaiting into.new (RestsOnMore (take stand.old.passed buffer.old ++ chunk.now) stand.old.told) }
    ensures marked { RestsOnNext into.new stand.new (take stand.old.passed buffer.old ++ chunk.now) stand.old.told }
    ensures typed { TypedBy into.new kind.new (take stand.old.passed buffer.old ++ chunk.now) stand.old.told }
{
    let passed = stand.passed as usize;
    let (image, offset) = hear(into, &buffer[..passed], stand.told);
    *kind = image;
    match into {
        Stage::First => stand.end = offset.min(FIRST).max(HEADER).min(stand.told),
        Stage::Records { next } => {
            stand.offset = offset;
            if let Some(size) = walk(next, stand, buffer, chunk) {
                *into = Stage::Done { size };
            }
        }
        Stage::Footer { size } => {
            let size = *size;
            keep_behind(buffer, passed, &[], stand.passed - 18);
            *into = wait(size, kind, stand, buffer, chunk);
        }
        Stage::Done { .. } => {}
    }
}
