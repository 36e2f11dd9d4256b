//! The sequences of records that a stream waits for, for all formats.
ghost use Rattle.std.specs.Prelude.{◌≡◌, false, true, IfErr, IfOk};
ghost use Rattle.imagesize_source.specs.Paying.{Nears};
ghost use Rattle.imagesize_source.specs.Reading.{map_answer};
ghost use Rattle.imagesize_source.specs.State.{Runs};
ghost use Rattle.imagesize_source.specs.Layout.{layout_reads};
ghost use Rattle.imagesize_source.specs.Walk.{HoldsOn, said_at};
ghost use Rattle.imagesize_records.specs.Steps.{IsSteady, is_text, step};

use crate::awaited::Awaited;
use imagesize_source::Halt;
use imagesize_source::source::Source;
use imagesize_source::walk::{RecordResult, Records};
use imagesize_texts::formats::exr::read_attribute;
use imagesize_texts::formats::hdr::{LINE_ROOM, read_line};
use imagesize_texts::util::WORD_ROOM;
use imagesize_types::size::ImageSize;

/// The records from this one on, in a format whose records are no texts.
///
/// A walk changes the state where it is stored. This saves two copies of it a chunk.
impl Records for Awaited {
    type State = Awaited;

    type Answer = ImageSize;

    ghost step = { step };

    ghost state = { λ next. next };

    ghost holds = { λ next offset. IsSteady next offset × (is_text next ≡ false) };

    #[inline(always)]
    fn read_record<S: Source>(&mut self, source: &mut S, offset: u64) -> RecordResult<ImageSize> {
        match self {
            Awaited::Jpeg(segments) => read_next(segments, source, offset),
            Awaited::Ilbm(chunks) => chunks.read_record(source, offset),
            Awaited::Ico(entries) => read_next(entries, source, offset),
            Awaited::Tiff(directory) => directory.read_record(source, offset),
            Awaited::Heif(sought) => sought.read_record(source, offset),
            Awaited::Jxl(boxes) => read_next(boxes, source, offset),
            _ => unreachable!(),
        }
    }

    fn at_end(&self) -> Result<ImageSize, Halt> {
        match self {
            Awaited::Jpeg(segments) => segments.at_end(),
            Awaited::Ilbm(chunks) => chunks.at_end(),
            Awaited::Ico(entries) => entries.at_end(),
            Awaited::Tiff(directory) => directory.at_end(),
            Awaited::Heif(sought) => sought.at_end(),
            Awaited::Jxl(boxes) => boxes.at_end(),
            _ => Err(Halt::Ended),
        }
    }
}

// Reads the next record of one format. Not inlined, so that the walk over all formats stays small. The other formats are called
// directly: a chunk is read in a few instructions, and a TIFF and a HEIF have a function for each kind of record.
fn read_next<R: Records<Answer = ImageSize>, S: Source>(
    records: &mut R,
    source: &mut S,
    offset: u64,
) -> RecordResult<ImageSize>
    requires { R.holds records.old offset }
    ensures nears { IfOk result (λ found. Nears (S.state source.old) (S.state source.new) offset
        (said_at (R.state records.new) offset found)) }
    ensures holds { IfOk result (HoldsOn (R.holds records.new) offset) }
    ensures stays { IfErr result (λ _. (R.state records.new ≡ R.state records.old) × R.holds records.new offset) }
    ensures runs { Runs (S.state source.old) (S.state source.new) (map_answer (said_at (R.state records.new) offset) result)
        (layout_reads (S.state source.old).held.input (R.step (R.state records.old) offset)) }
{
    records.read_record(source, offset)
}

/// The records from the next one on, in a format whose records are texts.
///
/// The words of a portable bitmap are read into `buffer`. It is zeroed once a walk, and not once a word.
#[derive(Clone, Copy)]
pub struct Texts {
    pub next: Awaited,
    pub buffer: [u8; WORD_ROOM],
}

impl Records for Texts {
    type State = Awaited;

    type Answer = ImageSize;

    ghost step = { step };

    ghost state = { λ texts. texts.next };

    ghost holds = { λ texts offset. IsSteady texts.next offset × (is_text texts.next ≡ true) };

    #[inline(always)]
    fn read_record<S: Source>(&mut self, source: &mut S, offset: u64) -> RecordResult<ImageSize> {
        let buffer = &mut self.buffer;
        match &mut self.next {
            Awaited::Exr { long } => read_attribute(source, offset, *long, buffer),
            Awaited::Hdr => read_line(source, offset, &mut buffer[..LINE_ROOM]),
            Awaited::Pnm(part) => part.read(source, offset, buffer),
            _ => unreachable!(),
        }
    }

    // No text has a result at the end of the input.
    fn at_end(&self) -> Result<ImageSize, Halt> {
        Err(Halt::Ended)
    }
}
