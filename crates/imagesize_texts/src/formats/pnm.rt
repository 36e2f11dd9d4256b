//! Portable bitmaps: the manual pages pbm(5), pgm(5) and ppm(5) of Netpbm.
ghost use Rattle.std.specs.Prelude.{◌≡◌, IfErr, IfOk};
ghost use Rattle.imagesize_source.specs.Paying.{Nears};
ghost use Rattle.imagesize_source.specs.Reading.{map_answer};
ghost use Rattle.imagesize_source.specs.State.{Follows, Runs};
ghost use Rattle.imagesize_source.specs.Walk.{said_at};
ghost use Rattle.imagesize_source.specs.declared.walk.Found.TheVariants as found;
ghost use Rattle.imagesize_texts.specs.Pnm.{is_blank, is_comment, is_pnm, pnm, words_step};
ghost use Rattle.imagesize_texts.specs.Texts.{read_word_of};
ghost use Rattle.imagesize_texts.specs.Walks.{pnm_step, part_after};
ghost use Rattle.imagesize_texts.specs.declared.formats.pnm.Part.TheVariants as part;

use crate::util::{
    WORD_ROOM, Word, number, pass_line_behind, pass_line_capped, read_word, read_word_behind,
};
use imagesize_source::Halt;
use imagesize_source::source::Source;
use imagesize_source::walk::{Found, RecordResult, Records, ended, walk};
use imagesize_types::size::{ImageSize, size_if_known};

/// Whether the input begins with a magic number from `P1` to `P6`.
#[inline(always)]
#[tactic(auto, unfolding(crate::specs::Pnm::is_pnm))]
pub fn matches(head: &[u8; 12]) -> bool
    ensures { result ≡ is_pnm head.now }
{
    matches!(head, [b'P', b'1'..=b'6', ..])
}

/// The width and the height in pixels. The width is the first word that is neither blank nor in a comment, and the height is
/// the next word.
///
/// # Errors
///
/// - `PnmDimensionsNotFound`: the width or the height is not a number.
/// - `NoDelimiter`: a word or a comment is too long.
/// - `NotUtf8`: a word is not UTF-8.
/// - `Ended`: the input ends before the size.
pub fn size<S: Source>(source: &mut S) -> Result<ImageSize, Halt>
    ensures { Runs (S.state source.old) (S.state source.new) result
        (pnm (S.state source.old).held.input) }
{
    let words = Words {
        buffer: [0; WORD_ROOM],
    };
    walk(words, source, 2)
}

/// The words after the magic number.
#[derive(Drop)]
pub struct Words {
    /// A word is read into this buffer.
    pub buffer: [u8; WORD_ROOM],
}

impl Records for Words {
    type State = ();

    type Answer = ImageSize;

    ghost step = { words_step };

    ghost state = { λ _. tt };

    // Reads the word at an offset. After the width it reads the height too, and at the start of a comment the rest of the
    // comment.
    #[inline(always)]
    #[tactic(auto, using(imagesize_source::proofs::Runs::steps, imagesize_source::proofs::Runs::missed_before))]
    fn read_record<S: Source>(&mut self, source: &mut S, offset: u64) -> RecordResult<ImageSize> {
        let word = read_word(source, offset, &mut self.buffer)?;
        let taken = word.taken as u64;
        if is_comment(word.text) {
            if word.ended_by == b'\n' {
                return Ok(pass(taken));
            }
            let rest = pass_line_behind(source, offset, taken, b'\n', &mut self.buffer)?;
            return Ok(pass(taken + rest as u64));
        }
        if is_blank(word.text) {
            return Ok(pass(taken));
        }
        let width = number(word.text);
        let next = read_word_behind(source, offset, taken, &mut self.buffer)?;
        let size = size_if_known(width, number(next.text.trim()));
        let size = size.ok_or(Halt::PnmDimensionsNotFound)?;
        Ok(Found::Answer(size))
    }

    // The input ends before the size.
    #[inline(always)]
    fn at_end(&self) -> Result<ImageSize, Halt> {
        ended()
    }
}

// A word of `taken` bytes that does not give the size.
#[inline(always)]
fn pass(taken: u64) -> Found<ImageSize>
    ensures { result ≡ found.Other taken }
{
    Found::Other { length: taken }
}

/// The next part of a header, for a walk that may stop before each part.
#[derive(Clone, Copy)]
pub enum Part {
    /// A word, which may be the width.
    Word,
    /// The rest of a comment.
    Comment,
    /// The height, after this width.
    Height { width: Option<usize> },
}

impl Part {
    /// Reads the part at an offset into the caller's buffer. Then this is the part after it. Returns the size from the height,
    /// or the length of another part in bytes.
    #[inline(always)]
    pub fn read<S: Source>(
        &mut self,
        source: &mut S,
        offset: u64,
        buffer: &mut [u8; WORD_ROOM],
    ) -> RecordResult<ImageSize>
        ensures nears { IfOk result (λ found. Nears (S.state source.old) (S.state source.new) offset (said_at self.new offset found)) }
        ensures stays { IfErr result (λ _. self.new ≡ self.old) }
        ensures runs { Follows (S.state source.old) (S.state source.new) (map_answer (said_at self.new offset) result)
            (pnm_step self.old offset) }
    {
        match *self {
            Part::Word => read_header_word(self, source, offset, buffer),
            Part::Comment => read_comment(self, source, offset, buffer),
            Part::Height { width } => read_height(source, offset, width, buffer),
        }
    }
}

// Reads a word. Then `next` is the part after it.
#[tactic(auto, using(imagesize_source::proofs::Runs::steps))]
fn read_header_word<S: Source>(
    next: &mut Part,
    source: &mut S,
    offset: u64,
    buffer: &mut [u8; WORD_ROOM],
) -> RecordResult<ImageSize>
    ensures nears { IfOk result (λ found. Nears (S.state source.old) (S.state source.new) offset (said_at next.new offset found)) }
    ensures stays { IfErr result (λ _. next.new ≡ next.old) }
    ensures runs { Follows (S.state source.old) (S.state source.new) (map_answer (said_at next.new offset) result)
        (pnm_step part.Word offset) }
{
    let word = read_word(source, offset, buffer)?;
    *next = part_after(&word);
    Ok(Found::Other {
        length: word.taken as u64,
    })
}

// The part after a word. The first word outside comments that is not blank is the width.
fn part_after(word: &Word<'_>) -> Part
    ensures { result ≡ part_after (read_word_of word.now) }
{
    if is_comment(word.text) {
        return if word.ended_by == b'\n' {
            Part::Word
        } else {
            Part::Comment
        };
    }
    if is_blank(word.text) {
        return Part::Word;
    }
    Part::Height {
        width: number(word.text),
    }
}

// Reads the rest of a comment, after which `next` is a word.
#[tactic(auto, using(imagesize_source::proofs::Runs::steps))]
fn read_comment<S: Source>(
    next: &mut Part,
    source: &mut S,
    offset: u64,
    buffer: &mut [u8; WORD_ROOM],
) -> RecordResult<ImageSize>
    ensures nears { IfOk result (λ found. Nears (S.state source.old) (S.state source.new) offset (said_at next.new offset found)) }
    ensures stays { IfErr result (λ _. next.new ≡ next.old) }
    ensures runs { Follows (S.state source.old) (S.state source.new) (map_answer (said_at next.new offset) result)
        (pnm_step part.Comment offset) }
{
    let taken = pass_line_capped(source, offset, b'\n', buffer)?;
    *next = Part::Word;
    Ok(Found::Other {
        length: taken as u64,
    })
}

// Reads the word that is the height. Returns the size.
#[tactic(auto, using(imagesize_source::proofs::Runs::steps))]
fn read_height<S: Source>(
    source: &mut S,
    offset: u64,
    width: Option<usize>,
    buffer: &mut [u8; WORD_ROOM],
) -> RecordResult<ImageSize>
    ensures nears { IfOk result (λ found. Nears (S.state source.old) (S.state source.new) offset
        (said_at (part.Height width) offset found)) }
    ensures runs { Follows (S.state source.old) (S.state source.new) (map_answer (said_at (part.Height width) offset) result)
        (pnm_step (part.Height width) offset) }
{
    let word = read_word(source, offset, buffer)?;
    let size = size_if_known(width, number(word.text.trim()));
    let size = size.ok_or(Halt::PnmDimensionsNotFound)?;
    Ok(Found::Answer(size))
}

/// Whether a word begins a comment.
#[inline]
#[tactic(auto, unfolding(crate::specs::Pnm::is_comment))]
pub fn is_comment(text: &str) -> bool
    ensures { result ≡ is_comment text.now }
{
    match text.as_bytes() {
        // There is nothing to trim before a visible character. A trimming takes 60 instructions.
        [first, ..] if first.is_ascii_graphic() => *first == b'#',
        _ => matches!(text.trim().as_bytes(), [b'#', ..]),
    }
}

/// Whether a word is white space only.
#[inline]
#[tactic(auto, unfolding(crate::specs::Pnm::is_blank))]
pub fn is_blank(text: &str) -> bool
    ensures { result ≡ is_blank text.now }
{
    match text.as_bytes() {
        // A visible character is not trimmed.
        [first, ..] if first.is_ascii_graphic() => false,
        _ => text.trim().is_empty(),
    }
}
