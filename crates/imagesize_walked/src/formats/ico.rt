//! Windows icons, by `ICONDIR` and `ICONDIRENTRY` of "Icons" (Win32).
ghost use Rattle.std.specs.Prelude.{◌≡◌, ◌+◌, ◌<◌, ◌≤◌, ◌*◌, IfOk, IfSome, Some, ok_or};
ghost use Rattle.imagesize_walked.specs.Ico.{ico, icon_side, icon_size, is_ico};
ghost use Rattle.imagesize_walked.specs.Walks.{IsIcon, IsIconIfSome, entry_in, ico_holds, ico_open, ico_step};
ghost use Rattle.imagesize_types.specs.Largest.{later_largest};
ghost use Rattle.imagesize_types.specs.Order.{area_of};
ghost use Rattle.imagesize_source.specs.declared.halt.Halt.TheVariants as halt;
ghost use Rattle.imagesize_source.specs.Paying.{Paid};
ghost use Rattle.imagesize_source.specs.State.{Runs, Follows};

use imagesize_source::readings::{read_if_there, read_u16};
use imagesize_source::source::Source;
use imagesize_source::walk::{Found, RecordResult, Records, Start, walk};
use imagesize_source::{Endian, Halt};
use imagesize_types::size::ImageSize;

/// Whether the input begins with a directory of icons.
#[inline(always)]
#[tactic(auto, unfolding(crate::specs::Ico::is_ico))]
pub fn matches(head: &[u8; 12]) -> bool
    ensures { result ≡ is_ico head.now }
{
    matches!(head, [0, 0, 1, 0, ..])
}

/// The width and the height in pixels of the image with the greatest area, or the last of several. Icons whose entries lie past
/// the end of the input do not count.
#[tactic(auto, using(crate::proofs::Ico::ico_follows))]
pub fn size<S: Source>(source: &mut S) -> Result<ImageSize, Halt>
    ensures { Runs (S.state source.old) (S.state source.new) result (ico (S.state source.old).held.input) }
{
    let start = open(source)?;
    walk(start.records, source, start.offset)
}

/// Reads the number of icons. Returns the state before the first entry, and the offset of that entry.
#[inline(always)]
#[tactic(auto, using(imagesize_source::proofs::Runs::steps))]
pub fn open<S: Source>(source: &mut S) -> Result<Start<Entries>, Halt>
    ensures first { IfOk result (λ start. ico_holds start.records start.offset) }
    ensures runs { Follows (S.state source.old) (S.state source.new) result ico_open }
{
    let count = read_u16(source, 4, Endian::Little)?;
    let records = Entries {
        count,
        seen: 0,
        largest: None,
    };
    Ok(Start { records, offset: 6 })
}

/// The entries of the directory: their stated number, how many were read, and the largest size among these.
#[derive(Clone, Copy)]
pub struct Entries {
    /// How many there are.
    pub count: u16,
    /// How many were read.
    pub seen: u16,
    /// The largest size of those that were read.
    pub largest: Option<ImageSize>,
}

impl Records for Entries {
    type State = Entries;

    type Answer = ImageSize;

    ghost step = { ico_step };

    ghost state = { λ entries. entries };

    ghost holds = { ico_holds };

    // Reads the entry at an offset.
    #[inline(always)]
    #[tactic(auto, using(imagesize_source::proofs::Runs::steps))]
    fn read_record<S: Source>(&mut self, source: &mut S, offset: u64) -> RecordResult<ImageSize> {
        let Some(bytes) = self.read_entry(source, offset)? else {
            return Ok(Found::Answer(answer(self.largest)?));
        };
        self.largest = Some(larger(self.largest, icon_size(bytes)));
        self.seen += 1;
        Ok(Found::Other { length: 16 })
    }

    // The largest size so far.
    #[inline(always)]
    #[tactic(auto, using(crate::proofs::Ico::ico_ends))]
    fn at_end(&self) -> Result<ImageSize, Halt> {
        answer(self.largest)
    }
}

impl Entries {
    // The first two bytes of the next entry. `None` if all are read, or if the input ends before the second byte.
    #[inline(always)]
    #[tactic(auto, using(imagesize_source::proofs::Runs::steps))]
    fn read_entry<S: Source>(&self, source: &mut S, offset: u64) -> Result<Option<[u8; 2]>, Halt>
        requires { self.now.seen ≤ self.now.count }
        ensures pays { IfOk result (λ entry. IfSome entry (λ _. Paid (S.state source.old) (S.state source.new) offset)) }
        ensures more { IfOk result (λ entry. IfSome entry (λ _. self.now.seen < self.now.count)) }
        ensures runs { Follows (S.state source.old) (S.state source.new) result (entry_in self.now.count self.now.seen offset) }
    {
        if self.seen == self.count {
            // The proof needs that the length is below 2^63.
            let _told = source.told();
            return Ok(None);
        }
        read_if_there::<S, 2>(source, offset)
    }
}

// The size at the end of the list.
#[inline(always)]
fn answer(largest: Option<ImageSize>) -> Result<ImageSize, Halt>
    ensures { result ≡ ok_or largest halt.Corrupted }
{
    largest.ok_or(Halt::Corrupted)
}

// The size of greater area, or the second of two equal ones.
fn larger(best: Option<ImageSize>, size: ImageSize) -> ImageSize
    requires best { IsIconIfSome best }
    requires is { IsIcon size }
    ensures icon { IsIcon result }
    ensures later { Some result ≡ later_largest best size }
{
    match best {
        Some(best) if area(&best) > area(&size) => best,
        _ => size,
    }
}

// The area of an icon in pixels.
fn area(size: &ImageSize) -> usize
    requires { IsIcon size.now }
    ensures { result ≡ area_of size.now }
{
    size.width * size.height
}

// The size from the first two bytes of an entry.
fn icon_size(bytes: [u8; 2]) -> ImageSize
    ensures icon { IsIcon result }
    ensures is { result ≡ icon_size bytes }
{
    let [width, height] = bytes;
    ImageSize {
        width: icon_side(width),
        height: icon_side(height),
    }
}

// A width or a height in pixels. The byte 0 means 256.
fn icon_side(byte: u8) -> usize
    ensures most { result ≤ 256 }
    ensures is { result ≡ icon_side byte }
{
    if byte == 0 { 256 } else { byte as usize }
}
