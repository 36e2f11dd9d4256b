//! OpenEXR: "OpenEXR File Layout". Walks along the attributes up to the first data window that is not reversed.
ghost use Rattle.std.specs.Prelude.{◌≡◌, ◌+◌, ◌<◌, ◌≤◌, length, IfOk};
ghost use Rattle.imagesize_source.specs.Paying.{Nears, Paid};
ghost use Rattle.imagesize_source.specs.Reading.{map_answer};
ghost use Rattle.imagesize_source.specs.State.{Follows, Runs};
ghost use Rattle.imagesize_source.specs.Walk.{said_at};
ghost use Rattle.imagesize_texts.specs.Exr.{exr, exr_open, exr_step, is_box, is_data_window, is_exr, name_room, names_of, window_side, signed_at, window_size};
ghost use Rattle.imagesize_texts.specs.Texts.{line_read};

use crate::util::{read_line_capped, read_u32_behind};
use imagesize_source::readings::{read_bytes_behind, read_u32};
use imagesize_source::source::Source;
use imagesize_source::walk::{Found, RecordResult, Records, Start, ended, walk};
use imagesize_source::{Endian, Halt};
use imagesize_types::size::{ImageSize, size_if_known};

/// Whether the input begins with the magic number.
#[inline]
#[tactic(auto, unfolding(crate::specs::Exr::is_exr))]
pub fn matches(head: &[u8; 12]) -> bool
    ensures { result ≡ is_exr head.now }
{
    matches!(head, [0x76, 0x2F, 0x31, 0x01, ..])
}

/// The size in pixels of the first data window that is not reversed.
///
/// # Errors
///
/// - `DataWindowNotFound`: the attributes end before such a window.
/// - `NoDelimiter`: a name is too long.
/// - `NotUtf8`: a name is not UTF-8.
/// - `Ended`: the input ends before the size.
#[tactic(auto, using(imagesize_source::proofs::Runs::steps))]
pub fn size<S: Source>(source: &mut S) -> Result<ImageSize, Halt>
    ensures { Runs (S.state source.old) (S.state source.new) result
        (exr (S.state source.old).held.input) }
{
    let start = open(source)?;
    let attributes = Attributes {
        long: start.records,
        buffer: [0; 256],
    };
    walk(attributes, source, start.offset)
}

/// Reads the version. Returns whether names may be long, and the offset of the first attribute.
#[inline(always)]
#[tactic(auto, using(imagesize_source::proofs::Runs::steps))]
pub fn open<S: Source>(source: &mut S) -> Result<Start<bool>, Halt>
    ensures { Follows (S.state source.old) (S.state source.new) result exr_open }
{
    let version = read_u32(source, 4, Endian::Little)?;
    Ok(Start {
        records: name_room(version) > 32,
        offset: 8,
    })
}

// The greatest length of a name in bytes, with the zero that ends it.
#[inline]
#[tactic(auto, unfolding(crate::specs::Exr::name_room))]
fn name_room(version: u32) -> usize
    ensures { result ≡ name_room version }
{
    if version & 0x400 == 0 { 32 } else { 256 }
}

/// The greatest length of a name in bytes, with the zero that ends it: 256 if names may be long, else 32.
#[inline(always)]
pub fn names_of(long: bool) -> usize
    ensures { result ≡ names_of long }
{
    if long { 256 } else { 32 }
}

/// The attributes.
#[derive(Drop)]
pub struct Attributes {
    /// Whether their names may be long.
    pub long: bool,
    /// The names are read into this buffer.
    pub buffer: [u8; 256],
}

impl Records for Attributes {
    type State = bool;

    type Answer = ImageSize;

    ghost step = { exr_step };

    ghost state = { λ attributes. attributes.long };

    // Reads the attribute at an offset.
    #[inline(always)]
    fn read_record<S: Source>(&mut self, source: &mut S, offset: u64) -> RecordResult<ImageSize> {
        read_attribute(source, offset, self.long, &mut self.buffer)
    }

    // The input ends before the size.
    #[inline(always)]
    #[tactic(auto, using(crate::proofs::Exr::exr_ends))]
    fn at_end(&self) -> Result<ImageSize, Halt> {
        ended()
    }
}

/// Reads the attribute at an offset. Its names are read into the caller's buffer. Returns the size from a data window that is not
/// reversed, or the length of another attribute in bytes.
#[inline(always)]
#[tactic(auto, using(imagesize_source::proofs::Runs::steps, imagesize_source::proofs::Runs::missed_before, imagesize_source::proofs::Layouts::binding))]
pub fn read_attribute<S: Source>(
    source: &mut S,
    offset: u64,
    long: bool,
    buffer: &mut [u8],
) -> RecordResult<ImageSize>
    requires { names_of long ≤ length buffer.old }
    ensures nears { IfOk result (λ found. Nears (S.state source.old) (S.state source.new) offset (said_at long offset found)) }
    ensures runs { Follows (S.state source.old) (S.state source.new) (map_answer (said_at long offset) result)
        (exr_step long offset) }
{
    let names = names_of(long);
    let name = read_name(source, offset, names, buffer)?;
    if name.is_empty() {
        return Err(Halt::DataWindowNotFound);
    }
    let is_window = is_data_window(name);
    let typed = name.len() as u64 + 1;
    let type_name = read_name_behind(source, offset, typed, names, buffer)?;
    let is_window = is_window && is_box(type_name);
    let sized = typed + (type_name.len() as u64 + 1);
    let size = read_u32_behind(source, offset, sized, Endian::Little)?;
    let taken = sized + 4;
    if !is_window {
        return Ok(Found::Other {
            length: taken + size as u64,
        });
    }
    let window = read_bytes_behind::<S, 16>(source, offset, taken)?;
    Ok(match window_size(&window) {
        Some(size) => Found::Answer(size),
        None => Found::Other { length: taken + 16 },
    })
}

// The name at an offset, up to a zero byte that must be among the first `names` bytes. Inlined: a call for each of both names would
// cost 67 of 214 instructions an attribute.
#[inline(always)]
fn read_name<'a, S: Source>(
    source: &mut S,
    offset: u64,
    names: usize,
    buffer: &'a mut [u8],
) -> Result<&'a str, Halt>
    requires few { names ≤ 256 }
    requires fits { names ≤ length buffer.old }
    ensures bound { IfOk result (λ text. length text.now < names) }
    ensures pays { IfOk result (λ text. Paid (S.state source.old) (S.state source.new) offset) }
    ensures runs { Runs (S.state source.old) (S.state source.new)
        (map_answer (λ text. text.now) result)
        (line_read (S.state source.old).held.input 0 offset names) }
{
    read_line_capped(source, offset, 0, &mut buffer[..names])
}

// The name at `offset + distance`. An offset above 2^64 - 1 is past the end of every input.
fn read_name_behind<'a, S: Source>(
    source: &mut S,
    offset: u64,
    distance: u64,
    names: usize,
    buffer: &'a mut [u8],
) -> Result<&'a str, Halt>
    requires few { names ≤ 256 }
    requires fits { names ≤ length buffer.old }
    ensures bound { IfOk result (λ text. length text.now < names) }
    ensures runs { Runs (S.state source.old) (S.state source.new)
        (map_answer (λ text. text.now) result)
        (line_read (S.state source.old).held.input 0 (offset + distance) names) }
{
    read_name(source, offset.saturating_add(distance), names, buffer)
}

// Whether this is the name of the data window.
#[inline]
#[tactic(auto, unfolding(crate::specs::Exr::is_data_window))]
fn is_data_window(name: &str) -> bool
    ensures { result ≡ is_data_window name.now }
{
    matches!(
        name.as_bytes(),
        [b'd', b'a', b't', b'a', b'W', b'i', b'n', b'd', b'o', b'w']
    )
}

// Whether this is the type of a box of integers.
#[inline]
#[tactic(auto, unfolding(crate::specs::Exr::is_box))]
fn is_box(type_name: &str) -> bool
    ensures { result ≡ is_box type_name.now }
{
    matches!(type_name.as_bytes(), [b'b', b'o', b'x', b'2', b'i'])
}

// The size of a data window, or `None` if the window is reversed.
#[tactic(auto, unfolding(crate::specs::Exr::window_size))]
fn window_size(bytes: &[u8; 16]) -> Option<ImageSize>
    ensures { result ≡ window_size bytes.now }
{
    let width = side(signed_at(bytes, 0), signed_at(bytes, 8));
    let height = side(signed_at(bytes, 4), signed_at(bytes, 12));
    size_if_known(width, height)
}

// The signed number that the four bytes from an offset on encode.
#[tactic(auto, using(crate::proofs::Exr::signed_four))]
fn signed_at(bytes: &[u8; 16], offset: usize) -> i32
    requires { offset ≤ 12 }
    ensures { result ≡ signed_at offset bytes.now }
{
    i32::from_le_bytes([
        bytes[offset],
        bytes[offset + 1],
        bytes[offset + 2],
        bytes[offset + 3],
    ])
}

// How many integers there are from `low` to `high`, including both. `None` if `low` is above `high`.
#[tactic(auto, unfolding(crate::specs::Exr::window_side))]
fn side(low: i32, high: i32) -> Option<usize>
    ensures { result ≡ window_side low high }
{
    if low > high {
        return None;
    }
    Some(high.abs_diff(low) as usize + 1)
}
