//! TIFF, by "TIFF Revision 6.0" (section 2), and BigTIFF, by "The BigTIFF File Format".
ghost use Rattle.std.specs.Prelude.{◌≡◌, ◌+◌, ◌<◌, ◌≤◌, IfErr, IfOk, false, take, length};
ghost use Rattle.imagesize_walked.specs.Tiff.{byte_order, count_bytes, directory_at, entry_bytes, head_bytes, is_tiff, field_type_in, field_type_of, side_with, stated_offset, tag_in, tiff, tiff_entries, tiff_entry, tiff_head, tiff_header, tiff_value, value_bytes, value_of, version_of};
ghost use Rattle.imagesize_walked.specs.Walks.{listed_end, listed_first, listed_step, tiff_open, tiff_step};
ghost use Rattle.imagesize_walked.specs.declared.formats.tiff.Directory.TheVariants as directory;
ghost use Rattle.imagesize_types.specs.Sides.{size_if_known};
ghost use Rattle.imagesize_source.specs.Chain.{chain_at};
ghost use Rattle.imagesize_source.specs.Paying.{Nears, Paid, ahead_of};
ghost use Rattle.imagesize_source.specs.Walk.{said_at};
ghost use Rattle.imagesize_source.specs.Reading.{is_stopped, map_answer, number_read};
ghost use Rattle.imagesize_source.specs.State.{Runs, Follows, IsSound};

use imagesize_source::readings::{
    read_bytes, read_exact_at, read_u16, read_u32, read_u64, read_whole_behind,
};
use imagesize_source::source::Source;
use imagesize_source::walk::{Found, RecordResult, Records, Start, walk};
use imagesize_source::{Endian, Halt};
use imagesize_types::size::{ImageSize, size_if_known};

/// Whether the input begins with a byte order, followed by a version in that order.
#[inline(always)]
#[tactic(auto, unfolding(crate::specs::Tiff::is_tiff))]
pub fn matches(head: &[u8; 12]) -> bool
    ensures { result ≡ is_tiff head.now }
{
    matches!(
        head,
        [b'I', b'I', 42 | 43, 0, ..] | [b'M', b'M', 0, 42 | 43, ..]
    )
}

/// The width and the height in pixels. They are known after the first entry of the first directory that completes them.
#[tactic(auto, using(imagesize_source::proofs::Runs::steps))]
pub fn size<S: Source>(source: &mut S) -> Result<ImageSize, Halt>
    ensures { Runs (S.state source.old) (S.state source.new) result (tiff (S.state source.old).held.input) }
{
    let header = read_header(source)?;
    let count = read_count(source, &header, header.directory)?;
    find_size(source, &header, count)
}

/// Reads the header. Returns the state before the first directory, and the offset of that directory.
#[tactic(auto, using(imagesize_source::proofs::Runs::steps, imagesize_source::proofs::Layouts::binding))]
pub fn open<S: Source>(source: &mut S) -> Result<Start<Directory>, Halt>
    ensures { Follows (S.state source.old) (S.state source.new) result tiff_open }
{
    let header = read_header(source)?;
    Ok(Start {
        records: Directory::Count { header },
        offset: header.directory,
    })
}

/// Which of the two formats the file has.
#[derive(Clone, Copy)]
pub enum Version {
    /// TIFF.
    Tiff,
    /// BigTIFF.
    BigTiff,
}

/// The byte order of all numbers, the version, and the offset of the first directory.
#[derive(Clone, Copy)]
pub struct Header {
    /// The order of all numbers.
    pub order: Endian,
    /// Which format it is.
    pub version: Version,
    /// Where the first directory is.
    pub directory: u64,
}

/// Reads the header.
#[tactic(auto, using(imagesize_source::proofs::Runs::steps, imagesize_source::proofs::Layouts::binding), unfolding(crate::specs::Tiff::tiff_header))]
pub fn read_header<S: Source>(source: &mut S) -> Result<Header, Halt>
    ensures { Follows (S.state source.old) (S.state source.new) result tiff_header }
{
    let mark = read_bytes::<S, 2>(source, 0)?;
    let order = byte_order(mark)?;
    let version = version_of(read_u16(source, 2, order)?)?;
    let offset = read_offset(source, order, version)?;
    let header = directory_at(order, version, offset)?;
    Ok(header)
}

// The byte order of all numbers, from the first two bytes.
#[inline(always)]
fn byte_order(mark: [u8; 2]) -> Result<Endian, Halt>
    ensures { result ≡ byte_order mark }
{
    match mark {
        [b'I', b'I'] => Ok(Endian::Little),
        [b'M', b'M'] => Ok(Endian::Big),
        _ => Err(Halt::InvalidTiffHeader),
    }
}

// The version, from the number after the byte order.
#[inline(always)]
fn version_of(number: u16) -> Result<Version, Halt>
    ensures { result ≡ version_of number }
{
    match number {
        42 => Ok(Version::Tiff),
        43 => Ok(Version::BigTiff),
        _ => Err(Halt::InvalidTiffHeader),
    }
}

// The header for a directory at this offset, which must not be 0.
#[inline(always)]
fn directory_at(order: Endian, version: Version, offset: u64) -> Result<Header, Halt>
    ensures { result ≡ directory_at order version offset }
{
    if offset == 0 {
        return Err(Halt::InvalidIfdOffset);
    }
    Ok(Header {
        order,
        version,
        directory: offset,
    })
}

// Reads the offset of the first directory, as the file states it.
#[tactic(auto, using(imagesize_source::proofs::Runs::steps), unfolding(crate::specs::Tiff::stated_offset))]
fn read_offset<S: Source>(source: &mut S, order: Endian, version: Version) -> Result<u64, Halt>
    ensures { Follows (S.state source.old) (S.state source.new) result (stated_offset order version) }
{
    match version {
        Version::Tiff => {
            let offset = read_u32(source, 4, order)?;
            Ok(offset as u64)
        }
        Version::BigTiff => read_big_offset(source, order),
    }
}

// Reads the offset of the first directory in a BigTIFF. Before it come the size of an offset and two bytes that must be zero.
#[tactic(auto, using(imagesize_source::proofs::Runs::steps), unfolding(crate::specs::Tiff::stated_offset))]
fn read_big_offset<S: Source>(source: &mut S, order: Endian) -> Result<u64, Halt>
    ensures { Follows (S.state source.old) (S.state source.new) result (stated_offset order Version.BigTiff) }
{
    if read_u16(source, 4, order)? != 8 {
        return Err(Halt::BigTiffOffsetSize);
    }
    if read_u16(source, 6, order)? != 0 {
        return Err(Halt::InvalidBigTiffHeader);
    }
    let offset = read_u64(source, 8, order)?;
    Ok(offset)
}

// Reads how many entries the directory at an offset states that it has.
#[tactic(auto, using(imagesize_source::proofs::Runs::steps))]
fn read_count<S: Source>(source: &mut S, header: &Header, offset: u64) -> Result<u64, Halt>
    ensures pays { IfOk result (λ _. Paid (S.state source.old) (S.state source.new) offset) }
    ensures runs { Runs (S.state source.old) (S.state source.new) result
        (number_read (S.state source.old).held.input header.now.order offset (count_bytes header.now.version)) }
{
    match header.version {
        Version::Tiff => read_short(source, offset, header.order),
        Version::BigTiff => read_long(source, offset, header.order),
    }
}

// A number of two bytes.
#[inline(always)]
#[tactic(auto, using(imagesize_source::proofs::Runs::number_there, imagesize_source::proofs::Runs::number_missing))]
fn read_short<S: Source>(source: &mut S, offset: u64, order: Endian) -> Result<u64, Halt>
    ensures pays { IfOk result (λ _. Paid (S.state source.old) (S.state source.new) offset) }
    ensures runs { Runs (S.state source.old) (S.state source.new) result (number_read (S.state source.old).held.input order offset 2) }
{
    let bytes = read_bytes::<S, 2>(source, offset)?;
    Ok(order.u16(bytes) as u64)
}

// A number of eight bytes.
#[inline(always)]
#[tactic(auto, using(imagesize_source::proofs::Runs::number_there, imagesize_source::proofs::Runs::number_missing))]
fn read_long<S: Source>(source: &mut S, offset: u64, order: Endian) -> Result<u64, Halt>
    ensures pays { IfOk result (λ _. Paid (S.state source.old) (S.state source.new) offset) }
    ensures runs { Runs (S.state source.old) (S.state source.new) result (number_read (S.state source.old).held.input order offset 8) }
{
    let bytes = read_bytes::<S, 8>(source, offset)?;
    Ok(order.u64(bytes))
}

// The size from the first `count` entries of the directory.
fn find_size<S: Source>(source: &mut S, header: &Header, count: u64) -> Result<ImageSize, Halt>
    requires { IsSound (S.state source.old) }
    ensures { Runs (S.state source.old) (S.state source.new) result
        (chain_at (tiff_entries header.now count) (S.state source.old).held.input) }
{
    match header.version {
        Version::Tiff => find_size_of::<S, 8, 4>(source, header, count),
        Version::BigTiff => find_size_of::<S, 12, 8>(source, header, count),
    }
}

// The size from the first `count` entries. An entry has a head of `HEAD` bytes and a value of `VALUE` bytes. An offset above 2^64
// - 1 is past the end of every input.
#[inline(always)]
fn find_size_of<S: Source, const HEAD: usize, const VALUE: usize>(
    source: &mut S,
    header: &Header,
    count: u64,
) -> Result<ImageSize, Halt>
    requires sound { IsSound (S.state source.old) }
    requires head { HEAD ≡ head_bytes header.now.version }
    requires value { VALUE ≡ value_bytes header.now.version }
    ensures { Runs (S.state source.old) (S.state source.new) result
        (chain_at (tiff_entries header.now count) (S.state source.old).held.input) }
{
    let listed = listed_first(header, count);
    let first = header.directory.saturating_add(count_bytes(header.version));
    walk(Entries::<HEAD, VALUE> { listed }, source, first)
}

/// How the directory's entries are read, how many are left, and the width and the height from those that were read.
#[derive(Clone, Copy)]
pub struct Listed {
    /// The order of all numbers.
    pub order: Endian,
    /// Which format it is.
    pub version: Version,
    /// How many entries were not read yet.
    pub left: u64,
    /// The width in pixels, from the last entry with the tag 0x100. `None` if there is none, or if it has no such value.
    pub width: Option<u32>,
    /// The height in pixels, from the last entry with the tag 0x101. `None` as for the width.
    pub height: Option<u32>,
}

// A directory of `count` entries, none of which was read.
#[inline(always)]
fn listed_first(header: &Header, count: u64) -> Listed
    ensures { result ≡ listed_first header.now count }
{
    Listed {
        order: header.order,
        version: header.version,
        left: count,
        width: None,
        height: None,
    }
}

/// The entries of the directory, each with a head of `HEAD` bytes and a value of `VALUE` bytes.
#[derive(Drop)]
pub struct Entries<const HEAD: usize, const VALUE: usize> {
    /// The state before the next entry.
    pub listed: Listed,
    ghost head: { HEAD ≡ head_bytes listed.version },
    ghost value: { VALUE ≡ value_bytes listed.version },
}

impl<const HEAD: usize, const VALUE: usize> Records for Entries<HEAD, VALUE> {
    type State = Listed;

    type Answer = ImageSize;

    ghost step = { listed_step };

    ghost state = { λ entries. entries.listed };

    // Reads the entry at an offset.
    #[inline(always)]
    fn read_record<S: Source>(&mut self, source: &mut S, offset: u64) -> RecordResult<ImageSize> {
        read_next::<S, HEAD, VALUE>(&mut self.listed, source, offset)
    }

    // No entry is left, or the input ends before the next one.
    #[inline(always)]
    #[tactic(auto, using(crate::proofs::Tiff::listed_ends))]
    fn at_end(&self) -> Result<ImageSize, Halt> {
        none_left(&self.listed)
    }
}

/// The first directory: the number of its entries, and then these.
#[derive(Clone, Copy)]
pub enum Directory {
    /// The number of entries is next.
    Count {
        /// The header.
        header: Header,
    },
    /// An entry is next.
    Entry(Listed),
}

impl Records for Directory {
    type State = Directory;

    type Answer = ImageSize;

    ghost step = { tiff_step };

    ghost state = { λ directory. directory };

    // Reads the number of entries, or the entry at an offset.
    #[inline(always)]
    fn read_record<S: Source>(&mut self, source: &mut S, offset: u64) -> RecordResult<ImageSize> {
        match self {
            Directory::Count { header } => {
                let header = *header;
                self.read_number(source, offset, header)
            }
            Directory::Entry(listed) => read_listed(listed, source, offset),
        }
    }

    // No entry is left, or the input ends before the next one.
    #[inline(always)]
    fn at_end(&self) -> Result<ImageSize, Halt> {
        match self {
            Directory::Count { .. } => Err(Halt::Ended),
            Directory::Entry(listed) => none_left(listed),
        }
    }
}

impl Directory {
    // Reads the number of entries at an offset.
    #[tactic(auto, using(imagesize_source::proofs::Runs::steps))]
    fn read_number<S: Source>(
        &mut self,
        source: &mut S,
        offset: u64,
        header: Header,
    ) -> RecordResult<ImageSize>
        ensures nears { IfOk result (λ found. Nears (S.state source.old) (S.state source.new) offset (said_at self.new offset found)) }
        ensures stays { IfErr result (λ _. self.new ≡ self.old) }
        ensures runs { Follows (S.state source.old) (S.state source.new) (map_answer (said_at self.new offset) result)
            (tiff_step (directory.Count header) offset) }
    {
        let count = read_count(source, &header, offset)?;
        *self = Directory::Entry(listed_first(&header, count));
        Ok(Found::Other {
            length: count_bytes(header.version),
        })
    }
}

// Reads the entry at an offset, by the version.
fn read_listed<S: Source>(
    listed: &mut Listed,
    source: &mut S,
    offset: u64,
) -> RecordResult<ImageSize>
    ensures nears { IfOk result (λ found. Nears (S.state source.old) (S.state source.new) offset (said_at listed.new offset found)) }
    ensures stays { IfErr result (λ _. listed.new ≡ listed.old) }
    ensures runs { Follows (S.state source.old) (S.state source.new) (map_answer (said_at listed.new offset) result)
        (listed_step listed.old offset) }
{
    match listed.version {
        Version::Tiff => read_next::<S, 8, 4>(listed, source, offset),
        Version::BigTiff => read_next::<S, 12, 8>(listed, source, offset),
    }
}

// The result at the end of the input: no entry is left, or the next one is missing.
#[inline(always)]
fn none_left(listed: &Listed) -> Result<ImageSize, Halt>
    ensures { result ≡ listed_end listed.now }
{
    if listed.left == 0 {
        return Err(Halt::NoDimensionsInIfd);
    }
    Err(Halt::Ended)
}

// Reads the entry at an offset. The state is changed where it is stored. For a stream, this saves 14 of 120 instructions an
// entry.
#[inline(always)]
fn read_next<S: Source, const HEAD: usize, const VALUE: usize>(
    listed: &mut Listed,
    source: &mut S,
    offset: u64,
) -> RecordResult<ImageSize>
    requires head { HEAD ≡ head_bytes listed.old.version }
    requires value { VALUE ≡ value_bytes listed.old.version }
    ensures version { listed.new.version ≡ listed.old.version }
    ensures nears { IfOk result (λ found. Nears (S.state source.old) (S.state source.new) offset (said_at listed.new offset found)) }
    ensures stays { IfErr result (λ _. listed.new ≡ listed.old) }
    ensures runs { Follows (S.state source.old) (S.state source.new) (map_answer (said_at listed.new offset) result)
        (listed_step listed.old offset) }
{
    if listed.left == 0 {
        // The proof needs that the length is below 2^63.
        let _told = source.told();
        return Err(Halt::NoDimensionsInIfd);
    }
    let entry = read_entry::<S, HEAD, VALUE>(source, listed.order, listed.version, offset)?;
    listed.left -= 1;
    match size_with(&entry, &mut listed.width, &mut listed.height) {
        Some(size) => Ok(Found::Answer(size)),
        None => Ok(Found::Other {
            length: (HEAD + VALUE) as u64,
        }),
    }
}

// Keeps the value of an entry that states a side, or `None` if it has none. Returns the size, if both sides are known.
#[inline(always)]
fn size_with(entry: &Entry, width: &mut Option<u32>, height: &mut Option<u32>) -> Option<ImageSize>
    ensures width { width.new ≡ side_with 0x100 width.old entry.now }
    ensures height { height.new ≡ side_with 0x101 height.old entry.now }
    ensures size { result ≡ size_if_known width.new height.new }
{
    match entry.tag {
        0x100 => *width = entry.value,
        0x101 => *height = entry.value,
        // Without a width there is no size. In a directory of many other entries, this saves 4 of 70 instructions for each.
        _ if width.is_none() => return None,
        _ => {}
    }
    size_of_sides(*width, *height)
}

// The size, where both sides are known.
#[inline(always)]
fn size_of_sides(width: Option<u32>, height: Option<u32>) -> Option<ImageSize>
    ensures { result ≡ size_if_known width height }
{
    size_if_known(in_pixels(width), in_pixels(height))
}

// A side in pixels.
#[inline(always)]
fn in_pixels(side: Option<u32>) -> Option<usize>
    ensures { result ≡ side }
{
    match side {
        Some(side) => Some(side as usize),
        None => None,
    }
}

/// The size of a directory's entry count in bytes.
#[inline(always)]
pub fn count_bytes(version: Version) -> u64
    ensures { result ≡ count_bytes version }
{
    match version {
        Version::Tiff => 2,
        Version::BigTiff => 8,
    }
}

/// The length of an entry in bytes.
#[inline(always)]
pub fn entry_bytes(version: Version) -> u64
    ensures is { result ≡ entry_bytes version }
    ensures few { result ≤ 20 }
{
    match version {
        Version::Tiff => 12,
        Version::BigTiff => 20,
    }
}

/// What an entry says: its tag, and its value if its field type can hold a width or a height.
#[derive(Clone, Copy)]
pub struct Entry {
    /// Its tag.
    pub tag: u16,
    /// Its value, where its field type has one that a side can be.
    pub value: Option<u32>,
}

// Reads the entry at an offset, with a head of `HEAD` bytes and a value of `VALUE` bytes. Its field type is checked before its
// value is read.
#[inline(always)]
#[tactic(auto, using(imagesize_source::proofs::Runs::steps, imagesize_source::proofs::Layouts::binding), unfolding(crate::specs::Tiff::tiff_entry))]
fn read_entry<S: Source, const HEAD: usize, const VALUE: usize>(
    source: &mut S,
    order: Endian,
    version: Version,
    offset: u64,
) -> Result<Entry, Halt>
    requires head { HEAD ≡ head_bytes version }
    requires value { VALUE ≡ value_bytes version }
    ensures nears { IfOk result (λ entry. ahead_of (S.state source.new) (offset + 1) < ahead_of (S.state source.old) offset) }
    ensures runs { Follows (S.state source.old) (S.state source.new) result (tiff_entry order version offset) }
{
    let head = read_head::<S, HEAD>(source, version, offset)?;
    let field_type = field_type_of(version, field_type_in(order, head))?;
    let value = read_value::<S, VALUE>(source, version, offset, HEAD as u64)?;
    Ok(Entry {
        tag: tag_in(order, head),
        value: value_of(order, field_type, value),
    })
}

// Reads the head of an entry, and returns its first four bytes.
#[inline(always)]
#[tactic(auto, using(imagesize_source::proofs::Runs::steps), unfolding(crate::specs::Tiff::tiff_head))]
fn read_head<S: Source, const HEAD: usize>(
    source: &mut S,
    version: Version,
    offset: u64,
) -> Result<[u8; 4], Halt>
    requires { HEAD ≡ head_bytes version }
    ensures nears { IfOk result (λ head. ahead_of (S.state source.new) (offset + 1) < ahead_of (S.state source.old) offset) }
    ensures runs { Follows (S.state source.old) (S.state source.new) result (tiff_head version offset) }
{
    let mut head = [0u8; HEAD];
    read_exact_at(source, offset, &mut head)?;
    Ok(first_four(&head))
}

// Reads the value of an entry, and returns its first four bytes. It is an error if the input ends within the value.
#[inline(always)]
#[tactic(auto, using(imagesize_source::proofs::Runs::steps), unfolding(crate::specs::Tiff::tiff_value))]
fn read_value<S: Source, const VALUE: usize>(
    source: &mut S,
    version: Version,
    offset: u64,
    distance: u64,
) -> Result<[u8; 4], Halt>
    requires { VALUE ≡ value_bytes version }
    ensures { Follows (S.state source.old) (S.state source.new) result (tiff_value version (offset + distance)) }
{
    let mut value = [0u8; VALUE];
    if !read_whole_behind(source, offset, distance, &mut value)? {
        return Err(Halt::InvalidIfdValueLength);
    }
    Ok(first_four(&value))
}

#[inline(always)]
fn first_four(bytes: &[u8]) -> [u8; 4]
    requires { 4 ≤ length bytes.now }
    ensures { result ≡ take 4 bytes.now }
{
    [bytes[0], bytes[1], bytes[2], bytes[3]]
}

#[inline(always)]
fn tag_in(order: Endian, head: [u8; 4]) -> u16
    ensures { result ≡ tag_in order head }
{
    let [first, second, _, _] = head;
    order.u16([first, second])
}

#[inline(always)]
fn field_type_in(order: Endian, head: [u8; 4]) -> u16
    ensures { result ≡ field_type_in order head }
{
    let [_, _, first, second] = head;
    order.u16([first, second])
}

// What the value of an entry is, by its field type.
#[derive(Clone, Copy)]
enum FieldType {
    // A number of two bytes.
    Short,
    // A number of four bytes.
    Long,
    // Anything else.
    Other,
}

// What the value of a field type is. Three field types exist in BigTIFF only.
#[inline(always)]
fn field_type_of(version: Version, field_type: u16) -> Result<FieldType, Halt>
    ensures value { result ≡ field_type_of version field_type }
    ensures goes_on { is_stopped result ≡ false }
{
    match (field_type, version) {
        (3 | 8, _) => Ok(FieldType::Short),
        (4 | 9 | 11 | 13, _) => Ok(FieldType::Long),
        (1 | 2 | 5 | 6 | 7 | 10 | 12, _) => Ok(FieldType::Other),
        (16..=18, Version::BigTiff) => Ok(FieldType::Other),
        (16..=18, Version::Tiff) => Err(Halt::IfdTypeForStandardTiff),
        _ => Err(Halt::InvalidIfdType),
    }
}

// The number that a value begins with, from its first four bytes.
#[inline(always)]
fn value_of(order: Endian, field_type: FieldType, value: [u8; 4]) -> Option<u32>
    ensures { result ≡ value_of order field_type value }
{
    let [first, second, _, _] = value;
    match field_type {
        FieldType::Short => Some(order.u16([first, second]) as u32),
        FieldType::Long => Some(order.u32(value)),
        FieldType::Other => None,
    }
}
