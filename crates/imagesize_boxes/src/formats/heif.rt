//! HEIF and AVIF. ISO/IEC 14496-12, sections 4.2 (boxes), 4.3 (`ftyp`) and 8.11.1 (`meta`); ISO/IEC 23008-12 (the brands, the
//! properties and their list). The brands of AVIF are those of the AV1 Image File Format.
ghost use Rattle.std.specs.Prelude.{◌≡◌, ◌+◌, ◌<◌, ◌≤◌, Some, IfErr, IfOk};
ghost use Rattle.imagesize_boxes.specs.Heif.{box_size, brand_compression, compatible_compression, extents_size, heif, heif_compression, heif_in_iprp, heif_in_meta, is_general, is_heif, is_named, properties, property_at, property_bytes, search_for, searched_box, skipped_bytes, turn_by};
ghost use Rattle.imagesize_boxes.specs.Walks.{box_said, property_said, earlier_largest, gathered_with, gathered_first, gathered_answer, heif_open, heif_step, list_step, search_step, IsLeftFor};
ghost use Rattle.imagesize_source.specs.Chain.{chain_at};
ghost use Rattle.imagesize_source.specs.Paying.{Nears, Paid};
ghost use Rattle.imagesize_source.specs.Walk.{said_at};
ghost use Rattle.imagesize_source.specs.Reading.{bytes_read, map_answer};
ghost use Rattle.imagesize_source.specs.State.{Follows, Runs, IsSound};
ghost use Rattle.imagesize_boxes.specs.declared.formats.heif.Sought.TheVariants as sought;

use imagesize_source::readings::{
    read_bytes_behind, read_exact_at, read_u32, read_whole_at, read_whole_behind,
};
use imagesize_source::source::Source;
use imagesize_source::walk::{Found, RecordResult, Records, Start, walk};
use imagesize_source::{Endian, Halt};
use imagesize_types::compression::Compression;
use imagesize_types::size::{ImageSize, area};

/// Whether the input begins with a file type box (`ftyp`).
#[inline(always)]
#[tactic(auto, unfolding(crate::specs::Heif::is_heif))]
pub fn matches(head: &[u8; 12]) -> bool
    ensures { result ≡ is_heif head.now }
{
    matches!(head, [_, _, _, _, b'f', b't', b'y', b'p', ..])
}

/// How the pixels are compressed, by the major brand. If that is a general one, the compatible brands decide.
#[tactic(auto, using(imagesize_source::proofs::Runs::steps), unfolding(crate::specs::Heif::heif_compression))]
pub fn detect_compression<S: Source>(
    source: &mut S,
    offset: u64,
    head: &[u8; 12],
) -> Result<Compression, Halt>
    requires { IsSound (S.state source.old) }
    ensures { Follows (S.state source.old) (S.state source.new) result (heif_compression offset head.now) }
{
    let brand = &head[8..];
    if !is_general(brand) {
        return Ok(brand_compression(brand));
    }
    // The version and the first two compatible brands.
    let mut brands = [0u8; 12];
    if !read_whole_behind(source, offset, 12, &mut brands)? {
        return Ok(Compression::Unknown);
    }
    Ok(compatible_compression(&brands))
}

fn compatible_compression(brands: &[u8; 12]) -> Compression
    ensures { result ≡ compatible_compression (Some brands.now) }
{
    if is_general(&brands[4..8]) {
        return brand_compression(&brands[8..]);
    }
    brand_compression(&brands[4..8])
}

#[inline(always)]
#[tactic(auto, unfolding(crate::specs::Heif::is_general))]
fn is_general(brand: &[u8]) -> bool
    ensures { result ≡ is_general brand.now }
{
    matches!(brand, b"mif1" | b"msf1" | b"mif2" | b"miaf")
}

#[tactic(auto, unfolding(crate::specs::Heif::brand_compression))]
fn brand_compression(brand: &[u8]) -> Compression
    ensures { result ≡ brand_compression brand.now }
{
    match brand {
        b"heic" | b"heix" | b"heis" | b"hevs" | b"heim" | b"hevm" | b"hevc" | b"hevx" => {
            Compression::Hevc
        }
        b"avif" | b"avio" | b"avis" | b"MA1A" | b"MA1B" => Compression::Av1,
        b"jpeg" | b"jpgs" => Compression::Jpeg,
        _ => Compression::Unknown,
    }
}

/// The width and the height in pixels, of the image with the greatest area among the properties, or the first of several. The two
/// are exchanged if the last rotation is a quarter turn or three quarters.
#[tactic(auto, using(imagesize_source::proofs::Runs::steps))]
pub fn size<S: Source>(source: &mut S) -> Result<ImageSize, Halt>
    ensures { Runs (S.state source.old) (S.state source.new) result
        (heif (S.state source.old).held.input) }
{
    let first = read_u32(source, 0, Endian::Big)? as u64;
    let meta = search_from(source, first, b"meta")?;
    size_in_meta(source, meta)
}

// The size from the `meta` box, which begins with its version and flags.
#[inline(always)]
#[tactic(auto, using(imagesize_source::proofs::Runs::steps))]
fn size_in_meta<S: Source>(source: &mut S, meta: FoundBox) -> Result<ImageSize, Halt>
    ensures { Runs (S.state source.old) (S.state source.new) result
        (heif_in_meta meta (S.state source.old).held.input) }
{
    read_content::<S, 4>(source, meta.offset)?;
    let iprp = search(source, meta.offset, 12, b"iprp")?;
    size_in_iprp(source, iprp)
}

// The size from the `iprp` box, which holds the item properties.
#[inline(always)]
#[tactic(auto, using(imagesize_source::proofs::Runs::steps))]
fn size_in_iprp<S: Source>(source: &mut S, iprp: FoundBox) -> Result<ImageSize, Halt>
    ensures { Runs (S.state source.old) (S.state source.new) result
        (heif_in_iprp iprp (S.state source.old).held.input) }
{
    let ipco = search(source, iprp.offset, 8, b"ipco")?;
    largest(source, ipco)
}

/// A box that a search found.
#[derive(Clone, Copy)]
pub struct FoundBox {
    /// Its offset.
    pub offset: u64,
    /// How many bytes it has.
    pub size: u32,
}

// Finds the first box with a name, from `offset + distance` on. An offset above 2^64 - 1 is past the end of every input.
#[inline(always)]
#[tactic(auto, using(crate::proofs::Heif::search_saturated))]
fn search<S: Source>(
    source: &mut S,
    offset: u64,
    distance: u64,
    name: &[u8; 4],
) -> Result<FoundBox, Halt>
    ensures { Runs (S.state source.old) (S.state source.new) result
        (chain_at (search_for name.now (offset + distance)) (S.state source.old).held.input) }
{
    search_from(source, offset.saturating_add(distance), name)
}

// Finds the first box with a name, from an offset on.
#[tactic(auto, using(crate::proofs::Heif::search_advances))]
fn search_from<S: Source>(source: &mut S, from: u64, name: &[u8; 4]) -> Result<FoundBox, Halt>
    ensures { Runs (S.state source.old) (S.state source.new) result
        (chain_at (search_for name.now from) (S.state source.old).held.input) }
{
    walk(Boxes { name: *name }, source, from)
}

// The boxes of a search, and the name that it looks for.
#[derive(Clone, Copy)]
struct Boxes {
    name: [u8; 4],
}

impl Records for Boxes {
    type State = Boxes;

    type Answer = FoundBox;

    ghost step = { search_step };

    ghost state = { λ boxes. boxes };

    // Reads the box at an offset.
    #[inline(always)]
    fn read_record<S: Source>(&mut self, source: &mut S, offset: u64) -> RecordResult<FoundBox> {
        read_box(source, offset, &self.name)
    }

    // The input ends before a box of this name.
    #[inline(always)]
    fn at_end(&self) -> Result<FoundBox, Halt> {
        Err(Halt::Ended)
    }
}

// Reads the box at an offset, and whether it has this name.
#[inline(always)]
#[tactic(auto, using(imagesize_source::proofs::Runs::steps))]
fn read_box<S: Source>(source: &mut S, offset: u64, name: &[u8; 4]) -> RecordResult<FoundBox>
    ensures pays { IfOk result (λ _. Paid (S.state source.old) (S.state source.new) offset) }
    ensures nears { IfOk result (λ found. Nears (S.state source.old) (S.state source.new) offset (box_said offset found)) }
    ensures runs { Follows (S.state source.old) (S.state source.new) (map_answer (box_said offset) result)
        (searched_box name.now offset) }
{
    // Read into a buffer: bytes returned in a result are copied in parts, and a load of the whole waits for all of them.
    let mut head = [0u8; 8];
    read_exact_at(source, offset, &mut head)?;
    let size = box_size(&head);
    if is_named(&head, name) {
        return Ok(Found::Answer(FoundBox { offset, size }));
    }
    if size < 8 {
        return Err(Halt::InvalidHeifBoxSize { size: size as u8 });
    }
    Ok(Found::Other {
        length: size as u64,
    })
}

// The size of a box in bytes, from its first four bytes.
#[inline(always)]
#[tactic(auto, using(crate::proofs::Heif::big_four), unfolding(crate::specs::Heif::box_size))]
fn box_size(head: &[u8; 8]) -> u32
    ensures { result ≡ box_size head.now }
{
    u32::from_be_bytes([head[0], head[1], head[2], head[3]])
}

// Whether the box has this name.
#[inline(always)]
#[tactic(auto, unfolding(crate::specs::Heif::is_named))]
fn is_named(head: &[u8; 8], name: &[u8; 4]) -> bool
    ensures { result ≡ is_named name.now head.now }
{
    head[4] == name[0] && head[5] == name[1] && head[6] == name[2] && head[7] == name[3]
}

// The first `N` bytes of a box's content, after its size and its name.
//
// Few properties reach it, so it is `inline` alone. Always inlined, it would make the walk along the properties so large that the
// `inline(always)` of that walk is dropped. In a slice, a property would take 25 instructions for 19.
#[inline]
fn read_content<S: Source, const N: usize>(source: &mut S, offset: u64) -> Result<[u8; N], Halt>
    requires { 0 < N }
    ensures { Runs (S.state source.old) (S.state source.new) result
        (bytes_read (S.state source.old).held.input (offset + 8) N) }
{
    read_bytes_behind::<S, N>(source, offset, 8)
}

/// What a property says.
#[derive(Clone, Copy)]
pub enum Property {
    /// The size of an image in pixels.
    Extents(ImageSize),
    /// A rotation, in quarter turns.
    Rotation(u8),
    /// Another box, of this size in bytes.
    Skipped(u32),
}

/// What the properties so far add up to.
#[derive(Clone, Copy)]
pub struct Gathered {
    /// The greatest image size so far.
    pub best: Option<ImageSize>,
    /// The size of the list's box in bytes, less the sizes of the skipped boxes.
    pub left: u32,
    /// The last rotation, in quarter turns.
    pub turn: Option<u8>,
}

// The size from the properties in this box.
#[inline(always)]
#[tactic(auto, using(crate::proofs::Heif::list_saturated))]
fn largest<S: Source>(source: &mut S, ipco: FoundBox) -> Result<ImageSize, Halt>
    ensures { Runs (S.state source.old) (S.state source.new) result
        (chain_at (properties ipco.size (ipco.offset + 8)) (S.state source.old).held.input) }
{
    largest_from(source, ipco.offset.saturating_add(8), ipco.size)
}

// The size from the properties that begin at an offset, in a box of `all` bytes.
fn largest_from<S: Source>(source: &mut S, from: u64, all: u32) -> Result<ImageSize, Halt>
    ensures { Runs (S.state source.old) (S.state source.new) result
        (chain_at (properties all from) (S.state source.old).held.input) }
{
    walk(gathered_first(all), source, from)
}

impl Records for Gathered {
    type State = Gathered;

    type Answer = ImageSize;

    ghost step = { list_step };

    ghost state = { λ gathered. gathered };

    // Reads the property at an offset.
    #[inline(always)]
    #[tactic(auto, using(imagesize_source::proofs::Runs::steps, imagesize_source::proofs::Layouts::binding))]
    fn read_record<S: Source>(&mut self, source: &mut S, offset: u64) -> RecordResult<ImageSize> {
        let Some(property) = read_property(source, offset, self.left)? else {
            return Ok(Found::Answer(answer(*self)?));
        };
        gather(self, property);
        Ok(Found::Other {
            length: property_bytes(property),
        })
    }

    // The size from the properties so far.
    #[inline(always)]
    #[tactic(auto, using(crate::proofs::Heif::list_ends))]
    fn at_end(&self) -> Result<ImageSize, Halt> {
        answer(*self)
    }
}

// Reads the property at an offset, or returns `None` at the end of the list. A box is skipped only if it is smaller than `left`
// bytes.
#[inline(always)]
#[tactic(auto, using(imagesize_source::proofs::Runs::steps, imagesize_source::proofs::Runs::missed_before))]
fn read_property<S: Source>(
    source: &mut S,
    offset: u64,
    left: u32,
) -> Result<Option<Property>, Halt>
    ensures nears { IfOk result (λ found. Nears (S.state source.old) (S.state source.new) offset (property_said offset found)) }
    ensures fits { IfOk result (λ found. IsLeftFor left found) }
    ensures runs { Follows (S.state source.old) (S.state source.new) result (property_at left offset) }
{
    // Read into a buffer, as in `read_box`.
    let mut head = [0u8; 8];
    if !read_whole_at(source, offset, &mut head)? {
        return Ok(None);
    }
    let size = box_size(&head);
    if size < 8 {
        return if is_named(&head, b"mdat") {
            Ok(None)
        } else {
            Err(Halt::Corrupted)
        };
    }
    if is_named(&head, b"ispe") {
        let content = read_content::<S, 12>(source, offset)?;
        return Ok(Some(Property::Extents(extents_size(&content))));
    }
    if is_named(&head, b"irot") {
        let [quarters] = read_content::<S, 1>(source, offset)?;
        return Ok(Some(Property::Rotation(quarters)));
    }
    if left <= size {
        return Ok(None);
    }
    Ok(Some(Property::Skipped(size)))
}

// How many bytes after a property the next one begins.
#[inline(always)]
fn property_bytes(property: Property) -> u64
    ensures { result ≡ property_bytes property }
{
    match property {
        Property::Extents(_) => 20,
        Property::Rotation(_) => 9,
        Property::Skipped(size) => size as u64,
    }
}

// The state before the first property, in a box of `all` bytes.
#[inline(always)]
fn gathered_first(all: u32) -> Gathered
    ensures { result ≡ gathered_first all }
{
    Gathered {
        best: None,
        left: all,
        turn: None,
    }
}

// Adds one more property. It writes only the fields that the property changes.
#[inline(always)]
fn gather(gathered: &mut Gathered, property: Property)
    requires { skipped_bytes property ≤ gathered.old.left }
    ensures { gathered.new ≡ gathered_with gathered.old property }
{
    match property {
        Property::Extents(size) => gathered.best = Some(larger(gathered.best, size)),
        Property::Rotation(quarters) => gathered.turn = Some(quarters),
        Property::Skipped(size) => gathered.left -= size,
    }
}

// The width and the height in pixels, from the content of an `ispe` box.
#[inline(always)]
#[tactic(auto, using(crate::proofs::Heif::big_four), unfolding(crate::specs::Heif::extents_size))]
fn extents_size(content: &[u8; 12]) -> ImageSize
    ensures { result ≡ extents_size content.now }
{
    ImageSize {
        width: u32::from_be_bytes([content[4], content[5], content[6], content[7]]) as usize,
        height: u32::from_be_bytes([content[8], content[9], content[10], content[11]]) as usize,
    }
}

// The size of greater area, or the first of two equal ones. A size without pixels is never greater.
#[inline(always)]
fn larger(best: Option<ImageSize>, size: ImageSize) -> ImageSize
    ensures { result ≡ earlier_largest best size }
{
    let best = best.unwrap_or(ImageSize {
        width: 0,
        height: 0,
    });
    if area(&size) > area(&best) {
        size
    } else {
        best
    }
}

// The result at the end of the list.
#[inline(always)]
fn answer(gathered: Gathered) -> Result<ImageSize, Halt>
    ensures { result ≡ gathered_answer gathered }
{
    match gathered.best {
        Some(size) => Ok(turn_by(size, gathered.turn)),
        None => Err(Halt::NotEnoughData),
    }
}

// Exchanges the width and the height for a quarter turn or three quarters.
#[inline(always)]
fn turn_by(size: ImageSize, turn: Option<u8>) -> ImageSize
    ensures { result ≡ turn_by turn size }
{
    match turn {
        Some(1 | 3) => ImageSize {
            width: size.height,
            height: size.width,
        },
        _ => size,
    }
}

/// What a stream looks for in a HEIF. Each record is a box or a property. In a slice, `size` searches for each box separately.
#[derive(Clone, Copy)]
pub enum Sought {
    /// The box `meta`, after the first box.
    Meta,
    /// The box `iprp`, in `meta`.
    Iprp,
    /// The box `ipco`, in `iprp`.
    Ipco,
    /// The next property in `ipco`, with what the properties before it add up to.
    Property(Gathered),
}

/// Where the search for `meta` begins. The size of the first box is its offset.
#[tactic(auto, using(imagesize_source::proofs::Runs::steps))]
pub fn open<S: Source>(source: &mut S) -> Result<Start<Sought>, Halt>
    ensures { Follows (S.state source.old) (S.state source.new) result heif_open }
{
    let first = read_u32(source, 0, Endian::Big)?;
    Ok(Start {
        records: Sought::Meta,
        offset: first as u64,
    })
}

impl Records for Sought {
    type State = Sought;

    type Answer = ImageSize;

    ghost step = { heif_step };

    ghost state = { λ sought. sought };

    // Reads the box or the property at an offset.
    #[inline(always)]
    fn read_record<S: Source>(&mut self, source: &mut S, offset: u64) -> RecordResult<ImageSize> {
        match self {
            Sought::Meta => read_meta(self, source, offset),
            Sought::Iprp => read_iprp(self, source, offset),
            Sought::Ipco => read_ipco(self, source, offset),
            Sought::Property(gathered) => read_listed(gathered, source, offset),
        }
    }

    // The size from the properties so far. Without `ipco` there is none.
    #[tactic(auto, using(crate::proofs::Heif::heif_ends))]
    fn at_end(&self) -> Result<ImageSize, Halt> {
        match *self {
            Sought::Property(gathered) => answer(gathered),
            _ => Err(Halt::Ended),
        }
    }
}

#[tactic(auto, using(imagesize_source::proofs::Runs::steps, imagesize_source::proofs::Runs::missed_before, imagesize_source::proofs::Layouts::binding))]
fn read_meta<S: Source>(next: &mut Sought, source: &mut S, offset: u64) -> RecordResult<ImageSize>
    ensures nears { IfOk result (λ found. Nears (S.state source.old) (S.state source.new) offset (said_at next.new offset found)) }
    ensures stays { IfErr result (λ _. next.new ≡ next.old) }
    ensures runs { Follows (S.state source.old) (S.state source.new) (map_answer (said_at next.new offset) result)
        (heif_step sought.Meta offset) }
{
    match read_box(source, offset, b"meta")? {
        Found::Answer(_) => {
            read_content::<S, 4>(source, offset)?;
            *next = Sought::Iprp;
            Ok(Found::Other { length: 12 })
        }
        Found::Other { length } => {
            *next = Sought::Meta;
            Ok(Found::Other { length })
        }
    }
}

#[tactic(auto, using(imagesize_source::proofs::Runs::steps, imagesize_source::proofs::Runs::missed_before, imagesize_source::proofs::Layouts::binding))]
fn read_iprp<S: Source>(next: &mut Sought, source: &mut S, offset: u64) -> RecordResult<ImageSize>
    ensures nears { IfOk result (λ found. Nears (S.state source.old) (S.state source.new) offset (said_at next.new offset found)) }
    ensures stays { IfErr result (λ _. next.new ≡ next.old) }
    ensures runs { Follows (S.state source.old) (S.state source.new) (map_answer (said_at next.new offset) result)
        (heif_step sought.Iprp offset) }
{
    match read_box(source, offset, b"iprp")? {
        Found::Answer(_) => {
            *next = Sought::Ipco;
            Ok(Found::Other { length: 8 })
        }
        Found::Other { length } => {
            *next = Sought::Iprp;
            Ok(Found::Other { length })
        }
    }
}

#[tactic(auto, using(imagesize_source::proofs::Runs::steps, imagesize_source::proofs::Runs::missed_before, imagesize_source::proofs::Layouts::binding))]
fn read_ipco<S: Source>(next: &mut Sought, source: &mut S, offset: u64) -> RecordResult<ImageSize>
    ensures nears { IfOk result (λ found. Nears (S.state source.old) (S.state source.new) offset (said_at next.new offset found)) }
    ensures stays { IfErr result (λ _. next.new ≡ next.old) }
    ensures runs { Follows (S.state source.old) (S.state source.new) (map_answer (said_at next.new offset) result)
        (heif_step sought.Ipco offset) }
{
    match read_box(source, offset, b"ipco")? {
        Found::Answer(ipco) => {
            *next = Sought::Property(gathered_first(ipco.size));
            Ok(Found::Other { length: 8 })
        }
        Found::Other { length } => {
            *next = Sought::Ipco;
            Ok(Found::Other { length })
        }
    }
}

// Reads a property. A call of its own keeps the other records small where they are inlined.
fn read_listed<S: Source>(
    gathered: &mut Gathered,
    source: &mut S,
    offset: u64,
) -> RecordResult<ImageSize>
    ensures nears { IfOk result (λ found. Nears (S.state source.old) (S.state source.new) offset (said_at gathered.new offset found)) }
    ensures stays { IfErr result (λ _. gathered.new ≡ gathered.old) }
    ensures runs { Follows (S.state source.old) (S.state source.new) (map_answer (said_at gathered.new offset) result)
        (list_step gathered.old offset) }
{
    gathered.read_record(source, offset)
}
