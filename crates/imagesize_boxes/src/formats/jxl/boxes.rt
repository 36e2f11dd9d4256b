//! The boxes of JPEG XL, by ISO/IEC 18181-2, and the bytes of a codestream in them.
ghost use Rattle.std.specs.Prelude.{◌≡◌, ◌+◌, ◌<◌, ◌≤◌, ◌-◌, ◌++◌, [], length, drop, take, codes, IfOk};
ghost use Rattle.imagesize_boxes.specs.Jxl.{box_checked, box_content, box_head, box_room, codestream_box, jxl_box, jxl_chain, jxl_size, partial_box, partial_said, piece_at, said_behind};
ghost use Rattle.imagesize_boxes.specs.Walks.{IsFurther, FitsBehind, IsHead, content_said, boxes_with, front_of, jxl_holds, jxl_step, no_boxes};
ghost use Rattle.imagesize_types.specs.Head.{begins};
ghost use Rattle.imagesize_source.specs.Chain.{Decided, chain_at};
ghost use Rattle.imagesize_source.specs.Numbers.{number};
ghost use Rattle.imagesize_source.specs.Paying.{Nears, ahead_of};
ghost use Rattle.imagesize_source.specs.Reading.{and_then, just, number_read, part_read, map_answer};
ghost use Rattle.imagesize_source.specs.State.{Follows, Runs, IsSound};
ghost use Rattle.imagesize_source.specs.declared.endian.Endian.TheVariants as endian;

use super::front::{Front, MOST};
use imagesize_source::readings::{read_bytes_behind, read_exact_at, read_u64};
use imagesize_source::source::Source;
use imagesize_source::walk::{Found, RecordResult, Records, walk};
use imagesize_source::{Endian, Halt};
use imagesize_types::size::ImageSize;

// The size, from the boxes after the signature box.
pub(super) fn size_in_boxes<S: Source>(source: &mut S) -> Result<ImageSize, Halt>
    ensures { Runs (S.state source.old) (S.state source.new) result
        (and_then (chain_at jxl_chain (S.state source.old).held.input) (λ front. just (jxl_size front) [])) }
{
    walk(Boxes::new(), source, 12)
}

/// The boxes, and the first bytes of the codestream from the boxes so far.
#[derive(Clone, Copy)]
pub struct Boxes {
    // The first `len` bytes. The others have no meaning.
    bytes: [u8; MOST],
    len: usize,
}

impl Boxes {
    /// The state before the first box, with no bytes.
    pub fn new() -> Boxes
        ensures { result ≡ no_boxes }
    {
        Boxes {
            bytes: [0; MOST],
            len: 0,
        }
    }

    // How many of the first 16 bytes of the codestream are missing.
    fn missing(&self) -> usize
        requires { self.now.len ≤ 16 }
        ensures is { result ≡ 16 - length (front_of self.now) }
        ensures left { result ≡ 16 - self.now.len }
    {
        MOST - self.len
    }

    // The bytes of the codestream so far.
    fn as_slice(&self) -> &[u8]
        requires { self.now.len ≤ 16 }
        ensures { result.now ≡ front_of self.now }
    {
        &self.bytes[..self.len]
    }

    // Appends a piece. Most boxes have none: for them this saves a call of the copy.
    #[inline(always)]
    #[tactic(auto, using(imagesize_source::proofs::Runs::steps))]
    fn append(&mut self, piece: &Front)
        requires { self.old.len + length piece.now ≤ 16 }
        ensures few { self.new.len ≤ 16 }
        ensures is { self.new ≡ boxes_with self.old piece.now }
    {
        if piece.len() == 0 {
            return;
        }
        let end = self.len + piece.len();
        self.bytes[self.len..end].copy_from_slice(piece.as_slice());
        self.len = end;
    }
}

impl Records for Boxes {
    type State = Boxes;

    type Answer = ImageSize;

    ghost step = { jxl_step };

    ghost state = { λ boxes. boxes };

    ghost holds = { jxl_holds };

    // Reads the box at an offset.
    #[inline(always)]
    #[tactic(auto, using(imagesize_source::proofs::Runs::steps, imagesize_source::proofs::Layouts::binding))]
    fn read_record<S: Source>(&mut self, source: &mut S, offset: u64) -> RecordResult<ImageSize> {
        match read_box(source, offset, self)? {
            Content::Codestream(front) => {
                let size = front.size()?;
                Ok(Found::Answer(size))
            }
            Content::Piece { piece, length } => {
                self.append(&piece);
                Ok(Found::Other { length })
            }
        }
    }

    // The input ends before a box that has the size.
    #[tactic(auto, using(crate::proofs::JxlBoxes::jxl_ends))]
    fn at_end(&self) -> Result<ImageSize, Halt> {
        Err(Halt::Ended)
    }
}

// What was found in a box.
#[derive(Drop)]
enum Content {
    // The first bytes of the codestream. No later box is needed.
    Codestream(Front),
    // The next piece of the codestream, which may be empty, and the length of the box in bytes.
    Piece { piece: Front, length: u64 },
}

/// The header of a box.
#[derive(Clone, Copy)]
pub struct BoxHead {
    /// The name of the box.
    pub tag: [u8; 4],
    /// The length of the box in bytes, including its header. 0 means that the box extends to the end of the input.
    pub size: u64,
    /// The length of the header in bytes.
    pub length: u64,
}

// Reads the box at an offset. `boxes` has the bytes of the codestream from those before it.
#[tactic(auto, using(imagesize_source::proofs::Runs::steps, imagesize_source::proofs::Layouts::binding))]
fn read_box<S: Source>(source: &mut S, offset: u64, boxes: &Boxes) -> Result<Content, Halt>
    requires { boxes.now.len ≤ 16 }
    ensures nears { IfOk result (λ found. Nears (S.state source.old) (S.state source.new) offset (content_said offset found)) }
    ensures fits { IfOk result (λ found. FitsBehind (front_of boxes.now) (content_said offset found)) }
    ensures runs { Follows (S.state source.old) (S.state source.new) (map_answer (content_said offset) result)
        (jxl_box (front_of boxes.now) offset) }
{
    let head = read_head(source, offset)?;
    read_content(source, offset, &head, boxes)
}

// Reads the header of the box at an offset.
#[tactic(auto, using(imagesize_source::proofs::Runs::steps), unfolding(crate::specs::Jxl::box_head))]
fn read_head<S: Source>(source: &mut S, offset: u64) -> Result<BoxHead, Halt>
    ensures nears { IfOk result (λ head. ahead_of (S.state source.new) (offset + 1) < ahead_of (S.state source.old) offset) }
    ensures is { IfOk result (λ head. IsHead offset head) }
    ensures runs { Follows (S.state source.old) (S.state source.new) result (box_head offset) }
{
    // Read into a buffer: bytes returned in a result are copied in parts, and a load of the whole waits for all of them.
    let mut head = [0u8; 8];
    read_exact_at(source, offset, &mut head)?;
    let tag = tag(&head);
    match short_size(&head) {
        1 => {
            let size = read_long_size(source, offset)?;
            check_head(
                offset,
                BoxHead {
                    tag,
                    size,
                    length: 16,
                },
            )
        }
        size => check_head(
            offset,
            BoxHead {
                tag,
                size: size as u64,
                length: 8,
            },
        ),
    }
}

// The size in the first eight bytes of a box. 1 means that a size of eight bytes follows.
#[inline]
#[tactic(auto, using(imagesize_source::proofs::Bytes::first_four))]
fn short_size(head: &[u8; 8]) -> u32
    ensures { result ≡ number endian.Big (take 4 head.now) }
{
    u32::from_be_bytes([head[0], head[1], head[2], head[3]])
}

#[inline]
#[tactic(auto, using(imagesize_source::proofs::Bytes::the_last_four))]
fn tag(head: &[u8; 8]) -> [u8; 4]
    ensures { result ≡ drop 4 head.now }
{
    [head[4], head[5], head[6], head[7]]
}

// Reads the size of eight bytes after the first eight bytes of a box.
fn read_long_size<S: Source>(source: &mut S, offset: u64) -> Result<u64, Halt>
    ensures { Runs (S.state source.old) (S.state source.new) result
        (number_read (S.state source.old).held.input endian.Big (offset + 8) 8) }
{
    read_u64(source, offset.saturating_add(8), Endian::Big)
}

// The header. It is an error if the box ends above 2^64-1, or within its own header.
#[tactic(auto, using(std::proofs::lemmas::Nat::be_bytes_4))]
fn check_head(offset: u64, head: BoxHead) -> Result<BoxHead, Halt>
    requires { head.length ≤ 16 }
    ensures is { IfOk result (λ found. IsHead offset found) }
    ensures answer { result ≡ box_checked offset head }
{
    if offset.checked_add(head.size).is_none() {
        return Err(Halt::Corrupted);
    }
    if head.size != 0 && head.size < head.length {
        let BoxHead { tag, size, .. } = head;
        return Err(Halt::InvalidJxlBoxSize {
            size: size as u8,
            tag: Endian::Big.u32(tag),
        });
    }
    Ok(head)
}

// Reads the content of the box at an offset.
#[tactic(auto, using(imagesize_source::proofs::Runs::steps, imagesize_source::proofs::Layouts::binding))]
fn read_content<S: Source>(
    source: &mut S,
    offset: u64,
    head: &BoxHead,
    boxes: &Boxes,
) -> Result<Content, Halt>
    requires sound { IsSound (S.state source.old) }
    requires is { IsHead offset head.now }
    requires few { boxes.now.len ≤ 16 }
    ensures further { IfOk result (λ found. IsFurther offset (content_said offset found)) }
    ensures fits { IfOk result (λ found. FitsBehind (front_of boxes.now) (content_said offset found)) }
    ensures runs { Follows (S.state source.old) (S.state source.new) (map_answer (content_said offset) result)
        (box_content (front_of boxes.now) offset head.now) }
{
    if is_codestream_box(head) {
        return Ok(Content::Codestream(read_whole(source, offset, head)?));
    }
    if is_partial_box(head) {
        return read_partial(source, offset, head, boxes);
    }
    Ok(found_behind(offset, head, boxes, Front::new()))
}

#[inline]
fn is_codestream_box(head: &BoxHead) -> bool
    ensures { result ≡ begins (codes "jxlc") head.now.tag }
{
    matches!(head.tag, [b'j', b'x', b'l', b'c'])
}

#[inline]
fn is_partial_box(head: &BoxHead) -> bool
    ensures { result ≡ begins (codes "jxlp") head.now.tag }
{
    matches!(head.tag, [b'j', b'x', b'l', b'p'])
}

// The length of a box's content in bytes. Of a box that extends to the end of the input, no more than `MOST` are needed.
#[inline]
fn buffer(head: &BoxHead) -> u64
    requires { 0 < head.now.size → head.now.length ≤ head.now.size }
    ensures { result ≡ box_room head.now }
{
    if head.size == 0 {
        return MOST as u64;
    }
    head.size - head.length
}

// Reads the first bytes of the codestream from a box that has all of it.
#[tactic(auto, using(imagesize_source::proofs::Runs::steps, imagesize_source::proofs::Layouts::binding))]
fn read_whole<S: Source>(source: &mut S, offset: u64, head: &BoxHead) -> Result<Front, Halt>
    requires sound { IsSound (S.state source.old) }
    requires is { IsHead offset head.now }
    ensures { Follows (S.state source.old) (S.state source.new) (map_answer (λ front. Decided front) result)
        (codestream_box offset head.now) }
{
    let most = buffer(head).min(MOST as u64) as usize;
    read_piece(source, offset, head.length, most)
}

// Reads a part of the codestream, which follows its index in the box.
#[tactic(auto, using(imagesize_source::proofs::Runs::steps, imagesize_source::proofs::Layouts::binding))]
fn read_partial<S: Source>(
    source: &mut S,
    offset: u64,
    head: &BoxHead,
    boxes: &Boxes,
) -> Result<Content, Halt>
    requires sound { IsSound (S.state source.old) }
    requires is { IsHead offset head.now }
    requires few { boxes.now.len ≤ 16 }
    ensures further { IfOk result (λ found. IsFurther offset (content_said offset found)) }
    ensures fits { IfOk result (λ found. FitsBehind (front_of boxes.now) (content_said offset found)) }
    ensures runs { Follows (S.state source.old) (S.state source.new) (map_answer (content_said offset) result)
        (partial_box (front_of boxes.now) offset head.now) }
{
    let buffer = buffer(head);
    if buffer < 4 {
        return Err(Halt::Ended);
    }
    let index = read_bytes_behind::<S, 4>(source, offset, head.length)?;
    let most = (buffer - 4).min(boxes.missing() as u64) as usize;
    let piece = read_piece(source, offset, head.length + 4, most)?;
    Ok(behind_piece(offset, head, boxes, index, piece))
}

// Reads at most `most` bytes at a distance from an offset. For 0 bytes nothing is read.
fn read_piece<S: Source>(
    source: &mut S,
    offset: u64,
    distance: u64,
    most: usize,
) -> Result<Front, Halt>
    requires sound { IsSound (S.state source.old) }
    requires few { most ≤ 16 }
    ensures few { IfOk result (λ bytes. length bytes ≤ most) }
    ensures runs { Follows (S.state source.old) (S.state source.new) result (piece_at (offset + distance) most) }
{
    let mut piece = Front::new();
    if most == 0 {
        return Ok(piece);
    }
    let mut all = [0u8; MOST];
    let buffer = &mut all[..most];
    let there = read_there(source, offset, distance, buffer)?;
    piece.extend(&buffer[..there]);
    Ok(piece)
}

// Reads the bytes at a distance from an offset into the buffer, and returns how many there are.
fn read_there<S: Source>(
    source: &mut S,
    offset: u64,
    distance: u64,
    buffer: &mut [u8],
) -> Result<usize, Halt>
    ensures bound { IfOk result (λ n. n ≤ length buffer.new) }
    ensures runs { Runs (S.state source.old) (S.state source.new)
        (map_answer (λ n. take n buffer.new) result)
        (part_read (S.state source.old).held.input (offset + distance) (length buffer.new)) }
{
    source.read_at(offset.saturating_add(distance), buffer)
}

// The result of a part: it is the last one if all bytes are there, or if its index says so.
fn behind_piece(offset: u64, head: &BoxHead, boxes: &Boxes, index: [u8; 4], piece: Front) -> Content
    requires is { IsHead offset head.now }
    requires fits { boxes.now.len + length piece ≤ 16 }
    ensures further { IsFurther offset (content_said offset result) }
    ensures fits { FitsBehind (front_of boxes.now) (content_said offset result) }
    ensures is { content_said offset result ≡ partial_said (front_of boxes.now) offset head.now index piece }
{
    if boxes.missing() == piece.len() || index[0] >= 0x80 {
        return Content::Codestream(join(boxes, &piece));
    }
    found_behind(offset, head, boxes, piece)
}

// The result of a box with this part. A box that extends to the end of the input is the last one.
fn found_behind(offset: u64, head: &BoxHead, boxes: &Boxes, piece: Front) -> Content
    requires is { IsHead offset head.now }
    requires fits { boxes.now.len + length piece ≤ 16 }
    ensures further { IsFurther offset (content_said offset result) }
    ensures fits { FitsBehind (front_of boxes.now) (content_said offset result) }
    ensures is { content_said offset result ≡ said_behind (front_of boxes.now) offset head.now piece }
{
    if head.size == 0 {
        return Content::Codestream(join(boxes, &piece));
    }
    Content::Piece {
        piece,
        length: head.size,
    }
}

// The bytes so far, followed by the piece.
fn join(boxes: &Boxes, piece: &Front) -> Front
    requires { boxes.now.len + length piece.now ≤ 16 }
    ensures { result ≡ front_of boxes.now ++ piece.now }
{
    let mut all = Front::new();
    all.extend(boxes.as_slice());
    all.extend(piece.as_slice());
    all
}
