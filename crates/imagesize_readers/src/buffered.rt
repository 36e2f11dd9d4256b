//! Buffered readers keep their block if it has the offset of a seek. A reader of a file calls the file no more than needed.

use imagesize_io::file::BLOCK;
use imagesize_io::reader::{Origin, ReaderSource, open, settle};
use imagesize_io::{FileReader, Stop, Told};
use imagesize_source::Text;
use imagesize_source::source::Source;
use std::io::{self, BufReader, Cursor, ErrorKind, Read, Seek, SeekFrom};
use std::process::Abort;
use std::test::Fail;

// How many reads and seeks were made.
#[derive(Clone, Copy, Debug, PartialEq, Eq)]
struct Made {
    reads: u64,
    seeks: u64,
}

const NONE: Made = Made { reads: 0, seeks: 0 };

// Counts the calls that reach it.
#[derive(Drop)]
struct Counted<'a> {
    inner: Cursor<&'a [u8]>,
    made: &'a mut Made,
}

impl Read for Counted<'_> {
    fn read(&mut self, buffer: &mut [u8]) -> io::Result<usize> {
        self.made.reads = self.made.reads.saturating_add(1);
        self.inner.read(buffer)
    }
}

impl Seek for Counted<'_> {
    fn seek(&mut self, to: SeekFrom) -> io::Result<u64> {
        self.made.seeks = self.made.seeks.saturating_add(1);
        self.inner.seek(to)
    }
}

// A reader of these bytes that counts its calls.
fn counting<'a>(bytes: &'a [u8], made: &'a mut Made) -> Counted<'a> {
    Counted {
        inner: Cursor::new(bytes),
        made,
    }
}

// Reads at a hundred offsets `step` bytes apart, in an input of `length` bytes.
fn walk<R: Told>(rt: &impl Abort, reader: &mut R, length: u64, step: u64) -> Result<(), Fail> {
    assert_eq!(rt; reader.seek_told(SeekFrom::Current(0))?, 0);
    assert_eq!(rt; reader.seek_told(SeekFrom::End(0))?, length);
    let mut offset = 0u64;
    for _ in 0..100u64 {
        assert_eq!(rt; reader.seek_told(SeekFrom::Start(offset))?, offset);
        assert!(rt; matches!(reader.read_told(&mut [0u8; 4]), Ok(4)));
        offset = offset.saturating_add(step);
    }
    Ok(())
}

#[test]
fn a_walk_in_a_block_fetches_it_once(rt: HostRuntime) -> Result<(), Fail> {
    let bytes = [7u8; 4096];
    let mut made = NONE;
    let mut reader = BufReader::new(rt.alloc(), counting(&bytes, &mut made))?;
    walk(&rt, &mut reader, 4096, 40)?;
    assert_eq!(rt; reader.seek_told(SeekFrom::Start(8))?, 8);
    assert_eq!(rt; reader.seek_told(SeekFrom::Current(0))?, 8);
    drop(reader);
    assert_eq!(rt; made.reads, 1);
    Ok(())
}

// Counts the calls of a file on this walk. `told` is the length that the reader is given.
fn made_on_walk<H: AllocGlobal + Abort>(
    rt: &H,
    length: u64,
    told: Option<u64>,
    step: u64,
) -> Result<Made, Fail> {
    let bytes = Vec::from_elem(rt.alloc(), 7u8, length as usize)?;
    let mut made = NONE;
    let mut memory = [0; BLOCK];
    let mut reader = FileReader::new(counting(&bytes, &mut made), told, &mut memory);
    walk(rt, &mut reader, length, step)?;
    drop(reader);
    Ok(made)
}

#[test]
fn a_reader_of_known_length_makes_no_seek(rt: HostRuntime) -> Result<(), Fail> {
    let made = made_on_walk(&rt, 4096, Some(4096), 40)?;
    assert_eq!(rt; made, Made { reads: 1, seeks: 0 });
    let made = made_on_walk(&rt, 4096, None, 40)?;
    assert_eq!(rt; made, Made { reads: 1, seeks: 2 });
    Ok(())
}

#[test]
fn the_first_bytes_are_given_again_from_far_behind(rt: HostRuntime) -> Result<(), Fail> {
    let mut bytes = Vec::from_elem(rt.alloc(), 7u8, 20_000)?;
    bytes[13] = 1;
    bytes[31] = 2;
    bytes[32] = 3;
    let mut made = NONE;
    let mut memory = [0; BLOCK];
    let mut reader = FileReader::new(counting(&bytes, &mut made), Some(20_000), &mut memory);
    assert!(rt; matches!(reader.read_told(&mut [0u8; 12]), Ok(12)));
    assert_eq!(rt; reader.seek_told(SeekFrom::Start(19_982))?, 19_982);
    assert!(rt; matches!(reader.read_told(&mut [0u8; 18]), Ok(18)));
    let mut buffer = [0u8; 2];
    assert_eq!(rt; reader.seek_told(SeekFrom::Start(12))?, 12);
    assert!(rt; matches!(reader.read_told(&mut buffer), Ok(2)));
    assert_eq!(rt; buffer, [7, 1]);
    assert_eq!(rt; reader.seek_told(SeekFrom::Current(0))?, 14);
    assert_eq!(rt; reader.seek_told(SeekFrom::Start(31))?, 31);
    assert!(rt; matches!(reader.read_told(&mut buffer), Ok(1)));
    assert_eq!(rt; buffer, [2, 1]);
    assert!(rt; matches!(reader.read_told(&mut buffer), Ok(2)));
    assert_eq!(rt; buffer, [3, 7]);
    drop(reader);
    // The second seek is to offset 32, after the bytes that were kept.
    assert_eq!(rt; made, Made { reads: 3, seeks: 2 });
    Ok(())
}

#[test]
fn a_reader_of_known_length_reads_nothing_at_its_end(rt: HostRuntime) -> Result<(), Fail> {
    let bytes = [1u8, 2, 3];
    let mut memory = [0; 3];
    let mut reader = FileReader::new(Cursor::new(bytes.as_slice()), Some(3), &mut memory);
    let mut buffer = [0u8; 2];
    assert_eq!(rt; reader.seek_told(SeekFrom::End(0))?, 3);
    assert_eq!(rt; reader.seek_told(SeekFrom::Current(0))?, 3);
    assert!(rt; matches!(reader.read_told(&mut buffer), Ok(0)));
    assert_eq!(rt; reader.seek_told(SeekFrom::End(0))?, 3);
    assert_eq!(rt; reader.seek_told(SeekFrom::Current(-1))?, 2);
    assert!(rt; matches!(reader.read_told(&mut buffer), Ok(1)));
    assert_eq!(rt; buffer, [3, 0]);
    Ok(())
}

#[test]
fn a_walk_over_blocks_makes_two_calls_an_offset(rt: HostRuntime) -> Result<(), Fail> {
    let made = made_on_walk(&rt, 1_000_000, Some(1_000_000), 10_000)?;
    let (reads, seeks) = (100, 99);
    assert_eq!(rt; made, Made { reads, seeks });
    let made = made_on_walk(&rt, 1_000_000, None, 10_000)?;
    let (reads, seeks) = (100, 101);
    assert_eq!(rt; made, Made { reads, seeks });
    Ok(())
}

#[test]
fn an_offset_behind_in_the_block_is_reached_with_no_call(rt: HostRuntime) -> Result<(), Fail> {
    let bytes = [1u8, 2, 3, 4, 5, 6, 7, 8];
    let mut made = NONE;
    let mut memory = [0; BLOCK];
    let mut reader = FileReader::new(counting(&bytes, &mut made), None, &mut memory);
    assert_eq!(rt; reader.seek_told(SeekFrom::Start(2))?, 2);
    let mut buffer = [0u8; 4];
    assert!(rt; matches!(reader.read_told(&mut buffer), Ok(4)));
    assert_eq!(rt; reader.seek_told(SeekFrom::Start(3))?, 3);
    assert!(rt; matches!(reader.read_told(&mut buffer), Ok(4)));
    assert_eq!(rt; buffer, [4, 5, 6, 7]);
    assert_eq!(rt; reader.seek_told(SeekFrom::Current(0))?, 7);
    drop(reader);
    assert_eq!(rt; made, Made { reads: 1, seeks: 1 });
    Ok(())
}

// Reads blocks of a file of 60,000 bytes. Each has an offset, and how many bytes it has after the first one.
fn check_blocks<H: AllocGlobal + Abort>(
    rt: &H,
    memory: &mut [u8],
    blocks: &[(u64, usize)],
) -> Result<(), Fail> {
    let bytes = Vec::from_elem(rt.alloc(), 7u8, 60_000)?;
    let mut reader = FileReader::new(Cursor::new(bytes.as_slice()), Some(60_000), memory);
    for (offset, held) in blocks {
        assert_eq!(rt; reader.seek_told(SeekFrom::Start(*offset))?, *offset);
        assert!(rt; matches!(reader.read_told(&mut [0u8; 1]), Ok(1)));
        assert_eq!(rt; reader.held().len(), *held);
    }
    Ok(())
}

#[test]
fn a_block_is_small_at_the_start_and_after_a_seek(rt: HostRuntime) -> Result<(), Fail> {
    let blocks = [
        (0, 4095),
        (4096, 8191),
        (12_288, 8191),
        (50_000, 4095),
        (54_096, 5903),
    ];
    check_blocks(&rt, &mut [0; BLOCK], &blocks)?;
    check_blocks(&rt, &mut [0; 20_000], &blocks)
}

#[test]
fn a_block_is_long_after_the_one_before(rt: HostRuntime) -> Result<(), Fail> {
    let bytes = Vec::from_elem(rt.alloc(), 7u8, 20_000)?;
    let mut memory = [0; BLOCK];
    let mut reader = FileReader::new(Cursor::new(bytes.as_slice()), None, &mut memory);
    assert!(rt; matches!(reader.read_told(&mut [0u8; 0]), Ok(0)));
    assert_eq!(rt; reader.held().len(), 4096);
    // The file is then at its end, and the read goes back.
    assert_eq!(rt; reader.seek_told(SeekFrom::End(0))?, 20_000);
    assert_eq!(rt; reader.seek_told(SeekFrom::Start(4096))?, 4096);
    assert!(rt; matches!(reader.read_told(&mut [0u8; 1]), Ok(1)));
    assert_eq!(rt; reader.held().len(), 8191);
    Ok(())
}

#[test]
fn a_block_is_no_longer_than_the_memory(rt: HostRuntime) -> Result<(), Fail> {
    check_blocks(
        &rt,
        &mut [0; 5000],
        &[(0, 4095), (4096, 4999), (9096, 4999)],
    )?;
    check_blocks(&rt, &mut [0; 10], &[(0, 9), (10, 9), (500, 9)])
}

#[test]
fn a_file_is_not_read_without_memory(rt: HostRuntime) -> Result<(), Fail> {
    let mut reader = FileReader::new(Cursor::new([1u8].as_slice()), Some(1), &mut []);
    let Err(Stop::Fault(error)) = reader.read_told(&mut [0u8; 1]) else {
        panic!(rt; "no fault");
    };
    assert_eq!(rt; error.kind(), ErrorKind::InvalidInput);
    Ok(())
}

#[test]
fn one_memory_serves_the_next_file(rt: HostRuntime) -> Result<(), Fail> {
    let mut array = [0; BLOCK];
    let mut memory = array.as_mut_slice();
    for byte in [1u8, 2] {
        let bytes = Vec::from_elem(rt.alloc(), byte, 5000)?;
        let mut reader = FileReader::new(Cursor::new(bytes.as_slice()), Some(5000), memory);
        let mut buffer = [0u8; 3];
        assert!(rt; matches!(reader.read_told(&mut buffer), Ok(3)));
        assert_eq!(rt; buffer, [byte; 3]);
        assert_eq!(rt; reader.seek_told(SeekFrom::Start(4096))?, 4096);
        assert!(rt; matches!(reader.read_told(&mut buffer), Ok(3)));
        assert_eq!(rt; buffer, [byte; 3]);
        memory = reader.into_memory();
    }
    Ok(())
}

// Gives one byte a read. Each second read is interrupted.
#[derive(Drop)]
struct Slow<'a> {
    inner: Cursor<&'a [u8]>,
    interrupts: bool,
}

impl Read for Slow<'_> {
    fn read(&mut self, buffer: &mut [u8]) -> io::Result<usize> {
        self.interrupts = !self.interrupts;
        if self.interrupts {
            return Err(io::Error::from(ErrorKind::Interrupted));
        }
        let most = buffer.len().min(1);
        self.inner.read(&mut buffer[..most])
    }
}

impl Seek for Slow<'_> {
    fn seek(&mut self, to: SeekFrom) -> io::Result<u64> {
        self.inner.seek(to)
    }
}

#[test]
fn an_interrupted_read_of_a_file_is_read_again(rt: HostRuntime) -> Result<(), Fail> {
    let bytes = [1u8, 2, 3];
    let slow = Slow {
        inner: Cursor::new(bytes.as_slice()),
        interrupts: false,
    };
    let mut memory = [0; BLOCK];
    let mut reader = FileReader::new(slow, Some(3), &mut memory);
    let mut buffer = [0u8; 4];
    for byte in bytes {
        assert!(rt; matches!(reader.read_told(&mut buffer), Err(Stop::Interrupted(_))));
        assert!(rt; matches!(reader.read_told(&mut buffer), Ok(1)));
        assert_eq!(rt; buffer, [byte, 0, 0, 0]);
    }
    // The first bytes are kept, though each came by a read of its own.
    assert_eq!(rt; reader.seek_told(SeekFrom::Start(0))?, 0);
    assert!(rt; matches!(reader.read_told(&mut buffer), Ok(3)));
    assert_eq!(rt; buffer, [1, 2, 3, 0]);
    Ok(())
}

#[test]
fn an_offset_that_no_file_has_is_refused(rt: HostRuntime) -> Result<(), Fail> {
    let bytes = [1u8, 2, 3];
    let inner = Cursor::new(bytes.as_slice());
    let mut memory = [0; BLOCK];
    let mut reader = FileReader::new(inner, Some(3), &mut memory);
    assert_eq!(rt; reader.seek_told(SeekFrom::Start(1))?, 1);
    assert!(rt; reader.seek_told(SeekFrom::Current(i64::MIN)).is_err());
    assert_eq!(rt; reader.seek_told(SeekFrom::Current(0))?, 1);
    assert_eq!(rt; reader.seek_told(SeekFrom::Start(u64::MAX))?, u64::MAX);
    assert!(rt; matches!(reader.read_told(&mut [0u8; 1]), Err(Stop::Fault(_))));
    assert_eq!(rt; reader.seek_told(SeekFrom::Current(0))?, u64::MAX);
    Ok(())
}

#[test]
fn an_interruption_may_be_tried_again(rt: HostRuntime) {
    let stop = Stop::from(io::Error::from(ErrorKind::Interrupted));
    assert!(rt; matches!(stop, Stop::Interrupted(_)));
    let fault = Stop::from(io::Error::from(ErrorKind::UnexpectedEof));
    assert!(rt; matches!(fault, Stop::Fault(_)));
}

#[test]
fn reads_of_held_bytes_make_no_call_until_the_reader_is_left(rt: HostRuntime) -> Result<(), Fail> {
    let mut bytes = Vec::from_elem(rt.alloc(), 7u8, 4096)?;
    bytes[1000] = 1;
    bytes[1003] = 2;
    let mut made = NONE;
    let mut reader = BufReader::new(rt.alloc(), counting(&bytes, &mut made))?;
    let opened = open(&mut reader, Origin::Start)?;
    let mut source = ReaderSource::new(&mut reader, opened.told);
    let mut buffer = [0u8; 4];
    assert!(rt; matches!(source.read_at(0, &mut buffer), Ok(4)));
    assert!(rt; source.left().is_none());
    assert!(rt; matches!(source.read_at(1000, &mut buffer), Ok(4)));
    assert_eq!(rt; buffer, [1, 7, 7, 2]);
    assert_eq!(rt; source.taken(), 8);
    assert!(rt; matches!(source.read_at(996, &mut buffer), Ok(4)));
    assert_eq!(rt; buffer, [7, 7, 7, 7]);
    // The end of the input is not held.
    let left = source.left();
    assert_eq!(rt; left, Some(1000));
    assert!(rt; matches!(source.read_at(4094, &mut buffer), Ok(2)));
    assert!(rt; source.left().is_none());
    settle(&mut reader, left);
    assert_eq!(rt; reader.stream_position()?, 1000);
    drop(reader);
    // A read of the block and one at the end. Two seeks ask for offset and length. Two go to the start and one to 4,094. Two leave
    // the reader, and one asks for its offset.
    assert_eq!(rt; made, Made { reads: 2, seeks: 8 });
    Ok(())
}

#[test]
fn a_line_goes_on_from_one_block_to_the_next(rt: HostRuntime) -> Result<(), Fail> {
    let mut bytes = Vec::from_elem(rt.alloc(), b'a', 200)?;
    bytes[39] = b'\n';
    bytes[119] = b'\n';
    let inner = Cursor::new(bytes.as_slice());
    let mut reader = BufReader::with_capacity(rt.alloc(), 64, inner)?;
    let opened = open(&mut reader, Origin::Start)?;
    let mut source = ReaderSource::new(&mut reader, opened.told);
    let mut buffer = [0u8; 100];
    let line = Text::Line { delimiter: b'\n' };
    assert!(rt; matches!(source.read_text(0, line, &mut buffer), Ok(40)));
    assert!(rt; matches!(source.read_text(40, line, &mut buffer), Ok(80)));
    assert!(rt; buffer.iter().take(79).all(|byte| *byte == b'a'));
    assert_eq!(rt; buffer.get(79), Some(&b'\n'));
    assert!(rt; matches!(source.read_text(120, line, &mut buffer), Ok(80)));
    assert_eq!(rt; source.taken(), 200);
    Ok(())
}
