//! Readers of a test vector.
ghost use Rattle.std.specs.Prelude.{None};

use super::{is_answer, is_kind, is_type};
use crate::table::{Row, Wrong, holds};
use imagesize::{ImageType, Stop, Told, reader_probe, reader_size, reader_type};
use imagesize_readers::readers::{Counting, Cutting};
use std::alloc::{AllocError, Global};
use std::io::{self, BufReader, Cursor, Seek, SeekFrom};

// Whether the calls on readers have the expected result. Each call gets one of the readers.
fn are_answered<R: Told>(
    alloc: Global,
    row: &Row<'_>,
    of_type: R,
    of_size: R,
    mut of_both: R,
) -> Result<bool, AllocError> {
    let found = reader_type(of_type);
    let answer = reader_size(of_size);
    let probed = reader_probe(&mut of_both);
    Ok(
        is_type(alloc, row, &found)?
            && is_answer(alloc, row, &answer)?
            && is_kind(alloc, row, probed.kind)?
            && is_answer(alloc, row, &probed.answer)?
            && row.taken.is_none_or(|taken| taken == probed.taken),
    )
}

/// A cursor, one byte per read, and a buffered reader have the expected result.
pub fn check_whole(alloc: Global, row: &Row<'_>) -> Result<(), Wrong> {
    let cursor = || Cursor::new(row.bytes.as_slice());
    let whole = are_answered(alloc, row, cursor(), cursor(), cursor())?;
    holds(whole, "a reader")?;
    let one_byte = || Cutting::one_byte(cursor());
    let by_bytes = are_answered(alloc, row, one_byte(), one_byte(), one_byte())?;
    holds(by_bytes, "one byte a read")?;
    let reader = BufReader::new(alloc, cursor()).map_err(|_| Wrong::new("memory is out"))?;
    let buffered = reader_size(reader);
    holds(is_answer(alloc, row, &buffered)?, "a buffered reader")
}

/// Pieces of any lengths have the expected result.
pub fn check_pieces(alloc: Global, row: &Row<'_>) -> Result<(), Wrong> {
    for (lengths, what) in [
        ([2].as_slice(), "pieces of 2 bytes"),
        (&[3], "pieces of 3 bytes"),
        (&[7], "pieces of 7 bytes"),
        (&[11, 7, 1], "pieces of 11, 7 and 1 bytes"),
        (&[13, 2], "pieces of 13 and 2 bytes"),
        (&[3, 1, 4, 1, 5, 9, 2, 6], "pieces of many lengths"),
    ] {
        let reader = || Cutting {
            reader: Cursor::new(row.bytes.as_slice()),
            lengths,
            next: 0,
        };
        let answered = are_answered(alloc, row, reader(), reader(), reader())?;
        holds(answered, what)?;
    }
    Ok(())
}

/// A counting reader counts the bytes read, and no more of them for the type.
pub fn check_counts(alloc: Global, row: &Row<'_>) -> Result<(), Wrong> {
    let mut whole = 0;
    let answer = reader_size(Counting::new(Cursor::new(row.bytes.as_slice()), &mut whole));
    holds(is_answer(alloc, row, &answer)?, "a counting reader")?;
    holds(
        row.taken.is_none_or(|taken| taken == whole),
        "the count of a reader",
    )?;
    let mut of_type = 0;
    let found = reader_type(Counting::new(Cursor::new(row.bytes.as_slice()), &mut of_type));
    holds(is_type(alloc, row, &found)?, "a counting reader's type")?;
    holds(of_type <= whole, "the count of a reader for its type")
}

// Does what another reader does, and keeps the greatest offset that it was sent to.
#[derive(Drop)]
struct Sent<'a, R: Told> {
    reader: R,
    greatest: &'a mut u64,
}

impl<R: Told> Told for Sent<'_, R> {
    ghost telling = { λ _. None };

    ghost count = { λ _. None };

    ghost failure = { λ _. None };

    fn read_told(&mut self, buffer: &mut [u8]) -> Result<usize, Stop> {
        self.reader.read_told(buffer)
    }

    fn seek_told(&mut self, to: SeekFrom) -> io::Result<u64> {
        if let SeekFrom::Start(offset) = to {
            *self.greatest = offset.max(*self.greatest);
        }
        self.reader.seek_told(to)
    }
}

/// A size is read without a seek past the end.
pub fn check_offsets(alloc: Global, row: &Row<'_>) -> Result<(), Wrong> {
    let mut greatest = 0;
    let answer = reader_size(Sent {
        reader: Cursor::new(row.bytes.as_slice()),
        greatest: &mut greatest,
    });
    holds(
        is_answer(alloc, row, &answer)?,
        "a reader whose seeks are kept",
    )?;
    holds(greatest <= row.bytes.len() as u64, "a seek behind the end")
}

// A cursor at an offset of a row's bytes.
fn cursor_at<'a>(row: &'a Row<'_>, offset: u64) -> Cursor<&'a [u8]> {
    let mut cursor = Cursor::new(row.bytes.as_slice());
    cursor.set_position(offset);
    cursor
}

/// A cursor tells that its bytes lie in memory. The calls over it do what they do over a reader that does not tell: they have
/// the same results, and leave the reader at the same offset.
pub fn check_memory(alloc: Global, row: &Row<'_>) -> Result<(), Wrong> {
    let length = row.bytes.len() as u64;
    for offset in [0, 1, 7, length / 2, length, length.saturating_add(9)] {
        let mut cursor = cursor_at(row, offset);
        let mut reader = Cutting::one_byte(cursor_at(row, offset));
        let probed = reader_probe(&mut cursor);
        let other = reader_probe(&mut reader);
        let same = format!(in alloc; "{probed:?}")? == format!(in alloc; "{other:?}")?;
        holds(same, "a probe in memory")?;
        holds(cursor.position() == reader.reader.position(), "an offset")?;
        for kind in [probed.kind.unwrap_or(ImageType::Gif), ImageType::Jpeg] {
            let size = kind.reader_size(&mut cursor);
            let other = kind.reader_size(&mut reader);
            let same = format!(in alloc; "{size:?}")? == format!(in alloc; "{other:?}")?;
            holds(same, "a size in memory")?;
            holds(cursor.position() == reader.reader.position(), "an offset")?;
        }
    }
    Ok(())
}

/// A buffered reader holds bytes, and most reads get theirs without a call of it. The calls over it do what they do over a reader
/// that holds none: they have the same results, and leave the reader at the same offset.
pub fn check_held(alloc: Global, row: &Row<'_>) -> Result<(), Wrong> {
    let length = row.bytes.len() as u64;
    for capacity in [1usize, 50, 8192] {
        for offset in [0, 7, length, length.saturating_add(9)] {
            let mut reader = Cutting::one_byte(cursor_at(row, offset));
            let mut buffered = BufReader::with_capacity(
                alloc,
                capacity,
                cursor_at(row, offset),
            ).map_err(|_| Wrong::new("memory is out"))?;
            let probed = reader_probe(&mut buffered);
            let other = reader_probe(&mut reader);
            let same = format!(in alloc; "{probed:?}")? == format!(in alloc; "{other:?}")?;
            holds(same, "a probe of held bytes")?;
            check_left(&mut buffered, &reader)?;
            let kind = probed.kind.unwrap_or(ImageType::Jpeg);
            let size = kind.reader_size(&mut buffered);
            let other = kind.reader_size(&mut reader);
            let same = format!(in alloc; "{size:?}")? == format!(in alloc; "{other:?}")?;
            holds(same, "a size of held bytes")?;
            check_left(&mut buffered, &reader)?;
        }
    }
    Ok(())
}

// Both readers are at the same offset.
fn check_left(
    buffered: &mut BufReader<Cursor<&[u8]>>,
    reader: &Cutting<'_, Cursor<&[u8]>>,
) -> Result<(), Wrong> {
    let left = buffered.stream_position().ok();
    holds(
        left == Some(reader.reader.position()),
        "an offset of a buffered reader",
    )
}

/// The type reads the size, whatever the reader's offset is.
pub fn check_size_as(alloc: Global, row: &Row<'_>, kind: ImageType) -> Result<(), Wrong> {
    for offset in [0, 4, 1000] {
        let mut cursor = Cursor::new(row.bytes.as_slice());
        cursor.set_position(offset);
        let answer = kind.reader_size(&mut cursor);
        holds(is_answer(alloc, row, &answer)?, "the size by the type")?;
        cursor.set_position(offset);
        let mut reader = Cutting::one_byte(cursor);
        let answer = kind.reader_size(&mut reader);
        holds(
            is_answer(alloc, row, &answer)?,
            "the size by the type, one byte a read",
        )?;
    }
    Ok(())
}
