//! Reads at an offset: bytes, and numbers in both byte orders. Offsets count bytes from 0.
ghost use Rattle.std.specs.Prelude.{◌≡◌, ◌+◌, ◌<◌, true, length, IfOk, IfSome};
ghost use Rattle.imagesize_source.specs.Layout.{layout_reads, if_there, some_where};
ghost use Rattle.imagesize_source.specs.Layout.Layout.{«done»};
ghost use Rattle.imagesize_source.specs.Paying.{Paid};
ghost use Rattle.imagesize_source.specs.Reading.{bytes_read, number_read, map_answer};
ghost use Rattle.imagesize_source.specs.State.{Runs};
ghost use Rattle.imagesize_source.specs.declared.endian.Endian.TheVariants as endian;

use crate::source::Source;
use crate::{Endian, Halt};

/// Fills the buffer with the bytes from an offset on. Returns `Ended` if the input ends earlier.
#[inline(always)]
#[tactic(auto, using(crate::proofs::Runs::bytes_there, crate::proofs::Runs::bytes_missing, crate::proofs::Runs::bytes_stopped))]
pub fn read_exact_at<S: Source>(source: &mut S, offset: u64, buffer: &mut [u8]) -> Result<(), Halt>
    ensures pays { IfOk result (λ _. 0 < length buffer.new → Paid (S.state source.old) (S.state source.new) offset) }
    ensures runs { Runs (S.state source.old) (S.state source.new)
        (map_answer (λ _. buffer.new) result)
        (bytes_read (S.state source.old).held.input offset (length buffer.new)) }
{
    let count = source.read_at(offset, buffer)?;
    if count < buffer.len() {
        return Err(Halt::Ended);
    }
    Ok(())
}

/// The `N` bytes from an offset on. Returns `Ended` if the input ends earlier.
#[inline(always)]
pub fn read_bytes<S: Source, const N: usize>(source: &mut S, offset: u64) -> Result<[u8; N], Halt>
    ensures pays { IfOk result (λ bytes. 0 < N → Paid (S.state source.old) (S.state source.new) offset) }
    ensures runs { Runs (S.state source.old) (S.state source.new) result
        (bytes_read (S.state source.old).held.input offset N) }
{
    let mut buffer = [0u8; N];
    read_exact_at(source, offset, &mut buffer)?;
    Ok(buffer)
}

/// The `N` bytes at `offset + distance`. An offset above 2^64 - 1 is past the end of every input.
#[inline(always)]
pub fn read_bytes_behind<S: Source, const N: usize>(
    source: &mut S,
    offset: u64,
    distance: u64,
) -> Result<[u8; N], Halt>
    requires { 0 < N }
    ensures { Runs (S.state source.old) (S.state source.new) result
        (bytes_read (S.state source.old).held.input (offset + distance) N) }
{
    read_bytes::<S, N>(source, offset.saturating_add(distance))
}

/// Fills the buffer with the bytes from an offset on, and returns whether the input has all of them.
#[inline(always)]
#[tactic(auto, using(crate::proofs::Layouts::whole_read, crate::proofs::Layouts::whole_stopped))]
pub fn read_whole_at<S: Source>(
    source: &mut S,
    offset: u64,
    buffer: &mut [u8],
) -> Result<bool, Halt>
    ensures pays { IfOk result (λ all. all ≡ true → 0 < length buffer.new → Paid (S.state source.old) (S.state source.new) offset) }
    ensures runs { Runs (S.state source.old) (S.state source.new)
        (map_answer (some_where buffer.new) result)
        (layout_reads (S.state source.old).held.input (if_there offset (length buffer.new) done)) }
{
    let count = source.read_at(offset, buffer)?;
    Ok(count == buffer.len())
}

/// Fills the buffer with the bytes from `offset + distance` on, and returns whether the input has all of them. An offset above
/// 2^64 - 1 is past the end of every input.
#[inline(always)]
pub fn read_whole_behind<S: Source>(
    source: &mut S,
    offset: u64,
    distance: u64,
    buffer: &mut [u8],
) -> Result<bool, Halt>
    ensures { Runs (S.state source.old) (S.state source.new)
        (map_answer (some_where buffer.new) result)
        (layout_reads (S.state source.old).held.input (if_there (offset + distance) (length buffer.new) done)) }
{
    read_whole_at(source, offset.saturating_add(distance), buffer)
}

/// The `N` bytes from an offset on, or `None` if the input ends before the last of them.
#[inline(always)]
pub fn read_if_there<S: Source, const N: usize>(
    source: &mut S,
    offset: u64,
) -> Result<Option<[u8; N]>, Halt>
    ensures pays { IfOk result (λ found. IfSome found (λ bytes. 0 < N → Paid (S.state source.old) (S.state source.new) offset)) }
    ensures runs { Runs (S.state source.old) (S.state source.new) result
        (layout_reads (S.state source.old).held.input (if_there offset N done)) }
{
    let mut buffer = [0u8; N];
    if read_whole_at(source, offset, &mut buffer)? {
        return Ok(Some(buffer));
    }
    Ok(None)
}

/// The byte at an offset, as a number.
#[inline(always)]
#[tactic(auto, using(crate::proofs::Runs::number_there, crate::proofs::Runs::number_missing, crate::proofs::Numbers::little_1))]
pub fn read_u8<S: Source>(source: &mut S, offset: u64) -> Result<u8, Halt>
    ensures { Runs (S.state source.old) (S.state source.new) result
        (number_read (S.state source.old).held.input endian.Little offset 1) }
{
    let [byte] = read_bytes::<S, 1>(source, offset)?;
    Ok(byte)
}

/// The number that the two bytes from an offset on encode.
#[inline(always)]
#[tactic(auto, using(crate::proofs::Runs::number_there, crate::proofs::Runs::number_missing))]
pub fn read_u16<S: Source>(source: &mut S, offset: u64, endian: Endian) -> Result<u16, Halt>
    ensures { Runs (S.state source.old) (S.state source.new) result
        (number_read (S.state source.old).held.input endian offset 2) }
{
    let bytes = read_bytes::<S, 2>(source, offset)?;
    Ok(endian.u16(bytes))
}

/// The number that the three bytes from an offset on encode.
#[inline(always)]
#[tactic(auto, using(crate::proofs::Runs::number_there, crate::proofs::Runs::number_missing))]
pub fn read_u24<S: Source>(source: &mut S, offset: u64, endian: Endian) -> Result<u32, Halt>
    ensures { Runs (S.state source.old) (S.state source.new) result
        (number_read (S.state source.old).held.input endian offset 3) }
{
    let bytes = read_bytes::<S, 3>(source, offset)?;
    Ok(endian.u24(bytes))
}

/// The number that the four bytes from an offset on encode.
#[inline(always)]
#[tactic(auto, using(crate::proofs::Runs::number_there, crate::proofs::Runs::number_missing))]
pub fn read_u32<S: Source>(source: &mut S, offset: u64, endian: Endian) -> Result<u32, Halt>
    ensures { Runs (S.state source.old) (S.state source.new) result
        (number_read (S.state source.old).held.input endian offset 4) }
{
    let bytes = read_bytes::<S, 4>(source, offset)?;
    Ok(endian.u32(bytes))
}

/// The number that the eight bytes from an offset on encode.
#[inline(always)]
#[tactic(auto, using(crate::proofs::Runs::number_there, crate::proofs::Runs::number_missing))]
pub fn read_u64<S: Source>(source: &mut S, offset: u64, endian: Endian) -> Result<u64, Halt>
    ensures { Runs (S.state source.old) (S.state source.new) result
        (number_read (S.state source.old).held.input endian offset 8) }
{
    let bytes = read_bytes::<S, 8>(source, offset)?;
    Ok(endian.u64(bytes))
}

/// The number that the two bytes at `offset + distance` encode. An offset above 2^64 - 1 is past the end of every input.
#[inline(always)]
pub fn read_u16_behind<S: Source>(
    source: &mut S,
    offset: u64,
    distance: u64,
    endian: Endian,
) -> Result<u16, Halt>
    ensures { Runs (S.state source.old) (S.state source.new) result
        (number_read (S.state source.old).held.input endian (offset + distance) 2) }
{
    read_u16(source, offset.saturating_add(distance), endian)
}
