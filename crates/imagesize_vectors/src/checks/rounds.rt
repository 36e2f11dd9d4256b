//! Types and sizes by a probe that keeps its state between the rounds in which parts are fetched.

use super::parts::{Both, How, part_for};
use super::stream::is_same;
use super::{is_answer, is_kind};
use crate::table::{Row, Wrong, holds};
use imagesize::{PartsAnswer, Span, parts_probe};
use imagesize_stream::PartsProbe;
use std::alloc::Global;

// The greatest length in bytes of an input that is fetched byte by byte.
const SMALL: usize = 200;

// The bytes of an input in this span.
fn part_of<'a>(input: &'a [u8], span: &Span) -> &'a [u8] {
    let rest = &input[(span.start as usize).min(input.len())..];
    &rest[..rest.len().min(span.len as usize)]
}

// Whether the span has a byte and lies within the input.
fn is_within(span: &Span, total: u64) -> bool {
    span.len > 0 && span.len <= total.saturating_sub(span.start)
}

// Whether both request the same span.
fn wants_same(answer: &PartsAnswer<Both>, span: &Span) -> bool {
    match answer {
        PartsAnswer::Wanted(other) => other == span,
        PartsAnswer::Found(_) => false,
    }
}

// Fetches what is requested until there is a result. Returns it, and after how many rounds it came.
fn fetch(input: &[u8], how: How) -> Result<(Both, usize), Wrong> {
    let total = input.len() as u64;
    let mut probe = PartsProbe::new(total);
    let mut known = 0;
    for rounds in 0..=input.len() {
        match probe.answer() {
            PartsAnswer::Found(found) => return Ok((found, rounds)),
            PartsAnswer::Wanted(span) => {
                holds(
                    is_within(&span, total),
                    "a span beyond the end is requested",
                )?;
                holds(
                    rounds == 0 || span.start >= known,
                    "a byte is requested again",
                )?;
                let part = part_for(how, &span, total);
                probe.supply(part.start, part_of(input, &part));
                known = span.start.saturating_add(1);
            }
        }
    }
    Err(Wrong::new("more rounds than bytes"))
}

// An input has its result after at most `most` rounds.
fn check_rounds(alloc: Global, row: &Row<'_>, how: How, most: usize) -> Result<(), Wrong> {
    let ((kind, answer), rounds) = fetch(&row.bytes, how)?;
    holds(is_kind(alloc, row, kind)?, "the type in rounds")?;
    holds(is_answer(alloc, row, &answer)?, "the size in rounds")?;
    if rounds > most {
        return Err(Wrong {
            what: "more rounds than reads",
            count: Some(rounds as u64),
        });
    }
    Ok(())
}

/// An input has its result, however its parts are fetched.
pub fn check(alloc: Global, row: &Row<'_>) -> Result<(), Wrong> {
    let reads = match &row.spans {
        Some(spans) => spans.len().saturating_add(1),
        None => row.bytes.len(),
    };
    let blocks = |of: usize| row.bytes.len().div_ceil(of);
    check_rounds(alloc, row, How::Exactly, reads)?;
    check_rounds(alloc, row, How::Shuffled, reads)?;
    check_rounds(alloc, row, How::Blocks(63), blocks(64))?;
    check_rounds(alloc, row, How::Blocks(4095), blocks(4096))?;
    if row.bytes.len() <= SMALL {
        check_rounds(alloc, row, How::OneByte, row.bytes.len())?;
        check_fronts(alloc, row)?;
    }
    check_others(row)
}

// A part that was not requested changes nothing: bytes behind a gap, bytes that came already, and no bytes.
fn check_others(row: &Row<'_>) -> Result<(), Wrong> {
    let total = row.bytes.len() as u64;
    let mut probe = PartsProbe::new(total);
    for _ in 0..=row.bytes.len() {
        let PartsAnswer::Wanted(span) = probe.answer() else {
            return Ok(());
        };
        let later = span.start.saturating_add(1);
        let rest = &row.bytes[(later as usize).min(row.bytes.len())..];
        probe.supply(later, rest);
        holds(
            wants_same(&probe.answer(), &span),
            "bytes behind a gap are taken",
        )?;
        probe.supply(0, &row.bytes[..(span.start as usize).min(row.bytes.len())]);
        holds(wants_same(&probe.answer(), &span), "bytes are taken again")?;
        probe.supply(span.start, part_of(&row.bytes, &span));
    }
    Err(Wrong::new("more rounds than bytes"))
}

// The front of an input gives what it gives to the call that keeps nothing, and no later.
fn check_fronts(alloc: Global, row: &Row<'_>) -> Result<(), Wrong> {
    let total = row.bytes.len() as u64;
    for end in 0..=row.bytes.len() {
        let front = &row.bytes[..end];
        let spans = [Span {
            start: 0,
            len: end as u64,
        }];
        let mut probe = PartsProbe::new(total);
        probe.supply(0, front);
        let PartsAnswer::Found((kind, size)) = parts_probe(front, &spans, total) else {
            continue;
        };
        let PartsAnswer::Found((other_kind, other_size)) = probe.answer() else {
            return Err(Wrong::new("a result is found later than by the parts"));
        };
        holds(kind == other_kind, "the type by a front")?;
        holds(is_same(alloc, &size, &other_size)?, "the size by a front")?;
    }
    Ok(())
}
