//! A walk along a sequence of records, such as segments, chunks, boxes or entries.
ghost use Rattle.std.specs.Prelude.{◌≡◌, ℕ, ◌≤◌, true, false, Err, IfOk, IfErr, IfSome, None};
ghost use Rattle.imagesize_source.specs.Layout.{layout_reads};
ghost use Rattle.imagesize_source.specs.Paying.{Nears, ahead_of};
ghost use Rattle.imagesize_source.specs.Reading.{is_failure, is_faulted, is_stopped, map_answer};
ghost use Rattle.imagesize_source.specs.Sharing.{Stood};
ghost use Rattle.imagesize_source.specs.State.{State, Runs};
ghost use Rattle.imagesize_source.specs.Strides.{Strides};
ghost use Rattle.imagesize_source.specs.Walk.{CanFollow, EndsBy, HoldsOn, Step, run, said_at};

use crate::Halt;
use crate::source::Source;

/// What a walk finds at a record.
#[derive(Drop)]
pub enum Found<X> {
    /// The result of the walk.
    Answer(X),
    /// No result yet: how many bytes after its own offset the next record begins.
    Other { length: u64 },
}

/// The result of reading a record.
pub type RecordResult<X> = Result<Found<X>, Halt>;

/// Where a sequence of records begins.
#[derive(Drop)]
pub struct Start<R> {
    /// The state before the first record.
    pub records: R,
    /// The offset of the first record.
    pub offset: u64,
}

/// A sequence of records. A value holds the state before the next record. A read of that record changes it into the state after the
/// record.
pub trait Records {
    /// What a walk keeps of the records before the next one. The layout of the next record depends on it.
    type State;

    /// The result of the walk.
    type Answer: Drop;

    /// The layout of the next record.
    ghost step: { Step Self.State Self.Answer };

    /// The state in a value.
    ghost state: { Self → Self.State };

    /// What always holds before the record at an offset.
    ghost holds: { Self → ℕ → Type 0 } = { λ _ _. Unit {0} };

    /// Reads the record at an offset.
    fn read_record<S: Source>(&mut self, source: &mut S, offset: u64) -> RecordResult<Self::Answer>
        requires { holds self.now offset }
        ensures nears { IfOk result (λ found. Nears (S.state source.old) (S.state source.new) offset
            (said_at (state self.new) offset found)) }
        ensures holds { IfOk result (HoldsOn (holds self.new) offset) }

        // If the read fails, the same value can read the record again.
        ensures stays { IfErr result (λ _. (state self.new ≡ state self.old) × holds self.new offset) }
        ensures runs { Runs (S.state source.old) (S.state source.new) (map_answer (said_at (state self.new) offset) result)
            (layout_reads (S.state source.old).held.input (step (state self.old) offset)) };

    /// The result at the end of the input, where no record is left.
    fn at_end(&self) -> Result<Self::Answer, Halt>
        ensures goes_on { is_stopped result ≡ false }
        ensures ends { (offset : ℕ) → holds self.now offset → EndsBy step (state self.now) result };
}

/// The result at the end of the input, where it is an error. Not inlined: else a walk sets it up at each record, which takes 6 of
/// 45 instructions for a segment of a JPEG in parts.
#[cold]
#[inline(never)]
pub fn ended<X: Drop>() -> Result<X, Halt>
    ensures { result ≡ Err Halt.Ended }
{
    Err(Halt::Ended)
}

/// Walks along the records from the first one, which is at this offset, and returns the result.
#[inline(always)]
pub fn walk<S: Source, R: Records + Drop>(
    mut records: R,
    source: &mut S,
    first: u64,
) -> Result<R::Answer, Halt>
    requires follows { CanFollow R.step }
    requires holds { R.holds records first }
    ensures { Runs (S.state source.old) (S.state source.new) result
        (run R.step (R.state records) first (S.state source.old).held.input) }
{
    let mut offset = first;
    walk_on(&mut records, &mut offset, source)
}

/// Walks on from the record at this offset, and returns the result.
///
/// If a read fails, `records` and `offset` are those of the record that it belongs to. The walk can go on from there.
#[inline(always)]
pub fn walk_on<S: Source, R: Records>(
    records: &mut R,
    offset: &mut u64,
    source: &mut S,
) -> Result<R::Answer, Halt>
    requires follows { CanFollow R.step }
    requires holds { R.holds records.old offset.old }
    ensures runs { Runs (S.state source.old) (S.state source.new) result
        (run R.step (R.state records.old) offset.old (S.state source.old).held.input) }
    ensures holds { is_faulted result ≡ true → R.holds records.new offset.new }
    ensures stands { is_faulted result ≡ true → Stood R.step (S.state source.old) (S.state source.new) (R.state records.old) offset.old
        (R.state records.new) offset.new }
{
    let mut at = *offset;
    loop {
        if let Some(result) = walk_held(records, &mut at, source) {
            return result;
        }
        match records.read_record(source, at) {
            Ok(Found::Answer(answer)) => return Ok(answer),
            Ok(Found::Other { length }) => match at.checked_add(length) {
                Some(next) => at = next,
                None => return records.at_end(),
            },
            Err(halt) => {
                *offset = at;
                return Err(halt);
            }
        }
    }
}

// Walks on along the records that lie within the bytes that the source holds. Returns the result if it is there. Otherwise the
// walk has come to the record at `offset`, which does not lie within them.
//
// Reads of held bytes make no call of the reader. This saves the tests of a reader's read for most records of a file.
#[inline(always)]
fn walk_held<S: Source, R: Records>(
    records: &mut R,
    offset: &mut u64,
    source: &mut S,
) -> Option<Result<R::Answer, Halt>>
    requires follows { CanFollow R.step }
    requires holds { R.holds records.old offset.old }
    ensures holds { result ≡ None → R.holds records.new offset.new }
    ensures nearer { result ≡ None → ahead_of (S.state source.new) offset.new ≤ ahead_of (S.state source.old) offset.old }
    ensures plain { IfSome result (λ r. is_faulted r ≡ false) }

    // A walk that has come to the offset has come to the new one then, or has this result.
    ensures strides { result ≡ None → (a : State) (s : R.State) (first : ℕ)
        → Strides R.step a (S.state source.old) s first (R.state records.old) offset.old
        → Strides R.step a (S.state source.new) s first (R.state records.new) offset.new }
    ensures runs { IfSome result (λ r. (a : State) (s : R.State) (first : ℕ)
        → Strides R.step a (S.state source.old) s first (R.state records.old) offset.old
        → Runs a (S.state source.new) r (run R.step s first a.held.input)) }
{
    if !S::SHOWS {
        return None;
    }
    let mut held = source.held(*offset)?;
    let mut here = *offset;
    loop {
        let before = held.counts();
        match records.read_record(&mut held, here) {
            Ok(Found::Answer(answer)) => {
                let counts = held.counts();
                source.pass(counts);
                return Some(Ok(answer));
            }
            Ok(Found::Other { length }) => match here.checked_add(length) {
                Some(next) => here = next,
                None => {
                    let counts = held.counts();
                    source.pass(counts);
                    return Some(records.at_end());
                }
            },
            // The record does not lie within the held bytes. None of its reads counts.
            Err(halt) if is_failure(halt) => {
                source.pass(before);
                *offset = here;
                return None;
            }
            Err(halt) => {
                let counts = held.counts();
                source.pass(counts);
                return Some(Err(halt));
            }
        }
    }
}

// Whether a call of the reader failed, or a byte is missing.
#[inline(always)]
fn is_failure(halt: Halt) -> bool
    ensures { result ≡ is_failure halt }
{
    matches!(halt, Halt::Failed)
}
