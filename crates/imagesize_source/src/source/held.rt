//! The bytes that another source holds, as a source of their own.
ghost use Rattle.std.specs.Prelude.{◌≡◌, ℕ, [], ◌+◌, ◌-◌, ◌^◌, ◌<◌, ◌≤◌, true, false, length, IfSome};
ghost use Rattle.imagesize_source.specs.Shown.{AreShown, AreWithin};
ghost use Rattle.imagesize_source.specs.State.{Held, shown_state};

use super::Source;
use crate::part::copy_ended;
use crate::{Halt, ImageError, Reason, Text};

/// How many bytes were read in all, and where the last read ended.
#[derive(Clone, Copy, Debug)]
pub struct Counts {
    /// How many bytes were read.
    pub taken: u64,
    /// The offset at which the last read ended.
    pub position: u64,
}

/// What a source claims, as far as the bytes that it shows depend on it. Proofs alone read it.
pub trait Claims {
    /// Its bytes, whether it is honest, and whether its calls can fail.
    ghost claim: { Self → Held } = { λ _. record { honest = false; input = []; can_fail = true } };

    /// How many of its first bytes it keeps.
    ghost kept: { Self → ℕ } = { λ _. 0 };
}

/// The bytes that another source holds from an offset on, as a source. A read of any other byte fails, and so does a read that
/// the budget does not have. A read is a few comparisons, a copy and a count, and makes no call of a reader.
#[derive(Drop)]
pub struct HeldSource<'a, S: Claims> {
    bytes: &'a [u8],
    // The source that holds them.
    of: &'a S,
    // The offset of the first one.
    start: u64,
    // The reported length of the input.
    told: u64,
    budget: u64,
    // How many bytes the budget still has. A read compares it as it is: a count of the bytes read would first be subtracted from the
    // budget.
    left: u64,
    // The offset at which the last read ended.
    position: u64,
    ghost shown: { AreShown (S.claim of.now) start bytes.now told },
    ghost within: { AreWithin (S.kept of.now) start (length bytes.now) told },
    ghost paid: { left ≤ budget },
    ghost short: { told < 2 ^ 64 },
}

impl<'a, S: Claims> HeldSource<'a, S> {
    /// A source of bytes that the source `of` holds from `start` on. That one reports the length `told`, has this budget, and has
    /// read so much.
    #[inline(always)]
    pub fn new(
        of: &'a S,
        bytes: &'a [u8],
        start: u64,
        told: u64,
        budget: u64,
        counts: Counts,
    ) -> Self
        requires shown { AreShown (S.claim of.now) start bytes.now told }
        requires within { AreWithin (S.kept of.now) start (length bytes.now) told }
        requires paid { counts.taken ≤ budget }
        ensures start { result.start ≡ start }
        ensures told { result.told ≡ told }
        ensures budget { result.budget ≡ budget }
        ensures taken { result.budget - result.left ≡ counts.taken }
        ensures position { result.position ≡ counts.position }
        ensures of { result.of.now ≡ of.now }
    {
        HeldSource {
            bytes,
            of,
            start,
            told,
            budget,
            left: budget - counts.taken,
            position: counts.position,
        }
    }

    /// How many bytes were read in all, and where the last read ended.
    #[inline(always)]
    pub fn counts(&self) -> Counts
        ensures taken { result.taken ≡ self.now.budget - self.now.left }
        ensures position { result.position ≡ self.now.position }
        ensures paid { result.taken ≤ self.now.budget }
    {
        Counts {
            taken: self.budget - self.left,
            position: self.position,
        }
    }

    // The bytes from an offset on. `None` if they begin after it, or end before it. Texts are read by it. With the one test of `whole`,
    // a long line would cost more.
    #[inline(always)]
    fn from(&self, offset: u64) -> Option<&'a [u8]>
        ensures ahead { IfSome result (λ _. self.now.start ≤ offset) }
        ensures there { IfSome result (λ bytes. offset + length bytes.now ≤ self.now.told) }
        ensures fits { IfSome result (λ bytes. offset + length bytes.now < 2 ^ 64) }
        ensures shown { IfSome result (λ bytes. AreShown (S.claim self.now.of.now) offset bytes.now self.now.told) }
    {
        if offset < self.start {
            return None;
        }
        let ahead = offset - self.start;
        if ahead > self.bytes.len() as u64 {
            return None;
        }
        Some(&self.bytes[ahead as usize..])
    }

    // The bytes from an offset on, if at least `count` of them are here. An offset before them wraps to a difference past their end, so
    // one test finds both.
    #[inline(always)]
    fn whole(&self, offset: u64, count: usize) -> Option<&'a [u8]>
        ensures ahead { IfSome result (λ _. self.now.start ≤ offset) }
        ensures there { IfSome result (λ bytes. offset + length bytes.now ≤ self.now.told) }
        ensures fits { IfSome result (λ bytes. offset + length bytes.now < 2 ^ 64) }
        ensures whole { IfSome result (λ bytes. count ≤ length bytes.now) }
        ensures shown { IfSome result (λ bytes. AreShown (S.claim self.now.of.now) offset bytes.now self.now.told) }
    {
        if count > self.bytes.len() {
            return None;
        }
        let last = self.bytes.len() - count;
        let ahead = offset.wrapping_sub(self.start);
        if ahead > last as u64 {
            return None;
        }
        Some(&self.bytes[ahead as usize..])
    }

    // Counts the bytes of a read. Returns whether the budget has them.
    #[inline(always)]
    fn pays(&mut self, offset: u64, count: usize) -> bool
        requires { offset + count < 2 ^ 64 }
        ensures bytes { self.new.bytes.now ≡ self.old.bytes.now }
        ensures start { self.new.start ≡ self.old.start }
        ensures told { self.new.told ≡ self.old.told }
        ensures budget { self.new.budget ≡ self.old.budget }
        ensures of { self.new.of.now ≡ self.old.of.now }
        ensures paid { result ≡ true → (self.new.left + count ≡ self.old.left) × (self.new.position ≡ offset + count) }
        ensures spent { result ≡ false → (self.new.left ≡ self.old.left) × (self.new.position ≡ self.old.position) }
    {
        if self.left < count as u64 {
            return false;
        }
        self.left -= count as u64;
        self.position = offset + count as u64;
        true
    }
}

impl<S: Claims> Claims for HeldSource<'_, S> {}

impl<S: Claims> Source for HeldSource<'_, S> {
    ghost state = { λ s. shown_state s.told s.budget (S.kept s.of.now) (S.claim s.of.now) (s.budget - s.left) s.position };

    #[inline(always)]
    fn told(&self) -> u64 {
        self.told
    }

    #[inline(always)]
    fn taken(&self) -> u64 {
        self.budget - self.left
    }

    #[inline(always)]
    fn refusal(&self, halt: Halt) -> ImageError {
        halt.error(Reason::EndOfInput, self.budget)
    }

    // It shows no bytes.
    #[inline(always)]
    fn pass(&mut self, _counts: Counts) {}

    #[inline(always)]
    fn read_at(&mut self, offset: u64, buffer: &mut [u8]) -> Result<usize, Halt> {
        let count = buffer.len();
        if count == 0 {
            return Err(Halt::Failed);
        }
        let Some(bytes) = self.whole(offset, count) else {
            return Err(Halt::Failed);
        };
        if !self.pays(offset, count) {
            return Err(Halt::Failed);
        }
        buffer.copy_from_slice(&bytes[..count]);
        Ok(buffer.len())
    }

    #[inline(always)]
    fn read_text(&mut self, offset: u64, text: Text, buffer: &mut [u8]) -> Result<usize, Halt> {
        let Some(bytes) = self.from(offset) else {
            return Err(Halt::Failed);
        };
        let Some(count) = copy_ended(bytes, text, buffer) else {
            return Err(Halt::Failed);
        };
        if count == 0 || !self.pays(offset, count) {
            return Err(Halt::Failed);
        }
        Ok(count)
    }
}
