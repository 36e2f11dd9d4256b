//! The bits of bytes, from the lowest bit of a byte on, by ISO/IEC 18181-1, annex B.
ghost use Rattle.std.specs.Prelude.{◌≡◌, ◌+◌, ◌*◌, ◌%◌, ◌^◌, ◌<◌, ◌≤◌, ok_or};
ghost use Rattle.imagesize_boxes.specs.Walks.{field_in};
ghost use Rattle.imagesize_source.specs.declared.endian.Endian.TheVariants as endian;
ghost use Rattle.imagesize_source.specs.Numbers.{number};
ghost use Rattle.imagesize_source.specs.declared.halt.Halt.TheVariants as halt;

use super::front::MOST;

// At most 128 bits, as the lowest bits of a number.
#[derive(Clone, Copy)]
pub(super) struct Bits {
    pub(super) number: u128,
    pub(super) count: u32,
    ghost within: { count ≤ 128 },
}

impl Bits {
    // The bits of the first `len` bytes. The number has the bits of the other bytes above them.
    #[inline(always)]
    #[tactic(auto, using(crate::proofs::Fields::little_16))]
    pub(super) fn of(bytes: &[u8; MOST], len: usize) -> Bits
        requires { len ≤ 16 }
        ensures number { result.number ≡ number endian.Little bytes.now }
        ensures count { result.count ≡ 8 * len }
    {
        Bits {
            number: u128::from_le_bytes(*bytes),
            count: 8 * len as u32,
        }
    }

    // The number of `count` bits from a bit on, or `None` if some of them are missing.
    #[inline(always)]
    pub(super) fn field(&self, from: u32, count: u32) -> Option<u32>
        requires some { 0 < count }
        requires few { count ≤ 30 }
        requires near { from ≤ 1000 }
        ensures { ok_or result halt.Corrupted ≡ field_in self.now.number self.now.count from count }
    {
        if from + count > self.count {
            return None;
        }
        let behind = lowest_64(self.number >> from);
        let mask = (1u64 << count) - 1;
        Some((behind & mask) as u32)
    }
}

// The lowest 64 bits.
#[inline(always)]
#[tactic(auto, using(crate::proofs::Fields::low_mask))]
fn lowest_64(number: u128) -> u64
    ensures { result ≡ number % 2 ^ 64 }
{
    (number & u64::MAX as u128) as u64
}
