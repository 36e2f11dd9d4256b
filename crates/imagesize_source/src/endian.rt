//! Numbers from bytes, in both byte orders.
ghost use Rattle.std.specs.Prelude.{◌≡◌};
ghost use Rattle.imagesize_source.specs.Numbers.{number};

/// The order of a number's bytes.
#[derive(Clone, Copy, Debug, PartialEq, Eq)]
pub enum Endian {
    /// Little endian: the lowest byte first.
    Little,
    /// Big endian: the highest byte first.
    Big,
}

impl Endian {
    /// The number that two bytes encode.
    #[inline(always)]
    #[tactic(auto, using(crate::proofs::Numbers::little_2, crate::proofs::Numbers::big_2))]
    pub fn u16(self, bytes: [u8; 2]) -> u16
        ensures { result ≡ number self bytes }
    {
        match self {
            Endian::Little => u16::from_le_bytes(bytes),
            Endian::Big => u16::from_be_bytes(bytes),
        }
    }

    /// The number that three bytes encode.
    #[inline(always)]
    #[tactic(auto, using(crate::proofs::Numbers::little_3, crate::proofs::Numbers::big_3))]
    pub fn u24(self, bytes: [u8; 3]) -> u32
        ensures { result ≡ number self bytes }
    {
        let [a, b, c] = bytes;
        match self {
            Endian::Little => u32::from_le_bytes([a, b, c, 0]),
            Endian::Big => u32::from_be_bytes([0, a, b, c]),
        }
    }

    /// The number that four bytes encode.
    #[inline(always)]
    #[tactic(auto, using(crate::proofs::Numbers::little_4, crate::proofs::Numbers::big_4))]
    pub fn u32(self, bytes: [u8; 4]) -> u32
        ensures { result ≡ number self bytes }
    {
        match self {
            Endian::Little => u32::from_le_bytes(bytes),
            Endian::Big => u32::from_be_bytes(bytes),
        }
    }

    /// The number that eight bytes encode.
    #[inline(always)]
    #[tactic(auto, using(crate::proofs::Numbers::little_8, crate::proofs::Numbers::big_8))]
    pub fn u64(self, bytes: [u8; 8]) -> u64
        ensures { result ≡ number self bytes }
    {
        match self {
            Endian::Little => u64::from_le_bytes(bytes),
            Endian::Big => u64::from_be_bytes(bytes),
        }
    }
}
