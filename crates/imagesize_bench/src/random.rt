//! Numbers from a seed, by SplitMix64 (Steele, Lea and Flood, "Fast splittable pseudorandom number generators").
ghost use Rattle.std.specs.Prelude.{◌<◌, ◌≤◌};

/// A sequence of numbers that a seed determines.
#[derive(Drop)]
pub struct Random {
    state: u64,
}

impl Random {
    /// The sequence of this seed.
    pub fn new(seed: u64) -> Random {
        Random { state: seed }
    }

    /// The next number.
    pub fn next(&mut self) -> u64 {
        self.state = self.state.wrapping_add(0x9E37_79B9_7F4A_7C15);
        let mixed = self.state;
        let mixed = (mixed ^ (mixed >> 30)).wrapping_mul(0xBF58_476D_1CE4_E5B9);
        let mixed = (mixed ^ (mixed >> 27)).wrapping_mul(0x94D0_49BB_1331_11EB);
        mixed ^ (mixed >> 31)
    }

    /// A number from `low` on and below `high`, which must be greater.
    pub fn between(&mut self, low: u32, high: u32) -> u32
        requires { low < high }
        ensures low { low ≤ result }
        ensures high { result < high }
    {
        let many = (high - low) as u64;
        low + (self.next() % many) as u32
    }
}
