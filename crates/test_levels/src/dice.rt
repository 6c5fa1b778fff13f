//! Numbers that look random, the same in each run.

/// The generator splitmix64.
#[derive(Drop)]
pub struct Dice {
    state: u64,
}

impl Dice {
    pub fn new(seed: u64) -> Dice {
        Dice { state: seed }
    }

    fn next(&mut self) -> u64 {
        self.state = self.state.wrapping_add(0x9E37_79B9_7F4A_7C15);
        let mixed = (self.state ^ (self.state >> 30)).wrapping_mul(0xBF58_476D_1CE4_E5B9);
        let mixed = (mixed ^ (mixed >> 27)).wrapping_mul(0x94D0_49BB_1331_11EB);
        mixed ^ (mixed >> 31)
    }

    /// A number from `low` to `high`.
    pub fn between(&mut self, low: u8, high: u8) -> u8 {
        let more = self.next() % (u64::from(high.saturating_sub(low)) + 1);
        low.saturating_add(more as u8)
    }

    /// An amount of a payment, in cents.
    pub fn cents(&mut self) -> u32 {
        100 + (self.next() % 499_901) as u32
    }

    /// Whether something comes that does so this often of a hundred times.
    pub fn comes(&mut self, percent: u8) -> bool {
        self.between(1, 100) <= percent
    }
}
