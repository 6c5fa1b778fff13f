//! Numbers that look random, and are the same for the same seed.

/// SplitMix64 (Steele, Lea and Flood, "Fast splittable pseudorandom number generators", 2014).
#[derive(Drop)]
pub struct Draw {
    state: u64,
}

/// What is added to the state for each number.
const STEP: u64 = 0x9e37_79b9_7f4a_7c15;

/// The number of a state: states that are near each other give numbers that have nothing in common.
fn mixed(state: u64) -> u64 {
    let mut word = state;
    word = (word ^ (word >> 30)).wrapping_mul(0xbf58_476d_1ce4_e5b9);
    word = (word ^ (word >> 27)).wrapping_mul(0x94d0_49bb_1331_11eb);
    word ^ (word >> 31)
}

impl Draw {
    /// The seed is mixed before it becomes the state, so that no two seeds begin a few steps from each other.
    pub fn new(seed: u32) -> Draw {
        Draw {
            state: mixed(u64::from(seed).wrapping_add(STEP)),
        }
    }

    fn next(&mut self) -> u64 {
        self.state = self.state.wrapping_add(STEP);
        mixed(self.state)
    }

    /// One of the numbers from `low` to `high`.
    pub fn between(&mut self, low: u64, high: u64) -> u64 {
        let count = high.saturating_sub(low).saturating_add(1).max(1);
        low.wrapping_add(self.next() % count)
    }

    /// One of the numbers from `low` to `high`, some much more often than others (NURand of TPC-C clause 2.1.6).
    pub fn skewed(&mut self, spread: u64, low: u64, high: u64) -> u64 {
        let count = high.saturating_sub(low).saturating_add(1).max(1);
        let mixed = self.between(0, spread) | self.between(low, high);
        low.wrapping_add(mixed.wrapping_add(123) % count)
    }

    /// Whether something comes that does so this often of a hundred times.
    pub fn is_within(&mut self, percent: u64) -> bool {
        self.between(1, 100) <= percent
    }
}
