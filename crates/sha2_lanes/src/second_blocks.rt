//! The second blocks of messages of 65 bytes: the last byte and the padding, so one of 256.
ghost use Rattle.std.specs.Prelude.{◌≡◌, ◌<◌, [], ℕ, length, slice_index_or, vec_len};
ghost use Rattle.sha2_lanes.specs.Padding.{second_block};
ghost use Rattle.sha2_lanes.specs.Schedules.{AreSums};

use crate::block::lay_words;
use crate::padded::Padded;
use crate::rounds::{constant, extend};
use crate::word::add;
use std::alloc::{AllocError, Global};
use std::simd::u32x4;

// How many values a byte has.
const BYTES: usize = 256;

// The expanded schedule of a block: the sum of each round's constant and word.
fn sums_of(block: &[u8]) -> [u32; 64]
    requires { length block.now ≡ 64 }
    ensures { AreSums result block.now }
{
    let mut words = [u32x4::splat(0); 64];
    lay_words(&mut words, block, block, block, block);
    'schedule: for t in 16..64 {
        extend(&mut words, t);
    }
    let mut sums = [0; 64];
    'sums: for t in 0..64 {
        sums[t] = add(constant(t), words[t]).to_array()[0];
    }
    sums
}

// The expanded schedule of the second block of a message of 65 bytes that ends with this one.
fn sums_after(last: u8) -> [u32; 64]
    ensures { AreSums result (second_block last) }
{
    let rest = [last];
    let padded = Padded::behind(&rest, 65);
    sums_of(padded.block(0))
}

/// The expanded schedules of the second blocks, by the message's last byte.
#[derive(Drop)]
pub struct SecondBlocks {
    rows: Vec<[u32; 64]>,
    ghost all: { vec_len rows ≡ 256 },
    ghost each: { (last : ℕ) → last < 256 → AreSums (slice_index_or rows.items last []) (second_block last) },
}

impl SecondBlocks {
    /// All of them, in 64 KB of memory.
    pub fn new(alloc: Global) -> Result<SecondBlocks, AllocError> {
        let mut rows = Vec::with_capacity(alloc, BYTES)?;
        'bytes: for last in 0..BYTES {
            rows.push(sums_after(last as u8))?;
        }
        Ok(SecondBlocks { rows })
    }

    pub(crate) fn row(&self, last: u8) -> &[u32; 64]
        ensures { AreSums result.now (second_block last) }
    {
        &self.rows[last as usize]
    }
}
