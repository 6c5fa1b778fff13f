//! Signatures, and whether they meet.
ghost use Rattle.std.specs.Prelude.{◌≡◌, ℕ, ◌||◌, map};
ghost use Rattle.serializability.specs.BitSets.{IsSignatureOf, has, meet};
ghost use Rattle.serializability.specs.LevelRows.{last_from};
ghost use Rattle.signatures_simd.specs.Bits.{bit};

use crate::bit::granule_bit;
use crate::lanes::{either, have_common};
use std::marker::Model;
use tpcc_rows::granule::Granule;

/// The bits of a list of granules: bit b is in word b / 64.
#[derive(Drop)]
pub struct Signature {
    words: [u64; 8],
}

impl Model for Signature {
    ghost use Rattle.std.specs.Prelude.{Bool, List};
    ghost use Rattle.signatures_simd.specs.Words.{words_bits};

    ghost Value = { List Bool };

    ghost view = { λ s. words_bits s.words };
}

impl Signature {
    /// The bits of these granules.
    pub fn of(granules: &[Granule]) -> Signature
        ensures { IsSignatureOf result (map bit granules.now) }
    {
        let mut words = [0u64; 8];
        for granule in granules {
            let bit = granule_bit(granule);
            words[bit / 64] |= 1 << (bit % 64);
        }
        Signature { words }
    }

    /// The union.
    pub fn union(&self, other: &Signature) -> Signature
        ensures { (b : ℕ) → has result b ≡ (has self.now b || has other.now b) }
    {
        Signature {
            words: either(&self.words, &other.words),
        }
    }

    /// Whether the two share a bit.
    pub fn meets(&self, other: &Signature) -> bool
        ensures { result ≡ meet self.now other.now }
    {
        have_common(&self.words, &other.words)
    }
}

/// The last place of a signature that meets this one.
pub fn highest_meeting(signatures: &[Signature], other: &Signature) -> Option<usize>
    ensures { result ≡ last_from 0 (meet other.now) signatures.now }
{
    for place in (0..signatures.len()).rev() {
        if other.meets(&signatures[place]) {
            return Some(place);
        }
    }
    None
}
