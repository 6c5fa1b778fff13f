//! The eight words of a signature as one vector, a word a lane.
ghost use Rattle.std.specs.Prelude.{◌≡◌, ℕ, ◌||◌};
ghost use Rattle.std.specs.List.{list_any};
ghost use Rattle.serializability.specs.BitSets.{has, meet};
ghost use Rattle.signatures_simd.specs.Words.{word_bits, words_bits};

use std::simd::prelude::*;

/// The union.
#[inline(always)]
pub(crate) fn either(one: &[u64; 8], other: &[u64; 8]) -> [u64; 8]
    ensures { (b : ℕ) → has (words_bits result) b ≡ (has (words_bits one.now) b || has (words_bits other.now) b) }
{
    let bits = u64x8::from_array(*one) | u64x8::from_array(*other);
    bits.to_array()
}

/// Whether any bit is set.
#[inline(always)]
fn has_bit(word: u64) -> bool
    ensures { result ≡ list_any (λ bit. bit) (word_bits word) }
{
    word != 0
}

/// Whether the two share a bit.
#[inline(always)]
pub(crate) fn have_common(one: &[u64; 8], other: &[u64; 8]) -> bool
    ensures { result ≡ meet (words_bits one.now) (words_bits other.now) }
{
    let common = u64x8::from_array(*one) & u64x8::from_array(*other);
    has_bit(common.reduce_or())
}
