//! Sets of small numbers, a bit each.
ghost use Rattle.std.specs.Prelude.{◌≡◌, ◌<◌, ◌≤◌, ◌*◌, ◌^◌, ◌==◌, ◌||◌, ℕ, IfSome, None, false};
ghost use Rattle.bit_sets.specs.BitSets.{IsFirstFrom, has_bit};
ghost use Rattle.bit_sets.specs.declared.bits.TheConstants.{WORD_BITS};

use tpcc_rows::codes::LEAVES;

/// How many numbers a word is for.
pub const WORD_BITS: usize = 64;

/// How many words a set of leaves has.
pub const LEAF_WORDS: usize = LEAVES / WORD_BITS;

/// A set of numbers, a bit each.
#[derive(Drop)]
pub struct Bits<const WORDS: usize> {
    words: [u64; WORDS],
}

impl<const WORDS: usize> Bits<WORDS> {
    /// No numbers.
    pub fn new() -> Bits<WORDS>
        ensures { (n : ℕ) → has_bit result.words n ≡ false }
    {
        Bits { words: [0; WORDS] }
    }

    /// Whether the number is in the set.
    pub fn has(&self, n: usize) -> bool
        requires { n < WORD_BITS * WORDS }
        ensures { result ≡ has_bit self.now.words n }
    {
        (self.words[n / WORD_BITS] >> (n % WORD_BITS)) % 2 == 1
    }

    /// The number is in the set from now on.
    pub fn add(&mut self, n: usize)
        requires { n < WORD_BITS * WORDS }
        ensures { (m : ℕ) → has_bit self.new.words m ≡ ((m == n) || has_bit self.old.words m) }
    {
        self.words[n / WORD_BITS] |= 1 << (n % WORD_BITS);
    }

    /// The least number of the set from this one on. Words without a bit are passed over whole.
    pub fn first_from(&self, from: usize) -> Option<usize>
        requires { WORD_BITS * WORDS < 2 ^ 63 }
        ensures some { IfSome result (λ n. (n < WORD_BITS * WORDS) × IsFirstFrom self.now.words from n) }
        ensures none { result ≡ None → (n : ℕ) → from ≤ n → n < WORD_BITS * WORDS → has_bit self.now.words n ≡ false }
    {
        let mut n = from;
        while n < WORD_BITS * WORDS {
            let rest = self.words[n / WORD_BITS] >> (n % WORD_BITS);
            if rest != 0 {
                return Some(n + rest.trailing_zeros() as usize);
            }
            n += WORD_BITS - n % WORD_BITS;
        }
        None
    }
}
