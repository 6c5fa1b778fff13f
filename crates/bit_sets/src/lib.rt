//! Sets of small numbers.
#![tactic(auto)]

pub mod bits;

pub use bits::{Bits, LEAF_WORDS, WORD_BITS};
