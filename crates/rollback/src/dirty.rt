//! Sets of leaves.
ghost use Rattle.std.specs.Prelude.{◌≡◌, ◌<◌, ◌≤◌, ℕ, IfSome, None, false};
ghost use Rattle.bit_sets.specs.BitSets.{IsFirstFrom};
ghost use Rattle.rollback.specs.Marks.{AreClean, HasAlso, is_dirty};

use bit_sets::{Bits, LEAF_WORDS};
use std::marker::Model;
use std::mem;
use tpcc_rows::codes::LEAVES;

/// A set of leaves, a bit each.
#[derive(Drop)]
pub struct Dirty {
    leaves: Bits<LEAF_WORDS>,
}

impl Model for Dirty {
    ghost use Rattle.std.specs.Prelude.{List, ℕ};

    ghost Value = { List ℕ };

    ghost view = { λ s. s.leaves.words };
}

impl Dirty {
    /// No leaves.
    pub fn new() -> Dirty
        ensures { AreClean result }
    {
        Dirty {
            leaves: Bits::new(),
        }
    }

    /// Whether the leaf is in the set.
    pub fn has(&self, leaf: usize) -> bool
        requires { leaf < LEAVES }
        ensures { result ≡ is_dirty self.now leaf }
    {
        self.leaves.has(leaf)
    }

    /// The least leaf of the set that is `from` or greater.
    pub fn first_from(&self, from: usize) -> Option<usize>
        ensures some { IfSome result (λ n. (n < LEAVES) × IsFirstFrom self.now from n) }
        ensures none { result ≡ None → (n : ℕ) → from ≤ n → n < LEAVES → is_dirty self.now n ≡ false }
    {
        self.leaves.first_from(from)
    }

    /// Inserts the leaf.
    pub fn add(&mut self, leaf: usize)
        requires { leaf < LEAVES }
        ensures { HasAlso self.old leaf self.new }
    {
        self.leaves.add(leaf);
    }

    /// Empties the set, and returns what it was.
    pub fn take(&mut self) -> Dirty
        ensures taken { result ≡ self.old }
        ensures clean { AreClean self.new }
    {
        mem::replace(self, Dirty::new())
    }
}
