//! The levels built so far, as two lists of signatures: what each level reads, and what it writes.
ghost use Rattle.std.specs.Prelude.{◌≡◌, ℕ, ◌+◌, ◌<◌, ◌≤◌, ◌++◌, ◌∷◌, [], List, IfOk, length, max};
ghost use Rattle.serializability.specs.BitSets.{IsSignatureOf};
ghost use Rattle.serializability.specs.LevelRows.{IsRow, level_above};
ghost use Rattle.serializability.specs.Levels.{level_after};
ghost use Rattle.serializability.specs.Signatures.{meets_by};
ghost use Rattle.signatures_simd.specs.Bits.{bit};
ghost use Rattle.mixer.specs.LevelRows.{AreRows, Declared, Done, IsSigned};

use crate::signing::{Signed, sign};
use signatures_simd::{Signature, highest_meeting};
use std::alloc::Global;
use tpcc_rows::footprint::Footprint;
use tpcc_rows::memory::Memory;

/// For each level so far, the union of its requests' read signatures and of their write signatures.
#[derive(Drop)]
pub(crate) struct Rows {
    reads: Vec<Signature>,
    writes: Vec<Signature>,
}

/// The level above, or level 0 above none.
fn level_above(level: Option<usize>) -> usize
    requires { level_above level ≤ 1024 }
    ensures { result ≡ level_above level }
{
    match level {
        Some(level) => level + 1,
        None => 0,
    }
}

/// Adds a signature to a level's, which may be a new level on top.
fn join(row: &mut Vec<Signature>, level: usize, own: Signature) -> Result<(), Memory>
    ensures row { IfOk result (λ _. (bits : Declared → List ℕ) (done : Done) (f : Declared)
        → level ≤ length row.old.items → IsRow bits row.old.items done → IsSignatureOf own (bits f) → IsRow bits row.new.items (done ++ (level, f) ∷ [])) }
    ensures len { IfOk result (λ _. level ≤ length row.old.items → length row.new.items ≡ max (length row.old.items) (level + 1)) }
    ensures bound { IfOk result (λ _. length row.new.items ≤ length row.old.items + 1) }
{
    if level < row.len() {
        row[level] = row[level].union(&own);
    } else {
        row.push(own)?;
    }
    Ok(())
}

impl Rows {
    pub(crate) fn new(alloc: Global) -> Rows
        ensures rows { AreRows result [] }
        ensures len { length result.reads.items ≡ 0 }
        ensures writes_len { length result.writes.items ≡ 0 }
    {
        Rows {
            reads: Vec::new(alloc),
            writes: Vec::new(alloc),
        }
    }

    /// One above the highest level that writes what the request reads, or reads what it writes.
    fn level_of(&self, own: &Signed) -> usize
        requires reads { length self.now.reads.items ≤ 1024 }
        requires writes { length self.now.writes.items ≤ 1024 }
        ensures level { (done : Done) (f : Declared) → AreRows self.now done → IsSigned own.now f → result ≡ level_after (meets_by bit) done f }
        ensures bound { result ≤ max (length self.now.reads.items) (length self.now.writes.items) }
    {
        let behind_writes = level_above(highest_meeting(&self.writes, &own.reads));
        let behind_reads = level_above(highest_meeting(&self.reads, &own.writes));
        behind_writes.max(behind_reads)
    }

    /// Puts the next request on its level, and returns that.
    pub(crate) fn place(&mut self, footprint: &Footprint) -> Result<usize, Memory>
        requires reads { length self.old.reads.items < 1024 }
        requires writes { length self.old.writes.items < 1024 }
        ensures level { IfOk result (λ level. (done : Done) → AreRows self.old done → level ≡ level_after (meets_by bit) done footprint.now) }
        ensures rows { IfOk result (λ level. (done : Done) → AreRows self.old done → AreRows self.new (done ++ (level, footprint.now) ∷ [])) }
        ensures bound { IfOk result (λ level. level ≤ max (length self.old.reads.items) (length self.old.writes.items)) }
        ensures reads { IfOk result (λ _. length self.new.reads.items ≤ length self.old.reads.items + 1) }
        ensures writes { IfOk result (λ _. length self.new.writes.items ≤ length self.old.writes.items + 1) }
    {
        let own = sign(footprint);
        let level = self.level_of(&own);
        join(&mut self.reads, level, own.reads)?;
        join(&mut self.writes, level, own.writes)?;
        Ok(level)
    }
}
