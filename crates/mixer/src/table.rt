//! The levels of the requests so far, by the slots of their granules.
ghost use Rattle.std.specs.Prelude.{◌≡◌, ◌+◌, ◌<◌, ◌≤◌, ◌++◌, ◌∷◌, [], IfOk, vec_len};
ghost use Rattle.mixer.specs.Columns.{IsBelow};
ghost use Rattle.mixer.specs.declared.slots.TheConstants.{SLOTS};

use crate::columns::{highest, raise};
use crate::slots::SLOTS;
use std::alloc::Global;
use tpcc_rows::footprint::Footprint;
use tpcc_rows::memory::Memory;

/// For each slot, one above the highest level so far that writes one of its granules, and that touches one.
#[derive(Drop)]
pub(crate) struct Table {
    written: Vec<u16>,
    touched: Vec<u16>,
    placed: usize,
    ghost written_len: { vec_len written ≡ SLOTS },
    ghost touched_len: { vec_len touched ≡ SLOTS },
    ghost written_low: { IsBelow placed written.items },
    ghost touched_low: { IsBelow placed touched.items },
}

impl Table {
    ghost use Rattle.serializability.specs.Levels.{level_after};
    ghost use Rattle.serializability.specs.Signatures.{meets_by};
    ghost use Rattle.mixer.specs.LevelRows.{Declared, Done};
    ghost use Rattle.mixer.specs.Slots.{slot};
    ghost use Rattle.mixer.specs.Tables.{AreColumns};

    pub(crate) fn new(alloc: Global) -> Result<Table, Memory>
        ensures columns { IfOk result (λ table. AreColumns table []) }
        ensures none { IfOk result (λ table. table.placed ≡ 0) }
    {
        let written = vec![in alloc; 0u16; SLOTS]?;
        let touched = vec![in alloc; 0u16; SLOTS]?;
        Ok(Table {
            written,
            touched,
            placed: 0,
        })
    }

    /// One above the highest level so far that writes what the request reads, or touches what it writes.
    fn level_of(&self, footprint: &Footprint) -> u16
        ensures level { (done : Done) → AreColumns self.now done → result ≡ level_after (meets_by slot) done footprint.now }
        ensures bound { result ≤ self.now.placed }
    {
        let behind_writes = highest(&self.written, footprint.reads());
        let behind_touches = highest(&self.touched, footprint.writes());
        behind_writes.max(behind_touches)
    }

    /// Puts the next request on its level, and returns that.
    pub(crate) fn place(&mut self, footprint: &Footprint) -> usize
        requires { self.old.placed < 1024 }
        ensures level { (done : Done) → AreColumns self.old done → result ≡ level_after (meets_by slot) done footprint.now }
        ensures columns { (done : Done) → AreColumns self.old done → AreColumns self.new (done ++ (result, footprint.now) ∷ []) }
        ensures bound { result ≤ self.old.placed }
        ensures placed { self.new.placed ≡ self.old.placed + 1 }
    {
        let level = self.level_of(footprint);
        raise(&mut self.written, footprint.writes(), level + 1);
        raise(&mut self.touched, footprint.reads(), level + 1);
        self.placed += 1;
        usize::from(level)
    }
}
