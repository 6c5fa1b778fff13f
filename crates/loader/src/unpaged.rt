//! Rows that aren't in a store yet.
ghost use Rattle.std.specs.Prelude.{◌≡◌, [], IfErr, IfOk, Ok, OnOk};
ghost use Rattle.image_checks.specs.Checks.{checked};
ghost use Rattle.image_records.specs.Faults.{IsOfText, StopsBy};
ghost use Rattle.rollback.specs.Marks.{AreClean};
ghost use Rattle.tpcc_model.specs.Database.{database};

use catalog::Catalog;
use image_checks::check;
use image_records::fault::LoadError;
use row_store::PointedStore;
use row_tables::store::RowTables;
use std::alloc::Global;
use std::marker::Model;
use tpcc_rows::memory::Memory;

/// A finite map from keys to rows, each row of its key's kind: tables, without the leaves of a store.
#[derive(Drop)]
pub struct UnpagedRows {
    /// Boxed, so that who holds it needn't be proved to drop each table.
    tables: Box<RowTables>,
}

impl Model for UnpagedRows {
    ghost use Rattle.tpcc_rows.specs.RowMap.{Rows, rows_code};

    ghost Value = { Rows };

    ghost coded = { rows_code };

    ghost view = { λ s. s.tables.value };
}

impl UnpagedRows {
    /// The rows of tables.
    pub(crate) fn of(tables: Box<RowTables>) -> UnpagedRows
        ensures { result ≡ tables.value }
    {
        UnpagedRows { tables }
    }

    /// Checks that cards and rows together are sound.
    pub(crate) fn check(&self, alloc: Global, catalog: &Catalog) -> Result<(), LoadError>
        ensures ok { OnOk result (checked (database catalog.now self.now) ≡ Ok (database catalog.now self.now)) }
        ensures err { IfErr result (λ e. StopsBy e (checked (database catalog.now self.now))) }
        ensures kinds { IfErr result IsOfText }
    {
        check(alloc, catalog, &self.tables)
    }

    /// The rows in a store, all leaves clean, without a point.
    pub fn into_store(self, alloc: Global) -> Result<PointedStore, Memory>
        ensures rows { IfOk result (λ store. store.rows ≡ self) }
        ensures points { IfOk result (λ store. store.points ≡ []) }
        ensures clean { IfOk result (λ store. AreClean store.dirty) }
    {
        PointedStore::from_tables(alloc, self.tables)
    }
}
