//! Joins rows that came late with the others.
ghost use Rattle.std.specs.Prelude.{◌≡◌, ◌++◌, IfOk, OnOk, true};
ghost use Rattle.std.specs.FinMap as map;
ghost use Rattle.std.specs.List.{list_all};
ghost use Rattle.loader.specs.LateRows.{AreGathered, listed, over};
ghost use Rattle.tpcc_rows.specs.RowKinds.{fits};

use row_tables::boxed::boxed;
use row_tables::store::RowTables;
use std::alloc::Global;
use tpcc_rows::key::RowKey;
use tpcc_rows::memory::Memory;
use tpcc_rows::row::Row;

/// After how many rows of a list the memory that they have left is freed.
const PIECE: usize = 4096;

/// Appends copies of the rows of tables.
fn append_copies(rows: &mut Vec<(RowKey, Row)>, tables: &RowTables) -> Result<(), Memory>
    ensures all { OnOk result (rows.new.items ≡ rows.old.items ++ map.entries tables.now) }
{
    let mut walk = tables.walk();
    while let Some((key, row)) = walk.next() {
        rows.push((key, row.copied()?))?;
    }
    Ok(())
}

/// Sorts rows by key. The sort is stable.
fn sort(rows: &mut Vec<(RowKey, Row)>) -> Result<(), Memory>
    requires { list_all (λ row. fits row.0 row.1) rows.old.items ≡ true }
    ensures all { OnOk result (listed rows.new.items ≡ listed rows.old.items) }
    ensures kinds { list_all (λ row. fits row.0 row.1) rows.new.items ≡ true }
{
    rows.sort_by_key(|row: &(RowKey, Row)| -> RowKey { row.0 })?;
    Ok(())
}

/// Puts the rows of a list into tables that have none; a key's last row counts. The list is reversed, so that it can shrink
/// from its end while the tables grow.
fn put_all(tables: &mut RowTables, rows: Vec<(RowKey, Row)>) -> Result<(), Memory>
    requires none { tables.old ≡ map.empty }
    requires fit { list_all (λ row. fits row.0 row.1) rows.items ≡ true }
    ensures { OnOk result (tables.new ≡ listed rows.items) }
{
    let mut left = rows;
    left.reverse();
    while let Some((key, row)) = left.pop() {
        tables.put(key, row)?;
        if left.len() % PIECE == 0 {
            left.shrink_to_fit();
        }
    }
    Ok(())
}

/// The rows of a list; a key's last row counts.
fn sorted(alloc: Global, rows: Vec<(RowKey, Row)>) -> Result<Box<RowTables>, Memory>
    requires { list_all (λ row. fits row.0 row.1) rows.items ≡ true }
    ensures { IfOk result (λ tables. tables.value ≡ listed rows.items) }
{
    let mut rows = rows;
    sort(&mut rows)?;
    let mut tables = boxed(alloc, RowTables::new(alloc)?)?;
    put_all(&mut tables, rows)?;
    Ok(tables)
}

/// The rows of tables and of a list, whose keys have none in the tables; a key's last row in the list counts.
pub(crate) fn joined(
    alloc: Global,
    tables: Box<RowTables>,
    late: Vec<(RowKey, Row)>,
) -> Result<Box<RowTables>, Memory>
    requires gathered { AreGathered (listed late.items) tables.value }
    requires fit { list_all (λ row. fits row.0 row.1) late.items ≡ true }
    ensures { IfOk result (λ joined. joined.value ≡ over (listed late.items) tables.value) }
{
    if late.is_empty() {
        return Ok(tables);
    }
    let mut rows = late;
    append_copies(&mut rows, &tables)?;
    drop(tables);
    sorted(alloc, rows)
}
