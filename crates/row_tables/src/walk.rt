//! A walk through the rows of a database in key order.
ghost use Rattle.std.specs.Prelude.{◌≡◌, [], ◌∷◌, IfNone, IfSome};
ghost use Rattle.row_tables.specs.Parts.{lent};
ghost use Rattle.row_tables.specs.Walks.{left};

use crate::store::RowTables;
use tpcc_rows::key::RowKey;
use tpcc_rows::row_ref::RowRef;

/// Rows in key order: those of a part from its `next` on, and those of the parts behind it up to `end`.
#[derive(Drop)]
pub struct Walk<'a> {
    pub(crate) rows: &'a RowTables,
    pub(crate) part: usize,
    pub(crate) next: usize,
    pub(crate) end: usize,
}

impl<'a> Walk<'a> {
    /// The next row with its key, if one is left.
    pub fn next(&mut self) -> Option<(RowKey, RowRef<'a>)>
        ensures some { IfSome result (λ entry. left self.old ≡ lent entry ∷ left self.new) }
        ensures none { IfNone result (left self.old ≡ []) }
    {
        let end = self.end;
        while self.part < end {
            if let Some(entry) = self.rows.nth(self.part, self.next) {
                self.next += 1;
                return Some(entry);
            }
            self.part += 1;
            self.next = 0;
        }
        None
    }
}
