//! The lines of an order.
ghost use Rattle.std.specs.Prelude.{ℕ, ◌≡◌, ◌<◌, ◌+◌, ◌++◌, [], ◌∷◌, length, option_copied};
ghost use Rattle.row_tables.specs.OrderLines.{AreOrderLines, lines_of};
ghost use Rattle.tpcc_rows.specs.RowMap.{Rows};
ghost use Rattle.tpcc_rows.specs.Rows.{order_line_row};

use arrayvec::ArrayVec;
use tpcc_rows::id::LineNumber;
use tpcc_rows::row::OrderLineRow;

/// The most lines of an order.
pub const MOST_LINES: usize = 15;

/// The rows of an order's lines, by number.
#[derive(Drop)]
pub struct OrderLines<'a> {
    rows: ArrayVec<Option<&'a OrderLineRow>, MOST_LINES>,
}

/// The number of a line at a place, counted from 0.
pub fn line_number_at(place: usize) -> LineNumber
    requires { place < MOST_LINES }
    ensures { result ≡ place + 1 }
{
    LineNumber::new(place as u8 + 1).unwrap()
}

impl<'a> OrderLines<'a> {
    /// No lines.
    pub fn new() -> OrderLines<'a>
        ensures { lines_of result ≡ [] }
    {
        OrderLines {
            rows: ArrayVec::new(),
        }
    }

    /// Appends the row of the next line, or none where it has none.
    pub fn push(&mut self, row: Option<&'a OrderLineRow>)
        requires { length (lines_of self.old) < MOST_LINES }
        ensures { lines_of self.new ≡ lines_of self.old ++ option_copied row.entry ∷ [] }
    {
        self.rows.push(row);
    }

    /// The row of the line with this number, if there is one.
    pub fn get(&self, number: LineNumber) -> Option<&'a OrderLineRow>
        ensures { (rows : Rows) (w d o : ℕ) → AreOrderLines rows w d o self.now → option_copied result ≡ order_line_row rows w d o number }
    {
        match self.rows.as_slice().get(usize::from(number.number()) - 1) {
            Some(row) => *row,
            None => None,
        }
    }
}
