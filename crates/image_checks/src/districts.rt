//! The consistency conditions on each district's orders.
ghost use Rattle.std.specs.Prelude.{◌≡◌};
ghost use Rattle.tpcc_rows.specs.References.{row_of};
ghost use Rattle.tpcc_rows.specs.RowMap.{Rows};
ghost use Rattle.image_checks.specs.Totals.{AreTotals};
ghost use Rattle.image_checks.specs.Districts.{both_hold, conditions_at, line_counts_agree, next_orders_agree, spans_agree};

use crate::totals::{DistrictTotals, totals_at};
use row_tables::store::RowTables;
use tpcc_rows::key::RowKey;
use tpcc_rows::row_ref::RowRef;

/// Which of the consistency conditions on a district's orders hold (TPC-C clause 3.3.2), in one district or in all.
#[derive(Clone, Copy)]
pub(crate) struct OrderConditions {
    /// Condition 2: D_NEXT_O_ID - 1 is the maximum O_ID, and the maximum NO_O_ID if there are new orders.
    pub next_order: bool,
    /// Condition 3: the maximum NO_O_ID - the minimum NO_O_ID + 1 is the number of new orders.
    pub new_orders: bool,
    /// Condition 4: the sum of O_OL_CNT is the number of order lines.
    pub lines: bool,
}

impl OrderConditions {
    const ALL: OrderConditions = OrderConditions {
        next_order: true,
        new_orders: true,
        lines: true,
    };

    /// The conditions that hold in both.
    fn and(self, other: OrderConditions) -> OrderConditions
        ensures { result ≡ both_hold self other }
    {
        OrderConditions {
            next_order: self.next_order && other.next_order,
            new_orders: self.new_orders && other.new_orders,
            lines: self.lines && other.lines,
        }
    }
}

/// The conditions that hold in the district of a D_NEXT_O_ID row. Any other row breaks none.
fn conditions_at(totals: &DistrictTotals, key: &RowKey, row: RowRef<'_>) -> OrderConditions
    ensures { (rows : Rows) → AreTotals totals.now.districts.items rows → result ≡ conditions_at rows (key.now, row_of row.entry) }
{
    match (key, row) {
        (
            RowKey::DistrictNext {
                warehouse,
                district,
            },
            RowRef::DistrictNext(row),
        ) => {
            let totals = totals_at(totals, *warehouse, *district);
            OrderConditions {
                next_order: totals.goes_before(row.next_order),
                new_orders: totals.has_no_gap(),
                lines: totals.has_all_lines(),
            }
        }
        _ => OrderConditions::ALL,
    }
}

/// The conditions that hold in every district.
pub(crate) fn order_conditions(totals: &DistrictTotals, rows: &RowTables) -> OrderConditions
    requires { AreTotals totals.now.districts.items rows.now }
    ensures next_order { result.next_order ≡ next_orders_agree rows.now }
    ensures new_orders { result.new_orders ≡ spans_agree rows.now }
    ensures lines { result.lines ≡ line_counts_agree rows.now }
{
    let mut all = OrderConditions::ALL;
    let mut walk = rows.district_nexts();
    while let Some((key, row)) = walk.next() {
        all = all.and(conditions_at(totals, &key, row));
    }
    all
}
