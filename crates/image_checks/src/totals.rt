//! Totals of each district's orders, new orders and order lines, accumulated row by row.
ghost use Rattle.std.specs.Prelude.{◌≡◌, ◌<◌, ◌+◌, ◌*◌, ◌^◌, ◌+ℤ◌, max, min, pos, ℕ, length, replicate, IfNone, IfOk, IfSome, Some};
ghost use Rattle.std.specs.Ordering.{int_eq};
ghost use Rattle.records.specs.Fields.{IsWithin};
ghost use Rattle.tpcc_rows.specs.References.{row_of};
ghost use Rattle.tpcc_rows.specs.RowMap.{Rows};
ghost use Rattle.image_checks.specs.Totals.{AreOfRows, AreTotals, AreTotalsOf, IsAdded, IsOfRows, both, district_totals, empty_totals, one_of, row_totals};
ghost use Rattle.image_checks.specs.Districts.{are_without_gap, follows_on};
ghost use Rattle.image_checks.specs.declared.totals.TheConstants.{INDEXES};

use row_tables::store::RowTables;
use std::alloc::Global;
use tpcc_rows::id::{DistrictId, LineNumber, OrderId, WarehouseId};
use tpcc_rows::key::RowKey;
use tpcc_rows::memory::Memory;
use tpcc_rows::row_ref::RowRef;

/// Totals of a district's orders, new orders and order lines.
#[derive(Clone, Copy)]
pub(crate) struct Totals {
    /// Maximum O_ID.
    last_order: Option<OrderId>,
    /// Minimum NO_O_ID.
    first_new_order: Option<OrderId>,
    /// Maximum NO_O_ID.
    last_new_order: Option<OrderId>,
    new_orders: i128,
    /// Sum of O_OL_CNT.
    promised_lines: i128,
    lines: i128,
}

/// Number of district indexes.
pub const INDEXES: usize = 1_011;

/// The totals of each district, at its index.
#[derive(Drop)]
pub(crate) struct DistrictTotals {
    districts: Vec<Totals>,
    ghost whole: { length districts.items ≡ INDEXES },
}

impl DistrictTotals {
    /// Totals over no rows, for each district.
    pub(crate) fn new(alloc: Global) -> Result<DistrictTotals, Memory>
        ensures { IfOk result (λ totals. totals.districts.items ≡ replicate INDEXES empty_totals) }
    {
        let districts = vec![in alloc; Totals::EMPTY; INDEXES]?;
        Ok(DistrictTotals { districts })
    }
}

/// The index of a district.
fn index(warehouse: WarehouseId, district: DistrictId) -> usize
    ensures value { result ≡ warehouse * 10 + district }
    ensures range { result < INDEXES }
{
    usize::from(warehouse.number()) * 10 + usize::from(district.number())
}

/// The later of two orders, or the only one.
fn later(one: Option<OrderId>, other: Option<OrderId>) -> Option<OrderId>
    ensures { result ≡ one_of max one other }
{
    match (one, other) {
        (Some(first), Some(second)) if first.number() < second.number() => other,
        (None, _) => other,
        _ => one,
    }
}

/// The earlier of two orders, or the only one.
fn earlier(one: Option<OrderId>, other: Option<OrderId>) -> Option<OrderId>
    ensures { result ≡ one_of min one other }
{
    match (one, other) {
        (Some(first), Some(second)) if second.number() < first.number() => other,
        (None, _) => other,
        _ => one,
    }
}

fn plus(one: i128, other: i128) -> i128
    requires one { IsWithin (2 ^ 63 * 15) one }
    requires other { IsWithin (2 ^ 63 * 15) other }
    ensures { result ≡ one +ℤ other }
{
    one + other
}

impl Totals {
    const EMPTY: Totals = Totals {
        last_order: None,
        first_new_order: None,
        last_new_order: None,
        new_orders: 0,
        promised_lines: 0,
        lines: 0,
    };

    /// The totals of one order, of `lines` lines.
    fn of_order(order: OrderId, lines: LineNumber) -> Totals
        ensures value { result ≡ record empty_totals { last_order = Some order; promised_lines = pos lines } }
        ensures small { IsOfRows 1 result }
    {
        Totals {
            last_order: Some(order),
            promised_lines: i128::from(lines.number()),
            ..Totals::EMPTY
        }
    }

    /// The totals of one new order.
    fn of_new_order(order: OrderId) -> Totals
        ensures { result ≡ record empty_totals { first_new_order = Some order; last_new_order = Some order; new_orders = pos 1 } }
    {
        Totals {
            first_new_order: Some(order),
            last_new_order: Some(order),
            new_orders: 1,
            ..Totals::EMPTY
        }
    }

    /// The totals of one order line.
    fn of_line() -> Totals
        ensures { result ≡ record empty_totals { lines = pos 1 } }
    {
        Totals {
            lines: 1,
            ..Totals::EMPTY
        }
    }

    /// The sum of two totals.
    fn and(self, other: Totals) -> Totals
        requires one { IsOfRows (2 ^ 63) self }
        requires other { IsOfRows (2 ^ 63) other }
        ensures { result ≡ both self other }
    {
        Totals {
            last_order: later(self.last_order, other.last_order),
            first_new_order: earlier(self.first_new_order, other.first_new_order),
            last_new_order: later(self.last_new_order, other.last_new_order),
            new_orders: plus(self.new_orders, other.new_orders),
            promised_lines: plus(self.promised_lines, other.promised_lines),
            lines: plus(self.lines, other.lines),
        }
    }

    /// Whether `next` is one more than the last order (or 1 without one), and than the last new order, if there is one.
    pub(crate) fn goes_before(&self, next: OrderId) -> bool
        ensures { result ≡ follows_on next self.now.last_order self.now.last_new_order }
    {
        let last = next.number() - 1;
        if self.last_order.map_or(0, |order| order.number()) != last {
            return false;
        }
        self.last_new_order
            .is_none_or(|order| order.number() == last)
    }

    /// Whether there are as many new orders as their numbers span.
    pub(crate) fn has_no_gap(&self) -> bool
        ensures { result ≡ are_without_gap self.now.first_new_order self.now.last_new_order self.now.new_orders }
    {
        match (self.first_new_order, self.last_new_order) {
            (Some(first), Some(last)) => {
                let span = last.number().saturating_sub(first.number()) + 1;
                self.new_orders == i128::from(span)
            }
            _ => true,
        }
    }

    /// Whether there are as many order lines as the orders' O_OL_CNT say.
    pub(crate) fn has_all_lines(&self) -> bool
        ensures { result ≡ int_eq self.now.promised_lines self.now.lines }
    {
        self.promised_lines == self.lines
    }
}

/// The district of an order, a new order or an order line, and the totals of that row.
fn row_totals(key: &RowKey, row: RowRef<'_>) -> Option<(WarehouseId, DistrictId, Totals)>
    ensures none { IfNone result ((w d : ℕ) → row_totals w d (key.now, row_of row.entry) ≡ empty_totals) }
    ensures some { IfSome result (AreTotalsOf (key.now, row_of row.entry)) }
    ensures small { IfSome result (λ found. IsOfRows 1 found.2) }
{
    match (key, row) {
        (
            RowKey::Order {
                warehouse,
                district,
                order,
            },
            RowRef::Order(row),
        ) => {
            let totals = Totals::of_order(*order, row.line_count);
            Some((*warehouse, *district, totals))
        }
        (
            RowKey::NewOrder {
                warehouse,
                district,
                order,
            },
            RowRef::NewOrder,
        ) => { Some((*warehouse, *district, Totals::of_new_order(*order))) }
        (
            RowKey::OrderLine {
                warehouse,
                district,
                ..
            },
            RowRef::OrderLine(_),
        ) => { Some((*warehouse, *district, Totals::of_line())) }
        _ => None,
    }
}

/// Adds a row to the totals of its district.
fn add_row(totals: &mut DistrictTotals, key: &RowKey, row: RowRef<'_>)
    requires { AreOfRows (2 ^ 63) totals.old.districts.items }
    ensures totals { IsAdded totals.old.districts.items (key.now, row_of row.entry) totals.new.districts.items }
    ensures small { (w d : ℕ) → IsOfRows 1 (row_totals w d (key.now, row_of row.entry)) }
{
    if let Some((warehouse, district, more)) = row_totals(key, row) {
        let i = index(warehouse, district);
        totals.districts[i] = totals.districts[i].and(more);
    }
}

/// The totals of all districts.
pub(crate) fn totals_of(alloc: Global, rows: &RowTables) -> Result<DistrictTotals, Memory>
    ensures { IfOk result (λ totals. AreTotals totals.districts.items rows.now) }
{
    let mut totals = DistrictTotals::new(alloc)?;
    let mut walk = rows.walk();
    while let Some((key, row)) = walk.next() {
        add_row(&mut totals, &key, row);
    }
    Ok(totals)
}

/// The totals of a district.
pub(crate) fn totals_at(
    totals: &DistrictTotals,
    warehouse: WarehouseId,
    district: DistrictId,
) -> Totals
    ensures { (rows : Rows) → AreTotals totals.now.districts.items rows → result ≡ district_totals warehouse district rows }
{
    totals.districts[index(warehouse, district)]
}
