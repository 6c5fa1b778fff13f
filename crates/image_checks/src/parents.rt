//! Checks that the parents of cards and rows are there.
ghost use Rattle.std.specs.Prelude.{◌≡◌, ◌&&◌, ℕ, option_copied};
ghost use Rattle.std.specs.FinMap as map;
ghost use Rattle.std.specs.List.{list_all};
ghost use Rattle.catalog.specs.declared.card.CardKey.TheVariants as card_key;
ghost use Rattle.tpcc_rows.specs.Limits.{ten};
ghost use Rattle.tpcc_rows.specs.References.{row_of};
ghost use Rattle.tpcc_rows.specs.RowMap.{Rows};
ghost use Rattle.tpcc_rows.specs.declared.key.RowKey.TheVariants as row_key;
ghost use Rattle.image_checks.specs.Checks.{card_has_parents, has_line, has_own_rows, parents_there, row_has_parents};
ghost use Rattle.image_records.specs.Databases.{has_card, has_row};
ghost use Rattle.tpcc_model.specs.Database.{database};

use catalog::Catalog;
use catalog::card::{Card, CardKey};
use row_tables::store::RowTables;
use tpcc_rows::id::{CustomerId, DistrictId, ItemId, LineNumber, OrderId, WarehouseId};
use tpcc_rows::key::RowKey;
use tpcc_rows::row::OrderRow;
use tpcc_rows::row_ref::RowRef;

fn has_card(catalog: &Catalog, key: CardKey) -> bool
    ensures { result ≡ has_card catalog.now key }
{
    catalog.get(&key).is_some()
}

fn has_district(catalog: &Catalog, warehouse: WarehouseId, district: DistrictId) -> bool
    ensures { result ≡ has_card catalog.now (card_key.District warehouse district) }
{
    let key = CardKey::District {
        warehouse,
        district,
    };
    has_card(catalog, key)
}

fn has_ten_districts(catalog: &Catalog, warehouse: WarehouseId) -> bool
    ensures { result ≡ list_all (λ d. has_card catalog.now (card_key.District warehouse d)) ten }
{
    DistrictId::all()
        .iter()
        .all(|district| has_district(catalog, warehouse, *district))
}

/// Whether a card's parents are there. `has_rows` says whether a district's two rows are.
fn card_has_parents(catalog: &Catalog, has_rows: bool, key: &CardKey, card: &Card) -> bool
    ensures { (rows : Rows) → has_rows ≡ has_own_rows rows key.now → result ≡ card_has_parents (database catalog.now rows) (key.now, card.now) }
{
    match *key {
        CardKey::Warehouse { warehouse } => has_ten_districts(catalog, warehouse),
        CardKey::District { warehouse, .. } => {
            has_card(catalog, CardKey::Warehouse { warehouse }) && has_rows
        }
        CardKey::Customer {
            warehouse,
            district,
            ..
        } => has_district(catalog, warehouse, district),
        CardKey::Stock { warehouse, item } => {
            if !has_card(catalog, CardKey::Warehouse { warehouse }) {
                return false;
            }
            has_card(catalog, CardKey::Item { item })
        }
        CardKey::Item { .. } => true,
    }
}

fn has_customer(
    catalog: &Catalog,
    warehouse: WarehouseId,
    district: DistrictId,
    customer: CustomerId,
) -> bool
    ensures { result ≡ has_card catalog.now (card_key.Customer warehouse district customer) }
{
    let key = CardKey::Customer {
        warehouse,
        district,
        customer,
    };
    has_card(catalog, key)
}

fn has_stock(catalog: &Catalog, warehouse: WarehouseId, item: ItemId) -> bool
    ensures { result ≡ has_card catalog.now (card_key.Stock warehouse item) }
{
    has_card(catalog, CardKey::Stock { warehouse, item })
}

fn has_row(rows: &RowTables, key: &RowKey) -> bool
    ensures { result ≡ has_row rows.now key.now }
{
    rows.get(key).is_some()
}

/// Whether there is an order, of at least `number` lines.
fn has_line(order: Option<&OrderRow>, number: LineNumber) -> bool
    ensures { result ≡ has_line number (option_copied order.entry) }
{
    match order {
        Some(order) => number <= order.line_count,
        None => false,
    }
}

fn has_order(rows: &RowTables, warehouse: WarehouseId, district: DistrictId, order: OrderId) -> bool
    ensures { result ≡ has_row rows.now (row_key.Order warehouse district order) }
{
    let key = RowKey::Order {
        warehouse,
        district,
        order,
    };
    has_row(rows, &key)
}

/// Whether an order's district and customer are there.
fn order_has_parents(
    catalog: &Catalog,
    warehouse: WarehouseId,
    district: DistrictId,
    row: RowRef<'_>,
) -> bool
    ensures { (rows : Rows) (o : ℕ) → result ≡ row_has_parents (database catalog.now rows) (row_key.Order warehouse district o, row_of row.entry) }
{
    match row {
        RowRef::Order(row) => {
            has_district(catalog, warehouse, district)
                && has_customer(catalog, warehouse, district, row.customer)
        }
        _ => true,
    }
}

/// Whether a payment's customer, and the district where it was paid, are there.
fn payment_has_parents(catalog: &Catalog, row: RowRef<'_>) -> bool
    ensures { (rows : Rows) (n : ℕ) → result ≡ row_has_parents (database catalog.now rows) (row_key.History n, row_of row.entry) }
{
    match row {
        RowRef::History(row) => {
            has_customer(
                catalog,
                row.customer_warehouse,
                row.customer_district,
                row.customer,
            ) && has_district(catalog, row.warehouse, row.district)
        }
        _ => true,
    }
}

/// Whether a row's parents are there, apart from a card in its own record.
fn row_has_parents(catalog: &Catalog, rows: &RowTables, key: &RowKey, row: RowRef<'_>) -> bool
    ensures { result ≡ row_has_parents (database catalog.now rows.now) (key.now, row_of row.entry) }
{
    match *key {
        RowKey::Order {
            warehouse,
            district,
            ..
        } => order_has_parents(catalog, warehouse, district, row),
        RowKey::NewOrder {
            warehouse,
            district,
            order,
        } => has_order(rows, warehouse, district, order),
        RowKey::OrderLine {
            warehouse,
            district,
            order,
            number,
        } => match row {
            RowRef::OrderLine(row) => {
                has_line(rows.order(warehouse, district, order), number)
                    && has_stock(catalog, row.supply, row.item)
            }
            _ => true,
        },
        RowKey::History { .. } => payment_has_parents(catalog, row),
        RowKey::DistrictYtd {
            warehouse,
            district,
        }
        | RowKey::DistrictNext {
            warehouse,
            district,
        } => has_district(catalog, warehouse, district),
        _ => true,
    }
}

/// Whether a district's two rows are there.
fn has_own_rows(rows: &RowTables, key: &CardKey) -> bool
    ensures { result ≡ has_own_rows rows.now key.now }
{
    match *key {
        CardKey::District {
            warehouse,
            district,
        } => {
            let ytd = RowKey::DistrictYtd {
                warehouse,
                district,
            };
            let next = RowKey::DistrictNext {
                warehouse,
                district,
            };
            has_row(rows, &ytd) && has_row(rows, &next)
        }
        _ => true,
    }
}

/// Whether the parents of all cards are there.
fn cards_have_parents(catalog: &Catalog, rows: &RowTables) -> bool
    ensures { result ≡ list_all (card_has_parents (database catalog.now rows.now)) (map.entries catalog.now) }
{
    for (key, card) in catalog.cards() {
        let has_rows = has_own_rows(rows, key);
        if !card_has_parents(catalog, has_rows, key, card) {
            return false;
        }
    }
    true
}

/// Whether the parents of all rows are there.
fn rows_have_parents(catalog: &Catalog, rows: &RowTables) -> bool
    ensures { result ≡ list_all (row_has_parents (database catalog.now rows.now)) (map.entries rows.now) }
{
    let mut walk = rows.walk();
    while let Some((key, row)) = walk.next() {
        if !row_has_parents(catalog, rows, &key, row) {
            return false;
        }
    }
    true
}

/// Whether all parents are there.
#[tactic(auto, unfolding(crate::specs::Checks::parents_there))]
pub(crate) fn parents_there(catalog: &Catalog, rows: &RowTables) -> bool
    ensures { result ≡ parents_there (database catalog.now rows.now) }
{
    cards_have_parents(catalog, rows) && rows_have_parents(catalog, rows)
}
