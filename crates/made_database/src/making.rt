//! Generates a database.
ghost use Rattle.std.specs.Prelude.{◌≡◌, ◌+◌, ◌≤◌, [], IfOk, OnOk, false};
ghost use Rattle.catalog.specs.declared.card.CardKey.TheVariants as card_key;
ghost use Rattle.tpcc_model.specs.Soundness.{IsSound};
ghost use Rattle.rollback.specs.Marks.{AreClean};
ghost use Rattle.tpcc_rows.specs.Limits.{IsBetween};
ghost use Rattle.made_database.specs.Made.{AreBefore, made, made_customer, made_district, made_item, made_stock, made_warehouse, with_each, with_records};
ghost use Rattle.image_records.specs.Databases.{loaded};
ghost use Rattle.loader.specs.Gathered.{gathered_database};
ghost use Rattle.loader.specs.Tables.{is_taken, no_tables, with_record};

use crate::made_records::{made_customer, made_district, made_item, made_stock, made_warehouse};
use catalog::Catalog;
use catalog::builder::CatalogError;
use image_records::image_record::ImageRecord;
use loader::GatheredTables;
use row_store::PointedStore;
use std::alloc::Global;
use tpcc_rows::id::{CustomerId, DistrictId, ItemId, WarehouseId};
use tpcc_rows::memory::Memory;

/// Adds a record, whose key is new.
fn add(tables: &mut GatheredTables, said: ImageRecord) -> Result<(), Memory>
    requires { is_taken (gathered_database tables.old) said ≡ false }
    ensures { OnOk result (gathered_database tables.new ≡ with_record (gathered_database tables.old) said) }
{
    match tables.add(said) {
        Ok(()) => Ok(()),
        Err(CatalogError::Memory) => Err(Memory),
        Err(CatalogError::Twice) => unreachable!(),
    }
}

/// Adds warehouses 1 to `count`.
fn add_warehouses(tables: &mut GatheredTables, count: u8) -> Result<(), Memory>
    requires count { count ≤ 100 }
    requires before { AreBefore (card_key.Warehouse 1) (gathered_database tables.old) }
    ensures ok { OnOk result (gathered_database tables.new ≡ with_records count made_warehouse (gathered_database tables.old)) }
    ensures before { OnOk result (AreBefore (card_key.Warehouse (count + 1)) (gathered_database tables.new)) }
{
    for w in 1..count + 1 {
        let warehouse = WarehouseId::new(w).unwrap();
        add(tables, made_warehouse(warehouse))?;
    }
    Ok(())
}

/// Adds the ten districts of a warehouse.
fn add_districts_of(tables: &mut GatheredTables, warehouse: WarehouseId) -> Result<(), Memory>
    requires { AreBefore (card_key.District warehouse 1) (gathered_database tables.old) }
    ensures ok { OnOk result
        (gathered_database tables.new ≡ with_records 10 (made_district warehouse) (gathered_database tables.old)) }
    ensures before { OnOk result (AreBefore (card_key.District warehouse 11) (gathered_database tables.new)) }
{
    for d in 1..11 {
        let district = DistrictId::new(d).unwrap();
        add(tables, made_district(warehouse, district))?;
    }
    Ok(())
}

/// Adds the districts of warehouses 1 to `warehouses`.
fn add_districts(tables: &mut GatheredTables, warehouses: u8) -> Result<(), Memory>
    requires count { warehouses ≤ 100 }
    requires before { AreBefore (card_key.District 1 1) (gathered_database tables.old) }
    ensures ok { OnOk result
        (gathered_database tables.new ≡ with_each warehouses (λ w. with_records 10 (made_district w)) (gathered_database tables.old)) }
    ensures before { OnOk result (AreBefore (card_key.District (warehouses + 1) 1) (gathered_database tables.new)) }
{
    for w in 1..warehouses + 1 {
        let warehouse = WarehouseId::new(w).unwrap();
        add_districts_of(tables, warehouse)?;
    }
    Ok(())
}

/// Adds customers 1 to `count` of a district.
fn add_customers_of(
    alloc: Global,
    tables: &mut GatheredTables,
    warehouse: WarehouseId,
    district: DistrictId,
    count: u16,
) -> Result<(), Memory>
    requires count { count ≤ 3000 }
    requires before { AreBefore (card_key.Customer warehouse district 1) (gathered_database tables.old) }
    ensures ok { OnOk result
        (gathered_database tables.new ≡ with_records count (made_customer warehouse district) (gathered_database tables.old)) }
    ensures before { OnOk result
        (AreBefore (card_key.Customer warehouse district (count + 1)) (gathered_database tables.new)) }
{
    for c in 1..count + 1 {
        let customer = CustomerId::new(c).unwrap();
        let said = made_customer(alloc, warehouse, district, customer)?;
        add(tables, said)?;
    }
    Ok(())
}

/// Adds customers 1 to `count` of each district of a warehouse.
fn add_customers_in(
    alloc: Global,
    tables: &mut GatheredTables,
    warehouse: WarehouseId,
    count: u16,
) -> Result<(), Memory>
    requires count { count ≤ 3000 }
    requires before { AreBefore (card_key.Customer warehouse 1 1) (gathered_database tables.old) }
    ensures ok { OnOk result (gathered_database tables.new
        ≡ with_each 10 (λ d. with_records count (made_customer warehouse d)) (gathered_database tables.old)) }
    ensures before { OnOk result (AreBefore (card_key.Customer warehouse 11 1) (gathered_database tables.new)) }
{
    for d in 1..11 {
        let district = DistrictId::new(d).unwrap();
        add_customers_of(alloc, tables, warehouse, district, count)?;
    }
    Ok(())
}

/// Adds customers 1 to `count` of each district of warehouses 1 to `warehouses`.
fn add_customers(
    alloc: Global,
    tables: &mut GatheredTables,
    warehouses: u8,
    count: u16,
) -> Result<(), Memory>
    requires warehouses { warehouses ≤ 100 }
    requires count { count ≤ 3000 }
    requires before { AreBefore (card_key.Customer 1 1 1) (gathered_database tables.old) }
    ensures ok { OnOk result (gathered_database tables.new
        ≡ with_each warehouses (λ w. with_each 10 (λ d. with_records count (made_customer w d))) (gathered_database tables.old)) }
    ensures before { OnOk result (AreBefore (card_key.Customer (warehouses + 1) 1 1) (gathered_database tables.new)) }
{
    for w in 1..warehouses + 1 {
        let warehouse = WarehouseId::new(w).unwrap();
        add_customers_in(alloc, tables, warehouse, count)?;
    }
    Ok(())
}

/// Adds the stocks of items 1 to `count` of a warehouse.
fn add_stocks_of(
    alloc: Global,
    tables: &mut GatheredTables,
    warehouse: WarehouseId,
    count: u32,
) -> Result<(), Memory>
    requires count { count ≤ 100000 }
    requires before { AreBefore (card_key.Stock warehouse 1) (gathered_database tables.old) }
    ensures ok { OnOk result
        (gathered_database tables.new ≡ with_records count (made_stock warehouse) (gathered_database tables.old)) }
    ensures before { OnOk result (AreBefore (card_key.Stock warehouse (count + 1)) (gathered_database tables.new)) }
{
    for i in 1..count + 1 {
        let item = ItemId::new(i).unwrap();
        let stock = made_stock(alloc, warehouse, item)?;
        add(tables, stock)?;
    }
    Ok(())
}

/// Adds the stocks of items 1 to `count` of warehouses 1 to `warehouses`.
fn add_stocks(
    alloc: Global,
    tables: &mut GatheredTables,
    warehouses: u8,
    count: u32,
) -> Result<(), Memory>
    requires warehouses { warehouses ≤ 100 }
    requires count { count ≤ 100000 }
    requires before { AreBefore (card_key.Stock 1 1) (gathered_database tables.old) }
    ensures ok { OnOk result (gathered_database tables.new
        ≡ with_each warehouses (λ w. with_records count (made_stock w)) (gathered_database tables.old)) }
    ensures before { OnOk result (AreBefore (card_key.Stock (warehouses + 1) 1) (gathered_database tables.new)) }
{
    for w in 1..warehouses + 1 {
        let warehouse = WarehouseId::new(w).unwrap();
        add_stocks_of(alloc, tables, warehouse, count)?;
    }
    Ok(())
}

/// Adds items 1 to `count`.
fn add_items(tables: &mut GatheredTables, count: u32) -> Result<(), Memory>
    requires count { count ≤ 100000 }
    requires before { AreBefore (card_key.Item 1) (gathered_database tables.old) }
    ensures { OnOk result (gathered_database tables.new ≡ with_records count made_item (gathered_database tables.old)) }
{
    for i in 1..count + 1 {
        let item = ItemId::new(i).unwrap();
        add(tables, made_item(item))?;
    }
    Ok(())
}

/// Fills the tables.
#[tactic(auto, unfolding(crate::specs::Made::made))]
fn fill(
    alloc: Global,
    tables: &mut GatheredTables,
    warehouses: u8,
    customers: u16,
    items: u32,
) -> Result<(), Memory>
    requires warehouses { IsBetween 1 100 warehouses }
    requires customers { IsBetween 1 3000 customers }
    requires items { IsBetween 1 100000 items }
    requires none { gathered_database tables.old ≡ no_tables }
    ensures { OnOk result (gathered_database tables.new ≡ made warehouses customers items) }
{
    add_warehouses(tables, warehouses)?;
    add_districts(tables, warehouses)?;
    add_customers(alloc, tables, warehouses, customers)?;
    add_stocks(alloc, tables, warehouses, items)?;
    add_items(tables, items)
}

/// A database with the given numbers of warehouses, of customers in each of a warehouse's ten districts, and of items,
/// each in stock in each warehouse; no orders, no history.
pub fn make(
    alloc: Global,
    warehouses: u8,
    customers: u16,
    items: u32,
) -> Result<(Catalog, PointedStore), Memory>
    requires warehouses { IsBetween 1 100 warehouses }
    requires customers { IsBetween 1 3000 customers }
    requires items { IsBetween 1 100000 items }
    ensures value { IfOk result (λ db. loaded db ≡ made warehouses customers items) }
    ensures points { IfOk result (λ db. db.1.points ≡ []) }
    ensures clean { IfOk result (λ db. AreClean db.1.dirty) }
    ensures sound { IfOk result (λ db. IsSound (loaded db)) }
{
    let mut tables = GatheredTables::new(alloc)?;
    fill(alloc, &mut tables, warehouses, customers, items)?;
    let (catalog, rows) = tables.finish()?;
    Ok((catalog, rows.into_store(alloc)?))
}
