//! Writes a database as an image.
ghost use Rattle.std.specs.Prelude.{◌≡◌, ◌++◌, filter_map, length, map, IfOk, OnErr, OnOk};
ghost use Rattle.std.specs.FinMap as finmap;
ghost use Rattle.records.specs.Spelling.{text_of_records};
ghost use Rattle.records.specs.Writer.{IsWriting, written};
ghost use Rattle.stored_image.specs.StoredImage.{image_said, image_text, part_said, said_at, stands_in};
ghost use Rattle.stored_image.specs.StoredRecords.{written_record};
ghost use Rattle.image_records.specs.Databases.{loaded};

use crate::row_keys::keys_in_order;
use crate::stored_record::{RowPart, card_record, end_record, first_record, record_at};
use catalog::Catalog;
use catalog::card::CardKey;
use csv::{ByteRecord, Writer};
use records::record_writer::{record_writer, write_record, written_text};
use row_store::PointedStore;
use std::alloc::Global;
use std::collections::BTreeSet;
use tpcc_rows::key::RowKey;
use tpcc_rows::memory::Memory;

/// Groups of cards as they follow each other in an image: unlike in key order, the districts' rows come before the
/// customers, and the items before the stocks.
#[derive(Clone, Copy)]
pub enum CardPart {
    WarehousesAndDistricts,
    Customers,
    Items,
    Stocks,
}

fn stands_in(part: CardPart, key: &CardKey) -> bool
    ensures { result ≡ stands_in part key.now }
{
    match part {
        CardPart::WarehousesAndDistricts => {
            matches!(key, CardKey::Warehouse { .. } | CardKey::District { .. })
        }
        CardPart::Customers => matches!(key, CardKey::Customer { .. }),
        CardPart::Items => matches!(key, CardKey::Item { .. }),
        CardPart::Stocks => matches!(key, CardKey::Stock { .. }),
    }
}

/// Writes the records of a part's cards, with their rows, and counts them. `fields` is a buffer for each record.
fn write_cards(
    writer: &mut Writer<Vec<u8>>,
    fields: &mut ByteRecord,
    catalog: &Catalog,
    rows: &PointedStore,
    part: CardPart,
) -> Result<u64, Memory>
    requires { IsWriting writer.old }
    ensures writing { OnOk result (IsWriting writer.new) }
    ensures text { OnOk result (written writer.new ≡ written writer.old
        ++ text_of_records (map written_record (part_said part rows.now.rows (finmap.entries catalog.now)))) }
    ensures count { IfOk result (λ n. n ≡ length (part_said part rows.now.rows (finmap.entries catalog.now))) }
{
    let mut count = 0;
    let _cards = catalog.len();
    for (key, card) in catalog.cards() {
        if stands_in(part, key) && card_record(fields, rows, card)? {
            write_record(writer, fields)?;
            count += 1;
        }
    }
    Ok(count)
}

/// Writes the records of a part's rows, and counts them.
fn write_rows(
    writer: &mut Writer<Vec<u8>>,
    fields: &mut ByteRecord,
    rows: &PointedStore,
    part: RowPart,
    keys: &BTreeSet<RowKey>,
) -> Result<u64, Memory>
    requires { IsWriting writer.old }
    ensures writing { OnOk result (IsWriting writer.new) }
    ensures text { OnOk result (written writer.new ≡ written writer.old
        ++ text_of_records (map written_record (filter_map (said_at part rows.now.rows) keys.now.keys))) }
    ensures count { IfOk result (λ n. n ≡ length (filter_map (said_at part rows.now.rows) keys.now.keys)) }
{
    let mut count = 0;
    let _keys = keys.len();
    for key in keys {
        if record_at(fields, rows, part, key)? {
            write_record(writer, fields)?;
            count += 1;
        }
    }
    Ok(count)
}

/// Writes the records of a database, and counts them.
#[tactic(auto, unfolding(crate::specs::StoredImage::image_said))]
fn write_tables(
    alloc: Global,
    writer: &mut Writer<Vec<u8>>,
    fields: &mut ByteRecord,
    catalog: &Catalog,
    rows: &PointedStore,
) -> Result<u64, Memory>
    requires { IsWriting writer.old }
    ensures writing { OnOk result (IsWriting writer.new) }
    ensures text { OnOk result (written writer.new ≡ written writer.old
        ++ text_of_records (map written_record (image_said (loaded (catalog.now, rows.now))))) }
    ensures count { IfOk result (λ n. n ≡ length (image_said (loaded (catalog.now, rows.now)))) }
{
    let keys = keys_in_order(alloc, rows)?;
    let _cards = catalog.len();
    let first = write_cards(
        writer,
        fields,
        catalog,
        rows,
        CardPart::WarehousesAndDistricts,
    )?;
    let districts = write_rows(writer, fields, rows, RowPart::Districts, &keys)?;
    let customers = write_cards(writer, fields, catalog, rows, CardPart::Customers)?;
    let items = write_cards(writer, fields, catalog, rows, CardPart::Items)?;
    let stocks = write_cards(writer, fields, catalog, rows, CardPart::Stocks)?;
    let others = write_rows(writer, fields, rows, RowPart::Others, &keys)?;
    Ok(first + customers + items + stocks + (districts + others))
}

/// The image of a database.
fn whole_text(alloc: Global, catalog: &Catalog, rows: &PointedStore) -> Result<Vec<u8>, Memory>
    ensures { IfOk result (λ text. text.items ≡ image_text (loaded (catalog.now, rows.now))) }
{
    let mut writer = record_writer(alloc);
    let mut fields = ByteRecord::new(alloc);
    first_record(&mut fields)?;
    write_record(&mut writer, &fields)?;
    let count = write_tables(alloc, &mut writer, &mut fields, catalog, rows)?;
    end_record(&mut fields, count)?;
    write_record(&mut writer, &fields)?;
    written_text(writer)
}

/// Appends the image of a database, in version 2: the first record; then the warehouses, the districts, their D_YTD, their
/// D_NEXT_O_ID, the customers, the items, the stocks, the orders, the new orders, the order lines and the history, each in
/// key order; and the end record. A warehouse's, a customer's or a stock's card without its row is left out. If an
/// allocation fails, nothing is appended.
pub fn store_image(
    alloc: Global,
    catalog: &Catalog,
    rows: &PointedStore,
    out: &mut Vec<u8>,
) -> Result<(), Memory>
    ensures ok { OnOk result (out.new.items ≡ out.old.items ++ image_text (loaded (catalog.now, rows.now))) }
    ensures err { OnErr result (out.new.items ≡ out.old.items) }
{
    let text = whole_text(alloc, catalog, rows)?;
    out.extend_from_slice(text.as_slice())?;
    Ok(())
}
