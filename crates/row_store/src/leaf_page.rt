//! The rows of a leaf.
ghost use Rattle.std.specs.Prelude.{◌≡◌, ◌<◌, ◌≤◌, None, get_or, length, option_map};
ghost use Rattle.row_store.specs.Slots.{lent, slots};

use pointed_tables::roomy::RoomyTables;
use tables::keys::key_at;
use tpcc_rows::key::RowKey;
use tpcc_rows::row_ref::RowRef;
use tpcc_rows::text::Text;

/// The size of a customer's row when it is encoded, in bytes, without its text.
const CUSTOMER_BYTES: usize = 36;

/// That of a stock.
const STOCK_BYTES: usize = 26;

/// That of an order.
const ORDER_BYTES: usize = 23;

/// That of an order line, without its text.
const LINE_BYTES: usize = 30;

/// That of a payment, without its text.
const HISTORY_BYTES: usize = 29;

/// About that of a row of another kind.
const SMALL_BYTES: usize = 16;

/// The size of the text of an order line or a payment, if it is full.
const TEXT_BYTES: usize = 24;

/// About that of a shorter one.
const SHORT_TEXT_BYTES: usize = 12;

/// The rows that are found before the first of them is read, so that a processor waits for all of them at once.
const AT_ONCE: usize = 16;

/// About the size of a text of an order line or a payment. Reads its last byte alone.
fn size_of_text(text: &Text<TEXT_BYTES>) -> usize {
    if text.is_full() {
        TEXT_BYTES
    } else {
        SHORT_TEXT_BYTES
    }
}

/// About the size of a row when it is encoded, in bytes. Reads its first and its last bytes, so all of it.
fn size_of_row(row: RowRef<'_>) -> usize {
    match row {
        RowRef::Customer(row) => CUSTOMER_BYTES.wrapping_add(row.data.as_bytes().len()),
        RowRef::Stock(row) => STOCK_BYTES.wrapping_add(row.ytd.value() as usize % 2),
        RowRef::Order(row) => ORDER_BYTES.wrapping_add(row.customer.number() as usize % 2),
        RowRef::OrderLine(row) => {
            let text = size_of_text(&row.district_info);
            let first = row.item.number() as usize % 2;
            LINE_BYTES.wrapping_add(text).wrapping_add(first)
        }
        RowRef::History(row) => {
            let text = size_of_text(&row.data);
            let first = row.customer.number() as usize % 2;
            HISTORY_BYTES.wrapping_add(text).wrapping_add(first)
        }
        _ => SMALL_BYTES,
    }
}

/// About the size of a rank's row, by its kind.
fn rough_size_of(tables: &RoomyTables, rank: u64) -> usize {
    match rank / 0x0100_0000_0000_0000 {
        3 => match tables.expected(rank) {
            Some(row) => size_of_row(row),
            None => 0,
        },
        4 => STOCK_BYTES,
        5 => ORDER_BYTES,
        7 => LINE_BYTES + TEXT_BYTES,
        8 => HISTORY_BYTES + TEXT_BYTES,
        _ => SMALL_BYTES,
    }
}

/// About the size of the rows of some ranks.
fn size_of_rows(tables: &RoomyTables, ranks: &[(u64, ())]) -> usize
    requires { length ranks.now ≤ AT_ONCE }
{
    let mut rows = [None; AT_ONCE];
    for slot in 0..ranks.len() {
        rows[slot] = tables.expected(ranks[slot].0);
    }
    let mut bytes = 0usize;
    for row in &rows[..ranks.len()] {
        if let Some(row) = row {
            bytes = bytes.wrapping_add(size_of_row(*row));
        }
    }
    bytes
}

/// The rows of a leaf in key order, a slot for each. The slot of a row that was removed is empty.
#[derive(Clone, Copy)]
pub struct LeafPage<'a> {
    pub(crate) tables: &'a RoomyTables,
    pub(crate) ranks: &'a [(u64, ())],
}

impl<'a> LeafPage<'a> {
    /// The number of slots.
    pub fn len(self) -> usize
        ensures { result ≡ length (slots self.entry) }
    {
        self.ranks.len()
    }

    /// A number of no meaning. Computing it reads where the first slot is, so that later reads needn't wait for memory.
    pub fn prefetch(self) -> usize {
        match self.ranks.first() {
            Some((rank, _)) => (*rank % 2) as usize,
            None => 0,
        }
    }

    /// About the size of the rows when they are encoded, in bytes, by their kinds: an estimate, on which nothing relies. Of the rows
    /// only customers are read, whose texts vary most.
    pub fn rough_size(self) -> usize {
        let mut bytes = 0usize;
        for slot in 0..self.ranks.len() {
            bytes = bytes.wrapping_add(rough_size_of(self.tables, self.ranks[slot].0));
        }
        bytes
    }

    /// The same more closely. Computing it reads the rows side by side, so that encoding them needn't wait for memory.
    pub fn estimate(self) -> usize {
        let mut bytes = 0usize;
        for part in 0..self.ranks.len().div_ceil(AT_ONCE) {
            let start = AT_ONCE * part;
            let end = (start + AT_ONCE).min(self.ranks.len());
            bytes = bytes.saturating_add(size_of_rows(self.tables, &self.ranks[start..end]));
        }
        bytes
    }

    /// The key and row of a slot, if it is filled.
    pub fn at(self, slot: usize) -> Option<(RowKey, RowRef<'a>)>
        requires { slot < length (slots self) }
        ensures { option_map lent result ≡ get_or (slots self.entry) slot None }
    {
        let (rank, _) = self.ranks[slot];
        let key = key_at(rank)?;
        let row = self.tables.get(&key)?;
        Some((key, row))
    }
}
