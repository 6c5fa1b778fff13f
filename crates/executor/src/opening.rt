//! What an executor starts with: the number of the first request, and the catalog's digest, computed beside other work.
ghost use Rattle.std.specs.Prelude.{◌≡◌, ◌≤◌, filter_map, unwrap_or};
ghost use Rattle.catalog.specs.CardBytes.{catalog_digest};
ghost use Rattle.row_store.specs.Slots.{filled, slots};
ghost use Rattle.tpcc_model.specs.Serial.{history_pick, next_number};
ghost use Rattle.tpcc_rows.specs.Limits.{IsBetween};
ghost use Rattle.tpcc_rows.specs.Picks.{greatest};

use crate::next_batch::LAST_NUMBER;
use catalog::Catalog;
use row_store::{LeafPage, PointedStore};
use std::num::NonZeroUsize;
use std::thread::{self, Threads, join};
use tpcc_rows::codes::LEAVES;
use tpcc_rows::id::END_OF_NUMBERS;
use tpcc_rows::key::RowKey;

/// The greatest HISTORY number on a leaf, or 0.
fn last_on_page(page: LeafPage<'_>) -> u64
    ensures value { result ≡ unwrap_or (greatest (filter_map (λ e. history_pick e.0 e.1) (filled (slots page.entry)))) 0 }
    ensures range { result ≤ LAST_NUMBER }
{
    let mut last = 0u64;
    for slot in 0..page.len() {
        let Some((key, _)) = page.at(slot) else {
            continue;
        };
        if let RowKey::History { number } = &key {
            last = last.max(number.number());
        }
    }
    last
}

/// One more than the greatest HISTORY number, or 1.
#[tactic(auto, unfolding(tpcc_model::specs::Serial::next_number))]
pub(crate) fn next_number(store: &PointedStore) -> u64
    ensures value { result ≡ next_number store.now.rows }
    ensures range { IsBetween 1 END_OF_NUMBERS result }
{
    let mut last = 0u64;
    for leaf in 0..LEAVES {
        last = last.max(last_on_page(store.page(leaf)));
    }
    last + 1
}

/// Minimum number of cards for which hashing the catalog on a thread of its own pays.
const FEWEST_CARDS: usize = 8_192;

/// Whether hashing the catalog on a thread of its own pays.
fn pays<R: Threads + Sync>(rt: &R, catalog: &Catalog) -> bool {
    catalog.len() >= FEWEST_CARDS
        && thread::available_parallelism(rt).map_or(1, NonZeroUsize::get) > 1
}

/// The catalog's digest, and then the result of `other`.
#[inline(never)]
fn behind_digest<F: FnOnce() -> T, T>(catalog: &Catalog, other: F) -> ([u8; 32], T)
    requires { F.pre other }
    ensures digest { result.0 ≡ catalog_digest catalog.now }
    ensures other { F.post other result.1 }
{
    (catalog.digest(), other())
}

/// The catalog's digest and the result of `other`: concurrently if there are many cards, several processors, and memory for
/// a thread. Never inlined, since the result may be large.
#[inline(never)]
pub fn beside_digest<R: Threads + Sync, F: FnOnce() -> T, T>(
    rt: &R,
    catalog: &Catalog,
    other: F,
) -> ([u8; 32], T)
    requires { F.pre other }
    ensures digest { result.0 ≡ catalog_digest catalog.now }
    ensures other { F.post other result.1 }
{
    if !pays(rt, catalog) {
        return behind_digest(catalog, other);
    }
    let digest = || -> [u8; 32]
        ensures { result ≡ catalog_digest catalog.entry.now }
    { catalog.digest() };
    join(rt, digest, other)
}
