//! Hashes of leaves and of nodes, and their texts.
ghost use Rattle.std.specs.Prelude.{◌≡◌, ◌≤◌, ◌+◌, ◌++◌, ◌∷◌, [], ℕ, List, length};
ghost use Rattle.std.specs.Bool.{OnFalse, OnTrue};
ghost use Rattle.sha2.specs.Sha256.{sha256};
ghost use Rattle.merkle.specs.Hashing.{IsFed, page_text};
ghost use Rattle.tpcc_model.specs.Roots.{joined};
ghost use Rattle.tpcc_rows.specs.Encodings.{row_bytes};
ghost use Rattle.tpcc_rows.specs.References.{row_of};

use hashers::{LONG_BYTES, SHORT_BYTES};
use row_store::LeafPage;
use sha2::{Digest, Sha256};
use tpcc_rows::encoding::append_row;
use tpcc_rows::key::RowKey;
use tpcc_rows::row_buf::ByteBuf;
use tpcc_rows::row_ref::RowRef;

/// First byte of a leaf's text.
const LEAF: u8 = 0;

/// First byte of a node's text.
const NODE: u8 = 1;

/// Maximum size of a row, in bytes.
const ROW_BYTES: usize = 536;

/// Size of the buffer before a hasher, in bytes.
const WAITING_BYTES: usize = 4096;

/// Maximum size of a leaf's text that is hashed beside others, in bytes.
pub(crate) const LEAF_BYTES: usize = LONG_BYTES;

/// Size of a node's text, in bytes.
pub(crate) const NODE_BYTES: usize = SHORT_BYTES;

/// A buffered hasher: fed row by row, it takes half as long again.
#[derive(Drop)]
struct Gathered {
    hasher: Sha256,
    waiting: ByteBuf<WAITING_BYTES>,
}

impl Gathered {
    /// A hasher at the start of a leaf's text.
    fn of_leaf() -> Gathered
        ensures { IsFed result (0 ∷ []) }
    {
        let mut waiting = ByteBuf::new();
        waiting.push_8(LEAF);
        Gathered {
            hasher: Sha256::new(),
            waiting,
        }
    }

    /// Empties the buffer into the hasher if fewer than `bytes` bytes are free.
    fn make_room(&mut self, bytes: usize)
        ensures fed { (m : List ℕ) → IsFed self.old m → IsFed self.new m }
        ensures room { bytes ≤ WAITING_BYTES → length self.new.waiting + bytes ≤ WAITING_BYTES }
    {
        if self.waiting.room() < bytes {
            self.hasher.update(self.waiting.as_slice());
            self.waiting.clear();
        }
    }

    fn push_row(&mut self, key: &RowKey, row: RowRef<'_>)
        ensures { (m : List ℕ) → IsFed self.old m → IsFed self.new (m ++ row_bytes key.now (row_of row.entry)) }
    {
        self.make_room(ROW_BYTES);
        append_row(key, row, &mut self.waiting);
    }

    fn finish(self) -> [u8; 32]
        ensures { (m : List ℕ) → IsFed self m → result ≡ sha256 m }
    {
        let Gathered {
            mut hasher,
            waiting,
        } = self;
        hasher.update(waiting.as_slice());
        hasher.finalize()
    }
}

/// The hash of a leaf: of its rows in key order. They are best prefetched before.
pub fn hash_leaf(page: LeafPage<'_>) -> [u8; 32]
    ensures { result ≡ sha256 (page_text page.entry) }
{
    let mut gathered = Gathered::of_leaf();
    for slot in 0..page.len() {
        if let Some((key, row)) = page.at(slot) {
            gathered.push_row(&key, row);
        }
    }
    gathered.finish()
}

/// The hash of a leaf without rows.
pub(crate) fn hash_no_rows() -> [u8; 32]
    ensures { result ≡ sha256 (0 ∷ []) }
{
    let mut hasher = Sha256::new();
    hasher.update([LEAF].as_slice());
    hasher.finalize()
}

/// Writes the text of a leaf, and returns true; or leaves the buffer empty if the text may not fit.
pub(crate) fn encode_leaf(page: LeafPage<'_>, text: &mut ByteBuf<LEAF_BYTES>) -> bool
    ensures whole { OnTrue result (text.new ≡ page_text page.entry) }
    ensures empty { OnFalse result (text.new ≡ []) }
{
    text.clear();
    if page.estimate() > LEAF_BYTES {
        return false;
    }
    text.push_8(LEAF);
    for slot in 0..page.len() {
        if text.room() < ROW_BYTES {
            text.clear();
            return false;
        }
        if let Some((key, row)) = page.at(slot) {
            append_row(&key, row, text);
        }
    }
    true
}

/// The hash of a node, from those of its children.
#[tactic(auto, unfolding(tpcc_model::specs::Roots::joined))]
pub fn join(left: &[u8; 32], right: &[u8; 32]) -> [u8; 32]
    ensures { result ≡ joined left.now right.now }
{
    let mut hasher = Sha256::new();
    hasher.update([NODE].as_slice());
    hasher.update(left.as_slice());
    hasher.update(right.as_slice());
    hasher.finalize()
}

/// The text of a node, from the hashes of its children.
pub(crate) fn encode_node(left: &[u8; 32], right: &[u8; 32]) -> [u8; NODE_BYTES]
    ensures { result ≡ 1 ∷ (left.now ++ right.now) }
{
    let mut text = [NODE; NODE_BYTES];
    text[1..33].copy_from_slice(left);
    text[33..].copy_from_slice(right);
    text
}
