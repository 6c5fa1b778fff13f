//! A database that batches are executed on.
ghost use Rattle.std.specs.Prelude.{◌≡◌};
ghost use Rattle.catalog.specs.CardBytes.{catalog_digest};
ghost use Rattle.merkle.specs.Nodes.{IsOfClean};

use catalog::Catalog;
use merkle::Tree;
use row_store::PointedStore;

/// A database's cards with their digest, and its rows with their tree, whose hashes of dirty leaves may be stale.
#[derive(Drop)]
pub(crate) struct Engine {
    pub catalog: Catalog,
    pub digest: [u8; 32],
    pub store: PointedStore,
    pub tree: Tree,
    pub ghost of_catalog: { digest ≡ catalog_digest catalog },
    pub ghost of_rows: { IsOfClean tree store.dirty store.rows },
}
