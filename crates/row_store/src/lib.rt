//! The rows of the database: in tables, by leaf of the tree of hashes, with points to which they can go back.
#![tactic(auto)]

pub mod leaf_page;
pub mod pointed;

pub use leaf_page::LeafPage;
pub use pointed::PointedStore;
