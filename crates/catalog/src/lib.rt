//! The columns that never change after loading: a card for each warehouse, district, customer, stock and item.
#![tactic(auto)]

pub mod builder;
pub mod card;
pub mod cards;
mod digest;
mod last_names;
pub mod laws;
mod rising;
mod table;

pub use builder::{CatalogBuilder, CatalogError};
pub use card::{
    Card, CardKey, Credit, CustomerCard, DistrictCard, DistrictInfos, ItemCard, StockCard,
    WarehouseCard,
};
pub use cards::Catalog;
