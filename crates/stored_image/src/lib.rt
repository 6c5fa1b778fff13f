//! Writes a database as an image.
#![tactic(auto)]

mod row_keys;
mod store;
mod stored_record;

pub use store::store_image;
