//! Loads a database from the bytes of an image: reads the records into cards and rows, then checks that every parent is
//! there and that the consistency conditions hold.
#![tactic(auto)]

mod addition;
mod gathered;
pub mod gathered_tables;
mod image;
mod joining;
mod late_rows;
pub mod laws;
mod reading;
pub mod unpaged;

pub use gathered_tables::GatheredTables;
pub use image::{load, read_image, read_told};
pub use unpaged::UnpagedRows;
