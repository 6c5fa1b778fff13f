//! Generates a database with a given number of warehouses, customers a district and items.
#![tactic(auto)]

mod made_records;
mod making;

pub use making::make;
