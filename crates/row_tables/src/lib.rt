//! The rows of a database, in a table for each kind.
#![tactic(auto)]

pub mod boxed;
pub mod kinds;
pub mod order_lines;
pub mod store;
pub mod table_row;
pub mod walk;
