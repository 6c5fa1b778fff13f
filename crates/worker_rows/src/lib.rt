//! Rows of each table by their keys, views of rows, all of a store's or those that a footprint lends, and what changes are written to.
#![tactic(auto)]

mod hints;
mod keyed;
mod loan;
mod view;
mod whole;
mod writer;

pub use keyed::{
    KeyedRows, customer_row, district_next_row, district_ytd_row, order_row, warehouse_row,
};
pub use loan::Loan;
pub use view::{RowView, Strayed};
pub use whole::Whole;
pub use writer::RowWriter;
