//! Rows in tables that can go back to what they were at a point, and the leaves on which they have changed.
#![tactic(auto)]

pub mod aside;
pub mod bounds;
pub mod log;
pub mod picks;
pub mod pointed;
pub mod roomy;

pub use pointed::PointedTables;
