//! The hash tree over the rows: the hash of each leaf and inner node, and the root.
#![tactic(auto)]

mod alike;
pub mod hashing;
mod helped;
mod jobs;
mod leaves;
mod levels;
mod marks;
mod parts;
mod places;
mod top;
pub mod tree;

pub use tree::Tree;
