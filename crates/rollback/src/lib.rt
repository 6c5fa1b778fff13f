//! What every store has whose rows go back to what they were at a point: the leaves on which they have changed, its points' number,
//! and its refusals.
#![tactic(auto)]

pub mod dirty;
pub mod points;

pub use dirty::Dirty;
pub use points::{NoSuchPoint, POINTS, PointsFull};
