//! How many points there are, and why a call about them is refused.
use thiserror::Error;

/// The greatest number of points.
pub const POINTS: usize = 8;

/// There is no such point.
#[derive(Clone, Copy, Debug, PartialEq, Eq, Error)]
#[error("there is no such point")]
pub struct NoSuchPoint;

/// There are as many points as there may be.
#[derive(Clone, Copy, Debug, PartialEq, Eq, Error)]
#[error("no more points are kept")]
pub struct PointsFull;
