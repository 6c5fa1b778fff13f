//! The size of a level.

/// The most places of a level.
pub const MOST_PLACES: usize = 1024;

/// The most workers of a level.
pub const MOST_WORKERS: usize = 64;

/// A level's numbers of places and workers.
#[derive(Clone, Copy)]
pub struct Size {
    pub places: u64,
    pub workers: u64,
}
