//! What workers do.

/// An event of one worker, by its number.
#[derive(Clone, Copy, Debug, PartialEq, Eq)]
pub enum Event {
    /// It draws the next place, or stops if none is left.
    Draw(usize),
    /// It finishes the place that it holds.
    Finish(usize),
    /// The place that it holds strays: it stops, and all are to stop.
    Raise(usize),
    /// It stops, if all are to stop.
    Look(usize),
}
