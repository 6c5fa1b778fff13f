//! What a seat knows.
use crate::event::Event;
use std::collections::LinkedList;

/// What is known of one worker. For contracts only: no value of it exists at run time.
pub struct Entry {
    /// The worker's number.
    pub worker: u64,
    /// The level's number of places.
    pub places: u64,
    /// The level's number of workers.
    pub workers: u64,
    /// The places that the worker drew, in order.
    pub drawn: LinkedList<u64>,
    /// It drew when no place was left.
    pub past: bool,
    /// The place that it raised.
    pub raised: Option<u64>,
    /// It saw the stop.
    pub saw: bool,
    /// The events up to the worker's last.
    pub history: LinkedList<Event>,
}

/// What a seat knows: its worker's entry. Joined seats know several workers' entries.
pub type View = LinkedList<Entry>;
