//! What it takes to execute batches.
use std::alloc::Global;
use tickets::Workers;

/// Threads, memory, the maximum number of workers, and the gate that observes each execution.
#[derive(Drop)]
pub struct Runtime<'a, R, G> {
    pub rt: &'a R,
    pub alloc: Global,
    pub workers: Workers,
    pub gate: &'a G,
}
