//! Two requests of a level are executed at the same time.
use crate::calls::execute;
use executor::Executor;
use executor::path::Path;
use requests::request::Batch;
use std::alloc::Global;
use std::hint::spin_loop;
use std::sync::atomic::{AtomicBool, Ordering};
use std::thread::Threads;
use workers::Gate;

/// The most turns that a place is held.
const TURNS: u64 = 50_000_000;

/// Holds place 0 until place 1 is entered.
#[derive(Drop)]
struct MeetingGate {
    entered: AtomicBool,
    missed: AtomicBool,
}

impl Gate for MeetingGate {
    fn enter(&self, place: usize) {
        if place == 1 {
            self.entered.store(true, Ordering::SeqCst);
        }
        if place != 0 {
            return;
        }
        for _turn in 0..TURNS {
            if self.entered.load(Ordering::SeqCst) {
                return;
            }
            spin_loop();
        }
        self.missed.store(true, Ordering::SeqCst);
    }

    fn leave(&self, _: usize) {}
}

impl MeetingGate {
    fn new() -> MeetingGate {
        MeetingGate {
            entered: AtomicBool::new(false),
            missed: AtomicBool::new(false),
        }
    }

    /// Places 0 and 1 were executed at the same time.
    fn has_met(&self) -> bool {
        self.entered.load(Ordering::SeqCst) && !self.missed.load(Ordering::SeqCst)
    }
}

/// Whether the batch of which places 0 and 1 meet on two workers is executed in parallel; None where they don't meet, as where the
/// memory of a second thread is refused.
pub fn meets<R: Threads + Sync>(
    rt: &R,
    alloc: Global,
    executor: &mut Executor,
    batch: &Batch,
) -> Option<bool> {
    let gate = MeetingGate::new();
    match execute(rt, alloc, executor, batch, 2, &gate) {
        Ok(record) if gate.has_met() => Some(record.path == Path::Parallel),
        _ => None,
    }
}
