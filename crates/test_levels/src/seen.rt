//! What was seen of the batches.
use executor::path::Path;

/// Numbers of batches.
#[derive(Clone, Copy)]
pub struct Seen {
    /// Executed in levels.
    in_levels: u64,
    /// With a level for several workers, where the gate listens.
    shared_told: u64,
    /// With a level for several workers, where the gate doesn't listen.
    shared_untold: u64,
    /// No request strayed.
    parallel: u64,
    /// A request strayed.
    reran: u64,
    /// The verdict asked for it to be executed again.
    asked: u64,
}

/// A level has a worker for each eight requests, rounded up.
const REQUESTS_A_WORKER: u64 = 8;

fn add_one(count: &mut u64, is_one: bool) {
    *count = count.saturating_add(u64::from(is_one));
}

impl Seen {
    pub const NOTHING: Seen = Seen {
        in_levels: 0,
        shared_told: 0,
        shared_untold: 0,
        parallel: 0,
        reran: 0,
        asked: 0,
    };

    /// Adds a batch of so many requests, executed in so many levels. If they are more than eight times as many, some level has
    /// more than eight, and so several workers.
    pub fn add(&mut self, requests: u64, levels: u64, is_told: bool, path: Path) {
        let is_in_levels = 0 < levels;
        let is_shared = is_in_levels && levels.saturating_mul(REQUESTS_A_WORKER) < requests;
        add_one(&mut self.in_levels, is_in_levels);
        add_one(&mut self.shared_told, is_shared && is_told);
        add_one(&mut self.shared_untold, is_shared && !is_told);
        add_one(&mut self.parallel, path == Path::Parallel);
        add_one(&mut self.reran, path == Path::Reran);
        add_one(&mut self.asked, path == Path::Verdict);
    }

    pub fn in_levels(&self) -> u64 {
        self.in_levels
    }

    /// Whether some batches had a level for several workers with a gate that listens, and some with one that doesn't.
    pub fn has_shared_levels(&self) -> bool {
        0 < self.shared_told && 0 < self.shared_untold
    }

    /// Whether some batches ended in parallel, some strayed, and some were executed again by their verdict.
    pub fn has_all_paths(&self) -> bool {
        0 < self.parallel && 0 < self.reran && 0 < self.asked
    }

    /// Prints the numbers to standard error.
    pub fn print(&self, rt: &impl Eprint) {
        let _ = eprintln!(rt;
            "{} parallel, {} reran, {} by their verdict; with a level of several workers: {} told, {} untold",
            self.parallel, self.reran, self.asked, self.shared_told, self.shared_untold
        );
    }
}
