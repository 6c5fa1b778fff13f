//! Jobs: places of a tree to be hashed, and their hashes.
ghost use Rattle.std.specs.Prelude.{◌≡◌, ◌<◌, ◌≤◌, ◌*◌, ◌||◌, ℕ, List, All, cond, length, take};
ghost use Rattle.bit_sets.specs.BitSets.{has_bit};
ghost use Rattle.merkle.specs.Jobs.{AreGathered, AreHashed, has_place};
ghost use Rattle.merkle.specs.Marking.{is_above};
ghost use Rattle.merkle.specs.Nodes.{AreWhole, IsAtLevel, at};
ghost use Rattle.merkle.specs.declared.marks.TheConstants.{BRANCH_LEAVES};
ghost use Rattle.rollback.specs.Marks.{is_dirty};

use crate::marks::{Level, Marks, next_above, next_dirty};
use rollback::Dirty;
use tpcc_rows::codes::LEAVES;

/// A place to be hashed: a leaf by its number, or a node by its place in the list of nodes.
#[derive(Clone, Copy)]
pub(crate) struct Job {
    pub(crate) place: usize,
    /// Approximate size of its text, in bytes.
    pub(crate) measure: usize,
    pub(crate) hash: [u8; 32],
}

impl Job {
    pub(crate) fn at(place: usize) -> Job
        ensures { result.place ≡ place }
    {
        Job {
            place,
            measure: 0,
            hash: [0; 32],
        }
    }
}

/// Maximum number of jobs gathered at once.
pub(crate) const MOST_JOBS: usize = 256;

/// Gathers the dirty leaves from `from` to before `end` as jobs, in order, up to as many as there is room for. Returns how many
/// there are, and where to go on.
pub(crate) fn gather_leaves(
    jobs: &mut [Job; MOST_JOBS],
    dirty: &Dirty,
    from: usize,
    end: usize,
) -> (usize, usize)
    requires from { from < end }
    requires end { end ≤ LEAVES }
    ensures few { result.0 ≤ MOST_JOBS }
    ensures on { (from < result.1) × (result.1 ≤ end) }
    ensures gathered { AreGathered (λ n. n < LEAVES) (is_dirty dirty.now) from result.1 (take result.0 jobs.new) }
{
    let mut count = 0;
    let mut next = from;
    while next < end && count < MOST_JOBS {
        let n = next_dirty(dirty, next, end);
        if n == end {
            next = end;
        } else {
            jobs[count] = Job::at(n);
            count += 1;
            next = n + 1;
        }
    }
    (count, next)
}

/// Gathers the nodes of the level that are above a mark, from `from` to before `end`, as jobs, in order, up to as many as there is
/// room for; they are marked too. Returns how many there are, and where to go on.
pub(crate) fn gather_nodes(
    jobs: &mut [Job; MOST_JOBS],
    marks: &mut Marks,
    level: Level,
    from: usize,
    end: usize,
) -> (usize, usize)
    requires from { from < end }
    requires end { end ≤ 2 * LEAVES }
    requires whole { AreWhole end }
    ensures few { result.0 ≤ MOST_JOBS }
    ensures on { (from < result.1) × (result.1 ≤ end) }
    ensures gathered { AreGathered (IsAtLevel level.low level.high) (is_above marks.old.words) from result.1 (take result.0 jobs.new) }
    ensures marks { (i : ℕ) → has_bit marks.new.words i ≡ (has_place (take result.0 jobs.new) i || has_bit marks.old.words i) }
{
    let mut count = 0;
    let mut next = from;
    while next < end && count < MOST_JOBS {
        let i = next_above(marks, level, next, end);
        if i == end {
            next = end;
        } else {
            jobs[count] = Job::at(i);
            count += 1;
            marks.add(i);
            next = i + 1;
        }
    }
    (count, next)
}

/// Puts the hash of each job at its place.
pub(crate) fn put_hashes(hashes: &mut [[u8; 32]], jobs: &[Job])
    requires { All (λ job. job.place < length hashes.old) jobs.now }
    ensures len { length hashes.new ≡ length hashes.old }
    ensures each { (value : ℕ → List ℕ) → AreHashed value jobs.now
        → (i : ℕ) → at hashes.new i ≡ cond (has_place jobs.now i) (value i) (at hashes.old i) }
{
    for job in jobs {
        hashes[job.place] = job.hash;
    }
}
