//! The path of a batch: what its levels do, or would do.

/// What the levels of a batch do, or would do if it were executed by them. It doesn't tell how the batch was executed: counting
/// `Reran` counts the batches that stray, not re-executions.
#[derive(Clone, Copy, Debug, PartialEq, Eq)]
pub enum Path {
    /// No request strays.
    Parallel,
    /// Some request strays.
    Reran,
    /// The batch's verdict is `rerun`, whether any request strays or not.
    Verdict,
    /// The batch was given to `execute_sequential`, which has no levels.
    Sequential,
}
