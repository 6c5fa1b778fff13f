//! How a batch is executed.

/// In order, or by the runtime's workers.
#[derive(Clone, Copy)]
pub(crate) enum Way {
    InOrder,
    ByWorkers,
}
