//! Laws of commands, as contracts of empty functions.
ghost use Rattle.commands.specs.Laws.{BatchesAreHeard, RowsAreRecords};

/// Commands are read from the same records as batches.
pub fn same_records()
    ensures { RowsAreRecords }
{}

/// A session hears the batches that a run reads from the same text; where the run ends with a fault, the session reports it and goes on.
pub fn same_batches()
    ensures { BatchesAreHeard }
{}
