//! Laws of runs, stated as contracts of empty functions.
ghost use Rattle.runner.specs.Laws.{TwoRunsAgree};

/// Two runs of the same image and batches write the same, whatever their workers and observers: the text of one is a prefix of the
/// other's, and if both complete, the texts are equal.
pub fn two_runs()
    ensures { TwoRunsAgree }
{}
