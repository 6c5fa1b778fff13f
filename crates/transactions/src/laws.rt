//! Laws of the steps, as contracts of functions that do nothing.
ghost use Rattle.tpcc_laws.specs.Laws.{IsFramedMachine, StepFrames, StepKeeps};

/// A step on a sound database, with its number and moment within their limits, gives a sound database, in which the
/// history is that of before and at most one row more, at the request's number.
pub fn keeps()
    ensures { StepKeeps }
{}

/// A step depends on no rows but those of the granules that its request reads, and changes none but those of the granules
/// that it writes and the history's row at the request's number.
pub fn frame()
    ensures { StepFrames }
{}

/// So the transactions are a machine of which the theory of levels speaks: what it says of requests that are apart, and
/// of the run of a batch's levels, it says of them.
pub fn framed_machine()
    ensures { IsFramedMachine }
{}
