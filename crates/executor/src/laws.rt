//! Laws of execution out of order, stated as contracts of functions that at most call other laws.
ghost use Rattle.executor.specs.Laws.{BatchesKeep, CutsAreWhole, DeclaredLevelsAreSerial, ExecutionsHaveHeadline, LevelsAreSerial, ChainsAreSerial, MeetOnlyAbove, OpeningIsSound, RequestsSwap, RunsHaveHeadline, SerialBatchesHaveHeadline};
ghost use Rattle.executor.specs.InOrder.{StraysAreInTurn};

use transactions::laws::{framed_machine, keeps};

/// Two requests, neither of which writes what the other reads, commute: in either order they touch and reply the same, and
/// leave the same rows.
pub fn swap()
    ensures { RequestsSwap }
{
    framed_machine();
}

/// Executing levels in which no request strays gives the replies and rows of executing the requests in order, though a later
/// request may be on a lower level than an earlier one; and the database stays sound.
pub fn levels()
    ensures { LevelsAreSerial }
{
    framed_machine();
}

/// The same of the levels of a batch by its requests' declared footprints.
pub fn declared_levels()
    ensures { DeclaredLevelsAreSerial }
{
    levels();
}

/// Some request of a batch touches more than it declared on the rows that its level starts from, if and only if some request
/// does on the rows that the requests before it leave.
pub fn strays_in_turn()
    ensures { StraysAreInTurn }
{
    framed_machine();
}

/// Of two conflicting requests of a batch, the later one is on the higher level.
pub fn levels_rise()
    ensures { MeetOnlyAbove }
{}

/// Each request of a batch is on exactly one level; no level is empty, and its places are ascending.
pub fn cuts()
    ensures { CutsAreWhole }
{}

/// Before the first batch and after each one the database is sound, all four consistency conditions included, and no history
/// row has the number of a future request.
pub fn sound_states()
    ensures opening { OpeningIsSound }
    ensures after { BatchesKeep }
{
    keeps();
}

/// The replies, tables and token after each completed batch are those of one thread executing the requests one after the
/// other in batch order, and the four consistency conditions hold after every one: for any list of batches within their
/// limits, for what `execute` returns, and for what `run` returns.
pub fn headline()
    ensures serial { SerialBatchesHaveHeadline }
    ensures executions { ExecutionsHaveHeadline }
    ensures runs { RunsHaveHeadline }
{
    sound_states();
}

/// After any executions, commits and rollbacks, each state of an executor's chain is the one that one thread leaves after the
/// batches kept up to it.
pub fn chain()
    ensures { ChainsAreSerial }
{}
