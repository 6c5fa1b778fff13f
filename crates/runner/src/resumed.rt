//! Runs that resume at the stamp of an image's state.
ghost use Rattle.std.specs.Prelude.{◌≡◌, ◌+◌, ◌<◌, ◌≤◌, ◌^◌, [], false, true, IfErr, IfOk, IfSome, OnOk, if◌then◌else◌};
ghost use Rattle.executor.specs.Stamps.{IsWithinLimits, stamp_of};
ghost use Rattle.executor.specs.States.{IsSoundState};
ghost use Rattle.runner.specs.ResumedRuns.{IsTaken, LeavesAndTells, LeavesGoingOn, LeavesResumed, MayStand, RanAndTold, RanResumed, WentOn};
ghost use Rattle.runner.specs.ResumedRuns.{ended, in_resumed, stood, told_behind};
ghost use Rattle.runner.specs.Runs.{is_write};
ghost use Rattle.runner.specs.WholeRuns.{IsOfDatabase, is_batches_read, is_image_read};
ghost use Rattle.telling.specs.Told.{OfSource};

use crate::fault::RunFault;
use crate::observer::{Observer, Phase};
use crate::opening::load_told;
use crate::resumed_fault::ResumedFault;
use crate::run::run_on;
use executor::{Executor, NumbersTaken, Stamp};
use hashers::Host;
use records::io::Sink;
use telling::TellingSource;
use workers::Runtime;

/// The result of a resumed run.
#[derive(Drop)]
pub struct Resumed {
    /// The number of batches, or why it ended early.
    pub ran: Result<u64, ResumedFault>,
    /// The stamp of the state whose token was written last; `None` if the output failed or there is no state.
    pub at: Option<Stamp>,
}

/// Gives the executor's state the stamp, if there is one.
fn stand(executor: &mut Executor, from: Option<Stamp>) -> Result<(), NumbersTaken>
    requires alone { executor.old.earlier ≡ [] }
    requires sound { IsSoundState executor.old.cards executor.old.present }
    requires low { 1 ≤ executor.old.present.next }
    requires within { IfSome from IsWithinLimits }
    ensures ok { OnOk result (MayStand executor.old from × (executor.new ≡ stood executor.old from)) }
    ensures err { IfErr result (λ taken. IsTaken taken executor.old from) }
    ensures alone { executor.new.earlier ≡ [] }
    ensures sound { IsSoundState executor.new.cards executor.new.present }
    ensures low { 1 ≤ executor.new.present.next }
{
    match from {
        Some(stamp) => executor.resume(&stamp),
        None => Ok(()),
    }
}

/// The stamp of the state that a run left when it ended early, unless the output failed.
fn told_at(executor: &Executor, fault: RunFault) -> Option<Stamp>
    ensures { result ≡ told_behind fault (stamp_of executor.now.present) }
{
    match fault {
        RunFault::Write => None,
        RunFault::Load(_) | RunFault::Read(_) | RunFault::Exec(_) | RunFault::Memory => {
            Some(executor.stamp())
        }
    }
}

/// Reads and runs batches from the executor's present state on, and returns the stamp of the last state.
fn run_and_tell<R: Host, B: TellingSource, S: Sink, G: Observer>(
    runtime: &Runtime<'_, R, G>,
    executor: &mut Executor,
    batches: &mut B,
    sink: &mut S,
) -> (Result<u64, RunFault>, Option<Stamp>)
    requires alone { executor.old.earlier ≡ [] }
    requires sound { IsSoundState executor.old.cards executor.old.present }
    requires low { 1 ≤ executor.old.present.next }
    requires batches { B.failed batches.old < 2 ^ 63 }
    requires sink { S.failed sink.old < 2 ^ 63 }
    ensures ok { IfOk result.0 (λ count. OfSource (B.left batches.old) (B.given batches.old) (B.given batches.new) (λ batch_bytes.
        RanAndTold executor.old batch_bytes (S.taken sink.old) (S.taken sink.new) count result.1)) }
    ensures over { OnOk result.0 (B.ended batches.new ≡ true) }
    ensures err { IfErr result.0 (λ e. OfSource (B.left batches.old) (B.given batches.old) (B.given batches.new) (λ batch_bytes.
        LeavesAndTells e executor.old batch_bytes (S.taken sink.old) (S.taken sink.new) result.1)) }
    ensures kinds { IfErr result.0 IsOfDatabase }
    ensures batches_failures { B.failed batches.new ≡ B.failed batches.old + (if is_batches_read result.0 then 1 else 0) }
    ensures sink_failures { S.failed sink.new ≡ S.failed sink.old + (if is_write result.0 then 1 else 0) }
{
    match run_on(runtime, executor, batches, sink) {
        Ok(count) => (Ok(count), Some(executor.stamp())),
        Err(fault) => (Err(fault), told_at(executor, fault)),
    }
}

/// The result of a resumed run that began.
fn ended(ran: Result<u64, RunFault>) -> Result<u64, ResumedFault>
    ensures { result ≡ ended ran }
{
    match ran {
        Ok(count) => Ok(count),
        Err(fault) => Err(ResumedFault::Ended(fault)),
    }
}

/// Reads and runs batches from a stamp on, if there is one.
fn go_on<R: Host, B: TellingSource, S: Sink, G: Observer>(
    runtime: &Runtime<'_, R, G>,
    executor: &mut Executor,
    from: Option<Stamp>,
    batches: &mut B,
    sink: &mut S,
) -> Resumed
    requires alone { executor.old.earlier ≡ [] }
    requires sound { IsSoundState executor.old.cards executor.old.present }
    requires low { 1 ≤ executor.old.present.next }
    requires within { IfSome from IsWithinLimits }
    requires batches { B.failed batches.old < 2 ^ 63 }
    requires sink { S.failed sink.old < 2 ^ 63 }
    ensures ok { IfOk result.ran (λ count. OfSource (B.left batches.old) (B.given batches.old) (B.given batches.new) (λ batch_bytes.
        WentOn executor.old from batch_bytes (S.taken sink.old) (S.taken sink.new) count result.at)) }
    ensures over { OnOk result.ran (B.ended batches.new ≡ true) }
    ensures err { IfErr result.ran (λ e. OfSource (B.left batches.old) (B.given batches.old) (B.given batches.new) (λ batch_bytes.
        LeavesGoingOn e executor.old from batch_bytes (S.taken sink.old) (S.taken sink.new) result.at)) }
    ensures image_read { in_resumed is_image_read result.ran ≡ false }
    ensures batches_failures { B.failed batches.new ≡ B.failed batches.old + (if in_resumed is_batches_read result.ran then 1 else 0) }
    ensures sink_failures { S.failed sink.new ≡ S.failed sink.old + (if in_resumed is_write result.ran then 1 else 0) }
{
    match stand(executor, from) {
        Ok(()) => {}
        Err(taken) => {
            return Resumed {
                ran: Err(ResumedFault::Taken(taken)),
                at: None,
            };
        }
    }
    let (ran, at) = run_and_tell(runtime, executor, batches, sink);
    Resumed {
        ran: ended(ran),
        at,
    }
}

/// Loads an image, and runs batches as `run_text` does, but from a stamp on: its batches, requests and tokens continue the stamp's.
/// If a request in the history has the stamp's next number or a greater one, the stamp is refused, and no batches are read. Without
/// a stamp the run begins before any batch.
pub fn run_from<R: Host, I: TellingSource, B: TellingSource, S: Sink, G: Observer>(
    runtime: &Runtime<'_, R, G>,
    image: &mut I,
    from: Option<Stamp>,
    batches: &mut B,
    sink: &mut S,
) -> Resumed
    requires within { IfSome from IsWithinLimits }
    requires image { I.failed image.old < 2 ^ 63 }
    requires batches { B.failed batches.old < 2 ^ 63 }
    requires sink { S.failed sink.old < 2 ^ 63 }
    ensures ok { IfOk result.ran (λ count. OfSource (I.left image.old) (I.given image.old) (I.given image.new) (λ image_bytes.
        OfSource (B.left batches.old) (B.given batches.old) (B.given batches.new) (λ batch_bytes.
        RanResumed image_bytes from batch_bytes (S.taken sink.old) (S.taken sink.new) count result.at))) }
    ensures over { OnOk result.ran ((I.ended image.new ≡ true) × (B.ended batches.new ≡ true)) }
    ensures err { IfErr result.ran (λ e. OfSource (I.left image.old) (I.given image.old) (I.given image.new) (λ image_bytes.
        OfSource (B.left batches.old) (B.given batches.old) (B.given batches.new) (λ batch_bytes.
        LeavesResumed e image_bytes from batch_bytes (S.taken sink.old) (S.taken sink.new) result.at))) }

    // A stream is reported as failed exactly if it failed.
    ensures image_failures { I.failed image.new ≡ I.failed image.old + (if in_resumed is_image_read result.ran then 1 else 0) }
    ensures batches_failures { B.failed batches.new ≡ B.failed batches.old + (if in_resumed is_batches_read result.ran then 1 else 0) }
    ensures sink_failures { S.failed sink.new ≡ S.failed sink.old + (if in_resumed is_write result.ran then 1 else 0) }
{
    // The executor stays where it was made: moved, it would be on the stack twice.
    runtime.gate.begins(Phase::Load);
    let mut loaded = load_told(runtime.rt, runtime.alloc, image);
    match &mut loaded {
        Ok(executor) => go_on(runtime, executor, from, batches, sink),
        Err(fault) => Resumed {
            ran: Err(ResumedFault::Unopened(*fault)),
            at: None,
        },
    }
}
