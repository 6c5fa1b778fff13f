//! The state of one worker.
ghost use Rattle.std.specs.Prelude.{◌≡◌, ◌<◌, IfOk, length, vec_capacity};
ghost use Rattle.tickets.specs.Playing.{HasRoom, KeepsRoom, worker_of};
ghost use Rattle.tickets.specs.World.{finishing, fresh, raising, stopping, taking};

use memory_refusal::Memory;
use std::alloc::Global;

/// The state of one worker. All memory is allocated up front.
#[derive(Drop)]
pub struct Worker {
    drawn: Vec<usize>,
    hand: Option<usize>,
    finished: Vec<usize>,
    raised: Option<usize>,
    stopped: bool,
}

impl Worker {
    /// A worker before its first event, in a world with this number of places.
    pub(crate) fn new(alloc: Global, places: usize) -> Result<Worker, Memory>
        ensures fresh { IfOk result (λ a. worker_of a ≡ fresh) }
        ensures room { IfOk result (λ a. HasRoom places a) }
    {
        Ok(Worker {
            drawn: Vec::with_capacity(alloc, places)?,
            hand: None,
            finished: Vec::with_capacity(alloc, places)?,
            raised: None,
            stopped: false,
        })
    }

    /// The places that it drew, in order.
    pub fn drawn(&self) -> &[usize]
        ensures { result.now ≡ (worker_of self.now).drawn }
    {
        &self.drawn
    }

    /// The place that it holds.
    pub fn hand(&self) -> Option<usize>
        ensures { result ≡ (worker_of self.now).hand }
    {
        self.hand
    }

    /// The places that it finished, in order.
    pub fn finished(&self) -> &[usize]
        ensures { result.now ≡ (worker_of self.now).finished }
    {
        &self.finished
    }

    /// The place that it raised.
    pub fn raised(&self) -> Option<usize>
        ensures { result ≡ (worker_of self.now).raised }
    {
        self.raised
    }

    pub fn has_stopped(&self) -> bool
        ensures { result ≡ (worker_of self.now).stopped }
    {
        self.stopped
    }

    pub(crate) fn take(&mut self, place: usize)
        requires { length self.old.drawn.items < vec_capacity self.old.drawn }
        ensures worker { worker_of self.new ≡ taking place (worker_of self.old) }
        ensures room { KeepsRoom self.old self.new }
    {
        self.drawn.push_reserved(place);
        self.hand = Some(place);
    }

    pub(crate) fn finish(&mut self, place: usize)
        requires { length self.old.finished.items < vec_capacity self.old.finished }
        ensures worker { worker_of self.new ≡ finishing place (worker_of self.old) }
        ensures room { KeepsRoom self.old self.new }
    {
        self.finished.push_reserved(place);
        self.hand = None;
    }

    pub(crate) fn raise(&mut self, place: usize)
        ensures worker { worker_of self.new ≡ raising place (worker_of self.old) }
        ensures room { KeepsRoom self.old self.new }
    {
        self.hand = None;
        self.raised = Some(place);
        self.stopped = true;
    }

    pub(crate) fn stop(&mut self)
        ensures worker { worker_of self.new ≡ stopping (worker_of self.old) }
        ensures room { KeepsRoom self.old self.new }
    {
        self.stopped = true;
    }
}
