//! The world of a level, played event by event.
ghost use Rattle.std.specs.Prelude.{◌≡◌, ◌<◌, ◌≤◌, IfOk, option_copied, option_map, slice_get};
ghost use Rattle.tickets.specs.Playing.{worker_of};
ghost use Rattle.tickets.specs.World.{after, opening, step};
ghost use Rattle.tickets.specs.declared.size.TheConstants.{MOST_PLACES, MOST_WORKERS};
ghost use Rattle.tickets.specs.declared.event.Event.TheVariants.{Draw, Finish, Look, Raise};

use crate::event::Event;
use crate::worker::Worker;
use memory_refusal::Memory;
use std::alloc::Global;
use std::marker::Model;

/// The places of a level, and its workers' states. All memory is allocated up front.
#[derive(Drop)]
pub struct World {
    places: usize,
    next: usize,
    workers: Vec<Worker>,
    halt: bool,
}

impl Model for World {
    ghost use Rattle.std.specs.Prelude.{All};
    ghost use Rattle.tickets.specs.World.{World as Whole};

    ghost Value = { Whole };

    ghost use Rattle.tickets.specs.Playing.{HasRoom, IsReached, world_of};

    ghost view = { world_of };

    ghost invariant = { λ w. All (HasRoom w.places) w.workers.items × IsReached (world_of w) };
}

impl World {
    /// The world before any event.
    pub fn new(alloc: Global, places: usize, workers: usize) -> Result<World, Memory>
        requires places { places ≤ MOST_PLACES }
        requires workers { (0 < workers) × (workers ≤ MOST_WORKERS) }
        ensures { IfOk result (λ w. w ≡ opening places workers) }
    {
        let mut all = Vec::with_capacity(alloc, workers)?;
        for _ in 0..workers {
            all.push(Worker::new(alloc, places)?)?;
        }
        Ok(World {
            places,
            next: 0,
            workers: all,
            halt: false,
        })
    }

    pub fn places(&self) -> usize
        ensures { result ≡ self.now.places }
    {
        self.places
    }

    /// The next place to draw.
    pub fn next(&self) -> usize
        ensures { result ≡ self.now.next }
    {
        self.next
    }

    /// Whether all are to stop.
    pub fn halt(&self) -> bool
        ensures { result ≡ self.now.halt }
    {
        self.halt
    }

    /// The worker of this number.
    pub fn worker(&self, worker: usize) -> Option<&Worker>
        ensures { option_map worker_of (option_copied result) ≡ slice_get self.now.workers worker }
    {
        self.workers.get(worker)
    }

    fn draw(&mut self, worker: usize)
        ensures { self.new ≡ step self.old (Draw worker) }
    {
        let Some(worker) = self.workers.get_mut(worker) else {
            return;
        };
        if worker.has_stopped() || worker.hand().is_some() {
            return;
        }
        if self.next < self.places {
            worker.take(self.next);
            self.next += 1;
        } else {
            worker.stop();
        }
    }

    fn finish(&mut self, worker: usize)
        ensures { self.new ≡ step self.old (Finish worker) }
    {
        let Some(worker) = self.workers.get_mut(worker) else {
            return;
        };
        let Some(place) = worker.hand() else {
            return;
        };
        worker.finish(place);
    }

    fn raise(&mut self, worker: usize)
        ensures { self.new ≡ step self.old (Raise worker) }
    {
        let Some(worker) = self.workers.get_mut(worker) else {
            return;
        };
        let Some(place) = worker.hand() else {
            return;
        };
        worker.raise(place);
        self.halt = true;
    }

    fn look(&mut self, worker: usize)
        ensures { self.new ≡ step self.old (Look worker) }
    {
        if self.halt {
            if let Some(worker) = self.workers.get_mut(worker) {
                worker.stop();
            }
        }
    }

    /// Plays these events in turn. An event that doesn't apply, such as a draw while holding a place, changes nothing.
    #[tactic(auto, unfolding(crate::specs::World::after))]
    pub fn play(&mut self, events: &[Event])
        ensures { self.new ≡ after self.old events.now }
    {
        for event in events {
            match *event {
                Event::Draw(worker) => self.draw(worker),
                Event::Finish(worker) => self.finish(worker),
                Event::Raise(worker) => self.raise(worker),
                Event::Look(worker) => self.look(worker),
            }
        }
    }
}
