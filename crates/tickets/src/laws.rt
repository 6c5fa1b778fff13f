//! A law of the world, as the contract of an empty function.
ghost use Rattle.tickets.specs.Once.{Once};

/// After any events each place below the next one was drawn once, by one worker, and no other was drawn; a worker finished
/// or raised only what it drew; and once all workers have stopped and hold nothing, all places are finished or some place
/// is raised.
pub fn once()
    ensures { Once }
{}
