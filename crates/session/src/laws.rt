//! Laws of sessions, stated as contracts of empty functions.
ghost use Rattle.session.specs.Laws.{SessionsAreSerial};

/// After any commands, the chain has the states that one thread leaves after the kept batches, each answer was that of such states,
/// and the database stayed sound.
pub fn serial()
    ensures { SessionsAreSerial }
{}
