//! What strays where a batch is executed in order: a call of this crate's function proves its law.
//!
//! Requests declare footprints when their batch begins, and a request strays if it touches more when its turn comes. A new
//! order, a payment and an order status touch what their cards say, so they don't stray. Nor does a stock level: the lines
//! that it looks at were there at the beginning, or are those of new orders before it, whose items it declared too.
#![tactic(auto)]

ghost use Rattle.profile_laws.specs.Straying.{OnlyDeliveriesStray};

/// If a batch is executed in order on a sound database, only its deliveries can stray.
pub fn only_deliveries_stray()
    ensures { OnlyDeliveriesStray }
{}
