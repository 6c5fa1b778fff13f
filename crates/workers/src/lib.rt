//! Executes one level: requests with disjoint footprints, each on the rows that its footprint lends, by one or more
//! worker threads.
#![tactic(auto)]

mod alone;
mod filing;
mod gate;
mod job;
mod level;
mod part;
mod plan;
mod runtime;
mod stray;

pub use gate::{Gate, NoGate};
pub use job::{Done, Job};
pub use level::run_level;
pub use part::run_seat;
pub use plan::{Db, Level, Plan};
pub use runtime::Runtime;
pub use stray::tell_stray;
pub use tickets::Workers;
