//! The places of a level, drawn by its workers in order: as a world that is played event by event, and as a desk of two
//! atomic words that refines it.
#![tactic(auto)]

mod desk;
mod entry;
mod event;
pub mod laws;
mod rule;
mod seat;
mod size;
mod worker;
mod workers;
mod world;

pub use desk::Desk;
pub use event::Event;
pub use seat::Seat;
pub use size::{MOST_PLACES, MOST_WORKERS};
pub use worker::Worker;
pub use workers::Workers;
pub use world::World;
