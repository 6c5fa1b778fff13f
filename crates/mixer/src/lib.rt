//! Cuts a batch into levels by its requests' declared footprints: no two requests of a level conflict, and of two that
//! conflict the earlier is on the lower level. `mix` compares each request with whole levels, by signatures; `mix_exactly`
//! looks up the last level of each of its granules, in a table of slots.
#![tactic(auto)]

mod columns;
mod cut;
mod levels;
mod rows;
mod signing;
mod slots;
mod table;

pub use cut::{Cut, mix, mix_exactly};
