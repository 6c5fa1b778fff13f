//! Profiles: what the requests of a batch will touch, predicted before the batch runs.
#![tactic(auto)]

mod asked;
mod batch;
mod declaration;
mod deliveries;
mod delivery;
mod earlier;
mod new_order;
mod order_status;
mod payment;
mod stock_level;

pub use batch::declare_batch;
pub use declaration::Declaration;
pub use deliveries::declare_deliveries;
