//! The transactions: what one request answers, and which rows it changes.
#![tactic(auto)]

mod delivery;
mod fault;
pub mod laws;
mod lent;
mod new_order;
mod order_line;
mod order_status;
mod payment;
mod stock_level;
pub mod stop;
mod transaction;

pub use stop::Stop;
pub use transaction::{NumberedRequest, execute, execute_in_place, execute_in_place_within};
