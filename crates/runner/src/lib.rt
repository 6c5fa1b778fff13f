//! Runs from bytes to bytes: image and batches in, replies out.
#![tactic(auto)]

mod check;
pub mod fault;
pub mod laws;
mod lines;
mod make;
mod observer;
mod opening;
mod reading;
mod resumed;
pub mod resumed_fault;
mod run;
mod serving;
pub mod stamp_text;
pub mod store_fault;
mod stored_run;
pub mod text;

pub use check::check_text;
pub use fault::{RunFault, fault_line};
pub use lines::{FaultLine, stored_line};
pub use make::make_text;
pub use observer::{Observer, Phase};
pub use opening::{load_executor, load_told};
pub use resumed::{Resumed, run_from};
pub use resumed_fault::ResumedFault;
pub use run::{run_on, run_text};
pub use store_fault::{StoreFault, StoredRunFault, stored_fault_line};
pub use stored_run::{run_and_store, run_and_store_on};
