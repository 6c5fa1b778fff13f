//! Executes batches. If threads pay, or the gate listens, a batch is cut into levels by its requests' declared footprints and
//! executed level by level; if a request strays, the rows are rolled back and the requests re-executed in order. Any other
//! batch is executed in order at once. Then, if it is plain before any request declares, only those declare that can stray:
//! deliveries. The result is one thread's in every case. So is the batch's path, which says what the levels do, or would do,
//! not how the batch was executed.
#![tactic(auto)]

mod batch;
mod batch_replies;
mod engine;
mod executor;
mod footprints;
mod in_order;
pub mod laws;
mod limits;
mod next_batch;
mod opening;
mod parallel;
pub mod path;
mod paying;
mod record;
mod refusal;
mod run;
mod sequential;
mod stamp;
mod told;
mod turn;
mod way;

pub use executor::Executor;
pub use next_batch::{LAST_NUMBER, MOST_REQUESTS};
pub use opening::beside_digest;
pub use record::Record;
pub use refusal::Refusal;
pub use run::RunEnd;
pub use stamp::{NumbersTaken, Stamp};
