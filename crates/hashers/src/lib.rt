//! SHA-256 on threads that outlive a call and hash beside the calling one.
#![tactic(auto)]

mod helpers;
mod host;
mod mailbox;
mod outbox;
mod parcel;

pub use helpers::{Helpers, Ticket};
pub use host::Host;
pub use outbox::{LONG_BYTES, LONG_TEXTS, SHORT_BYTES};
pub use parcel::TEXTS;
