//! The digest of replies, and the token of a batch.
#![tactic(auto)]

mod encoding;
pub mod replies;
pub mod token;

pub use replies::reply_digest;
pub use token::TokenParts;
