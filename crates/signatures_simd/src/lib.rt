//! Signatures of lists of granules: 512 bits, of which each granule sets one. Lists whose signatures share no bit share no
//! granule. Union and intersection are one vector operation of eight lanes each.
#![tactic(auto)]

mod bit;
mod lanes;
mod signature;

pub use bit::{MULTIPLIER, granule_bit, packed};
pub use signature::{Signature, highest_meeting};
