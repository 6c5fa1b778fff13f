//! The helper's ends of its queues.
use crate::outbox::{LONG_BYTES, SHORT_BYTES};
use crate::parcel::{Hashed, Parcel};
use crossbeam_utils::sync::Parker;
use rtrb::{Consumer, Producer};
use sha2_lanes::SecondBlocks;
use std::sync::Wait;
use std::thread::yield_now;

/// Number of looks for a parcel before a helper sleeps: about two milliseconds.
const LOOKS: usize = 4_000;

/// Receives parcels of texts of up to N bytes, and returns them hashed.
#[derive(Drop)]
pub(crate) struct Inbox<const N: usize> {
    pub(crate) asked: Consumer<Parcel<N>>,
    pub(crate) answered: Producer<Hashed<N>>,
}

impl<const N: usize> Inbox<N> {
    /// Hashes the next parcel; false if there is none.
    fn serve(&mut self, second_blocks: &SecondBlocks) -> bool {
        match self.asked.pop() {
            Ok(parcel) => {
                let _ = self.answered.push(parcel.hashed(second_blocks));
                true
            }
            Err(_) => false,
        }
    }
}

/// What a helper's thread owns.
#[derive(Drop)]
pub(crate) struct Mailbox {
    pub(crate) long: Inbox<LONG_BYTES>,
    pub(crate) short: Inbox<SHORT_BYTES>,
    pub(crate) bell: Parker,
    pub(crate) second_blocks: SecondBlocks,
}

impl Mailbox {
    /// Waits for a parcel for a while and hashes it; false if none came.
    fn serve_awake(&mut self) -> bool {
        for _ in 0..LOOKS {
            if self.short.serve(&self.second_blocks) || self.long.serve(&self.second_blocks) {
                return true;
            }
            yield_now();
        }
        false
    }

    /// Hashes parcels until the sender is gone.
    pub(crate) fn serve<R: Wait>(&mut self, rt: &R) {
        for _ in rt.forever() {
            if !self.serve_awake() {
                if self.long.asked.is_abandoned() {
                    return;
                }
                self.bell.park(rt);
            }
        }
    }
}
