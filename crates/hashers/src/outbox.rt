//! The owner's ends of a helper's queues.
ghost use Rattle.std.specs.Prelude.{◌≡◌, ◌<◌, ◌≤◌, ◌^◌, Some, length, map, true};
ghost use Rattle.std.specs.Bool.{OnTrue};
ghost use Rattle.sha2.specs.Sha256.{sha256};
ghost use Rattle.hashers.specs.declared.parcel.TheConstants.{TEXTS};

use crate::mailbox::Inbox;
use crate::parcel::{Hashed, Parcel};
use rtrb::{Consumer, Producer, PushError, RingBuffer};
use std::alloc::{AllocError, Global};
use std::thread::yield_now;

/// Maximum size of a long text, in bytes.
pub const LONG_BYTES: usize = 5_000;

/// Maximum number of long texts in a parcel.
pub const LONG_TEXTS: usize = 16;

/// Maximum size of a short text, in bytes.
pub const SHORT_BYTES: usize = 65;

/// Capacity of a queue, in parcels.
const PARCELS: usize = 5;

/// Number of looks for a parcel before it counts as late.
const LOOKS: usize = 400;

/// Sends parcels to a helper, and takes them back.
#[derive(Drop)]
pub(crate) struct Outbox<const N: usize> {
    asked: Producer<Parcel<N>>,
    answered: Consumer<Hashed<N>>,
    spare: Vec<Parcel<N>>,
    /// Whether a parcel is late. Until it is back, none is waited for.
    is_late: bool,
}

impl<const N: usize> Outbox<N> {
    /// Both ends of the queues of a helper, for parcels of up to `room` texts.
    pub(crate) fn new(alloc: Global, room: usize) -> Result<(Outbox<N>, Inbox<N>), AllocError>
        requires small { N < 2 ^ 32 }
        requires few { room ≤ TEXTS }
    {
        let (asked, to_serve) = RingBuffer::new(alloc, PARCELS)?;
        let (served, answered) = RingBuffer::new(alloc, PARCELS)?;
        let mut spare = Vec::with_capacity(alloc, PARCELS)?;
        for _ in 0..PARCELS {
            spare.push(Parcel::new(alloc, room)?)?;
        }
        let outbox = Outbox {
            asked,
            answered,
            spare,
            is_late: false,
        };
        let inbox = Inbox {
            asked: to_serve,
            answered: served,
        };
        Ok((outbox, inbox))
    }

    fn keep(&mut self, parcel: Parcel<N>) {
        if self.spare.len() < self.spare.capacity() {
            self.spare.push_reserved(parcel);
        }
    }

    /// A spare parcel, or one that came back late.
    fn spare_one(&mut self) -> Option<Parcel<N>> {
        if self.is_late
            && let Ok(hashed) = self.answered.pop()
        {
            return Some(hashed.into_parcel());
        }
        self.spare.pop()
    }

    /// Sends these texts; false if they don't fit or no parcel is free.
    pub(crate) fn ask(&mut self, number: u64, messages: &[&[u8]]) -> bool {
        let Some(mut parcel) = self.spare_one() else {
            return false;
        };
        if !parcel.fill(number, messages) {
            self.keep(parcel);
            return false;
        }
        match self.asked.push(parcel) {
            Ok(()) => true,
            Err(PushError::Full(parcel)) => {
                self.keep(parcel);
                false
            }
        }
    }

    /// Takes a parcel back, if one is there. True if it is the one with this number and these texts, whose digests are then set.
    fn take(&mut self, number: u64, messages: &[&[u8]], digests: &mut [[u8; 32]]) -> Option<bool>
        requires { length digests.old ≡ length messages.now }
        ensures len { length digests.new ≡ length digests.old }
        ensures hashes { result ≡ Some true → digests.new ≡ map (λ message. sha256 message.now) messages.now }
    {
        let hashed = self.answered.pop().ok()?;
        self.is_late = false;
        let is_it = hashed.number() == number && hashed.give(messages, digests);
        self.keep(hashed.into_parcel());
        Some(is_it)
    }

    /// Takes parcels back up to the one with this number; false if it isn't there yet.
    fn take_all(&mut self, number: u64, messages: &[&[u8]], digests: &mut [[u8; 32]]) -> bool
        requires { length digests.old ≡ length messages.now }
        ensures len { length digests.new ≡ length digests.old }
        ensures hashes { OnTrue result (digests.new ≡ map (λ message. sha256 message.now) messages.now) }
    {
        for _ in 0..PARCELS {
            match self.take(number, messages, digests) {
                Some(true) => return true,
                Some(false) => {}
                None => return false,
            }
        }
        false
    }

    /// Waits for a parcel for a while; false if it is late.
    pub(crate) fn wait(&mut self, number: u64, messages: &[&[u8]], digests: &mut [[u8; 32]]) -> bool
        requires { length digests.old ≡ length messages.now }
        ensures len { length digests.new ≡ length digests.old }
        ensures hashes { OnTrue result (digests.new ≡ map (λ message. sha256 message.now) messages.now) }
    {
        for _ in 0..LOOKS {
            if self.take_all(number, messages, digests) {
                return true;
            }
            if self.is_late {
                return false;
            }
            yield_now();
        }
        self.is_late = true;
        false
    }
}
