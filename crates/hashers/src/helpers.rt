//! The helpers of one thread.
ghost use Rattle.std.specs.Prelude.{◌≡◌, ◌≤◌, None, length, map, vec_len};
ghost use Rattle.std.specs.Bool.{OnTrue};
ghost use Rattle.sha2.specs.Sha256.{sha256};

use crate::host::Host;
use crate::mailbox::Mailbox;
use crate::outbox::{LONG_BYTES, LONG_TEXTS, Outbox, SHORT_BYTES};
use crate::parcel::TEXTS;
use crossbeam_utils::sync::{Parker, Unparker};
use sha2_lanes::{SecondBlocks, digests};
use std::alloc::{AllocError, Global};
use std::thread;

/// The helper that messages were sent to, and their number there.
#[derive(Clone, Copy)]
pub struct Ticket {
    helper: usize,
    number: u64,
    is_short: bool,
}

/// A hashing thread, seen from its owner.
struct Helper {
    long: Outbox<LONG_BYTES>,
    short: Outbox<SHORT_BYTES>,
    bell: Unparker,
}

impl Drop for Helper {
    /// Ends the thread.
    fn drop(self) {
        let Helper { long, short, bell } = self;
        drop(long);
        drop(short);
        bell.unpark();
    }
}

impl Helper {
    fn start<R: Host>(rt: R, alloc: Global) -> Result<Helper, AllocError> {
        let parker = Parker::new(alloc)?;
        let bell = parker.unparker().clone()?;
        let (long, long_inbox) = Outbox::new(alloc, LONG_TEXTS)?;
        let (short, short_inbox) = Outbox::new(alloc, TEXTS)?;
        let mut mailbox = Mailbox {
            long: long_inbox,
            short: short_inbox,
            bell: parker,
            second_blocks: SecondBlocks::new(alloc)?,
        };
        thread::spawn(&rt, move || mailbox.serve(&rt))?;
        Ok(Helper { long, short, bell })
    }

    fn ask(&mut self, number: u64, is_short: bool, messages: &[&[u8]]) -> bool {
        let is_asked = if is_short {
            self.short.ask(number, messages)
        } else {
            self.long.ask(number, messages)
        };
        self.bell.unpark();
        is_asked
    }

    fn wait(
        &mut self,
        number: u64,
        is_short: bool,
        messages: &[&[u8]],
        digests: &mut [[u8; 32]],
    ) -> bool
        requires { length digests.old ≡ length messages.now }
        ensures len { length digests.new ≡ length digests.old }
        ensures hashes { OnTrue result (digests.new ≡ map (λ message. sha256 message.now) messages.now) }
    {
        if is_short {
            self.short.wait(number, messages, digests)
        } else {
            self.long.wait(number, messages, digests)
        }
    }
}

/// Threads that hash for their owner.
#[derive(Drop)]
pub struct Helpers {
    helpers: Vec<Helper>,
    asked: u64,
}

impl Helpers {
    /// No helpers.
    pub fn none(alloc: Global) -> Helpers
        ensures { vec_len result.helpers ≡ 0 }
    {
        Helpers {
            helpers: Vec::new(alloc),
            asked: 0,
        }
    }

    /// Starts `count` helpers, or as many as possible.
    pub fn start<R: Host>(rt: R, alloc: Global, count: usize) -> Helpers
        ensures { vec_len result.helpers ≤ count }
    {
        let mut helpers = Vec::new(alloc);
        for _ in 0..count {
            let Ok(helper) = Helper::start(rt, alloc) else {
                break;
            };
            let _ = helpers.push(helper);
        }
        Helpers { helpers, asked: 0 }
    }

    /// Number of helpers.
    pub fn len(&self) -> usize
        ensures { result ≡ vec_len self.now.helpers }
    {
        self.helpers.len()
    }

    /// Sends messages to one of the first `most` helpers, unless its queue is full: up to `LONG_TEXTS` of up to `LONG_BYTES`, or
    /// up to `TEXTS` of up to `SHORT_BYTES`.
    pub fn begin(&mut self, most: usize, messages: &[&[u8]]) -> Option<Ticket>
        ensures none { most ≡ 0 → result ≡ None }
        ensures helpers { vec_len self.new.helpers ≡ vec_len self.old.helpers }
    {
        let count = self.helpers.len().min(most);
        if count == 0 {
            return None;
        }
        let number = self.asked;
        self.asked = number.wrapping_add(1);
        let helper = (number % count as u64) as usize;
        let is_short = messages.len() > LONG_TEXTS;
        self.helpers[helper]
            .ask(number, is_short, messages)
            .then_some(Ticket {
                helper,
                number,
                is_short,
            })
    }

    /// Takes the helper's digests, and returns true; false if they are late.
    fn wait(&mut self, ticket: Option<Ticket>, messages: &[&[u8]], digests: &mut [[u8; 32]]) -> bool
        requires { length digests.old ≡ length messages.now }
        ensures len { length digests.new ≡ length digests.old }
        ensures hashes { OnTrue result (digests.new ≡ map (λ message. sha256 message.now) messages.now) }
        ensures helpers { vec_len self.new.helpers ≡ vec_len self.old.helpers }
    {
        let Some(
            Ticket {
                helper,
                number,
                is_short,
            },
        ) = ticket
        else {
            return false;
        };
        helper < self.helpers.len()
            && self.helpers[helper].wait(number, is_short, messages, digests)
    }

    /// The digests of these messages, in their order: a helper's if the ticket is theirs and it is done in time.
    pub fn finish(
        &mut self,
        second_blocks: &SecondBlocks,
        ticket: Option<Ticket>,
        messages: &[&[u8]],
        found: &mut [[u8; 32]],
    )
        requires { length found.old ≡ length messages.now }
        ensures digests { found.new ≡ map (λ message. sha256 message.now) messages.now }
        ensures helpers { vec_len self.new.helpers ≡ vec_len self.old.helpers }
    {
        if !self.wait(ticket, messages, found) {
            digests(second_blocks, messages, found);
        }
    }
}
