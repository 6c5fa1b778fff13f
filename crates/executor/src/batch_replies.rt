//! The replies to a batch, which come in any order.
ghost use Rattle.std.specs.Prelude.{◌≡◌, ◌<◌, All, IfOk, IsSome, None, Some, length, map, replicate, slice_set};

use requests::reply::Reply;
use std::alloc::Global;
use std::marker::Model;
use tpcc_rows::memory::Memory;

/// A slot for the reply to each request of a batch, by its place. All memory is allocated up front.
#[derive(Drop)]
pub(crate) struct BatchReplies {
    slots: Vec<Option<Reply>>,
    /// Empty, with capacity for all replies.
    in_order: Vec<Reply>,
}

impl Model for BatchReplies {
    ghost use Rattle.std.specs.Prelude.{◌≡◌, ◌≤◌, [], length, vec_capacity};
    ghost use Rattle.executor.specs.Slots.{Slots, slots_code};

    ghost Value = { Slots };

    ghost coded = { slots_code };

    ghost view = { λ r. r.slots.items };

    ghost invariant = { λ r. (r.in_order.items ≡ []) × (length r.slots.items ≤ vec_capacity r.in_order) };
}

impl BatchReplies {
    /// Empty slots for `count` requests.
    pub(crate) fn new(alloc: Global, count: usize) -> Result<BatchReplies, Memory>
        ensures { IfOk result (λ replies. replies ≡ replicate count None) }
    {
        let mut slots = Vec::with_capacity(alloc, count)?;
        for _ in 0..count {
            slots.push(None)?;
        }
        let in_order = Vec::with_capacity(alloc, count)?;
        Ok(BatchReplies { slots, in_order })
    }

    /// Puts the reply to the request at a place into its slot.
    pub(crate) fn put(&mut self, place: usize, reply: Reply)
        requires { place < length self.old }
        ensures { self.new ≡ slice_set self.old place (Some reply) }
    {
        self.slots[place] = Some(reply);
    }

    /// The replies in the order of their requests. No slot is empty.
    pub(crate) fn in_order(self) -> Vec<Reply>
        requires { All IsSome self }
        ensures { map Some result.items ≡ self }
    {
        let mut in_order = self.in_order;
        for slot in self.slots {
            in_order.push_reserved(slot.unwrap());
        }
        in_order
    }
}
