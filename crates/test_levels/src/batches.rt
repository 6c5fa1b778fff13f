//! Batches that look random, of four sorts.
use crate::dice::Dice;
use crate::requesting::{Warehouses, new_order, order_status, payment, request};
use requests::{Batch, Requests, Verdict};
use std::alloc::Global;
use tpcc_rows::number::Moment;

/// What a batch is like.
#[derive(Clone, Copy)]
pub enum Sort {
    /// At most six requests of all kinds, on at most four warehouses, so that they conflict in several levels.
    Crowded,
    /// 32 to 64 requests of all kinds, on all warehouses, so that levels are wide enough for several workers.
    Wide,
    /// Payments and new orders, at most one or two of each to a warehouse and so many that threads pay.
    Even,
    /// A payment to each warehouse, and then so many order statuses, which may see it, that threads pay.
    Read,
}

impl Sort {
    /// The sort of the batch of a turn: of two hundred, one is even, one is read, four are wide, and the others crowded.
    pub fn of(turn: u64) -> Sort {
        match turn % 200 {
            0 => Sort::Even,
            1 => Sort::Read,
            2..6 => Sort::Wide,
            _ => Sort::Crowded,
        }
    }

    /// Whether the gate has to listen for the batch to be executed in levels.
    pub fn is_told(self) -> bool {
        match self {
            Sort::Crowded | Sort::Wide => true,
            Sort::Even | Sort::Read => false,
        }
    }
}

/// So many requests of all kinds.
fn mixed(alloc: Global, dice: &mut Dice, warehouses: Warehouses, count: u8) -> Option<Requests> {
    let mut requests = Requests::new(alloc);
    for _ in 0..count {
        requests.push(request(dice, warehouses)?).ok()?;
    }
    Some(requests)
}

fn crowded(alloc: Global, dice: &mut Dice) -> Option<Requests> {
    let first = dice.between(1, 97);
    let last = first.saturating_add(dice.between(0, 3));
    let count = dice.between(1, 6);
    mixed(alloc, dice, Warehouses { first, last }, count)
}

fn wide(alloc: Global, dice: &mut Dice) -> Option<Requests> {
    let warehouses = Warehouses {
        first: 1,
        last: 100,
    };
    let count = dice.between(32, 64);
    mixed(alloc, dice, warehouses, count)
}

/// A payment and a new order to a warehouse, in any order.
fn push_both(dice: &mut Dice, warehouse: u8, requests: &mut Requests) -> Option<()> {
    let only = Warehouses {
        first: warehouse,
        last: warehouse,
    };
    let (first, second) = if dice.comes(50) {
        (payment(dice, only)?, new_order(dice, only)?)
    } else {
        (new_order(dice, only)?, payment(dice, only)?)
    };
    requests.push(first).ok()?;
    requests.push(second).ok()
}

/// 128 requests, at most one of a kind to a warehouse, or 256, at most two.
fn even(alloc: Global, dice: &mut Dice) -> Option<Requests> {
    let mut requests = Requests::new(alloc);
    let start = u32::from(dice.between(0, 99));
    let pairs = if dice.comes(50) { 64 } else { 128 };
    for pair in 0..pairs {
        let warehouse = 1 + ((start + pair) % 100) as u8;
        push_both(dice, warehouse, &mut requests)?;
    }
    Some(requests)
}

/// 256 requests: a payment to each warehouse, then order statuses.
fn read(alloc: Global, dice: &mut Dice) -> Option<Requests> {
    let mut requests = Requests::new(alloc);
    let start = u32::from(dice.between(0, 99));
    for place in 0..256u32 {
        let warehouse = 1 + ((start + place) % 100) as u8;
        let only = Warehouses {
            first: warehouse,
            last: warehouse,
        };
        let request = if place < 100 {
            payment(dice, only)?
        } else {
            order_status(dice, only)?
        };
        requests.push(request).ok()?;
    }
    Some(requests)
}

/// Now and then `rerun`, where the gate listens: else such a batch isn't executed in levels.
fn verdict(dice: &mut Dice, sort: Sort) -> Verdict {
    if sort.is_told() && dice.comes(10) {
        Verdict::Rerun
    } else {
        Verdict::Commit
    }
}

/// The batch of a turn.
pub fn batch(alloc: Global, dice: &mut Dice, sort: Sort, turn: u64) -> Option<Batch> {
    let requests = match sort {
        Sort::Crowded => crowded(alloc, dice)?,
        Sort::Wide => wide(alloc, dice)?,
        Sort::Even => even(alloc, dice)?,
        Sort::Read => read(alloc, dice)?,
    };
    Some(Batch {
        moment: Moment::new(turn)?,
        verdict: verdict(dice, sort),
        requests,
    })
}
