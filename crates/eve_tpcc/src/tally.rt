//! What is counted of the batches of a run or a session.
ghost use Rattle.std.specs.Prelude.{◌≡◌, IfSome, None, OnSome, Some, length};
ghost use Rattle.std.specs.Option.{option_or};
ghost use Rattle.eve_tpcc.specs.Tallies.{with_done, with_kind, with_more, with_path, with_refusal, with_refused, with_replies, with_reply};

use executor::Record;
use executor::path::Path;
use requests::reply::{Reply, RequestRefusal};
use requests::request::{Batch, RequestKind};
use serde::Serialize;
use tpcc_rows::granule::Granule;

/// The number of refused requests, by reason.
#[derive(Clone, Copy, Serialize)]
pub struct Refusals {
    #[serde(rename = "Item number is not valid")]
    item_not_valid: u64,
    #[serde(rename = "Unknown key")]
    unknown_key: u64,
    #[serde(rename = "Limit reached")]
    limit_reached: u64,
}

/// The number of replies of a kind.
#[derive(Clone, Copy, Serialize)]
pub struct Outcomes {
    done: u64,
    refused: Refusals,
}

/// The number of replies, by kind.
#[derive(Clone, Copy, Serialize)]
#[serde(rename_all = "kebab-case")]
pub struct Replies {
    new_order: Outcomes,
    payment: Outcomes,
    order_status: Outcomes,
    delivery: Outcomes,
    stock_level: Outcomes,
}

/// The number of batches, by path.
#[derive(Clone, Copy, Serialize)]
pub struct Paths {
    parallel: u64,
    reran: u64,
    verdict: u64,
    sequential: u64,
}

/// A request that strayed.
#[derive(Clone, Copy)]
pub struct Stray {
    /// The number of its batch.
    pub batch: u64,
    /// Its own number.
    pub request: u64,
    pub kind: RequestKind,
    /// A granule that it touched and hadn't declared, if known.
    pub granule: Option<Granule>,
}

/// What is counted.
#[derive(Clone, Copy)]
pub struct Tally {
    pub batches: u64,
    pub requests: u64,
    pub replies: Replies,
    pub paths: Paths,
    pub levels: u64,
    pub dirty_leaves: u64,
    pub first_stray: Option<Stray>,
    /// The place and a granule of the request that strayed first in the batch that is being executed, if one has.
    seen: Option<(usize, Option<Granule>)>,
}

/// Counts one more.
fn count(number: &mut u64)
    ensures { number.new ≡ with_more number.old 1 }
{
    *number = number.saturating_add(1);
}

impl Refusals {
    fn new() -> Refusals {
        Refusals {
            item_not_valid: 0,
            unknown_key: 0,
            limit_reached: 0,
        }
    }

    fn count(&mut self, refusal: RequestRefusal)
        ensures { self.new ≡ with_refusal refusal self.old }
    {
        match refusal {
            RequestRefusal::ItemNotValid => count(&mut self.item_not_valid),
            RequestRefusal::UnknownKey => count(&mut self.unknown_key),
            RequestRefusal::LimitReached => count(&mut self.limit_reached),
        }
    }
}

impl Outcomes {
    fn new() -> Outcomes {
        Outcomes {
            done: 0,
            refused: Refusals::new(),
        }
    }

    fn count_done(&mut self)
        ensures { self.new ≡ with_done self.old }
    {
        count(&mut self.done);
    }

    fn count_refused(&mut self, refusal: RequestRefusal)
        ensures { self.new ≡ with_refused refusal self.old }
    {
        self.refused.count(refusal);
    }
}

impl Replies {
    fn new() -> Replies {
        Replies {
            new_order: Outcomes::new(),
            payment: Outcomes::new(),
            order_status: Outcomes::new(),
            delivery: Outcomes::new(),
            stock_level: Outcomes::new(),
        }
    }

    fn count_refused(&mut self, kind: RequestKind, refusal: RequestRefusal)
        ensures { self.new ≡ with_kind kind (with_refused refusal) self.old }
    {
        match kind {
            RequestKind::NewOrder => self.new_order.count_refused(refusal),
            RequestKind::Payment => self.payment.count_refused(refusal),
            RequestKind::OrderStatus => self.order_status.count_refused(refusal),
            RequestKind::Delivery => self.delivery.count_refused(refusal),
            RequestKind::StockLevel => self.stock_level.count_refused(refusal),
        }
    }

    fn count(&mut self, reply: &Reply)
        ensures { self.new ≡ with_reply reply.now self.old }
    {
        match reply {
            Reply::NewOrder(_) => self.new_order.count_done(),
            Reply::Payment(_) => self.payment.count_done(),
            Reply::OrderStatus(_) => self.order_status.count_done(),
            Reply::Delivery(_) => self.delivery.count_done(),
            Reply::StockLevel(_) => self.stock_level.count_done(),
            Reply::Refused { kind, refusal } => self.count_refused(*kind, *refusal),
        }
    }

    fn count_all(&mut self, replies: &[Reply])
        ensures { self.new ≡ with_replies replies.now self.old }
    {
        for reply in replies {
            self.count(reply);
        }
    }
}

impl Paths {
    fn new() -> Paths {
        Paths {
            parallel: 0,
            reran: 0,
            verdict: 0,
            sequential: 0,
        }
    }

    fn count(&mut self, path: Path)
        ensures { self.new ≡ with_path path self.old }
    {
        match path {
            Path::Parallel => count(&mut self.parallel),
            Path::Reran => count(&mut self.reran),
            Path::Verdict => count(&mut self.verdict),
            Path::Sequential => count(&mut self.sequential),
        }
    }
}

/// The stray of a batch with this record, by its place.
fn stray_at(batch: &Batch, done: &Record, place: usize, granule: Option<Granule>) -> Option<Stray>
    ensures { IfSome result (λ stray. (stray.batch ≡ done.now.sequence) × (stray.granule ≡ granule)) }
{
    let request = batch.requests.as_slice().get(place)?;
    Some(Stray {
        batch: done.sequence,
        request: done.first.saturating_add(place as u64),
        kind: request.kind(),
        granule,
    })
}

impl Tally {
    /// Nothing is counted yet.
    pub fn new() -> Tally
        ensures batches { result.batches ≡ 0 }
        ensures requests { result.requests ≡ 0 }
        ensures levels { result.levels ≡ 0 }
        ensures leaves { result.dirty_leaves ≡ 0 }
        ensures stray { result.first_stray ≡ None }
    {
        Tally {
            batches: 0,
            requests: 0,
            replies: Replies::new(),
            paths: Paths::new(),
            levels: 0,
            dirty_leaves: 0,
            first_stray: None,
            seen: None,
        }
    }

    /// Begins a batch: none of its requests has strayed.
    pub fn begin_batch(&mut self)
        ensures { self.new ≡ record self.old { seen = None } }
    {
        self.seen = None;
    }

    /// Counts the levels of a batch.
    pub fn count_levels(&mut self, count: usize)
        ensures { self.new ≡ record self.old { levels = with_more self.old.levels count } }
    {
        self.levels = self.levels.saturating_add(count as u64);
    }

    /// Counts the dirty leaves of a batch.
    pub fn count_leaves(&mut self, count: usize)
        ensures { self.new ≡ record self.old { dirty_leaves = with_more self.old.dirty_leaves count } }
    {
        self.dirty_leaves = self.dirty_leaves.saturating_add(count as u64);
    }

    /// Notes that a request of the batch strayed, unless another did before.
    pub fn see_stray(&mut self, place: usize, granule: Option<Granule>)
        ensures { self.new ≡ record self.old { seen = option_or self.old.seen (Some (place, granule)) } }
    {
        self.seen = self.seen.or(Some((place, granule)));
    }

    /// Counts a batch that was executed.
    pub fn count_batch(&mut self, batch: &Batch, done: &Record)
        ensures batches { self.new.batches ≡ with_more self.old.batches 1 }
        ensures requests { self.new.requests ≡ with_more self.old.requests (length done.now.replies.items) }
        ensures replies { self.new.replies ≡ with_replies done.now.replies.items self.old.replies }
        ensures paths { self.new.paths ≡ with_path done.now.path self.old.paths }
        ensures levels { self.new.levels ≡ self.old.levels }
        ensures leaves { self.new.dirty_leaves ≡ self.old.dirty_leaves }
        ensures first { OnSome self.old.first_stray (self.new.first_stray ≡ self.old.first_stray) }
    {
        count(&mut self.batches);
        self.requests = self.requests.saturating_add(done.replies.len() as u64);
        self.replies.count_all(done.replies.as_slice());
        self.paths.count(done.path);
        if let (None, Some((place, granule))) = (self.first_stray, self.seen) {
            self.first_stray = stray_at(batch, done, place, granule);
        }
    }
}
