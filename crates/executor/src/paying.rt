//! Whether threads pay. This only chooses between two ways to the same result.
ghost use Rattle.std.specs.Prelude.{◌≡◌, ◌<◌, ◌≤◌, ◌/◌, IfOk, IfSome, None, length};
ghost use Rattle.executor.specs.LevelRuns.{HaveTooManyLevels, IsCutBySome};
ghost use Rattle.executor.specs.declared.paying.TheConstants.{REQUESTS_A_LEVEL};

use mixer::{Cut, mix_exactly};
use requests::request::Request;
use std::alloc::Global;
use tpcc_rows::footprint::Footprint;
use tpcc_rows::memory::Memory;

/// The smallest average size of levels for which threads pay: each level starts threads of its own, and starting one takes as
/// long as executing a dozen requests or more.
const REQUESTS_A_LEVEL: usize = 128;

/// The greatest number of levels into which these many requests may be cut for threads to pay.
fn most_levels(requests: usize) -> usize
    ensures { result ≡ requests / REQUESTS_A_LEVEL }
{
    requests / REQUESTS_A_LEVEL
}

/// The end of the indices of rows: a warehouse's is its number, and a district's is 100, plus ten times its warehouse's number,
/// plus its own.
const ROWS: usize = 1_111;

/// The index of a row that the request writes, as do all others of its kind there: a Payment, its warehouse's; a New-Order, its
/// district's with the next order number.
fn shared_row(request: &Request) -> Option<usize>
    ensures { IfSome result (λ row. row < ROWS) }
{
    match request {
        Request::Payment(p) => Some(usize::from(p.warehouse.number())),
        Request::NewOrder(p) => {
            let warehouse = usize::from(p.warehouse.number());
            Some(100 + warehouse * 10 + usize::from(p.district.number()))
        }
        _ => None,
    }
}

/// Whether none of these rows has more than `most` writers, each of which takes a level of its own. A request that will be
/// refused, and so writes nothing, is counted as a writer.
fn is_shallow(requests: &[Request], most: usize) -> bool {
    let mut writers = [0u16; ROWS];
    for request in requests {
        if let Some(row) = shared_row(request) {
            writers[row] = writers[row].saturating_add(1);
            if usize::from(writers[row]) > most {
                return false;
            }
        }
    }
    true
}

/// Whether threads may pay for these requests, judged before any of them declares.
pub(crate) fn may_pay(requests: &[Request], workers: usize) -> bool {
    workers > 1
        && requests.len() >= REQUESTS_A_LEVEL
        && is_shallow(requests, most_levels(requests.len()))
}

/// The levels to execute a batch by; `None` if they are too small for threads to pay.
pub(crate) fn paying_cut(alloc: Global, footprints: &[Footprint]) -> Result<Option<Cut>, Memory>
    requires { length footprints.now ≤ 1024 }
    ensures cut { IfOk result (λ cut. IfSome cut (IsCutBySome footprints.now)) }
    ensures none { IfOk result (λ cut. cut ≡ None → HaveTooManyLevels REQUESTS_A_LEVEL footprints.now) }
{
    let cut = mix_exactly(alloc, footprints)?;
    if cut.depth() > most_levels(footprints.len()) {
        return Ok(None);
    }
    Ok(Some(cut))
}
