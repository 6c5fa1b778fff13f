//! The choice of the transaction.
ghost use Rattle.std.specs.Prelude.{◌≡◌, IfOk, OnOk};
ghost use Rattle.requests.specs.Kinds.{kind_of};
ghost use Rattle.rollback.specs.Pointed.{KeepsCleanLeaves};
ghost use Rattle.tpcc_model.specs.Database.{database};
ghost use Rattle.tpcc_model.specs.Steps.{step};
ghost use Rattle.tpcc_model.specs.Touches.{touch};
ghost use Rattle.tpcc_rows.specs.Changing.{after};
ghost use Rattle.transactions.specs.InPlace.{AnswersInPlace, EndsInPlace, loaned, whole};
ghost use Rattle.transactions.specs.NumberedRequests.{numbered_step};
ghost use Rattle.transactions.specs.OnViews.{ExecutesOn};
ghost use Rattle.transactions.specs.Outcomes.{Executes, concluded};
ghost use Rattle.worker_rows.specs.Views.{covers};
ghost use Rattle.worker_rows.specs.Writers.{KeepsPoints};

use crate::fault::Fault;
use crate::stop::Stop;
use crate::{delivery, new_order, order_status, payment, stock_level};
use catalog::Catalog;
use requests::reply::Reply;
use requests::request::{Request, RequestKind};
use row_store::PointedStore;
use std::alloc::Global;
use tpcc_rows::delta::Delta;
use tpcc_rows::footprint::Footprint;
use tpcc_rows::id::RequestNumber;
use tpcc_rows::memory::Memory;
use tpcc_rows::number::Moment;
use worker_rows::{Loan, RowView, Whole};

/// A request with its number, and the moment of its batch.
#[derive(Clone, Copy)]
pub struct NumberedRequest<'a> {
    pub request: &'a Request,
    pub number: RequestNumber,
    pub moment: Moment,
}

/// The request on the rows that the view lends.
#[tactic(auto, unfolding(tpcc_model::specs::Steps::step, tpcc_model::specs::Touches::touch))]
fn executed<V: RowView>(
    alloc: Global,
    catalog: &Catalog,
    request: &Request,
    number: RequestNumber,
    moment: Moment,
    view: &V,
) -> Result<(Reply, Delta), Fault>
    ensures { ExecutesOn (λ db. touch db request.now) (λ db. step db request.now number moment) catalog.now (V.sees view.now)
        (concluded (kind_of request.now) result) }
{
    match request {
        Request::NewOrder(p) => new_order::execute(alloc, catalog, p, moment, view),
        Request::Payment(p) => payment::execute(alloc, catalog, p, number, moment, view),
        Request::OrderStatus(p) => order_status::execute(alloc, catalog, p, view),
        Request::Delivery(p) => delivery::execute(alloc, catalog, p, moment, view),
        Request::StockLevel(p) => stock_level::execute(alloc, catalog, p, view),
    }
}

/// An answer to a request of this kind. What is refused gets a reply, and changes nothing.
fn concluded(
    alloc: Global,
    kind: RequestKind,
    answer: Result<(Reply, Delta), Fault>,
) -> Result<(Reply, Delta), Stop>
    ensures { result ≡ concluded kind answer }
{
    match answer {
        Ok(outcome) => Ok(outcome),
        Err(Fault::Refused(refusal)) => Ok((Reply::Refused { kind, refusal }, Delta::new(alloc))),
        Err(Fault::Strayed) => Err(Stop::Strayed),
        Err(Fault::Memory) => Err(Stop::Memory),
    }
}

/// The reply to a request, and the rows that it changes, where what it touches is within
/// the view; else it strays. A request that is refused for a limit touches as much as one that isn't. The database stays
/// as it is.
pub fn execute<V: RowView>(
    alloc: Global,
    catalog: &Catalog,
    asked: &NumberedRequest<'_>,
    view: &V,
) -> Result<(Reply, Delta), Stop>
    ensures { let db = database catalog.now (V.sees view.now).rows in
        Executes (covers (V.sees view.now) (touch db asked.now.request.now)) (numbered_step db asked.now) result }
{
    let NumberedRequest {
        request,
        number,
        moment,
    } = *asked;
    let answer = executed(alloc, catalog, request, number, moment, view);
    concluded(alloc, request.kind(), answer)
}

/// An answer's reply, whose changes are made in the rows of a store.
fn applied(store: &mut PointedStore, answer: Result<(Reply, Delta), Fault>) -> Result<Reply, Fault>
    ensures answer { AnswersInPlace (λ given. given ≡ answer) store.old.rows store.new.rows result }
    ensures kept { KeepsPoints store.old store.new }
{
    let (reply, delta) = answer?;
    store.apply(delta)?;
    Ok(reply)
}

/// The reply to the request on all rows of a store, whose changes are made in their places.
#[tactic(auto, unfolding(tpcc_model::specs::Steps::step, tpcc_model::specs::Touches::touch))]
fn executed_in_place(
    alloc: Global,
    catalog: &Catalog,
    request: &Request,
    number: RequestNumber,
    moment: Moment,
    store: &mut PointedStore,
) -> Result<Reply, Fault>
    ensures answer { AnswersInPlace (λ answer. ExecutesOn (λ db. touch db request.now) (λ db. step db request.now number moment) catalog.now
        (whole store.old.rows) (concluded (kind_of request.now) answer)) store.old.rows store.new.rows result }
    ensures kept { KeepsPoints store.old store.new }
{
    match request {
        Request::NewOrder(p) => new_order::execute_in_place(alloc, catalog, p, moment, store),
        Request::Payment(p) => {
            payment::execute_in_place(alloc, catalog, p, number, moment, store)
        }
        Request::Delivery(p) => delivery::execute_in_place(alloc, catalog, p, moment, store),
        Request::OrderStatus(_) | Request::StockLevel(_) => {
            let view = Whole { store: &*store };
            let answer = executed(alloc, catalog, request, number, moment, &view);
            applied(store, answer)
        }
    }
}

/// The reply to a request on all rows of a store, where no request strays. The changes are
/// made in their places. If an allocation fails, some of them may have been made.
pub fn execute_in_place(
    alloc: Global,
    catalog: &Catalog,
    asked: &NumberedRequest<'_>,
    store: &mut PointedStore,
) -> Result<Reply, Memory>
    ensures reply { IfOk result (λ reply. reply ≡ (numbered_step (database catalog.now store.old.rows) asked.now).reply) }
    ensures rows { OnOk result (store.new.rows ≡ after store.old.rows (numbered_step (database catalog.now store.old.rows) asked.now).changes) }
    ensures points { store.new.points ≡ store.old.points }
    ensures clean { KeepsCleanLeaves store.old store.new }
{
    let NumberedRequest {
        request,
        number,
        moment,
    } = *asked;
    match executed_in_place(alloc, catalog, request, number, moment, store) {
        Ok(reply) => Ok(reply),
        Err(Fault::Refused(refusal)) => Ok(Reply::Refused {
            kind: request.kind(),
            refusal,
        }),
        Err(Fault::Memory) => Err(Memory),
        Err(Fault::Strayed) => unreachable!(),
    }
}

/// The request on the rows that a footprint lends. A loan is large, so it has a function of its own.
#[inline(never)]
fn executed_on_loan(
    alloc: Global,
    catalog: &Catalog,
    request: &Request,
    number: RequestNumber,
    moment: Moment,
    footprint: &Footprint,
    store: &PointedStore,
) -> Result<(Reply, Delta), Fault>
    ensures { ExecutesOn (λ db. touch db request.now) (λ db. step db request.now number moment) catalog.now
        (loaned store.now.rows footprint.now) (concluded (kind_of request.now) result) }
{
    let loan = Loan::new(store, footprint);
    executed(alloc, catalog, request, number, moment, &loan)
}

/// The reply to the request on the rows that a footprint lends, whose changes are made in their places. Of those that
/// declare what they touch, deliveries are the ones that are often executed in order.
#[tactic(auto, unfolding(tpcc_model::specs::Steps::step, tpcc_model::specs::Touches::touch))]
fn executed_in_place_within(
    alloc: Global,
    catalog: &Catalog,
    request: &Request,
    number: RequestNumber,
    moment: Moment,
    footprint: &Footprint,
    store: &mut PointedStore,
) -> Result<Reply, Fault>
    ensures answer { AnswersInPlace (λ answer. ExecutesOn (λ db. touch db request.now) (λ db. step db request.now number moment) catalog.now
        (loaned store.old.rows footprint.now) (concluded (kind_of request.now) answer)) store.old.rows store.new.rows result }
    ensures kept { KeepsPoints store.old store.new }
{
    match request {
        Request::Delivery(p) => {
            delivery::execute_in_place_within(alloc, catalog, p, moment, footprint, store)
        }
        Request::NewOrder(_)
        | Request::Payment(_)
        | Request::OrderStatus(_)
        | Request::StockLevel(_) => {
            let answer = executed_on_loan(
                alloc, catalog, request, number, moment, footprint, store,
            );
            applied(store, answer)
        }
    }
}

/// The same on the rows that a footprint lends, where what the request touches is within the footprint. Else it strays,
/// and the rows stay as they are.
pub fn execute_in_place_within(
    alloc: Global,
    catalog: &Catalog,
    asked: &NumberedRequest<'_>,
    footprint: &Footprint,
    store: &mut PointedStore,
) -> Result<Reply, Stop>
    ensures reply { IfOk result (λ reply. reply ≡ (numbered_step (database catalog.now store.old.rows) asked.now).reply) }
    ensures rows { OnOk result (store.new.rows ≡ after store.old.rows (numbered_step (database catalog.now store.old.rows) asked.now).changes) }
    ensures within { EndsInPlace (covers (loaned store.old.rows footprint.now) (touch (database catalog.now store.old.rows) asked.now.request.now))
        store.old.rows store.new.rows result }
    ensures points { store.new.points ≡ store.old.points }
    ensures clean { KeepsCleanLeaves store.old store.new }
{
    let NumberedRequest {
        request,
        number,
        moment,
    } = *asked;
    match executed_in_place_within(alloc, catalog, request, number, moment, footprint, store) {
        Ok(reply) => Ok(reply),
        Err(Fault::Refused(refusal)) => Ok(Reply::Refused {
            kind: request.kind(),
            refusal,
        }),
        Err(Fault::Memory) => Err(Stop::Memory),
        Err(Fault::Strayed) => Err(Stop::Strayed),
    }
}
