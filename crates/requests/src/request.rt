//! The five transactions' inputs, and batches of them.
ghost use Rattle.std.specs.Prelude.{◌≡◌, ◌==◌, ◌++◌, ◌∷◌, [], All, OnErr, OnOk, Some, length};
ghost use Rattle.requests.specs.Kinds.{kind_of};
ghost use Rattle.requests.specs.Lines.{IsReadLine, ordered_lines_of};
ghost use Rattle.requests.specs.Requests.{IsReadRequest};
ghost use Rattle.tpcc_rows.specs.Limits.{IsBetween};

use crate::number::{OrderedQuantity, PaymentAmount, Threshold};
use crate::request_limits::{line_within, request_within};
use arrayvec::ArrayVec;
use std::alloc::{AllocError, Global};
use std::marker::Model;
use tpcc_rows::id::{CustomerId, DistrictId, ItemId, WarehouseId};
use tpcc_rows::number::{Carrier, Moment};
use tpcc_rows::text::Text;

/// A customer by number or by last name (TPC-C clauses 2.5.1.2 and 2.6.1.2).
#[derive(Drop)]
pub enum CustomerChoice {
    Number(CustomerId),
    LastName(Text<16>),
}

/// A line of a new order: item, supplying warehouse and quantity.
#[derive(Clone, Copy)]
pub struct OrderedLine {
    pub item: ItemId,
    pub supply: WarehouseId,
    pub quantity: OrderedQuantity,
}

/// Fills a list's unused places: one of item 1, from warehouse 1.
impl Default for OrderedLine {
    fn default() -> OrderedLine {
        OrderedLine {
            item: ItemId::new(1).unwrap(),
            supply: WarehouseId::new(1).unwrap(),
            quantity: OrderedQuantity::new(1).unwrap(),
        }
    }
}

/// The lines of a new order: 5 to 15 (TPC-C clause 2.4.1.3), each within its limits.
#[derive(Drop)]
pub struct OrderedLines {
    lines: ArrayVec<OrderedLine, 15>,
}

impl Model for OrderedLines {
    ghost use Rattle.std.specs.Prelude.{All, List, length};
    ghost use Rattle.tpcc_rows.specs.Limits.{IsBetween};
    ghost use Rattle.requests.specs.Lines.{IsReadLine};
    ghost use Rattle.requests.specs.declared.request.OrderedLine.{OrderedLine};

    ghost Value = { List OrderedLine };

    ghost view = { λ x. x.lines.items };

    ghost invariant = { λ x. IsBetween 5 15 (length x.lines.items) × All IsReadLine x.lines.items };
}

impl OrderedLines {
    /// `None` unless they are 5 to 15.
    pub fn new(lines: &[OrderedLine]) -> Option<OrderedLines>
        ensures { result ≡ ordered_lines_of lines.now }
    {
        if lines.len() < 5 {
            return None;
        }
        if 15 < lines.len() {
            return None;
        }
        let mut places = ArrayVec::<OrderedLine, 15>::new();
        for line in lines {
            line_within(line);
            places.push(*line);
        }
        Some(OrderedLines { lines: places })
    }

    pub fn as_slice(&self) -> &[OrderedLine]
        ensures value { result.now ≡ self.now }
        ensures range { IsBetween 5 15 (length result.now) }
        ensures lines { All IsReadLine result.now }
    {
        self.lines.as_slice()
    }
}

/// An order of 5 to 15 items by a customer (TPC-C clause 2.4.1).
#[derive(Drop)]
pub struct NewOrder {
    pub warehouse: WarehouseId,
    pub district: DistrictId,
    pub customer: CustomerId,
    pub lines: OrderedLines,
}

/// A payment by a customer, who may be of another district or warehouse (TPC-C clause 2.5.1).
#[derive(Drop)]
pub struct Payment {
    pub warehouse: WarehouseId,
    pub district: DistrictId,
    pub customer_warehouse: WarehouseId,
    pub customer_district: DistrictId,
    pub customer: CustomerChoice,
    pub amount: PaymentAmount,
}

/// Asks for a customer's last order (TPC-C clause 2.6.1).
#[derive(Drop)]
pub struct OrderStatus {
    pub warehouse: WarehouseId,
    pub district: DistrictId,
    pub customer: CustomerChoice,
}

/// Delivers the oldest new order of each district of a warehouse (TPC-C clause 2.7.1).
#[derive(Clone, Copy)]
pub struct Delivery {
    pub warehouse: WarehouseId,
    pub carrier: Carrier,
}

/// Counts the items that a district sold lately and that are low in stock (TPC-C clause 2.8.1).
#[derive(Clone, Copy)]
pub struct StockLevel {
    pub warehouse: WarehouseId,
    pub district: DistrictId,
    pub threshold: Threshold,
}

/// A request: one of the five transactions.
#[derive(Drop)]
pub enum Request {
    NewOrder(NewOrder),
    Payment(Payment),
    OrderStatus(OrderStatus),
    Delivery(Delivery),
    StockLevel(StockLevel),
}

/// Which of the five transactions.
#[derive(Clone, Copy, PartialEq, Eq)]
pub enum RequestKind {
    NewOrder,
    Payment,
    OrderStatus,
    Delivery,
    StockLevel,
}

impl Request {
    pub fn kind(&self) -> RequestKind
        ensures { result ≡ kind_of self.now }
    {
        match self {
            Request::NewOrder(_) => RequestKind::NewOrder,
            Request::Payment(_) => RequestKind::Payment,
            Request::OrderStatus(_) => RequestKind::OrderStatus,
            Request::Delivery(_) => RequestKind::Delivery,
            Request::StockLevel(_) => RequestKind::StockLevel,
        }
    }
}

/// The replicas' decision on a batch: its execution stands, or it is executed again, serially.
#[derive(Clone, Copy, PartialEq, Eq)]
pub enum Verdict {
    Commit,
    Rerun,
}

/// Requests in order, each within its limits.
#[derive(Drop)]
pub struct Requests {
    requests: Vec<Request>,
}

impl Model for Requests {
    ghost use Rattle.std.specs.Prelude.{All, List};
    ghost use Rattle.requests.specs.Requests.{IsReadRequest};
    ghost use Rattle.requests.specs.declared.request.Request.{Request};

    ghost Value = { List Request };

    ghost view = { λ x. x.requests.items };

    ghost invariant = { λ x. All IsReadRequest x.requests.items };
}

impl Requests {
    /// No requests.
    pub fn new(alloc: Global) -> Requests
        ensures { result ≡ [] }
    {
        Requests {
            requests: Vec::new(alloc),
        }
    }

    /// Appends a request; on refusal nothing changes.
    pub fn push(&mut self, request: Request) -> Result<(), AllocError>
        ensures ok { OnOk result (self.new ≡ self.old ++ request ∷ []) }
        ensures err { OnErr result (self.new ≡ self.old) }
    {
        request_within(&request);
        self.requests.push(request)?;
        Ok(())
    }

    pub fn as_slice(&self) -> &[Request]
        ensures { result.now ≡ self.now }
    {
        self.requests.as_slice()
    }

    pub fn len(&self) -> usize
        ensures { result ≡ length self.now }
    {
        self.requests.len()
    }

    pub fn is_empty(&self) -> bool
        ensures { result ≡ (length self.now == 0) }
    {
        self.requests.is_empty()
    }

    /// A call proves that each request is within its limits.
    pub fn are_within(&self)
        ensures { All IsReadRequest self.now }
    {
        let _requests = &self.requests;
    }
}

/// Requests that are executed together, at one moment.
#[derive(Drop)]
pub struct Batch {
    pub moment: Moment,
    pub verdict: Verdict,
    pub requests: Requests,
}
