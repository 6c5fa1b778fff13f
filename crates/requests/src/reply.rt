//! Replies.
ghost use Rattle.std.specs.Prelude.{◌≡◌, ◌<◌, ◌≤◌, [], ◌∷◌, ◌++◌, IfOk, OnErr, OnOk, length};

use crate::request::RequestKind;
use arrayvec::ArrayVec;
use std::alloc::Global;
use std::marker::Model;
use tpcc_rows::id::{CustomerId, ItemId, OrderId, WarehouseId};
use tpcc_rows::memory::Memory;
use tpcc_rows::number::{Amount, Carrier, Cents, LineQuantity, Moment, StockQuantity};
use tpcc_rows::text::Text;

/// Why a request was refused, without any change.
#[derive(Clone, Copy, PartialEq, Eq)]
pub enum RequestRefusal {
    /// A new order names an unknown item (TPC-C clause 2.4.2.3).
    ItemNotValid,
    /// A warehouse, district, customer or stock is unknown.
    UnknownKey,
    /// A column would leave its limits.
    LimitReached,
}

/// `Brand` if the item's data and the stock's data both say so, else `Generic` (TPC-C clause 2.4.2.2).
#[derive(Clone, Copy, PartialEq, Eq)]
pub enum Brand {
    Brand,
    Generic,
}

/// The reply for a line of a new order: the stock's new quantity, and the line's amount.
#[derive(Clone, Copy)]
pub struct LineReply {
    pub stock: StockQuantity,
    pub brand: Brand,
    pub amount: Amount,
}

/// Fills a list's unused places.
impl Default for LineReply {
    fn default() -> LineReply {
        LineReply {
            stock: StockQuantity::new(0).unwrap(),
            brand: Brand::Generic,
            amount: Amount::new(0).unwrap(),
        }
    }
}

/// The replies for the lines of a new order: at most 15.
#[derive(Drop)]
pub struct LineReplies {
    lines: ArrayVec<LineReply, 15>,
}

impl Model for LineReplies {
    ghost use Rattle.std.specs.Prelude.{List, length, ◌≤◌};
    ghost use Rattle.requests.specs.declared.reply.LineReply.{LineReply};

    ghost Value = { List LineReply };

    ghost view = { λ x. x.lines.items };

    ghost invariant = { λ x. length x.lines.items ≤ 15 };
}

impl LineReplies {
    /// No lines.
    pub fn new() -> LineReplies
        ensures { result ≡ [] }
    {
        LineReplies {
            lines: ArrayVec::new(),
        }
    }

    /// Appends a line.
    pub fn push(&mut self, line: LineReply)
        requires { length self.old < 15 }
        ensures { self.new ≡ self.old ++ line ∷ [] }
    {
        self.lines.push(line);
    }

    pub fn as_slice(&self) -> &[LineReply]
        ensures value { result.now ≡ self.now }
        ensures fits { length result.now ≤ 15 }
    {
        self.lines.as_slice()
    }
}

/// The reply to a new order.
#[derive(Drop)]
pub struct NewOrderReply {
    pub order: OrderId,
    pub total: Cents,
    pub lines: LineReplies,
}

/// A customer's credit, C_CREDIT, and the part of C_DATA shown if it is bad (TPC-C clause 2.5.3.3).
#[derive(Drop)]
pub enum ShownCredit {
    Good,
    Bad { data: Text<200> },
}

/// The reply to a payment.
#[derive(Drop)]
pub struct PaymentReply {
    pub customer: CustomerId,
    pub balance: Cents,
    pub credit: ShownCredit,
}

/// A line of a shown order.
#[derive(Clone, Copy)]
pub struct ShownLine {
    pub item: ItemId,
    pub supply: WarehouseId,
    pub quantity: LineQuantity,
    pub amount: Amount,
    pub delivery: Option<Moment>,
}

/// The lines of a shown order: at most 15. They lie on the heap, since few replies show an order.
#[derive(Drop)]
pub struct ShownLines {
    lines: Vec<ShownLine>,
}

impl Model for ShownLines {
    ghost use Rattle.std.specs.Prelude.{List, length, ◌≤◌};
    ghost use Rattle.requests.specs.declared.reply.ShownLine.{ShownLine};

    ghost Value = { List ShownLine };

    ghost view = { λ x. x.lines.items };

    ghost invariant = { λ x. length x.lines.items ≤ 15 };
}

impl ShownLines {
    /// No lines, with room for this number of them.
    pub fn with_capacity(alloc: Global, count: usize) -> Result<ShownLines, Memory>
        ensures { IfOk result (λ lines. lines ≡ []) }
    {
        let lines = Vec::with_capacity(alloc, count)?;
        Ok(ShownLines { lines })
    }

    /// Appends a line. If memory is refused, the lines stay as they are.
    pub fn push(&mut self, line: ShownLine) -> Result<(), Memory>
        requires { length self.old < 15 }
        ensures ok { OnOk result (self.new ≡ self.old ++ line ∷ []) }
        ensures err { OnErr result (self.new ≡ self.old) }
    {
        // The read lets the proof of the call know the type of this field.
        let _delivery = line.delivery;
        self.lines.push(line)?;
        Ok(())
    }

    pub fn as_slice(&self) -> &[ShownLine]
        ensures value { result.now ≡ self.now }
        ensures fits { length result.now ≤ 15 }
    {
        self.lines.as_slice()
    }
}

/// A customer's last order. Without a carrier it isn't delivered yet.
#[derive(Drop)]
pub struct ShownOrder {
    pub order: OrderId,
    pub entry: Moment,
    pub carrier: Option<Carrier>,
    pub lines: ShownLines,
}

/// The reply to an order status: the customer's last order, if there is one.
#[derive(Drop)]
pub struct OrderStatusReply {
    pub customer: CustomerId,
    pub first: Text<16>,
    pub middle: Text<2>,
    pub last: Text<16>,
    pub balance: Cents,
    pub order: Option<ShownOrder>,
}

/// The reply to a delivery: for each district from the first, the delivered order, if any.
#[derive(Clone, Copy)]
pub struct DeliveryReply {
    pub orders: [Option<OrderId>; 10],
}

/// The reply to a stock level: the number of low items.
#[derive(Clone, Copy)]
pub struct StockLevelReply {
    pub low_stock: u32,
}

/// The reply to a request.
#[derive(Drop)]
pub enum Reply {
    NewOrder(NewOrderReply),
    Payment(PaymentReply),
    OrderStatus(OrderStatusReply),
    Delivery(DeliveryReply),
    StockLevel(StockLevelReply),
    Refused {
        kind: RequestKind,
        refusal: RequestRefusal,
    },
}
