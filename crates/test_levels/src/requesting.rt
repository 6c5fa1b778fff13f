//! Requests that look random, for a database made with three customers in each district and five items.
use crate::dice::Dice;
use arrayvec::ArrayVec;
use requests::{
    CustomerChoice, Delivery, NewOrder, OrderStatus, OrderedLine, OrderedLines, OrderedQuantity,
    Payment, PaymentAmount, Request, StockLevel, Threshold,
};
use tpcc_rows::id::{CustomerId, DistrictId, ItemId, WarehouseId};
use tpcc_rows::number::Carrier;
use tpcc_rows::text::Text;

/// The warehouses that a request may go to: those from the first number to the last.
#[derive(Clone, Copy)]
pub struct Warehouses {
    pub first: u8,
    pub last: u8,
}

impl Warehouses {
    fn draw(self, dice: &mut Dice) -> Option<WarehouseId> {
        WarehouseId::new(dice.between(self.first, self.last))
    }
}

fn any_district(dice: &mut Dice) -> Option<DistrictId> {
    DistrictId::new(dice.between(1, 10))
}

/// A customer's number; now and then nobody's.
fn customer_number(dice: &mut Dice) -> u8 {
    if dice.comes(3) { 4 } else { dice.between(1, 3) }
}

fn any_customer(dice: &mut Dice) -> Option<CustomerId> {
    CustomerId::new(u16::from(customer_number(dice)))
}

/// A customer by number or by last name.
fn customer_choice(dice: &mut Dice) -> Option<CustomerChoice> {
    if dice.comes(50) {
        return Some(CustomerChoice::Number(any_customer(dice)?));
    }
    let mut name = Text::parse(b"NAME")?;
    name.push_number(u32::from(customer_number(dice)));
    Some(CustomerChoice::LastName(name))
}

/// An item's number; now and then one that isn't there, so that the order is rolled back.
fn any_item(dice: &mut Dice) -> Option<ItemId> {
    if dice.comes(1) {
        ItemId::new(999_999)
    } else {
        ItemId::new(u32::from(dice.between(1, 5)))
    }
}

/// A line of an order at a warehouse, which now and then another one supplies.
fn line(dice: &mut Dice, warehouses: Warehouses, home: WarehouseId) -> Option<OrderedLine> {
    let supply = if dice.comes(10) {
        warehouses.draw(dice)?
    } else {
        home
    };
    Some(OrderedLine {
        item: any_item(dice)?,
        supply,
        quantity: OrderedQuantity::new(dice.between(1, 10))?,
    })
}

fn lines(dice: &mut Dice, warehouses: Warehouses, home: WarehouseId) -> Option<OrderedLines> {
    let mut lines = ArrayVec::<OrderedLine, 15>::new();
    for _ in 0..dice.between(5, 15) {
        lines.try_push(line(dice, warehouses, home)?).ok()?;
    }
    OrderedLines::new(lines.as_slice())
}

pub fn new_order(dice: &mut Dice, warehouses: Warehouses) -> Option<Request> {
    let warehouse = warehouses.draw(dice)?;
    Some(Request::NewOrder(NewOrder {
        warehouse,
        district: any_district(dice)?,
        customer: any_customer(dice)?,
        lines: lines(dice, warehouses, warehouse)?,
    }))
}

/// A payment, now and then by a customer of another district or warehouse.
pub fn payment(dice: &mut Dice, warehouses: Warehouses) -> Option<Request> {
    let (warehouse, district) = (warehouses.draw(dice)?, any_district(dice)?);
    let (customer_warehouse, customer_district) = if dice.comes(20) {
        (warehouses.draw(dice)?, any_district(dice)?)
    } else {
        (warehouse, district)
    };
    Some(Request::Payment(Payment {
        warehouse,
        district,
        customer_warehouse,
        customer_district,
        customer: customer_choice(dice)?,
        amount: PaymentAmount::new(dice.cents())?,
    }))
}

pub fn order_status(dice: &mut Dice, warehouses: Warehouses) -> Option<Request> {
    Some(Request::OrderStatus(OrderStatus {
        warehouse: warehouses.draw(dice)?,
        district: any_district(dice)?,
        customer: customer_choice(dice)?,
    }))
}

fn delivery(dice: &mut Dice, warehouses: Warehouses) -> Option<Request> {
    Some(Request::Delivery(Delivery {
        warehouse: warehouses.draw(dice)?,
        carrier: Carrier::new(dice.between(1, 10))?,
    }))
}

fn stock_level(dice: &mut Dice, warehouses: Warehouses) -> Option<Request> {
    Some(Request::StockLevel(StockLevel {
        warehouse: warehouses.draw(dice)?,
        district: any_district(dice)?,
        threshold: Threshold::new(dice.between(10, 20))?,
    }))
}

/// A request of any kind. Deliveries are rare, since one strays if it delivers an order of its own batch.
pub fn request(dice: &mut Dice, warehouses: Warehouses) -> Option<Request> {
    match dice.between(1, 20) {
        1..10 => new_order(dice, warehouses),
        10..16 => payment(dice, warehouses),
        16..18 => order_status(dice, warehouses),
        18..19 => delivery(dice, warehouses),
        _ => stock_level(dice, warehouses),
    }
}
