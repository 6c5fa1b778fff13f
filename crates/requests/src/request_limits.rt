//! The limits of a request, which its parts' types enforce: a call proves them.
ghost use Rattle.requests.specs.Lines.{IsReadLine};
ghost use Rattle.requests.specs.Requests.{IsReadChoice, IsReadDelivery, IsReadNewOrder, IsReadOrderStatus, IsReadPayment, IsReadRequest};
ghost use Rattle.requests.specs.Requests.{IsReadStockLevel};

use crate::request::{
    CustomerChoice, Delivery, NewOrder, OrderStatus, OrderedLine, Payment, Request, StockLevel,
};

pub(crate) fn line_within(line: &OrderedLine)
    ensures { IsReadLine line.now }
{
    line.item.number();
    line.supply.number();
    line.quantity.value();
}

fn choice_within(choice: &CustomerChoice)
    ensures { IsReadChoice choice.now }
{
    match choice {
        CustomerChoice::Number(customer) => {
            customer.number();
        }
        CustomerChoice::LastName(last) => {
            last.as_bytes();
        }
    }
}

fn new_order_within(order: &NewOrder)
    ensures { IsReadNewOrder order.now }
{
    order.warehouse.number();
    order.district.number();
    order.customer.number();
    order.lines.as_slice();
}

fn payment_within(payment: &Payment)
    ensures { IsReadPayment payment.now }
{
    payment.warehouse.number();
    payment.district.number();
    payment.customer_warehouse.number();
    payment.customer_district.number();
    choice_within(&payment.customer);
    payment.amount.cents();
}

fn order_status_within(asked: &OrderStatus)
    ensures { IsReadOrderStatus asked.now }
{
    asked.warehouse.number();
    asked.district.number();
    choice_within(&asked.customer);
}

fn delivery_within(delivery: &Delivery)
    ensures { IsReadDelivery delivery.now }
{
    delivery.warehouse.number();
    delivery.carrier.number();
}

fn stock_level_within(asked: &StockLevel)
    ensures { IsReadStockLevel asked.now }
{
    asked.warehouse.number();
    asked.district.number();
    asked.threshold.value();
}

/// The request is within its limits.
pub(crate) fn request_within(request: &Request)
    ensures { IsReadRequest request.now }
{
    match request {
        Request::NewOrder(order) => new_order_within(order),
        Request::Payment(payment) => payment_within(payment),
        Request::OrderStatus(asked) => order_status_within(asked),
        Request::Delivery(delivery) => delivery_within(delivery),
        Request::StockLevel(asked) => stock_level_within(asked),
    }
}
