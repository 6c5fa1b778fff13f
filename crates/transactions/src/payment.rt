//! Payment (TPC-C clause 2.5): the cards of its keys are found, then their rows, then the new rows are made. What can
//! fail for want of memory comes last.
ghost use Rattle.std.specs.Prelude.{◌≡◌, ◌++◌, IfOk, OnOk};
ghost use Rattle.std.specs.FinMap as map;
ghost use Rattle.std.specs.Option.{option_map};
ghost use Rattle.requests.specs.declared.request.RequestKind.TheVariants as kind;
ghost use Rattle.tpcc_model.specs.Payments.{field, found_cards, found_rows, history_of, paid_customer, paid_data, paid_district, paid_rows, paid_warehouse, payment, payment_changes, payment_note, payment_reply};
ghost use Rattle.tpcc_model.specs.Staging.{known};
ghost use Rattle.tpcc_model.specs.Steps.{payment_outcome};
ghost use Rattle.tpcc_model.specs.Touches.{paid_touch, payment_touch};
ghost use Rattle.tpcc_rows.specs.RowMap.{Rows};
ghost use Rattle.tpcc_rows.specs.Texts.{IsPrintable, clip};
ghost use Rattle.transactions.specs.Faults.{AnswersBy};
ghost use Rattle.transactions.specs.InPlace.{AnswersInPlace, whole};
ghost use Rattle.transactions.specs.OnViews.{AnswersOn, ExecutesOn};
ghost use Rattle.transactions.specs.Outcomes.{concluded};
ghost use Rattle.transactions.specs.PaymentParts.{paid_of, payment_cards_of, payment_rows_of};
ghost use Rattle.worker_rows.specs.Views.{covers};
ghost use Rattle.worker_rows.specs.Writers.{KeepsPoints};

use crate::fault::{Fault, limited};
use crate::lent::{self, Lent};
use catalog::{Catalog, Credit, CustomerCard, DistrictCard, WarehouseCard};
use requests::number::PaymentAmount;
use requests::reply::{PaymentReply, Reply, RequestRefusal, ShownCredit};
use requests::request::Payment;
use row_store::PointedStore;
use std::alloc::Global;
use tpcc_model::choice::chosen_customer;
use tpcc_rows::delta::Delta;
use tpcc_rows::granule::Granule;
use tpcc_rows::id::{CustomerId, RequestNumber};
use tpcc_rows::key::RowKey;
use tpcc_rows::memory::Memory;
use tpcc_rows::number::{Amount, Moment};
use tpcc_rows::row::{CustomerRow, DistrictYtdRow, HistoryRow, WarehouseRow};
use tpcc_rows::shared_text::SharedText;
use tpcc_rows::text::Text;
use worker_rows::{
    KeyedRows, RowView, RowWriter, Whole, customer_row, district_ytd_row, warehouse_row,
};

/// The customer who pays, and the cards of a payment's keys.
#[derive(Drop)]
pub(crate) struct PaymentCards<'a> {
    pub customer_id: CustomerId,
    pub warehouse: &'a WarehouseCard,
    pub district: &'a DistrictCard,
    pub customer: &'a CustomerCard,
}

/// The rows of a payment's keys.
#[derive(Drop)]
pub(crate) struct PaymentRows<'a> {
    pub warehouse: &'a WarehouseRow,
    pub district: &'a DistrictYtdRow,
    pub customer: &'a CustomerRow,
}

/// What a payment makes: the new rows, and who paid.
#[derive(Drop)]
pub(crate) struct NewRows {
    pub warehouse: WarehouseRow,
    pub district: DistrictYtdRow,
    pub customer: CustomerRow,
    pub history: HistoryRow,
    pub customer_id: CustomerId,
    pub credit: Credit,
}

/// Refused where a limit is passed, as the rows below.
#[tactic(auto, unfolding(tpcc_model::specs::Payments::paid_warehouse))]
fn paid_warehouse(old: &WarehouseRow, amount: u32) -> Result<WarehouseRow, RequestRefusal>
    ensures { result ≡ paid_warehouse old.now amount }
{
    let ytd = limited(old.ytd.raised(amount))?;
    Ok(WarehouseRow { ytd })
}

#[tactic(auto, unfolding(tpcc_model::specs::Payments::paid_district))]
fn paid_district(old: &DistrictYtdRow, amount: u32) -> Result<DistrictYtdRow, RequestRefusal>
    ensures { result ≡ paid_district old.now amount }
{
    let ytd = limited(old.ytd.raised(amount))?;
    Ok(DistrictYtdRow { ytd })
}

#[tactic(auto, using(tpcc_rows::proofs::Clips::then_clipped))]
fn push_field(text: &mut Text<500>, number: u32, end: u8)
    requires { IsPrintable end }
    ensures { text.new ≡ clip 500 (text.old ++ field number end) }
{
    text.push_number(number);
    text.push_clipped(&[end]);
}

#[tactic(auto, unfolding(tpcc_model::specs::Payments::payment_note))]
fn payment_note(p: &Payment, customer: CustomerId) -> Text<500>
    ensures { result ≡ clip 500 (payment_note p.now customer) }
{
    let mut text = Text::new();
    push_field(&mut text, u32::from(customer.number()), b' ');
    push_field(&mut text, u32::from(p.customer_district.number()), b' ');
    push_field(&mut text, u32::from(p.customer_warehouse.number()), b' ');
    push_field(&mut text, u32::from(p.district.number()), b' ');
    push_field(&mut text, u32::from(p.warehouse.number()), b' ');
    push_field(&mut text, p.amount.cents(), b'|');
    text
}

/// C_DATA of a customer of bad credit.
fn noted(p: &Payment, customer: CustomerId, old: &SharedText<500>) -> Text<500>
    ensures { result ≡ clip 500 (payment_note p.now customer ++ old.now) }
{
    let mut text = payment_note(p, customer);
    text.push_clipped(old.as_bytes());
    text
}

#[tactic(auto, unfolding(tpcc_model::specs::Payments::paid_data))]
fn paid_data(
    alloc: Global,
    p: &Payment,
    customer: CustomerId,
    credit: Credit,
    old: &SharedText<500>,
) -> Result<SharedText<500>, Memory>
    ensures { IfOk result (λ text. text ≡ paid_data p.now customer credit old.now) }
{
    match credit {
        Credit::Good => old.copied(),
        Credit::Bad => {
            let text = noted(p, customer, old);
            SharedText::new(alloc, &text)
        }
    }
}

#[tactic(auto, unfolding(tpcc_model::specs::Payments::paid_customer))]
fn paid_customer(
    alloc: Global,
    p: &Payment,
    customer: CustomerId,
    credit: Credit,
    old: &CustomerRow,
) -> Result<CustomerRow, Fault>
    ensures { AnswersBy (λ row. row) (paid_customer p.now customer credit old.now) result }
{
    let amount = p.amount.cents();
    let balance = limited(old.balance.lowered(amount))?;
    let ytd_payment = limited(old.ytd_payment.raised(amount))?;
    let payment_count = limited(old.payment_count.raised(1))?;
    let data = paid_data(alloc, p, customer, credit, &old.data)?;
    Ok(CustomerRow {
        balance,
        ytd_payment,
        payment_count,
        delivery_count: old.delivery_count,
        data,
    })
}

// H_AMOUNT, whose limits are wider than those of a payment's amount.
fn amount_of(amount: PaymentAmount) -> Amount
    ensures { result ≡ amount }
{
    Amount::new(amount.cents()).unwrap()
}

#[tactic(auto, unfolding(tpcc_model::specs::Payments::history_of))]
fn history_of(
    p: &Payment,
    customer: CustomerId,
    moment: Moment,
    warehouse_name: &Text<10>,
    district_name: &Text<10>,
) -> HistoryRow
    ensures { result ≡ history_of p.now customer moment warehouse_name.now district_name.now }
{
    let mut text = Text::new();
    text.push_clipped(warehouse_name.as_bytes());
    text.push_clipped(b"    ");
    text.push_clipped(district_name.as_bytes());
    HistoryRow {
        customer,
        customer_district: p.customer_district,
        customer_warehouse: p.customer_warehouse,
        district: p.district,
        warehouse: p.warehouse,
        date: moment,
        amount: amount_of(p.amount),
        data: text,
    }
}

/// Whether the payment's rows may be written.
#[tactic(auto, using(crate::proofs::LentTouches::covers_paid))]
fn may_pay<V: RowView>(view: &V, p: &Payment, customer: CustomerId) -> bool
    ensures { result ≡ covers (V.sees view.now) (paid_touch p.now customer) }
{
    let warehouse = Granule::Warehouse {
        warehouse: p.warehouse,
    };
    let district = Granule::DistrictYtd {
        warehouse: p.warehouse,
        district: p.district,
    };
    let customer = Granule::Customer {
        warehouse: p.customer_warehouse,
        district: p.customer_district,
        customer,
    };
    lent::may_write(view, &warehouse)
        && lent::may_write(view, &district)
        && lent::may_write(view, &customer)
}

/// The customer who pays, and the cards of the payment's keys; None where one is unknown.
#[tactic(auto, unfolding(tpcc_model::specs::Payments::found_cards))]
fn found_cards<'a>(catalog: &'a Catalog, p: &Payment) -> Option<PaymentCards<'a>>
    ensures { known (option_map payment_cards_of result) ≡ found_cards catalog.now p.now }
{
    let warehouse = catalog.warehouse(p.warehouse)?;
    let district = catalog.district(p.warehouse, p.district)?;
    let (of_warehouse, of_district) = (p.customer_warehouse, p.customer_district);
    let customer_id = chosen_customer(catalog, of_warehouse, of_district, &p.customer)?;
    let customer = catalog.customer(of_warehouse, of_district, customer_id)?;
    Some(PaymentCards {
        customer_id,
        warehouse,
        district,
        customer,
    })
}

/// The rows of the payment's keys; None where one is unknown.
#[tactic(auto, unfolding(tpcc_model::specs::Payments::found_rows))]
fn found_rows<'a, R: KeyedRows>(
    rows: &'a R,
    p: &Payment,
    customer: CustomerId,
) -> Option<PaymentRows<'a>>
    ensures { known (option_map payment_rows_of result) ≡ found_rows (R.rows rows.now) p.now customer }
{
    let (of_warehouse, of_district) = (p.customer_warehouse, p.customer_district);
    Some(PaymentRows {
        warehouse: warehouse_row(rows, p.warehouse)?,
        district: district_ytd_row(rows, p.warehouse, p.district)?,
        customer: customer_row(rows, of_warehouse, of_district, customer)?,
    })
}

/// The new rows.
#[tactic(auto, unfolding(tpcc_model::specs::Payments::paid_rows))]
fn paid_rows(
    alloc: Global,
    p: &Payment,
    moment: Moment,
    cards: &PaymentCards<'_>,
    rows: &PaymentRows<'_>,
) -> Result<NewRows, Fault>
    ensures { AnswersBy paid_of (paid_rows p.now moment (payment_cards_of cards.now) (payment_rows_of rows.now)) result }
{
    let (customer_id, credit) = (cards.customer_id, cards.customer.credit);
    let warehouse = paid_warehouse(rows.warehouse, p.amount.cents())?;
    let district = paid_district(rows.district, p.amount.cents())?;
    let customer = paid_customer(alloc, p, customer_id, credit, rows.customer)?;
    let (warehouse_name, district_name) = (&cards.warehouse.name, &cards.district.name);
    Ok(NewRows {
        warehouse,
        district,
        customer,
        history: history_of(p, customer_id, moment, warehouse_name, district_name),
        customer_id,
        credit,
    })
}

/// The new rows.
#[tactic(auto, unfolding(tpcc_model::specs::Touches::payment_touch, tpcc_model::specs::Payments::payment))]
fn payment<V: RowView>(
    alloc: Global,
    catalog: &Catalog,
    p: &Payment,
    moment: Moment,
    view: &V,
) -> Result<NewRows, Fault>
    ensures { AnswersOn paid_of (λ db. payment_touch db p.now) (λ db. payment db p.now moment) catalog.now (V.sees view.now) result }
{
    let Some(cards) = found_cards(catalog, p) else {
        return Err(Fault::Refused(RequestRefusal::UnknownKey));
    };
    if !may_pay(view, p, cards.customer_id) {
        return Err(Fault::Strayed);
    }
    let lent_rows = Lent { view };
    let Some(rows) = found_rows(&lent_rows, p, cards.customer_id) else {
        return Err(Fault::Refused(RequestRefusal::UnknownKey));
    };
    let paid = paid_rows(alloc, p, moment, &cards, &rows)?;
    Ok(paid)
}

#[tactic(auto, unfolding(tpcc_model::specs::Payments::payment_reply))]
fn payment_reply(rows: &NewRows) -> PaymentReply
    ensures { result ≡ payment_reply (paid_of rows.now) }
{
    PaymentReply {
        customer: rows.customer_id,
        balance: rows.customer.balance,
        credit: match rows.credit {
            Credit::Good => ShownCredit::Good,
            Credit::Bad => ShownCredit::Bad {
                data: Text::from_start(rows.customer.data.as_bytes()),
            },
        },
    }
}

/// Writes the new rows in their places.
#[tactic(auto, unfolding(tpcc_model::specs::Payments::payment_changes))]
fn write<W: RowWriter>(
    p: &Payment,
    number: RequestNumber,
    rows: NewRows,
    writer: &mut W,
) -> Result<(), Memory>
    ensures made { (before : Rows) → W.Stands before map.empty writer.old →
        OnOk result (W.Stands before (payment_changes p.now number (paid_of rows)) writer.new) }
    ensures kept { (first : W) → W.Keeps first writer.old → W.Keeps first writer.new }
{
    let warehouse = RowKey::Warehouse {
        warehouse: p.warehouse,
    };
    writer.put(warehouse, rows.warehouse)?;
    let district = RowKey::DistrictYtd {
        warehouse: p.warehouse,
        district: p.district,
    };
    writer.put(district, rows.district)?;
    let customer = RowKey::Customer {
        warehouse: p.customer_warehouse,
        district: p.customer_district,
        customer: rows.customer_id,
    };
    writer.put(customer, rows.customer)?;
    writer.put_new(RowKey::History { number }, rows.history)?;
    Ok(())
}

/// The reply to a payment, and the rows that it changes.
pub(crate) fn execute<V: RowView>(
    alloc: Global,
    catalog: &Catalog,
    p: &Payment,
    number: RequestNumber,
    moment: Moment,
    view: &V,
) -> Result<(Reply, Delta), Fault>
    ensures { ExecutesOn (λ db. payment_touch db p.now) (λ db. payment_outcome p.now number (payment db p.now moment)) catalog.now (V.sees view.now)
        (concluded kind.Payment result) }
{
    let rows = payment(alloc, catalog, p, moment, view)?;
    let reply = payment_reply(&rows);
    let mut changes = Delta::with_room(alloc, 4)?;
    write(p, number, rows, &mut changes)?;
    Ok((Reply::Payment(reply), changes))
}

/// The reply to a payment on all rows of a store, whose changes are made in their places.
pub(crate) fn execute_in_place(
    alloc: Global,
    catalog: &Catalog,
    p: &Payment,
    number: RequestNumber,
    moment: Moment,
    store: &mut PointedStore,
) -> Result<Reply, Fault>
    ensures answer { AnswersInPlace (λ answer. ExecutesOn (λ db. payment_touch db p.now) (λ db. payment_outcome p.now number (payment db p.now moment))
        catalog.now (whole store.old.rows) (concluded kind.Payment answer)) store.old.rows store.new.rows result }
    ensures kept { KeepsPoints store.old store.new }
{
    let rows = payment(alloc, catalog, p, moment, &Whole { store: &*store })?;
    store.prefetch_list(&RowKey::History { number });
    let reply = payment_reply(&rows);
    write(p, number, rows, store)?;
    Ok(Reply::Payment(reply))
}
