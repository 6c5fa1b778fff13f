//! The numbers that only requests have, each with its limits.
ghost use Rattle.std.specs.Prelude.{◌≡◌};
ghost use Rattle.tpcc_rows.specs.Limits.{IsBetween, between};

use std::marker::Model;

/// The quantity of a new order's line: 1 to 10 (TPC-C clause 2.4.1.5).
#[derive(Clone, Copy, PartialEq, Eq)]
pub struct OrderedQuantity {
    value: u8,
}

impl Model for OrderedQuantity {
    ghost use Rattle.std.specs.Prelude.{ℕ};
    ghost use Rattle.tpcc_rows.specs.Limits.{IsBetween};

    ghost Value = { ℕ };

    ghost view = { λ x. x.value };

    ghost invariant = { λ x. IsBetween 1 10 x.value };

    ghost inverse = { λ n. record { value = n } };
}

impl OrderedQuantity {
    /// `None` outside the limits.
    pub fn new(value: u8) -> Option<OrderedQuantity>
        ensures { result ≡ between 1 10 value }
    {
        if 1 <= value && value <= 10 {
            Some(OrderedQuantity { value })
        } else {
            None
        }
    }

    pub fn value(self) -> u8
        ensures value { result ≡ self }
        ensures range { IsBetween 1 10 result }
    {
        self.value
    }
}

/// The amount of a payment: 1.00 to 5,000.00, in cents (TPC-C clause 2.5.1.3).
#[derive(Clone, Copy, PartialEq, Eq)]
pub struct PaymentAmount {
    cents: u32,
}

impl Model for PaymentAmount {
    ghost use Rattle.std.specs.Prelude.{ℕ};
    ghost use Rattle.tpcc_rows.specs.Limits.{IsBetween};

    ghost Value = { ℕ };

    ghost view = { λ x. x.cents };

    ghost invariant = { λ x. IsBetween 100 500000 x.cents };

    ghost inverse = { λ n. record { cents = n } };
}

impl PaymentAmount {
    /// `None` outside the limits.
    pub fn new(cents: u32) -> Option<PaymentAmount>
        ensures { result ≡ between 100 500000 cents }
    {
        if 100 <= cents && cents <= 500_000 {
            Some(PaymentAmount { cents })
        } else {
            None
        }
    }

    pub fn cents(self) -> u32
        ensures value { result ≡ self }
        ensures range { IsBetween 100 500000 result }
    {
        self.cents
    }
}

/// The threshold below which a stock is low: 10 to 20 (TPC-C clause 2.8.1.2).
#[derive(Clone, Copy, PartialEq, Eq)]
pub struct Threshold {
    value: u8,
}

impl Model for Threshold {
    ghost use Rattle.std.specs.Prelude.{ℕ};
    ghost use Rattle.tpcc_rows.specs.Limits.{IsBetween};

    ghost Value = { ℕ };

    ghost view = { λ x. x.value };

    ghost invariant = { λ x. IsBetween 10 20 x.value };

    ghost inverse = { λ n. record { value = n } };
}

impl Threshold {
    /// `None` outside the limits.
    pub fn new(value: u8) -> Option<Threshold>
        ensures { result ≡ between 10 20 value }
    {
        if 10 <= value && value <= 20 {
            Some(Threshold { value })
        } else {
            None
        }
    }

    pub fn value(self) -> u8
        ensures value { result ≡ self }
        ensures range { IsBetween 10 20 result }
    {
        self.value
    }
}
