//! Numbers of lines and orders, for loops.
ghost use Rattle.std.specs.Prelude.{◌≡◌};
ghost use Rattle.tpcc_rows.specs.Limits.{IsBetween};

use tpcc_rows::id::{LineNumber, OrderId};

pub fn line_number(number: usize) -> LineNumber
    requires { IsBetween 1 15 number }
    ensures { result ≡ number }
{
    LineNumber::new(number as u8).unwrap()
}

pub fn order_id(number: u32) -> OrderId
    requires { IsBetween 1 9999999 number }
    ensures { result ≡ number }
{
    OrderId::new(number).unwrap()
}
