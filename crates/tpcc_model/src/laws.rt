//! Laws of the definitions, as contracts of empty functions.
ghost use Rattle.tpcc_model.specs.Laws.{LinesAreCounted, LowItemsAreRecent};

/// In a sound database a stock level counts the low items of the last twenty orders' lines.
pub fn recent_items()
    ensures { LowItemsAreRecent }
{}

/// In a sound database the lines 1 to O_OL_CNT, which an order status shows and a delivery sums and dates, are all lines of the
/// order.
pub fn order_lines()
    ensures { LinesAreCounted }
{}
