//! A law of merged deltas, stated as the contract of an empty function.
ghost use Rattle.gather.specs.Merged.{OrderIsFree};

/// Deltas without a common key can be merged in any order.
pub fn any_order()
    ensures { OrderIsFree }
{}
