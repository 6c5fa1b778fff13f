//! The invariant of a desk's words and views, and its steps.
use crate::entry::View;
use crate::size::Size;
use atomic_table::{Join, Play, Split, TableRule};

/// Words and views show a world that some events lead to.
pub struct ShowsWorld;

impl TableRule<u8, View, Size> for ShowsWorld {
    ghost use Rattle.tickets.specs.Entries.{blanks};
    ghost use Rattle.tickets.specs.Rule.{FollowsRule};

    ghost holds = { λ size s. FollowsRule size s.words s.views };

    ghost first = { λ size. blanks size.places size.workers 0 size.workers };
}

/// A worker draws the next place, or past the end.
pub struct Draws;

impl Play<u8, View> for Draws {
    ghost use Rattle.tickets.specs.Rule.{Drew};

    ghost then = { Drew };
}

/// A worker raises the place that it drew last.
pub struct Raises;

impl Play<u8, View> for Raises {
    ghost use Rattle.tickets.specs.Rule.{Raised};

    ghost then = { Raised };
}

/// A worker looks at the stop flag.
pub struct Looks;

impl Play<u8, View> for Looks {
    ghost use Rattle.tickets.specs.Rule.{Looked};

    ghost then = { Looked };
}

/// The first entry goes to a seat of its own, and seats join.
pub struct Deals;

impl Split<View> for Deals {
    ghost use Rattle.std.specs.Prelude.{drop, take};

    ghost left = { drop 1 };

    ghost right = { take 1 };
}

impl Join<View> for Deals {
    ghost use Rattle.std.specs.Prelude.{◌++◌, []};

    ghost both = { λ v w. v ++ w };

    ghost spent = { [] };
}
