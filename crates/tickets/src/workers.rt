//! The number of workers.
ghost use Rattle.std.specs.Prelude.{◌≡◌};
ghost use Rattle.tickets.specs.Crews.{IsCrew, crew_of};

use crate::size::MOST_WORKERS;
use std::marker::Model;

/// The number of workers of a level: 1 to 64.
#[derive(Clone, Copy, Debug, PartialEq, Eq)]
pub struct Workers {
    count: usize,
}

impl Model for Workers {
    ghost use Rattle.std.specs.Prelude.{ℕ};
    ghost use Rattle.tickets.specs.Crews.{IsCrew};

    ghost Value = { ℕ };

    ghost view = { λ x. x.count };

    ghost invariant = { λ x. IsCrew x.count };

    ghost inverse = { λ n. record { count = n } };
}

impl Workers {
    /// `None` outside the limits.
    pub fn new(count: usize) -> Option<Workers>
        ensures { result ≡ crew_of count }
    {
        if 1 <= count && count <= MOST_WORKERS {
            Some(Workers { count })
        } else {
            None
        }
    }

    pub fn count(self) -> usize
        ensures value { result ≡ self }
        ensures range { IsCrew result }
    {
        self.count
    }
}
