//! The footprints that the requests of a batch declared.
ghost use Rattle.std.specs.Prelude.{◌≡◌, None, get_or, option_copied};
ghost use Rattle.executor.specs.Told.{told_by};

use profiles::Declaration;
use tpcc_rows::footprint::Footprint;

/// Those of all requests, or those of the deliveries alone, as no other request can stray in order.
#[derive(Clone, Copy)]
pub(crate) enum Footprints<'a> {
    All(&'a [Footprint]),
    Deliveries(&'a [Declaration]),
}

impl<'a> Footprints<'a> {
    /// What the request at this place declared; `None` if it can't stray.
    pub fn at(self, place: usize) -> Option<&'a Footprint>
        ensures { option_copied result ≡ get_or (told_by self.entry) place None }
    {
        match self {
            Footprints::All(footprints) => footprints.get(place),
            Footprints::Deliveries(told) => told.get(place)?.footprint(),
        }
    }
}
