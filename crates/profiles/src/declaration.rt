//! What a request declared, if it was asked.
ghost use Rattle.std.specs.Prelude.{◌≡◌, IfOk, None, Some, option_copied};

use std::alloc::Global;
use std::marker::Model;
use tpcc_rows::footprint::Footprint;
use tpcc_rows::memory::Memory;

/// The footprint that a request declared, or nothing, if it wasn't asked. A footprint is large and lies on the heap, since of a batch
/// that is executed in order only the deliveries are asked.
#[derive(Drop)]
pub struct Declaration {
    footprint: Option<Box<Footprint>>,
}

impl Model for Declaration {
    ghost use Rattle.std.specs.Prelude.{Option};
    ghost use Rattle.std.specs.Option.{option_map};
    ghost use Rattle.serializability.specs.Footprints.{Footprint};
    ghost use Rattle.tpcc_rows.specs.declared.granule.Granule.{Granule};

    ghost Value = { Option (Footprint Granule) };

    ghost view = { λ d. option_map (λ footprint. footprint.value) d.footprint };
}

impl Declaration {
    /// Nothing.
    pub fn none() -> Declaration
        ensures { result ≡ None }
    {
        Declaration { footprint: None }
    }

    /// This footprint.
    pub fn of(alloc: Global, footprint: Footprint) -> Result<Declaration, Memory>
        ensures { IfOk result (λ declaration. declaration ≡ Some footprint) }
    {
        let footprint = Some(Box::new(alloc, footprint)?);
        Ok(Declaration { footprint })
    }

    /// The footprint.
    pub fn footprint(&self) -> Option<&Footprint>
        ensures { option_copied result ≡ self.now }
    {
        match &self.footprint {
            Some(footprint) => Some(&**footprint),
            None => None,
        }
    }

    /// The footprint, moved out.
    pub fn into_footprint(self) -> Option<Footprint>
        ensures { result ≡ self }
    {
        match self.footprint {
            Some(footprint) => Some(Box::into_inner(footprint)),
            None => None,
        }
    }
}
