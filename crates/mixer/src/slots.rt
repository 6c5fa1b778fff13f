//! The slot of a granule.
ghost use Rattle.std.specs.Prelude.{◌≡◌, ◌<◌};
ghost use Rattle.mixer.specs.Slots.{slot};

use signatures_simd::{MULTIPLIER, packed};
use tpcc_rows::granule::Granule;

/// The number of slots: large enough for few granules of a batch to share one.
pub(crate) const SLOTS: usize = 262_144;

/// The slot of a granule, from 0 to 262,143.
#[tactic(auto, unfolding(crate::specs::Slots::slot))]
pub(crate) fn slot(granule: &Granule) -> usize
    ensures value { result ≡ slot granule.now }
    ensures below { result < SLOTS }
{
    (packed(granule).wrapping_mul(MULTIPLIER) >> 46) as usize
}
