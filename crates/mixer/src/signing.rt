//! Signatures of footprints.
ghost use Rattle.mixer.specs.LevelRows.{IsSigned};

use signatures_simd::Signature;
use tpcc_rows::footprint::Footprint;

/// The signatures of what a request reads (which includes what it writes) and of what it writes.
#[derive(Drop)]
pub(crate) struct Signed {
    pub(crate) reads: Signature,
    pub(crate) writes: Signature,
}

/// Signs a footprint. It reads whatever it writes, so its read signature covers all its granules.
pub(crate) fn sign(footprint: &Footprint) -> Signed
    ensures { IsSigned result footprint.now }
{
    Signed {
        reads: Signature::of(footprint.reads()),
        writes: Signature::of(footprint.writes()),
    }
}
