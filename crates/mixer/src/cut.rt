//! The levels of a batch.
ghost use Rattle.std.specs.Prelude.{◌≡◌, ◌<◌, ◌≤◌, [], IfOk, length, map, option_copied, replicate, slice_get};
ghost use Rattle.std.specs.List.{All};
ghost use Rattle.serializability.specs.Levels.{levels, cut};
ghost use Rattle.serializability.specs.Signatures.{meets_by};
ghost use Rattle.signatures_simd.specs.Bits.{bit};
ghost use Rattle.mixer.specs.Slots.{slot};

use crate::levels::{depth_of, exact_levels_of, levels_of};
use std::alloc::Global;
use std::marker::Model;
use tpcc_rows::footprint::Footprint;
use tpcc_rows::memory::Memory;

/// The levels of a batch, lowest first, each with its requests' places in ascending order.
#[derive(Drop)]
pub struct Cut {
    levels: Vec<Vec<usize>>,
}

impl Model for Cut {
    ghost use Rattle.std.specs.Prelude.{ℕ, List, map};

    ghost Value = { List (List ℕ) };

    ghost view = { λ c. map (λ places. places.items) c.levels.items };
}

impl Cut {
    /// The number of levels.
    pub fn depth(&self) -> usize
        ensures { result ≡ length self.now }
    {
        self.levels.len()
    }

    /// The places on a level; `None` above the highest.
    pub fn level(&self, level: usize) -> Option<&[usize]>
        ensures { option_copied result ≡ slice_get self.now level }
    {
        let places = self.levels.get(level)?;
        Some(places.as_slice())
    }
}

/// `depth` empty levels.
fn empty_levels(alloc: Global, depth: usize) -> Result<Vec<Vec<usize>>, Memory>
    ensures { IfOk result (λ v. map (λ places. places.items) v.items ≡ replicate depth []) }
{
    let mut levels = Vec::with_capacity(alloc, depth)?;
    for _ in 0..depth {
        levels.push(Vec::new(alloc))?;
    }
    Ok(levels)
}

/// Lists the places by level.
fn cut_of(alloc: Global, levels: &[usize]) -> Result<Cut, Memory>
    requires { All (λ level. level < 1024) levels.now }
    ensures { IfOk result (λ c. c ≡ cut levels.now) }
{
    let mut cut = empty_levels(alloc, depth_of(levels))?;
    for (place, level) in levels.iter().enumerate() {
        cut[*level].push(place)?;
    }
    Ok(Cut { levels: cut })
}

/// Cuts a batch into levels by its requests' footprints, given in batch order.
pub fn mix(alloc: Global, footprints: &[Footprint]) -> Result<Cut, Memory>
    requires { length footprints.now ≤ 1024 }
    ensures { IfOk result (λ c. c ≡ cut (levels (meets_by bit) footprints.now)) }
{
    let levels = levels_of(alloc, footprints)?;
    cut_of(alloc, &levels)
}

/// Cuts a batch by granules, which conflict only if they share a slot, as few do: fewer levels, with more requests each, than by
/// signatures.
pub fn mix_exactly(alloc: Global, footprints: &[Footprint]) -> Result<Cut, Memory>
    requires { length footprints.now ≤ 1024 }
    ensures { IfOk result (λ c. c ≡ cut (levels (meets_by slot) footprints.now)) }
{
    let levels = exact_levels_of(alloc, footprints)?;
    cut_of(alloc, &levels)
}
