//! What a gate learns of a stray.
ghost use Rattle.std.specs.Prelude.{◌<◌, length};

use crate::gate::Gate;
use crate::job::Job;
use crate::plan::{Db, Level};
use crate::runtime::Runtime;
use profiles::declare_batch;
use std::alloc::Global;
use std::slice;
use std::thread::Threads;
use tpcc_rows::footprint::{Footprint, is_among};
use tpcc_rows::granule::Granule;

/// A granule of `granules` that isn't among the others.
fn first_beyond(granules: &[Granule], others: &[Granule]) -> Option<Granule> {
    granules
        .iter()
        .find(|granule| !is_among(granule, others))
        .copied()
}

/// A granule of the touch that isn't declared.
fn undeclared_of(touch: &Footprint, declared: &Footprint) -> Option<Granule> {
    first_beyond(touch.reads(), declared.reads()).or_else(|| first_beyond(
        touch.writes(),
        declared.writes(),
    ))
}

/// A granule that a job touches on these rows and hadn't declared; `None` if an allocation failed.
fn undeclared<R: Threads + Sync>(
    rt: &R,
    alloc: Global,
    db: Db<'_>,
    job: &Job<'_>,
) -> Option<Granule> {
    let alone = slice::from_ref(job.request);
    let touches = declare_batch(rt, alloc, db.catalog, alone, db.store, 1).ok()?;
    undeclared_of(touches.first()?, job.footprint)
}

/// Tells the gate that a job strays on these rows.
pub fn tell_stray<R: Threads + Sync, G: Gate>(
    runtime: &Runtime<'_, R, G>,
    db: Db<'_>,
    job: &Job<'_>,
) {
    let granule = undeclared(runtime.rt, runtime.alloc, db, job);
    runtime.gate.strayed(job.place, granule);
}

/// Tells the gate that a level's request strays.
pub(crate) fn tell_stray_at<R: Threads + Sync, G: Gate>(
    runtime: &Runtime<'_, R, G>,
    db: Db<'_>,
    level: &Level<'_>,
    place: usize,
)
    requires { place < length level.now.plan.batch.now.requests }
{
    tell_stray(runtime, db, &level.plan.job(place));
}
