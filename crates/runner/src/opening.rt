//! Loads an image into an executor.
ghost use Rattle.std.specs.Prelude.{◌≡◌, ◌+◌, ◌<◌, ◌≤◌, ◌^◌, [], true, IfErr, IfOk, IfSome, OnOk, if◌then◌else◌};
ghost use Rattle.executor.specs.Chains.{opening_chain};
ghost use Rattle.executor.specs.States.{IsSoundState};
ghost use Rattle.executor.specs.declared.refusal.Refusal.TheVariants as refusal;
ghost use Rattle.image_records.specs.declared.fault.LoadError.TheVariants as load_error;
ghost use Rattle.merkle.specs.Nodes.{IsOf};
ghost use Rattle.runner.specs.Openings.{IsOfOpening, IsOpened, IsRefused, IsUnopened};
ghost use Rattle.runner.specs.WholeRuns.{is_image_read};
ghost use Rattle.runner.specs.declared.fault.RunFault.TheVariants as run_fault;
ghost use Rattle.telling.specs.Told.{OfSource};
ghost use Rattle.tpcc_model.specs.Database.{database};
ghost use Rattle.tpcc_model.specs.Soundness.{IsSound};

use crate::fault::RunFault;
use catalog::Catalog;
use executor::laws::sound_states;
use executor::{Executor, Refusal, beside_digest};
use image_records::LoadError;
use loader::{UnpagedRows, read_image, read_told};
use merkle::Tree;
use records::io::Source;
use row_store::PointedStore;
use std::alloc::Global;
use std::thread::Threads;
use telling::TellingSource;

/// Puts the rows in a store.
fn stored(alloc: Global, rows: UnpagedRows) -> Result<PointedStore, RunFault>
    ensures rows { IfOk result (λ store. store.rows ≡ rows) }
    ensures points { IfOk result (λ store. store.points ≡ []) }
    ensures err { IfErr result (λ e. e ≡ run_fault.Load load_error.Memory) }
{
    match rows.into_store(alloc) {
        Ok(store) => Ok(store),
        Err(_) => Err(RunFault::Load(LoadError::Memory)),
    }
}

/// Rows and tree in a box: by value they would be on the stack several times, at 15 KB each.
#[inline(never)]
fn boxed(
    alloc: Global,
    store: PointedStore,
    tree: Tree,
) -> Result<Box<(PointedStore, Tree)>, RunFault>
    ensures ok { IfOk result (λ built. built.value ≡ (store, tree)) }
    ensures err { IfErr result (λ e. e ≡ run_fault.Exec refusal.Memory) }
{
    match Box::new(alloc, (store, tree)) {
        Ok(built) => Ok(built),
        Err(_) => Err(RunFault::Exec(Refusal::Memory)),
    }
}

/// Builds the tree of a store.
fn treed<R: Threads + Sync>(rt: &R, alloc: Global, store: &PointedStore) -> Result<Tree, RunFault>
    ensures tree { IfOk result (λ tree. IsOf tree store.now.rows) }
    ensures err { IfErr result (λ e. e ≡ run_fault.Exec refusal.Memory) }
{
    let Ok(tree) = Tree::build(rt, alloc, store) else {
        return Err(RunFault::Exec(Refusal::Memory));
    };
    Ok(tree)
}

/// Puts the rows in a store, and builds its tree.
#[inline(never)]
fn build<R: Threads + Sync>(
    rt: &R,
    alloc: Global,
    rows: UnpagedRows,
) -> Result<Box<(PointedStore, Tree)>, RunFault>
    ensures rows { IfOk result (λ built. built.value.0.rows ≡ rows) }
    ensures points { IfOk result (λ built. built.value.0.points ≡ []) }
    ensures tree { IfOk result (λ built. IsOf built.value.1 built.value.0.rows) }
    ensures err { IfErr result IsRefused }
{
    let store = match stored(alloc, rows) {
        Ok(store) => store,
        Err(fault) => return Err(fault),
    };
    let tree = match treed(rt, alloc, &store) {
        Ok(tree) => tree,
        Err(fault) => return Err(fault),
    };
    boxed(alloc, store, tree)
}

/// The executor of a database. If there are many cards, another thread hashes them while this one builds store and tree.
#[inline(never)]
fn executor_of<R: Threads + Sync>(
    rt: &R,
    alloc: Global,
    catalog: Catalog,
    rows: UnpagedRows,
) -> Result<Executor, RunFault>
    requires { IsSound (database catalog rows) }
    ensures chain { IfOk result (λ executor. executor ≡ opening_chain catalog rows) }
    ensures sound { IfOk result (λ executor. IsSoundState executor.cards executor.present) }
    ensures err { IfErr result IsRefused }
{
    let (digest, built) = beside_digest(
        rt,
        &catalog,
        || -> Result<Box<(PointedStore, Tree)>, RunFault>
            ensures rows { IfOk result (λ built. built.value.0.rows ≡ rows) }
            ensures points { IfOk result (λ built. built.value.0.points ≡ []) }
            ensures tree { IfOk result (λ built. IsOf built.value.1 built.value.0.rows) }
            ensures err { IfErr result IsRefused }
        { build(rt, alloc, rows) },
    );
    match built {
        Ok(built) => {
            let (store, tree) = Box::into_inner(built);
            Ok(Executor::of_parts(catalog, digest, store, tree))
        }
        Err(fault) => Err(fault),
    }
}

/// Loads an image into an executor.
#[inline(never)]
pub fn load_executor<R: Threads + Sync, I: Source>(
    rt: &R,
    alloc: Global,
    image: &mut I,
) -> Result<Executor, RunFault>
    requires image { I.failed image.old < 2 ^ 63 }
    ensures ok { IfOk result (λ executor. IfSome (I.left image.old) (λ bytes. IsOpened bytes executor)) }
    ensures alone { IfOk result (λ executor. executor.earlier ≡ []) }
    ensures sound { IfOk result (λ executor. IsSoundState executor.cards executor.present) }
    ensures low { IfOk result (λ executor. 1 ≤ executor.present.next) }
    ensures err { IfErr result (λ e. IfSome (I.left image.old) (λ bytes. IsUnopened e bytes)) }
    ensures kinds { IfErr result IsOfOpening }
    ensures image_failures { I.failed image.new ≡ I.failed image.old + (if is_image_read result then 1 else 0) }
{
    sound_states();
    match read_image(alloc, image) {
        Ok((catalog, rows)) => executor_of(rt, alloc, catalog, rows),
        Err(error) => Err(RunFault::Load(error)),
    }
}

/// Loads an image into an executor, from a source that traces what it gave.
#[inline(never)]
pub fn load_told<R: Threads + Sync, I: TellingSource>(
    rt: &R,
    alloc: Global,
    image: &mut I,
) -> Result<Executor, RunFault>
    requires image { I.failed image.old < 2 ^ 63 }
    ensures ok { IfOk result (λ executor. OfSource (I.left image.old) (I.given image.old) (I.given image.new) (λ bytes. IsOpened bytes executor)) }
    ensures alone { IfOk result (λ executor. executor.earlier ≡ []) }
    ensures sound { IfOk result (λ executor. IsSoundState executor.cards executor.present) }
    ensures low { IfOk result (λ executor. 1 ≤ executor.present.next) }
    ensures over { OnOk result (I.ended image.new ≡ true) }
    ensures err { IfErr result (λ e. OfSource (I.left image.old) (I.given image.old) (I.given image.new) (IsUnopened e)) }
    ensures kinds { IfErr result IsOfOpening }
    ensures image_failures { I.failed image.new ≡ I.failed image.old + (if is_image_read result then 1 else 0) }
{
    sound_states();
    match read_told(alloc, image) {
        Ok((catalog, rows)) => executor_of(rt, alloc, catalog, rows),
        Err(fault) => Err(RunFault::Load(fault)),
    }
}
