//! `make`: writes the image of a generated database.
ghost use Rattle.std.specs.Prelude.{◌≡◌, ◌+◌, ◌<◌, ◌^◌, IfErr, IfOk, OnOk, if◌then◌else◌};
ghost use Rattle.std.specs.Io.KnownBytes.{Appends};
ghost use Rattle.made_database.specs.Made.{made};
ghost use Rattle.stored_image.specs.StoredImage.{image_text};
ghost use Rattle.runner.specs.MadeTexts.{LeavesImage};
ghost use Rattle.runner.specs.Runs.{is_write};
ghost use Rattle.tpcc_rows.specs.Limits.{IsBetween};

use crate::fault::RunFault;
use made_database::make;
use records::io::Sink;
use records::slurp::push_all;
use std::alloc::Global;
use stored_image::store_image;
use tpcc_rows::memory::Memory;

/// The image of the database generated from these numbers.
fn made_text(alloc: Global, warehouses: u8, customers: u16, items: u32) -> Result<Vec<u8>, Memory>
    requires warehouses { IsBetween 1 100 warehouses }
    requires customers { IsBetween 1 3000 customers }
    requires items { IsBetween 1 100000 items }
    ensures { IfOk result (λ text. text.items ≡ image_text (made warehouses customers items)) }
{
    let (catalog, store) = make(alloc, warehouses, customers, items)?;
    let mut text = Vec::new(alloc);
    store_image(alloc, &catalog, &store, &mut text)?;
    Ok(text)
}

/// Writes the image of the generated database with these numbers of warehouses, of customers in each district, and of items.
pub fn make_text<S: Sink>(
    alloc: Global,
    warehouses: u8,
    customers: u16,
    items: u32,
    sink: &mut S,
) -> Result<(), RunFault>
    requires warehouses { IsBetween 1 100 warehouses }
    requires customers { IsBetween 1 3000 customers }
    requires items { IsBetween 1 100000 items }
    requires sink { S.failed sink.old < 2 ^ 63 }
    ensures ok { OnOk result
        (Appends (S.taken sink.old) (S.taken sink.new) (image_text (made warehouses customers items))) }
    ensures err { IfErr result (λ e. LeavesImage e
        (image_text (made warehouses customers items)) (S.taken sink.old) (S.taken sink.new)) }
    ensures sink_failures { S.failed sink.new ≡ S.failed sink.old + (if is_write result then 1 else 0) }
{
    let Ok(text) = made_text(alloc, warehouses, customers, items) else {
        return Err(RunFault::Memory);
    };
    if push_all(sink, text.as_slice()).is_err() {
        return Err(RunFault::Write);
    }
    if sink.flush().is_err() {
        return Err(RunFault::Write);
    }
    Ok(())
}
