//! `check`: loads an image and prints a line about it.
ghost use Rattle.std.specs.Prelude.{◌≡◌, ◌+◌, ◌<◌, ◌^◌, true, IfErr, IfOk, OnOk, if◌then◌else◌};
ghost use Rattle.std.specs.Io.KnownBytes.{Appends};
ghost use Rattle.runner.specs.CheckTexts.{ChecksImage, LeavesCheck, check_text, warehouse_count};
ghost use Rattle.runner.specs.Runs.{is_write};
ghost use Rattle.runner.specs.WholeRuns.{is_image_read};
ghost use Rattle.telling.specs.Told.{OfSource};

use crate::fault::RunFault;
use crate::opening::load_told;
use crate::text::digits_of;
use catalog::Catalog;
use catalog::card::CardKey;
use executor::Executor;
use itoa::Buffer;
use records::io::Sink;
use records::slurp::push_all;
use std::alloc::Global;
use std::thread::Threads;
use telling::TellingSource;
use tpcc_rows::memory::Memory;

/// The number of warehouses.
fn warehouse_count(catalog: &Catalog) -> usize
    ensures { result ≡ warehouse_count catalog.now }
{
    let mut count = 0;
    let _cards = catalog.len();
    for (key, _) in catalog.cards() {
        if let CardKey::Warehouse { .. } = key {
            count += 1;
        }
    }
    count
}

/// The line about a database before any batch.
fn line_of(alloc: Global, executor: &Executor) -> Result<Vec<u8>, Memory>
    ensures { IfOk result (λ line. line.items ≡ check_text executor.now.cards executor.now.present) }
{
    let mut line = Vec::new(alloc);
    let mut buffer = Buffer::new();
    line.extend_from_slice(b"ok ")?;
    line.extend_from_slice(
        buffer
            .format(warehouse_count(executor.catalog()))
            .as_bytes(),
    )?;
    line.extend_from_slice(b" ")?;
    line.extend_from_slice(buffer.format(executor.store().len()).as_bytes())?;
    line.extend_from_slice(b" ")?;
    line.extend_from_slice(&digits_of(&executor.token()))?;
    line.extend_from_slice(b"\n")?;
    Ok(line)
}

/// Loads an image, and writes a line with the numbers of its warehouses and rows, and its token.
pub fn check_text<R: Threads + Sync, I: TellingSource, S: Sink>(
    rt: &R,
    alloc: Global,
    image: &mut I,
    sink: &mut S,
) -> Result<(), RunFault>
    requires image { I.failed image.old < 2 ^ 63 }
    requires sink { S.failed sink.old < 2 ^ 63 }
    ensures ok { OnOk result (OfSource (I.left image.old) (I.given image.old) (I.given image.new) (λ bytes.
        ChecksImage bytes (S.taken sink.old) (S.taken sink.new))) }
    ensures over { OnOk result (I.ended image.new ≡ true) }
    ensures err { IfErr result (λ e. OfSource (I.left image.old) (I.given image.old) (I.given image.new) (λ bytes.
        LeavesCheck e bytes (S.taken sink.old) (S.taken sink.new))) }
    ensures image_failures { I.failed image.new ≡ I.failed image.old + (if is_image_read result then 1 else 0) }
    ensures sink_failures { S.failed sink.new ≡ S.failed sink.old + (if is_write result then 1 else 0) }
{
    let executor = match load_told(rt, alloc, image) {
        Ok(executor) => executor,
        Err(fault) => return Err(fault),
    };
    let Ok(line) = line_of(alloc, &executor) else {
        return Err(RunFault::Memory);
    };
    if push_all(sink, line.as_slice()).is_err() {
        return Err(RunFault::Write);
    }
    if sink.flush().is_err() {
        return Err(RunFault::Write);
    }
    Ok(())
}
