//! The jobs that a user waits for, on inputs that are made of a seed.
use crate::batches::{flights, mixed, small};
use crate::images::{LONGEST_DATA, STANDARD_DATA, Size, image, reversed};
use hashers::Host;
use requests::{BytesSink, BytesSource};
use runner::{check_text, make_text, run_and_store, run_text};
use session::serve;
use std::alloc::Global;
use telling::Telling;
use workers::{NoGate, Runtime, Workers};

/// How many bytes an end gives or takes at a call.
const STEP: usize = 65_536;

/// How large the inputs of a job are.
#[derive(Clone, Copy)]
pub enum Scale {
    /// As a user has them.
    Whole,
    /// As small as they can be.
    Least,
}

impl Scale {
    /// The first number at the whole scale, the other one at the least.
    fn of(self, whole: u64, least: u64) -> u64 {
        match self {
            Scale::Whole => whole,
            Scale::Least => least,
        }
    }
}

/// A runtime with these workers and no observer.
fn runtime_of<R>(rt: &R, alloc: Global, workers: Workers) -> Runtime<'_, R, NoGate> {
    Runtime {
        rt,
        alloc,
        workers,
        gate: &NoGate,
    }
}

/// What batches answer on the database of an image.
fn answers<R: Host>(
    rt: &R,
    alloc: Global,
    image: &[u8],
    batches: &[u8],
    workers: usize,
) -> Option<Vec<u8>> {
    let runtime = runtime_of(rt, alloc, Workers::new(workers)?);
    let mut image = Telling::new(BytesSource::new(image, STEP));
    let mut batches = Telling::new(BytesSource::new(batches, STEP));
    let mut sink = BytesSink::new(alloc, STEP);
    run_text(&runtime, &mut image, &mut batches, &mut sink).ok()?;
    Some(sink.bytes)
}

/// What commands are answered on the database of an image.
fn session<R: Host>(
    rt: &R,
    alloc: Global,
    image: &[u8],
    commands: &[u8],
    workers: usize,
) -> Option<Vec<u8>> {
    let runtime = runtime_of(rt, alloc, Workers::new(workers)?);
    let mut image = BytesSource::new(image, STEP);
    let mut sink = BytesSink::new(alloc, STEP);
    let mut input = BytesSource::new(commands, STEP);
    serve(&runtime, &mut image, &mut input, &mut sink).ok()?;
    Some(sink.bytes)
}

/// Batches of TPC-C's mix on a warehouse of full scale, by one worker.
fn mix<R: Host>(rt: &R, alloc: Global, seed: u32, scale: Scale) -> Option<Vec<u8>> {
    let size = Size {
        warehouses: 1,
        customers: scale.of(3_000, 10),
        least_data: STANDARD_DATA,
        items: scale.of(100_000, 50),
        orders: 0,
    };
    let image = image(alloc, seed, size).ok()?;
    let batches = mixed(alloc, seed, size, scale.of(30, 2), scale.of(1_000, 40)).ok()?;
    answers(rt, alloc, image.as_slice(), batches.as_slice(), 1)
}

/// The same on ten smaller warehouses that have orders, by four workers.
fn workers<R: Host>(rt: &R, alloc: Global, seed: u32, scale: Scale) -> Option<Vec<u8>> {
    let size = Size {
        warehouses: scale.of(10, 2),
        customers: scale.of(300, 10),
        least_data: STANDARD_DATA,
        items: scale.of(10_000, 50),
        orders: scale.of(100, 10),
    };
    let image = image(alloc, seed, size).ok()?;
    let batches = mixed(alloc, seed, size, scale.of(60, 2), scale.of(256, 40)).ok()?;
    answers(rt, alloc, image.as_slice(), batches.as_slice(), 4)
}

/// A session of small batches of payments and of new orders on a hundred warehouses, by one worker.
fn payments<R: Host>(rt: &R, alloc: Global, seed: u32, scale: Scale) -> Option<Vec<u8>> {
    let size = Size {
        warehouses: scale.of(100, 2),
        customers: 10,
        least_data: STANDARD_DATA,
        items: scale.of(1_000, 50),
        orders: 0,
    };
    let image = image(alloc, seed, size).ok()?;
    let commands = small(alloc, seed, size, scale.of(400, 2), scale.of(64, 8)).ok()?;
    session(rt, alloc, image.as_slice(), commands.as_slice(), 1)
}

/// A check of an image of full scale with its orders and its history.
fn load<R: Host>(rt: &R, alloc: Global, seed: u32, scale: Scale) -> Option<Vec<u8>> {
    let size = Size {
        warehouses: 1,
        customers: scale.of(3_000, 10),
        least_data: STANDARD_DATA,
        items: scale.of(100_000, 50),
        orders: scale.of(3_000, 10),
    };
    let image = image(alloc, seed, size).ok()?;
    let mut source = Telling::new(BytesSource::new(image.as_slice(), STEP));
    let mut sink = BytesSink::new(alloc, STEP);
    check_text(rt, alloc, &mut source, &mut sink).ok()?;
    Some(sink.bytes)
}

/// The image of a made database.
fn made(alloc: Global, scale: Scale) -> Option<Vec<u8>> {
    let mut sink = BytesSink::new(alloc, STEP);
    match scale {
        Scale::Whole => make_text(alloc, 2, 3_000, 100_000, &mut sink).ok()?,
        Scale::Least => make_text(alloc, 2, 10, 50, &mut sink).ok()?,
    }
    Some(sink.bytes)
}

/// An image that is made, and one that is stored behind a few batches.
fn store<R: Host>(rt: &R, alloc: Global, seed: u32, scale: Scale) -> Option<Vec<u8>> {
    let size = Size {
        warehouses: 1,
        customers: scale.of(1_000, 10),
        least_data: STANDARD_DATA,
        items: scale.of(30_000, 50),
        orders: scale.of(1_000, 10),
    };
    let image = image(alloc, seed, size).ok()?;
    let batches = mixed(alloc, seed, size, 2, scale.of(500, 40)).ok()?;
    let mut source = Telling::new(BytesSource::new(image.as_slice(), STEP));
    let mut requests = Telling::new(BytesSource::new(batches.as_slice(), STEP));
    let mut sink = BytesSink::new(alloc, STEP);
    let mut tables = BytesSink::new(alloc, STEP);
    run_and_store(
        &runtime_of(rt, alloc, Workers::new(1)?),
        &mut source,
        &mut requests,
        &mut sink,
        &mut tables,
    )
    .ok()?;
    let mut bytes = made(alloc, scale)?;
    bytes.extend_from_slice(sink.bytes.as_slice()).ok()?;
    bytes.extend_from_slice(tables.bytes.as_slice()).ok()?;
    Some(bytes)
}

/// An image in reverse, and a session in which batches crowd at one district, stray, are rerun and go back, by two workers.
fn awkward<R: Host>(rt: &R, alloc: Global, seed: u32, scale: Scale) -> Option<Vec<u8>> {
    let size = Size {
        warehouses: 2,
        customers: scale.of(600, 10),
        least_data: STANDARD_DATA,
        items: scale.of(5_000, 50),
        orders: scale.of(200, 10),
    };
    let image = image(alloc, seed, size).ok()?;
    let image = reversed(alloc, image.as_slice()).ok()?;
    let commands = flights(alloc, seed, size, scale.of(6, 1), scale.of(200, 20)).ok()?;
    session(rt, alloc, image.as_slice(), commands.as_slice(), 2)
}

/// Batches of the mix, by four workers, on six warehouses of nearly full scale whose customers' data are as long as they can be.
fn long_data<R: Host>(rt: &R, alloc: Global, seed: u32, scale: Scale) -> Option<Vec<u8>> {
    let size = Size {
        warehouses: scale.of(6, 2),
        customers: scale.of(2_750, 10),
        least_data: LONGEST_DATA,
        items: scale.of(10_000, 50),
        orders: 0,
    };
    let image = image(alloc, seed, size).ok()?;
    let batches = mixed(alloc, seed, size, scale.of(10, 2), scale.of(1_000, 40)).ok()?;
    answers(rt, alloc, image.as_slice(), batches.as_slice(), 4)
}

/// Batches of the mix on a hundred small warehouses that have orders, by four workers: few of their requests meet.
fn cores<R: Host>(rt: &R, alloc: Global, seed: u32, scale: Scale) -> Option<Vec<u8>> {
    let size = Size {
        warehouses: scale.of(100, 2),
        customers: scale.of(30, 10),
        least_data: STANDARD_DATA,
        items: scale.of(1_000, 50),
        orders: scale.of(30, 10),
    };
    let image = image(alloc, seed, size).ok()?;
    let batches = mixed(alloc, seed, size, scale.of(20, 2), scale.of(1_000, 40)).ok()?;
    answers(rt, alloc, image.as_slice(), batches.as_slice(), 4)
}

/// What the job of this name gives; None where there is no such job, or it fails.
pub fn done<R: Host>(
    rt: &R,
    alloc: Global,
    name: &str,
    seed: u32,
    scale: Scale,
) -> Option<Vec<u8>> {
    match name {
        "mix" => mix(rt, alloc, seed, scale),
        "workers" => workers(rt, alloc, seed, scale),
        "payments" => payments(rt, alloc, seed, scale),
        "load" => load(rt, alloc, seed, scale),
        "store" => store(rt, alloc, seed, scale),
        "awkward" => awkward(rt, alloc, seed, scale),
        "scale" => long_data(rt, alloc, seed, scale),
        "cores" => cores(rt, alloc, seed, scale),
        _ => None,
    }
}
