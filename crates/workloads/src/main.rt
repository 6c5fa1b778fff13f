//! The jobs that a user of the program waits for, for timing: `workloads JOB SEED` does one of them on inputs that it makes of the
//! seed, and prints how many bytes come of it, and a digest of them. With no word it does each on small inputs, and says so.
//! `bench/run` takes the times.
#![tactic(auto)]

mod batches;
mod drawn;
mod images;
mod jobs;
mod text;

use crate::jobs::{Scale, done};
use hashers::Host;
use std::env;
use std::process::ExitCode;
use std::rt::Env;

/// The names of the jobs.
const JOBS: [&str; 8] = [
    "mix", "workers", "payments", "load", "store", "awkward", "scale", "cores",
];

/// The job and the seed of the command line, where it has words.
fn words<R: Env + AllocGlobal>(rt: &R) -> Option<(String, u32)> {
    let mut words = env::args(rt).ok()?;
    let _program = words.next();
    let job = words.next()?;
    let seed = words.next()?;
    Some((job, seed.as_str().parse::<u32>().ok()?))
}

/// A number that mostly changes where the bytes do. It is quick, so that the time is the job's.
fn digest_of(bytes: &[u8]) -> u64 {
    let mut digest = 0xcbf2_9ce4_8422_2325u64;
    for piece in bytes.chunks(8) {
        let mut word = [0u8; 8];
        for (place, byte) in piece.iter().enumerate() {
            if place < 8 {
                word[place] = *byte;
            }
        }
        let mixed = (digest ^ u64::from_le_bytes(word)).wrapping_mul(0x9e37_79b9_7f4a_7c15);
        digest = mixed.rotate_left(29);
    }
    digest
}

/// Does a job, and prints how many bytes come of it, and their digest.
fn print_job<R: Print + AllocGlobal + Host>(rt: &R, name: &str, seed: u32) -> Option<()> {
    let bytes = done(rt, rt.alloc(), name, seed, Scale::Whole)?;
    let digest = digest_of(bytes.as_slice());
    println!(rt; "{} bytes, {digest}", bytes.len()).ok()
}

/// Does each job on small inputs.
fn print_small<R: Print + AllocGlobal + Host>(rt: &R) -> Option<()> {
    for name in JOBS {
        let bytes = done(rt, rt.alloc(), name, 1, Scale::Least)?;
        let is_done = !bytes.is_empty();
        println!(rt; "{name}: {is_done}").ok()?;
    }
    Some(())
}

fn main(rt: HostRuntime) -> ExitCode {
    let printed = match words(&rt) {
        Some((name, seed)) => print_job(&rt, name.as_str(), seed),
        None => print_small(&rt),
    };
    match printed {
        Some(()) => ExitCode::SUCCESS,
        None => ExitCode::FAILURE,
    }
}
