//! Files of the folder that the program is run in.
use requests::{Counting, slurp};
use std::fs;
use std::rt::Files;

/// The most bytes of a file.
const MOST: usize = 1_000_000;

pub fn read<R: Files + AllocGlobal>(rt: &R, path: &str) -> Option<Vec<u8>>
where
    R::File: Drop,
{
    let file = fs::open(rt, path).ok()?;
    slurp(rt.alloc(), &mut Counting::new(file), MOST).ok()
}
