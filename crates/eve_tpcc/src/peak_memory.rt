//! The peak of the program's resident memory.
use std::io::Read;
use std::rt::Files;
use std::{fs, str};

/// The file in which Linux describes the process.
const STATUS: &str = "/proc/self/status";

/// What the line of the peak begins with.
const PEAK: &str = "VmHWM:";

/// More bytes than the file has up to that line.
const MOST_BYTES: usize = 4096;

/// The bytes that a line such as `VmHWM:    1234 kB` tells.
fn bytes_in(line: &str) -> Option<u64> {
    let kibibytes = line.strip_prefix(PEAK)?.strip_suffix("kB")?.trim();
    let count: u64 = kibibytes.parse().ok()?;
    count.checked_mul(1024)
}

/// The maximum so far of the program's resident memory, in bytes, if the system tells it.
pub fn peak_memory<R: Files>(rt: &R) -> Option<u64>
where
    R::File: Drop,
{
    let mut file = fs::open(rt, STATUS).ok()?;
    let mut buffer = [0u8; MOST_BYTES];
    let count = file.read(&mut buffer).ok()?;
    let text = str::from_utf8(buffer.get(..count)?).ok()?;
    text.lines().find_map(bytes_in)
}
