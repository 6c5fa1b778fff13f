//! A text of records.
use crate::drawn::Draw;
use itoa::Buffer;
use std::alloc::{AllocError, Global};

/// How many letters there are to cut texts from.
const POOL: usize = 8_192;

/// The longest text that is cut.
const LONGEST: usize = 500;

/// Records one behind the other, and how many there are.
#[derive(Drop)]
pub struct Text {
    pub draw: Draw,
    pub bytes: Vec<u8>,
    pub records: u64,
    letters: Vec<u8>,
}

impl Text {
    pub fn new(alloc: Global, seed: u32) -> Result<Text, AllocError> {
        let mut draw = Draw::new(seed);
        let mut letters = Vec::new(alloc);
        for _ in 0..POOL {
            letters.push(b'A' + (draw.between(0, 25) % 26) as u8)?;
        }
        Ok(Text {
            draw,
            bytes: Vec::new(alloc),
            records: 0,
            letters,
        })
    }

    pub fn put(&mut self, bytes: &[u8]) -> Result<(), AllocError> {
        self.bytes.extend_from_slice(bytes)
    }

    pub fn digits(&mut self, number: u64) -> Result<(), AllocError> {
        self.bytes
            .extend_from_slice(Buffer::new().format(number).as_bytes())
    }

    /// Numbers, each behind a comma.
    pub fn numbers(&mut self, numbers: &[u64]) -> Result<(), AllocError> {
        for number in numbers {
            self.bytes.push(b',')?;
            self.digits(*number)?;
        }
        Ok(())
    }

    /// Behind a comma, a text of so many letters: from `low` to `high`.
    pub fn letters(&mut self, low: u64, high: u64) -> Result<(), AllocError> {
        let count = (self.draw.between(low, high) as usize).min(LONGEST);
        let place = self.draw.between(0, (POOL - LONGEST) as u64) as usize;
        self.bytes.push(b',')?;
        let end = place.saturating_add(count);
        match self.letters.as_slice().get(place..end) {
            Some(letters) => self.bytes.extend_from_slice(letters),
            None => Ok(()),
        }
    }

    /// The end of a record.
    pub fn end(&mut self) -> Result<(), AllocError> {
        self.records = self.records.wrapping_add(1);
        self.bytes.push(b'\n')?;
        Ok(())
    }
}
