//! The words of the command line.
use std::alloc::Global;
use std::env::{self, FillError};
use std::io::ErrorKind;
use std::rt::Env;
use std::str;
use thiserror::Error;

/// How many bytes of a word are searched for one that is not UTF-8: no path is longer.
const SHORT: usize = 4096;

/// Why the words can't be read. Words are numbered from 0, the program's name.
#[derive(Clone, Copy, Debug, PartialEq, Eq, Error)]
pub enum WordsFault {
    /// The first word that is not UTF-8 is the one with this number.
    #[error("word {0} is not UTF-8")]
    NotText(usize),
    /// A word that is not UTF-8 is longer than is searched.
    #[error("a word of more than 4096 bytes is not UTF-8")]
    LongNotText,
    /// An allocation failed.
    #[error("no memory for its words")]
    Memory,
}

/// The first word that is not UTF-8. There is one.
fn word_at_fault<R: Env>(rt: &R) -> WordsFault {
    let mut bytes = [0; SHORT];
    for word in 0..usize::MAX {
        match rt.arg(word, &mut bytes) {
            Ok(length) => {
                if str::from_utf8(&bytes[..length]).is_err() {
                    return WordsFault::NotText(word);
                }
            }
            Err(FillError::TooLong) => {}
            Err(FillError::NotPresent) => break,
        }
    }
    WordsFault::LongNotText
}

/// The words of the command line, the program's name first.
pub fn words_of<R: Env>(rt: &R, alloc: Global) -> Result<Vec<String>, WordsFault> {
    let words = match env::args(&(rt, alloc)) {
        Ok(words) => words,
        Err(error) => {
            return Err(match error.kind() {
                ErrorKind::InvalidData => word_at_fault(rt),
                _ => WordsFault::Memory,
            });
        }
    };
    words.collect(alloc).map_err(|_| WordsFault::Memory)
}
