//! Stamps as text: the line that a stamp is printed as, and the word that `--from` takes.
ghost use Rattle.std.specs.Prelude.{◌≡◌, ◌≤◌, ◌+◌, ◌++◌, ℕ, IfSome, List, Ok, Some, length};
ghost use Rattle.executor.specs.Stamps.{IsWithinLimits};
ghost use Rattle.executor.specs.declared.stamp.Stamp.{Stamp};
ghost use Rattle.hex.specs.Hex.{decode_sized};
ghost use Rattle.runner.specs.StampText.{AreRead, HasToken, Tells, at_text, stamp_word};

use crate::text::digits_of;
use executor::{LAST_NUMBER, Stamp};
use itoa::Buffer;
use records::fields::number;
use tpcc_rows::id::END_OF_NUMBERS;
use tpcc_rows::row_buf::ByteBuf;

/// More bytes than the line has.
const LINE_BYTES: usize = 200;

/// Maximum number of bytes before the word in its line.
const FRONT_BYTES: usize = 10;

/// Maximum length of the word.
const WORD_BYTES: usize = 180;

/// A buffer for the line of a stamp.
pub type StampLine = ByteBuf<LINE_BYTES>;

/// Appends `SEQ,NEXT,TOKEN`.
fn push_word(line: &mut StampLine, stamp: &Stamp)
    requires { length line.old ≤ FRONT_BYTES }
    ensures text { line.new ≡ line.old ++ stamp_word stamp.now }
    ensures short { length line.new ≤ length line.old + WORD_BYTES }
{
    line.push(Buffer::new().format(stamp.sequence).as_bytes());
    line.push(b",");
    line.push(Buffer::new().format(stamp.next).as_bytes());
    line.push(b",");
    line.push(digits_of(&stamp.token).as_slice());
}

/// The line of a stamp: `at,SEQ,NEXT,TOKEN`.
pub fn stamp_line(stamp: &Stamp) -> StampLine
    ensures { result ≡ at_text stamp.now }
{
    let mut line = StampLine::new();
    line.push(b"at,");
    push_word(&mut line, stamp);
    line.push(b"\n");
    line
}

/// The word of a stamp.
fn word_of(stamp: &Stamp) -> StampLine
    ensures { result ≡ stamp_word stamp.now }
{
    let mut word = StampLine::new();
    push_word(&mut word, stamp);
    word
}

/// Parses a token in hexadecimal digits.
fn token_of(digits: &[u8]) -> Option<[u8; 32]>
    ensures { (token : List ℕ) → decode_sized digits.now 32 ≡ Ok token → result ≡ Some token }
{
    let mut token = [0; 32];
    hex::decode_to_slice(digits, &mut token).ok()?;
    Some(token)
}

/// The stamp of these parts.
fn stamp_of_parts(sequence: &[u8], next: &[u8], token: &[u8]) -> Option<Stamp>
    ensures read { (stamp : Stamp) → AreRead sequence.now next.now token.now stamp → result ≡ Some stamp }
    ensures within { IfSome result IsWithinLimits }
    ensures token { IfSome result HasToken }
{
    let Ok(sequence) = number(sequence, 0, LAST_NUMBER) else {
        return None;
    };
    let Ok(next) = number(next, 1, END_OF_NUMBERS) else {
        return None;
    };
    let Some(token) = token_of(token) else {
        return None;
    };
    Some(Stamp {
        sequence,
        next,
        token,
    })
}

/// Parses a stamp, `SEQ,NEXT,TOKEN`; `None` if it is malformed or one of its numbers is outside its limits.
pub fn stamp_of(word: &str) -> Option<Stamp>
    ensures told { IfSome result (Tells word.now) }
    ensures each { (stamp : Stamp) → Tells word.now stamp → result ≡ Some stamp }
{
    let Some((sequence, rest)) = word.split_once(',') else {
        return None;
    };
    let Some((next, token)) = rest.split_once(',') else {
        return None;
    };
    let Some(stamp) = stamp_of_parts(sequence.as_bytes(), next.as_bytes(), token.as_bytes()) else {
        return None;
    };
    if word_of(&stamp).as_slice() == word.as_bytes() {
        Some(stamp)
    } else {
        None
    }
}
