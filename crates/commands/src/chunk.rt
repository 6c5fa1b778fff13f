//! A buffered source, read byte by byte.
ghost use Rattle.std.specs.Prelude.{◌≡◌, ◌+◌, ◌<◌, ◌≤◌, ◌^◌, ◌∷◌, [], true, false, drop, take, is_ok, if◌then◌else◌, option_map, IfOk, IfNone, IfSome, OnOk};
ghost use Rattle.std.specs.Io.KnownBytes.{Consumes, IsAtEnd, Keeps};
ghost use Rattle.commands.specs.Reader.{pulled};
ghost use Rattle.csv.specs.Reading.{is_bom, strip_bom};

use records::io::{Failed, Source};

/// Whether three bytes are a byte order mark.
fn is_mark(first: u8, second: u8, third: u8) -> bool
    ensures { result ≡ is_bom first second third }
{
    first == 0xEF && second == 0xBB && third == 0xBF
}

/// The bytes pulled, and the number of those read.
#[derive(Drop)]
pub(crate) struct Chunk {
    buffer: [u8; 8192],
    at: usize,
    filled: usize,
}

impl Chunk {
    pub fn new() -> Chunk
        ensures at { result.at ≡ 0 }
        ensures filled { result.filled ≡ 0 }
    {
        Chunk {
            buffer: [0; 8192],
            at: 0,
            filled: 0,
        }
    }

    /// Whether all pulled bytes were read.
    fn is_read(&self) -> bool
        ensures none { result ≡ true → drop self.now.at (take self.now.filled self.now.buffer) ≡ [] }
        ensures some { result ≡ false → (self.now.at < self.now.filled) × (self.now.at < 8192) }
    {
        self.at >= self.filled.min(self.buffer.len())
    }

    /// Pulls more bytes, if all were read. None means the end.
    #[inline(never)]
    fn pull<S: Source>(&mut self, source: &mut S) -> Result<usize, Failed>
        requires empty { drop self.old.at (take self.old.filled self.old.buffer) ≡ [] }
        requires count { S.failed source.old < 2 ^ 63 }
        ensures keeps { OnOk result (Keeps (S.left source.old) (pulled self.new (S.left source.new))) }
        ensures at { OnOk result (self.new.at ≡ 0) }
        ensures filled { IfOk result (λ n. (self.new.filled ≡ n) × (n ≤ 8192)) }
        ensures end { IfOk result (λ n. n ≡ 0 → IsAtEnd (S.left source.new)) }
        ensures count { S.failed source.new ≡ S.failed source.old + (if is_ok result then 0 else 1) }
    {
        let count = source.pull(&mut self.buffer)?;
        self.at = 0;
        self.filled = count;
        Ok(count)
    }

    /// Pulls one byte of the start of a text, if there is one.
    fn pull_one<S: Source>(&mut self, source: &mut S) -> Result<bool, Failed>
        requires at { self.old.at ≡ 0 }
        requires room { self.old.filled < 3 }
        requires count { S.failed source.old < 2 ^ 63 }
        ensures keeps { OnOk result (Keeps (pulled self.old (S.left source.old)) (pulled self.new (S.left source.new))) }
        ensures end { IfOk result (λ more. more ≡ false → IsAtEnd (S.left source.new)) }
        ensures filled { IfOk result (λ more. self.new.filled ≡ self.old.filled + (if more then 1 else 0)) }
        ensures at { self.new.at ≡ 0 }
        ensures count { S.failed source.new ≡ S.failed source.old + (if is_ok result then 0 else 1) }
    {
        let mut one = [0u8];
        if source.pull(&mut one)? == 0 {
            return Ok(false);
        }
        self.buffer[self.filled] = one[0];
        self.filled += 1;
        Ok(true)
    }

    /// Begins a text: skips a byte order mark, pulling no more than one needs.
    #[inline(never)]
    pub fn begin<S: Source>(&mut self, source: &mut S) -> Result<(), Failed>
        requires { S.failed source.old < 2 ^ 63 }
        ensures keeps { OnOk result (Keeps (option_map strip_bom (S.left source.old)) (pulled self.new (S.left source.new))) }
        ensures count { S.failed source.new ≡ S.failed source.old + (if is_ok result then 0 else 1) }
    {
        self.at = 0;
        self.filled = 0;
        if !self.pull_one(source)? {
            return Ok(());
        }
        if self.buffer[0] != 0xEF {
            return Ok(());
        }
        if !self.pull_one(source)? {
            return Ok(());
        }
        if self.buffer[1] != 0xBB {
            return Ok(());
        }
        if !self.pull_one(source)? {
            return Ok(());
        }
        if is_mark(self.buffer[0], self.buffer[1], self.buffer[2]) {
            self.at = 3;
        }
        Ok(())
    }

    /// The next byte, if there is one.
    pub fn next_byte<S: Source>(&mut self, source: &mut S) -> Result<Option<u8>, Failed>
        requires { S.failed source.old < 2 ^ 63 }
        ensures byte { IfOk result (λ o. IfSome o (λ b.
            Consumes (pulled self.old (S.left source.old)) (pulled self.new (S.left source.new)) (b ∷ []))) }
        ensures end { IfOk result (λ o. IfNone o (IsAtEnd (pulled self.old (S.left source.old)))) }
        ensures over { IfOk result (λ o. IfNone o (Keeps (pulled self.old (S.left source.old)) (pulled self.new (S.left source.new)))) }
        ensures count { S.failed source.new ≡ S.failed source.old + (if is_ok result then 0 else 1) }
    {
        if self.is_read() {
            if self.pull(source)? == 0 {
                return Ok(None);
            }
        }
        let byte = self.buffer[self.at];
        self.at += 1;
        Ok(Some(byte))
    }
}
