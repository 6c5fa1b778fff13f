//! Texts sent to a helper, and back with their hashes.
ghost use Rattle.std.specs.Prelude.{◌≡◌, ◌<◌, ◌≤◌, ◌^◌, length, map, take, vec_len};
ghost use Rattle.std.specs.Bool.{OnTrue};
ghost use Rattle.sha2.specs.Sha256.{sha256};
ghost use Rattle.hashers.specs.declared.parcel.TheConstants.{TEXTS};

use arrayvec::ArrayVec;
use sha2_lanes::{SecondBlocks, digests};
use std::alloc::{AllocError, Global};

/// Maximum number of texts in a parcel.
pub const TEXTS: usize = 64;

/// A copy of a text.
type Text<const N: usize> = ArrayVec<u8, N>;

fn is_same(text: &[u8], message: &[u8]) -> bool
    ensures { OnTrue result (text.now ≡ message.now) }
{
    text == message
}

/// Hashes the first `len` texts.
fn hash_first<const N: usize>(
    second_blocks: &SecondBlocks,
    texts: &[Text<N>],
    len: usize,
    hashes: &mut [[u8; 32]],
)
    requires inside { len ≤ length texts.now }
    requires same { length hashes.old ≡ length texts.now }
    requires few { length texts.now ≤ TEXTS }
    ensures len { length hashes.new ≡ length hashes.old }
    ensures hashes { take len hashes.new ≡ map (λ text. sha256 text.items) (take len texts.now) }
{
    let mut messages: ArrayVec<&[u8], TEXTS> = ArrayVec::new();
    for text in &texts[..len] {
        messages.push(text.as_slice());
    }
    digests(second_blocks, messages.as_slice(), &mut hashes[..len]);
}

/// Copies of texts of up to N bytes, with room for their hashes.
#[derive(Drop)]
pub(crate) struct Parcel<const N: usize> {
    number: u64,
    texts: Vec<Text<N>>,
    hashes: Vec<[u8; 32]>,
    len: usize,
    ghost small: { N < 2 ^ 32 },
    ghost len_fits: { len ≤ vec_len texts },
    ghost all_fit: { vec_len texts ≤ TEXTS },
    ghost hashes_fit: { vec_len hashes ≡ vec_len texts },
}

impl<const N: usize> Parcel<N> {
    /// With room for `room` texts.
    pub(crate) fn new(alloc: Global, room: usize) -> Result<Parcel<N>, AllocError>
        requires small { N < 2 ^ 32 }
        requires few { room ≤ TEXTS }
    {
        let mut texts = Vec::with_capacity(alloc, room)?;
        for _ in 0..room {
            texts.push(ArrayVec::new())?;
        }
        let hashes = vec![in alloc; [0u8; 32]; room]?;
        Ok(Parcel {
            number: 0,
            texts,
            hashes,
            len: 0,
        })
    }

    /// Copies these texts; false if they don't fit.
    pub(crate) fn fill(&mut self, number: u64, messages: &[&[u8]]) -> bool {
        self.number = number;
        self.len = 0;
        if messages.len() > self.texts.len() {
            return false;
        }
        for k in 0..messages.len() {
            let text = &mut self.texts[k];
            text.clear();
            if text.try_extend_from_slice(messages[k]).is_err() {
                return false;
            }
        }
        self.len = messages.len();
        true
    }

    /// Hashes the texts.
    pub(crate) fn hashed(self, second_blocks: &SecondBlocks) -> Hashed<N> {
        let Parcel {
            number,
            texts,
            mut hashes,
            len,
        } = self;
        hash_first(second_blocks, &texts, len, &mut hashes);
        Hashed {
            parcel: Parcel {
                number,
                texts,
                hashes,
                len,
            },
        }
    }
}

/// A parcel with the hashes of its texts.
#[derive(Drop)]
pub(crate) struct Hashed<const N: usize> {
    parcel: Parcel<N>,
    ghost are_of_texts: { take parcel.len parcel.hashes.items ≡ map (λ text. sha256 text.items) (take parcel.len parcel.texts.items) },
}

impl<const N: usize> Hashed<N> {
    pub(crate) fn number(&self) -> u64 {
        self.parcel.number
    }

    /// Copies the hashes, and returns true, if these are the parcel's texts.
    pub(crate) fn give(&self, messages: &[&[u8]], digests: &mut [[u8; 32]]) -> bool
        requires { length digests.old ≡ length messages.now }
        ensures len { length digests.new ≡ length digests.old }
        ensures hashes { OnTrue result (digests.new ≡ map (λ message. sha256 message.now) messages.now) }
    {
        let Parcel {
            texts,
            hashes,
            len,
            ..
        } = &self.parcel;
        if messages.len() != *len {
            return false;
        }
        for k in 0..messages.len() {
            if !is_same(texts[k].as_slice(), messages[k]) {
                return false;
            }
            digests[k] = hashes[k];
        }
        true
    }

    /// The parcel, to be reused.
    pub(crate) fn into_parcel(self) -> Parcel<N> {
        self.parcel
    }
}
