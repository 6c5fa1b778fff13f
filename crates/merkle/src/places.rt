//! Places of a tree that have hashes: leaves and inner nodes.
ghost use Rattle.std.specs.Prelude.{◌≡◌, ◌<◌, ◌≤◌, ◌^◌, ℕ, List, All, length, map};
ghost use Rattle.merkle.specs.Jobs.{AreTexts, IsDone, IsTextOf, KeepsPlaces};
ghost use Rattle.sha2.specs.Sha256.{sha256};
ghost use Rattle.merkle.specs.declared.places.TheConstants.{GROUP};

use crate::jobs::Job;
use arrayvec::ArrayVec;
use sha2_lanes::{SecondBlocks, digests};
use tpcc_rows::row_buf::ByteBuf;

/// Places arranged together, since those hashed at once take the time of the largest.
const WINDOW: usize = 128;

/// Places hashed at once.
const GROUP: usize = 4;

/// Places that can be hashed.
pub(crate) trait Places {
    // The places it has.
    ghost has: { Self → ℕ → Type 0 };

    // The hash of a place.
    ghost hash: { Self → ℕ → List ℕ };

    fn second_blocks(&self) -> &SecondBlocks;

    /// Puts the jobs of a window in an order in which neighbours have texts of about the same size.
    fn arrange(&self, jobs: &mut [Job])
        requires { All (λ job. has self.now job.place) jobs.old }
        ensures places { KeepsPlaces jobs.old jobs.new }
        ensures there { All (λ job. has self.now job.place) jobs.new };

    fn hash_one(&self, place: usize) -> [u8; 32]
        requires { has self.now place }
        ensures { result ≡ hash self.now place };
}

/// Places whose texts can be encoded without being hashed.
pub(crate) trait Encodes<const N: usize>: Places {
    /// Writes the text of a place, or leaves the buffer empty if the text may not fit.
    fn encode(&self, place: usize, text: &mut ByteBuf<N>)
        requires { Self.has self.now place }
        ensures { IsTextOf (Self.hash self.now place) text.new };
}

/// The texts as slices.
pub(crate) fn bytes_of<const N: usize, const MOST: usize>(
    texts: &[ByteBuf<N>],
) -> ArrayVec<&[u8], MOST>
    requires small { N < 2 ^ 32 }
    requires room { MOST < 2 ^ 32 }
    requires few { length texts.now ≤ MOST }
    ensures { map (λ bytes. sha256 bytes.now) result.items ≡ map (λ text. sha256 text) texts.now }
{
    let mut bytes = ArrayVec::new();
    for text in texts {
        bytes.push(text.as_slice());
    }
    bytes
}

/// The hash of a place: the given one, unless its text is empty.
fn hash_by<P: Places>(places: &P, place: usize, text: &[u8], hash: [u8; 32]) -> [u8; 32]
    requires there { P.has places.now place }
    requires text { IsTextOf (P.hash places.now place) text.now }
    requires hash { hash ≡ sha256 text.now }
    ensures { result ≡ P.hash places.now place }
{
    if text.is_empty() {
        places.hash_one(place)
    } else {
        hash
    }
}

/// Sets the jobs' hashes to those of their texts.
pub(crate) fn give<const N: usize, P: Places>(
    places: &P,
    jobs: &mut [Job],
    texts: &[ByteBuf<N>],
    hashes: &[[u8; 32]],
)
    requires small { N < 2 ^ 32 }
    requires there { All (λ job. P.has places.now job.place) jobs.old }
    requires texts { AreTexts (P.hash places.now) jobs.old texts.now }
    requires hashes { hashes.now ≡ map (λ text. sha256 text) texts.now }
    ensures { IsDone (P.hash places.now) jobs.old jobs.new }
{
    for k in 0..jobs.len() {
        jobs[k].hash = hash_by(places, jobs[k].place, texts[k].as_slice(), hashes[k]);
    }
}

/// Encodes the texts of jobs.
fn encode<const N: usize, P: Encodes<N>>(places: &P, jobs: &[Job], texts: &mut [ByteBuf<N>])
    requires small { N < 2 ^ 32 }
    requires same { length texts.old ≡ length jobs.now }
    requires there { All (λ job. P.has places.now job.place) jobs.now }
    ensures { AreTexts (P.hash places.now) jobs.now texts.new }
{
    for k in 0..jobs.len() {
        places.encode(jobs[k].place, &mut texts[k]);
    }
}

/// The hashes of a group's texts.
fn hash_texts<const N: usize>(
    second_blocks: &SecondBlocks,
    texts: &[ByteBuf<N>],
    hashes: &mut [[u8; 32]],
)
    requires small { N < 2 ^ 32 }
    requires few { length texts.now ≤ GROUP }
    requires same { length hashes.old ≡ length texts.now }
    ensures { hashes.new ≡ map (λ text. sha256 text) texts.now }
{
    let bytes = bytes_of::<N, GROUP>(texts);
    digests(second_blocks, bytes.as_slice(), hashes);
}

/// Hashes jobs at once, each with a text.
fn do_together<const N: usize, P: Encodes<N>>(
    jobs: &mut [Job],
    places: &P,
    texts: &mut [ByteBuf<N>],
)
    requires small { N < 2 ^ 32 }
    requires few { length jobs.old ≤ GROUP }
    requires same { length texts.old ≡ length jobs.old }
    requires there { All (λ job. P.has places.now job.place) jobs.old }
    ensures { IsDone (P.hash places.now) jobs.old jobs.new }
{
    encode(places, jobs, texts);
    let mut hashes = [[0u8; 32]; GROUP];
    let hashes = &mut hashes[..jobs.len()];
    hash_texts(places.second_blocks(), texts, hashes);
    give(places, jobs, texts, hashes);
}

/// Hashes jobs one at a time.
fn do_few<P: Places>(jobs: &mut [Job], places: &P)
    requires { All (λ job. P.has places.now job.place) jobs.old }
    ensures { IsDone (P.hash places.now) jobs.old jobs.new }
{
    for k in 0..jobs.len() {
        jobs[k].hash = places.hash_one(jobs[k].place);
    }
}

/// Hashes up to `GROUP` jobs, two of them one at a time, which is faster.
fn do_group<const N: usize, P: Encodes<N>>(jobs: &mut [Job], places: &P, texts: &mut [ByteBuf<N>])
    requires small { N < 2 ^ 32 }
    requires few { length jobs.old ≤ GROUP }
    requires room { length texts.old ≡ GROUP }
    requires there { All (λ job. P.has places.now job.place) jobs.old }
    ensures done { IsDone (P.hash places.now) jobs.old jobs.new }
    ensures room { length texts.new ≡ GROUP }
{
    if jobs.len() > 2 {
        do_together(jobs, places, &mut texts[..jobs.len()]);
    } else {
        do_few(jobs, places);
    }
}

/// Hashes jobs, `GROUP` neighbours at once.
fn do_neighbours<const N: usize, P: Encodes<N>>(
    jobs: &mut [Job],
    places: &P,
    texts: &mut [ByteBuf<N>],
)
    requires small { N < 2 ^ 32 }
    requires room { length texts.old ≡ GROUP }
    requires there { All (λ job. P.has places.now job.place) jobs.old }
    ensures done { IsDone (P.hash places.now) jobs.old jobs.new }
    ensures room { length texts.new ≡ GROUP }
{
    for group in 0..jobs.len().div_ceil(GROUP) {
        let start = GROUP * group;
        let end = (start + GROUP).min(jobs.len());
        do_group(&mut jobs[start..end], places, texts);
    }
}

/// Hashes the jobs of a window.
fn do_window<const N: usize, P: Encodes<N>>(jobs: &mut [Job], places: &P, texts: &mut [ByteBuf<N>])
    requires small { N < 2 ^ 32 }
    requires room { length texts.old ≡ GROUP }
    requires there { All (λ job. P.has places.now job.place) jobs.old }
    ensures done { IsDone (P.hash places.now) jobs.old jobs.new }
    ensures room { length texts.new ≡ GROUP }
{
    places.arrange(jobs);
    do_neighbours(jobs, places, texts);
}

/// Hashes jobs window by window. Not inlined, since its frame has the texts and callers recurse.
#[inline(never)]
pub(crate) fn do_jobs<const N: usize, P: Encodes<N>>(jobs: &mut [Job], places: &P)
    requires small { N < 2 ^ 32 }
    requires there { All (λ job. P.has places.now job.place) jobs.old }
    ensures { IsDone (P.hash places.now) jobs.old jobs.new }
{
    let mut texts = [
        ByteBuf::<N>::new(),
        ByteBuf::new(),
        ByteBuf::new(),
        ByteBuf::new(),
    ];
    for window in 0..jobs.len().div_ceil(WINDOW) {
        let start = WINDOW * window;
        let end = (start + WINDOW).min(jobs.len());
        do_window(&mut jobs[start..end], places, &mut texts);
    }
}
