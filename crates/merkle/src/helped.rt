//! Hashing with helpers.
ghost use Rattle.std.specs.Prelude.{◌≡◌, ◌<◌, ◌≤◌, ◌+◌, ◌*◌, ◌^◌, All, length, map, take};
ghost use Rattle.merkle.specs.declared.helped.TheConstants.{MOST_HELPERS, ROUND};
ghost use Rattle.hashers.specs.declared.parcel.TheConstants.{TEXTS};
ghost use Rattle.merkle.specs.Jobs.{AreTexts, IsDone, IsTextOf};
ghost use Rattle.merkle.specs.Nodes.{join_at, left_of};
ghost use Rattle.sha2.specs.Sha256.{sha256};
ghost use Rattle.tpcc_model.specs.Roots.{leaf_hash};
ghost use Rattle.tpcc_rows.specs.declared.codes.TheConstants.{LEAVES};

use crate::hashing::{LEAF_BYTES, NODE_BYTES};
use crate::jobs::Job;
use crate::leaves::Leaves;
use crate::levels::InnerNodes;
use crate::places::{Encodes, Places, bytes_of, do_jobs, give};
use arrayvec::ArrayVec;
use hashers::{Helpers, Host, LONG_TEXTS, TEXTS, Ticket};
use sha2_lanes::SecondBlocks;
use std::alloc::{AllocError, Global};
use tpcc_rows::row_buf::ByteBuf;

/// Maximum number of helpers.
pub(crate) const MOST_HELPERS: usize = 7;

/// Maximum number of leaves encoded before waiting for their hashes.
const ROUND: usize = 128;

/// Maximum number of groups in a round: of leaves, `ROUND` / `LONG_TEXTS`; of nodes, one per helper.
const MOST_GROUPS: usize = 8;

/// Minimum leaves to use helpers.
const FEWEST_LEAVES: usize = 64;

/// Minimum nodes of a level to use helpers.
const FEWEST_NODES: usize = 32;

/// The tickets of a round's groups.
type Tickets = ArrayVec<Option<Ticket>, MOST_GROUPS>;

/// How jobs are shared: with at most `most` helpers, in groups of `size`.
#[derive(Clone, Copy)]
struct Sharing<'a, P> {
    places: &'a P,
    most: usize,
    size: usize,
}

/// Sends the texts from `start` to before `end` to a helper.
fn begin_group<const N: usize>(
    helpers: &mut Helpers,
    most: usize,
    texts: &[ByteBuf<N>],
    start: usize,
    end: usize,
) -> Option<Ticket>
    requires small { N < 2 ^ 32 }
    requires range { (start ≤ end) × (end ≤ length texts.now) }
    requires few { end ≤ start + TEXTS }
{
    helpers.begin(most, bytes_of::<N, TEXTS>(&texts[start..end]).as_slice())
}

/// Encodes the texts of jobs, and sends each group to a helper.
fn begin<const N: usize, P: Encodes<N>>(
    helpers: &mut Helpers,
    sharing: &Sharing<'_, P>,
    jobs: &[Job],
    texts: &mut [ByteBuf<N>],
) -> Tickets
    requires small { N < 2 ^ 32 }
    requires size { (0 < sharing.now.size) × (sharing.now.size ≤ TEXTS) }
    requires same { length texts.old ≡ length jobs.now }
    requires there { All (λ job. P.has sharing.now.places.now job.place) jobs.now }
    ensures { AreTexts (P.hash sharing.now.places.now) jobs.now texts.new }
{
    let Sharing {
        places,
        most,
        size,
        ..
    } = *sharing;
    let mut tickets = Tickets::new();
    for k in 0..jobs.len() {
        places.encode(jobs[k].place, &mut texts[k]);
        let end = k + 1;
        if end % size == 0 || end == jobs.len() {
            let ticket = begin_group(helpers, most, texts, k - k % size, end);
            let _ = tickets.try_push(ticket);
        }
    }
    tickets
}

/// The hashes of a group's texts.
fn hash_group<const N: usize>(
    helpers: &mut Helpers,
    second_blocks: &SecondBlocks,
    ticket: Option<Ticket>,
    texts: &[ByteBuf<N>],
    hashes: &mut [[u8; 32]],
)
    requires small { N < 2 ^ 32 }
    requires few { length texts.now ≤ TEXTS }
    requires same { length hashes.old ≡ length texts.now }
    ensures { hashes.new ≡ map (λ text. sha256 text) texts.now }
{
    helpers.finish(
        second_blocks,
        ticket,
        bytes_of::<N, TEXTS>(texts).as_slice(),
        hashes,
    );
}

/// Sets a group's hashes to those of its texts.
fn finish_group<const N: usize, P: Encodes<N>>(
    helpers: &mut Helpers,
    ticket: Option<Ticket>,
    sharing: &Sharing<'_, P>,
    jobs: &mut [Job],
    texts: &[ByteBuf<N>],
)
    requires small { N < 2 ^ 32 }
    requires few { length jobs.old ≤ TEXTS }
    requires there { All (λ job. P.has sharing.now.places.now job.place) jobs.old }
    requires texts { AreTexts (P.hash sharing.now.places.now) jobs.old texts.now }
    ensures { IsDone (P.hash sharing.now.places.now) jobs.old jobs.new }
{
    let len = texts.len();
    let mut hashes = [[0u8; 32]; TEXTS];
    hash_group(
        helpers,
        sharing.places.second_blocks(),
        ticket,
        texts,
        &mut hashes[..len],
    );
    give(sharing.places, jobs, texts, &hashes[..len]);
}

/// Sets the jobs' hashes to those of their texts, group by group.
#[tactic(auto, using(crate::proofs::Texts::part_there, crate::proofs::Texts::part_texts))]
fn finish<const N: usize, P: Encodes<N>>(
    helpers: &mut Helpers,
    tickets: &[Option<Ticket>],
    sharing: &Sharing<'_, P>,
    jobs: &mut [Job],
    texts: &[ByteBuf<N>],
)
    requires small { N < 2 ^ 32 }
    requires size { (0 < sharing.now.size) × (sharing.now.size ≤ TEXTS) }
    requires there { All (λ job. P.has sharing.now.places.now job.place) jobs.old }
    requires texts { AreTexts (P.hash sharing.now.places.now) jobs.old texts.now }
    ensures { IsDone (P.hash sharing.now.places.now) jobs.old jobs.new }
{
    let size = sharing.size;
    let mut start = 0;
    while start < jobs.len() {
        let end = start + size.min(jobs.len() - start);
        let ticket = tickets.get(start / size).copied().flatten();
        finish_group(
            helpers,
            ticket,
            sharing,
            &mut jobs[start..end],
            &texts[start..end],
        );
        start = end;
    }
}

/// Hashes jobs, the first `given` with helpers.
fn do_level<const N: usize, P: Encodes<N>>(
    helpers: &mut Helpers,
    sharing: &Sharing<'_, P>,
    given: usize,
    jobs: &mut [Job],
    texts: &mut [ByteBuf<N>],
)
    requires small { N < 2 ^ 32 }
    requires size { (0 < sharing.now.size) × (sharing.now.size ≤ TEXTS) }
    requires given { (given ≤ length jobs.old) × (given ≤ length texts.old) }
    requires there { All (λ job. P.has sharing.now.places.now job.place) jobs.old }
    ensures { IsDone (P.hash sharing.now.places.now) jobs.old jobs.new }
{
    let (first, rest) = jobs.split_at_mut(given);
    let tickets = begin(helpers, sharing, first, &mut texts[..given]);
    do_jobs::<N, P>(rest, sharing.places);
    finish(helpers, tickets.as_slice(), sharing, first, &texts[..given]);
}

/// Hashes jobs, all with helpers.
fn do_round<const N: usize, P: Encodes<N>>(
    helpers: &mut Helpers,
    sharing: &Sharing<'_, P>,
    jobs: &mut [Job],
    texts: &mut [ByteBuf<N>],
)
    requires small { N < 2 ^ 32 }
    requires size { (0 < sharing.now.size) × (sharing.now.size ≤ TEXTS) }
    requires same { length texts.old ≡ length jobs.old }
    requires there { All (λ job. P.has sharing.now.places.now job.place) jobs.old }
    ensures { IsDone (P.hash sharing.now.places.now) jobs.old jobs.new }
{
    let tickets = begin(helpers, sharing, jobs, texts);
    finish(helpers, tickets.as_slice(), sharing, jobs, texts);
}

/// Hashes jobs round by round.
fn do_rounds<const N: usize, P: Encodes<N>>(
    helpers: &mut Helpers,
    sharing: &Sharing<'_, P>,
    jobs: &mut [Job],
    texts: &mut [ByteBuf<N>],
)
    requires small { N < 2 ^ 32 }
    requires size { (0 < sharing.now.size) × (sharing.now.size ≤ TEXTS) }
    requires room { ROUND ≤ length texts.old }
    requires there { All (λ job. P.has sharing.now.places.now job.place) jobs.old }
    ensures { IsDone (P.hash sharing.now.places.now) jobs.old jobs.new }
{
    let mut start = 0;
    while start < jobs.len() {
        let len = ROUND.min(jobs.len() - start);
        let end = start + len;
        do_round(helpers, sharing, &mut jobs[start..end], &mut texts[..len]);
        start = end;
    }
}

/// Buffers for `count` texts.
fn texts<const N: usize>(alloc: Global, count: usize) -> Result<Vec<ByteBuf<N>>, AllocError>
    requires { N < 2 ^ 32 }
{
    let mut texts = Vec::with_capacity(alloc, count)?;
    for _ in 0..count {
        texts.push(ByteBuf::new())?;
    }
    Ok(texts)
}

/// Helpers, and buffers for the texts sent to them.
#[derive(Drop)]
pub(crate) struct Helped {
    helpers: Helpers,
    /// How many threads to use at most, the calling one among them.
    threads: usize,
    leaves: Vec<ByteBuf<LEAF_BYTES>>,
    nodes: Vec<ByteBuf<NODE_BYTES>>,
}

impl Helped {
    /// Without helpers.
    pub(crate) fn alone(alloc: Global) -> Helped {
        Helped {
            helpers: Helpers::none(alloc),
            threads: 1,
            leaves: Vec::new(alloc),
            nodes: Vec::new(alloc),
        }
    }

    /// Starts `count` helpers, or as many as possible.
    pub(crate) fn start<R: Host>(rt: R, alloc: Global, count: usize) -> Result<Helped, AllocError> {
        if count == 0 {
            return Ok(Helped::alone(alloc));
        }
        let leaves = texts(alloc, ROUND)?;
        let nodes = texts(alloc, TEXTS * MOST_HELPERS)?;
        Ok(Helped {
            helpers: Helpers::start(rt, alloc, count.min(MOST_HELPERS)),
            threads: 1,
            leaves,
            nodes,
        })
    }

    /// Uses at most `threads` threads from now on, the calling one among them.
    pub(crate) fn use_threads(&mut self, threads: usize) {
        self.threads = threads;
    }

    /// Number of helpers to use.
    fn most(&self) -> usize
        ensures { result ≤ MOST_HELPERS }
    {
        self.helpers
            .len()
            .min(self.threads.saturating_sub(1))
            .min(MOST_HELPERS)
    }

    /// Hashes leaves.
    pub(crate) fn do_leaves(&mut self, jobs: &mut [Job], places: &Leaves<'_>)
        requires { All (λ job. job.place < LEAVES) jobs.old }
        ensures { IsDone (leaf_hash places.now.store.now.rows) jobs.old jobs.new }
    {
        let most = self.most();
        if most == 0 || jobs.len() < FEWEST_LEAVES || self.leaves.len() < ROUND {
            do_jobs::<LEAF_BYTES, _>(jobs, places);
            return;
        }
        let sharing = Sharing {
            places,
            most,
            size: LONG_TEXTS,
        };
        places.arrange(jobs);
        do_rounds(&mut self.helpers, &sharing, jobs, &mut self.leaves);
    }

    /// Joins nodes.
    pub(crate) fn do_nodes(&mut self, jobs: &mut [Job], places: &InnerNodes<'_>)
        requires { All (λ job. (left_of job.place + 1 < length places.now.nodes.now) × (job.place < 2 * LEAVES)) jobs.old }
        ensures { IsDone (join_at places.now.nodes.now) jobs.old jobs.new }
    {
        let most = self.most();
        if most == 0 || jobs.len() < FEWEST_NODES {
            do_jobs::<NODE_BYTES, _>(jobs, places);
            return;
        }
        // The calling thread takes a fifth more than a helper, since helpers begin later.
        let size = (5 * jobs.len() / (5 * most + 6)).clamp(1, TEXTS);
        let sharing = Sharing { places, most, size };
        let given = (size * most).min(self.nodes.len()).min(jobs.len());
        do_level(&mut self.helpers, &sharing, given, jobs, &mut self.nodes);
    }
}
