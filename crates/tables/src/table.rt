//! Rows of one kind in a sorted vector, by rank.
ghost use Rattle.std.specs.Prelude.{◌≡◌, ◌<◌, ◌≤◌, ◌+◌, ◌^◌, Err, IfOk, IsTrue, None, Ok, OnErr, OnOk, cond, is_some, length, option_copied, option_map, slice_get, true, unwrap_or};
ghost use Rattle.std.specs.FinMap as map;
ghost use Rattle.std.specs.List.{HoldsAt, insert, remove, slice_set};
ghost use Rattle.std.specs.Ordering.{nat_cmp};
ghost use Rattle.tables.specs.ByRank.{IsPartedAt};
ghost use Rattle.tpcc_rows.specs.Places.{IsPlaceOf, are_in_order};

use std::alloc::Global;
use std::marker::Model;
use std::mem;
use tpcc_rows::memory::Memory;

/// How far from a hint a row is searched.
const NEAR: usize = 32;

/// A finite map from ranks to rows.
#[derive(Drop)]
pub struct Table<R> {
    entries: Vec<(u64, R)>,
}

impl<R> Model for Table<R> {
    ghost use Rattle.std.specs.Prelude.{◌≡◌, true};
    ghost use Rattle.std.specs.FinMap as map;
    ghost use Rattle.std.specs.Ordering.{nat_cmp};
    ghost use Rattle.tables.specs.ByRank.{ByRank, by_rank_code};
    ghost use Rattle.tpcc_rows.specs.Places.{are_in_order};

    ghost Value = { ByRank R };

    ghost coded = { by_rank_code R.code };

    ghost view = { λ s. map.from_sorted s.entries.items };

    ghost invariant = { λ s. are_in_order nat_cmp s.entries.items ≡ true };
}

/// Where the rank is if there are no gaps since the first. Any answer will do: it is only a hint.
fn guess<R>(entries: &[(u64, R)], rank: u64) -> usize {
    match entries.first() {
        Some((first, _)) => (rank.saturating_sub(*first) / 16) as usize,
        None => 0,
    }
}

/// The first place from this one on, but not far from it, whose rank isn't less.
fn upwards<R>(entries: &[(u64, R)], rank: u64, place: usize) -> usize {
    let mut found = place;
    for _ in 0..NEAR {
        match entries.get(found) {
            Some((other, _)) if *other < rank => found = found.wrapping_add(1),
            _ => return found,
        }
    }
    found
}

/// The least place up to this one, but not far from it, such that no rank between them is less.
fn downwards<R>(entries: &[(u64, R)], rank: u64, place: usize) -> usize {
    let mut found = place;
    for _ in 0..NEAR {
        match entries.get(found.wrapping_sub(1)) {
            Some((other, _)) if rank <= *other => found = found.wrapping_sub(1),
            _ => return found,
        }
    }
    found
}

/// Where the rank is, if it is near the place.
fn near<R>(entries: &[(u64, R)], rank: u64, place: usize) -> usize {
    downwards(entries, rank, upwards(entries, rank, place))
}

/// Whether the rank is at the place.
pub(crate) fn is_at<R>(entries: &[(u64, R)], rank: u64, place: usize) -> bool
    ensures { IsTrue result → IsPlaceOf nat_cmp rank entries.now (Ok place) }
{
    match entries.get(place) {
        Some((other, _)) => *other == rank,
        None => false,
    }
}

/// Whether the rank is greater than the last one.
pub(crate) fn is_behind<R>(entries: &[(u64, R)], rank: u64) -> bool
    requires { are_in_order nat_cmp entries.now ≡ true }
    ensures { IsTrue result → IsPlaceOf nat_cmp rank entries.now (Err (length entries.now)) }
{
    match entries.last() {
        Some((last, _)) => *last < rank,
        None => false,
    }
}

/// Whether the rank is between those of the place and of the one before, so that it would be inserted there.
fn is_between<R>(entries: &[(u64, R)], rank: u64, place: usize) -> bool
    requires { are_in_order nat_cmp entries.now ≡ true }
    ensures { IsTrue result → IsPlaceOf nat_cmp rank entries.now (Err place) }
{
    if place == 0 || entries.len() <= place {
        return false;
    }
    entries[place - 1].0 < rank && rank < entries[place].0
}

/// Where the rank is, or where it would be inserted.
fn search<R>(entries: &[(u64, R)], rank: u64) -> Result<usize, usize>
    requires { are_in_order nat_cmp entries.now ≡ true }
    ensures { IsPlaceOf nat_cmp rank entries.now result }
{
    entries.binary_search_by(|entry| entry.0.cmp(&rank))
}

/// Where the rank is, or where it would be inserted, if the hint doesn't tell: near the hint, or by binary search. Not inlined, so that
/// the looks at the hint and at the end are.
#[inline(never)]
fn place_apart<R>(entries: &[(u64, R)], rank: u64, guess: usize) -> Result<usize, usize>
    requires { are_in_order nat_cmp entries.now ≡ true }
    ensures { IsPlaceOf nat_cmp rank entries.now result }
{
    let near = near(entries, rank, guess);
    if is_at(entries, rank, near) {
        return Ok(near);
    }
    if is_between(entries, rank, near) {
        return Err(near);
    }
    search(entries, rank)
}

/// Where the rank is, or where it would be inserted: at the hint, at the end, or apart from both.
fn place_of<R>(entries: &[(u64, R)], rank: u64, guess: usize) -> Result<usize, usize>
    requires { are_in_order nat_cmp entries.now ≡ true }
    ensures { IsPlaceOf nat_cmp rank entries.now result }
{
    if is_at(entries, rank, guess) {
        return Ok(guess);
    }
    if is_between(entries, rank, guess) {
        return Err(guess);
    }
    if is_behind(entries, rank) {
        return Err(entries.len());
    }
    place_apart(entries, rank, guess)
}

/// The row of the rank, if there is one.
fn found<R>(entries: &[(u64, R)], rank: u64, guess: usize) -> Option<&R>
    requires { are_in_order nat_cmp entries.now ≡ true }
    ensures { option_copied result ≡ map.find nat_cmp rank entries.now }
{
    match place_of(entries, rank, guess) {
        Ok(place) => Some(&entries[place].1),
        Err(_) => None,
    }
}

/// Where the rank is, or where it would be inserted: the place from which on the ranks aren't less.
fn start<R>(entries: &[(u64, R)], rank: u64, guess: usize) -> usize
    requires { are_in_order nat_cmp entries.now ≡ true }
    ensures { IsPartedAt entries.now rank result }
{
    match place_of(entries, rank, guess) {
        Ok(place) => place,
        Err(place) => place,
    }
}

/// The row of the rank, if there is one, where the ranks from the place on aren't less; and the place from which on they are
/// greater.
fn found_next<R>(entries: &[(u64, R)], rank: u64, place: usize) -> (Option<&R>, usize)
    requires order { are_in_order nat_cmp entries.now ≡ true }
    requires place { IsPartedAt entries.now rank place }
    ensures value { option_copied result.0 ≡ map.find nat_cmp rank entries.now }
    ensures next { IsPartedAt entries.now (rank + 1) result.1 }
{
    match entries.get(place) {
        Some((other, row)) if *other == rank => (Some(row), place + 1),
        _ => (None, place),
    }
}

/// Replaces the entry at the place, and returns its row.
fn replace<R>(entries: &mut Vec<(u64, R)>, place: usize, entry: (u64, R)) -> R
    requires { place < length entries.old.items }
    ensures value { HoldsAt (λ entry. entry.1 ≡ result) entries.old.items place }
    ensures after { entries.new.items ≡ slice_set entries.old.items place entry }
{
    let (_, row) = mem::replace(&mut entries[place], entry);
    row
}

/// Inserts an entry of a new rank at the place.
fn insert<R: Drop>(
    entries: &mut Vec<(u64, R)>,
    place: usize,
    entry: (u64, R),
) -> Result<Option<R>, Memory>
    requires { place ≤ length entries.old.items }
    ensures value { IfOk result (λ was. was ≡ None) }
    ensures ok { OnOk result (entries.new.items ≡ insert entries.old.items place entry) }
    ensures err { OnErr result (entries.new.items ≡ entries.old.items) }
{
    if place == entries.len() {
        entries.push(entry)?;
    } else {
        entries.insert(place, entry)?;
    }
    Ok(None)
}

/// Exchanges the row of the rank's entry, which is at the place, for this one.
fn swap<R>(entries: &mut Vec<(u64, R)>, place: usize, rank: u64, row: &mut R)
    requires { (place < length entries.old.items) × HoldsAt (λ entry. entry.0 ≡ rank) entries.old.items place }
    ensures value { HoldsAt (λ entry. entry.1 ≡ row.new) entries.old.items place }
    ensures after { entries.new.items ≡ slice_set entries.old.items place (rank, row.old) }
{
    mem::swap(&mut entries[place].1, row);
}

/// Removes the entry at the place, and returns its row.
fn remove<R>(entries: &mut Vec<(u64, R)>, place: usize) -> R
    requires { place < length entries.old.items }
    ensures value { HoldsAt (λ entry. entry.1 ≡ result) entries.old.items place }
    ensures after { entries.new.items ≡ remove entries.old.items place }
{
    let (_, row) = entries.remove(place);
    row
}

impl<R> Table<R> {
    /// No rows.
    pub fn new(alloc: Global) -> Table<R>
        ensures { result ≡ map.empty }
    {
        Table {
            entries: Vec::new(alloc),
        }
    }

    pub fn get(&self, rank: u64) -> Option<&R>
        ensures { option_copied result ≡ map.get self.now rank }
    {
        let guess = guess(&self.entries, rank);
        found(&self.entries, rank, guess)
    }

    /// The same, with a hint at the rank's place.
    pub fn get_near(&self, rank: u64, place: usize) -> Option<&R>
        ensures { option_copied result ≡ map.get self.now rank }
    {
        found(&self.entries, rank, place)
    }

    /// The place from which on the ranks aren't less, with a hint at it.
    pub fn start(&self, rank: u64, place: usize) -> usize
        ensures { IsPartedAt (map.entries self.now) rank result }
    {
        start(&self.entries, rank, place)
    }

    /// The row of the rank, if there is one, where the ranks from the place on aren't less; and the place from which on they are
    /// greater.
    pub fn next(&self, rank: u64, place: usize) -> (Option<&R>, usize)
        requires { IsPartedAt (map.entries self.now) rank place }
        ensures value { option_copied result.0 ≡ map.get self.now rank }
        ensures next { IsPartedAt (map.entries self.now) (rank + 1) result.1 }
    {
        found_next(&self.entries, rank, place)
    }

    /// Exchanges the rank's row for this one, and returns true; or returns false if it has none.
    pub fn swap(&mut self, rank: u64, row: &mut R) -> bool
        ensures found { result ≡ is_some (map.get self.old rank) }
        ensures row { row.new ≡ unwrap_or (map.get self.old rank) row.old }
        ensures after { self.new ≡ cond result (map.insert self.old rank row.old) self.old }
    {
        let guess = guess(&self.entries, rank);
        self.swap_near(rank, row, guess)
    }

    /// The same, with a hint at the rank's place.
    pub fn swap_near(&mut self, rank: u64, row: &mut R, expected: usize) -> bool
        ensures found { result ≡ is_some (map.get self.old rank) }
        ensures row { row.new ≡ unwrap_or (map.get self.old rank) row.old }
        ensures after { self.new ≡ cond result (map.insert self.old rank row.old) self.old }
    {
        match place_of(&self.entries, rank, expected) {
            Ok(place) => {
                swap(&mut self.entries, place, rank, row);
                true
            }
            Err(_) => false,
        }
    }

    /// The row at a place, whatever its rank. It isn't read yet.
    pub fn row_at(&self, place: usize) -> Option<&R>
        ensures { option_copied result ≡ option_map (λ entry. entry.1) (slice_get (map.entries self.now) place) }
    {
        match self.as_slice().get(place) {
            Some((_, row)) => Some(row),
            None => None,
        }
    }

    /// The row where the rank's is expected, which may be another's: a hint, on which nothing relies. It isn't read yet.
    pub fn expected(&self, rank: u64) -> Option<&R> {
        self.row_at(guess(&self.entries, rank))
    }

    /// The rows with their ranks, in ascending rank.
    pub fn as_slice(&self) -> &[(u64, R)]
        ensures { result.now ≡ map.entries self.now }
    {
        self.entries.as_slice()
    }

    /// The number of rows.
    pub fn len(&self) -> usize
        ensures { result ≡ length (map.entries self.now) }
    {
        self.as_slice().len()
    }
}

impl<R: Drop> Table<R> {
    /// Inserts or replaces the rank's row, and returns the old one. Only an insertion can be refused memory.
    pub fn put(&mut self, rank: u64, row: R) -> Result<Option<R>, Memory>
        ensures value { IfOk result (λ was. was ≡ map.get self.old rank) }
        ensures ok { OnOk result (self.new ≡ map.insert self.old rank row) }
        ensures err { OnErr result (self.new ≡ self.old) }
        ensures new { OnErr result (map.get self.old rank ≡ None) }
    {
        let guess = guess(&self.entries, rank);
        self.put_near(rank, row, guess)
    }

    /// The same, with a hint at the rank's place.
    pub fn put_near(&mut self, rank: u64, row: R, expected: usize) -> Result<Option<R>, Memory>
        ensures value { IfOk result (λ was. was ≡ map.get self.old rank) }
        ensures ok { OnOk result (self.new ≡ map.insert self.old rank row) }
        ensures err { OnErr result (self.new ≡ self.old) }
        ensures new { OnErr result (map.get self.old rank ≡ None) }
    {
        match place_of(&self.entries, rank, expected) {
            Ok(place) => Ok(Some(replace(&mut self.entries, place, (rank, row)))),
            Err(place) => insert(&mut self.entries, place, (rank, row)),
        }
    }

    /// Removes the rank's row, and returns it.
    pub fn remove(&mut self, rank: u64) -> Option<R>
        ensures value { result ≡ map.get self.old rank }
        ensures after { self.new ≡ map.remove self.old rank }
    {
        let guess = guess(&self.entries, rank);
        match place_of(&self.entries, rank, guess) {
            Ok(place) => Some(remove(&mut self.entries, place)),
            Err(_) => None,
        }
    }
}
