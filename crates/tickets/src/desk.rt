//! The two words that the workers of a level share.
ghost use Rattle.std.specs.Prelude.{◌≡◌, ◌<◌, ◌≤◌};
ghost use Rattle.tickets.specs.declared.size.TheConstants.{MOST_PLACES, MOST_WORKERS};

use crate::entry::View;
use crate::rule::{Deals, Draws, Looks, Raises, ShowsWorld};
use crate::seat::Seat;
use crate::size::Size;
use atomic_table::Table;
use memory_refusal::Memory;
use std::alloc::Global;

/// The word that counts tickets.
const TICKET: usize = 0;

/// The stop flag: 1 once all are to stop.
const HALT: usize = 1;

/// The places of a level, drawn in order by workers on any threads. Each step of a worker is one atomic operation on one
/// word.
#[derive(Drop)]
pub struct Desk {
    table: Table<u8, View, Size, ShowsWorld, Global>,
    size: Size,
    ghost sized: { table.shared.key ≡ size },
    ghost two_words: { table.shared.table_id.words ≡ 2 },
    ghost no_slots: { table.shared.table_id.slots ≡ 0 },
    ghost small: { (size.places ≤ MOST_PLACES) × (size.workers ≤ MOST_WORKERS) × (0 < size.workers) },
}

impl Desk {
    ghost use Rattle.std.specs.Prelude.{All, IfOk, Some, is_some, false, true, length, map, min, vec_len};
    ghost use Rattle.std.specs.List.{Any, list_any};
    ghost use Rattle.tickets.specs.Entries.{acted, blanks, has_stopped, last_drawn, with_look, with_raise};
    ghost use Rattle.tickets.specs.Once.{SomeRaised};
    ghost use Rattle.tickets.specs.Rule.{Begins, IsAlone, flag, last_world};
    ghost use Rattle.tickets.specs.Seats.{AreDrawn, AreOfOneLine, Closes, HasEnded, HasRaised, HasSeen, HasTaken, HasStoppedQuietly, IsNewSeatOf, IsSeatOf, entry_of, places_of, workers_of};

    /// A desk, and a seat for each worker.
    pub fn new(alloc: Global, places: usize, workers: usize) -> Result<(Desk, Vec<Seat>), Memory>
        requires places { places ≤ MOST_PLACES }
        requires workers { (0 < workers) × (workers ≤ MOST_WORKERS) }
        ensures size { IfOk result (λ r. (places_of r.0 ≡ places) × (workers_of r.0 ≡ workers) × (vec_len r.1 ≡ workers)) }
        ensures entries { IfOk result (λ r. map entry_of r.1.items ≡ blanks places workers 0 workers) }
        ensures own { IfOk result (λ r. All (IsNewSeatOf r.0) r.1.items) }
    {
        let size = Size {
            places: places as u64,
            workers: workers as u64,
        };
        let (table, mut rest) = Table::of_words(alloc, &[0, 0], &size)?;
        let mut seats = Vec::new(alloc);
        for _ in 0..workers {
            let inner = table.shared.split_seat::<Deals>(&mut rest);
            seats.push(Seat { inner })?;
        }
        Ok((Desk { table, size }, seats))
    }

    /// Draws the next place, or a number past the end.
    pub fn draw(&self, seat: &mut Seat) -> usize
        requires own { IsSeatOf self.now seat.old }
        requires going { has_stopped (entry_of seat.old) ≡ false }
        ensures own { IsSeatOf self.now seat.new }
        ensures taken { result < places_of self.now → HasTaken result (entry_of seat.old) (entry_of seat.new) }
        ensures past { places_of self.now ≤ result → HasEnded (entry_of seat.old) (entry_of seat.new) }
        ensures alone { result < places_of self.now → IsAlone result (entry_of seat.new) }
        ensures line { Begins (entry_of seat.old).history (entry_of seat.new).history }
        ensures rising { All (λ place. place < result) (entry_of seat.old).drawn }
        ensures count { length (entry_of seat.old).drawn ≤ result }
    {
        let words = &self.table.shared;
        words.fetch_add::<Draws>(&mut seat.inner, TICKET, 1) as usize
    }

    /// Raises the place that the seat drew last, which strays: its worker stops, and all are to stop.
    pub fn raise(&self, seat: &mut Seat, place: usize)
        requires own { IsSeatOf self.now seat.old }
        requires going { has_stopped (entry_of seat.old) ≡ false }
        requires last { last_drawn (entry_of seat.old) ≡ Some place }
        ensures own { IsSeatOf self.now seat.new }
        ensures entry { entry_of seat.new ≡ acted (entry_of seat.new).history (with_raise (entry_of seat.old)) }
        ensures line { Begins (entry_of seat.old).history (entry_of seat.new).history }
        ensures raised { (entry_of seat.new).raised ≡ Some place }
        ensures stopped { has_stopped (entry_of seat.new) ≡ true }
    {
        let words = &self.table.shared;
        words.fetch_or::<Raises>(&mut seat.inner, HALT, 1);
    }

    /// Whether the seat sees the stop.
    pub fn look(&self, seat: &mut Seat) -> bool
        requires own { IsSeatOf self.now seat.old }
        ensures own { IsSeatOf self.now seat.new }
        ensures entry { entry_of seat.new ≡ acted (entry_of seat.new).history (with_look result (entry_of seat.old)) }
        ensures line { Begins (entry_of seat.old).history (entry_of seat.new).history }
        ensures raised { result ≡ true → SomeRaised (last_world (entry_of seat.new)) }
        ensures seen { result ≡ true → has_stopped (entry_of seat.new) ≡ true }
        ensures unseen { result ≡ false → entry_of seat.new ≡ entry_of seat.old }
        ensures after_raise { HasRaised seat.old → result ≡ true }
        ensures after_look { HasSeen seat.old → result ≡ true }
    {
        let words = &self.table.shared;
        words.load::<Looks>(&mut seat.inner, HALT) == 1
    }

    /// The two words once all seats are back: the number of draws, and 1 if some seat raised.
    pub fn close(self, mut seats: Vec<Seat>) -> (u64, u64)
        requires all { vec_len seats ≡ workers_of self }
        requires own { All (IsSeatOf self) seats.items }
        ensures rule { Closes self result seats.items }
        ensures drawn { AreDrawn (min result.0 (places_of self)) seats.items }
        ensures all_drawn { All HasStoppedQuietly seats.items → AreDrawn (places_of self) seats.items }
        ensures line { AreOfOneLine seats.items }
        ensures halt { result.1 ≡ flag (list_any (λ seat. is_some (entry_of seat).raised) seats.items) }
        ensures saw { Any HasSeen seats.items → Any HasRaised seats.items }
    {
        let Desk { table, size: _ } = self;
        let Some(last) = seats.pop() else {
            unreachable!()
        };
        let Seat { inner: mut joined } = last;
        while let Some(seat) = seats.pop() {
            let Seat { inner } = seat;
            table.shared.join_seat::<Deals>(&mut joined, inner);
        }
        let closed = table.close_with(joined);
        let words = (closed.word(TICKET), closed.word(HALT));
        closed.free();
        words
    }
}
