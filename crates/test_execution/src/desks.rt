//! Seats of a desk, by turns on one thread: nobody draws; what one seat raises the other one sees; a seat draws past the last
//! place. No contract says that a seat sees what another one raised.
ghost use Rattle.std.specs.Prelude.{◌≡◌, ◌<◌};
ghost use Rattle.tickets.specs.Seats.{IsNewSeatOf, IsSeatOf, places_of};

use std::alloc::Global;
use tickets::{Desk, Seat};

fn is_shared<T: Sync>(_value: &T) {}

fn is_sent<T: Send>(_value: &T) {}

/// Whether nothing is drawn or raised at first. A desk may be shared between threads, and a seat sent to one.
fn is_untouched(alloc: Global) -> Option<bool> {
    let (desk, seats) = Desk::new(alloc, 3, 2).ok()?;
    is_shared(&desk);
    is_sent(&seats[0]);
    Some(desk.close(seats) == (0, 0))
}

/// A seat draws a place, which it raises if it is the first, and looks whether it is to stop.
fn take_turn(desk: &Desk, seat: &mut Seat) -> (usize, bool)
    requires new { IsNewSeatOf desk.now seat.old }
    requires places { 0 < places_of desk.now }
    ensures { IsSeatOf desk.now seat.new }
{
    let place = desk.draw(seat);
    if place == 0 {
        desk.raise(seat, place);
    }
    (place, desk.look(seat))
}

/// Whether both of two seats see what the first one raises, when they drew one place each of three.
fn is_seen_by_both(alloc: Global) -> Option<bool> {
    let (desk, mut seats) = Desk::new(alloc, 3, 2).ok()?;
    let one = take_turn(&desk, &mut seats[0]);
    let other = take_turn(&desk, &mut seats[1]);
    Some(one == (0, true) && other == (1, true) && desk.close(seats) == (2, 1))
}

/// A seat of a desk of two places draws one, looks, draws the other, and draws past the end.
fn draw_all(desk: &Desk, seat: &mut Seat) -> ([usize; 3], bool)
    requires new { IsNewSeatOf desk.now seat.old }
    requires places { places_of desk.now ≡ 2 }
    ensures { IsSeatOf desk.now seat.new }
{
    let mut drawn = [desk.draw(seat), 0, 0];
    let is_raised = desk.look(seat);
    if drawn[0] < 2 && !is_raised {
        drawn[1] = desk.draw(seat);
    }
    if drawn[1] == 1 {
        drawn[2] = desk.draw(seat);
    }
    (drawn, is_raised)
}

/// Whether a seat draws each of two places, and then none, and sees nothing raised.
fn ends(alloc: Global) -> Option<bool> {
    let (desk, mut seats) = Desk::new(alloc, 2, 1).ok()?;
    let ([first, second, third], is_raised) = draw_all(&desk, &mut seats[0]);
    let words = desk.close(seats);
    Some(first == 0 && second == 1 && 2 <= third && !is_raised && words == (3, 0))
}

/// Whether all of this holds.
pub fn are_right(alloc: Global) -> Option<bool> {
    Some(is_untouched(alloc)? && is_seen_by_both(alloc)? && ends(alloc)?)
}
