// Where a term's list stands in a sound shelf, or would stand.
ghost use Rattle.std.specs.Prelude.{◌≡◌, List, length};
ghost use Rattle.model.specs.Outcome.{done};
ghost use Rattle.shelf.specs.Walk.{Listing};
ghost use Rattle.shelf.specs.Check.{checked};
ghost use Rattle.change.specs.Seat.{Sounds, seat_of, Fills, Held, strip_by, Stood};

use shelf::walk::{Place, Walk};

// The list itself; or the place where it would begin. No `Option` or `Result`: both carry a place, and neither is a failure.
#[derive(Clone, Copy)]
pub enum Seat {
    Taken(Place),
    Free(usize),
}

// The seat of a term in a sound shelf.
pub fn find_seat(s: &[u8], term: u32) -> Seat
    requires { Sounds s.now }
    ensures { (ls : List Listing) → checked s.now ≡ done ls → result ≡ seat_of term 0 ls }
{
    let mut lists = Walk::new();
    while let Ok(Some(list)) = lists.next(s) {
        if term < list.term {
            return Seat::Free(list.at);
        }
        if term == list.term {
            return Seat::Taken(list);
        }
    }
    Seat::Free(s.len())
}

// How many lists a sound shelf has.
pub(crate) fn lists_in(s: &[u8]) -> usize
    requires { Sounds s.now }
    ensures { (ls : List Listing) → checked s.now ≡ done ls → result ≡ length ls }
{
    let mut lists = Walk::new();
    let mut n: usize = 0;
    while let Ok(Some(list)) = lists.next(s) {
        n += 1;
    }
    n
}

// The postings of a seat's list, put at the front of two runs that have room for them; gives how many there are.
pub fn held(s: &[u8], seat: Seat, docs: &mut [u32], scores: &mut [u16]) -> usize
    requires { Fills s.now seat (length docs.old) (length scores.old) }
    ensures { Held s.now seat docs.old scores.old result docs.new scores.new }
{
    match seat {
        Seat::Taken(p) => list::read::fill(s, p, docs, scores),
        Seat::Free(at) => 0,
    }
}

// The layout of a seat's list; that of a new one where there is none.
pub fn strip_of(s: &[u8], seat: Seat) -> bool
    requires { Stood seat }
    ensures { result ≡ strip_by s.now seat }
{
    match seat {
        Seat::Taken(p) => block::body::is_strip(s, p.at + 8 + 12 * (p.count as usize)),
        Seat::Free(at) => false,
    }
}
