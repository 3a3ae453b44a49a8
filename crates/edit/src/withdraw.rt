// A sheet taken out of every list: one pass over the lists adds up what is left, one writes it.
ghost use Rattle.std.specs.Prelude.{◌≡◌, List, ◌+◌, ◌≤◌, length};
ghost use Rattle.model.specs.Outcome.{done};
ghost use Rattle.model.specs.Runs.{Stored};
ghost use Rattle.shelf.specs.Walk.{Listing};
ghost use Rattle.shelf.specs.Check.{checked};
ghost use Rattle.list.specs.Answer.{Gives};
ghost use Rattle.change.specs.Edits.{Withdraw, every};
ghost use Rattle.change.specs.Bytes.{pieces, joined, clear_pieces, settled};
ghost use Rattle.change.specs.Seat.{Sounds, Wide};
ghost use Rattle.edit.specs.Left.{Sized, LeftOf, left_bytes, Measures};

use change::seat::Seat;
use model::refusal::{Fault, Refusal};
use shelf::walk::{Place, Walk};

// How many bytes are left, and whether the docid was held.
#[derive(Drop)]
pub struct Left {
    pub bytes: usize,
    pub held: bool,
}

// What is left of a list: one that does not hold the docid is not read whole.
fn list_left(s: &[u8], list: Place, d: u32, docs: &mut [u32], scores: &mut [u16]) -> Left
    requires { Sized s.now list docs.old scores.old }
    ensures { LeftOf s.now list d result }
{
    if !crate::holds::holds(s, list, d) {
        return Left {
            bytes: list.next - list.at,
            held: false,
        };
    }
    let n = list::read::fill(s, list, docs, scores);
    let m = change::runs::without(docs, scores, n, d);
    Left {
        bytes: change::splice::new_len(&docs[0..m], &scores[0..m]),
        held: true,
    }
}

// Stores what is left of a list at a place that has room, and gives the place past it.
fn put_left(
    s: &[u8],
    list: Place,
    d: u32,
    docs: &mut [u32],
    scores: &mut [u16],
    out: &mut [u8],
    at: usize,
) -> usize
    requires { Sized s.now list docs.old scores.old × (at + length (left_bytes s.now list d) ≤ length out.old) }
    ensures { Stored out.old out.new at result (left_bytes s.now list d) }
{
    if !crate::holds::holds(s, list, d) {
        let from = list.at;
        let to = list.next;
        return change::copy::copy(out, at, s, from, to);
    }
    let n = list::read::fill(s, list, docs, scores);
    let m = change::runs::without(docs, scores, n, d);
    let term = list.term;
    let strip = change::seat::strip_of(s, Seat::Taken(list));
    change::splice::put_new(out, at, strip, term, &docs[0..m], &scores[0..m])
}

// What is left of all lists of a sound shelf.
fn measure(s: &[u8], d: u32, docs: &mut [u32], scores: &mut [u16]) -> Left
    requires { Sounds s.now × Wide docs.old scores.old }
    ensures { (ls : List Listing) → checked s.now ≡ done ls → Measures s.now d ls result }
{
    let mut lists = Walk::new();
    let mut bytes: usize = 0;
    let mut held = false;
    while let Ok(Some(list)) = lists.next(s) {
        let l = list_left(s, list, d, docs, scores);
        bytes += l.bytes;
        held = held | l.held;
    }
    Left { bytes, held }
}

// Stores what is left of all lists at the front of a buffer that has room, and gives its length.
fn put_all(s: &[u8], d: u32, docs: &mut [u32], scores: &mut [u16], out: &mut [u8]) -> usize
    requires { Sounds s.now × Wide docs.old scores.old × ((ls : List Listing) → checked s.now ≡ done ls → length (joined (clear_pieces every d (pieces s.now ls))) ≤ length out.old) }
    ensures { (ls : List Listing) → checked s.now ≡ done ls → Stored out.old out.new 0 result (joined (clear_pieces every d (pieces s.now ls))) }
{
    let mut lists = Walk::new();
    let mut j: usize = 0;
    while let Ok(Some(list)) = lists.next(s) {
        j = put_left(s, list, d, docs, scores, out, j);
    }
    j
}

fn withdraw_in(
    s: &[u8],
    docid: u32,
    docs: &mut [u32],
    scores: &mut [u16],
    out: &mut [u8],
) -> Result<usize, Refusal>
    requires { Sounds s.now × Wide docs.old scores.old }
    ensures { (ls : List Listing) → checked s.now ≡ done ls → Gives (settled (Withdraw docid) (pieces s.now ls) (length out.old)) out.old out.new result }
{
    let left = measure(s, docid, docs, scores);
    if !left.held {
        return Err(Fault::Absent.at(0));
    }
    if model::MAX_SHELF < left.bytes {
        return Err(Fault::Size.at(0));
    }
    if out.len() < left.bytes {
        return Err(Fault::Room.at(0));
    }
    Ok(put_all(s, docid, docs, scores, out))
}

pub(crate) fn withdraw_sound(s: &[u8], docid: u32, out: &mut [u8]) -> Result<usize, Refusal>
    requires { Sounds s.now }
    ensures { (ls : List Listing) → checked s.now ≡ done ls → Gives (settled (Withdraw docid) (pieces s.now ls) (length out.old)) out.old out.new result }
{
    let mut docs = [0u32; 6401];
    let mut scores = [0u16; 6401];
    withdraw_in(s, docid, &mut docs, &mut scores, out)
}
