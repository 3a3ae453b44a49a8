// The shelf with a list at its seat.
ghost use Rattle.std.specs.Prelude.{◌≡◌, List, length};
ghost use Rattle.model.specs.Outcome.{done};
ghost use Rattle.model.specs.Post.{postings};
ghost use Rattle.shelf.specs.Walk.{Listing};
ghost use Rattle.shelf.specs.Check.{checked};
ghost use Rattle.list.specs.Answer.{Gives};
ghost use Rattle.change.specs.Seat.{placed, Placeable};

use crate::seat::Seat;
use model::refusal::{Fault, Refusal};

// Writes the shelf with the list of these postings, or none, at its seat; or gives number 11 or 9.
pub fn place(
    s: &[u8],
    seat: Seat,
    term: u32,
    docs: &[u32],
    scores: &[u16],
    out: &mut [u8],
) -> Result<usize, Refusal>
    requires { Placeable s.now seat docs.now scores.now }
    ensures { (ls : List Listing) → checked s.now ≡ done ls → Gives (placed s.now (length ls) seat term (postings docs.now scores.now) (length out.old)) out.old out.new result }
{
    if model::MAX_POSTINGS < docs.len() {
        return Err(Fault::Size.at(0));
    }
    let strip = crate::seat::strip_of(s, seat);
    match seat {
        Seat::Taken(p) => {
            let at = p.at;
            let next = p.next;
            crate::splice::splice(s, at, next, strip, term, docs, scores, out)
        }
        Seat::Free(at) => {
            if model::MAX_LISTS as usize <= crate::seat::lists_in(s) {
                return Err(Fault::Size.at(0));
            }
            crate::splice::splice(s, at, at, strip, term, docs, scores, out)
        }
    }
}
