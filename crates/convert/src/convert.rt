// "A converter turns a list to the other layout, block by block." A body is as long in either layout, so the shelf is copied as it stands, and
// then each body of the list is written over, at its own place.
ghost use Rattle.std.specs.Prelude.{◌≡◌, List, not, ◌+◌, ◌*◌, ◌≤◌, length};
ghost use Rattle.std.proofs.lemmas.List.Edits.{sets};
ghost use Rattle.model.specs.Outcome.{done};
ghost use Rattle.model.specs.Runs.{Stored};
ghost use Rattle.wire.specs.Field.{field_bytes};
ghost use Rattle.block.specs.Body.{tag_of, body_bytes, body_run};
ghost use Rattle.shelf.specs.Walk.{Listing, blocks_at};
ghost use Rattle.shelf.specs.Check.{checked};
ghost use Rattle.list.specs.Answer.{Gives};
ghost use Rattle.change.specs.Seat.{Sounds};
ghost use Rattle.convert.specs.Convert.{turning, converted, turned_bodies, Turns, Turnable};

use block::summary::Summary;
use change::seat::Seat;
use model::refusal::{Fault, Refusal};
use shelf::blocks::Reading;
use shelf::walk::Place;

// A right body in the other layout, as a field at a place that has room; gives the place past it.
fn turn_body(body: &[u8], m: Summary, out: &mut [u8], at: usize) -> usize
    requires { Turns m body.now × (at + 3 + length body.now ≤ length out.old) }
    ensures { Stored out.old out.new at result (field_bytes (tag_of (not m.strip)) (body_bytes (not m.strip) (body_run m body.now))) }
{
    let mut docs = [0u32; 100];
    let mut scores = [0u16; 100];
    block::body::read_body(body, m, &mut docs, &mut scores, 0);
    let n = m.count as usize;
    list::write::put_body_field(out, at, !m.strip, &docs[0..n], &scores[0..n])
}

// All bodies of a list of a sound shelf, written over at their places.
fn turn_bodies(s: &[u8], list: Place, out: &mut [u8])
    requires { Turnable s.now list out.old }
    ensures { out.new ≡ sets out.old (list.at + 8 + 12 * list.count) (turned_bodies (blocks_at s.now list.at list.count)) }
{
    let mut reading = Reading::new(list);
    while let Some(b) = reading.next(s) {
        turn_body(&s[b.start..b.end], b.summary, out, b.start - 3);
    }
}

// The list of a term on a sound shelf: 12, then 9.
fn convert_sound(s: &[u8], term: u32, out: &mut [u8]) -> Result<usize, Refusal>
    requires { Sounds s.now }
    ensures { (ls : List Listing) → checked s.now ≡ done ls → Gives (turning term s.now ls (length out.old)) out.old out.new result }
{
    let Seat::Taken(list) = change::seat::find_seat(s, term) else {
        return Err(Fault::Absent.at(0));
    };
    if out.len() < s.len() {
        return Err(Fault::Room.at(0));
    }
    let n = change::copy::copy(out, 0, s, 0, s.len());
    turn_bodies(s, list, out);
    Ok(n)
}

// Turns the list of a term to the other layout: "6/7, 8 (whole shelf), 12, 9".
pub fn convert(s: &[u8], term: u32, out: &mut [u8]) -> Result<usize, Refusal>
    ensures { Gives (converted term s.now (length out.old)) out.old out.new result }
{
    shelf::check::check(s)?;
    convert_sound(s, term, out)
}
