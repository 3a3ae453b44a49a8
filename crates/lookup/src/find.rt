// A list by its term, and its blocks as they stand in the shelf.
ghost use Rattle.std.specs.Prelude.{◌≡◌};
ghost use Rattle.model.specs.Outcome.{done};
ghost use Rattle.model.specs.Refusal.{outcome_of};
ghost use Rattle.shelf.specs.Answers.{placed};
ghost use Rattle.lookup.specs.Find.{here_or, found};
ghost use Rattle.lookup.specs.Show.{has_block, part_at, summary_shown, body_shown, ShownOf};

use block::summary::Summary;
use model::refusal::{Fault, Refusal};
use shelf::walk::{Place, Walk};

// ---- the list of a term

// The list that is known, or else this one if it is the term's.
fn here_or(known: Option<Place>, term: u32, list: Place) -> Option<Place>
    ensures { result ≡ here_or known term list }
{
    known.or((list.term == term).then_some(list))
}

// The list of a term, shown in place: faults 6 and 7 first, then 12 where there is none.
pub fn find_list(s: &[u8], term: u32) -> Result<Place, Refusal>
    ensures { outcome_of result ≡ placed (found term s.now) }
{
    let mut walk = Walk::new();
    let mut known = None;
    while let Some(list) = walk.next(s)? {
        known = here_or(known, term, list);
    }
    known.ok_or(Fault::Absent.at(0))
}

// ---- its blocks, for any place: one that is not of this shelf is answered too

// Whether a list has a block `j`, and the shelf has room for its header and its summaries.
fn has_block(s: &[u8], list: Place, j: usize) -> bool
    ensures { result ≡ has_block s.now list j }
{
    let count = list.count as usize;
    let room = 8 + 12 * count;
    if count <= j {
        return false;
    }
    if s.len() < room {
        return false;
    }
    list.at <= s.len() - room
}

// The numbers of the summary of block `j` of a list.
fn summary_of(s: &[u8], list: Place, j: usize) -> Result<Summary, Refusal>
    ensures { outcome_of result ≡ summary_shown s.now (done list) j }
{
    if !has_block(s, list, j) {
        return Err(Fault::Absent.at(0));
    }
    let strip = block::body::is_strip(s, list.at + 8 + 12 * (list.count as usize));
    Ok(block::summary::summary_in(s, list.at + 8 + 12 * j, strip))
}

// The numbers of the summary of block `j` of a list shown in place; or the caller's error that stands in place of the list.
pub fn summary_shown<E: From<Refusal>>(
    s: &[u8],
    shown: Result<Place, E>,
    j: usize,
) -> Result<Summary, E>
    ensures { ShownOf E.from_gives shown (λ p. summary_shown s.now (done p) j) result }
{
    let list = shown?;
    Ok(summary_of(s, list, j)?)
}

// A part of the shelf: where it starts, and the place past it.
#[derive(Clone, Copy)]
pub struct Span {
    pub start: usize,
    pub end: usize,
}

// The part of the shelf that is the value of the body at a place.
fn part_at(s: &[u8], at: usize) -> Result<Span, Refusal>
    ensures { outcome_of result ≡ part_at s.now at }
{
    let tag = block::body::tag_of(block::body::is_strip(s, at));
    let Some(len) = wire::field::field(s, at, tag) else {
        return Err(Fault::Absent.at(0));
    };
    let start = at + 3;
    Ok(Span {
        start,
        end: start + len,
    })
}

// Where the value of the body of block `j` of a list stands: past the bodies before it.
fn body_of(s: &[u8], list: Place, j: usize) -> Result<Span, Refusal>
    ensures { outcome_of result ≡ body_shown s.now (done list) j }
{
    if !has_block(s, list, j) {
        return Err(Fault::Absent.at(0));
    }
    let Ok(at) = shelf::walk::bodies_at(s, list.at + 8 + 12 * (list.count as usize), j as u8) else {
        return Err(Fault::Absent.at(0));
    };
    part_at(s, at)
}

// Where the value of the body of block `j` of a list shown in place stands; or the caller's error that stands in place of the list.
pub fn body_shown<E: From<Refusal>>(s: &[u8], shown: Result<Place, E>, j: usize) -> Result<Span, E>
    ensures { ShownOf E.from_gives shown (λ p. body_shown s.now (done p) j) result }
{
    let list = shown?;
    Ok(body_of(s, list, j)?)
}
