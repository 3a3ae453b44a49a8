// The walk over a shelf's lists: faults 6 and 7, first in byte order.
ghost use Rattle.std.specs.Prelude.{◌≡◌, drop};
ghost use Rattle.model.specs.Refusal.{outcome_of};
ghost use Rattle.shelf.specs.Walk.{sums, bodies, list};
ghost use Rattle.shelf.specs.Answers.{head_at, placed};
ghost use Rattle.shelf.specs.Cursor.{start, walk_step, Walks};

use model::refusal::{Fault, Refusal};

// ---- one list

// A list on the shelf: its term, its number of blocks, where it begins and the place past it.
#[derive(Clone, Copy)]
pub struct Place {
    pub term: u32,
    pub count: u8,
    pub at: usize,
    pub next: usize,
}

// A header's term and block count, if a right header stands there.
fn head_at(s: &[u8], at: usize, floor: u64) -> Option<(u32, u8)>
    ensures { result ≡ head_at floor s.now at }
{
    let n = wire::field::field(s, at, 1)?;
    if n != 5 {
        return None;
    }
    let term = wire::number::be4(s, at + 3);
    let count = wire::number::be1(s, at + 7);
    if (term as u64) < floor {
        return None;
    }
    if count == 0 {
        return None;
    }
    if model::PER_LIST < count {
        return None;
    }
    Some((term, count))
}

// The place past the summaries of a list's `n` blocks.
fn sums_at(s: &[u8], at: usize, n: u8) -> Result<usize, Refusal>
    ensures { outcome_of result ≡ sums n 0 at (drop at s.now) }
{
    let mut prev: u32 = 0;
    let mut p = at;
    for turn in 0..n {
        let Some(m) = block::summary::summary_at(s, p) else {
            return Err(Fault::ShelfField.at(p));
        };
        if !block::summary::right_summary(prev, m) {
            return Err(Fault::Summary.at(p));
        }
        prev = m.greatest;
        p += 12;
    }
    Ok(p)
}

// The place past the bodies of a list's `n` blocks, of any length: all have the first one's tag.
pub fn bodies_at(s: &[u8], at: usize, n: u8) -> Result<usize, Refusal>
    ensures { outcome_of result ≡ bodies n at (drop at s.now) }
{
    let tag = block::body::tag_of(block::body::is_strip(s, at));
    let mut p = at;
    for turn in 0..n {
        let Some(len) = wire::field::field(s, p, tag) else {
            return Err(Fault::ShelfField.at(p));
        };
        p += 3 + len;
    }
    Ok(p)
}

// The list at a place, whose term is not below `floor`.
pub fn list_at(s: &[u8], at: usize, floor: u64) -> Result<Place, Refusal>
    ensures { outcome_of result ≡ placed (list floor at (drop at s.now)) }
{
    let Some((term, count)) = head_at(s, at, floor) else {
        return Err(Fault::ShelfField.at(at));
    };
    let b = sums_at(s, at + 8, count)?;
    let next = bodies_at(s, b, count)?;
    Ok(Place {
        term,
        count,
        at,
        next,
    })
}

// ---- all lists

// A place in the walk: where the next list begins, the least term it may have, and how many lists may still come.
#[derive(Clone, Copy)]
pub struct Walk {
    pub at: usize,
    pub floor: u64,
    pub left: u16,
}

impl Walk {
    pub fn new() -> Walk
        ensures { result ≡ start }
    {
        Walk {
            at: 0,
            floor: 0,
            left: model::MAX_LISTS,
        }
    }

    // The next list; none at the shelf's end. The shelf's size is judged at each step, so that no walk can forget it.
    pub fn next(&mut self, s: &[u8]) -> Result<Option<Place>, Refusal>
        ensures { Walks (walk_step s.now self.old) self.old result self.new }
    {
        let at = self.at;
        let left = self.left;
        if model::MAX_SHELF < s.len() {
            return Err(Fault::ShelfField.at(0));
        }
        if s.len() <= at {
            return Ok(None);
        }
        if left == 0 {
            return Err(Fault::ShelfField.at(at));
        }
        let list = list_at(s, at, self.floor)?;
        *self = Walk {
            at: list.next,
            floor: list.term as u64 + 1,
            left: left - 1,
        };
        Ok(Some(list))
    }
}
