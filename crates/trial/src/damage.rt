// Shelves that were damaged: the checker and both rankers still agree.
ghost use Rattle.std.specs.Prelude.{◌<◌, ◌≤◌, length};

use crate::answers::{allows, rank_all};
use crate::asking::Question;
use crate::chance::Chance;
use crate::pruning::{agree, search_only};
use crate::tally::Tally;
use model::refusal::{Fault, Refusal};
use rank::keep::Kept;
use shelf::check::check;

// Whether the exhaustive ranker answers by what the checker finds: 6 and 7 it finds too, of the wrong bodies those of its lists. A fault is counted,
// and the converter must name it too.
fn follows_checker(all: &Result<Kept, Refusal>, shelf: &[u8], tally: &mut Tally) -> bool {
    let Err(refusal) = check(shelf) else {
        return all.is_ok();
    };
    let mut out = [0; 1];
    let answer = convert::convert::convert(shelf, 0, &mut out);
    tally.faults.add(1);
    tally.expect(answer == Err(refusal));
    allows(refusal, all)
}

// A query by chance to a shelf that may be damaged.
fn judge(shelf: &[u8], chance: &mut Chance, tally: &mut Tally) {
    let question = Question::by_chance(chance);
    tally.damaged.add(1);
    let all = rank_all(question.as_slice(), shelf);
    let right = follows_checker(&all, shelf, tally);
    tally.expect(right);
    let pruned = search_only(question.as_slice(), shelf);
    tally.expect(agree(&all, &pruned));
}

// Another byte than this.
fn other(byte: u8, chance: &mut Chance) -> u8 {
    let moved = usize::from(byte) + 1 + chance.draw(255);
    (moved % 256) as u8
}

// The shelf with one byte changed, which is then put back.
fn change_one(shelf: &mut [u8], chance: &mut Chance, tally: &mut Tally)
    requires { 0 < length shelf.old }
{
    let at = chance.draw(shelf.len());
    let byte = shelf[at];
    shelf[at] = other(byte, chance);
    judge(shelf, chance, tally);
    shelf[at] = byte;
}

// ---- a tag flipped

// The length of the field at the front, with its tag and length.
fn field_len(front: &[u8]) -> usize
    ensures { 0 < result }
{
    match front {
        [_, high, low, ..] => 3 + 256 * usize::from(*high) + usize::from(*low),
        _ => 3,
    }
}

// Where the field begins that holds a place of a sound shelf.
fn field_of(shelf: &[u8], place: usize) -> usize
    requires { place < length shelf.now }
    ensures { result ≤ place }
{
    let mut at = 0;
    while at < place {
        let len = field_len(&shelf[at..]);
        if place - at < len {
            return at;
        }
        at += len;
    }
    at
}

// Whether the checker says what it must of a shelf that was sound before the tag of the body at a place was flipped: where another body stands
// before or after it in its list, that "mixed tags in one list are 6", at the first that has not the first one's tag; a body alone may be wrong,
// or right in either layout.
fn right_flip(shelf: &[u8], at: usize) -> bool
    requires { at < length shelf.now }
{
    if at == 0 {
        return false;
    }
    let next = at.saturating_add(field_len(&shelf[at..]));
    let later = 2 < shelf[field_of(shelf, at - 1)];
    let more = shelf.get(next).is_some_and(|tag| 2 < *tag);
    let due = if later {
        Fault::ShelfField.at(at)
    } else if more {
        Fault::ShelfField.at(next)
    } else {
        Fault::Body.at(at)
    };
    match check(shelf) {
        Ok(()) => !later && !more,
        Err(refusal) => refusal == due,
    }
}

// A body's tag changed alone, 03 to 04 or back, and then put back.
fn flip_tag(shelf: &mut [u8], chance: &mut Chance, tally: &mut Tally)
    requires { 0 < length shelf.old }
{
    let place = chance.draw(shelf.len());
    let at = field_of(shelf, place);
    let tag = shelf[at];
    if tag < 3 {
        return;
    }
    shelf[at] = if tag == 3 { 4 } else { 3 };
    tally.expect(right_flip(shelf, at));
    judge(shelf, chance, tally);
    shelf[at] = tag;
}

// ---- a shelf cut short, and all damages

fn cut_short(shelf: &[u8], chance: &mut Chance, tally: &mut Tally)
    requires { 0 < length shelf.now }
{
    let at = chance.draw(shelf.len());
    judge(&shelf[..at], chance, tally);
}

pub(crate) fn damage_often(shelf: &mut [u8], times: usize, chance: &mut Chance, tally: &mut Tally) {
    if shelf.is_empty() {
        return;
    }
    for _ in 0..times {
        change_one(shelf, chance, tally);
        flip_tag(shelf, chance, tally);
        cut_short(shelf, chance, tally);
    }
}
