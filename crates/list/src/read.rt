// The reader of one list: its postings into a run of docids beside a run of scores.
ghost use Rattle.std.specs.Prelude.{◌≡◌, ◌≤◌, length};
ghost use Rattle.shelf.specs.Walk.{blocks_at};
ghost use Rattle.shelf.specs.Answers.{Ready};
ghost use Rattle.list.specs.Read.{count_of, read_blocks, read_list, Reads};
ghost use Rattle.list.specs.Fill.{Fillable, Filled};

use model::refusal::{Fault, Refusal};
use shelf::blocks::Reading;
use shelf::walk::Place;

// How many postings a list's summaries say it has.
pub(crate) fn count(s: &[u8], list: Place) -> usize
    requires { Ready s.now list }
    ensures { result ≡ count_of (blocks_at s.now list.at list.count) }
{
    let mut reading = Reading::new(list);
    let mut n: usize = 0;
    while let Some(b) = reading.next(s) {
        n += b.summary.count as usize;
    }
    n
}

// The postings of a list whose bodies are right, put at the front of two runs that have room for them; gives how many there are.
pub fn fill(s: &[u8], list: Place, docids: &mut [u32], scores: &mut [u16]) -> usize
    requires { Fillable s.now list (length docids.old) (length scores.old) }
    ensures { Filled s.now list docids.old scores.old docids.new scores.new result }
{
    let mut reading = Reading::new(list);
    let mut i: usize = 0;
    while let Some(b) = reading.next(s) {
        block::body::read_body(&s[b.start..b.end], b.summary, docids, scores, i);
        i += b.summary.count as usize;
    }
    i
}

// The postings of a walked list: 8, then 9, then into the runs.
fn read_place(
    s: &[u8],
    list: Place,
    docids: &mut [u32],
    scores: &mut [u16],
) -> Result<usize, Refusal>
    requires { Ready s.now list }
    ensures { Reads (read_blocks (blocks_at s.now list.at list.count) (length docids.old) (length scores.old)) docids.old scores.old docids.new scores.new result }
{
    if let Some(o) = shelf::check::bad_body(s, list) {
        return Err(Fault::Body.at(o));
    }
    let n = count(s, list);
    if docids.len() < n {
        return Err(Fault::Room.at(0));
    }
    if scores.len() < n {
        return Err(Fault::Room.at(0));
    }
    Ok(fill(s, list, docids, scores))
}

// Reads the list of a term into two runs, which a refusal leaves as they were.
pub fn read_list(
    s: &[u8],
    term: u32,
    docids: &mut [u32],
    scores: &mut [u16],
) -> Result<usize, Refusal>
    ensures { Reads (read_list term s.now (length docids.old) (length scores.old)) docids.old scores.old docids.new scores.new result }
{
    let list = lookup::find::find_list(s, term)?;
    read_place(s, list, docids, scores)
}
