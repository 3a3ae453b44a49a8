// The edits: "An edit reads one buffer and writes another, returning the new length."
ghost use Rattle.std.specs.Prelude.{◌≡◌, List, true, length};
ghost use Rattle.model.specs.Outcome.{done};
ghost use Rattle.shelf.specs.Walk.{Listing};
ghost use Rattle.shelf.specs.Check.{checked};
ghost use Rattle.list.specs.Answer.{Gives};
ghost use Rattle.change.specs.Edits.{Set, Clear, Withdraw};
ghost use Rattle.change.specs.Bytes.{docid_in, in_range, pieces, settled, edited};
ghost use Rattle.change.specs.Seat.{Sounds, Wide};

use model::refusal::{Fault, Refusal};

fn docid_in(d: u32) -> bool
    ensures { result ≡ docid_in d }
{
    0 < d && d <= model::MAX_DOCID
}

// ---- set

// The edit of a sound shelf, by two runs that have room for any list and one posting more.
fn set_in(
    s: &[u8],
    term: u32,
    docid: u32,
    score: u16,
    docs: &mut [u32],
    scores: &mut [u16],
    out: &mut [u8],
) -> Result<usize, Refusal>
    requires { (in_range (Set term docid score) ≡ true) × Sounds s.now × Wide docs.old scores.old }
    ensures { (ls : List Listing) → checked s.now ≡ done ls → Gives (settled (Set term docid score) (pieces s.now ls) (length out.old)) out.old out.new result }
{
    let seat = change::seat::find_seat(s, term);
    let n = change::seat::held(s, seat, docs, scores);
    let m = change::runs::without(docs, scores, n, docid);
    let k = change::runs::insert(docs, scores, m, docid, score);
    change::place::place(s, seat, term, &docs[0..k], &scores[0..k], out)
}

fn set_sound(s: &[u8], term: u32, docid: u32, score: u16, out: &mut [u8]) -> Result<usize, Refusal>
    requires { (in_range (Set term docid score) ≡ true) × Sounds s.now }
    ensures { (ls : List Listing) → checked s.now ≡ done ls → Gives (settled (Set term docid score) (pieces s.now ls) (length out.old)) out.old out.new result }
{
    let mut docs = [0u32; 6401];
    let mut scores = [0u16; 6401];
    set_in(s, term, docid, score, &mut docs, &mut scores, out)
}

// "Set (term, docid, score) adds or replaces."
pub fn set(s: &[u8], term: u32, docid: u32, score: u16, out: &mut [u8]) -> Result<usize, Refusal>
    ensures { Gives (edited (Set term docid score) s.now (length out.old)) out.old out.new result }
{
    if !docid_in(docid) {
        return Err(Fault::Posting.at(0));
    }
    if score == 0 {
        return Err(Fault::Posting.at(0));
    }
    shelf::check::check(s)?;
    set_sound(s, term, docid, score, out)
}

// ---- clear

fn clear_in(
    s: &[u8],
    term: u32,
    docid: u32,
    docs: &mut [u32],
    scores: &mut [u16],
    out: &mut [u8],
) -> Result<usize, Refusal>
    requires { Sounds s.now × Wide docs.old scores.old }
    ensures { (ls : List Listing) → checked s.now ≡ done ls → Gives (settled (Clear term docid) (pieces s.now ls) (length out.old)) out.old out.new result }
{
    let seat = change::seat::find_seat(s, term);
    let n = change::seat::held(s, seat, docs, scores);
    let m = change::runs::without(docs, scores, n, docid);
    if m == n {
        return Err(Fault::Absent.at(0));
    }
    change::place::place(s, seat, term, &docs[0..m], &scores[0..m], out)
}

fn clear_sound(s: &[u8], term: u32, docid: u32, out: &mut [u8]) -> Result<usize, Refusal>
    requires { Sounds s.now }
    ensures { (ls : List Listing) → checked s.now ≡ done ls → Gives (settled (Clear term docid) (pieces s.now ls) (length out.old)) out.old out.new result }
{
    let mut docs = [0u32; 6401];
    let mut scores = [0u16; 6401];
    clear_in(s, term, docid, &mut docs, &mut scores, out)
}

// "Clear (term, docid) removes one posting."
pub fn clear(s: &[u8], term: u32, docid: u32, out: &mut [u8]) -> Result<usize, Refusal>
    ensures { Gives (edited (Clear term docid) s.now (length out.old)) out.old out.new result }
{
    if !docid_in(docid) {
        return Err(Fault::Posting.at(0));
    }
    shelf::check::check(s)?;
    clear_sound(s, term, docid, out)
}

// ---- withdraw

// "Withdraw (docid) removes a sheet from every list."
pub fn withdraw(s: &[u8], docid: u32, out: &mut [u8]) -> Result<usize, Refusal>
    ensures { Gives (edited (Withdraw docid) s.now (length out.old)) out.old out.new result }
{
    if !docid_in(docid) {
        return Err(Fault::Posting.at(0));
    }
    shelf::check::check(s)?;
    crate::withdraw::withdraw_sound(s, docid, out)
}
