// A shelf with one list in place of another: the bytes before it and after it as they stand.
ghost use Rattle.std.specs.Prelude.{◌≡◌, Bool, ℕ, ◌+◌, ◌≤◌, length};
ghost use Rattle.model.specs.Limits.{max_shelf};
ghost use Rattle.model.specs.Post.{postings};
ghost use Rattle.model.specs.Runs.{Stored};
ghost use Rattle.list.specs.Answer.{Gives};
ghost use Rattle.change.specs.Seat.{packed_bytes, spliced, fitting, May};

use model::refusal::{Fault, Refusal};

// How many bytes a list of these postings takes, in either layout: none without postings.
pub fn new_len(docs: &[u32], scores: &[u16]) -> usize
    requires { May docs.now scores.now }
    ensures { (strip : Bool) (t : ℕ) → result ≡ length (packed_bytes strip t (postings docs.now scores.now)) }
{
    if docs.len() == 0 {
        return 0;
    }
    list::write::list_len(docs, scores)
}

// Stores the list, if there are postings, at a place that has room, and gives the place past it.
pub fn put_new(
    out: &mut [u8],
    at: usize,
    strip: bool,
    term: u32,
    docs: &[u32],
    scores: &[u16],
) -> usize
    requires { May docs.now scores.now × (at + length (packed_bytes strip term (postings docs.now scores.now)) ≤ length out.old) }
    ensures { Stored out.old out.new at result (packed_bytes strip term (postings docs.now scores.now)) }
{
    if docs.len() == 0 {
        return at;
    }
    list::write::put_list(out, at, strip, term, docs, scores)
}

// Writes the shelf with the list of these postings, or none, in place of its bytes from `at` to `next`; or gives number 11 or 9.
pub(crate) fn splice(
    s: &[u8],
    at: usize,
    next: usize,
    strip: bool,
    term: u32,
    docs: &[u32],
    scores: &[u16],
    out: &mut [u8],
) -> Result<usize, Refusal>
    requires { (at ≤ next) × (next ≤ length s.now) × (length s.now ≤ max_shelf) × May docs.now scores.now }
    ensures { Gives (fitting (spliced s.now at next (packed_bytes strip term (postings docs.now scores.now))) (length out.old)) out.old out.new result }
{
    let end = s.len();
    let total = at + new_len(docs, scores) + (end - next);
    if model::MAX_SHELF < total {
        return Err(Fault::Size.at(0));
    }
    if out.len() < total {
        return Err(Fault::Room.at(0));
    }
    let a = crate::copy::copy(out, 0, s, 0, at);
    let b = put_new(out, a, strip, term, docs, scores);
    let c = crate::copy::copy(out, b, s, next, end);
    Ok(c)
}
