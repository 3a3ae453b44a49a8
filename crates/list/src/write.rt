// Writing one posting list: its length first, then its bytes, so that a refusal leaves the buffer as it was.
ghost use Rattle.std.specs.Prelude.{◌≡◌, Bool, ◌++◌, ℕ, ◌+◌, ◌≤◌, ◌<◌, length};
ghost use Rattle.model.specs.Limits.{per_block, per_list};
ghost use Rattle.model.specs.Post.{postings, Even};
ghost use Rattle.model.specs.Runs.{Stored};
ghost use Rattle.wire.specs.Number.{be};
ghost use Rattle.wire.specs.Field.{field_bytes};
ghost use Rattle.block.specs.Body.{tag_of, body_bytes};
ghost use Rattle.list.specs.Answer.{Gives};
ghost use Rattle.list.specs.Write.{packed, sums_bytes, bodies_bytes, list_bytes, fault_at, write_list, Paired};

use model::refusal::{Fault, Refusal};

// ---- blocks

// How many postings every block has but the last.
const FULL: usize = model::PER_BLOCK as usize;

// A block's body, as a field.
pub fn put_body_field(out: &mut [u8], at: usize, strip: bool, docs: &[u32], scores: &[u16]) -> usize
    requires { (0 < length docs.now) × (length docs.now ≤ per_block) × Even 0 docs.now scores.now × (at + length (field_bytes (tag_of strip) (body_bytes strip (postings docs.now scores.now))) ≤ length out.old) }
    ensures { Stored out.old out.new at result (field_bytes (tag_of strip) (body_bytes strip (postings docs.now scores.now))) }
{
    let n = block::body::body_len(docs, scores);
    let a = wire::field::put_head(out, at, block::body::tag_of(strip), n as u16);
    block::body::put_body(out, a, strip, docs, scores)
}

// A list's header.
fn put_header(out: &mut [u8], at: usize, term: u32, count: u8) -> usize
    requires { at + 8 ≤ length out.old }
    ensures { Stored out.old out.new at result (field_bytes 1 (be 4 term ++ be 1 count)) }
{
    let a = wire::field::put_head(out, at, 1, 5);
    let b = wire::number::put4(out, a, term);
    wire::number::put1(out, b, count)
}

// ---- a list's parts, each from two runs that may be written, at a place that has room

fn put_summaries(out: &mut [u8], at: usize, strip: bool, docs: &[u32], scores: &[u16]) -> usize
    requires { Paired docs.now scores.now × (at + length (sums_bytes strip (packed per_list (postings docs.now scores.now))) ≤ length out.old) }
    ensures { Stored out.old out.new at result (sums_bytes strip (packed per_list (postings docs.now scores.now))) }
{
    let mut j = at;
    for (d, s) in docs.chunks(FULL).zip(scores.chunks(FULL)) {
        let m = block::summary::summary_of(d, s, strip);
        j = block::summary::put_summary(out, j, m);
    }
    j
}

fn put_bodies(out: &mut [u8], at: usize, strip: bool, docs: &[u32], scores: &[u16]) -> usize
    requires { Paired docs.now scores.now × (at + length (bodies_bytes strip (packed per_list (postings docs.now scores.now))) ≤ length out.old) }
    ensures { Stored out.old out.new at result (bodies_bytes strip (packed per_list (postings docs.now scores.now))) }
{
    let mut j = at;
    for (d, s) in docs.chunks(FULL).zip(scores.chunks(FULL)) {
        j = put_body_field(out, j, strip, d, s);
    }
    j
}

// ---- a list

// How many bytes the list takes, whatever its term and its layout: a block's are a summary of 12, and a body field of 3 and its body.
pub fn list_len(docs: &[u32], scores: &[u16]) -> usize
    requires { Paired docs.now scores.now }
    ensures { (strip : Bool) (t : ℕ) → result ≡ length (list_bytes strip t (postings docs.now scores.now)) }
{
    let mut n = 8;
    for (d, s) in docs.chunks(FULL).zip(scores.chunks(FULL)) {
        n += 15 + block::body::body_len(d, s);
    }
    n
}

// Stores the list at a place that has room, and gives the place past it.
pub fn put_list(
    out: &mut [u8],
    at: usize,
    strip: bool,
    term: u32,
    docs: &[u32],
    scores: &[u16],
) -> usize
    requires { Paired docs.now scores.now × (at + length (list_bytes strip term (postings docs.now scores.now)) ≤ length out.old) }
    ensures { Stored out.old out.new at result (list_bytes strip term (postings docs.now scores.now)) }
{
    let count = docs.len().div_ceil(FULL);
    let a = put_header(out, at, term, count as u8);
    let b = put_summaries(out, a, strip, docs, scores);
    put_bodies(out, b, strip, docs, scores)
}

// ---- the writer

// The index of the first posting at fault, or how many there are.
fn first_fault(docs: &[u32], scores: &[u16]) -> usize
    requires { length docs.now ≡ length scores.now }
    ensures { result ≡ fault_at 0 (postings docs.now scores.now) }
{
    let mut p = 0;
    for (i, (&d, &s)) in docs.iter().zip(scores).enumerate() {
        if d <= p || model::MAX_DOCID < d || s == 0 {
            return i;
        }
        p = d;
    }
    docs.len()
}

// Writes a list, in the layout that is told, to the front of a buffer, which a refusal leaves as it was.
pub fn write_list(
    strip: bool,
    term: u32,
    docids: &[u32],
    scores: &[u16],
    out: &mut [u8],
) -> Result<usize, Refusal>
    ensures { Gives (write_list strip term docids.now scores.now (length out.old)) out.old out.new result }
{
    let n = docids.len();
    let m = scores.len();
    if model::MAX_POSTINGS < n {
        return Err(Fault::Size.at(0));
    }
    if model::MAX_POSTINGS < m {
        return Err(Fault::Size.at(0));
    }
    if n < m {
        return Err(Fault::Posting.at(n));
    }
    if m < n {
        return Err(Fault::Posting.at(m));
    }
    if n == 0 {
        return Err(Fault::Posting.at(0));
    }
    let fault = first_fault(docids, scores);
    if fault < n {
        return Err(Fault::Posting.at(fault));
    }
    let size = list_len(docids, scores);
    if out.len() < size {
        return Err(Fault::Room.at(0));
    }
    Ok(put_list(out, 0, strip, term, docids, scores))
}
