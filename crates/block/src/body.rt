// A block's body: whether it is right for its summary, its postings, writing it.
ghost use Rattle.std.specs.Prelude.{◌≡◌, ◌+◌, ◌≤◌, ◌<◌, length, drop, Bool};
ghost use Rattle.model.specs.Post.{postings, Even};
ghost use Rattle.model.specs.Runs.{Stored};
ghost use Rattle.block.specs.Body.{is_strip, tag_of, edge as edge_of, right_body, ReadsInto, in_turn, later_bytes, back_bytes, body_bytes};

use crate::cursor::{Cursor, Step};
use crate::summary::Summary;

// ---- the two layouts

// Whether the body that begins at a place is a strip: none is where the shelf ends before it.
pub fn is_strip(s: &[u8], at: usize) -> bool
    ensures { result ≡ is_strip (drop at s.now) }
{
    at < s.len() && s[at] == 4
}

// The tag of a body.
pub fn tag_of(strip: bool) -> u8
    ensures { result ≡ tag_of strip }
{
    if strip { 4 } else { 3 }
}

// ---- reading

// Where a body's second run begins: a strip's last two bytes for each posting, else its end.
pub fn edge(s: &[u8], m: Summary) -> usize
    ensures { (result ≡ edge_of m.strip m.count s.now) × (result ≤ length s.now) }
{
    let n = s.len();
    if !m.strip {
        return n;
    }
    n.saturating_sub(2 * (m.count as usize))
}

// Whether the bytes are a right body for a summary.
pub fn right_body(s: &[u8], m: Summary) -> bool
    ensures { result ≡ right_body m s.now }
{
    let greatest = m.greatest;
    let top = m.top;
    let e = edge(s, m);
    let gaps = &s[0..e];
    let points = &s[e..];
    let mut c = Cursor::new(m);
    let mut last: u32 = 0;
    let mut most: u16 = 0;
    loop {
        match c.next(gaps, points) {
            Step::Posting(doc, score, onward) => {
                last = doc;
                if most < score {
                    most = score;
                }
                c = onward;
            }
            Step::End => {
                return last == greatest && most == top;
            }
            Step::Bad => {
                return false;
            }
        }
    }
}

// A body read into two lent runs, from `at` on, as far as it reads; and whether it is right for its summary.
pub fn read_body(s: &[u8], m: Summary, docs: &mut [u32], scores: &mut [u16], at: usize) -> bool
    requires { (at + m.count ≤ length docs.old) × (at + m.count ≤ length scores.old) }
    ensures { ReadsInto m s.now at docs.old scores.old docs.new scores.new result }
{
    let greatest = m.greatest;
    let top = m.top;
    let e = edge(s, m);
    let gaps = &s[0..e];
    let points = &s[e..];
    let mut c = Cursor::new(m);
    let mut last: u32 = 0;
    let mut largest: u16 = 0;
    let mut i = at;
    loop {
        match c.next(gaps, points) {
            Step::Posting(doc, score, onward) => {
                docs[i] = doc;
                scores[i] = score;
                i += 1;
                last = doc;
                if largest < score {
                    largest = score;
                }
                c = onward;
            }
            Step::End => {
                return last == greatest && largest == top;
            }
            Step::Bad => {
                return false;
            }
        }
    }
}

// ---- writing: at a place that has room, from a run of docids beside a run of scores

// A score that follows its gap number, unless it is a strip's.
fn put_in_turn(out: &mut [u8], at: usize, strip: bool, score: u16) -> usize
    requires { at + length (in_turn strip score) ≤ length out.old }
    ensures { Stored out.old out.new at result (in_turn strip score) }
{
    if strip {
        return at;
    }
    wire::number::put2(out, at, score)
}

// The gap of each posting after docid `first`, and its score, unless that is a strip's.
fn put_later(
    out: &mut [u8],
    at: usize,
    strip: bool,
    first: u32,
    docs: &[u32],
    scores: &[u16],
) -> usize
    requires { Even first docs.now scores.now × (at + length (later_bytes strip first (postings docs.now scores.now)) ≤ length out.old) }
    ensures { Stored out.old out.new at result (later_bytes strip first (postings docs.now scores.now)) }
{
    let mut p = first;
    let mut j = at;
    for (&d, &s) in docs.iter().zip(scores) {
        j = wire::gap::put_gap(out, j, (d - p - 1) as u64);
        j = put_in_turn(out, j, strip, s);
        p = d;
    }
    j
}

// A strip's scores.
fn put_strip(out: &mut [u8], at: usize, strip: bool, docs: &[u32], scores: &[u16]) -> usize
    requires { (length docs.now ≡ length scores.now) × (at + length (back_bytes strip (postings docs.now scores.now)) ≤ length out.old) }
    ensures { Stored out.old out.new at result (back_bytes strip (postings docs.now scores.now)) }
{
    if !strip {
        return at;
    }
    let mut j = at;
    for &s in scores {
        j = wire::number::put2(out, j, s);
    }
    j
}

pub fn put_body(out: &mut [u8], at: usize, strip: bool, docs: &[u32], scores: &[u16]) -> usize
    requires { (0 < length docs.now) × Even 0 docs.now scores.now × (at + length (body_bytes strip (postings docs.now scores.now)) ≤ length out.old) }
    ensures { Stored out.old out.new at result (body_bytes strip (postings docs.now scores.now)) }
{
    let first = docs[0];
    let s = scores[0];
    let j = put_in_turn(out, at, strip, s);
    let k = put_later(out, j, strip, first, &docs[1..], &scores[1..]);
    put_strip(out, k, strip, docs, scores)
}

// How many bytes the body takes, in either layout.
pub fn body_len(docs: &[u32], scores: &[u16]) -> usize
    requires { (0 < length docs.now) × (length docs.now ≤ 100) × Even 0 docs.now scores.now }
    ensures { (strip : Bool) → result ≡ length (body_bytes strip (postings docs.now scores.now)) }
{
    let mut p = docs[0];
    let mut t = 2;
    for &d in &docs[1..] {
        t += wire::gap::gap_len((d - p - 1) as u64) + 2;
        p = d;
    }
    t
}
