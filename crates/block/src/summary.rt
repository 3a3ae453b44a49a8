// A block's summary: least docid, greatest docid, greatest score, posting count.
ghost use Rattle.std.specs.Prelude.{◌≡◌, ◌+◌, ◌≤◌, ◌<◌, ◌^◌, length, drop};
ghost use Rattle.model.specs.Post.{postings, max_from};
ghost use Rattle.model.specs.Runs.{Stored};
ghost use Rattle.block.specs.Summary.{sum_at, sum_of, right_sum, sum_bytes, summary_of};

// ---- reading

// What is known of a block before its body is read: the four numbers of its summary; and whether its body is a strip (tag 04), which the
// body's tag says.
#[derive(Clone, Copy)]
pub struct Summary {
    pub least: u32,
    pub greatest: u32,
    pub top: u16,
    pub count: u8,
    pub strip: bool,
}

// The summary at a place, if a field of its form stands there. It is the walk's, which judges the numbers, whatever the layout.
pub fn summary_at(s: &[u8], at: usize) -> Option<Summary>
    ensures { result ≡ sum_at s.now at }
{
    let n = wire::field::field(s, at, 2)?;
    if n != 9 {
        return None;
    }
    Some(summary_in(s, at, false))
}

// The numbers of a summary that is known to stand there, and the layout that the body's tag says.
pub fn summary_in(s: &[u8], at: usize, strip: bool) -> Summary
    requires { at + 12 ≤ length s.now }
    ensures { result ≡ sum_of strip (drop at s.now) }
{
    Summary {
        least: wire::number::be3(s, at + 3),
        greatest: wire::number::be3(s, at + 6),
        top: wire::number::be2(s, at + 9),
        count: wire::number::be1(s, at + 11),
        strip,
    }
}

// Whether a summary is right after a block that ends at docid `prev`.
pub fn right_summary(prev: u32, m: Summary) -> bool
    ensures { result ≡ right_sum prev m }
{
    let least = m.least;
    let greatest = m.greatest;
    let count = m.count as u32;
    if least <= prev {
        return false;
    }
    if greatest < least {
        return false;
    }
    if m.top == 0 {
        return false;
    }
    if count == 0 {
        return false;
    }
    if model::PER_BLOCK < count {
        return false;
    }
    if greatest - least < count - 1 {
        return false;
    }
    1 < count || least == greatest
}

// ---- writing: the summary of some postings, and its bytes at a place that has room

// The largest of some scores.
fn top_of(scores: &[u16]) -> u16
    ensures { result ≡ max_from 0 scores.now }
{
    scores.iter().copied().max().unwrap_or(0)
}

// The summary of some postings, with a body of either layout.
pub fn summary_of(docs: &[u32], scores: &[u16], strip: bool) -> Summary
    requires { (0 < length docs.now) × (length docs.now ≤ 100) × (length docs.now ≡ length scores.now) }
    ensures { result ≡ summary_of strip (postings docs.now scores.now) }
{
    let n = docs.len();
    Summary {
        least: docs[0],
        greatest: docs[n - 1],
        top: top_of(scores),
        count: n as u8,
        strip,
    }
}

pub fn put_summary(out: &mut [u8], at: usize, m: Summary) -> usize
    requires { (m.least < 256 ^ 3) × (m.greatest < 256 ^ 3) × (at + 12 ≤ length out.old) }
    ensures { Stored out.old out.new at result (sum_bytes m) }
{
    let a = wire::field::put_head(out, at, 2, 9);
    let b = wire::number::put3(out, a, m.least);
    let c = wire::number::put3(out, b, m.greatest);
    let d = wire::number::put2(out, c, m.top);
    wire::number::put1(out, d, m.count)
}
