// The lines of a search that is done: one for each hit, one for each interval, and the blocks; stored at a place of a lent run that has room for
// them. Each gives the place past its lines.
ghost use Rattle.std.specs.Prelude.{◌≡◌, ◌+◌, ◌≤◌, ◌<◌, length, take, drop};
ghost use Rattle.model.specs.Limits.{max_docid};
ghost use Rattle.model.specs.Outcome.{done};
ghost use Rattle.model.specs.Post.{postings};
ghost use Rattle.model.specs.Runs.{Stored, Asc};
ghost use Rattle.lines.specs.Text.{hit_lines, interval_lines, last_of, shown, text};
ghost use Rattle.lines.specs.Book.{Book};

// The keeper's first n rows, ranked from 1.
pub(crate) fn put_hits<'a>(
    out: &mut [u8],
    at: usize,
    docids: &'a [u32; 100],
    scores: &'a [u32; 100],
    n: usize,
) -> usize
    requires { (length docids.now ≡ 100) × (length scores.now ≡ 100) × (n ≤ 100) × (at + length (hit_lines 1 (take n (postings docids.now scores.now))) ≤ length out.old) }
    ensures { Stored out.old out.new at result (hit_lines 1 (take n (postings docids.now scores.now))) }
{
    let mut j = at;
    for (i, (docid, score)) in docids.iter().zip(scores).take(n).enumerate() {
        j = crate::line::put_hit(out, j, i + 1, *docid, *score);
    }
    j
}

// The last docid of the interval with index i: one less than the next first, or the limit.
fn last_docid(firsts: &[u32], i: usize) -> u32
    requires { (i < length firsts.now) × Asc 0 firsts.now }
    ensures { result ≡ last_of max_docid (drop (i + 1) firsts.now) }
{
    let next = i + 1;
    if next < firsts.len() {
        return firsts[next] - 1;
    }
    model::MAX_DOCID
}

// The book's rows, one for each interval.
pub(crate) fn put_intervals<'a>(
    out: &mut [u8],
    at: usize,
    firsts: &'a [u32],
    ceilings: &'a [u32],
    marks: &'a [u8],
) -> usize
    requires { Book firsts.now ceilings.now marks.now × (at + length (interval_lines max_docid firsts.now ceilings.now marks.now) ≤ length out.old) }
    ensures { Stored out.old out.new at result (interval_lines max_docid firsts.now ceilings.now marks.now) }
{
    let mut j = at;
    for (i, first) in firsts.iter().enumerate() {
        let last = last_docid(firsts, i);
        j = crate::line::put_interval(out, j, *first, last, ceilings[i], marks[i]);
    }
    j
}

// The whole output of a search that is done, from the front of the run.
pub fn put_shown<'a>(
    out: &mut [u8],
    docids: &'a [u32; 100],
    scores: &'a [u32; 100],
    n: usize,
    firsts: &'a [u32],
    ceilings: &'a [u32],
    marks: &'a [u8],
    opened: usize,
    all: usize,
) -> usize
    requires { (length docids.now ≡ 100) × (length scores.now ≡ 100) × (n ≤ 100) × Book firsts.now ceilings.now marks.now × (length (text (done (shown (take n (postings docids.now scores.now)) firsts.now ceilings.now marks.now opened all))) ≤ length out.old) }
    ensures { Stored out.old out.new 0 result (text (done (shown (take n (postings docids.now scores.now)) firsts.now ceilings.now marks.now opened all))) }
{
    let p = put_hits(out, 0, docids, scores, n);
    let q = put_intervals(out, p, firsts, ceilings, marks);
    crate::line::put_blocks(out, q, opened, all)
}
