// The four kinds of line, stored at a place of a lent run that has room for them; each gives the place past it.
ghost use Rattle.std.specs.Prelude.{◌≡◌, [], ◌∷◌, ◌+◌, ◌≤◌, length};
ghost use Rattle.model.specs.Refusal.{number};
ghost use Rattle.model.specs.Runs.{Stored};
ghost use Rattle.model.specs.Post.{post};
ghost use Rattle.lines.specs.Text.{line, hit_line, interval_line, block_line, refusal_line};

use model::refusal::Refusal;

// A line of a letter, its numbers and its end.
fn put_line(out: &mut [u8], at: usize, letter: &[u8], ns: &[u64], end: &[u8]) -> usize
    requires { at + length (line letter.now ns.now end.now) ≤ length out.old }
    ensures { Stored out.old out.new at result (line letter.now ns.now end.now) }
{
    let p = crate::number::put_word(out, at, letter);
    let q = crate::number::put_numbers(out, p, ns);
    crate::number::put_word(out, q, end)
}

// `H rank docid score`
pub(crate) fn put_hit(out: &mut [u8], at: usize, rank: usize, docid: u32, score: u32) -> usize
    requires { at + length (hit_line rank (post docid score)) ≤ length out.old }
    ensures { Stored out.old out.new at result (hit_line rank (post docid score)) }
{
    let ns = [rank as u64, docid as u64, score as u64];
    put_line(out, at, b"H", &ns, b"\n")
}

// `I first last ceiling mark`
pub(crate) fn put_interval(
    out: &mut [u8],
    at: usize,
    first: u32,
    last: u32,
    ceiling: u32,
    mark: u8,
) -> usize
    requires { at + length (interval_line first last ceiling mark) ≤ length out.old }
    ensures { Stored out.old out.new at result (interval_line first last ceiling mark) }
{
    let ns = [first as u64, last as u64, ceiling as u64];
    if mark == 1 {
        return put_line(out, at, b"I", &ns, b" opened\n");
    }
    put_line(out, at, b"I", &ns, b" skipped\n")
}

// `B opened all`
pub(crate) fn put_blocks(out: &mut [u8], at: usize, opened: usize, all: usize) -> usize
    requires { at + length (block_line opened all) ≤ length out.old }
    ensures { Stored out.old out.new at result (block_line opened all) }
{
    let ns = [opened as u64, all as u64];
    put_line(out, at, b"B", &ns, b"\n")
}

// `R number offset`
pub fn put_refusal(out: &mut [u8], at: usize, refusal: Refusal) -> usize
    requires { at + length (refusal_line (number refusal.fault) refusal.offset) ≤ length out.old }
    ensures { Stored out.old out.new at result (refusal_line (number refusal.fault) refusal.offset) }
{
    let ns = [u8::from(refusal.fault) as u64, refusal.offset as u64];
    put_line(out, at, b"R", &ns, b"\n")
}
