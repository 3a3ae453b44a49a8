// The lists of a query in front of a merge: each with a block in its part of the buffers, and its next blocks on the shelf.
ghost use Rattle.std.specs.Prelude.{◌≡◌, ◌+◌, ◌*◌, ◌<◌, ◌^◌};
ghost use Rattle.exhaustive.specs.Merge.{reading_at, Line, Refills, Lines, Fills, nearer, horizon_of};

use scan::head::Head;
use scan::load::WrongBody;
use shelf::blocks::Reading;

// What a list still has on the shelf, and the greatest docid of the block that stands in the buffers.
#[derive(Clone, Copy)]
pub struct Left {
    pub blocks: Reading,
    pub top: u32,
}

// The lists of a query: where each stands in the buffers, and what it still has on the shelf.
#[derive(Drop)]
pub struct Stock {
    pub heads: [Head; 8],
    pub lefts: [Left; 8],
}

// The blocks of a list that was walked; none for a term that has no list.
pub(crate) fn reading_at(at: usize, count: u8) -> Reading
    requires { 0 < count → at + 8 + 12 * count < 2 ^ 64 }
    ensures { result ≡ reading_at at count }
{
    if count == 0 {
        return Reading {
            sum: 0,
            body: 0,
            left: 0,
        };
    }
    let sum = at + 8;
    Reading {
        sum,
        body: sum + 12 * (count as usize),
        left: count,
    }
}

// A list that has come to the end of its block goes on to its next, if it has one.
fn refill(
    shelf: &[u8],
    head: Head,
    left: Left,
    t: usize,
    docs: &mut [u32; 800],
    scores: &mut [u16; 800],
) -> Result<(Head, Left), WrongBody>
    requires { Line shelf.now docs.old scores.old t head left }
    ensures { Refills shelf.now docs.old scores.old t head left docs.new scores.new result }
{
    if head.doc < scan::head::END {
        return Ok((head, left));
    }
    let mut blocks = left.blocks;
    let Some(b) = blocks.next(shelf) else {
        return Ok((head, left));
    };
    let body = &shelf[b.start..b.end];
    let loaded = scan::load::load(body, b.summary, head.weight, t, docs, scores)?;
    let top = b.summary.greatest;
    Ok((loaded, Left { blocks, top }))
}

// Every list that has come to the end of its block goes on to its next, up to the first wrong body.
pub(crate) fn fill(
    shelf: &[u8],
    heads: [Head; 8],
    lefts: [Left; 8],
    docs: &mut [u32; 800],
    scores: &mut [u16; 800],
) -> Result<Stock, WrongBody>
    requires { Lines shelf.now docs.old scores.old heads lefts }
    ensures { Fills shelf.now docs.old scores.old heads lefts docs.new scores.new result }
{
    let mut hs = heads;
    let mut ls = lefts;
    for t in 0..8 {
        let (h, l) = refill(shelf, hs[t], ls[t], t, docs, scores)?;
        hs[t] = h;
        ls[t] = l;
    }
    Ok(Stock {
        heads: hs,
        lefts: ls,
    })
}

// The lesser of a docid and the greatest docid of a list's block, if the list stands.
fn nearer_of(head: Head, left: Left, last: u32) -> u32
    ensures { result ≡ nearer head left last }
{
    if head.doc < scan::head::END {
        return last.min(left.top);
    }
    last
}

// Up to where the documents can be merged: past it some list that stands needs its next block. Past all docids where no list stands.
pub(crate) fn horizon(heads: [Head; 8], lefts: [Left; 8]) -> u32
    ensures { result ≡ horizon_of heads lefts }
{
    let mut last = scan::head::END;
    for (&head, &left) in heads.iter().zip(&lefts) {
        last = nearer_of(head, left, last);
    }
    last
}
