// The documents of a query's lists, merged out of their blocks: each block's body is read once, when its list needs it.
ghost use Rattle.exhaustive.specs.Merge.{Addressed, Opens, Mergeable, Merges};

use crate::fill::{Left, Stock};
use rank::keep::Kept;
use scan::head::Head;
use scan::load::WrongBody;
use std::array;

// Each list before its first block.
fn open_all(ats: [usize; 8], counts: [u8; 8], weights: [u8; 8]) -> Stock
    requires { Addressed ats counts }
    ensures { Opens ats counts weights result }
{
    let heads = array::from_fn(|t| Head {
        doc: scan::head::END,
        score: 0,
        weight: weights[t],
        at: 100 * t,
        end: 100 * t,
    });
    // A loop: by array::from_fn, as for the heads, this took half as long again (measured).
    let nothing = Left {
        blocks: crate::fill::reading_at(0, 0),
        top: 0,
    };
    let mut lefts = [nothing; 8];
    for t in 0..8 {
        lefts[t] = Left {
            blocks: crate::fill::reading_at(ats[t], counts[t]),
            top: 0,
        };
    }
    Stock { heads, lefts }
}

// The k best documents of the lists. A run goes up to where the first list needs its next block; then the lists go on to their next blocks.
pub(crate) fn merge(
    shelf: &[u8],
    ats: [usize; 8],
    counts: [u8; 8],
    weights: [u8; 8],
    k: usize,
) -> Result<Kept, WrongBody>
    requires { Mergeable shelf.now ats counts k }
    ensures { Merges shelf.now ats counts weights k result }
{
    let mut docs = [0u32; 800];
    let mut scores = [0u16; 800];
    let Stock {
        mut heads,
        mut lefts,
    } = open_all(ats, counts, weights);
    let mut kept = Kept::new();
    loop {
        let filled = crate::fill::fill(shelf, heads, lefts, &mut docs, &mut scores)?;
        let hs = filled.heads;
        let ls = filled.lefts;
        let last = crate::fill::horizon(hs, ls);
        if last == scan::head::END {
            return Ok(kept);
        }
        let after = scan::run::run(&docs, &scores, hs, last, k, kept);
        heads = after.heads;
        lefts = ls;
        kept = after.kept;
    }
}
