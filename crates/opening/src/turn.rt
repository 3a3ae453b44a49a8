// One interval opened.
ghost use Rattle.opening.specs.Enter.{Enterable};
ghost use Rattle.opening.specs.Turn.{Openable, Opens};

use crate::enter::Entrance;
use crate::table::Table;
use rank::keep::Kept;
use scan::head::Head;
use scan::run::After;

// Past an opened interval: where the lists stand, the hits kept, how many blocks were loaded, and the least offset of a wrong body's tag
// if any is wrong.
#[derive(Drop)]
pub struct Turn {
    pub heads: [Head; 8],
    pub kept: Kept,
    pub fresh: usize,
    pub wrong: Option<usize>,
}

// All blocks that the interval meets are loaded and checked. Only where all are right are its documents scored.
pub fn open(
    shelf: &[u8],
    blocks: Table<'_>,
    weights: &[u8],
    was: &[usize],
    mets: &[usize],
    heads: [Head; 8],
    docs: &mut [u32; 800],
    scores: &mut [u16; 800],
    first: u32,
    last: u32,
    k: usize,
    kept: Kept,
) -> Turn
    requires { Enterable shelf.now blocks.los.now blocks.his.now blocks.tops.now blocks.counts.now blocks.bodies.now weights.now was.now mets.now docs.old scores.old × Openable shelf.now blocks.los.now blocks.his.now blocks.tops.now blocks.counts.now blocks.bodies.now weights.now was.now heads docs.old scores.old first last k kept }
    ensures { Opens shelf.now blocks.entry.los.now blocks.entry.his.now blocks.entry.tops.now blocks.entry.counts.now blocks.entry.bodies.now weights.now was.now mets.now heads docs.old scores.old docs.new scores.new first last k kept result }
{
    let Entrance {
        heads,
        fresh,
        wrong,
    } = crate::enter::enter_all(shelf, blocks, weights, was, mets, heads, docs, scores);
    if wrong.is_some() {
        return Turn {
            heads,
            kept,
            fresh,
            wrong,
        };
    }
    let After { heads, kept } = scan::run::interval(docs, scores, heads, first, last, k, kept);
    Turn {
        heads,
        kept,
        fresh,
        wrong,
    }
}
