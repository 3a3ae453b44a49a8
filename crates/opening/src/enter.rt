// An interval entered: each list keeps its place in the block that it reads already, or has the block that is met loaded, once.
ghost use Rattle.std.specs.Prelude.{◌≡◌, [], ◌+◌, ◌≤◌, ◌<◌, length, drop};
ghost use Rattle.wire.specs.Field.{field_len, field_value};
ghost use Rattle.scan.specs.Heads.{roomy};
ghost use Rattle.scan.specs.Load.{head_of};
ghost use Rattle.opening.specs.Table.{gap};
ghost use Rattle.prune.specs.Prune.{earlier};
ghost use Rattle.opening.specs.Enter.{Loadable, Enters, told, Enterable, EntersAll};

use crate::table::Table;
use block::summary::Summary;
use scan::head::Head;

// The body whose tag stands at a place.
fn body_at(s: &[u8], at: usize) -> &[u8]
    requires { at + (3 + field_len (drop at s.now)) ≤ length s.now }
    ensures { result.now ≡ field_value (drop at s.now) }
{
    let start = at + 3;
    let end = start + wire::number::be2(s, at + 1) as usize;
    &s[start..end]
}

// The head of a list at its end.
pub fn ended(weight: u8, t: usize) -> Head
    requires { t < 8 }
    ensures { result ≡ head_of weight t [] }
{
    Head {
        doc: scan::head::END,
        score: 0,
        weight,
        at: 100 * t,
        end: 100 * t,
    }
}

// A list in an interval: its head, how many blocks were loaded, and the offset of its body's tag if that is wrong.
#[derive(Drop)]
pub struct Entry {
    pub head: Head,
    pub fresh: usize,
    pub wrong: Option<usize>,
}

// List t, which read block `was`, in an interval that meets block `met`.
fn enter(
    shelf: &[u8],
    blocks: Table<'_>,
    weight: u8,
    t: usize,
    was: usize,
    met: usize,
    head: Head,
    docs: &mut [u32; 800],
    scores: &mut [u16; 800],
) -> Entry
    requires { (t < 8) × ((met ≡ gap → ⊥) → Loadable shelf.now blocks.los.now blocks.his.now blocks.tops.now blocks.counts.now blocks.bodies.now met) × (length docs.old ≡ roomy) × (length scores.old ≡ roomy) }
    ensures { Enters shelf.now blocks.entry.los.now blocks.entry.his.now blocks.entry.tops.now blocks.entry.counts.now blocks.entry.bodies.now weight t was met head docs.old scores.old docs.new scores.new result }
{
    if met == was {
        return Entry {
            head,
            fresh: 0,
            wrong: None,
        };
    }
    if met == crate::meet::GAP {
        return Entry {
            head: ended(weight, t),
            fresh: 0,
            wrong: None,
        };
    }
    let at = blocks.bodies[met] as usize;
    let m = Summary {
        least: blocks.los[met],
        greatest: blocks.his[met],
        top: blocks.tops[met],
        count: blocks.counts[met],
        strip: block::body::is_strip(shelf, at),
    };
    match scan::load::load(body_at(shelf, at), m, weight, t, docs, scores) {
        Ok(h) => Entry {
            head: h,
            fresh: 1,
            wrong: None,
        },
        Err(_) => Entry {
            head: ended(weight, t),
            fresh: 1,
            wrong: Some(at),
        },
    }
}

// All lists in an interval: their heads, how many blocks were loaded, and the least offset of a wrong body's tag if any is wrong.
#[derive(Drop)]
pub struct Entrance {
    pub heads: [Head; 8],
    pub fresh: usize,
    pub wrong: Option<usize>,
}

// The lesser of two offsets, if there is one.
fn sooner(a: Option<usize>, b: Option<usize>) -> Option<usize>
    ensures { told result ≡ earlier (told a) (told b) }
{
    match (a, b) {
        (Some(x), Some(y)) => Some(x.min(y)),
        _ => a.or(b),
    }
}

// All lists in an interval that meets the blocks `mets`, where they read the blocks `was`.
pub(crate) fn enter_all(
    shelf: &[u8],
    blocks: Table<'_>,
    weights: &[u8],
    was: &[usize],
    mets: &[usize],
    heads: [Head; 8],
    docs: &mut [u32; 800],
    scores: &mut [u16; 800],
) -> Entrance
    requires { Enterable shelf.now blocks.los.now blocks.his.now blocks.tops.now blocks.counts.now blocks.bodies.now weights.now was.now mets.now docs.old scores.old }
    ensures { EntersAll shelf.now blocks.entry.los.now blocks.entry.his.now blocks.entry.tops.now blocks.entry.counts.now blocks.entry.bodies.now weights.now was.now mets.now heads docs.old scores.old docs.new scores.new result }
{
    let mut hs = heads;
    let mut fresh: usize = 0;
    let mut wrong = None;
    for t in 0..8 {
        let e = enter(
            shelf, blocks, weights[t], t, was[t], mets[t], hs[t], docs, scores,
        );
        hs[t] = e.head;
        fresh += e.fresh;
        wrong = sooner(wrong, e.wrong);
    }
    Entrance {
        heads: hs,
        fresh,
        wrong,
    }
}
