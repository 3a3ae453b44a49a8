// Shelves of the table: one writing, and the same postings in smaller blocks.
ghost use Rattle.std.specs.Prelude.{◌<◌};
ghost use Rattle.trial.specs.declared.table.TheConstants.{TERMS};

use crate::asking::field_of_5;
use crate::bytes::{Bytes, ROOM};
use crate::chance::Chance;
use crate::postings::Run;
use crate::table::{TERMS, Table, term_number};

// Puts a list behind what is held, or nothing where the writer refuses it, as it does a list of no postings.
pub(crate) fn append<const N: usize>(out: &mut Bytes<N>, strip: bool, term: u32, run: Run) {
    let at = out.len;
    let held = &mut out.held[..];
    let room = &mut held[at..];
    if let Ok(n) = list::write::write_list(strip, term, run.docids, run.scores, room) {
        out.len = at.saturating_add(n).min(N);
    }
}

// "One writing of a shelf is the writer's lists in rising term number."; the writer is told each list's layout.
pub(crate) fn one_writing(table: &Table, out: &mut Bytes<ROOM>) {
    out.clear();
    for term in 0..TERMS {
        let postings = table.postings(term);
        append(
            out,
            table.is_strip(term),
            term_number(term),
            postings.as_run(),
        );
    }
}

// ---- smaller blocks

// A gap number: seven bits a byte, low first, the high bit set on all but the last.
fn put_gap<const N: usize>(value: &mut Bytes<N>, gap: u32) {
    let mut left = gap;
    while 127 < left {
        value.push(&[(128 + left % 128) as u8]);
        left /= 128;
    }
    value.push(&[left as u8]);
}

// The gap number of a posting after another.
fn put_gap_after<const N: usize>(value: &mut Bytes<N>, before: u32, docid: u32) {
    put_gap(value, docid.wrapping_sub(before).wrapping_sub(1));
}

// "gap numbers and scores in turn"
fn put_in_turn<const N: usize>(value: &mut Bytes<N>, run: Run) {
    let mut before = None;
    for (docid, score) in run.docids.iter().zip(run.scores) {
        if let Some(before) = before {
            put_gap_after(value, before, *docid);
        }
        value.push(&score.to_be_bytes());
        before = Some(*docid);
    }
}

// "all gap numbers first, then all scores"
fn put_apart<const N: usize>(value: &mut Bytes<N>, run: Run) {
    for pair in run.docids.windows(2) {
        if let [before, docid] = pair {
            put_gap_after(value, *before, *docid);
        }
    }
    for score in run.scores {
        value.push(&score.to_be_bytes());
    }
}

// The blocks of a list: at most 64 summaries of 12 bytes, and the bodies.
#[derive(Drop)]
struct Blocks {
    count: u8,
    summaries: Bytes<768>,
    bodies: Bytes<2048>,
}

impl Blocks {
    fn new() -> Blocks {
        Blocks {
            count: 0,
            summaries: Bytes::new(),
            bodies: Bytes::new(),
        }
    }

    // One block. The summary is that of a list of its own; the body is made here.
    fn put(&mut self, strip: bool, run: Run) {
        let mut own = Bytes::<1024>::new();
        append(&mut own, strip, 0, run);
        let mut value = Bytes::<1024>::new();
        if strip {
            put_apart(&mut value, run);
        } else {
            put_in_turn(&mut value, run);
        }
        let [high, low] = (value.len as u16).to_be_bytes();
        self.summaries.push(&own.held[8..20]);
        self.bodies.push(&[if strip { 4 } else { 3 }, high, low]);
        self.bodies.push(value.as_slice());
        self.count = self.count.saturating_add(1);
    }
}

// A term's list, in its layout, in blocks of few postings: at most 64 of them, however long the list is.
fn append_cut(table: &Table, term: usize, chance: &mut Chance, out: &mut Bytes<ROOM>)
    requires { term < TERMS }
{
    let postings = table.postings(term);
    let run = postings.as_run();
    let n = run.docids.len();
    if n == 0 {
        return;
    }
    let size = n / 64 + 1 + chance.draw(6);
    let strip = table.is_strip(term);
    let mut blocks = Blocks::new();
    for (docids, scores) in run.docids.chunks(size).zip(run.scores.chunks(size)) {
        blocks.put(strip, Run { docids, scores });
    }
    out.push(&field_of_5(0x01, term_number(term), blocks.count));
    out.push(blocks.summaries.as_slice());
    out.push(blocks.bodies.as_slice());
}

// The table's shelf in small blocks.
pub(crate) fn cut(table: &Table, chance: &mut Chance, out: &mut Bytes<ROOM>) {
    out.clear();
    for term in 0..TERMS {
        append_cut(table, term, chance, out);
    }
}
