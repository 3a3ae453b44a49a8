// The paper's list: "Run: k 100 and 101; 8 and 9 terms; 100 and 101 postings (one block, two); 6,400 and 6,401; docid 1, 16,777,215; gap number 127 and 128."
ghost use Rattle.std.specs.Prelude.{◌≤◌};

use crate::answers::rank_all;
use crate::asking::Question;
use crate::bench::Bench;
use crate::bytes::{Bytes, ROOM};
use crate::chance::Chance;
use crate::comparing::compare;
use crate::postings::{Postings, Run};
use crate::pruning::{agree, search_only};
use crate::second::Hits;
use crate::tally::Tally;
use crate::writing::append;
use model::refusal::{Fault, Refusal};
use shelf::check::check;

// The term of the lists that are made here.
const TERM: u32 = 7;

// ---- queries, to a shelf of the table

// A query for k hits of n terms.
fn query(k: u8, n: usize) -> Question
    requires { n ≤ 9 }
{
    let mut chance = Chance::new(7);
    Question::of_terms(&mut chance, k, n)
}

impl Bench {
    fn query_taken(&mut self, k: u8, n: usize)
        requires { n ≤ 9 }
    {
        let question = query(k, n);
        self.tally.cases.add(1);
        compare(
            &self.table,
            &question,
            self.shelf.as_slice(),
            &mut self.tally,
        );
    }

    fn query_refused(&mut self, k: u8, n: usize, refusal: Refusal)
        requires { n ≤ 9 }
    {
        let question = query(k, n);
        let all = rank_all(question.as_slice(), self.shelf.as_slice());
        let pruned = search_only(question.as_slice(), self.shelf.as_slice());
        self.tally
            .case(matches!(&all, Err(found) if *found == refusal));
        self.tally.expect(agree(&all, &pruned));
    }

    fn queries(&mut self) {
        self.query_taken(100, 4);
        self.query_refused(101, 4, Fault::HitCount.at(0));
        self.query_taken(10, 8);
        self.query_refused(10, 9, Fault::TermCount.at(68));
    }
}

// ---- lists

// Whether a shelf is another once a term's list is converted. An output of one byte is too short for that, which a term with no list never meets: "12, 9".
pub(crate) fn is_turned(shelf: &[u8], term: u32, other: &[u8]) -> bool {
    let mut short = [0; 1];
    let mut out = [0; ROOM];
    let cut = convert::convert::convert(shelf, term, &mut short);
    let unlisted = convert::convert::convert(shelf, u32::MAX, &mut short);
    let made = convert::convert::convert(shelf, term, &mut out);
    cut == Err(Fault::Room.at(0))
        && unlisted == Err(Fault::Absent.at(0))
        && made == Ok(shelf.len())
        && shelf.len() == other.len()
        && out.starts_with(other)
}

// The first n postings of every third sheet, with scores that rise and fall.
fn every_third(n: u16) -> Postings<6401> {
    let mut postings = Postings::new();
    for i in 0..n {
        postings.push(1 + 3 * u32::from(i), 1 + i % 7);
    }
    postings
}

// Whether the shelf's list of the term reads as these postings.
fn reads_as(shelf: &[u8], run: Run) -> bool {
    let mut docids = [0; 6400];
    let mut scores = [0; 6400];
    let answer = list::read::read_list(shelf, TERM, &mut docids, &mut scores);
    answer == Ok(run.docids.len())
        && docids.starts_with(run.docids)
        && scores.starts_with(run.scores)
}

// The exhaustive ranker on a shelf of one list, and the pruned one on another.
fn ranked_alike(shelf: &[u8], other: &[u8]) -> bool {
    let question = Question::of_one(100, TERM);
    let all = rank_all(question.as_slice(), shelf);
    let pruned = search_only(question.as_slice(), other);
    all.is_ok() && agree(&all, &pruned)
}

// What a list must be: its length in bytes, its count of blocks.
#[derive(Clone, Copy)]
struct Size {
    bytes: usize,
    blocks: u8,
}

// Whether a list that was written is right: its size, the checker's word, what it reads as, and a ranking.
fn right_list(shelf: &[u8], run: Run, size: Size) -> bool {
    shelf.len() == size.bytes
        && shelf.get(7) == Some(&size.blocks)
        && check(shelf).is_ok()
        && reads_as(shelf, run)
        && ranked_alike(shelf, shelf)
}

// A list, and the same as a strip: each is right, as long as the other, and the other converted; both rank alike.
fn list_taken(run: Run, size: Size, list: &mut Bytes<ROOM>, tally: &mut Tally) {
    let mut strip = Bytes::<20104>::new();
    list.clear();
    append(list, false, TERM, run);
    append(&mut strip, true, TERM, run);
    let list = list.as_slice();
    let strip = strip.as_slice();
    let right = right_list(list, run, size) && right_list(strip, run, size);
    let alike = ranked_alike(list, strip);
    let turned = is_turned(list, TERM, strip) && is_turned(strip, TERM, list);
    tally.case(right && alike && turned);
}

impl Bench {
    // A list of the first n postings.
    fn first_taken(&mut self, n: u16, bytes: usize, blocks: u8) {
        let postings = every_third(n);
        let size = Size { bytes, blocks };
        list_taken(postings.as_run(), size, &mut self.fresh, &mut self.tally);
    }

    // One posting too many, for the writer and for an edit of the list of 6,400.
    fn one_too_many(&mut self) {
        let postings = every_third(6401);
        let run = postings.as_run();
        let answer = list::write::write_list(false, TERM, run.docids, run.scores, &mut self.out);
        self.tally.case(answer == Err(Fault::Size.at(0)));
        let answer = edit::edit::set(self.fresh.as_slice(), TERM, 19201, 1, &mut self.out);
        self.tally.case(answer == Err(Fault::Size.at(0)));
    }

    // "100 and 101 postings (one block, two); 6,400 and 6,401", each as a strip too, which takes as many bytes.
    fn lists(&mut self) {
        self.first_taken(100, 322, 1);
        self.first_taken(101, 339, 2);
        self.first_taken(6400, 20104, 64);
        self.one_too_many();
    }
}

// ---- docids and gap numbers

// Whether a query of the term with weight 255 has one hit on a shelf, this one.
fn only_hit(shelf: &[u8], docid: u32, score: u32) -> bool {
    let hits = Hits::one(docid, score);
    let question = Question::of_one(100, TERM);
    rank_all(question.as_slice(), shelf).is_ok_and(|kept| hits.are_kept(&kept))
}

// Whether an empty shelf takes a docid, and has it then as its only hit.
fn docid_taken(docid: u32, out: &mut [u8]) -> bool {
    let run = Run {
        docids: &[docid],
        scores: &[9],
    };
    let Ok(n) = edit::edit::set(b"", TERM, docid, 9, out) else {
        return false;
    };
    out.get(..n).is_some_and(|shelf| reads_as(shelf, run) && only_hit(shelf, docid, 2295))
}

fn docid_refused(docid: u32, out: &mut [u8]) -> bool {
    edit::edit::set(b"", TERM, docid, 9, out) == Err(Fault::Posting.at(0))
}

impl Bench {
    fn docids(&mut self) {
        self.tally.case(docid_taken(1, &mut self.out));
        self.tally.case(docid_taken(16777215, &mut self.out));
        self.tally.case(docid_refused(0, &mut self.out));
        self.tally.case(docid_refused(16777216, &mut self.out));
    }

    // Two postings at a distance, whose gap number is one less and takes these two bytes, past the header, the summary, the body's tag and length
    // and the first score; a score's high byte, 0, comes after it.
    fn gap_taken(&mut self, distance: u32, bytes: usize, gap: [u8; 2])
        requires { distance ≤ 1000 }
    {
        let run = Run {
            docids: &[1, 1 + distance],
            scores: &[5, 5],
        };
        let size = Size { bytes, blocks: 1 };
        list_taken(run, size, &mut self.fresh, &mut self.tally);
        let list = self.fresh.as_slice();
        self.tally.expect(list.get(25..27) == Some(gap.as_slice()));
    }

    pub(crate) fn reach_limits(&mut self) {
        self.queries();
        self.lists();
        self.docids();
        self.gap_taken(128, 28, [127, 0]);
        self.gap_taken(129, 29, [128, 1]);
    }
}
