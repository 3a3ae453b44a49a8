// Whether a list of a sound shelf holds a docid, without reading the list whole.
ghost use Rattle.std.specs.Prelude.{◌≡◌};
ghost use Rattle.model.specs.Post.{docs, Rising};
ghost use Rattle.model.specs.Runs.{has};
ghost use Rattle.block.specs.Body.{body_run};
ghost use Rattle.edit.specs.Left.{posts_at, Sought};

use block::cursor::{Cursor, Step};
use block::summary::Summary;
use shelf::blocks::Reading;
use shelf::walk::Place;

// Whether a body's postings, which rise, hold docid `d`: none past the first that is not below it is read.
fn body_holds(s: &[u8], m: Summary, d: u32) -> bool
    requires { Rising 0 (body_run m s.now) }
    ensures { result ≡ has d (docs (body_run m s.now)) }
{
    let e = block::body::edge(s, m);
    let gaps = &s[0..e];
    let points = &s[e..];
    let mut c = Cursor::new(m);
    loop {
        match c.next(gaps, points) {
            Step::Posting(doc, score, onward) => {
                if d <= doc {
                    return d == doc;
                }
                c = onward;
            }
            Step::End => {
                return false;
            }
            Step::Bad => {
                return false;
            }
        }
    }
}

// Whether a list holds docid `d`: docids rise from block to block, so that only the first block whose greatest docid is not below it may.
pub(crate) fn holds(s: &[u8], list: Place, d: u32) -> bool
    requires { Sought s.now list }
    ensures { result ≡ has d (docs (posts_at s.now list)) }
{
    let mut reading = Reading::new(list);
    while let Some(b) = reading.next(s) {
        if d <= b.summary.greatest {
            return body_holds(&s[b.start..b.end], b.summary, d);
        }
    }
    false
}
