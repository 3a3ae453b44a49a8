// A block's body read into its list's part of the buffers, once: it is judged while its postings are stored.
ghost use Rattle.scan.specs.Load.{Loadable, Loads};

use crate::head::Head;
use block::summary::Summary;

// A body that is wrong for its summary.
#[derive(Clone, Copy, Debug, PartialEq, Eq)]
pub struct WrongBody;

// The body of a block of list t, whose part of the buffers is a hundred long: the head at its first posting.
pub fn load(
    body: &[u8],
    m: Summary,
    weight: u8,
    t: usize,
    docs: &mut [u32; 800],
    scores: &mut [u16; 800],
) -> Result<Head, WrongBody>
    requires { Loadable m t docs.old scores.old }
    ensures { Loads m body.now weight t docs.old scores.old docs.new scores.new result }
{
    let at = 100 * t;
    if block::body::read_body(body, m, docs, scores, at) {
        let head = Head {
            doc: docs[at],
            score: scores[at],
            weight,
            at: at + 1,
            end: at + (m.count as usize),
        };
        return Ok(head);
    }
    Err(WrongBody)
}
