// The checker: faults 6 and 7, then the first wrong body.
ghost use Rattle.std.specs.Prelude.{◌≡◌, []};
ghost use Rattle.model.specs.Refusal.{outcome_of};
ghost use Rattle.shelf.specs.Walk.{blocks_at};
ghost use Rattle.shelf.specs.Check.{bad_body, or_else, verdict, judged, checked};
ghost use Rattle.shelf.specs.Answers.{Ready};

use crate::blocks::Reading;
use crate::walk::{Place, Walk};
use model::refusal::{Fault, Refusal};

// The tag of the first wrong body of a list that the walk found, if one is wrong.
pub fn bad_body(s: &[u8], list: Place) -> Option<usize>
    requires { Ready s.now list }
    ensures { result ≡ bad_body (blocks_at s.now list.at list.count) }
{
    let mut reading = Reading::new(list);
    while let Some(b) = reading.next(s) {
        if !block::body::right_body(&s[b.start..b.end], b.summary) {
            return Some(b.start - 3);
        }
    }
    None
}

// A wrong body that is known, or else the list's first.
fn bad_or(known: Option<usize>, s: &[u8], list: Place) -> Option<usize>
    requires { Ready s.now list }
    ensures { result ≡ or_else known (bad_body (blocks_at s.now list.at list.count)) }
{
    known.or_else(|| bad_body(s, list))
}

// Number 8 at the wrong body's tag, if there is one.
fn verdict_of(bad: Option<usize>) -> Result<(), Refusal>
    ensures { outcome_of result ≡ judged (verdict [] bad) }
{
    match bad {
        Some(o) => Err(Fault::Body.at(o)),
        None => Ok(()),
    }
}

// Checks a shelf: faults 6 and 7 first, then the first wrong body.
pub fn check(s: &[u8]) -> Result<(), Refusal>
    ensures { outcome_of result ≡ judged (checked s.now) }
{
    let mut walk = Walk::new();
    let mut bad = None;
    while let Some(list) = walk.next(s)? {
        bad = bad_or(bad, s, list);
    }
    verdict_of(bad)
}
