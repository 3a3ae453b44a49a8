// A list as it stands in the lent shelf: the numbers of its summaries, and its bodies as parts of the shelf's own slice.
ghost use Rattle.std.specs.Prelude.{◌≡◌};
ghost use Rattle.model.specs.Outcome.{done};
ghost use Rattle.model.specs.Refusal.{outcome_of};
ghost use Rattle.shelf.specs.Answers.{placed};
ghost use Rattle.lookup.specs.Find.{found};
ghost use Rattle.lookup.specs.Show.{summary_shown, ShownOf};
ghost use Rattle.lent.specs.View.{BodyOf};

use block::summary::Summary;
use lookup::find::Span;
use model::refusal::Refusal;
use shelf::walk::Place;

// The shelf itself, and the list's place in it; or the refusal, or an error of the caller's own, in its stead.
#[derive(Drop)]
pub struct ListView<'a, E = Refusal> {
    pub shelf: &'a [u8],
    pub place: Result<Place, E>,
}

// The list of a term, shown in place: 6 and 7, then 12.
pub fn view<'a>(shelf: &'a [u8], term: u32) -> ListView<'a>
    ensures { (result.shelf ≡ shelf.entry) × (outcome_of result.place ≡ placed (found term shelf.now)) }
{
    let place = lookup::find::find_list(shelf, term);
    ListView { shelf, place }
}

// The numbers of the summary of block `j`: the view's error, or 12 where the block is not there.
pub fn summary<'a, E: From<Refusal>>(v: ListView<'a, E>, j: usize) -> Result<Summary, E>
    ensures { ShownOf E.from_gives v.entry.place (λ p. summary_shown v.entry.shelf.now (done p) j) result }
{
    lookup::find::summary_shown(v.shelf, v.place, j)
}

// A body as a part of the shelf, and where it stands there.
#[derive(Drop)]
pub struct BodyPart<'a> {
    pub bytes: &'a [u8],
    pub at: Span,
}

// The body of block `j`: the view's error, or 12 where the block is not there.
pub fn body<'a, E: From<Refusal>>(v: ListView<'a, E>, j: usize) -> Result<BodyPart<'a>, E>
    ensures { BodyOf E.from_gives v.entry.shelf v.entry.place j result }
{
    let at = lookup::find::body_shown(v.shelf, v.place, j)?;
    let bytes = &v.shelf[at.start..at.end];
    Ok(BodyPart { bytes, at })
}
