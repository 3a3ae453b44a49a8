// The exhaustive ranker. Its refusals come in the paper's order: 1 to 5 by the query, 6 and 7 by the shelf, 9 by the rows, 8 by the bodies.
ghost use Rattle.rank.specs.Match.{any_list};
ghost use Rattle.prune.specs.Prune.{exhaustive};
ghost use Rattle.exhaustive.specs.Exhaustive.{rank_all, Answers};
ghost use Rattle.exhaustive.specs.Merge.{Mergeable, lists_from};

use model::refusal::{Fault, Refusal};
use rank::keep::Kept;

// The ranking of lists that were found, or the first wrong body among theirs.
fn rank_found(
    shelf: &[u8],
    ats: [usize; 8],
    counts: [u8; 8],
    weights: [u8; 8],
    k: usize,
) -> Result<Kept, Refusal>
    requires { Mergeable shelf.now ats counts k }
    ensures { Answers (exhaustive any_list k (lists_from shelf.now weights ats counts)) result }
{
    let Ok(kept) = crate::merge::merge(shelf, ats, counts, weights, k) else {
        // Some body is wrong, so there is a first one.
        let at = crate::wrong::first_wrong(shelf, ats, counts).unwrap();
        return Err(Fault::Body.at(at));
    };
    Ok(kept)
}

// The k best documents of a query, or the refusal; `rows` is how many hits the caller has room for.
pub fn rank_all(query: &[u8], shelf: &[u8], rows: usize) -> Result<Kept, Refusal>
    ensures { Answers (rank_all query.now shelf.now rows) result }
{
    let asked = query::read::read_query(query)?;
    let found = lookup::gather::find_terms(shelf, asked.terms, asked.n)?;
    let k = asked.k as usize;
    if rows < k {
        return Err(Fault::Room.at(0));
    }
    rank_found(shelf, found.ats, found.counts, asked.weights, k)
}
