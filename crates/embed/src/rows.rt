// Hits as rows of two lent runs.
ghost use Rattle.rank.specs.Keep.{kept_of};
ghost use Rattle.embed.specs.Rows.{Fit, Fits, Rows, ranking, Hits};

use model::refusal::Refusal;
use rank::keep::Kept;

// Stores the hits that a keeper holds to the front of two runs that have room for them; gives how many there are.
fn put_rows(kept: Kept, docids: &mut [u32], scores: &mut [u32]) -> usize
    requires { Fit kept docids.old scores.old }
    ensures { Rows (kept_of kept) docids.old scores.old docids.new scores.new result }
{
    let n = kept.n;
    docids[..n].copy_from_slice(&kept.docids[..n]);
    scores[..n].copy_from_slice(&kept.scores[..n]);
    n
}

// A ranker's answer as C gets it: the hits in front of two runs that have room for them, and how many there are; a refusal touches neither run.
pub(crate) fn tell_hits(
    answer: Result<Kept, Refusal>,
    docids: &mut [u32],
    scores: &mut [u32],
    value: &mut u64,
) -> u32
    requires { Fits answer docids.old scores.old }
    ensures { Hits (ranking answer) docids.old scores.old docids.new scores.new result value.new }
{
    match answer {
        Ok(kept) => {
            let n = put_rows(kept, docids, scores);
            crate::report::tell(Ok(n), value)
        }
        Err(refusal) => crate::report::tell(Err(refusal), value),
    }
}
