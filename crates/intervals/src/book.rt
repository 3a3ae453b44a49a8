// The book: a row for each interval, in three lent runs.
ghost use Rattle.std.specs.Prelude.{◌+◌, ◌-◌, ◌≤◌, ◌<◌, ◌≡◌, length, get_or, take, drop, replicate, ◌∷◌, ◌++◌};
ghost use Rattle.std.proofs.lemmas.List.Edits.{sets};
ghost use Rattle.model.specs.Runs.{Holds};
ghost use Rattle.intervals.specs.Book.{ceilings_in, Raisable, Skips};

// The first docids of the intervals that `n` cuts make: 1, then the cuts.
pub(crate) fn fill_firsts(cuts: &[u32], n: usize, firsts: &mut [u32])
    requires { (n ≤ length cuts.now) × (n < length firsts.old) }
    ensures { Holds firsts.old (take (n + 1) (1 ∷ cuts.now)) firsts.new (n + 1) }
{
    firsts[0] = 1;
    firsts[1..n + 1].copy_from_slice(&cuts[..n]);
}

// The ceilings, in a run of zeros: raised by one list after another. Not over the `Table`: only of a run that is lent by itself is it known to the
// proof that each score fits its 16 bits.
pub(crate) fn fill_ceilings(
    starts: &[u32],
    ends: &[usize],
    los: &[u32],
    his: &[u32],
    tops: &[u16],
    weights: &[u8],
    out: &mut [u32],
)
    requires { Raisable los.now his.now tops.now ends.now weights.now starts.now out.old }
    ensures { out.new ≡ ceilings_in los.now his.now tops.now ends.now weights.now starts.now ++ drop (length starts.now) out.old }
{
    let mut from = 0;
    for (&end, &weight) in ends.iter().zip(weights) {
        prune::ceiling::raise_all(
            starts,
            &los[from..end],
            &his[from..end],
            &tops[from..end],
            u32::from(weight),
            out,
        );
        from = end;
    }
}

// The intervals that are skipped, marked so, up to the first that is opened.
pub(crate) fn skip_shut(
    ceilings: &[u32],
    n: usize,
    kth: u32,
    from: usize,
    marks: &mut [u8],
) -> usize
    requires { (from ≤ n) × (n ≤ length ceilings.now) × (n ≤ length marks.old) }
    ensures { Skips ceilings.now n kth from marks.old marks.new result }
{
    for i in from..n {
        if prune::open::opens(kth, ceilings[i]) {
            return i;
        }
        marks[i] = 0;
    }
    n
}
