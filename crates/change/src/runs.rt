// One posting put into two runs, or taken out of them, in place.
ghost use Rattle.std.specs.Prelude.{◌≡◌, ◌≤◌, length};
ghost use Rattle.change.specs.Runs.{Clears, Insertable, Inserts};

// Takes the posting of a docid out of the first `n` of two runs, and gives how many are left.
pub fn without(docs: &mut [u32], scores: &mut [u16], n: usize, d: u32) -> usize
    requires { (n ≤ length docs.old) × (n ≤ length scores.old) }
    ensures { Clears d n docs.old scores.old result docs.new scores.new }
{
    let mut j = 0;
    for i in 0..n {
        let x = docs[i];
        let y = scores[i];
        if x != d {
            docs[j] = x;
            scores[j] = y;
            j += 1;
        }
    }
    j
}

// Puts a posting, whose docid they do not hold, into its place among the first `n` of two runs, which rise: those above it move up by one.
pub fn insert(docs: &mut [u32], scores: &mut [u16], n: usize, d: u32, w: u16) -> usize
    requires { Insertable d n docs.old scores.old }
    ensures { Inserts d w n docs.old scores.old result docs.new scores.new }
{
    let at = docs[..n].partition_point(|x| *x < d);
    docs.copy_within(at..n, at + 1);
    scores.copy_within(at..n, at + 1);
    docs[at] = d;
    scores[at] = w;
    n + 1
}
