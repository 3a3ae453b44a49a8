// Which block of each list an interval meets. Intervals and blocks both rise, so each list has one place, which only moves on.
ghost use Rattle.std.specs.Prelude.{◌≤◌, ◌≡◌, length};
ghost use Rattle.opening.specs.Meet.{Reaches, met_at, Placed, AllMoved};

use crate::table::Table;

// Past every block: what a list meets in a gap.
pub const GAP: usize = 512;

// The first block from a place on, before the list's end, that does not end below a docid.
fn reach(his: &[u32], from: usize, end: usize, d: u32) -> usize
    requires { (from ≤ end) × (end ≤ length his.now) }
    ensures { Reaches his.now from end d result }
{
    match his[from..end].iter().position(|&greatest| d <= greatest) {
        Some(passed) => from + passed,
        None => end,
    }
}

// The block at that place, unless it begins above the docid.
fn met(los: &[u32], j: usize, end: usize, d: u32) -> usize
    requires { end ≤ length los.now }
    ensures { result ≡ met_at los.now end d j }
{
    if j < end && los[j] <= d { j } else { GAP }
}

// All lists' places moved on to an interval's first docid, and the blocks that it meets.
pub fn meet_all(ends: &[usize], blocks: Table<'_>, d: u32, ats: &mut [usize], mets: &mut [usize])
    requires { Placed blocks.los.now blocks.his.now ends.now ats.old × (length mets.old ≡ 8) }
    ensures { AllMoved blocks.entry.los.now blocks.entry.his.now ends.now ats.old ats.new mets.new d }
{
    for (t, &end) in ends.iter().enumerate() {
        let j = reach(blocks.his, ats[t], end, d);
        ats[t] = j;
        mets[t] = met(blocks.los, j, end, d);
    }
}
