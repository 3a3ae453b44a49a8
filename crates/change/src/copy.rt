// Bytes copied as they stand.
ghost use Rattle.std.specs.Prelude.{◌+◌, ◌-◌, ◌≤◌, length, take, drop};
ghost use Rattle.model.specs.Runs.{Stored};

// Copies `s` from `from` to `to` into the buffer at a place that has room, and gives the place past it.
pub fn copy(out: &mut [u8], at: usize, s: &[u8], from: usize, to: usize) -> usize
    requires { (from ≤ to) × (to ≤ length s.now) × (at + (to - from) ≤ length out.old) }
    ensures { Stored out.old out.new at result (take (to - from) (drop from s.now)) }
{
    // A loop, as the archives for C are to need no function from outside for it: `copy_from_slice` is a call of `memmove` there.
    for i in from..to {
        out[at + (i - from)] = s[i];
    }
    at + (to - from)
}
