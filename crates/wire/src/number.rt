// Big-endian numbers of one to four bytes.
ghost use Rattle.std.specs.Prelude.{◌≡◌, ◌+◌, ◌≤◌, ◌<◌, ◌^◌, length, drop};
ghost use Rattle.model.specs.Runs.{Stored};
ghost use Rattle.wire.specs.Number.{num, be};

// ---- reading

pub fn be1(s: &[u8], at: usize) -> u8
    requires { at + 1 ≤ length s.now }
    ensures { result ≡ num 1 (drop at s.now) }
{
    s[at]
}

pub fn be2(s: &[u8], at: usize) -> u16
    requires { at + 2 ≤ length s.now }
    ensures { result ≡ num 2 (drop at s.now) }
{
    u16::from_be_bytes([s[at], s[at + 1]])
}

pub fn be3(s: &[u8], at: usize) -> u32
    requires { at + 3 ≤ length s.now }
    ensures { result ≡ num 3 (drop at s.now) }
{
    u32::from_be_bytes([0, s[at], s[at + 1], s[at + 2]])
}

pub fn be4(s: &[u8], at: usize) -> u32
    requires { at + 4 ≤ length s.now }
    ensures { result ≡ num 4 (drop at s.now) }
{
    u32::from_be_bytes([s[at], s[at + 1], s[at + 2], s[at + 3]])
}

// ---- writing: each stores its bytes at a place that has room for them, and gives the place past them

pub fn put1(out: &mut [u8], at: usize, b: u8) -> usize
    requires { at + 1 ≤ length out.old }
    ensures { Stored out.old out.new at result (be 1 b) }
{
    out[at] = b;
    at + 1
}

pub fn put2(out: &mut [u8], at: usize, x: u16) -> usize
    requires { at + 2 ≤ length out.old }
    ensures { Stored out.old out.new at result (be 2 x) }
{
    out[at..at + 2].copy_from_slice(&x.to_be_bytes());
    at + 2
}

pub fn put3(out: &mut [u8], at: usize, x: u32) -> usize
    requires { (x < 256 ^ 3) × (at + 3 ≤ length out.old) }
    ensures { Stored out.old out.new at result (be 3 x) }
{
    out[at..at + 3].copy_from_slice(&x.to_be_bytes()[1..]);
    at + 3
}

pub fn put4(out: &mut [u8], at: usize, x: u32) -> usize
    requires { at + 4 ≤ length out.old }
    ensures { Stored out.old out.new at result (be 4 x) }
{
    out[at..at + 4].copy_from_slice(&x.to_be_bytes());
    at + 4
}
