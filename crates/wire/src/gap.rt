// The two numbers of a body: the gap number and the score. What reads gives the number and the place past it; what does not, the place where it begins.
ghost use Rattle.std.specs.Prelude.{◌≡◌, ◌+◌, ◌≤◌, ◌<◌, ◌^◌, length};
ghost use Rattle.model.specs.Runs.{Stored};
ghost use Rattle.wire.specs.Gap.{gap_at, score_at, gap_bytes};

// The gap number at a place, in at most `most` bytes. Most gaps are one byte, which is read here without a call.
pub fn gap(s: &[u8], at: usize, most: u8) -> Result<(u64, usize), usize>
    requires { (0 < most) × (most ≤ 5) }
    ensures { result ≡ gap_at most s.now at }
{
    if s.len() <= at {
        return Err(at);
    }
    let b = s[at] as u64;
    if b < 128 {
        return Ok((b, at + 1));
    }
    gap_in(s, at, most)
}

// The same, byte after byte: `v` is what the bytes before `i` are worth, `unit` what a one at `i` is worth.
fn gap_in(s: &[u8], at: usize, most: u8) -> Result<(u64, usize), usize>
    requires { most ≤ 5 }
    ensures { result ≡ gap_at most s.now at }
{
    let mut v: u64 = 0;
    let mut unit: u64 = 1;
    let mut i = at;
    for turn in 0..most {
        if s.len() <= i {
            return Err(at);
        }
        let b = s[i] as u64;
        if b < 128 {
            if (b == 0) & (at < i) {
                return Err(at);
            }
            return Ok((v + unit * b, i + 1));
        }
        v += unit * (b % 128);
        unit *= 128;
        i += 1;
    }
    Err(at)
}

pub fn score(s: &[u8], at: usize) -> Result<(u16, usize), usize>
    ensures { result ≡ score_at s.now at }
{
    let n = s.len();
    if n < at {
        return Err(at);
    }
    if n - at < 2 {
        return Err(at);
    }
    let points = crate::number::be2(s, at);
    if points == 0 {
        Err(at)
    } else {
        Ok((points, at + 2))
    }
}

// The gap number's bytes, stored at a place that has room; gives the place past them.
pub fn put_gap(out: &mut [u8], at: usize, g: u64) -> usize
    requires { (g < 128 ^ 5) × (at + length (gap_bytes g) ≤ length out.old) }
    ensures { Stored out.old out.new at result (gap_bytes g) }
{
    let mut n = g;
    let mut i = at;
    while 128 <= n {
        out[i] = (128 + n % 128) as u8;
        i += 1;
        n /= 128;
    }
    out[i] = n as u8;
    i + 1
}

// How many bytes a gap number takes.
pub fn gap_len(g: u64) -> usize
    requires { g < 128 ^ 5 }
    ensures { result ≡ length (gap_bytes g) }
{
    // By its size, seven bits a byte. With a loop over its sevens each byte past the first cost a jump, and by where the loop came to lie a list of wide
    // gaps was written up to 1.9 times as slowly (measured).
    if g < 128 {
        return 1;
    }
    if g < 16384 {
        return 2;
    }
    if g < 2097152 {
        return 3;
    }
    if g < 268435456 {
        return 4;
    }
    5
}
