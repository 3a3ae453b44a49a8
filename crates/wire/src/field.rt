// A field: a one-byte tag, a two-byte length and the value.
ghost use Rattle.std.specs.Prelude.{◌≡◌, ◌∷◌, ◌+◌, ◌≤◌, length};
ghost use Rattle.model.specs.Runs.{Stored};
ghost use Rattle.wire.specs.Number.{be};
ghost use Rattle.wire.specs.Field.{field_at};

// The length of the value of the whole field at a place, if one of the tag asked for stands there.
pub fn field(s: &[u8], at: usize, tag: u8) -> Option<usize>
    ensures { result ≡ field_at tag s.now at }
{
    let n = s.len();
    if n < at {
        return None;
    }
    let left = n - at;
    if left < 3 {
        return None;
    }
    if s[at] != tag {
        return None;
    }
    let len = crate::number::be2(s, at + 1) as usize;
    if left < 3 + len {
        return None;
    }
    Some(len)
}

// A field's tag and length, stored at a place that has room; gives the place past them.
pub fn put_head(out: &mut [u8], at: usize, tag: u8, n: u16) -> usize
    requires { at + 3 ≤ length out.old }
    ensures { Stored out.old out.new at result (tag ∷ be 2 n) }
{
    let p = crate::number::put1(out, at, tag);
    crate::number::put2(out, p, n)
}
