// Words and decimal numbers, stored at a place of a lent run that has room for them; each gives the place past it.
ghost use Rattle.std.specs.Prelude.{◌≡◌, ◌+◌, ◌≤◌, length};
ghost use Rattle.model.specs.Runs.{Stored};
ghost use Rattle.lines.specs.Text.{decimal, numbers};

// The code of the digit 0; the other digits come after it.
const ZERO: u8 = 48;

pub fn put_word(out: &mut [u8], at: usize, word: &[u8]) -> usize
    requires { at + length word.now ≤ length out.old }
    ensures { Stored out.old out.new at result word.now }
{
    let end = at + word.len();
    out[at..end].copy_from_slice(word);
    end
}

// The digits before the last by the same function, then the last.
pub(crate) fn put_number(out: &mut [u8], at: usize, n: u64) -> usize
    requires { at + length (decimal n) ≤ length out.old }
    ensures { Stored out.old out.new at result (decimal n) }
{
    if n < 10 {
        return wire::number::put1(out, at, ZERO + (n as u8));
    }
    let p = put_number(out, at, n / 10);
    wire::number::put1(out, p, ZERO + ((n % 10) as u8))
}

// Each number with a blank in front.
pub(crate) fn put_numbers(out: &mut [u8], at: usize, ns: &[u64]) -> usize
    requires { at + length (numbers ns.now) ≤ length out.old }
    ensures { Stored out.old out.new at result (numbers ns.now) }
{
    let mut j = at;
    for n in ns {
        j = put_word(out, j, b" ");
        j = put_number(out, j, *n);
    }
    j
}
