// What a program says, and when it says nothing: the rule for an input that could not be read, and for room that is too small.
ghost use Rattle.lines.specs.Said.{Begun, Asked, Responds, Speaks_with};

// The room that every output has.
const MAX_OUTPUT: usize = 65536;

// How many bytes at the front of two lent runs go to standard output and to standard error.
#[derive(Drop)]
pub struct Said {
    pub out: usize,
    pub err: usize,
}

// Before a program answers: its name, its input where that was read, the room for its output, and a run for what goes to standard error. The input that
// is to be answered; or the program stops, with so many bytes for standard error.
pub fn begin<'a>(
    name: &[u8],
    input: Option<&'a [u8]>,
    room: usize,
    err: &mut [u8],
) -> Result<&'a [u8], usize>
    ensures { Begun name.now input.entry room err.old err.new result }
{
    let unread = b": standard input could not be read\n";
    if room < MAX_OUTPUT || err.len() < name.len() + unread.len() {
        return Err(0);
    }
    if let Some(bytes) = input {
        return Ok(bytes);
    }
    let p = crate::number::put_word(err, 0, name);
    Err(crate::number::put_word(err, p, unread))
}

// What a program of this name says: to an input, or to none where it could not be read. `answer` puts its answer to an input at the front of `out`, and
// what goes to standard error stands at the front of `err`.
pub fn respond<F: FnOnce(&[u8], &mut [u8]) -> usize>(
    name: &[u8],
    input: Option<&[u8]>,
    out: &mut [u8],
    err: &mut [u8],
    answer: F,
) -> Said
    requires { Asked F.FnOnce answer }
    ensures exact { Responds F.FnOnce answer name.now input.entry out.old err.old out.new err.new result }
    ensures spoken { Speaks_with F.FnOnce answer name.now input.entry out.old err.old out.new err.new result }
{
    match begin(name, input, out.len(), err) {
        Ok(bytes) => Said {
            out: answer(bytes, out),
            err: 0,
        },
        Err(n) => Said { out: 0, err: n },
    }
}
