// An output written whole.
ghost use Rattle.std.specs.Prelude.{◌≡◌, true, ◌<◌, length};
ghost use Rattle.console.specs.Calls.{Moving};

use crate::call::Call;
use std::io::Write;
use std::ops::ControlFlow;

// One call; there are bytes to write.
fn write_some<W: Write>(to: &mut W, bytes: &[u8]) -> Call
    requires { 0 < length bytes.now }
    ensures { Moving result (length bytes.now) }
{
    crate::call::sent(crate::call::answered(to.write(bytes), bytes.len()))
}

// Whether all of the bytes were written.
pub(crate) fn write_whole<W: Write>(to: &mut W, bytes: &[u8]) -> bool
    ensures { length bytes.now ≡ 0 → result ≡ true }
{
    let mut done = 0;
    let mut tries = crate::input::TRIES;
    while done < bytes.len() {
        let call = write_some(to, &bytes[done..]);
        match crate::call::onward(call, done, tries) {
            ControlFlow::Continue((moved, left)) => {
                done = moved;
                tries = left;
            }
            ControlFlow::Break(got) => {
                return got.is_some();
            }
        }
    }
    true
}

// Writes what goes to standard error and what goes to standard output; where the latter could not be written, a line on standard error says so.
pub fn say<O: Write, E: Write>(output: &mut O, errors: &mut E, out: &[u8], err: &[u8]) {
    write_whole(errors, err);
    if !write_whole(output, out) {
        write_whole(errors, b"standard output could not be written\n");
    }
}
