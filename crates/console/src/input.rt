// An input read whole.
ghost use Rattle.std.specs.Prelude.{◌<◌, length};
ghost use Rattle.console.specs.Calls.{Moving, Read};

use crate::call::Call;
use std::io::Read;
use std::ops::ControlFlow;

// How often an interrupted call is tried again, in all.
pub(crate) const TRIES: usize = 1000000;

// One call; `buf` has room.
fn read_some<R: Read>(from: &mut R, buf: &mut [u8]) -> Call
    requires { 0 < length buf.old }
    ensures { Moving result (length buf.old) }
{
    let room = buf.len();
    crate::call::answered(from.read(buf), room)
}

// Reads to the end of the input, or until `buf` is full: how many bytes were got; nothing where a call failed.
pub fn read_whole<R: Read>(from: &mut R, buf: &mut [u8]) -> Option<usize>
    ensures { Read buf.new result }
{
    let mut done = 0;
    let mut tries = TRIES;
    while done < buf.len() {
        let call = read_some(from, &mut buf[done..]);
        match crate::call::onward(call, done, tries) {
            ControlFlow::Continue((moved, left)) => {
                done = moved;
                tries = left;
            }
            ControlFlow::Break(got) => {
                return got;
            }
        }
    }
    Some(done)
}
