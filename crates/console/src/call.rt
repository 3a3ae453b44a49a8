// What a call of the system answered, and what comes of it.
ghost use Rattle.std.specs.Prelude.{◌≡◌};
ghost use Rattle.console.specs.Calls.{call_of, sent_of, next_of, Countable};

use std::io;
use std::io::ErrorKind;
use std::ops::ControlFlow;

// Bytes were moved; there is no more; a signal interrupted the call before it moved a byte; it failed. Four outcomes, each with a branch of its own.
#[derive(Drop)]
pub enum Call {
    Moved(usize),
    Ended,
    Again,
    Failed,
}

// What a reader or a writer that was handed `room` bytes answered, judged as the call under it.
pub(crate) fn answered(answer: io::Result<usize>, room: usize) -> Call
    ensures { result ≡ call_of answer room }
{
    match answer {
        Ok(0) => Call::Ended,
        Ok(n) => Call::Moved(n.min(room)),
        Err(e) => match e.kind() {
            ErrorKind::Interrupted => Call::Again,
            _ => Call::Failed,
        },
    }
}

// A write that moves nothing has failed: output has no end.
pub(crate) fn sent(call: Call) -> Call
    ensures { result ≡ sent_of call }
{
    match call {
        Call::Ended => Call::Failed,
        other => other,
    }
}

// After a call: on with so many bytes moved and so many tries left; or it is over, with all that was moved, or with nothing where a call failed. An
// interrupted call is tried again, as often as tries are left.
pub(crate) fn onward(
    call: Call,
    moved: usize,
    tries: usize,
) -> ControlFlow<Option<usize>, (usize, usize)>
    requires { Countable call moved }
    ensures { result ≡ next_of call moved tries }
{
    match call {
        Call::Moved(n) => ControlFlow::Continue((moved + n, tries)),
        Call::Ended => ControlFlow::Break(Some(moved)),
        Call::Again => {
            if tries == 0 {
                return ControlFlow::Break(None);
            }
            ControlFlow::Continue((moved, tries - 1))
        }
        Call::Failed => ControlFlow::Break(None),
    }
}
