// A program, whole: standard input is read, the answer to it is asked for, and that is written.
ghost use Rattle.std.specs.Prelude.{◌<◌, ◌^◌};
ghost use Rattle.lines.specs.Said.{Words, Says};

use lines::said::Said;
use std::io::{Read, Write};

// At most `N` bytes of the input are read; what `respond` says to them goes out.
pub(crate) fn run<
    const N: usize,
    I: Read,
    O: Write,
    E: Write,
    F: FnOnce(Option<&[u8]>, &mut [u8], &mut [u8]) -> Said,
>(input: &mut I, output: &mut O, errors: &mut E, respond: F)
    requires fits { N < 2 ^ 63 }
    requires callable { F.IsAlwaysCallable respond }
    requires says { (i : _) (o e o' e' : _) (s : _) → F.post respond i o e s o' e' → (w : Words) × Says w o.now e.now o'.now e'.now s }
{
    let mut input_bytes = [0u8; N];
    let mut out = [0u8; 65536];
    let mut err = [0u8; 64];
    let count = console::input::read_whole(input, &mut input_bytes);
    let bytes = &input_bytes[..];
    let read = count.map(|n| &bytes[0..n]);
    let said = respond(read, &mut out, &mut err);
    console::output::say(output, errors, &out[0..said.out], &err[0..said.err]);
}
