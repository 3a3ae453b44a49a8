// The checker program: standard input is a shelf.
use std::io::{Read, Write};

// One byte more is read than a shelf may have, so that one that is too long is seen to be.
pub fn run<I: Read, O: Write, E: Write>(input: &mut I, output: &mut O, errors: &mut E) {
    crate::whole::run::<1048577, I, O, E, _>(input, output, errors, checking::verdict::respond);
}
