// The search program: standard input is a query and then a shelf.
use std::io::{Read, Write};

// One byte more is read than is searched, so that an input that is too long is seen to be.
pub fn run<I: Read, O: Write, E: Write>(asked: &mut I, output: &mut O, errors: &mut E) {
    crate::whole::run::<65537, I, O, E, _>(asked, output, errors, report::report::respond);
}
