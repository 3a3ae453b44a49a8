// The three edits and the converter: each reads one buffer and writes another.
ghost use Rattle.std.specs.Prelude.{length};
ghost use Rattle.change.specs.Edits.{Set, Clear, Withdraw};
ghost use Rattle.change.specs.Bytes.{edited};
ghost use Rattle.convert.specs.Convert.{converted};
ghost use Rattle.embed.specs.Report.{Fills};

// Adds or replaces a posting: numbers 10, 6, 7, 8, 11, 9. Stores the offset, or the new shelf's length.
#[unsafe(no_mangle)]
pub extern "C" fn tagmurlen_set(
    bytes: &[u8],
    term: u32,
    docid: u32,
    score: u16,
    out: &mut [u8],
    value: &mut u64,
) -> u32
    ensures { Fills (edited (Set term docid score) bytes.now (length out.old)) out.old out.new result value.new }
{
    let answer = edit::edit::set(bytes, term, docid, score, out);
    crate::report::tell(answer, value)
}

// Removes a posting: numbers 10, 6, 7, 8, 12, 11, 9. Stores the offset, or the new shelf's length.
#[unsafe(no_mangle)]
pub extern "C" fn tagmurlen_clear(
    bytes: &[u8],
    term: u32,
    docid: u32,
    out: &mut [u8],
    value: &mut u64,
) -> u32
    ensures { Fills (edited (Clear term docid) bytes.now (length out.old)) out.old out.new result value.new }
{
    let answer = edit::edit::clear(bytes, term, docid, out);
    crate::report::tell(answer, value)
}

// Removes a sheet from every list: numbers 10, 6, 7, 8, 12, 11, 9. Stores the offset, or the new shelf's length.
#[unsafe(no_mangle)]
pub extern "C" fn tagmurlen_withdraw(
    bytes: &[u8],
    docid: u32,
    out: &mut [u8],
    value: &mut u64,
) -> u32
    ensures { Fills (edited (Withdraw docid) bytes.now (length out.old)) out.old out.new result value.new }
{
    let answer = edit::edit::withdraw(bytes, docid, out);
    crate::report::tell(answer, value)
}

// Turns the list of a term to the other layout, block by block: numbers 6, 7, 8, 12, 9. Stores the offset, or the new shelf's length.
#[unsafe(no_mangle)]
pub extern "C" fn tagmurlen_convert(bytes: &[u8], term: u32, out: &mut [u8], value: &mut u64) -> u32
    ensures { Fills (converted term bytes.now (length out.old)) out.old out.new result value.new }
{
    let answer = convert::convert::convert(bytes, term, out);
    crate::report::tell(answer, value)
}
