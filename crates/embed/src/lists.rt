// A list read, and a list written.
ghost use Rattle.std.specs.Prelude.{length};
ghost use Rattle.list.specs.Read.{read_list, docids_of, scores_of};
ghost use Rattle.list.specs.Write.{write_list};
ghost use Rattle.embed.specs.Report.{Fills};

// Reads the list of a term to the front of two runs: numbers 6, 7, 12, 8, 9. Stores the offset, or how many postings there are.
#[unsafe(no_mangle)]
pub extern "C" fn tagmurlen_read_list(
    bytes: &[u8],
    term: u32,
    docids: &mut [u32],
    scores: &mut [u16],
    value: &mut u64,
) -> u32
    ensures fills_docids { Fills (docids_of (read_list term bytes.now (length docids.old) (length scores.old))) docids.old docids.new result value.new }
    ensures fills_scores { Fills (scores_of (read_list term bytes.now (length docids.old) (length scores.old))) scores.old scores.new result value.new }
{
    let answer = list::read::read_list(bytes, term, docids, scores);
    crate::report::tell(answer, value)
}

// Writes a list, its bodies as strips if told so, to the front of `out`: numbers 11, 10, 9. Stores the offset, or how many bytes were written.
#[unsafe(no_mangle)]
pub extern "C" fn tagmurlen_write_list(
    strip: bool,
    term: u32,
    docids: &[u32],
    scores: &[u16],
    out: &mut [u8],
    value: &mut u64,
) -> u32
    ensures { Fills (write_list strip term docids.now scores.now (length out.old)) out.old out.new result value.new }
{
    let answer = list::write::write_list(strip, term, docids, scores, out);
    crate::report::tell(answer, value)
}
