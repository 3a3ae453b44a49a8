// The program's whole output for its input.
ghost use Rattle.std.specs.Prelude.{◌≤◌, length};
ghost use Rattle.std.specs.Option.{is_some};
ghost use Rattle.model.specs.Runs.{Holds};
ghost use Rattle.lines.specs.Text.{codes, text};
ghost use Rattle.lines.specs.Book.{max_output};
ghost use Rattle.lines.specs.Said.{Speaks, input_of};
ghost use Rattle.report.specs.Report.{search_shown, reported, told, Printable, Room};

use intervals::stopped::Stopped;
use lines::said::Said;
use model::refusal::Fault;
use pruned::search::Pruned;

// The longest input that is searched.
const MAX_INPUT: usize = 65536;

// What a search answered, with its book: the line of a refusal, or the lines of its hits, its intervals and its blocks.
fn print<'a>(
    out: &mut [u8],
    found: Result<Pruned, Stopped>,
    firsts: &'a [u32],
    ceilings: &'a [u32],
    marks: &'a [u8],
) -> usize
    requires { (max_output ≤ length out.old) × Printable found firsts.now ceilings.now marks.now }
    ensures { Holds out.old (text (told found firsts.now ceilings.now marks.now)) out.new result }
{
    match found {
        Err(stopped) => lines::line::put_refusal(out, 0, stopped.refusal),
        Ok(done) => {
            let rows = done.intervals;
            let kept = done.kept;
            lines::rows::put_shown(
                out,
                &kept.docids,
                &kept.scores,
                kept.n,
                &firsts[0..rows],
                &ceilings[0..rows],
                &marks[0..rows],
                done.opened,
                done.blocks,
            )
        }
    }
}

// One search, with runs for its book; its lines at the front of `out`.
fn show<'a>(
    query: &'a [u8],
    shelf: &'a [u8],
    firsts: &mut [u32],
    ceilings: &mut [u32],
    marks: &mut [u8],
    out: &mut [u8],
) -> usize
    requires { Room firsts.old ceilings.old marks.old out.old }
    ensures { Holds out.old (text (search_shown query.now shelf.now)) out.new result }
{
    let found = pruned::search::search(query, shelf, 100, firsts, ceilings, marks);
    print(out, found, firsts, ceilings, marks)
}

// The output for an input that was read, at the front of `out`.
fn report(input: &[u8], out: &mut [u8]) -> usize
    requires { max_output ≤ length out.old }
    ensures { Holds out.old (reported input.now) out.new result }
{
    if MAX_INPUT < input.len() {
        return lines::line::put_refusal(out, 0, Fault::Input.at(0));
    }
    let n = lines::split::split(input);
    let mut firsts = [0u32; 1025];
    let mut ceilings = [0u32; 1025];
    let mut marks = [0u8; 1025];
    show(
        &input[0..n],
        &input[n..],
        &mut firsts,
        &mut ceilings,
        &mut marks,
        out,
    )
}

// What the program says: to an input, or to none where it could not be read. Its answer stands at the front of `out`, and what goes to standard error at
// the front of `err`.
pub fn respond(input: Option<&[u8]>, out: &mut [u8], err: &mut [u8]) -> Said
    ensures { Speaks (codes "search") (is_some input.entry) (reported (input_of input.entry)) out.old err.old out.new err.new result }
{
    lines::said::respond(b"search", input, out, err, report)
}
