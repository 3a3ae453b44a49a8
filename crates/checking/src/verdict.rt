// The checker program's whole output for its input.
ghost use Rattle.std.specs.Prelude.{◌≤◌, length};
ghost use Rattle.std.specs.Option.{is_some};
ghost use Rattle.model.specs.Refusal.{outcome_of};
ghost use Rattle.model.specs.Runs.{Holds};
ghost use Rattle.lines.specs.Text.{codes};
ghost use Rattle.lines.specs.Book.{max_output};
ghost use Rattle.lines.specs.Said.{Speaks, input_of};
ghost use Rattle.checking.specs.Verdict.{verdict_text, checked_text};

use lines::said::Said;
use model::refusal::Refusal;

// What the checker found, at the front of `out`.
fn print(out: &mut [u8], found: Result<(), Refusal>) -> usize
    requires { max_output ≤ length out.old }
    ensures { Holds out.old (verdict_text (outcome_of found)) out.new result }
{
    match found {
        Ok(()) => lines::number::put_word(out, 0, b"sound\n"),
        Err(refusal) => lines::line::put_refusal(out, 0, refusal),
    }
}

// The output for a shelf that was read, at the front of `out`.
fn show(shelf: &[u8], out: &mut [u8]) -> usize
    requires { max_output ≤ length out.old }
    ensures { Holds out.old (checked_text shelf.now) out.new result }
{
    let found = shelf::check::check(shelf);
    print(out, found)
}

// What the program says: to a shelf, or to none where its input could not be read. Its answer stands at the front of `out`, and what goes to standard
// error at the front of `err`.
pub fn respond(shelf: Option<&[u8]>, out: &mut [u8], err: &mut [u8]) -> Said
    ensures { Speaks (codes "checker") (is_some shelf.entry) (checked_text (input_of shelf.entry)) out.old err.old out.new err.new result }
{
    lines::said::respond(b"checker", shelf, out, err, show)
}
