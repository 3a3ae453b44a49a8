// Where the query ends in the program's input and the shelf begins.
ghost use Rattle.std.specs.Prelude.{◌≡◌};
ghost use Rattle.lines.specs.Split.{query_field_at, query_size};

// Tags 20 and 21, which the paper writes in hexadecimal.
const TAG_K: u8 = 32;

const TAG_TERM: u8 = 33;

// How many bytes a whole field of the query holds, if one begins at a place.
fn query_field(s: &[u8], at: usize) -> Option<usize>
    ensures { result ≡ query_field_at s.now at }
{
    wire::field::field(s, at, TAG_K).or_else(|| wire::field::field(s, at, TAG_TERM))
}

// How many bytes of the input are the query; the rest is the shelf.
pub fn split(input: &[u8]) -> usize
    ensures { result ≡ query_size input.now }
{
    let mut at = 0;
    while let Some(n) = query_field(input, at) {
        at += 3 + n;
    }
    at
}
