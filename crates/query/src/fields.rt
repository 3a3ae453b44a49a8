// The fields of a query: one of tag 20 for k, then one of tag 21 per term. A right field of k takes 4 bytes and one of a term 8, so the term field
// with index `i` begins at 4 + 8 * i.
ghost use Rattle.std.specs.Prelude.{◌≡◌, ◌+◌, ◌≤◌, length, drop};
ghost use Rattle.model.specs.Refusal.{outcome_of};
ghost use Rattle.query.specs.Query.{is_field, asked_in, field_count, all_right, term_at};

use model::refusal::{Fault, Refusal};

// Tags 20 and 21, which the paper writes in hexadecimal.
const TAG_K: u8 = 32;

const TAG_TERM: u8 = 33;

// Whether a whole field of this tag and length begins at a place.
fn is_field(q: &[u8], at: usize, tag: u8, len: usize) -> bool
    ensures { result ≡ is_field tag len (drop at q.now) }
{
    wire::field::field(q, at, tag) == Some(len)
}

// How many term fields there are; or 1, at the first field that is wrong or cut short. It passes over all fields up to the query's end: 1 is judged over
// the whole query before any other.
pub(crate) fn count_fields(q: &[u8]) -> Result<usize, Refusal>
    ensures { outcome_of result ≡ all_right (field_count q.now) }
{
    if !is_field(q, 0, TAG_K, 1) {
        return Err(Fault::QueryField.at(0));
    }
    for at in (4..q.len()).step_by(8) {
        if !is_field(q, at, TAG_TERM, 5) {
            return Err(Fault::QueryField.at(at));
        }
    }
    // 4 bytes are the field of k, and 8 each term's.
    Ok(q.len() / 8)
}

// The term of the term field with index `i`.
pub(crate) fn term_of(q: &[u8], i: usize) -> u32
    requires { term_at (i + 1) ≤ length q.now }
    ensures { result ≡ (asked_in (drop (term_at i) q.now)).term }
{
    wire::number::be4(q, 4 + 8 * i + 3)
}

// Its weight.
pub(crate) fn weight_of(q: &[u8], i: usize) -> u8
    requires { term_at (i + 1) ≤ length q.now }
    ensures { result ≡ (asked_in (drop (term_at i) q.now)).weight }
{
    wire::number::be1(q, 4 + 8 * i + 7)
}
