// Reading a query: what it asks, or its refusal.
ghost use Rattle.std.specs.Prelude.{◌≤◌, length};
ghost use Rattle.model.specs.Limits.{max_terms};
ghost use Rattle.query.specs.Query.{term_at, question, asked};
ghost use Rattle.query.specs.Answers.{Carries, Tells};

use model::refusal::Refusal;

// k, and `n` terms with their weights; past them stand zeros.
#[derive(Drop)]
pub struct Query {
    pub k: u8,
    pub n: usize,
    pub terms: [u32; 8],
    pub weights: [u8; 8],
}

// What the first `n` term fields ask.
fn take_terms(q: &[u8], k: u8, n: usize) -> Query
    requires { (n ≤ max_terms) × (term_at n ≤ length q.now) }
    ensures { Carries (question k n q.now) result }
{
    let mut terms = [0u32; 8];
    let mut weights = [0u8; 8];
    for i in 0..n {
        terms[i] = crate::fields::term_of(q, i);
        weights[i] = crate::fields::weight_of(q, i);
    }
    Query {
        k,
        n,
        terms,
        weights,
    }
}

// Reads a query, refusals 1 to 5 in their order.
pub fn read_query(q: &[u8]) -> Result<Query, Refusal>
    ensures { Tells (asked q.now) result }
{
    let n = crate::fields::count_fields(q)?;
    let k = wire::number::be1(q, 3);
    crate::faults::judge_terms(q, k, n)?;
    Ok(take_terms(q, k, n))
}
