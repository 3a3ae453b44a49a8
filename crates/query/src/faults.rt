// Refusals 2 to 5, in this order, of a query whose `n` term fields are all right.
ghost use Rattle.std.specs.Prelude.{◌≡◌, [], ◌≤◌, length, drop};
ghost use Rattle.model.specs.Refusal.{outcome_of};
ghost use Rattle.model.specs.Runs.{has};
ghost use Rattle.query.specs.Query.{term_at, terms_in, question, weighted, unrepeated, judge};
ghost use Rattle.query.specs.Answers.{earlier};

use model::refusal::{Fault, Refusal};

// 4: the first weight of 0.
fn judge_weights(q: &[u8], n: usize) -> Result<(), Refusal>
    requires { term_at n ≤ length q.now }
    ensures { outcome_of result ≡ weighted 0 (terms_in n (drop 4 q.now)) }
{
    for i in 0..n {
        if crate::fields::weight_of(q, i) == 0 {
            return Err(Fault::Weight.at(4 + 8 * i));
        }
    }
    Ok(())
}

// Whether one of the first `i` term fields has this term.
fn is_earlier(q: &[u8], i: usize, term: u32) -> bool
    requires { term_at i ≤ length q.now }
    ensures { result ≡ has term (earlier i q.now) }
{
    (0..i).any(|j| crate::fields::term_of(q, j) == term)
}

// 5: the first term that an earlier field has.
fn judge_repeats(q: &[u8], n: usize) -> Result<(), Refusal>
    requires { term_at n ≤ length q.now }
    ensures { outcome_of result ≡ unrepeated [] 0 (terms_in n (drop 4 q.now)) }
{
    for i in 0..n {
        if is_earlier(q, i, crate::fields::term_of(q, i)) {
            return Err(Fault::RepeatedTerm.at(4 + 8 * i));
        }
    }
    Ok(())
}

// 2, 3, 4 and 5, each over the whole query before the next.
pub(crate) fn judge_terms(q: &[u8], k: u8, n: usize) -> Result<(), Refusal>
    requires { term_at n ≤ length q.now }
    ensures { outcome_of result ≡ judge (length q.now) (question k n q.now) }
{
    if k == 0 || model::MAX_K < k {
        return Err(Fault::HitCount.at(0));
    }
    if n == 0 {
        return Err(Fault::TermCount.at(q.len()));
    }
    if model::MAX_TERMS < n {
        return Err(Fault::TermCount.at(4 + 8 * model::MAX_TERMS));
    }
    judge_weights(q, n)?;
    judge_repeats(q, n)
}
