// A query put to the rankers, and what they answer set side by side.
use crate::answers::rank_all;
use crate::asking::Question;
use crate::chance::Chance;
use crate::pruning::compare_pruned;
use crate::second::Sums;
use crate::table::Table;
use crate::tally::Tally;

// The exhaustive and the pruned ranker against the second one, on a shelf of the table.
pub(crate) fn compare(table: &Table, question: &Question, shelf: &[u8], tally: &mut Tally) {
    let sums = Sums::of(table, &question.weights);
    let hits = sums.rank(question.k);
    let all = rank_all(question.as_slice(), shelf);
    tally.expect(all.is_ok_and(|kept| hits.are_kept(&kept)));
    compare_pruned(question, shelf, &sums, &hits, tally);
    tally.queries.add(1);
    tally.hits.add(hits.len());
}

// A query by chance.
pub(crate) fn compare_any(table: &Table, shelf: &[u8], chance: &mut Chance, tally: &mut Tally) {
    let question = Question::by_chance(chance);
    compare(table, &question, shelf, tally);
}
