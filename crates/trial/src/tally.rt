// What the trial counts.
use model::refusal::Refusal;
use std::fmt;

#[derive(Clone, Copy, Default)]
pub(crate) struct Count(u64);

impl Count {
    pub(crate) fn add(&mut self, n: usize) {
        self.0 = self.0.saturating_add(n as u64);
    }
}

impl fmt::Display for Count {
    fn fmt<W: fmt::Write>(&self, f: &mut fmt::Formatter<W>) -> fmt::Result {
        let n = self.0;
        write!(f, "{n}")
    }
}

// What came of edits, or of conversions.
#[derive(Clone, Copy, Default)]
pub(crate) struct Outcomes {
    accepted: Count,
    refused: Count,
}

impl Outcomes {
    pub(crate) fn count(&mut self, outcome: Result<usize, Refusal>) {
        match outcome {
            Ok(_) => self.accepted.add(1),
            Err(_) => self.refused.add(1),
        }
    }
}

impl fmt::Display for Outcomes {
    fn fmt<W: fmt::Write>(&self, f: &mut fmt::Formatter<W>) -> fmt::Result {
        let Outcomes { accepted, refused } = self;
        write!(f, "accepted {accepted} refused {refused}")
    }
}

#[derive(Clone, Copy, Default)]
pub(crate) struct Tally {
    pub(crate) edits: Outcomes,
    pub(crate) conversions: Outcomes,
    pub(crate) strips: Count,
    pub(crate) queries: Count,
    pub(crate) hits: Count,
    pub(crate) intervals: Count,
    pub(crate) blocks: Count,
    pub(crate) opened: Count,
    pub(crate) damaged: Count,
    pub(crate) faults: Count,
    pub(crate) cases: Count,
    pub(crate) differ: Count,
}

impl Tally {
    // Counts a difference, unless things are as they must be.
    pub(crate) fn expect(&mut self, right: bool) {
        if !right {
            self.differ.add(1);
        }
    }

    // Counts a case of the paper's list.
    pub(crate) fn case(&mut self, right: bool) {
        self.cases.add(1);
        self.expect(right);
    }
}

impl fmt::Display for Tally {
    fn fmt<W: fmt::Write>(&self, f: &mut fmt::Formatter<W>) -> fmt::Result {
        let Tally {
            edits,
            conversions,
            strips,
            queries,
            hits,
            intervals,
            blocks,
            opened,
            damaged,
            faults,
            cases,
            differ,
        } = self;
        writeln!(f, "edits {edits}")?;
        writeln!(f, "conversions {conversions} strips {strips}")?;
        writeln!(
            f,
            "queries {queries} hits {hits} intervals {intervals} blocks {blocks} opened {opened}"
        )?;
        writeln!(f, "damaged {damaged} faults {faults}")?;
        writeln!(f, "cases {cases}")?;
        write!(f, "differ {differ}")
    }
}
