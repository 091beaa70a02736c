//! Counts of the answers to runs.

/// The answer to one run.
#[derive(Clone, Copy)]
pub(crate) enum Answer {
    /// A plan, whose text is read as a plan with the same text.
    Planned,
    /// A refusal.
    Refused,
    /// Memory ran out, or the plan's text isn't read as a plan with the same text.
    Failed,
    /// The run isn't made, since it would take much memory.
    LeftOut,
}

/// The number of runs with each answer.
#[derive(Clone, Copy)]
pub(crate) struct Counts {
    pub(crate) plans: u64,
    pub(crate) refusals: u64,
    pub(crate) failures: u64,
    pub(crate) left_out: u64,
}

impl Counts {
    /// No runs.
    pub(crate) fn new() -> Counts {
        Counts {
            plans: 0,
            refusals: 0,
            failures: 0,
            left_out: 0,
        }
    }

    /// Counts one more run.
    pub(crate) fn count(&mut self, answer: Answer) {
        match answer {
            Answer::Planned => self.plans = self.plans.saturating_add(1),
            Answer::Refused => self.refusals = self.refusals.saturating_add(1),
            Answer::Failed => self.failures = self.failures.saturating_add(1),
            Answer::LeftOut => self.left_out = self.left_out.saturating_add(1),
        }
    }

    /// The number of runs that ended with a plan or a refusal.
    pub(crate) fn answered(&self) -> u64 {
        self.plans.saturating_add(self.refusals)
    }

    /// The number of runs that were made.
    pub(crate) fn all(&self) -> u64 {
        self.answered().saturating_add(self.failures)
    }
}
