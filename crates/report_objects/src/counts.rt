//! How many answers there are of each kind.

use crate::object_report::ObjectReport;
use std::fmt;

/// How many answers there are of each kind. There is one for each object and kernel.
#[derive(Clone, Copy, Debug, PartialEq, Eq)]
pub struct Counts {
    objects: usize,
    kernels: usize,
    fails: usize,
    unknown: usize,
}

impl Counts {
    /// The counts of these reports on a number of kernels, beside objects without a report, whose
    /// answers aren't known.
    pub fn of(reports: &[ObjectReport<'_, '_, '_>], kernels: usize, refused: usize) -> Counts {
        let mut counts = Counts {
            objects: reports.len().saturating_add(refused),
            kernels,
            fails: 0,
            unknown: refused.saturating_mul(kernels),
        };
        for report in reports {
            counts.fails = counts.fails.saturating_add(report.fail_count());
            counts.unknown = counts.unknown.saturating_add(report.unknown_count());
        }
        counts
    }
}

/// A number of things, by the word for one.
#[derive(Clone, Copy)]
struct Number(usize, &'static str);

impl fmt::Display for Number {
    fn fmt<W: fmt::Write>(&self, f: &mut fmt::Formatter<W>) -> fmt::Result {
        match self.0 {
            1 => write!(f, "1 {}", self.1),
            count => write!(f, "{count} {}s", self.1),
        }
    }
}

impl fmt::Display for Counts {
    fn fmt<W: fmt::Write>(&self, f: &mut fmt::Formatter<W>) -> fmt::Result {
        let objects = Number(self.objects, "object");
        let kernels = Number(self.kernels, "kernel");
        let (fails, unknown) = (self.fails, self.unknown);
        write!(f, "{objects}, {kernels}: {fails} fail, {unknown} unknown")
    }
}
