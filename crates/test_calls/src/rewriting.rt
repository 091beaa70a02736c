//! Tables, and the results of rewriting them.

use btf::{Answers, Btf, BtfError, BtfFeature, Endianness, KsymsIds, RewriteBtf};
use std::alloc::Global;
use std::collections::BTreeMap;
use std::process::Abort;

/// A kernel that grants every feature or none, and how often it was asked.
#[derive(Drop)]
struct Kernel {
    grants_all: bool,
    calls: usize,
}

impl Kernel {
    fn new(grants_all: bool) -> Kernel {
        Kernel {
            grants_all,
            calls: 0,
        }
    }

    fn grants(&mut self, _feature: BtfFeature) -> bool {
        self.calls = self.calls.wrapping_add(1);
        self.grants_all
    }
}

/// The call itself, with what its caller knows about sections and symbols.
fn rewrite<'m, 'n>(
    table: &mut Btf<'_>,
    numbers: &'m BTreeMap<&'n str, u64>,
    ksyms: Option<KsymsIds>,
    kernel: &mut Kernel,
) -> Result<Answers, BtfError> {
    table.fixup_and_sanitize(numbers, numbers, ksyms, |feature| kernel.grants(feature))
}

/// Rewrites a table for a kernel that grants every feature, for an object without sections and
/// symbols.
pub(crate) fn sanitize(
    alloc: Global,
    table: &mut Btf<'_>,
    ksyms: Option<KsymsIds>,
) -> Result<Answers, BtfError> {
    let numbers = BTreeMap::new(alloc);
    rewrite(table, &numbers, ksyms, &mut Kernel::new(true))
}

/// Whether a table is rewritten where no feature is granted.
pub(crate) fn is_sanitized(alloc: Global, table: &mut Btf<'_>) -> bool {
    let numbers = BTreeMap::new(alloc);
    rewrite(table, &numbers, None, &mut Kernel::new(false)).is_ok()
}

/// Whether a kernel is asked once for each of this number of answers.
fn is_counted(outcome: &Result<Answers, BtfError>, calls: usize, count: usize) -> bool {
    match outcome {
        Ok(answers) => answers.len() == count && calls == count,
        Err(_) => false,
    }
}

/// Whether a kernel is asked so often, and once for each answer.
pub(crate) fn asks_once(alloc: Global, table: &mut Btf<'_>, count: usize) -> bool {
    let numbers = BTreeMap::new(alloc);
    let mut kernel = Kernel::new(true);
    let outcome = rewrite(table, &numbers, None, &mut kernel);
    is_counted(&outcome, kernel.calls, count)
}

/// The table of a section.
pub(crate) fn parse<'a>(
    rt: &impl Abort,
    alloc: Global,
    section: &'a [u8],
    order: Endianness,
) -> Btf<'a> {
    Btf::parse(alloc, section, order).expect(rt, "a table")
}

fn is_written_as(table: &Btf<'_>, section: &[u8]) -> bool {
    match table.to_bytes() {
        Ok(written) => written.as_slice() == section,
        Err(_) => false,
    }
}

/// Whether a table, passed by value, is written as a section.
pub(crate) fn is_written(table: Btf<'_>, section: &[u8]) -> bool {
    is_written_as(&table, section)
}
