//! A table, rewritten by the two calls that rewrite tables. Where memory is refused, the table must
//! be unchanged.

use btf::{Btf, BtfError, Endianness, RewriteBtf};
use std::alloc::Global;
use std::collections::BTreeMap;
use std::process::ExitCode;

/// An integer of 8 bytes, the extern variable `v` of that type, and the section `.ksyms` with the
/// variable.
const SECTION: [u8; 94] = [
    159, 235, 1, 0, 24, 0, 0, 0, 0, 0, 0, 0, 56, 0, 0, 0, 56, 0, 0, 0, 14, 0, 0, 0, 0, 0, 0, 0, 0,
    0, 0, 1, 8, 0, 0, 0, 64, 0, 0, 0, 3, 0, 0, 0, 0, 0, 0, 14, 0, 0, 0, 0, 2, 0, 0, 0, 5, 0, 0, 0,
    1, 0, 0, 15, 0, 0, 0, 0, 2, 0, 0, 0, 0, 0, 0, 0, 0, 0, 0, 0, 0, 102, 0, 118, 0, 46, 107, 115,
    121, 109, 115, 0, 112, 0,
];

/// The variable then has the appended integer `int` of 4 bytes as its type, at its place in the
/// section.
const STEPPED: [u8; 114] = [
    159, 235, 1, 0, 24, 0, 0, 0, 0, 0, 0, 0, 72, 0, 0, 0, 72, 0, 0, 0, 18, 0, 0, 0, 0, 0, 0, 0, 0,
    0, 0, 1, 8, 0, 0, 0, 64, 0, 0, 0, 3, 0, 0, 0, 0, 0, 0, 14, 4, 0, 0, 0, 1, 0, 0, 0, 5, 0, 0, 0,
    1, 0, 0, 15, 4, 0, 0, 0, 2, 0, 0, 0, 0, 0, 0, 0, 4, 0, 0, 0, 14, 0, 0, 0, 0, 0, 0, 1, 4, 0, 0,
    0, 32, 0, 0, 1, 0, 102, 0, 118, 0, 46, 107, 115, 121, 109, 115, 0, 112, 0, 105, 110, 116, 0,
];

/// The variable is then an integer of 1 byte, and the section a struct, `_ksyms`, with it.
const REWRITTEN: [u8; 121] = [
    159, 235, 1, 0, 24, 0, 0, 0, 0, 0, 0, 0, 72, 0, 0, 0, 72, 0, 0, 0, 25, 0, 0, 0, 0, 0, 0, 0, 0,
    0, 0, 1, 8, 0, 0, 0, 64, 0, 0, 0, 3, 0, 0, 0, 0, 0, 0, 1, 1, 0, 0, 0, 8, 0, 0, 0, 18, 0, 0, 0,
    1, 0, 0, 4, 1, 0, 0, 0, 3, 0, 0, 0, 2, 0, 0, 0, 0, 0, 0, 0, 14, 0, 0, 0, 0, 0, 0, 1, 4, 0, 0,
    0, 32, 0, 0, 1, 0, 102, 0, 118, 0, 46, 107, 115, 121, 109, 115, 0, 112, 0, 105, 110, 116, 0,
    95, 107, 115, 121, 109, 115, 0,
];

/// The state of a table, by its bytes.
fn outcome(
    table: &Btf<'_>,
    answer: Result<(), BtfError>,
    wanted: &[u8],
) -> Result<&'static str, BtfError> {
    let (wanted, what) = match answer {
        Ok(()) => (wanted, "rewritten"),
        Err(BtfError::OutOfMemory) => (SECTION.as_slice(), "as before"),
        Err(error) => return Err(error),
    };
    let bytes = table.to_bytes()?;
    Ok(if bytes.as_slice() == wanted {
        what
    } else {
        "changed"
    })
}

/// The step on the section `.ksyms` alone.
fn step(alloc: Global) -> Result<&'static str, BtfError> {
    let mut table = Btf::parse(alloc, &SECTION, Endianness::Little)?;
    let answer = table.fixup_ksyms_datasec(3, None);
    outcome(&table, answer, &STEPPED)
}

/// The step, and then the rewriting of the records for a kernel that grants nothing.
fn rewriting(alloc: Global) -> Result<&'static str, BtfError> {
    let mut table = Btf::parse(alloc, &SECTION, Endianness::Little)?;
    let numbers = BTreeMap::new(alloc);
    let ksyms = Some((3, None));
    let answer = table.fixup_and_sanitize(&numbers, &numbers, ksyms, |_feature| false);
    outcome(&table, answer.map(|_answers| ()), &REWRITTEN)
}

fn print(rt: &HostRuntime, what: &str, outcome: Result<&'static str, BtfError>) {
    match outcome {
        Ok(outcome) => {
            let _ = println!(rt; "{what}: {outcome}");
        }
        Err(error) => {
            let _ = println!(rt; "{what}: {error}");
        }
    }
}

/// Prints the states of the table.
pub(crate) fn run(rt: &HostRuntime) -> ExitCode {
    print(rt, "step", step(rt.alloc()));
    print(rt, "rewriting", rewriting(rt.alloc()));
    ExitCode::SUCCESS
}
