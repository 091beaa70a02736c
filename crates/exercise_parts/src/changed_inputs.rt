//! Plans of changed objects, and of an object for changed kernel types, for a kernel without
//! symbols.

use crate::changes::{Run, counts_of};
use crate::counts::{Answer, Counts};
use elf64::ElfFile;
use load_plan::{Btf, BtfError, Endianness, Order, Plan, PrepareError, Settings, Watched, prepare};
use std::alloc::{AllocError, Global};
use std::io;

/// The maximum number of tables of types that `prepare` takes.
const MAX_TABLES: usize = 0x1_0000_0000;

/// The maximum number of bytes of a section without bytes in the file with which a plan is made
/// here.
const MOST_ZEROS: u64 = 1 << 24;

/// The text of a plan, if it can be written into memory.
fn text_of(alloc: Global, plan: &Plan<'_>) -> Option<Vec<u8>> {
    let mut out = Watched::new(Vec::new(alloc));
    match plan.write(&mut out) {
        Ok(()) => Some(out.into_inner()),
        Err(_) => None,
    }
}

/// Whether the text of a plan is read as a plan whose written text is the same.
fn is_read_back(alloc: Global, plan: &Plan<'_>) -> bool {
    let Some(text) = text_of(alloc, plan) else {
        return false;
    };
    let Ok(again) = Plan::read(alloc, text.as_slice()) else {
        return false;
    };
    match text_of(alloc, &again) {
        Some(other) => other.as_slice() == text.as_slice(),
        None => false,
    }
}

/// The answer for a result of `prepare`.
fn answer_in(alloc: Global, planned: Result<Plan<'_>, PrepareError>) -> Answer {
    match planned {
        Ok(plan) => {
            if is_read_back(alloc, &plan) {
                Answer::Planned
            } else {
                Answer::Failed
            }
        }
        Err(PrepareError::OutOfMemory) => Answer::Failed,
        Err(_error) => Answer::Refused,
    }
}

/// The answer to an object. The kernel grants all features where relocations come first, and none
/// where rewriting comes first.
fn answer_of(
    alloc: Global,
    object: &[u8],
    kernel_types: &[Btf<'_>],
    settings: &Settings,
    order: Order,
) -> Answer {
    if kernel_types.len() > MAX_TABLES {
        return Answer::Refused;
    }
    let grants_all = order == Order::RelocateFirst;
    let mut symbols = Watched::new(io::empty());
    let planned = prepare(
        alloc,
        object,
        kernel_types,
        &mut symbols,
        settings,
        order,
        |_feature| grants_all,
        || true,
    );
    answer_in(alloc, planned)
}

/// Whether an object has a section with more zeros than the maximum here: up to 4 GiB of them would
/// be written.
fn has_many_zeros(file: &[u8]) -> bool {
    let Ok(elf) = ElfFile::parse(file) else {
        return false;
    };
    for section in elf.sections() {
        let is_large = section.size() > MOST_ZEROS && section.size() <= u64::from(u32::MAX);
        if is_large && matches!(section.data(), Ok(data) if data.is_empty()) {
            return true;
        }
    }
    false
}

/// Runs on objects.
#[derive(Clone, Copy)]
struct ObjectRuns<'r> {
    kernel_types: &'r [Btf<'r>],
    settings: &'r Settings,
}

impl<'r> Run for ObjectRuns<'r> {
    fn answer(&self, alloc: Global, file: &[u8], order: Order) -> Answer {
        if has_many_zeros(file) {
            return Answer::LeftOut;
        }
        answer_of(alloc, file, self.kernel_types, self.settings, order)
    }
}

/// Runs on kernel types, for one object. Types that can't be parsed are refused.
#[derive(Clone, Copy)]
struct TypesRuns<'r> {
    object: &'r [u8],
    endianness: Endianness,
    settings: &'r Settings,
}

impl<'r> Run for TypesRuns<'r> {
    fn answer(&self, alloc: Global, file: &[u8], order: Order) -> Answer {
        match Btf::parse(alloc, file, self.endianness) {
            Ok(table) => answer_of(alloc, self.object, &[table], self.settings, order),
            Err(BtfError::OutOfMemory) => Answer::Failed,
            Err(_error) => Answer::Refused,
        }
    }
}

/// Settings in which maps with these names, separated by commas, have the number 7.
fn numbered(alloc: Global, maps: &str) -> Result<Settings, AllocError> {
    let mut settings = Settings::new(alloc);
    for name in maps.split(',') {
        settings.set_map(name, 7)?;
    }
    Ok(settings)
}

/// The answers to changed objects for kernel types; `maps` are the names, separated by commas, of
/// maps that get a number.
///
/// # Errors
///
/// Where the kernel types can't be parsed, or memory runs out for them.
pub(crate) fn changed_object_counts(
    alloc: Global,
    maps: &str,
    object: &mut [u8],
    types: &[Vec<u8>],
    endianness: Endianness,
) -> Result<Counts, BtfError> {
    let settings = numbered(alloc, maps)?;
    let mut tables = Vec::new(alloc);
    for bytes in types {
        tables.push(Btf::parse(alloc, bytes.as_slice(), endianness)?)?;
    }
    let runs = ObjectRuns {
        kernel_types: &tables,
        settings: &settings,
    };
    Ok(counts_of(alloc, &runs, object))
}

/// The answers to an object for changed kernel types; `maps` are as above.
///
/// # Errors
///
/// Where memory runs out for the settings.
pub(crate) fn changed_types_counts(
    alloc: Global,
    maps: &str,
    object: &[u8],
    types: &mut [u8],
    endianness: Endianness,
) -> Result<Counts, AllocError> {
    let settings = numbered(alloc, maps)?;
    let runs = TypesRuns {
        object,
        endianness,
        settings: &settings,
    };
    Ok(counts_of(alloc, &runs, types))
}
