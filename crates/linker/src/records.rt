//! Records of functions and lines, which move with the copies.

ghost use Rattle.std.specs.Prelude.{◌≡◌, ◌≢◌, ◌<◌, ◌++◌, true, false, map, IfErr, IfSome, OnOk};
ghost use Rattle.relocation_errors.specs.declared.error.RelocationError.TheVariants.{OutOfMemory};
ghost use Rattle.linker.specs.Records.{goes_back, mismatches, moved_function, moved_line, moved_lines};
ghost use Rattle.linker.specs.Faults.{IsMismatchOf};

use btf_ext::{FuncSecInfo, LineSecInfo, bpf_func_info, bpf_line_info};
use object_parts::Function;
use relocation_errors::RelocationError;
use std::alloc::{AllocError, Global};

/// Whether a line record comes before the first one.
fn goes_back(lines: &LineSecInfo<'_>) -> bool
    ensures { result ≡ goes_back lines.now }
{
    let Some(first) = lines.get(0) else {
        return false;
    };
    let mut index = 1;
    while let Some(line) = lines.get(index) {
        if line.insn_off < first.insn_off {
            return true;
        }
        index += 1;
    }
    false
}

/// Whether a function's records can't be appended to those of a program's own function.
fn mismatches(own: &Function<'_>, callee: &Function<'_>) -> bool
    ensures { result ≡ mismatches own.now callee.now }
{
    let own_has_none = own.func_info.num_info() == 0;
    let callee_has_none = callee.func_info.num_info() == 0;
    own_has_none != callee_has_none || goes_back(&callee.line_info)
}

/// Refuses a function whose records can't be appended to those of a program's own function.
pub(crate) fn check_records(
    alloc: Global,
    own: &Function<'_>,
    callee: &Function<'_>,
) -> Result<(), RelocationError>
    ensures fit { OnOk result (mismatches own.now callee.now ≡ false) }
    ensures fault { IfErr result (λ e.
        e ≢ OutOfMemory → (mismatches own.now callee.now ≡ true) × IsMismatchOf callee.now.name e) }
{
    if !mismatches(own, callee) {
        return Ok(());
    }
    let name = String::from_str(alloc, callee.name)?;
    Err(RelocationError::FunctionInfoMismatch { name })
}

/// Appends function records, moved to a slot.
pub(crate) fn push_functions(
    out: &mut Vec<bpf_func_info>,
    records: &FuncSecInfo<'_>,
    start: u32,
) -> Result<(), AllocError>
    ensures { OnOk result
        (out.new.items ≡ out.old.items ++ map (moved_function start) records.now) }
{
    let mut index = 0;
    while let Some(record) = records.get(index) {
        out.push(bpf_func_info {
            insn_off: start,
            type_id: record.type_id,
        })?;
        index += 1;
    }
    Ok(())
}

/// Appends line records as they are.
pub(crate) fn push_lines(
    out: &mut Vec<bpf_line_info>,
    records: &LineSecInfo<'_>,
) -> Result<(), AllocError>
    ensures { OnOk result (out.new.items ≡ out.old.items ++ records.now) }
{
    let mut index = 0;
    while let Some(record) = records.get(index) {
        out.push(record)?;
        index += 1;
    }
    Ok(())
}

/// A line record, moved: it keeps its distance from the first one. It is none where its slot
/// doesn't fit 32 bits.
fn moved(line: bpf_line_info, start: u32, first: u32) -> Option<bpf_line_info>
    ensures { IfSome result (λ r. r ≡ moved_line start first line) }
{
    let distance = line.insn_off.saturating_sub(first);
    let insn_off = start.checked_add(distance)?;
    Some(bpf_line_info { insn_off, ..line })
}

/// Appends line records, moved to a slot. Fails where memory runs out.
pub(crate) fn push_moved_lines(
    out: &mut Vec<bpf_line_info>,
    records: &LineSecInfo<'_>,
    start: u32,
) -> Result<(), AllocError>
    ensures { OnOk result (out.new.items ≡ out.old.items ++ moved_lines start records.now) }
{
    let Some(first) = records.get(0) else {
        return Ok(());
    };
    let mut index = 0;
    while let Some(record) = records.get(index) {
        let Some(record) = moved(record, start, first.insn_off) else {
            return Err(AllocError);
        };
        out.push(record)?;
        index += 1;
    }
    Ok(())
}
