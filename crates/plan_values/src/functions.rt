//! Where the functions of a program begin.

ghost use Rattle.std.specs.Prelude.{◌≡◌, false, length, replicate, IfOk};
ghost use Rattle.plan_values.specs.Functions.{begun_by, functions_of, mark, marked, names_function};

use crate::program::{index_in, is_callback, target};
use ebpf_items::bpf_insn;
use std::alloc::{AllocError, Global};

fn names_function(slot: bpf_insn) -> bool
    ensures { result ≡ names_function slot }
{
    slot.is_pseudo_call() || is_callback(slot)
}

/// Marks the slot that the slot at a position names.
fn mark(marks: &mut Vec<bool>, slot: bpf_insn, position: usize)
    ensures { marks.new.items ≡ mark slot position marks.old.items }
{
    if !names_function(slot) {
        return;
    }
    if let Some(named) = index_in(marks.len(), target(slot, position)) {
        if named < marks.len() {
            marks[named] = true;
        }
    }
}

fn unmarked(alloc: Global, len: usize) -> Result<Vec<bool>, AllocError>
    ensures { IfOk result (λ marks. marks.items ≡ replicate len false) }
{
    let mut marks = Vec::with_capacity(alloc, len)?;
    while marks.len() < len {
        marks.push(false)?;
    }
    Ok(marks)
}

/// Marks each slot that a slot names.
fn marked(alloc: Global, slots: &[bpf_insn]) -> Result<Vec<bool>, AllocError>
    ensures { IfOk result (λ marks. marks.items
        ≡ marked slots.now 0 (replicate (length slots.now) false)) }
{
    let mut marks = unmarked(alloc, slots.len())?;
    for position in 0..slots.len() {
        mark(&mut marks, slots[position], position);
    }
    Ok(marks)
}

/// For each slot the last marked slot that isn't behind it.
fn begun_by(alloc: Global, marks: &[bool]) -> Result<Vec<usize>, AllocError>
    ensures { IfOk result (λ functions. functions.items ≡ begun_by marks.now 0 0) }
{
    let mut functions = Vec::with_capacity(alloc, marks.len())?;
    let mut function = 0;
    for position in 0..marks.len() {
        if marks[position] {
            function = position;
        }
        functions.push(function)?;
    }
    Ok(functions)
}

/// For each slot where its function begins.
///
/// # Errors
///
/// `AllocError` where memory runs out.
pub fn functions_of(alloc: Global, slots: &[bpf_insn]) -> Result<Vec<usize>, AllocError>
    ensures { IfOk result (λ functions. functions.items ≡ functions_of slots.now) }
{
    let marks = marked(alloc, slots)?;
    begun_by(alloc, &marks)
}
