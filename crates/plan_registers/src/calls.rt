//! The calls of each function of a program.

ghost use Rattle.std.specs.Prelude.{◌≡◌, ◌<◌, length, IfOk, OnOk};
ghost use Rattle.plan_registers.specs.Work.{AddsCall, AreCalls, IsListed};

use plan_values::{Program, index_in, target};
use std::alloc::{AllocError, Global};

fn no_calls(alloc: Global, len: usize) -> Result<Vec<Vec<usize>>, AllocError>
    ensures { IfOk result (λ calls. length calls.items ≡ len) }
{
    let mut calls = Vec::with_capacity(alloc, len)?;
    while calls.len() < len {
        calls.push(Vec::new(alloc))?;
    }
    Ok(calls)
}

/// Puts a call into the list of a function.
fn list_call(
    calls: &mut Vec<Vec<usize>>,
    function: usize,
    position: usize,
) -> Result<(), AllocError>
    requires { function < length calls.old.items }
    ensures { OnOk result (IsListed calls.old.items calls.new.items function position) }
{
    calls[function].push(position)?;
    Ok(())
}

/// Lists the call at a position, if a function is called there.
fn list_at(
    calls: &mut Vec<Vec<usize>>,
    program: &Program<'_>,
    position: usize,
) -> Result<(), AllocError>
    requires { length calls.old.items ≡ length program.now.slots }
    ensures { OnOk result (AddsCall program.now calls.old.items calls.new.items position) }
{
    let Some(slot) = program.slot(position) else {
        return Ok(());
    };
    if !slot.is_pseudo_call() {
        return Ok(());
    }
    let Some(callee) = index_in(program.len(), target(slot, position)) else {
        return Ok(());
    };
    list_call(calls, program.function_of(callee), position)
}

/// For each slot the calls of the function that begins there.
pub(crate) fn calls_of(alloc: Global, program: &Program<'_>) -> Result<Vec<Vec<usize>>, AllocError>
    ensures { IfOk result (λ calls. AreCalls program.now calls.items (length program.now.slots)) }
{
    let mut calls = no_calls(alloc, program.len())?;
    for position in 0..program.len() {
        list_at(&mut calls, program, position)?;
    }
    Ok(calls)
}
