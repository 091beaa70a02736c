//! The work list by which the least facts are found.

ghost use Rattle.std.specs.Prelude.{◌≡◌, ◌≤◌, ◌+◌, ◌<◌, pos, [], ◌∷◌, length, OnOk, IfOk, slice_get};
ghost use Rattle.plan_registers.specs.Flow.{along, back, back_with, branch, ended, entered, going, inner_ways, leaving, to_result, to_slot, ways_of};
ghost use Rattle.plan_registers.specs.Reach.{IsLeast, callee_result, flat_option, global_roots, roots_at, ways_at};
ghost use Rattle.plan_registers.specs.Work.{AreCalls, IsUnderway, Joins, effort, first_state, no_facts, raised, resting, state_of};

use crate::calls::calls_of;
use crate::flow::{
    after_return, allows, any_entry, at_start, decided, distance, entered_known, is_static_call,
    result_at, result_value, returned, stops,
};
use ebpf_items::bpf_insn;
use plan_values::{Known, Program, Value, after, index_in, is_callback, is_same, meet, target};
use std::alloc::{AllocError, Global};

/// What is known at each slot and of each result so far, and those of these facts from which paths
/// are still to be followed.
#[derive(Drop)]
pub(crate) struct Work {
    facts: Vec<Option<Known>>,
    pending: Vec<usize>,
}

fn unreached(alloc: Global, len: usize) -> Result<Vec<Option<Known>>, AllocError>
    ensures { IfOk result (λ facts. facts.items ≡ no_facts len) }
{
    let mut facts = Vec::with_capacity(alloc, len)?;
    while facts.len() < len {
        facts.push(None)?;
    }
    Ok(facts)
}

/// The start: the first slot is reached.
fn started(alloc: Global, len: usize) -> Result<Work, AllocError>
    ensures { IfOk result (λ work. state_of work ≡ first_state len) }
{
    let Some(size) = len.checked_add(len) else {
        return Err(AllocError);
    };
    let mut work = Work {
        facts: unreached(alloc, size)?,
        pending: Vec::new(alloc),
    };
    if len > 0 {
        raise(&mut work, 0, at_start())?;
    }
    Ok(work)
}

/// Records one of the facts, and puts it on the list.
fn raise(work: &mut Work, index: usize, known: Known) -> Result<(), AllocError>
    requires { index < length work.old.facts.items }
    ensures raised { OnOk result (state_of work.new ≡ raised (state_of work.old) index known) }
    ensures size { length known ≡ 32 }
{
    work.pending.push(index)?;
    work.facts[index] = Some(known);
    Ok(())
}

/// One of the facts, if it is reached.
fn fact_of(facts: &[Option<Known>], index: usize) -> Option<Known>
    ensures { result ≡ flat_option (slice_get facts.now index) }
{
    match facts.get(index) {
        Some(fact) => *fact,
        None => None,
    }
}

/// Reaches one of the facts. Where it was reached before, what is known both times is kept.
fn join(work: &mut Work, slot: usize, known: Known) -> Result<(), AllocError>
    requires { slot < length work.old.facts.items }
    ensures { OnOk result (Joins (state_of work.old) (state_of work.new)
        (record { to = pos slot; known = known } ∷ [])) }
{
    match fact_of(&work.facts, slot) {
        None => raise(work, slot, known),
        Some(there) => {
            let met = meet(there, known);
            if is_same(&met, &there) {
                return Ok(());
            }
            raise(work, slot, met)
        }
    }
}

/// The same at an index that may be outside.
fn join_at(work: &mut Work, to: i128, known: Known) -> Result<(), AllocError>
    ensures { OnOk result (Joins (state_of work.old) (state_of work.new)
        (record { to = to; known = known } ∷ [])) }
{
    if to < 0 {
        return Ok(());
    }
    if to >= work.facts.len() as i128 {
        return Ok(());
    }
    join(work, to as usize, known)
}

/// Reaches a slot, if the program has it.
fn join_slot(
    work: &mut Work,
    program: &Program<'_>,
    to: i128,
    known: Known,
) -> Result<(), AllocError>
    ensures { OnOk result (Joins (state_of work.old) (state_of work.new)
        (to_slot program.now to known)) }
{
    match index_in(program.len(), to) {
        Some(slot) => join_at(work, slot as i128, known),
        None => Ok(()),
    }
}

/// Reaches the result of the function that has a slot.
fn join_result(
    work: &mut Work,
    program: &Program<'_>,
    position: usize,
    value: Value,
) -> Result<(), AllocError>
    ensures { OnOk result (Joins (state_of work.old) (state_of work.new)
        (to_result program.now position value)) }
{
    join_at(work, result_at(program, position), returned(value))
}

/// Reaches an unknown result where a path leaves the slots of its function.
fn leave(
    work: &mut Work,
    program: &Program<'_>,
    position: usize,
    to: Option<usize>,
) -> Result<(), AllocError>
    ensures { OnOk result (Joins (state_of work.old) (state_of work.new)
        (leaving program.now position to)) }
{
    let Some(slot) = to else {
        return Ok(());
    };
    if program.function_of(position) == program.function_of(slot) {
        return Ok(());
    }
    join_result(work, program, position, Value::Unknown)
}

/// Reaches a slot to which the same call leads from a position.
fn go(
    work: &mut Work,
    program: &Program<'_>,
    position: usize,
    to: i128,
    known: Known,
) -> Result<(), AllocError>
    ensures { OnOk result (Joins (state_of work.old) (state_of work.new)
        (going program.now position to known)) }
{
    join_slot(work, program, to, known)?;
    leave(work, program, position, index_in(program.len(), to))
}

fn follow_along(
    work: &mut Work,
    program: &Program<'_>,
    slot: bpf_insn,
    position: usize,
    known: Known,
    taken: bool,
) -> Result<(), AllocError>
    ensures { OnOk result (Joins (state_of work.old) (state_of work.new)
        (along program.now slot position known taken)) }
{
    if stops(program, slot, position) {
        return Ok(());
    }
    let to = position as i128 + distance(slot, taken) as i128;
    go(work, program, position, to, known)
}

fn follow_branch(
    work: &mut Work,
    program: &Program<'_>,
    slot: bpf_insn,
    position: usize,
    known: Known,
    decision: Option<bool>,
    taken: bool,
) -> Result<(), AllocError>
    ensures { OnOk result (Joins (state_of work.old) (state_of work.new)
        (branch program.now slot position known decision taken)) }
{
    if allows(decision, taken) {
        return follow_along(work, program, slot, position, known, taken);
    }
    Ok(())
}

/// Follows the paths within the function.
fn follow_inner(
    work: &mut Work,
    program: &Program<'_>,
    slot: bpf_insn,
    next: Option<bpf_insn>,
    position: usize,
    known: &Known,
) -> Result<(), AllocError>
    ensures { OnOk result (Joins (state_of work.old) (state_of work.new)
        (inner_ways program.now slot next position known.now)) }
{
    let new = after(program, slot, next, *known);
    let decision = decided(program, slot, known);
    follow_branch(work, program, slot, position, new, decision, true)?;
    follow_branch(work, program, slot, position, new, decision, false)
}

/// Follows the path into a function that a slot names.
fn follow_entry(
    work: &mut Work,
    program: &Program<'_>,
    slot: bpf_insn,
    position: usize,
    known: &Known,
) -> Result<(), AllocError>
    ensures { OnOk result (Joins (state_of work.old) (state_of work.new)
        (entered program.now slot position known.now)) }
{
    let to = target(slot, position);
    if slot.is_pseudo_call() {
        let entered = entered_known(program, slot, position, known);
        return join_slot(work, program, to, entered);
    }
    if is_callback(slot) {
        return join_slot(work, program, to, any_entry());
    }
    Ok(())
}

/// Follows the path to the function's result, where the function may end.
fn follow_end(
    work: &mut Work,
    program: &Program<'_>,
    slot: bpf_insn,
    position: usize,
    known: &Known,
) -> Result<(), AllocError>
    ensures { OnOk result (Joins (state_of work.old) (state_of work.new)
        (ended program.now slot position known.now)) }
{
    match result_value(slot, known) {
        Some(value) => join_result(work, program, position, value),
        None => Ok(()),
    }
}

fn go_back(
    work: &mut Work,
    program: &Program<'_>,
    position: usize,
    known: &Known,
    given: Option<Known>,
) -> Result<(), AllocError>
    ensures { OnOk result (Joins (state_of work.old) (state_of work.new)
        (back_with program.now position known.now given)) }
{
    let Some(there) = given else {
        return Ok(());
    };
    let new = after_return(known, &there);
    go(work, program, position, position as i128 + 1, new)
}

/// Follows the path back from a call, given what is known where the function returns.
fn follow_back(
    work: &mut Work,
    program: &Program<'_>,
    slot: bpf_insn,
    position: usize,
    known: &Known,
    given: Option<Known>,
) -> Result<(), AllocError>
    ensures { OnOk result (Joins (state_of work.old) (state_of work.new)
        (back program.now slot position known.now given)) }
{
    if is_static_call(program, slot, position) {
        return go_back(work, program, position, known, given);
    }
    Ok(())
}

/// Follows each path from a slot at a position.
fn follow(
    work: &mut Work,
    program: &Program<'_>,
    slot: bpf_insn,
    next: Option<bpf_insn>,
    position: usize,
    known: &Known,
    given: Option<Known>,
) -> Result<(), AllocError>
    ensures { OnOk result (Joins (state_of work.old) (state_of work.new)
        (ways_of program.now slot next position known.now given)) }
{
    follow_inner(work, program, slot, next, position, known)?;
    follow_entry(work, program, slot, position, known)?;
    follow_end(work, program, slot, position, known)?;
    follow_back(work, program, slot, position, known, given)
}

/// What is known where the function returns that a slot calls.
fn callee_result(
    facts: &[Option<Known>],
    program: &Program<'_>,
    slot: bpf_insn,
    position: usize,
) -> Option<Known>
    ensures { result ≡ callee_result program.now facts.now slot position }
{
    let callee = index_in(program.len(), target(slot, position))?;
    let index = index_in(facts.len(), result_at(program, callee))?;
    fact_of(facts, index)
}

/// Follows each path from a position, if it is reached.
fn follow_from(work: &mut Work, program: &Program<'_>, position: usize) -> Result<(), AllocError>
    ensures { OnOk result (Joins (state_of work.old) (state_of work.new)
        (ways_at program.now work.old.facts.items position)) }
{
    let Some(slot) = program.slot(position) else {
        return Ok(());
    };
    let Some(known) = fact_of(&work.facts, position) else {
        return Ok(());
    };
    let next = program.slot_after(position);
    let given = callee_result(&work.facts, program, slot, position);
    follow(work, program, slot, next, position, &known, given)
}

/// Follows the paths from each of some positions.
fn follow_each(
    work: &mut Work,
    program: &Program<'_>,
    positions: &[usize],
) -> Result<(), AllocError>
    requires { IsUnderway program.now (state_of work.old) positions.now }
    ensures underway { OnOk result (IsUnderway program.now (state_of work.new) []) }
    ensures falls { OnOk result (effort (state_of work.new) ≤ effort (state_of work.old)) }
{
    for position in positions {
        follow_from(work, program, *position)?;
    }
    Ok(())
}

/// Follows the paths that rest on one of the facts.
fn follow_index(
    work: &mut Work,
    program: &Program<'_>,
    calls: &[Vec<usize>],
    index: usize,
) -> Result<(), AllocError>
    requires { IsUnderway program.now (state_of work.old) (resting program.now calls.now index) }
    ensures underway { OnOk result (IsUnderway program.now (state_of work.new) []) }
    ensures falls { OnOk result (effort (state_of work.new) ≤ effort (state_of work.old)) }
{
    if index < program.len() {
        return follow_each(work, program, &[index]);
    }
    match calls.get(index - program.len()) {
        Some(positions) => follow_each(work, program, positions),
        None => Ok(()),
    }
}

/// Follows the paths that rest on each of the facts on the list, and on those that are put on it
/// meanwhile.
fn settle(work: &mut Work, program: &Program<'_>, calls: &[Vec<usize>]) -> Result<(), AllocError>
    requires underway { IsUnderway program.now (state_of work.old) [] }
    requires calls { AreCalls program.now calls.now (length program.now.slots) }
    ensures { OnOk result (IsLeast program.now work.new.facts.items) }
{
    while let Some(index) = work.pending.pop() {
        follow_index(work, program, calls, index)?;
    }
    Ok(())
}

/// Reaches each of some slots with nothing known there.
fn join_roots(work: &mut Work, program: &Program<'_>, slots: &[usize]) -> Result<(), AllocError>
    ensures { OnOk result (Joins (state_of work.old) (state_of work.new)
        (roots_at program.now slots.now)) }
{
    for slot in slots {
        join_slot(work, program, *slot as i128, any_entry())?;
    }
    Ok(())
}

/// Reaches the global functions, where the verifier doesn't wait for a call of one.
fn join_globals(work: &mut Work, program: &Program<'_>) -> Result<(), AllocError>
    ensures { OnOk result (Joins (state_of work.old) (state_of work.new)
        (global_roots program.now)) }
{
    if program.verifier.called_globals {
        return Ok(());
    }
    join_roots(work, program, program.global_functions)
}

/// The least facts of a program.
pub(crate) fn least_facts(
    alloc: Global,
    program: &Program<'_>,
) -> Result<Vec<Option<Known>>, AllocError>
    ensures { IfOk result (λ facts. IsLeast program.now facts.items) }
{
    let calls = calls_of(alloc, program)?;
    let mut work = started(alloc, program.len())?;
    join_globals(&mut work, program)?;
    settle(&mut work, program, &calls)?;
    Ok(work.facts)
}
