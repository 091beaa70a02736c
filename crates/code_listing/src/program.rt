//! The code of a program.

ghost use Rattle.std.specs.Prelude.{◌≡◌, IfOk, map};
ghost use Rattle.code_listing.specs.Listing.{line_in, line_of, listing, shown};

use crate::column::{CodeRow, ProgramCode};
use crate::listed::{ListedInstruction, listed_instructions};
use crate::notes::{NoteSources, wanted_reach};
use crate::object_notes::ProgramNotes;
use crate::plan_names::PlanNames;
use crate::printable::Printable;
use crate::sources::{function_names, marks_of};
use plan_text::PlanProgram;
use report_needs::SearchedKernel;
use std::alloc::{AllocError, Global};

/// The line above a program's code.
fn heading_of(alloc: Global, program: &PlanProgram<'_>) -> Result<String, AllocError> {
    format!(in alloc;
        "program {} kind {:?} slots {}\n",
        Printable(program.name()),
        program.section(),
        program.slots().len()
    )
}

/// An instruction with its note.
fn row_of(
    alloc: Global,
    listed: ListedInstruction,
    sources: &NoteSources<'_, '_, '_, '_, '_>,
) -> Result<CodeRow, AllocError>
    ensures { IfOk result (λ row. line_in row ≡ line_of (shown listed)) }
{
    let note = sources.note(alloc, &listed)?;
    Ok(CodeRow {
        slot: listed.slot,
        text: listed.text,
        note,
    })
}

/// The instructions, each with its note.
fn rows_of(
    alloc: Global,
    list: Vec<ListedInstruction>,
    sources: &NoteSources<'_, '_, '_, '_, '_>,
) -> Result<Vec<CodeRow>, AllocError>
    ensures { IfOk result (λ rows.
        map line_in rows.items ≡ map line_of (map shown list.items)) }
{
    let mut rows = Vec::new(alloc);
    for listed in list {
        let row = row_of(alloc, listed, sources)?;
        rows.push(row)?;
    }
    Ok(rows)
}

/// The code of a program of a plan. `names` are those of the plan. `kernel` is the kernel that it
/// is for, and `notes` what the object says about its slots, where these are known.
///
/// Each slot of the program is in one of the rows, with the text of `instruction_text`.
///
/// # Errors
///
/// `AllocError` where memory runs out.
pub fn program_code<'c>(
    alloc: Global,
    program: &PlanProgram<'_>,
    names: &'c PlanNames<'_>,
    kernel: Option<&'c SearchedKernel<'_, '_>>,
    notes: Option<&'c ProgramNotes<'_>>,
) -> Result<ProgramCode, AllocError>
    ensures { IfOk result (λ code.
        map line_in code.rows.items ≡ map line_of (listing 0 program.now.slots)) }
{
    let list = listed_instructions(alloc, program.slots())?;
    let sources = NoteSources {
        names,
        kernel,
        functions: function_names(alloc, program, names, notes)?,
        notes,
        reach: wanted_reach(alloc, names, kernel, program, &list)?,
    };
    Ok(ProgramCode {
        heading: heading_of(alloc, program)?,
        slot_count: program.slots().len(),
        marks: marks_of(alloc, program, names, &sources.functions)?,
        rows: rows_of(alloc, list, &sources)?,
    })
}
