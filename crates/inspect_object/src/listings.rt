//! The code of an object's programs, and of a plan's.

ghost use Rattle.std.specs.Prelude.{◌≤◌, ◌^◌, length};

use crate::error::{ProgramError, no_program};
use crate::printing::refused;
use btf::Btf;
use code_listing::{
    AskedAt, CodeColumn, ObjectCode, ObjectFunctions, PlanNames, ProgramCode, SearchedKernel,
    code_text, plan_head, program_code, program_notes,
};
use command_line::InspectArguments;
use diagnostics::{KernelFiles, RefusalMessage, prepare_text};
use ebpf_object::Object;
use kernel_reports::{
    KernelTypes, Prepared, RelocationAt, assumed_symbols, number_maps, prepared_for, relocations_in,
};
use load_plan::{Plan, PlanProgram, PlanReadError, PrepareError, Settings};
use program_io::{marked_table, print_text, read};
use quoting::{FirstNames, ShortName};
use report_texts::{RelocationRow, relocation_rows};
use std::alloc::{AllocError, Global};
use std::collections::BTreeMap;

/// An object whose programs are listed.
#[derive(Clone, Copy)]
struct Listed<'g, 'o, 'a> {
    file: &'g [u8],
    object: &'g Object<'o>,
    code: ObjectCode<'g, 'o, 'a>,
    settings: &'g Settings,
    symbols: &'g [u8],
}

/// Whether a program is to be printed.
fn is_wanted(line: &InspectArguments<'_>, name: &str) -> bool {
    match line.program {
        Some(wanted) => wanted == name,
        None => true,
    }
}

/// The code of the programs of a plan.
fn programs_of(
    alloc: Global,
    line: &InspectArguments<'_>,
    listed: Option<Listed<'_, '_, '_>>,
    kernel: Option<&SearchedKernel<'_, '_>>,
    plan: &Plan<'_>,
) -> Result<Vec<ProgramCode>, AllocError> {
    let names = PlanNames::of(alloc, plan)?;
    let mut programs = Vec::new(alloc);
    for program in plan.programs() {
        if is_wanted(line, program.name()) {
            programs.push(code_of(alloc, listed, kernel, &names, program)?)?;
        }
    }
    Ok(programs)
}

/// The code of a program of a plan.
fn code_of(
    alloc: Global,
    listed: Option<Listed<'_, '_, '_>>,
    kernel: Option<&SearchedKernel<'_, '_>>,
    names: &PlanNames<'_>,
    program: &PlanProgram<'_>,
) -> Result<ProgramCode, AllocError> {
    let Some(listed) = listed else {
        return program_code(alloc, program, names, kernel, None);
    };
    let Some(own) = listed.object.programs().get(program.name()) else {
        return program_code(alloc, program, names, kernel, None);
    };
    let notes = program_notes(alloc, listed.code, own.function_key(), program.slots())?;
    program_code(alloc, program, names, kernel, Some(&notes))
}

/// The message where the object gets no plan.
fn refusal_text(
    alloc: Global,
    line: &InspectArguments<'_>,
    listed: &Listed<'_, '_, '_>,
    types: &[&str],
    error: &PrepareError,
) -> Result<String, AllocError> {
    let files = KernelFiles {
        types,
        symbols: line.symbols,
        are_named: true,
        has_options: true,
    };
    prepare_text(alloc, listed.file, listed.settings, &files, error)
}

/// The code of an object's programs for a kernel with these types. `types` are the names of their
/// files.
fn column_on<'w>(
    alloc: Global,
    line: &InspectArguments<'w>,
    listed: &Listed<'_, '_, '_>,
    types: &[&'w str],
    tables: &[Btf<'_>],
) -> Result<CodeColumn<'w>, AllocError>
    requires { length tables.now ≤ 2 ^ 32 }
{
    let file = types.first().copied().unwrap_or("");
    let kernel = KernelTypes::new(alloc, tables, &[])?;
    let prepared = prepared_for(alloc, listed.file, &kernel, listed.symbols, listed.settings)?;
    match prepared {
        Prepared::Planned(plan) => Ok(CodeColumn {
            file,
            programs: programs_of(alloc, line, Some(*listed), kernel.first(), &plan)?,
            refusal: None,
        }),
        Prepared::Refused(error) => Ok(CodeColumn {
            file,
            programs: Vec::new(alloc),
            refusal: Some(refusal_text(alloc, line, listed, types, &error)?),
        }),
    }
}

/// The code of an object's programs for the kernel of a file.
fn column_in<'w>(
    rt: &HostRuntime,
    line: &InspectArguments<'w>,
    listed: &Listed<'_, '_, '_>,
    name: &'w str,
) -> Result<CodeColumn<'w>, ProgramError> {
    let bytes = read(rt, name)?;
    let tables = [marked_table(rt.alloc(), name, &bytes, line.types_order)?];
    Ok(column_on(rt.alloc(), line, listed, &[name], &tables)?)
}

/// The code of an object's programs for each kernel of the line.
fn columns_of<'w>(
    rt: &HostRuntime,
    line: &InspectArguments<'w>,
    listed: &Listed<'_, '_, '_>,
) -> Result<Vec<CodeColumn<'w>>, ProgramError> {
    let mut columns = Vec::new(rt.alloc());
    for name in &line.types {
        columns.push(column_in(rt, line, listed, name)?)?;
    }
    Ok(columns)
}

/// The code of an object's programs where no kernel is named.
fn text_without_kernels(
    rt: &HostRuntime,
    line: &InspectArguments<'_>,
    listed: &Listed<'_, '_, '_>,
) -> Result<String, ProgramError> {
    let CodeColumn {
        file,
        programs,
        refusal,
    } = column_on(rt.alloc(), line, listed, &[], &[])?;
    if let Some(text) = refusal {
        return Err(ProgramError::Refused(RefusalMessage::Message(text)));
    }
    let column = CodeColumn {
        file,
        programs,
        refusal: None,
    };
    Ok(code_text(rt.alloc(), &[column])?)
}

/// The code of an object's programs.
fn text_of(
    rt: &HostRuntime,
    line: &InspectArguments<'_>,
    listed: &Listed<'_, '_, '_>,
) -> Result<String, ProgramError> {
    if line.types.is_empty() {
        return text_without_kernels(rt, line, listed);
    }
    let columns = columns_of(rt, line, listed)?;
    Ok(code_text(rt.alloc(), &columns)?)
}

/// What the type relocations of an object ask for, by their places. Of several relocations of one
/// slot the first counts.
fn asked_at<'r>(
    alloc: Global,
    relocations: &[RelocationAt],
    rows: &'r [RelocationRow<'_>],
) -> Result<AskedAt<'r>, AllocError> {
    let mut asked = BTreeMap::new(alloc);
    for (relocation, row) in relocations.iter().zip(rows) {
        if let Some(place) = relocation.place {
            let (section, address) = place.key;
            let key = (section, address, place.index);
            if !asked.contains_key(&key) {
                asked.insert(key, row.asked.as_str())?;
            }
        }
    }
    Ok(asked)
}

/// The code of the programs of an object, on kernels with these symbols.
fn text_with_symbols<'g>(
    rt: &HostRuntime,
    line: &InspectArguments<'_>,
    file: &'g [u8],
    object: &'g Object<'_>,
    symbols: &'g [u8],
) -> Result<String, ProgramError> {
    let alloc = rt.alloc();
    let mut settings = Settings::new(alloc);
    number_maps(alloc, object.maps(), &mut settings)?;
    let relocations = relocations_in(alloc, object)?;
    let rows = relocation_rows(alloc, object.functions(), object.btf(), &relocations)?;
    let asked = asked_at(alloc, &relocations, &rows)?;
    let text_sections = object.text_sections()?;
    let listed = Listed {
        file,
        object,
        code: ObjectCode {
            functions: ObjectFunctions {
                file: object.file(),
                functions: object.functions(),
                text_sections: &text_sections,
            },
            asked: &asked,
        },
        settings: &settings,
        symbols,
    };
    text_of(rt, line, &listed)
}

/// Refuses a line that wants a program that the object lacks.
fn require_program(
    alloc: Global,
    line: &InspectArguments<'_>,
    object: &Object<'_>,
) -> Result<(), ProgramError> {
    let Some(wanted) = line.program else {
        return Ok(());
    };
    if object.programs().get(wanted).is_some() {
        return Ok(());
    }
    let mut names = FirstNames::new(alloc);
    for (name, _program) in object.programs().iter() {
        names.push(name)?;
    }
    Err(no_program(alloc, wanted, &names))
}

/// The code of the programs of a parsed object.
fn text_on_object(
    rt: &HostRuntime,
    line: &InspectArguments<'_>,
    file: &[u8],
    object: &Object<'_>,
) -> Result<String, ProgramError> {
    require_program(rt.alloc(), line, object)?;
    match line.symbols {
        Some(name) => {
            let symbols = read(rt, name)?;
            text_with_symbols(rt, line, file, object, &symbols)
        }
        None => {
            let symbols = assumed_symbols(rt.alloc(), object.externs())?;
            text_with_symbols(rt, line, file, object, symbols.as_bytes())
        }
    }
}

/// The code of the programs of the object of a file.
fn text_on_file(
    rt: &HostRuntime,
    line: &InspectArguments<'_>,
    file: &[u8],
) -> Result<String, ProgramError> {
    match Object::parse(rt.alloc(), file) {
        Ok(object) => text_on_object(rt, line, file, &object),
        Err(error) => Err(refused(rt.alloc(), file, error)),
    }
}

/// Prints the code of an object's programs.
fn print_code(rt: &HostRuntime, line: &InspectArguments<'_>) -> Result<(), ProgramError> {
    let file = read(rt, line.object)?;
    let text = text_on_file(rt, line, &file)?;
    Ok(print_text(rt, &text)?)
}

/// The error for a file that isn't a plan.
fn no_plan(alloc: Global, name: &str, error: PlanReadError) -> ProgramError {
    let name = ShortName { name };
    let text = match error {
        PlanReadError::OutOfMemory => Err(AllocError),
        PlanReadError::Line(number) => {
            format!(in alloc; "{name} isn't a plan: line {number} is wrong")
        }
    };
    match text {
        Ok(text) => ProgramError::Refused(RefusalMessage::Message(text)),
        Err(error) => ProgramError::OutOfMemory(error),
    }
}

/// Refuses a line that wants a program that the plan lacks.
fn require_planned(
    alloc: Global,
    line: &InspectArguments<'_>,
    plan: &Plan<'_>,
) -> Result<(), ProgramError> {
    let Some(wanted) = line.program else {
        return Ok(());
    };
    let mut names = FirstNames::new(alloc);
    for program in plan.programs() {
        if program.name() == wanted {
            return Ok(());
        }
        names.push(program.name())?;
    }
    Err(no_program(alloc, wanted, &names))
}

/// The text of a plan, with the names of a kernel with these types.
fn plan_text(
    alloc: Global,
    line: &InspectArguments<'_>,
    tables: &[Btf<'_>],
    plan: &Plan<'_>,
) -> Result<String, AllocError> {
    let kernel = KernelTypes::new(alloc, tables, &[])?;
    let column = CodeColumn {
        file: "",
        programs: programs_of(alloc, line, None, kernel.first(), plan)?,
        refusal: None,
    };
    let code = code_text(alloc, &[column])?;
    if line.program.is_some() {
        return Ok(code);
    }
    let names = PlanNames::of(alloc, plan)?;
    let mut text = plan_head(alloc, plan, &names)?;
    if !code.is_empty() {
        text.push('\n')?;
        text.push_str(&code)?;
    }
    Ok(text)
}

/// The text of a plan, with the names of the kernel of a file, if the line names one.
fn text_on_plan(
    rt: &HostRuntime,
    line: &InspectArguments<'_>,
    plan: &Plan<'_>,
) -> Result<String, ProgramError> {
    require_planned(rt.alloc(), line, plan)?;
    let Some(name) = line.types.first() else {
        return Ok(plan_text(rt.alloc(), line, &[], plan)?);
    };
    let bytes = read(rt, name)?;
    let tables = [marked_table(rt.alloc(), name, &bytes, line.types_order)?];
    Ok(plan_text(rt.alloc(), line, &tables, plan)?)
}

/// Prints a stored plan.
fn print_plan(rt: &HostRuntime, line: &InspectArguments<'_>) -> Result<(), ProgramError> {
    let file = read(rt, line.object)?;
    match Plan::read(rt.alloc(), &file) {
        Ok(plan) => {
            let text = text_on_plan(rt, line, &plan)?;
            Ok(print_text(rt, &text)?)
        }
        Err(error) => Err(no_plan(rt.alloc(), line.object, error)),
    }
}

/// Prints the listing that the command line asks for; returns false where it asks for none.
pub(crate) fn print_listing(
    rt: &HostRuntime,
    line: &InspectArguments<'_>,
) -> Result<bool, ProgramError> {
    if let Some(fault) = line.code_fault() {
        let text = String::from_str(rt.alloc(), fault)?;
        return Err(ProgramError::Usage { text });
    }
    if line.plan {
        print_plan(rt, line)?;
        return Ok(true);
    }
    if line.code {
        print_code(rt, line)?;
        return Ok(true);
    }
    Ok(false)
}
