//! The code of an object's programs.

ghost use Rattle.std.specs.Prelude.{◌≤◌, ◌^◌, length};

use crate::failure::Failure;
use crate::inputs::Inputs;
use crate::messages::{kernel_files, refused, type_names, unparsed};
use crate::tables::tables_of;
use btf_tables::Btf;
use code_listing::{
    AskedAt, CodeColumn, ObjectCode, ObjectFunctions, PlanNames, ProgramCode, SearchedKernel,
    code_text, program_code, program_notes,
};
use ebpf_object::Object;
use kernel_reports::{
    KernelTypes, Prepared, RelocationAt, assumed_symbols, prepared_for, relocations_in,
};
use load_plan::{Plan, PlanProgram, Settings, number_maps};
use report_texts::{RelocationRow, relocation_rows};
use std::alloc::{AllocError, Global};
use std::collections::BTreeMap;

/// An object whose programs are listed.
#[derive(Clone, Copy)]
struct Listed<'g, 'o, 'a> {
    file: &'g [u8],
    object: &'g Object<'o>,
    code: ObjectCode<'g, 'o, 'a>,
}

/// The code of a program of a plan.
fn code_of(
    alloc: Global,
    listed: &Listed<'_, '_, '_>,
    kernel: Option<&SearchedKernel<'_, '_>>,
    names: &PlanNames<'_>,
    program: &PlanProgram<'_>,
) -> Result<ProgramCode, AllocError> {
    let Some(own) = listed.object.programs().get(program.name()) else {
        return program_code(alloc, program, names, kernel, None);
    };
    let notes = program_notes(alloc, listed.code, own.function_key(), program.slots())?;
    program_code(alloc, program, names, kernel, Some(&notes))
}

/// The code of the programs of a plan, as text.
fn text_of(
    alloc: Global,
    listed: &Listed<'_, '_, '_>,
    kernel: Option<&SearchedKernel<'_, '_>>,
    plan: &Plan<'_>,
) -> Result<String, AllocError> {
    let names = PlanNames::of(alloc, plan)?;
    let mut programs = Vec::new(alloc);
    for program in plan.programs() {
        programs.push(code_of(alloc, listed, kernel, &names, program)?)?;
    }
    let column = CodeColumn {
        file: "",
        programs,
        refusal: None,
    };
    code_text(alloc, &[column])
}

/// The code of an object's programs for a kernel with these tables and symbols.
fn text_on(
    alloc: Global,
    listed: &Listed<'_, '_, '_>,
    tables: &[Btf<'_>],
    symbols: &[u8],
    has_symbols: bool,
) -> Result<String, Failure>
    requires { length tables.now ≤ 2 ^ 32 }
{
    let mut settings = Settings::new(alloc);
    number_maps(alloc, listed.object.maps(), &mut settings)?;
    let kernel = KernelTypes::new(alloc, tables, &[])?;
    match prepared_for(alloc, listed.file, &kernel, symbols, &settings)? {
        Prepared::Planned(plan) => Ok(text_of(alloc, listed, kernel.first(), &plan)?),
        Prepared::Refused(error) => {
            let files = kernel_files(type_names(!tables.is_empty()), has_symbols);
            Err(refused(alloc, listed.file, &settings, &files, error))
        }
    }
}

/// What the type relocations of an object ask for, by their places. Of several relocations of one
/// slot the first counts.
fn asked_at<'r>(
    alloc: Global,
    relocations: &[RelocationAt],
    rows: &'r [RelocationRow<'_>],
) -> Result<AskedAt<'r>, AllocError> {
    let mut asked = BTreeMap::new(alloc);
    for (relocation, row) in relocations.iter().zip(rows) {
        if let Some(place) = relocation.place {
            let (section, address) = place.key;
            let key = (section, address, place.index);
            if !asked.contains_key(&key) {
                asked.insert(key, row.asked.as_str())?;
            }
        }
    }
    Ok(asked)
}

/// The code of an object's programs for a kernel with these tables and symbols.
fn text_with_symbols<'g>(
    alloc: Global,
    file: &'g [u8],
    object: &'g Object<'_>,
    tables: &[Btf<'_>],
    symbols: &'g [u8],
    has_symbols: bool,
) -> Result<String, Failure>
    requires { length tables.now ≤ 2 ^ 32 }
{
    let relocations = relocations_in(alloc, object)?;
    let rows = relocation_rows(alloc, object.functions(), object.btf(), &relocations)?;
    let asked = asked_at(alloc, &relocations, &rows)?;
    let text_sections = object.text_sections()?;
    let functions = ObjectFunctions {
        file: object.file(),
        functions: object.functions(),
        text_sections: &text_sections,
    };
    let listed = Listed {
        file,
        object,
        code: ObjectCode {
            functions,
            asked: &asked,
        },
    };
    text_on(alloc, &listed, tables, symbols, has_symbols)
}

/// The same with the symbols of the inputs, or with assumed ones where there are none.
fn text_on_object(
    alloc: Global,
    inputs: &Inputs<'_>,
    object: &Object<'_>,
    tables: &[Btf<'_>],
) -> Result<String, Failure>
    requires { length tables.now ≤ 2 ^ 32 }
{
    let file = inputs.object;
    if !inputs.symbols.is_empty() {
        return text_with_symbols(alloc, file, object, tables, inputs.symbols, true);
    }
    let assumed = assumed_symbols(alloc, object.externs())?;
    text_with_symbols(alloc, file, object, tables, assumed.as_bytes(), false)
}

/// The code of an object's programs.
pub(crate) fn listed_text(alloc: Global, inputs: &Inputs<'_>) -> Result<Vec<u8>, Failure> {
    let tables = tables_of(alloc, inputs.types)?;
    match Object::parse(alloc, inputs.object) {
        Ok(object) => {
            let text = text_on_object(alloc, inputs, &object, &tables)?;
            Ok(text.into_bytes())
        }
        Err(error) => Err(unparsed(alloc, inputs.object, error)),
    }
}
