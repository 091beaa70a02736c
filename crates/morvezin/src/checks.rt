//! Whether a kernel takes an object.

ghost use Rattle.std.specs.Prelude.{◌≤◌, ◌^◌, length};

use crate::answers::{Answer, FAILS, NO_KIND, OK, failed, with_text};
use crate::failure::{Failure, kind_of};
use crate::inputs::Inputs;
use crate::messages::{kernel_files, type_names, unparsed};
use crate::tables::tables_of;
use btf_tables::Btf;
use ebpf_object::Object;
use kernel_reports::{
    KernelReport, KernelTypes, PlanAnswer, Reported, assumed_symbols, relocations_in, report_on,
    section_names, target_names,
};
use load_plan::{Settings, number_maps};
use report_formats::json_text;
use report_texts::{Column, ColumnAnswer, ColumnPlan, ColumnReport, Rows, rows_of};
use std::alloc::{AllocError, Global};

/// What the report calls the object and the kernel.
const OBJECT_NAME: &str = "object";

const KERNEL_NAME: &str = "kernel";

/// What becomes of the plan, for the text, and the kind of the refusal.
fn column_plan(
    alloc: Global,
    reported: &Reported<'_, '_>,
    has_types: bool,
    plan: PlanAnswer,
) -> Result<(ColumnPlan, i32), AllocError> {
    match plan {
        PlanAnswer::Planned(report) => Ok((ColumnPlan::Planned(report), NO_KIND)),
        PlanAnswer::Refused(error) => {
            let files = kernel_files(type_names(has_types), reported.has_symbols);
            let kind = kind_of(&error);
            let text = diagnostics::prepare_text(
                alloc,
                reported.file,
                reported.settings,
                &files,
                &error,
            )?;
            Ok((ColumnPlan::Refused(text), kind))
        }
    }
}

/// Adds the kernel's names of the helpers that a plan's programs call.
fn name_helpers(
    alloc: Global,
    kernel: &KernelTypes<'_, '_>,
    plan: &PlanAnswer,
    rows: &mut Rows<'_, '_>,
) -> Result<(), AllocError> {
    match (kernel.first(), plan) {
        (Some(kernel), PlanAnswer::Planned(Some(plan))) if !rows.helpers.name_all(plan) => {
            rows.helpers.add(alloc, kernel, plan)
        }
        _ => Ok(()),
    }
}

/// The answer of a report.
fn answer_of(
    alloc: Global,
    reported: &Reported<'_, '_>,
    has_types: bool,
    report: KernelReport,
    rows: &Rows<'_, '_>,
) -> Result<Answer, AllocError> {
    let (plan, kind) = column_plan(alloc, reported, has_types, report.plan)?;
    let column = Column {
        file: KERNEL_NAME,
        answer: ColumnAnswer::Report(ColumnReport {
            plan,
            call_places: report.call_places,
            attachments: report.attachments,
            has_symbols: reported.has_symbols,
            kinds: report.kinds,
            relocations: report.relocations,
            reaches: report.reaches,
            externs: report.externs,
        }),
    };
    let status = if column.fails(rows) { FAILS } else { OK };
    let text = json_text(alloc, OBJECT_NAME, rows, &[column])?;
    Ok(with_text(text.into_bytes(), status, kind))
}

/// The answer on an object for a kernel with these tables and symbols.
fn answer_on<'g, 't>(
    alloc: Global,
    file: &'g [u8],
    object: &'g Object<'_>,
    tables: &'t [Btf<'t>],
    symbols: &'g [u8],
    has_symbols: bool,
) -> Result<Answer, AllocError>
    requires { length tables.now ≤ 2 ^ 32 }
{
    let sections = section_names(alloc, object)?;
    let targets = target_names(alloc, object)?;
    let mut settings = Settings::new(alloc);
    number_maps(alloc, object.maps(), &mut settings)?;
    let relocations = relocations_in(alloc, object)?;
    let kernel = KernelTypes::new(alloc, tables, &targets)?;
    let reported = Reported {
        file,
        object,
        relocations: &relocations,
        settings: &settings,
        symbols,
        has_symbols,
        sections: &sections,
    };
    let report = report_on(alloc, &reported, &kernel)?;
    let mut rows = rows_of(alloc, file, object, &sections, &relocations, false)?;
    name_helpers(alloc, &kernel, &report.plan, &mut rows)?;
    answer_of(alloc, &reported, !tables.is_empty(), report, &rows)
}

/// The same with the symbols of the inputs, or with assumed ones where there are none.
fn answer_with_symbols<'g, 't>(
    alloc: Global,
    inputs: &'g Inputs<'_>,
    object: &'g Object<'_>,
    tables: &'t [Btf<'t>],
) -> Result<Answer, AllocError>
    requires { length tables.now ≤ 2 ^ 32 }
{
    if !inputs.symbols.is_empty() {
        return answer_on(alloc, inputs.object, object, tables, inputs.symbols, true);
    }
    let assumed = assumed_symbols(alloc, object.externs())?;
    answer_on(
        alloc,
        inputs.object,
        object,
        tables,
        assumed.as_bytes(),
        false,
    )
}

/// The same for the object and the types of the inputs.
fn checked(alloc: Global, inputs: &Inputs<'_>) -> Result<Answer, Failure> {
    let tables = tables_of(alloc, inputs.types)?;
    match Object::parse(alloc, inputs.object) {
        Ok(object) => Ok(answer_with_symbols(alloc, inputs, &object, &tables)?),
        Err(error) => Err(unparsed(alloc, inputs.object, error)),
    }
}

/// Whether a kernel takes an object, as a JSON document.
pub(crate) fn check_answer(alloc: Global, inputs: &Inputs<'_>) -> Answer {
    match checked(alloc, inputs) {
        Ok(answer) => answer,
        Err(failure) => failed(failure),
    }
}
