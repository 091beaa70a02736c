//! From an object to its plan.

ghost use Rattle.std.specs.Prelude.{◌≡◌, [], ◌∷◌, ◌++◌, map, IfOk, OnOk, Some};
ghost use Rattle.std.specs.List.{All};
ghost use Rattle.std.specs.Option.{option_copied, option_map};
ghost use Rattle.btf_sanitize.specs.Answers.{AreDistinct, features};
ghost use Rattle.load_plan.specs.Plans.{HoldsTypeBytes, func_records_of, line_records_of, plan_of, plan_program_of, program_of, type_bytes};
ghost use Rattle.plan_text.specs.Content.{AreRising, AreTypeBytes, IsSoundMap, IsSoundProgram, map_names, program_names};
ghost use Rattle.plan_lines.specs.Lines.{AreTables};

use crate::denied::is_denied;
use btf_ext::{FuncSecInfo, LineSecInfo};
use btf_sanitize::Answers;
use btf_tables::Btf;
use ebpf_items::{ProgramSection, Slots};
use ebpf_object::{Function, Object};
use plan_text::{Plan, PlanMap, PlanParts, PlanProgram, plan_of_parts};
use std::alloc::{AllocError, Global};

/// The bytes of an object's types as a section; none where it has no type.
fn type_bytes(table: Option<&Btf<'_>>) -> Result<Option<Vec<u8>>, AllocError>
    ensures value { IfOk result (λ bytes.
        option_map (λ b. b.items) bytes ≡ type_bytes (option_copied table.entry)) }
    ensures holds { IfOk result (λ bytes.
        HoldsTypeBytes (option_copied table.entry) (option_map (λ b. b.items) bytes)) }
    ensures some { IfOk result (λ bytes. AreTypeBytes (option_map (λ b. b.items) bytes)) }
{
    match table {
        Some(table) if !table.is_empty() => Ok(Some(table.to_bytes()?)),
        _ => Ok(None),
    }
}

/// The function records of a program; none for a kernel that takes no functions.
fn func_records<'a>(
    alloc: Global,
    answers: &Answers,
    function: &Function<'a>,
) -> Result<FuncSecInfo<'a>, AllocError>
    ensures { IfOk result (λ records. records ≡ func_records_of answers.now.items function.now) }
{
    if is_denied(answers) {
        return Ok(FuncSecInfo::from_records(Vec::new(alloc)));
    }
    function.func_info.try_clone()
}

/// The line records of a program, which go with its types.
fn line_records<'a>(
    alloc: Global,
    answers: &Answers,
    has_types: bool,
    function: &Function<'a>,
) -> Result<LineSecInfo<'a>, AllocError>
    ensures { IfOk result (λ records.
        records ≡ line_records_of answers.now.items has_types function.now) }
{
    if is_denied(answers) || !has_types {
        return Ok(LineSecInfo::from_records(Vec::new(alloc)));
    }
    function.line_info.try_clone()
}

/// No kernel tables.
#[tactic(auto, using(crate::proofs::Sound::none_sound))]
fn no_tables(alloc: Global) -> Vec<u32>
    ensures value { result.items ≡ [] }
    ensures sound { AreTables result.items }
{
    Vec::new(alloc)
}

/// The indexes of the kernel tables that a function's type relocations matched.
fn tables_of(alloc: Global, function: &Function<'_>) -> Result<Vec<u32>, AllocError>
    ensures value { IfOk result (λ places. places.items ≡ function.now.matched_tables) }
    ensures sound { IfOk result (λ places. AreTables places.items) }
{
    let mut places = Vec::new(alloc);
    for place in function.matched_tables.iter() {
        places.push(*place)?;
    }
    Ok(places)
}

/// A program with the slots, the records and the matched kernel tables of its function.
fn program_of<'a>(
    alloc: Global,
    answers: &Answers,
    has_types: bool,
    name: &'a str,
    section: ProgramSection,
    function: Option<&Function<'a>>,
) -> Result<PlanProgram<'a>, AllocError>
    ensures value { IfOk result (λ p.
        p
        ≡ program_of answers.now.items has_types name.now section (option_copied function.entry)) }
    ensures sound { IfOk result IsSoundProgram }
{
    let Some(function) = function else {
        let slots = Slots::owned(Vec::new(alloc));
        let functions = FuncSecInfo::from_records(Vec::new(alloc));
        let lines = LineSecInfo::from_records(Vec::new(alloc));
        let tables = Some(no_tables(alloc));
        return Ok(PlanProgram::new(name, section, slots, functions, lines, tables));
    };
    let slots = function.instructions.try_clone()?;
    let functions = func_records(alloc, answers, function)?;
    let lines = line_records(alloc, answers, has_types, function)?;
    let tables = Some(tables_of(alloc, function)?);
    Ok(PlanProgram::new(name, section, slots, functions, lines, tables))
}

/// Appends a program to programs that satisfy a plan's limits.
#[tactic(auto, using(crate::proofs::Sound::with_sound))]
fn push_program<'a>(
    list: &mut Vec<PlanProgram<'a>>,
    program: PlanProgram<'a>,
) -> Result<(), AllocError>
    requires program { IsSoundProgram program }
    requires list { All IsSoundProgram list.old.items }
    ensures ok { OnOk result (list.new.items ≡ list.old.items ++ program.entry ∷ []) }
    ensures sound { OnOk result (All IsSoundProgram list.new.items) }
{
    list.push(program)?;
    Ok(())
}

/// The programs of a plan, by name.
fn plan_programs<'a>(
    alloc: Global,
    object: &Object<'a>,
    answers: &Answers,
    has_types: bool,
) -> Result<Vec<PlanProgram<'a>>, AllocError>
    ensures value { IfOk result (λ list.
        list.items
        ≡ map (plan_program_of answers.now.items has_types object.now.functions)
        object.now.programs) }
    ensures sound { IfOk result (λ list. All IsSoundProgram list.items) }
    ensures rising { IfOk result (λ list. AreRising (program_names list.items)) }
{
    let mut programs = Vec::new(alloc);
    for (name, program) in object.programs().iter() {
        let function = object.function(program.function_key());
        let section = program.section.clone()?;
        let program = program_of(alloc, answers, has_types, name, section, function)?;
        push_program(&mut programs, program)?;
    }
    Ok(programs)
}

/// The plan of an object with these maps, names rising by bytes, and these answers about a kernel's
/// features. The object's own maps are ignored.
pub fn plan_of<'a>(
    alloc: Global,
    object: &Object<'a>,
    answers: Answers,
    maps: Vec<PlanMap<'a>>,
) -> Result<Plan<'a>, AllocError>
    requires answers { AreDistinct (features answers.items) }
    requires maps { All IsSoundMap maps.items }
    requires rising { AreRising (map_names maps.items) }
    ensures value { IfOk result (λ p. p ≡ plan_of answers.items maps.entry.items object.now) }
    ensures holds { IfOk result (λ p. HoldsTypeBytes object.now.types p.type_bytes) }
{
    let type_bytes = type_bytes(object.btf())?;
    let programs = plan_programs(alloc, object, &answers, type_bytes.is_some())?;
    Ok(plan_of_parts(PlanParts {
        license: object.license(),
        version: object.kernel_version(),
        features: answers,
        type_bytes,
        maps,
        programs,
    }))
}
