//! The names of what a report is about.

ghost use Rattle.std.specs.Prelude.{◌≡◌, map, IfOk};
ghost use Rattle.std.specs.Option.{option_copied};
ghost use Rattle.string_table.specs.Texts.{text_at};
ghost use Rattle.report_texts.specs.Rows.{AreRows, declared_kind, extern_kind, extern_row, function_name, map_rows, program_rows, relocation_row, relocation_rows, shown_extern, shown_map, shown_program, shown_relocation, slot_number};

use crate::helper_names::HelperNames;
use crate::object_cause::object_cause;
use btf_records::BtfKind;
use btf_tables::Btf;
use core_spec::relocation_text;
use ebpf_items::RelocationKind;
use ebpf_object::Object;
use kernel_reports::{KindNeed, RelocationAt, SlotPlace, kind_needs};
use object_externs::{ExternDesc, Externs};
use object_parts::{Functions, SLOT_SIZE};
use std::alloc::{AllocError, Global};
use std::collections::BTreeMap;

/// A type relocation, by name.
#[derive(Debug, Drop)]
pub struct RelocationRow<'o> {
    /// The name of its section, if it can be read.
    pub section: Option<&'o str>,
    /// The name of the function that holds its instruction, if there is one.
    pub function: Option<&'o str>,
    /// The index of the instruction, in slots from the function's beginning, or from the section's
    /// beginning where no function holds it.
    pub instruction: u64,
    /// What it asks for, as text.
    pub asked: String,
}

/// What an extern is.
#[derive(Clone, Copy, Debug, PartialEq, Eq)]
pub enum ExternKind {
    /// A function with a type.
    Function,
    /// A variable with a type.
    Variable,
    /// A symbol: it has no type.
    Symbol,
}

/// An extern, by name.
#[derive(Clone, Copy, Debug)]
pub struct ExternRow<'o> {
    pub name: &'o str,
    pub kind: ExternKind,
    pub is_weak: bool,
}

/// A program, by name.
#[derive(Clone, Copy, Debug)]
pub struct ProgramRow<'o> {
    pub name: &'o str,
    /// The name of its section.
    pub section: &'o str,
    /// Whether the object counts as taken where this program isn't.
    pub is_optional: bool,
}

/// A map, by name.
#[derive(Clone, Copy, Debug)]
pub struct MapRow<'o> {
    pub name: &'o str,
    /// The number of its type, of `enum bpf_map_type`.
    pub map_type: u32,
}

/// The names of what a report is about.
#[derive(Debug)]
pub struct Rows<'o, 't> {
    pub programs: Vec<ProgramRow<'o>>,
    pub maps: Vec<MapRow<'o>>,
    /// The kinds of records of the object's own types.
    pub kinds: Vec<KindNeed>,
    pub relocations: Vec<RelocationRow<'o>>,
    /// The first of these relocations in each slot of a function that has one.
    pub relocated: BTreeMap<SlotPlace, usize>,
    pub externs: Vec<ExternRow<'o>>,
    /// The object's own types, which have the texts of source lines.
    pub types: Option<&'o Btf<'t>>,
    /// The names of helpers.
    pub helpers: HelperNames,
    /// Why no kernel takes the object, whatever its plan is, if so.
    pub object_cause: Option<String>,
    /// Whether the object isn't taken where something isn't known of what it needs.
    pub is_strict: bool,
}

impl<'o, 't> Drop for Rows<'o, 't> {
    // One call wherever it is dropped, in place of one for each part.
    fn drop(self) {
        let Rows {
            programs: _programs,
            maps: _maps,
            kinds: _kinds,
            relocations: _relocations,
            relocated: _relocated,
            externs: _externs,
            types: _,
            helpers: _helpers,
            object_cause: _object_cause,
            is_strict: _,
        } = self;
    }
}

impl<'o, 't> Rows<'o, 't> {
    /// What the type relocation in a slot of a function asks for, if there is one.
    pub fn asked_at(&self, place: SlotPlace) -> Option<&str> {
        let index = *self.relocated.get(&place)?;
        Some(self.relocations.get(index)?.asked.as_str())
    }

    /// The name of a record of the object's types; empty where it can't be read.
    pub fn type_name(&self, id: u32) -> &str {
        let Some(types) = self.types else {
            return "";
        };
        match types.type_by_id(id) {
            Ok(t) => types.string_at(t.name_offset()).unwrap_or(""),
            Err(_error) => "",
        }
    }

    /// Makes the program of a name optional. Returns whether there is one.
    pub fn make_optional(&mut self, name: &str) -> bool {
        let found = self
            .programs
            .iter()
            .position(|program| program.name == name);
        match found {
            Some(index) => self.set_optional(index),
            None => false,
        }
    }

    /// Makes the program at an index optional. Returns whether there is one.
    fn set_optional(&mut self, index: usize) -> bool {
        match self.programs.get_mut(index) {
            Some(program) => {
                program.is_optional = true;
                true
            }
            None => false,
        }
    }
}

/// What a relocation asks for, as text; where its number stands for no kind, the number.
fn asked_text(alloc: Global, local: &Btf<'_>, at: &RelocationAt) -> Result<String, AllocError> {
    let asked = at.asked;
    match RelocationKind::try_from(asked.kind) {
        Ok(kind) => relocation_text(alloc, local, kind, asked.type_id, asked.access_str_off),
        Err(_) => format!(in alloc; "kind {}", asked.kind),
    }
}

/// The name of the function that holds a relocation's instruction.
fn function_name<'r>(functions: &'r Functions<'_>, at: &RelocationAt) -> Option<&'r str>
    ensures { option_copied result ≡ function_name functions.now at.now }
{
    let function = functions.get(at.place?.key)?;
    Some(function.name)
}

/// The index of a relocation's slot.
fn slot_number(at: &RelocationAt) -> u64
    ensures { result ≡ slot_number at.now }
{
    match at.place {
        Some(place) => place.index as u64,
        None => u64::from(at.asked.insn_off) / SLOT_SIZE,
    }
}

/// The name of the section of a relocation, if it can be read.
fn section_name<'r>(local: &'r Btf<'_>, at: &RelocationAt) -> Option<&'r str>
    ensures { option_copied result ≡ text_at local.now.strings at.now.name_offset }
{
    match local.string_at(at.name_offset) {
        Ok(name) => Some(name),
        Err(_error) => None,
    }
}

fn relocation_row<'r>(
    alloc: Global,
    functions: &'r Functions<'_>,
    local: &'r Btf<'_>,
    at: &RelocationAt,
) -> Result<RelocationRow<'r>, AllocError>
    ensures { IfOk result (λ row.
        shown_relocation row ≡ relocation_row functions.now local.now at.now) }
{
    let asked = asked_text(alloc, local, at)?;
    Ok(RelocationRow {
        section: section_name(local, at),
        function: function_name(functions, at),
        instruction: slot_number(at),
        asked,
    })
}

/// The type relocations of an object with these functions and types, by name.
///
/// # Errors
///
/// `AllocError` where memory runs out.
pub fn relocation_rows<'r>(
    alloc: Global,
    functions: &'r Functions<'_>,
    local: Option<&'r Btf<'_>>,
    relocations: &[RelocationAt],
) -> Result<Vec<RelocationRow<'r>>, AllocError>
    ensures { IfOk result (λ rows.
        map shown_relocation rows.items
        ≡ relocation_rows functions.now (option_copied local.entry) relocations.now) }
{
    let mut rows = Vec::new(alloc);
    let Some(local) = local else {
        return Ok(rows);
    };
    for at in relocations {
        let row = relocation_row(alloc, functions, local, at)?;
        rows.push(row)?;
    }
    Ok(rows)
}

/// What a record of a kind declares: a function or a variable.
fn declared_kind(kind: BtfKind) -> ExternKind
    ensures { result ≡ declared_kind kind }
{
    match kind {
        BtfKind::Func => ExternKind::Function,
        _ => ExternKind::Variable,
    }
}

/// What an extern is, by its declaration in the object's table.
fn extern_kind(table: Option<&Btf<'_>>, desc: &ExternDesc<'_>) -> ExternKind
    ensures { result ≡ extern_kind (option_copied table.entry) desc.now }
{
    if desc.type_id.is_none() {
        return ExternKind::Symbol;
    }
    let Some(table) = table else {
        return ExternKind::Variable;
    };
    match table.type_by_id(desc.btf_id) {
        Ok(t) => declared_kind(t.kind()),
        Err(_error) => ExternKind::Variable,
    }
}

fn extern_rows<'r>(
    alloc: Global,
    externs: &'r Externs<'_>,
    local: Option<&Btf<'_>>,
) -> Result<Vec<ExternRow<'r>>, AllocError>
    ensures { IfOk result (λ rows.
        map shown_extern rows.items
        ≡ map (extern_row (option_copied local.entry)) externs.now.by_name) }
{
    let mut rows = Vec::new(alloc);
    for (name, desc) in externs.iter() {
        rows.push(ExternRow {
            name: *name,
            kind: extern_kind(local, desc),
            is_weak: desc.is_weak,
        })?;
    }
    Ok(rows)
}

/// The names of an object's programs, in order.
fn program_names<'r>(alloc: Global, object: &'r Object<'_>) -> Result<Vec<&'r str>, AllocError>
    ensures { IfOk result (λ names.
        map (λ name. name.now) names.items ≡ map (λ p. p.0) object.now.programs) }
{
    let mut names = Vec::new(alloc);
    for (name, _program) in object.programs().iter() {
        names.push(*name)?;
    }
    Ok(names)
}

fn program_rows<'r>(
    alloc: Global,
    object: &'r Object<'_>,
    sections: &[&'r str],
) -> Result<Vec<ProgramRow<'r>>, AllocError>
    ensures { IfOk result (λ rows.
        map shown_program rows.items ≡ program_rows object.now sections.now) }
{
    let names = program_names(alloc, object)?;
    let mut rows = Vec::new(alloc);
    for (name, section) in names.iter().zip(sections) {
        rows.push(ProgramRow {
            name: *name,
            section: *section,
            is_optional: false,
        })?;
    }
    Ok(rows)
}

fn map_rows<'r>(alloc: Global, object: &'r Object<'_>) -> Result<Vec<MapRow<'r>>, AllocError>
    ensures { IfOk result (λ rows. map shown_map rows.items ≡ map_rows object.now) }
{
    let mut rows = Vec::new(alloc);
    for (name, map) in object.maps().iter() {
        rows.push(MapRow {
            name: *name,
            map_type: map.map_type(),
        })?;
    }
    Ok(rows)
}

/// The first of some type relocations in each slot of a function that has one.
fn relocated_slots(
    alloc: Global,
    relocations: &[RelocationAt],
) -> Result<BTreeMap<SlotPlace, usize>, AllocError> {
    let mut slots = BTreeMap::new(alloc);
    for (index, at) in relocations.iter().enumerate() {
        if let Some(place) = at.place {
            let slot = (place.key, place.index);
            if !slots.contains_key(&slot) {
                slots.insert(slot, index)?;
            }
        }
    }
    Ok(slots)
}

/// The names of what a report on the object of a file is about, given the names of its programs'
/// sections and its type relocations, and whether a check takes what isn't known for a cause. No
/// helper has a name yet.
///
/// # Errors
///
/// `AllocError` where memory runs out.
pub fn rows_of<'r, 't>(
    alloc: Global,
    file: &[u8],
    object: &'r Object<'t>,
    sections: &[&'r str],
    relocations: &[RelocationAt],
    is_strict: bool,
) -> Result<Rows<'r, 't>, AllocError>
    ensures { IfOk result (AreRows file.now object.now sections.now relocations.now is_strict) }
{
    let types = object.btf();
    let object_cause = object_cause(alloc, file)?;
    let programs = program_rows(alloc, object, sections)?;
    let maps = map_rows(alloc, object)?;
    let kinds = kind_needs(alloc, None, types)?;
    let relocated = relocated_slots(alloc, relocations)?;
    let relocations = relocation_rows(alloc, object.functions(), types, relocations)?;
    let externs = extern_rows(alloc, object.externs(), types)?;
    Ok(Rows {
        programs,
        maps,
        kinds,
        relocations,
        relocated,
        externs,
        types,
        helpers: HelperNames::new(alloc),
        object_cause,
        is_strict,
    })
}
