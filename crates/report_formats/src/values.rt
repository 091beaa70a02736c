//! The parts of the JSON document. docs/FORMATS.md says what each field means.

use serde::Serialize;

/// A line of a source file.
#[derive(Drop, Serialize)]
pub(crate) struct SourceValue<'r> {
    pub(crate) file: Option<&'r str>,
    pub(crate) line: u32,
    pub(crate) text: Option<&'r str>,
}

/// A call that the kernel doesn't take.
#[derive(Drop, Serialize)]
pub(crate) struct CallValue<'r> {
    pub(crate) instruction: u64,
    pub(crate) cause: &'static str,
    pub(crate) reached: bool,
    pub(crate) source: Option<SourceValue<'r>>,
}

/// A helper that a program calls.
#[derive(Drop, Serialize)]
pub(crate) struct HelperValue<'r> {
    pub(crate) number: i32,
    pub(crate) name: Option<&'r str>,
    pub(crate) presence: &'static str,
}

/// What the kernel makes of a program.
#[derive(Drop, Serialize)]
pub(crate) struct ProgramValue<'r> {
    pub(crate) name: &'r str,
    pub(crate) section: &'r str,
    pub(crate) target: Option<&'static str>,
    pub(crate) target_id: Option<u32>,
    pub(crate) program_type: &'static str,
    pub(crate) attach_type: Option<&'static str>,
    pub(crate) flags: Option<&'static str>,
    pub(crate) attach: Option<&'static str>,
    pub(crate) helpers: Vec<HelperValue<'r>>,
    pub(crate) calls: Vec<CallValue<'r>>,
    pub(crate) optional: bool,
    pub(crate) causes: Vec<String>,
}

/// Whether the kernel has the type of a map.
#[derive(Drop, Serialize)]
pub(crate) struct MapValue<'r> {
    pub(crate) name: &'r str,
    pub(crate) map_type: u32,
    pub(crate) presence: &'static str,
}

/// Whether the kernel has a kind of records.
#[derive(Drop, Serialize)]
pub(crate) struct KindValue {
    pub(crate) kind: &'static str,
    pub(crate) presence: &'static str,
}

/// The result of a type relocation.
#[derive(Drop, Serialize)]
pub(crate) struct TypeRelocationValue<'r> {
    pub(crate) section: Option<&'r str>,
    pub(crate) function: Option<&'r str>,
    pub(crate) instruction: u64,
    pub(crate) asks: &'r str,
    pub(crate) answer: String,
    pub(crate) reach: Option<&'static str>,
}

/// Whether the kernel has an extern.
#[derive(Drop, Serialize)]
pub(crate) struct ExternValue<'r> {
    pub(crate) name: &'r str,
    pub(crate) kind: &'static str,
    pub(crate) weak: bool,
    pub(crate) presence: &'static str,
}

/// The report on the kernel of a file.
#[derive(Drop, Serialize)]
pub(crate) struct KernelValue<'r> {
    pub(crate) file: &'r str,
    pub(crate) unread: Option<&'r str>,
    pub(crate) plan: Option<bool>,
    pub(crate) refused: Option<&'r str>,
    pub(crate) fails: Option<String>,
    pub(crate) unknown: u64,
    pub(crate) warnings: Vec<String>,
    pub(crate) programs: Vec<ProgramValue<'r>>,
    pub(crate) maps: Vec<MapValue<'r>>,
    pub(crate) record_kinds: Vec<KindValue>,
    pub(crate) relocations: Vec<TypeRelocationValue<'r>>,
    pub(crate) externs: Vec<ExternValue<'r>>,
}

/// The whole document.
#[derive(Drop, Serialize)]
pub(crate) struct Document<'r> {
    pub(crate) object: &'r str,
    pub(crate) kernels: Vec<KernelValue<'r>>,
}
