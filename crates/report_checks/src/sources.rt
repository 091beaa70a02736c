//! The lines of source files that slots come from.

ghost use Rattle.std.specs.Prelude.{◌≡◌, None};
ghost use Rattle.std.specs.Option.{IsSomeAnd, MatchOption, option_copied};
ghost use Rattle.report_checks.specs.Sources.{IsSource, is_before, line_record_at};
ghost use Rattle.string_table.specs.Texts.{text_at};

use btf_ext::bpf_line_info;
use btf_tables::Btf;
use plan_text::PlanProgram;

/// A line of a source file.
#[derive(Clone, Copy, Debug)]
pub struct SourceLine<'t> {
    /// The file's name, where it can be read.
    pub file: Option<&'t str>,
    /// The line's number. 0 stands for no line.
    pub line: u32,
    /// The line's text, where it can be read.
    pub text: Option<&'t str>,
}

/// Whether a line begins at a slot or before it.
fn is_before(slot: usize, line: bpf_line_info) -> bool
    ensures { result ≡ is_before slot line }
{
    line.insn_off as usize <= slot
}

/// The last line record of a program at or before a slot.
#[tactic(auto, using(crate::proofs::Lasts::none_left, crate::proofs::Lasts::passed, crate::proofs::Lasts::not_passed))]
pub fn line_record_at(program: &PlanProgram<'_>, slot: usize) -> Option<bpf_line_info>
    ensures { result ≡ line_record_at program.now slot }
{
    let lines = program.line_records();
    let mut found = None;
    for index in 0..lines.num_info() {
        if let Some(line) = lines.get(index as usize) {
            if is_before(slot, line) {
                found = Some(line);
            }
        }
    }
    found
}

/// The text at an offset of the strings.
fn text_at<'t>(types: &'t Btf<'_>, offset: u32) -> Option<&'t str>
    ensures { option_copied result ≡ text_at types.now.strings offset }
{
    match types.string_at(offset) {
        Ok(text) => Some(text),
        Err(_error) => None,
    }
}

/// The source line of a record, whose texts are in the strings of `types`: the object's own types.
pub fn source_of<'t>(types: &'t Btf<'_>, line: bpf_line_info) -> SourceLine<'t>
    ensures { IsSource types.now line result }
{
    SourceLine {
        file: text_at(types, line.file_name_off),
        line: line.line_col >> 10,
        text: text_at(types, line.line_off),
    }
}

/// The source line that a slot of a program comes from: that of the last line record of the program
/// at or before the slot. `types` are the object's own types.
pub fn source_at<'t>(
    types: &'t Btf<'_>,
    program: &PlanProgram<'_>,
    slot: usize,
) -> Option<SourceLine<'t>>
    ensures { MatchOption (line_record_at program.now slot) (result ≡ None) (λ line.
        IsSomeAnd result (IsSource types.now line)) }
{
    match line_record_at(program, slot) {
        Some(line) => Some(source_of(types, line)),
        None => None,
    }
}
