//! The lines of programs, written without memory.

ghost use Rattle.std.specs.Prelude.{[], ◌∷◌, flat_map, map};
ghost use Rattle.std.specs.Option.{option_map};
ghost use Rattle.watched.specs.Watched.{Sends};
ghost use Rattle.plan_text.specs.PlanGrammar.{func_line, program_line, program_lines, slots_line, source_line, tables_line};
ghost use Rattle.plan_lines.specs.Words.{text_of_lines};
ghost use Rattle.plan_lines.specs.declared.line.TextVersion.TheVariants.{Second};

use crate::plan::PlanProgram;
use btf_ext::{FuncSecInfo, LineSecInfo, bpf_func_info, bpf_line_info};
use ebpf_items::{Slots, Watched};
use plan_lines::{KindNumbers, kind_numbers, send_bytes, send_numbers, send_slots, send_tables};
use std::io::Write;

fn send_program_line<W: Write>(out: &mut Watched<W>, name: &str, numbers: KindNumbers)
    ensures { Sends W.contents out.old out.new
        (text_of_lines (program_line name.now numbers ∷ [])) }
{
    out.send(b"program ");
    send_bytes(out, name.as_bytes());
    let numbers = [
        u64::from(numbers.kind),
        u64::from(numbers.first),
        u64::from(numbers.second),
    ];
    send_numbers(out, &numbers);
    out.send(b"\n");
}

fn send_slots_line<W: Write>(out: &mut Watched<W>, slots: &Slots<'_>)
    ensures { Sends W.contents out.old out.new (text_of_lines (slots_line slots.now ∷ [])) }
{
    out.send(b"slots ");
    send_slots(out, slots);
    out.send(b"\n");
}

fn send_tables_line<W: Write>(out: &mut Watched<W>, tables: Option<&[u32]>)
    ensures { Sends W.contents out.old out.new
        (text_of_lines (tables_line (option_map (λ places. places.now) tables.entry) ∷ [])) }
{
    out.send(b"tables");
    send_tables(out, tables);
    out.send(b"\n");
}

fn send_func_line<W: Write>(out: &mut Watched<W>, info: bpf_func_info)
    ensures { Sends W.contents out.old out.new (text_of_lines (func_line info ∷ [])) }
{
    out.send(b"func");
    let numbers = [u64::from(info.insn_off), u64::from(info.type_id)];
    send_numbers(out, &numbers);
    out.send(b"\n");
}

fn send_func_lines<W: Write>(out: &mut Watched<W>, records: &FuncSecInfo<'_>)
    ensures { Sends W.contents out.old out.new (text_of_lines (map func_line records.now)) }
{
    let mut index = 0;
    while let Some(info) = records.get(index) {
        send_func_line(out, info);
        index += 1;
    }
}

fn send_source_line<W: Write>(out: &mut Watched<W>, info: bpf_line_info)
    ensures { Sends W.contents out.old out.new (text_of_lines (source_line info ∷ [])) }
{
    out.send(b"line");
    let numbers = [
        u64::from(info.insn_off),
        u64::from(info.file_name_off),
        u64::from(info.line_off),
        u64::from(info.line_col),
    ];
    send_numbers(out, &numbers);
    out.send(b"\n");
}

fn send_source_lines<W: Write>(out: &mut Watched<W>, records: &LineSecInfo<'_>)
    ensures { Sends W.contents out.old out.new (text_of_lines (map source_line records.now)) }
{
    let mut index = 0;
    while let Some(info) = records.get(index) {
        send_source_line(out, info);
        index += 1;
    }
}

fn send_program<W: Write>(out: &mut Watched<W>, program: &PlanProgram<'_>)
    ensures { Sends W.contents out.old out.new (text_of_lines (program_lines Second program.now)) }
{
    send_program_line(out, program.name(), kind_numbers(program.section()));
    send_slots_line(out, program.slots());
    send_tables_line(out, program.tables());
    send_func_lines(out, program.func_records());
    send_source_lines(out, program.line_records());
}

/// Sends the lines of programs.
pub(crate) fn send_programs<W: Write>(out: &mut Watched<W>, programs: &[PlanProgram<'_>])
    ensures { Sends W.contents out.old out.new
        (text_of_lines (flat_map (program_lines Second) programs.now)) }
{
    for program in programs {
        send_program(out, program);
    }
}
