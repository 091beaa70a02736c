//! Programs and functions.

ghost use Rattle.std.specs.Prelude.{OnOk};
ghost use Rattle.std.specs.Io.KnownBytes.{Appends};
ghost use Rattle.object_text.specs.Lines.{load_line};
ghost use Rattle.program_kinds.specs.Attributes.{attributes_of};

use ebpf_object::{Function, Object, Program, ProgramSection, Slots};
use program_kinds::load_attributes;
use quoting::{Hex, Id, Text};
use std::io;
use std::io::Write;

fn write_program<W: Write>(name: &str, program: &Program<'_>, out: &mut W) -> io::Result<()> {
    writeln!(
        out,
        "program {} section {} address {} kind {:?}",
        Text::of(name),
        program.section_index,
        program.address,
        program.section
    )
}

/// Writes what a loader passes to the kernel for a program's kind.
fn write_load<W: Write>(name: &str, kind: &ProgramSection, out: &mut W) -> io::Result<()>
    ensures { OnOk result
        (Appends (W.contents out.old) (W.contents out.new)
        (load_line name.now (attributes_of kind.now))) }
{
    let attributes = load_attributes(kind);
    writeln!(
        out,
        "load {} type {} attach-type {} flags {}",
        Text::of(name),
        attributes.prog_type.number(),
        Id(attributes.expected_attach_type),
        attributes.flags
    )
}

/// Writes the programs, by name, each with what a loader passes for it.
pub(crate) fn write_programs<W: Write>(object: &Object<'_>, out: &mut W) -> io::Result<()> {
    for (name, program) in object.programs().iter() {
        write_program(name, program, out)?;
        write_load(name, &program.section, out)?;
    }
    Ok(())
}

fn write_slots<W: Write>(slots: &Slots<'_>, out: &mut W) -> io::Result<()> {
    for slot in slots.iter() {
        let bytes = slot.to_bytes();
        write!(out, "{}", Hex(&bytes))?;
    }
    Ok(())
}

/// Writes the line of a function's code.
fn write_code<W: Write>(function: &Function<'_>, out: &mut W) -> io::Result<()> {
    let (section, address) = function.key();
    let slots = &function.instructions;
    let held = if slots.is_borrowed() {
        "borrowed"
    } else {
        "owned"
    };
    write!(
        out,
        "function {section} {address} {} offset {} slots {} {held} ",
        Text::of(function.name),
        function.section_offset,
        slots.len()
    )?;
    if slots.len() == 0 {
        return writeln!(out, "-");
    }
    write_slots(slots, out)?;
    writeln!(out, "")
}

fn write_func_info<W: Write>(function: &Function<'_>, out: &mut W) -> io::Result<()> {
    let (section, address) = function.key();
    let mut index = 0;
    while let Some(record) = function.func_info.get(index) {
        let (slot, id) = (record.insn_off, record.type_id);
        writeln!(out, "func-info {section} {address} slot {slot} type {id}")?;
        index += 1;
    }
    Ok(())
}

fn write_line_info<W: Write>(function: &Function<'_>, out: &mut W) -> io::Result<()> {
    let (section, address) = function.key();
    let mut index = 0;
    while let Some(record) = function.line_info.get(index) {
        writeln!(
            out,
            "line-info {section} {address} slot {} file {} text {} line {} column {}",
            record.insn_off,
            record.file_name_off,
            record.line_off,
            record.line_col >> 10,
            record.line_col & 0x3ff
        )?;
        index += 1;
    }
    Ok(())
}

fn write_function<W: Write>(function: &Function<'_>, out: &mut W) -> io::Result<()> {
    write_code(function, out)?;
    write_func_info(function, out)?;
    write_line_info(function, out)
}

/// Writes the functions, by section and address, each with its records.
pub(crate) fn write_functions<W: Write>(object: &Object<'_>, out: &mut W) -> io::Result<()> {
    for (_key, function) in object.functions().iter() {
        write_function(function, out)?;
    }
    Ok(())
}
