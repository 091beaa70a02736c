//! Type relocations.

ghost use Rattle.std.specs.Prelude.{◌≡◌};
ghost use Rattle.std.specs.Option.{option_copied};
ghost use Rattle.string_table.specs.Texts.{text_at};

use btf::{Btf, SecInfo, bpf_core_relo};
use ebpf_object::Object;
use quoting::Text;
use std::io;
use std::io::Write;

/// The text at an offset of a table's strings.
fn text_at<'t>(table: &'t Btf<'_>, offset: u32) -> Text<'t>
    ensures { option_copied result.0 ≡ text_at table.now.strings offset }
{
    match table.string_at(offset) {
        Ok(text) => Text::of(text),
        Err(_error) => Text(None),
    }
}

fn write_relocation<W: Write>(
    table: &Btf<'_>,
    relocation: bpf_core_relo,
    out: &mut W,
) -> io::Result<()> {
    writeln!(
        out,
        "type-relocation offset {} type {} access {} {} kind {}",
        relocation.insn_off,
        relocation.type_id,
        relocation.access_str_off,
        text_at(table, relocation.access_str_off),
        relocation.kind
    )
}

fn write_section_info<W: Write>(
    table: &Btf<'_>,
    section_info: &SecInfo<'_>,
    out: &mut W,
) -> io::Result<()> {
    let section = text_at(table, section_info.name_offset());
    writeln!(
        out,
        "type-relocations {section} {}",
        section_info.num_info()
    )?;
    let mut index = 0;
    while let Some(relocation) = section_info.get(index) {
        write_relocation(table, relocation, out)?;
        index += 1;
    }
    Ok(())
}

/// Writes the type relocations, section info by section info, each with the name of its section.
pub(crate) fn write_type_relocations<W: Write>(object: &Object<'_>, out: &mut W) -> io::Result<()> {
    let (Some(table), Some(extension)) = (object.btf(), object.btf_ext()) else {
        return Ok(());
    };
    for section_info in extension.relocations() {
        write_section_info(table, &section_info, out)?;
    }
    Ok(())
}
