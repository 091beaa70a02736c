//! The sections that are read, and their relocations.

ghost use Rattle.std.specs.Prelude.{◌≡◌, OnOk};
ghost use Rattle.std.specs.Io.KnownBytes.{Appends};
ghost use Rattle.object_text.specs.Lines.{count_line, is_listed, relocation_line, section_line};

use crate::names::kind_name;
use ebpf_object::{EbpfSectionKind, ObjectFile, ReadSection};
use elf64::RelocView;
use quoting::{Number, Text};
use std::io;
use std::io::Write;

fn write_section<W: Write>(section: &ReadSection<'_>, out: &mut W) -> io::Result<()>
    ensures { OnOk result
        (Appends (W.contents out.old) (W.contents out.new) (section_line section.now)) }
{
    writeln!(
        out,
        "section {} {} {} address {} size {}",
        section.index(),
        kind_name(section.kind()),
        Text::of(section.name()),
        section.address(),
        section.size()
    )
}

/// Writes the sections, in order of index.
pub(crate) fn write_sections<W: Write>(file: &ObjectFile<'_>, out: &mut W) -> io::Result<()> {
    for section in file.sections() {
        write_section(section, out)?;
    }
    Ok(())
}

fn write_relocation<W: Write>(section: usize, relocation: &RelocView, out: &mut W) -> io::Result<()>
    ensures { OnOk result
        (Appends (W.contents out.old) (W.contents out.new)
        (relocation_line section relocation.now)) }
{
    writeln!(
        out,
        "relocation {section} offset {} symbol {} width {}",
        relocation.offset(),
        Number::of_index(relocation.symbol()),
        relocation.width()
    )
}

fn write_relocations_of<W: Write>(
    section: usize,
    relocations: &[RelocView],
    out: &mut W,
) -> io::Result<()> {
    for relocation in relocations {
        write_relocation(section, relocation, out)?;
    }
    Ok(())
}

/// Whether the relocations of a section of a kind are listed one by one. Those of the other kinds
/// are read by nothing.
fn is_listed(kind: EbpfSectionKind) -> bool
    ensures { result ≡ is_listed kind }
{
    !matches!(
        kind,
        EbpfSectionKind::Undefined
            | EbpfSectionKind::Btf
            | EbpfSectionKind::BtfExt
            | EbpfSectionKind::License
            | EbpfSectionKind::Version
    )
}

/// Writes how many relocations a section has.
fn write_count<W: Write>(section: usize, count: usize, out: &mut W) -> io::Result<()>
    ensures { OnOk result
        (Appends (W.contents out.old) (W.contents out.new) (count_line section count)) }
{
    writeln!(out, "relocations {section} count {count}")
}

/// Writes the relocations of a section, or how many there are.
fn write_section_relocations<W: Write>(
    section: &ReadSection<'_>,
    relocations: &[RelocView],
    out: &mut W,
) -> io::Result<()> {
    if is_listed(section.kind()) {
        write_relocations_of(section.index(), relocations, out)
    } else if relocations.is_empty() {
        Ok(())
    } else {
        write_count(section.index(), relocations.len(), out)
    }
}

/// Writes the relocations of the sections, by section. Those of sections that nothing reads are
/// counted.
pub(crate) fn write_relocations<W: Write>(file: &ObjectFile<'_>, out: &mut W) -> io::Result<()> {
    for section in file.sections() {
        write_section_relocations(section, file.relocations_of(section.index()), out)?;
    }
    Ok(())
}
