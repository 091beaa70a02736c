//! From an object's bytes to the text of what it holds.

ghost use Rattle.std.specs.Prelude.{◌≡◌, ◌≢◌, IfErr, OnOk};
ghost use Rattle.ebpf_items.specs.declared.error.ParseError.TheVariants.{OutOfMemory};
ghost use Rattle.object_contents.specs.Faults.{IsFaultless};
ghost use Rattle.object_text.specs.Inspection.{IsInspectRefusal};
ghost use Rattle.object_text.specs.declared.error.InspectError.TheVariants.{Output};

use crate::code::{write_functions, write_programs};
use crate::error::InspectError;
use crate::externs::write_externs;
use crate::file::{write_relocations, write_sections};
use crate::maps::write_maps;
use crate::notes::write_notes;
use crate::type_relocations::write_type_relocations;
use btf::Endianness;
use ebpf_object::{Object, ParseError};
use lints::{Note, header_notes, object_notes};
use quoting::Text;
use std::alloc::Global;
use std::io;
use std::io::Write;

/// Writes the properties of the object as a whole.
fn write_head<W: Write>(object: &Object<'_>, out: &mut W) -> io::Result<()> {
    match object.endianness() {
        Endianness::Little => writeln!(out, "byte-order little")?,
        Endianness::Big => writeln!(out, "byte-order big")?,
    }
    writeln!(out, "license {}", Text(Some(object.license())))?;
    match object.kernel_version() {
        Some(version) => writeln!(out, "version {version}")?,
        None => writeln!(out, "version any")?,
    }
    match object.btf() {
        Some(table) => writeln!(out, "types {}", table.len()),
        None => writeln!(out, "types none"),
    }
}

/// Writes whether it has relocations and externs that need a kernel.
fn write_wants<W: Write>(object: &Object<'_>, out: &mut W) -> io::Result<()> {
    writeln!(out, "has-btf-relocations {}", object.has_btf_relocations())?;
    writeln!(out, "has-typed-ksyms {}", object.has_typed_ksyms())?;
    let has_strong = object.has_strong_typed_ksyms();
    writeln!(out, "has-strong-typed-ksyms {has_strong}")
}

/// The notes on an object: on the header of its file, and on what the file holds.
#[derive(Drop)]
struct Notes<'a> {
    header: Vec<Note<'a>>,
    contents: Vec<Note<'a>>,
}

/// The notes on the object of a file. The only error is out of memory.
fn notes_of<'a>(alloc: Global, bytes: &[u8], object: &Object<'a>) -> Result<Notes<'a>, ParseError>
    ensures { IfErr result (λ e. e ≡ OutOfMemory) }
{
    Ok(Notes {
        header: header_notes(alloc, bytes)?,
        contents: object_notes(alloc, object.file())?,
    })
}

/// Writes what an object holds, one line per item, and then the notes on it.
fn write_object<W: Write>(object: &Object<'_>, notes: &Notes<'_>, out: &mut W) -> io::Result<()> {
    write_head(object, out)?;
    write_sections(object.file(), out)?;
    write_relocations(object.file(), out)?;
    write_programs(object, out)?;
    write_functions(object, out)?;
    write_maps(object, out)?;
    write_externs(object, out)?;
    write_type_relocations(object, out)?;
    write_wants(object, out)?;
    write_notes(&notes.header, out)?;
    write_notes(&notes.contents, out)
}

/// Writes what the object of a file holds, or nothing where it is refused. docs/FORMATS.md has the
/// format of the lines.
///
/// # Errors
///
/// [`InspectError::Refused`] where the object is refused, and [`InspectError::Output`] where the
/// writer fails.
pub fn inspect<W: Write>(alloc: Global, bytes: &[u8], out: &mut W) -> Result<(), InspectError>
    ensures accepted { OnOk result (IsFaultless bytes.now) }
    ensures refused { IfErr result (IsInspectRefusal bytes.now) }
    ensures unwritten { IfErr result (λ e. e ≢ Output → out.new ≡ out.old) }
{
    let object = Object::parse(alloc, bytes)?;
    let notes = notes_of(alloc, bytes, &object)?;
    match write_object(&object, &notes, out) {
        Ok(()) => Ok(()),
        Err(_error) => Err(InspectError::Output),
    }
}
