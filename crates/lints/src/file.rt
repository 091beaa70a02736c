//! Notes on a file.

ghost use Rattle.std.specs.Prelude.{◌≡◌, ◌+◌, ◌≤◌, ◌++◌, length, map, flat_map, IfOk, OnOk};
ghost use Rattle.std.specs.Int.{w16};
ghost use Rattle.elf64.specs.Headers.{order_of};
ghost use Rattle.elf64.specs.Numbers.{number_at};
ghost use Rattle.lints.specs.Notes.{header_notes, license_notes, machine_notes, machine_of, note_content, object_notes, order_notes, section_notes};

use crate::note::Note;
use ebpf_items::EbpfSectionKind;
use elf64::ByteOrder;
use object_file::{ObjectFile, ReadSection};
use std::alloc::{AllocError, Global};

/// `EM_BPF`
const BPF_MACHINE: u16 = 247;

/// The byte order of an ELF64 file, if the file begins with an ELF64 header.
fn order_of(file: &[u8]) -> Option<ByteOrder>
    ensures { result ≡ order_of file.now }
{
    if file.len() < 64 || !file.starts_with(b"\x7fELF".as_slice()) || file[4] != 2 {
        return None;
    }
    match file[5] {
        1 => Some(ByteOrder::Little),
        2 => Some(ByteOrder::Big),
        _ => None,
    }
}

/// The machine that a file is for (`e_machine`).
#[tactic(auto, unfolding(elf64::specs::Numbers::number_at))]
fn machine_of(file: &[u8], order: ByteOrder) -> u16
    requires { 20 ≤ length file.now }
    ensures { result ≡ machine_of file.now order }
{
    let number = &file[18..20];
    let number = [number[0], number[1]];
    match order {
        ByteOrder::Little => u16::from_le_bytes(number),
        ByteOrder::Big => u16::from_be_bytes(number),
    }
}

/// Adds the note on a file's machine.
fn add_machine_note(
    file: &[u8],
    order: ByteOrder,
    notes: &mut Vec<Note<'_>>,
) -> Result<(), AllocError>
    requires { 20 ≤ length file.now }
    ensures { OnOk result
        (map note_content notes.new.items
        ≡ map note_content notes.old.items ++ machine_notes file.now order) }
{
    let machine = machine_of(file, order);
    if machine == BPF_MACHINE {
        return Ok(());
    }
    notes.push(Note::OtherMachine { machine })?;
    Ok(())
}

/// Adds the note on a file's byte order.
fn add_order_note(order: ByteOrder, notes: &mut Vec<Note<'_>>) -> Result<(), AllocError>
    ensures { OnOk result
        (map note_content notes.new.items ≡ map note_content notes.old.items ++ order_notes order) }
{
    match order {
        ByteOrder::Little => Ok(()),
        ByteOrder::Big => {
            notes.push(Note::BigEndian)?;
            Ok(())
        }
    }
}

/// The notes on a file's machine and its byte order, if it begins with an ELF64 header.
pub fn header_notes<'a>(alloc: Global, file: &[u8]) -> Result<Vec<Note<'a>>, AllocError>
    ensures { IfOk result (λ notes. map note_content notes.items ≡ header_notes file.now) }
{
    let mut notes = Vec::new(alloc);
    let Some(order) = order_of(file) else {
        return Ok(notes);
    };
    add_machine_note(file, order, &mut notes)?;
    add_order_note(order, &mut notes)?;
    Ok(notes)
}

/// Adds the note on a file without a license.
fn add_license_note(file: &ObjectFile<'_>, notes: &mut Vec<Note<'_>>) -> Result<(), AllocError>
    ensures { OnOk result
        (map note_content notes.new.items
        ≡ map note_content notes.old.items ++ license_notes file.now) }
{
    if file.contents_of("license").is_some() {
        return Ok(());
    }
    notes.push(Note::NoLicense)?;
    Ok(())
}

/// Adds the note on a section with relocations.
fn add_section_note<'a>(
    file: &ObjectFile<'a>,
    section: &ReadSection<'a>,
    notes: &mut Vec<Note<'a>>,
) -> Result<(), AllocError>
    ensures { OnOk result
        (map note_content notes.new.items
        ≡ map note_content notes.old.items ++ section_notes file.now section.now) }
{
    if file.relocations_of(section.index()).is_empty() {
        return Ok(());
    }
    let name = section.name();
    match section.kind() {
        EbpfSectionKind::Maps | EbpfSectionKind::BtfMaps => {
            notes.push(Note::FirstValues { section: name })?;
            Ok(())
        }
        EbpfSectionKind::Data | EbpfSectionKind::Rodata | EbpfSectionKind::Bss => {
            notes.push(Note::Pointers { section: name })?;
            Ok(())
        }
        _ => Ok(()),
    }
}

/// Adds the notes on sections.
fn add_section_notes<'a>(
    file: &ObjectFile<'a>,
    sections: &[ReadSection<'a>],
    notes: &mut Vec<Note<'a>>,
) -> Result<(), AllocError>
    ensures { OnOk result
        (map note_content notes.new.items
        ≡ map note_content notes.old.items ++ flat_map (section_notes file.now) sections.now) }
{
    for section in sections {
        add_section_note(file, section, notes)?;
    }
    Ok(())
}

/// The notes on what an object file holds: on its license and its relocations.
pub fn object_notes<'a>(alloc: Global, file: &ObjectFile<'a>) -> Result<Vec<Note<'a>>, AllocError>
    ensures { IfOk result (λ notes. map note_content notes.items ≡ object_notes file.now) }
{
    let mut notes = Vec::new(alloc);
    add_license_note(file, &mut notes)?;
    add_section_notes(file, file.sections(), &mut notes)?;
    Ok(notes)
}
