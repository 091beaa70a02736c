//! What programs are attached to once they are loaded.

ghost use Rattle.std.specs.Prelude.{◌≡◌, ◌++◌, IfOk};
ghost use Rattle.std.specs.Option.{option_copied, option_map};
ghost use Rattle.std.specs.String.{string_bytes};
ghost use Rattle.report_checks.specs.Attachments.{attached_record, attachment_of, event_name, is_system_call, name_behind, probe_name, record_attachment, record_kind, section_has};

use btf_records::BtfKind;
use program_kinds::ProgramSection;
use report_needs::SearchedKernel;
use std::alloc::{AllocError, Global};

/// Whether a kernel has what a program is attached to once it is loaded.
#[derive(Clone, Copy, Debug, PartialEq, Eq)]
pub enum Attachment {
    /// The program isn't attached by a name in its section, or not after it is loaded.
    NotNamed,
    Found,
    /// The kernel's symbols have variants of the function alone that a compiler made, like
    /// `NAME.isra.0`.
    Variant,
    /// The kernel's symbols don't have the function.
    Missing,
    /// The kernel's types don't have it. A module may.
    Unknown,
}

/// What stands after the first `/` of a text, if there is anything.
fn name_behind(section: &str) -> Option<&str>
    ensures { option_copied result ≡ name_behind section.now }
{
    let (_, name) = section.split_once('/')?;
    if name.is_empty() { None } else { Some(name) }
}

/// The function in the section of a probe, if there is one. An offset in it may follow after a plus.
pub(crate) fn probe_name(section: &str) -> Option<&str>
    ensures { option_copied result ≡ probe_name section.now }
{
    let (_, place) = section.split_once('/')?;
    let name = match place.split_once('+') {
        Some((name, _)) => name,
        None => place,
    };
    if name.is_empty() { None } else { Some(name) }
}

/// What the names of tracepoints' typedefs begin with.
const TRACE: &str = "btf_trace_";

/// The name of the record by which the kernel's types tell of what a program of a kind is attached to
/// once it is loaded, by its section's name: of a probe's function, or of a tracepoint's typedef.
///
/// # Errors
///
/// `AllocError` where memory runs out.
pub fn attached_record(
    alloc: Global,
    kind: &ProgramSection,
    section: &str,
) -> Result<Option<String>, AllocError>
    ensures { IfOk result (λ found.
        option_map string_bytes found ≡ attached_record kind.now section.now) }
{
    let (prefix, name) = match kind {
        ProgramSection::KProbe | ProgramSection::KRetProbe => ("", probe_name(section)),
        ProgramSection::RawTracePoint => (TRACE, name_behind(section)),
        ProgramSection::TracePoint => (TRACE, event_name(section)),
        _ => ("", None),
    };
    let Some(name) = name else {
        return Ok(None);
    };
    let mut record = String::from_str(alloc, prefix)?;
    record.push_str(name)?;
    Ok(Some(record))
}

/// The tracepoint in a section `tracepoint/CATEGORY/NAME`.
fn event_name(section: &str) -> Option<&str>
    ensures { option_copied result ≡ event_name section.now }
{
    name_behind(name_behind(section)?)
}

/// Whether the kernel's types have a record.
fn record_attachment(
    alloc: Global,
    kernel: &SearchedKernel<'_, '_>,
    kind: BtfKind,
    name: &str,
) -> Result<Attachment, AllocError>
    ensures { IfOk result (λ found. found ≡ record_attachment kernel.now kind name.now) }
{
    match kernel.record_id(alloc, kind, name)? {
        Some(_id) => Ok(Attachment::Found),
        None => Ok(Attachment::Unknown),
    }
}

/// Whether a section names a tracepoint of system calls, which have no types.
fn is_system_call(kind: &ProgramSection, section: &str) -> bool
    ensures { result ≡ is_system_call kind.now section.now }
{
    match kind {
        ProgramSection::TracePoint => section_has(section, "syscalls"),
        _ => false,
    }
}

/// Whether the piece of a section's name after its first `/` is this one, and a `/` follows.
fn section_has(section: &str, piece: &str) -> bool
    ensures { result ≡ section_has section.now piece.now }
{
    match section.split_once('/') {
        Some((_, text)) => match text.split_once('/') {
            Some((category, _)) => category == piece,
            None => false,
        },
        None => false,
    }
}

/// The kind of the record that tells of what programs of a kind are attached to.
fn record_kind(kind: &ProgramSection) -> BtfKind
    ensures { result ≡ record_kind kind.now }
{
    match kind {
        ProgramSection::KProbe | ProgramSection::KRetProbe => BtfKind::Func,
        _ => BtfKind::Typedef,
    }
}

/// Whether a kernel has what a program of a kind is attached to by its section's name, as far as the
/// kernel's types say. What isn't there is unknown, since a module may have it.
pub(crate) fn attachment_of(
    alloc: Global,
    kernel: &SearchedKernel<'_, '_>,
    kind: &ProgramSection,
    section: &str,
) -> Result<Attachment, AllocError>
    ensures { IfOk result (λ found. found ≡ attachment_of kernel.now kind.now section.now) }
{
    if is_system_call(kind, section) {
        return Ok(Attachment::Unknown);
    }
    match attached_record(alloc, kind, section)? {
        Some(name) => record_attachment(alloc, kernel, record_kind(kind), &name),
        None => Ok(Attachment::NotNamed),
    }
}
