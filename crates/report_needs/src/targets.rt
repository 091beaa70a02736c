//! The targets that programs are attached to, by their sections.

ghost use Rattle.std.specs.Prelude.{◌≡◌, ◌++◌, is_some, IfOk};
ghost use Rattle.std.specs.Option.{option_copied, option_map};
ghost use Rattle.std.specs.String.{string_bytes};
ghost use Rattle.report_needs.specs.Targets.{attach_target, is_built_in, name_in, own_name, target_form, where_any};

use btf_records::BtfKind;
use program_kinds::ProgramSection;
use std::alloc::{AllocError, Global};
use std::marker::Model;

/// What a program is attached to: the kernel's record of a kind whose name is the concatenation of
/// a prefix and the name in the program's section.
#[derive(Debug, Drop)]
pub struct AttachTarget<'s> {
    prefix: &'static str,
    name: &'s str,
    kind: BtfKind,
}

impl<'s> Model for AttachTarget<'s> {
    ghost use Rattle.report_needs.specs.Targets.{Target};

    ghost Value = { Target };

    ghost view = { λ t. record { prefix = t.prefix.now; name = t.name.now; kind = t.kind } };
}

impl<'s> AttachTarget<'s> {
    /// What the record's name begins with: `""`, `bpf_lsm_`, `bpf_iter_` or `btf_trace_`.
    pub fn prefix(&self) -> &'static str
        ensures { result.now ≡ self.now.prefix }
    {
        self.prefix
    }

    /// Whether no module has such records: the hooks of LSM, and the functions of iterators. Modules
    /// have other functions, and tracepoints.
    pub fn is_built_in(&self) -> bool
        ensures { result ≡ is_built_in self.now }
    {
        self.prefix == "bpf_lsm_" || self.prefix == "bpf_iter_"
    }

    /// The name in the section, without that of a module.
    pub fn name(&self) -> &'s str
        ensures { result.now ≡ self.now.name }
    {
        self.name
    }

    /// The kind of the record: `BTF_KIND_TYPEDEF` or `BTF_KIND_FUNC`.
    pub fn kind(&self) -> BtfKind
        ensures { result ≡ self.now.kind }
    {
        self.kind
    }
}

/// The prefix and the kind of the record that programs of a kind are attached to.
fn target_form(kind: &ProgramSection) -> Option<(&'static str, BtfKind)>
    ensures { option_map (λ form. (form.0.now, form.1)) result ≡ target_form kind.now }
{
    match kind {
        ProgramSection::FEntry { .. } | ProgramSection::FExit { .. } => Some(("", BtfKind::Func)),
        ProgramSection::Lsm { .. } | ProgramSection::LsmCgroup => {
            Some(("bpf_lsm_", BtfKind::Func))
        }
        ProgramSection::Iter { .. } => Some(("bpf_iter_", BtfKind::Func)),
        ProgramSection::BtfTracePoint => Some(("btf_trace_", BtfKind::Typedef)),
        _ => None,
    }
}

/// The text, where it isn't empty.
fn where_any(text: &str) -> Option<&str>
    ensures { option_copied result ≡ where_any text.now }
{
    if text.is_empty() { None } else { Some(text) }
}

/// The name of one of the kernel's own records: the text itself, or what stands after `vmlinux:`.
/// None for a record of another module.
fn own_name(text: &str) -> Option<&str>
    ensures { option_copied result ≡ own_name text.now }
{
    let Some((module, name)) = text.split_once(':') else {
        return where_any(text);
    };
    if module == "vmlinux" {
        where_any(name)
    } else {
        None
    }
}

/// The name of one of the kernel's own records after the first `/`, where there is one.
fn name_in(section: &str) -> Option<&str>
    ensures { option_copied result ≡ name_in section.now }
{
    match section.split_once('/') {
        Some((_, text)) => own_name(text),
        None => None,
    }
}

/// Whether programs of a kind are attached by a name in their section.
pub fn is_attached_by_name(kind: &ProgramSection) -> bool
    ensures { result ≡ is_some (target_form kind.now) }
{
    target_form(kind).is_some()
}

/// What a program of a kind is attached to by the name of its section: the kernel's record whose id
/// becomes `attach_btf_id` (libbpf's `find_kernel_btf_id`). None for kinds that aren't attached by
/// a name, for a section without a name after its first `/`, and for a name after a module's name
/// and a colon, unless the module is `vmlinux`, the kernel itself.
pub fn attach_target<'s>(kind: &ProgramSection, section: &'s str) -> Option<AttachTarget<'s>>
    ensures { result ≡ attach_target kind.now section.now }
{
    let (prefix, kind) = target_form(kind)?;
    let name = name_in(section)?;
    Some(AttachTarget { prefix, name, kind })
}

impl<'s> AttachTarget<'s> {
    /// The record's whole name.
    ///
    /// # Errors
    ///
    /// `AllocError` where memory runs out.
    pub fn record_name(&self, alloc: Global) -> Result<String, AllocError>
        ensures { IfOk result (λ text. string_bytes text ≡ self.now.prefix ++ self.now.name) }
    {
        let mut text = String::from_str(alloc, self.prefix)?;
        text.push_str(self.name)?;
        Ok(text)
    }
}
