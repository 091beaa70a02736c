//! The section infos of type relocations.

ghost use Rattle.std.specs.Prelude.{◌≡◌, IfOk};

use btf_ext::{BtfExt, SecInfo, bpf_core_relo};
use core_resolve::TypeRelocation;
use ebpf_items::RelocationKind;
use std::alloc::{AllocError, Global};
use std::marker::Model;

/// The type relocations of a section, in order.
#[derive(Drop)]
pub(crate) struct RelocationSectionInfo {
    /// The offset of the section's name in the strings.
    pub(crate) name_offset: u32,
    pub(crate) records: Vec<bpf_core_relo>,
}

impl Model for RelocationSectionInfo {
    ghost use Rattle.btf_ext.specs.SectionInfos.{SectionInfo};
    ghost use Rattle.btf_ext.specs.declared.record.bpf_core_relo.{bpf_core_relo};

    ghost Value = { SectionInfo bpf_core_relo };

    ghost view = { λ g. record { name_offset = g.name_offset; records = g.records.items } };
}

/// The relocations of a section info.
fn records_of(alloc: Global, section_info: &SecInfo<'_>) -> Result<Vec<bpf_core_relo>, AllocError>
    ensures { IfOk result (λ records. records.items ≡ section_info.now.records) }
{
    let mut records = Vec::new(alloc);
    for number in 0..section_info.num_info() {
        if let Some(relocation) = section_info.get(number as usize) {
            records.push(relocation)?;
        }
    }
    Ok(records)
}

/// The section infos of an object.
pub(crate) fn section_infos_of(
    alloc: Global,
    extension: &BtfExt<'_>,
) -> Result<Vec<RelocationSectionInfo>, AllocError>
    ensures { IfOk result (λ section_infos. section_infos.items ≡ extension.now.relocations) }
{
    let mut section_infos = Vec::new(alloc);
    for section_info in extension.relocations() {
        let records = records_of(alloc, &section_info)?;
        section_infos.push(RelocationSectionInfo {
            name_offset: section_info.name_offset(),
            records,
        })?;
    }
    Ok(section_infos)
}

/// What a relocation asks for; nothing where its number stands for no kind.
fn type_relocation(relo: bpf_core_relo) -> Option<TypeRelocation> {
    let kind = RelocationKind::try_from(relo.kind).ok()?;
    Some(TypeRelocation {
        kind,
        type_id: relo.type_id,
        access_str_off: relo.access_str_off,
    })
}

/// Enters what the relocations of a section info ask for.
fn enter_asked(
    records: &[bpf_core_relo],
    asked: &mut Vec<TypeRelocation>,
) -> Result<(), AllocError> {
    for record in records {
        if let Some(relocation) = type_relocation(*record) {
            asked.push(relocation)?;
        }
    }
    Ok(())
}

/// What all relocations ask for; a kernel's tables are searched once for all of it.
pub(crate) fn asked_by(
    alloc: Global,
    section_infos: &[RelocationSectionInfo],
) -> Result<Vec<TypeRelocation>, AllocError> {
    let mut asked = Vec::new(alloc);
    for section_info in section_infos {
        enter_asked(section_info.records.as_slice(), &mut asked)?;
    }
    Ok(asked)
}
