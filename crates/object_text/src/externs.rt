//! Externs.

use ebpf_object::{ExternDesc, Object};
use quoting::{Id, Number, Text};
use std::io;
use std::io::Write;

fn write_extern<W: Write>(desc: &ExternDesc<'_>, out: &mut W) -> io::Result<()> {
    writeln!(
        out,
        "extern {} declared {} weak {} resolved {} kernel-type {} address {} type {}",
        Text::of(desc.name),
        desc.btf_id,
        desc.is_weak,
        desc.is_resolved,
        Id(desc.kernel_btf_id),
        Number(desc.ksym_addr),
        Id(desc.type_id)
    )
}

/// Writes the externs, by name.
pub(crate) fn write_externs<W: Write>(object: &Object<'_>, out: &mut W) -> io::Result<()> {
    for (_name, desc) in object.externs().iter() {
        write_extern(desc, out)?;
    }
    Ok(())
}
