//! The type relocations of an object.

ghost use Rattle.std.specs.Prelude.{◌≡◌, IfOk};
ghost use Rattle.kernel_reports.specs.Reports.{relocations_in};

use crate::relocations::{RelocationAt, relocations_of};
use ebpf_object::Object;
use std::alloc::{AllocError, Global};

/// The type relocations of an object, section info by section info; none where it has no types or
/// no records of `.BTF.ext`.
///
/// # Errors
///
/// `AllocError` where memory runs out.
pub fn relocations_in(alloc: Global, object: &Object<'_>) -> Result<Vec<RelocationAt>, AllocError>
    ensures { IfOk result (λ list. list.items ≡ relocations_in object.now) }
{
    let Some(local) = object.btf() else {
        return Ok(Vec::new(alloc));
    };
    let Some(extension) = object.btf_ext() else {
        return Ok(Vec::new(alloc));
    };
    relocations_of(alloc, object.file(), object.functions(), local, extension)
}
