//! The sections of an object that have functions.

ghost use Rattle.std.specs.Prelude.{◌≡◌, IfOk};
ghost use Rattle.ebpf_object.specs.TextSections.{AreTextSections, text_sections};

use object_parts::Functions;
use std::alloc::{AllocError, Global};
use std::collections::BTreeSet;

/// The indexes of the sections that some functions lie in.
pub(crate) fn text_sections(
    alloc: Global,
    functions: &Functions<'_>,
) -> Result<BTreeSet<usize>, AllocError>
    ensures value { IfOk result (λ sections. sections.keys ≡ text_sections functions.now) }
    ensures at { IfOk result (λ sections. AreTextSections functions.now sections.keys) }
{
    let mut sections = BTreeSet::new(alloc);
    for (key, _function) in functions.iter() {
        sections.insert(key.0)?;
    }
    Ok(sections)
}
