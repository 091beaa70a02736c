//! The matches of a relocation, for messages.

use btf_tables::Btf;
use core_resolve::{Match, TypeRelocation, TypeRelocationError, kernel_matches};
use core_spec::local_path;
use std::alloc::{AllocError, Global};

/// The matches of a relocation in the kernel's types.
fn found_matches(
    local: &Btf<'_>,
    targets: &[Btf<'_>],
    asked: TypeRelocation,
) -> Result<Vec<Match>, TypeRelocationError> {
    let path = local_path(local, asked.kind, asked.type_id, asked.access_str_off)?;
    kernel_matches(asked.kind, local, &path, targets)
}

/// The matches of a relocation in the kernel's types; none where the search fails.
pub(crate) fn matches_of(
    alloc: Global,
    local: &Btf<'_>,
    targets: &[Btf<'_>],
    asked: TypeRelocation,
) -> Result<Vec<Match>, AllocError> {
    match found_matches(local, targets, asked) {
        Ok(matches) => Ok(matches),
        Err(TypeRelocationError::OutOfMemory) => Err(AllocError),
        Err(_) => Ok(Vec::new(alloc)),
    }
}
