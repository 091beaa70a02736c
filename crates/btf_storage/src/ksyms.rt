//! Ids in a table with a section `.ksyms`, whose entries the kernel resolves by name.

/// The id of the section `.ksyms`, and the id of the placeholder variable that replaces functions
/// in it, if there is one.
pub type KsymsIds = (u32, Option<u32>);
