//! Type relocations with their functions.

use core_patch::Patch;

/// A type relocation in a function, with what it gives to its instruction.
#[derive(Clone, Copy, Debug)]
pub struct PlacedRelocation {
    /// The function's key: its section's index and its address.
    pub key: (usize, u64),
    /// The instruction's offset in the section, in bytes.
    pub offset: u64,
    pub patch: Patch,
    /// The index of the kernel table of its first match in the list of tables, if it has one.
    pub table: Option<u32>,
}
