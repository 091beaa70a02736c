//! ELF files as eBPF objects: the sections that are read, with their names and kinds, the symbols
//! and the relocations by section, the license and the kernel version.
#![tactic(auto)]

mod file;
mod license;
mod offsets;
mod opened;
mod read;
mod reading;
mod relocations;
mod section_maps;
mod symbols;
mod version;

pub use file::ObjectFile;
pub use offsets::symbol_offsets;
pub use opened::{OpenedFile, unnamed_symbol};
pub use read::{ReadSection, ReadSymbol, last_named};
pub use section_maps::{section_indexes, section_sizes};
