//! Views of an ELF64 object file, by the System V ABI's ELF-64 object file format.
#![tactic(auto)]

mod error;
mod file;
mod header;
mod kind;
mod order;
mod relocation;
mod relocation_section;
mod section;
mod symbol;
mod table;

pub use error::ElfError;
pub use file::ElfFile;
pub use kind::SymbolKind;
pub use order::ByteOrder;
pub use relocation::RelocView;
pub use relocation_section::{RelocationSectionView, RelocationSections, Relocations};
pub use section::{SectionView, Sections};
pub use symbol::{SymbolView, Symbols};
