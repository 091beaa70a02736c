//! The maps of an object: legacy maps of sections `maps`, maps that BTF types define, and data
//! sections.
#![tactic(auto)]

mod btf_maps;
mod data_maps;
mod definition;
mod definitions;
mod entries;
mod last_symbols;
mod legacy;
mod legacy_maps;
mod lookup;
mod maps;
mod member;
mod members;
mod reading;

pub use definition::{BtfDefinition, MapVariable, map_variable};
pub use definitions::Definitions;
pub use last_symbols::LastSymbols;
pub use legacy::legacy_map_def;
pub use maps::Maps;
