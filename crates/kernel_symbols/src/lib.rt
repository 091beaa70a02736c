//! The addresses of kernel symbols, read from a text in the format of /proc/kallsyms.
#![tactic(auto)]

mod blocks;
mod error;
mod line;
mod reading;
mod wanted;
mod wanted_names;
mod words;

pub use error::SymbolsError;
pub use reading::read_addresses;
pub use wanted::Addresses;
