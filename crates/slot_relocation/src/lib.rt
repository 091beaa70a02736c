//! The writes that relocations make into the slots of an object's functions.
//!
//! A pass makes the relocations inside each function in its order. Its rule says of each
//! relocation, given the slots after those before it, whether it is skipped, what it writes, or why
//! it is refused. The passes over the relocations that the file holds share
//! [`relocate_by_symbol`]; those for maps and externs are here.
#![tactic(auto)]

mod by_symbol;
mod driver;
mod errors;
mod extern_laws;
mod extern_rule;
mod laws;
mod map_index;
mod map_rule;
mod outcome;
mod rule;

pub use by_symbol::SymbolRule;
pub use errors::relocate_by_symbol;
pub use extern_laws::externs_are_written;
pub use extern_rule::{Resolution, relocate_externs};
pub use laws::{
    lengths_remain, numbers_are_written, one_writes, slots_carry_numbers, unwritten_stay,
    writes_are_kept,
};
pub use map_index::NumberedMap;
pub use map_rule::relocate_maps;
pub use outcome::{Fault, Outcome, Write, with_number};
