//! Links functions to the programs that call them.
//!
//! A kernel takes a program as one list of slots. So the functions that a program reaches are
//! copied after its own function, each once, depth first in the order in which slots refer to them.
//! The references then point to the copies.
#![tactic(auto)]

mod layout;
mod lengths;
mod linking;
mod order;
mod records;
mod reference;
mod source;
mod target;
mod writing;

pub use layout::{
    copies_are_few, layout_is_unique, lengths_add, linked_visits_same, order_laws, place_laws,
    reached_are_appended, renamed_visits_same, slots_are_copied, walk_laws,
};
pub use lengths::programs_are_short;
pub use linking::relocate_calls;
pub use reference::target_of;
pub use target::Target;
