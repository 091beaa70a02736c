//! Look-up of types by kind and name, without flavours. A search goes over a table once for many
//! names. It rules out nearly all other types by their kinds and by the first bytes of their names.
#![tactic(auto)]

mod found;
mod named_types;
mod prefixes;
mod search;

pub use named_types::NamedTypes;
