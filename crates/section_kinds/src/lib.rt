//! Kinds of an object's sections, by their names.
#![tactic(auto)]

pub mod section_kind;

pub use section_kind::EbpfSectionKind;
