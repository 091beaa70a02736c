//! The parts of a type table: its records and its strings, over the bytes of the section that they
//! were read from (Documentation/bpf/btf.rst, "BTF Type and String Encoding").
#![tactic(auto)]

mod byte_list;
mod ksyms;
mod new_record;
mod records;
mod strings;
mod types;

pub use ksyms::KsymsIds;
pub use records::{MOST, TypeRecords};
pub use strings::Strings;
pub use types::Types;
