//! The programs and the functions of an object file: those of program sections, and those of
//! `.text` sections, which programs call.
#![tactic(auto)]

mod addresses;
mod code;
mod lacking_code;
mod program_sections;
mod section_info;
mod section_records;
mod sections;
mod slot_index;
mod text_sections;

pub use code::{code_of, function_name};
pub use lacking_code::{function_without_code, name_at};
pub use section_records::SectionRecords;
pub use sections::read_code;
