//! What a program reads and writes: its arguments, the files that these name, the objects in them, and
//! its output.
#![tactic(auto)]

mod embedded;
mod error;
mod extraction;
mod files;
mod folders;
mod object_headers;
mod objects;
mod output;
mod symbol_files;
mod words;

pub use embedded::{EmbeddedObject, embedded_objects};
pub use error::InputError;
pub use extraction::{ExtractError, Extracted, extract_objects};
pub use files::{
    check_types_count, kernel_table, kernel_tables, lacks_magic, marked_table, open, read, read_all,
};
pub use folders::{NamedFiles, Wanted, files_in, is_folder, named_files};
pub use object_headers::begins_object;
pub use objects::{FileBytes, ObjectBytes, held_objects, objects_of};
pub use output::{Kept, Unwritten, print_text};
pub use symbol_files::{KernelSymbols, NamedSymbols};
pub use words::words_of;
