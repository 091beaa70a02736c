//! Texts in a string table, each ended by a NUL (ELF-64 object file format, "String Table";
//! Documentation/bpf/btf.rst, "String Encoding").
#![tactic(auto)]

mod marked_bytes;
mod text;
mod text_starts;

pub use marked_bytes::MarkedBytes;
pub use text::{is_text_at, text_at};
pub use text_starts::are_texts;
