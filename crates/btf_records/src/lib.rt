//! Records of the BPF Type Format (BTF), as the kernel's BTF documentation lists them
//! (Documentation/bpf/btf.rst, "Type Encoding"), and the words that they are made of.
//!
//! In each record `name_offset` is the offset of its name in the strings, and `size` its size in
//! bytes. `vlen` is bits 0 to 15 of the info word of a kind without a list, which only functions
//! use.
#![tactic(auto)]

mod compound;
mod encoding;
mod error;
mod feature;
mod functions;
mod info;
mod item;
mod items;
mod kind;
mod references;
mod scalars;
mod types;
mod variables;
mod words;

pub use compound::{Array, Enum64Fallback, Fwd, Struct, Union};
pub use encoding::{FuncLinkage, IntEncoding, VarLinkage};
pub use error::BtfError;
pub use feature::BtfFeature;
pub use functions::{Func, FuncProto};
pub use info::InfoBits;
pub use item::{BtfArray, BtfEnum, BtfEnum64, BtfMember, BtfParam, DataSecEntry};
pub use items::Items;
pub use kind::BtfKind;
pub use references::{Const, DeclTag, Ptr, Restrict, TypeTag, Typedef, Volatile};
pub use scalars::{Enum, Enum64, Float, Int};
pub use types::BtfType;
pub use variables::{DataSec, Var};
pub use words::{Endianness, push_word, word};
