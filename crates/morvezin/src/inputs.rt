//! What callers give.

/// A table of a kernel's types (BTF), and its byte order.
#[repr(C)]
pub struct Types<'t> {
    pub table: &'t [u8],
    pub is_big_endian: bool,
}

/// What a plan is made of.
#[repr(C)]
pub struct Inputs<'i> {
    /// The file of an object.
    pub object: &'i [u8],
    /// The tables of the kernel's types, in at most 2^32.
    pub types: &'i [Types<'i>],
    /// The text of `/proc/kallsyms`.
    pub symbols: &'i [u8],
    /// A TOML document.
    pub settings: &'i [u8],
    /// Whether types are rewritten before type relocations are resolved in them.
    pub rewrite_first: bool,
    /// Whether maps without a number get one.
    pub number_maps: bool,
}
