//! What a slot refers to.

/// What a slot refers to.
#[derive(Clone, Copy, Debug, PartialEq, Eq)]
pub enum Target {
    /// The slot refers to no function.
    Nothing,
    /// The function that begins at an address of a section, if one does. The address is exact:
    /// an immediate may lead below 0 or past 64 bits.
    Function { section_index: usize, address: i128 },
    /// The relocation's symbol, with this index in the symbol table, can't stand for a function.
    UnknownSymbol { index: usize },
}
