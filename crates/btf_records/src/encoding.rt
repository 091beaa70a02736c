//! Linkages, and the encodings of integers.

ghost use Rattle.std.specs.Prelude.{◌≡◌};
ghost use Rattle.btf_records.specs.Encodings.{encoding_of, func_linkage_of, number_of_var_linkage, var_linkage_of};

/// The linkage of a `BTF_KIND_FUNC`, in the count bits of its info word.
#[derive(Clone, Copy, Debug, PartialEq, Eq)]
pub enum FuncLinkage {
    Static,
    Global,
    Extern,
    /// Any number above 2. A new function with this linkage is written with 3; a function that was
    /// read keeps its number.
    Unknown,
}

impl From<u32> for FuncLinkage {
    ghost from_gives = { λ n linkage. linkage ≡ func_linkage_of n };

    fn from(linkage: u32) -> FuncLinkage {
        match linkage {
            0 => FuncLinkage::Static,
            1 => FuncLinkage::Global,
            2 => FuncLinkage::Extern,
            _ => FuncLinkage::Unknown,
        }
    }
}

/// The linkage of a `BTF_KIND_VAR`, in the word after its type.
#[derive(Clone, Copy, Debug, PartialEq, Eq)]
pub enum VarLinkage {
    Static,
    Global,
    Extern,
    /// Any number above 2; written as 3.
    Unknown,
}

impl VarLinkage {
    /// The number of this linkage; 3 for an unknown one.
    pub fn number(self) -> u32
        ensures { result ≡ number_of_var_linkage self }
    {
        self as u32
    }
}

impl From<u32> for VarLinkage {
    ghost from_gives = { λ n linkage. linkage ≡ var_linkage_of n };

    fn from(linkage: u32) -> VarLinkage {
        match linkage {
            0 => VarLinkage::Static,
            1 => VarLinkage::Global,
            2 => VarLinkage::Extern,
            _ => VarLinkage::Unknown,
        }
    }
}

/// The encoding of a `BTF_KIND_INT`, bits 24 to 27 of the word after its size.
#[derive(Clone, Copy, Debug, PartialEq, Eq)]
pub enum IntEncoding {
    None,
    Signed,
    Char,
    Bool = 4,
    /// Any other number. A new integer with this encoding is written with 5; an integer that was
    /// read keeps its number.
    Unknown,
}

impl From<u32> for IntEncoding {
    ghost from_gives = { λ n encoding. encoding ≡ encoding_of n };

    fn from(encoding: u32) -> IntEncoding {
        match encoding {
            0 => IntEncoding::None,
            1 => IntEncoding::Signed,
            2 => IntEncoding::Char,
            4 => IntEncoding::Bool,
            _ => IntEncoding::Unknown,
        }
    }
}
