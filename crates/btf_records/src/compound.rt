//! Arrays, structs and unions.

ghost use Rattle.std.specs.Prelude.{◌≡◌, ◌<◌, None, false, length};
ghost use Rattle.std.specs.Option.{option_copied};
ghost use Rattle.btf_records.specs.Info.{flagged};

use crate::info::InfoBits;
use crate::item::{BtfArray, BtfEnum64, BtfMember};
use crate::items::Items;

/// A `BTF_KIND_ARRAY`.
#[derive(Clone, Copy, Debug)]
pub struct Array {
    pub name_offset: u32,
    pub vlen: u16,
    pub info: InfoBits,
    pub array: BtfArray,
}

impl Array {
    pub fn new(name_offset: u32, element_type: u32, index_type: u32, len: u32) -> Array
        ensures { result
            ≡ record {
              name_offset = name_offset;
              vlen = 0;
              info = flagged false;
              array = record { element_type = element_type; index_type = index_type; len = len };
            } }
    {
        Array {
            name_offset,
            vlen: 0,
            info: InfoBits::flagged(false),
            array: BtfArray {
                element_type,
                index_type,
                len,
            },
        }
    }
}

/// A `BTF_KIND_STRUCT`; its flag says how members give their offset.
#[derive(Clone, Debug, Drop)]
pub struct Struct {
    pub name_offset: u32,
    pub info: InfoBits,
    pub size: u32,
    pub members: Items<BtfMember>,
}

impl Struct {
    pub fn new(name_offset: u32, members: Vec<BtfMember>, size: u32) -> Struct
        requires { length members.items < 65536 }
        ensures { result
            ≡ record {
              name_offset = name_offset;
              info = flagged false;
              size = size;
              members = members.items;
            } }
    {
        Struct {
            name_offset,
            info: InfoBits::flagged(false),
            size,
            members: Items::from_vec(members),
        }
    }
}

/// A `BTF_KIND_UNION`; its flag says how members give their offset.
#[derive(Clone, Debug, Drop)]
pub struct Union {
    pub name_offset: u32,
    pub info: InfoBits,
    pub size: u32,
    pub members: Items<BtfMember>,
    /// The 64-bit enum that this union stands for, if any; it isn't encoded.
    pub fallback: Option<Enum64Fallback>,
}

impl Union {
    pub fn new(name_offset: u32, members: Vec<BtfMember>, size: u32) -> Union
        requires { length members.items < 65536 }
        ensures { result
            ≡ record {
              name_offset = name_offset;
              info = flagged false;
              size = size;
              members = members.items;
              fallback = None;
            } }
    {
        Union {
            name_offset,
            info: InfoBits::flagged(false),
            size,
            members: Items::from_vec(members),
            fallback: None,
        }
    }

    /// The 64-bit enum that this union was before it was rewritten.
    pub fn enum64_fallback(&self) -> Option<&Enum64Fallback>
        ensures { option_copied result ≡ self.now.fallback }
    {
        self.fallback.as_ref()
    }
}

/// What a `BTF_KIND_ENUM64` was before it was rewritten as a union.
#[derive(Clone, Debug, Drop)]
pub struct Enum64Fallback {
    pub signed: bool,
    pub variants: Items<BtfEnum64>,
}

/// A `BTF_KIND_FWD`: a forward declaration of a struct, or of a union if the flag is set.
#[derive(Clone, Copy, Debug)]
pub struct Fwd {
    pub name_offset: u32,
    pub vlen: u16,
    pub info: InfoBits,
}

impl Fwd {
    /// A forward declaration of a struct.
    pub fn new(name_offset: u32) -> Fwd
        ensures { result ≡ record { name_offset = name_offset; vlen = 0; info = flagged false } }
    {
        Fwd {
            name_offset,
            vlen: 0,
            info: InfoBits::flagged(false),
        }
    }
}
