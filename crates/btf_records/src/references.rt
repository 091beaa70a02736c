//! Records that refer to one type.

ghost use Rattle.std.specs.Prelude.{◌≡◌, false};
ghost use Rattle.std.specs.Int.{w32, cast_signed, cast_unsigned};
ghost use Rattle.btf_records.specs.Info.{flagged};

use crate::info::InfoBits;

/// A `BTF_KIND_PTR`.
#[derive(Clone, Copy, Debug)]
pub struct Ptr {
    pub name_offset: u32,
    pub vlen: u16,
    pub info: InfoBits,
    /// The id of the type that it points to.
    pub btf_type: u32,
}

impl Ptr {
    pub fn new(name_offset: u32, btf_type: u32) -> Ptr
        ensures { result
            ≡ record
            { name_offset = name_offset; vlen = 0; info = flagged false; btf_type = btf_type } }
    {
        Ptr {
            name_offset,
            vlen: 0,
            info: InfoBits::flagged(false),
            btf_type,
        }
    }
}

/// A `BTF_KIND_TYPEDEF`.
#[derive(Clone, Copy, Debug)]
pub struct Typedef {
    pub name_offset: u32,
    pub vlen: u16,
    pub info: InfoBits,
    /// The id of the type that it names.
    pub btf_type: u32,
}

impl Typedef {
    pub fn new(name_offset: u32, id: u32) -> Typedef
        ensures { result
            ≡ record { name_offset = name_offset; vlen = 0; info = flagged false; btf_type = id } }
    {
        Typedef {
            name_offset,
            vlen: 0,
            info: InfoBits::flagged(false),
            btf_type: id,
        }
    }
}

/// A `BTF_KIND_VOLATILE`.
#[derive(Clone, Copy, Debug)]
pub struct Volatile {
    pub name_offset: u32,
    pub vlen: u16,
    pub info: InfoBits,
    /// The id of the type that it qualifies.
    pub btf_type: u32,
}

impl Volatile {
    /// A qualifier without a name.
    pub fn new(id: u32) -> Volatile
        ensures { result
            ≡ record { name_offset = 0; vlen = 0; info = flagged false; btf_type = id } }
    {
        Volatile {
            name_offset: 0,
            vlen: 0,
            info: InfoBits::flagged(false),
            btf_type: id,
        }
    }
}

/// A `BTF_KIND_CONST`.
#[derive(Clone, Copy, Debug)]
pub struct Const {
    pub name_offset: u32,
    pub vlen: u16,
    pub info: InfoBits,
    /// The id of the type that it qualifies.
    pub btf_type: u32,
}

impl Const {
    /// A qualifier without a name.
    pub fn new(id: u32) -> Const
        ensures { result
            ≡ record { name_offset = 0; vlen = 0; info = flagged false; btf_type = id } }
    {
        Const {
            name_offset: 0,
            vlen: 0,
            info: InfoBits::flagged(false),
            btf_type: id,
        }
    }
}

/// A `BTF_KIND_RESTRICT`.
#[derive(Clone, Copy, Debug)]
pub struct Restrict {
    pub name_offset: u32,
    pub vlen: u16,
    pub info: InfoBits,
    /// The id of the type that it qualifies.
    pub btf_type: u32,
}

impl Restrict {
    /// A qualifier without a name.
    pub fn new(id: u32) -> Restrict
        ensures { result
            ≡ record { name_offset = 0; vlen = 0; info = flagged false; btf_type = id } }
    {
        Restrict {
            name_offset: 0,
            vlen: 0,
            info: InfoBits::flagged(false),
            btf_type: id,
        }
    }
}

/// A `BTF_KIND_TYPE_TAG`.
#[derive(Clone, Copy, Debug)]
pub struct TypeTag {
    pub name_offset: u32,
    pub vlen: u16,
    pub info: InfoBits,
    /// The id of the type that it tags.
    pub btf_type: u32,
}

impl TypeTag {
    pub fn new(name_offset: u32, btf_type: u32) -> TypeTag
        ensures { result
            ≡ record
            { name_offset = name_offset; vlen = 0; info = flagged false; btf_type = btf_type } }
    {
        TypeTag {
            name_offset,
            vlen: 0,
            info: InfoBits::flagged(false),
            btf_type,
        }
    }
}

/// A `BTF_KIND_DECL_TAG`.
#[derive(Clone, Copy, Debug)]
pub struct DeclTag {
    pub name_offset: u32,
    pub vlen: u16,
    pub info: InfoBits,
    /// The id of the record that it tags.
    pub btf_type: u32,
    /// The word after its type: the member or parameter that it tags, from 0, or -1 for the whole.
    pub index_word: u32,
}

impl DeclTag {
    pub fn new(name_offset: u32, btf_type: u32, component_index: i32) -> DeclTag
        ensures { result
            ≡ record {
              name_offset = name_offset;
              vlen = 0;
              info = flagged false;
              btf_type = btf_type;
              index_word = cast_unsigned w32 component_index;
            } }
    {
        DeclTag {
            name_offset,
            vlen: 0,
            info: InfoBits::flagged(false),
            btf_type,
            index_word: component_index.cast_unsigned(),
        }
    }

    /// The member or parameter that it tags, from 0, or -1 for the whole.
    pub fn component_index(&self) -> i32
        ensures { result ≡ cast_signed w32 self.now.index_word }
    {
        self.index_word.cast_signed()
    }
}
