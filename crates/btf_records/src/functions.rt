//! Functions and their prototypes.

ghost use Rattle.std.specs.Prelude.{◌≡◌, ◌<◌, false, length};
ghost use Rattle.btf_records.specs.Encodings.{func_linkage_of, number_of_func_linkage};
ghost use Rattle.btf_records.specs.Info.{flagged};

use crate::encoding::FuncLinkage;
use crate::info::InfoBits;
use crate::item::BtfParam;
use crate::items::Items;

/// A `BTF_KIND_FUNC`.
#[derive(Clone, Copy, Debug)]
pub struct Func {
    pub name_offset: u32,
    /// Bits 0 to 15 of its info word: the number of its linkage.
    pub vlen: u16,
    pub info: InfoBits,
    /// The id of its `BTF_KIND_FUNC_PROTO`.
    pub btf_type: u32,
}

impl Func {
    pub fn new(name_offset: u32, proto: u32, linkage: FuncLinkage) -> Func
        ensures { result
            ≡ record {
              name_offset = name_offset;
              vlen = number_of_func_linkage linkage;
              info = flagged false;
              btf_type = proto;
            } }
    {
        Func {
            name_offset,
            vlen: linkage as u16,
            info: InfoBits::flagged(false),
            btf_type: proto,
        }
    }

    pub fn linkage(&self) -> FuncLinkage
        ensures { result ≡ func_linkage_of self.now.vlen }
    {
        FuncLinkage::from(u32::from(self.vlen))
    }

    /// The same function with another linkage.
    pub fn with_linkage(self, linkage: FuncLinkage) -> Func
        ensures { result ≡ record self { vlen = number_of_func_linkage linkage } }
    {
        Func {
            vlen: linkage as u16,
            ..self
        }
    }
}

/// A `BTF_KIND_FUNC_PROTO`.
#[derive(Clone, Debug, Drop)]
pub struct FuncProto {
    pub name_offset: u32,
    pub info: InfoBits,
    /// The id of the type that it returns.
    pub return_type: u32,
    pub params: Items<BtfParam>,
}

impl FuncProto {
    /// A function prototype without a name.
    pub fn new(params: Vec<BtfParam>, return_type: u32) -> FuncProto
        requires { length params.items < 65536 }
        ensures { result
            ≡ record {
              name_offset = 0;
              info = flagged false;
              return_type = return_type;
              params = params.items;
            } }
    {
        FuncProto {
            name_offset: 0,
            info: InfoBits::flagged(false),
            return_type,
            params: Items::from_vec(params),
        }
    }
}
