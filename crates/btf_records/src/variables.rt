//! Variables and their sections.

ghost use Rattle.std.specs.Prelude.{◌≡◌, ◌<◌, false, length};
ghost use Rattle.btf_records.specs.Info.{flagged};

use crate::encoding::VarLinkage;
use crate::info::InfoBits;
use crate::item::DataSecEntry;
use crate::items::Items;

/// A `BTF_KIND_VAR`.
#[derive(Clone, Copy, Debug)]
pub struct Var {
    pub name_offset: u32,
    pub vlen: u16,
    pub info: InfoBits,
    /// The id of its type.
    pub btf_type: u32,
    pub linkage: VarLinkage,
}

impl Var {
    pub fn new(name_offset: u32, btf_type: u32, linkage: VarLinkage) -> Var
        ensures { result
            ≡ record {
              name_offset = name_offset;
              vlen = 0;
              info = flagged false;
              btf_type = btf_type;
              linkage = linkage;
            } }
    {
        Var {
            name_offset,
            vlen: 0,
            info: InfoBits::flagged(false),
            btf_type,
            linkage,
        }
    }
}

/// A `BTF_KIND_DATASEC`.
#[derive(Clone, Debug, Drop)]
pub struct DataSec {
    pub name_offset: u32,
    pub info: InfoBits,
    pub size: u32,
    pub entries: Items<DataSecEntry>,
}

impl DataSec {
    pub fn new(name_offset: u32, entries: Vec<DataSecEntry>, size: u32) -> DataSec
        requires { length entries.items < 65536 }
        ensures { result
            ≡ record {
              name_offset = name_offset;
              info = flagged false;
              size = size;
              entries = entries.items;
            } }
    {
        DataSec {
            name_offset,
            info: InfoBits::flagged(false),
            size,
            entries: Items::from_vec(entries),
        }
    }
}
