//! The items in the lists of type records.

ghost use Rattle.std.specs.Prelude.{◌≡◌, ◌+◌, ◌*◌, ◌/◌, ◌%◌, ◌^◌};
ghost use Rattle.btf_records.specs.Items.{bit_offset_of, bit_size_of, value_of};

/// A member of a `BTF_KIND_STRUCT` or `BTF_KIND_UNION`.
#[derive(Clone, Copy, Debug)]
pub struct BtfMember {
    pub name_offset: u32,
    /// The id of its type.
    pub btf_type: u32,
    /// Its offset in bits; if the record's flag is set, bits 24 to 31 are the size of its bit
    /// field and bits 0 to 23 the offset.
    pub offset: u32,
}

impl BtfMember {
    /// Its offset in bits, given its record's flag.
    pub fn bit_offset(self, flag: bool) -> u32
        ensures { result ≡ bit_offset_of flag self }
    {
        if flag {
            self.offset % 0x100_0000
        } else {
            self.offset
        }
    }

    /// The size of its bit field in bits, given its record's flag; 0 if it isn't a bit field.
    pub fn bit_size(self, flag: bool) -> u32
        ensures { result ≡ bit_size_of flag self }
    {
        if flag { self.offset / 0x100_0000 } else { 0 }
    }
}

/// The element, the index and the number of elements of a `BTF_KIND_ARRAY`.
#[derive(Clone, Copy, Debug)]
pub struct BtfArray {
    pub element_type: u32,
    pub index_type: u32,
    pub len: u32,
}

/// A variant of a `BTF_KIND_ENUM`.
#[derive(Clone, Copy, Debug)]
pub struct BtfEnum {
    pub name_offset: u32,
    /// The value, signed if the record's flag is set.
    pub value: u32,
}

impl BtfEnum {
    pub fn new(name_offset: u32, value: u32) -> BtfEnum
        ensures { result ≡ record { name_offset = name_offset; value = value } }
    {
        BtfEnum { name_offset, value }
    }
}

/// A variant of a `BTF_KIND_ENUM64`.
#[derive(Clone, Copy, Debug)]
pub struct BtfEnum64 {
    pub name_offset: u32,
    /// Bits 0 to 31 of the value.
    pub value_low: u32,
    /// Bits 32 to 63 of the value.
    pub value_high: u32,
}

impl BtfEnum64 {
    pub fn new(name_offset: u32, value: u64) -> BtfEnum64
        ensures name { result.name_offset ≡ name_offset }
        ensures value { value_of result ≡ value }
    {
        BtfEnum64 {
            name_offset,
            value_low: (value % 0x1_0000_0000) as u32,
            value_high: (value / 0x1_0000_0000) as u32,
        }
    }

    /// The 64-bit value.
    pub fn value(self) -> u64
        ensures { result ≡ value_of self }
    {
        u64::from(self.value_high) * 0x1_0000_0000 + u64::from(self.value_low)
    }
}

/// A parameter of a `BTF_KIND_FUNC_PROTO`.
#[derive(Clone, Copy, Debug)]
pub struct BtfParam {
    pub name_offset: u32,
    pub btf_type: u32,
}

/// A variable of a `BTF_KIND_DATASEC`.
#[derive(Clone, Copy, Debug)]
pub struct DataSecEntry {
    /// The id of its `BTF_KIND_VAR`, or of a `BTF_KIND_FUNC`.
    pub btf_type: u32,
    /// Its offset in the section, in bytes.
    pub offset: u32,
    /// Its size in bytes.
    pub size: u32,
}
