//! Integers, floats and enums.

ghost use Rattle.std.specs.Prelude.{◌≡◌, ◌*◌, ◌<◌, false, length};
ghost use Rattle.btf_records.specs.Encodings.{encoding_of, number_of_encoding};
ghost use Rattle.btf_records.specs.Info.{bit_count_in, encoding_in, flagged, int_word_of, offset_in};

use crate::encoding::IntEncoding;
use crate::info::InfoBits;
use crate::item::{BtfEnum, BtfEnum64};
use crate::items::Items;

/// A `BTF_KIND_INT`.
#[derive(Clone, Copy, Debug)]
pub struct Int {
    pub name_offset: u32,
    pub vlen: u16,
    pub info: InfoBits,
    pub size: u32,
    /// The word after the size: encoding in bits 24 to 27, offset in bits 16 to 23, number of bits
    /// in bits 0 to 7.
    pub int_word: u32,
}

impl Int {
    /// An integer whose word holds its encoding, its offset, and 8 times its size modulo 256 as its
    /// number of bits.
    pub fn new(name_offset: u32, size: u32, encoding: IntEncoding, offset: u32) -> Int
        ensures { result
            ≡ record {
              name_offset = name_offset;
              vlen = 0;
              info = flagged false;
              size = size;
              int_word = int_word_of (number_of_encoding encoding) offset (8 * size);
            } }
    {
        let bits = size % 32 * 8;
        Int {
            name_offset,
            vlen: 0,
            info: InfoBits::flagged(false),
            size,
            int_word: encoding as u32 * 0x100_0000 + offset % 256 * 0x1_0000 + bits,
        }
    }

    pub fn encoding(&self) -> IntEncoding
        ensures { result ≡ encoding_of (encoding_in self.now.int_word) }
    {
        IntEncoding::from(self.int_word / 0x100_0000 % 16)
    }

    /// The offset of its first bit.
    pub fn offset(&self) -> u32
        ensures { result ≡ offset_in self.now.int_word }
    {
        self.int_word / 0x1_0000 % 256
    }

    /// The number of its bits.
    pub fn bits(&self) -> u32
        ensures { result ≡ bit_count_in self.now.int_word }
    {
        self.int_word % 256
    }
}

/// A `BTF_KIND_FLOAT`.
#[derive(Clone, Copy, Debug)]
pub struct Float {
    pub name_offset: u32,
    pub vlen: u16,
    pub info: InfoBits,
    pub size: u32,
}

impl Float {
    pub fn new(name_offset: u32, size: u32) -> Float
        ensures { result
            ≡ record { name_offset = name_offset; vlen = 0; info = flagged false; size = size } }
    {
        Float {
            name_offset,
            vlen: 0,
            info: InfoBits::flagged(false),
            size,
        }
    }
}

/// A `BTF_KIND_ENUM`, signed if the flag is set.
#[derive(Clone, Debug, Drop)]
pub struct Enum {
    pub name_offset: u32,
    pub info: InfoBits,
    pub size: u32,
    pub variants: Items<BtfEnum>,
}

impl Enum {
    /// An enum of 4 bytes.
    pub fn new(name_offset: u32, signed: bool, variants: Vec<BtfEnum>) -> Enum
        requires { length variants.items < 65536 }
        ensures { result
            ≡ record {
              name_offset = name_offset;
              info = flagged signed;
              size = 4;
              variants = variants.items;
            } }
    {
        Enum {
            name_offset,
            info: InfoBits::flagged(signed),
            size: 4,
            variants: Items::from_vec(variants),
        }
    }
}

/// A `BTF_KIND_ENUM64`, signed if the flag is set.
#[derive(Clone, Debug, Drop)]
pub struct Enum64 {
    pub name_offset: u32,
    pub info: InfoBits,
    pub size: u32,
    pub variants: Items<BtfEnum64>,
}

impl Enum64 {
    /// An enum of 8 bytes.
    pub fn new(name_offset: u32, signed: bool, variants: Vec<BtfEnum64>) -> Enum64
        requires { length variants.items < 65536 }
        ensures { result
            ≡ record {
              name_offset = name_offset;
              info = flagged signed;
              size = 8;
              variants = variants.items;
            } }
    {
        Enum64 {
            name_offset,
            info: InfoBits::flagged(signed),
            size: 8,
            variants: Items::from_vec(variants),
        }
    }
}
