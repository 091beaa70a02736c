//! Items as bytes.

ghost use Rattle.std.specs.Prelude.{◌≡◌, ◌++◌, ◌<◌, ◌≤◌, ◌^◌, ℕ, List, All, length, take, OnOk, OnErr};
ghost use Rattle.btf_records.specs.Words.{words_bytes};
ghost use Rattle.btf_encoding.specs.Items.{array_in, array_words, entry_in, entry_words, enum64_in, enum64_words, member_in, member_words, param_in, param_words, variant_in, variant_words};
ghost use Rattle.btf_records.specs.declared.words.Endianness.{Endianness};

use btf_records::{
    BtfArray, BtfEnum, BtfEnum64, BtfMember, BtfParam, DataSecEntry, Endianness, push_word, word,
};
use std::alloc::AllocError;

/// A part of a record after its first three words that has a fixed number of words: an item of its
/// list, or its array.
pub(crate) trait Item: Copy {
    ghost SIZE: { ℕ };

    ghost item_in: { Endianness → List ℕ → Self };

    ghost words: { Self → List ℕ };

    /// The size of an item in bytes.
    const SIZE: usize;

    fn read(order: Endianness, bytes: &[u8]) -> Self
        requires { SIZE ≤ length bytes.now }
        ensures { result ≡ item_in order bytes.now };

    /// Appends the item.
    fn write(self, order: Endianness, out: &mut Vec<u8>) -> Result<(), AllocError>
        ensures ok { OnOk result (out.new.items ≡ out.old.items ++ words_bytes order (words self)) }
        ensures err { OnErr result (take (length out.old.items) out.new.items ≡ out.old.items) }
        ensures fits { All (λ w. w < 2 ^ 32) (words self) };
}

impl Item for BtfMember {
    ghost SIZE = { 12 };

    ghost item_in = { member_in };

    ghost words = { member_words };

    const SIZE: usize = 12;

    fn read(order: Endianness, bytes: &[u8]) -> BtfMember {
        BtfMember {
            name_offset: word(order, bytes, 0),
            btf_type: word(order, bytes, 4),
            offset: word(order, bytes, 8),
        }
    }

    fn write(self, order: Endianness, out: &mut Vec<u8>) -> Result<(), AllocError> {
        push_word(out, order, self.name_offset)?;
        push_word(out, order, self.btf_type)?;
        push_word(out, order, self.offset)
    }
}

impl Item for BtfEnum {
    ghost SIZE = { 8 };

    ghost item_in = { variant_in };

    ghost words = { variant_words };

    const SIZE: usize = 8;

    fn read(order: Endianness, bytes: &[u8]) -> BtfEnum {
        BtfEnum {
            name_offset: word(order, bytes, 0),
            value: word(order, bytes, 4),
        }
    }

    fn write(self, order: Endianness, out: &mut Vec<u8>) -> Result<(), AllocError> {
        push_word(out, order, self.name_offset)?;
        push_word(out, order, self.value)
    }
}

impl Item for BtfEnum64 {
    ghost SIZE = { 12 };

    ghost item_in = { enum64_in };

    ghost words = { enum64_words };

    const SIZE: usize = 12;

    fn read(order: Endianness, bytes: &[u8]) -> BtfEnum64 {
        BtfEnum64 {
            name_offset: word(order, bytes, 0),
            value_low: word(order, bytes, 4),
            value_high: word(order, bytes, 8),
        }
    }

    fn write(self, order: Endianness, out: &mut Vec<u8>) -> Result<(), AllocError> {
        push_word(out, order, self.name_offset)?;
        push_word(out, order, self.value_low)?;
        push_word(out, order, self.value_high)
    }
}

impl Item for BtfParam {
    ghost SIZE = { 8 };

    ghost item_in = { param_in };

    ghost words = { param_words };

    const SIZE: usize = 8;

    fn read(order: Endianness, bytes: &[u8]) -> BtfParam {
        BtfParam {
            name_offset: word(order, bytes, 0),
            btf_type: word(order, bytes, 4),
        }
    }

    fn write(self, order: Endianness, out: &mut Vec<u8>) -> Result<(), AllocError> {
        push_word(out, order, self.name_offset)?;
        push_word(out, order, self.btf_type)
    }
}

impl Item for DataSecEntry {
    ghost SIZE = { 12 };

    ghost item_in = { entry_in };

    ghost words = { entry_words };

    const SIZE: usize = 12;

    fn read(order: Endianness, bytes: &[u8]) -> DataSecEntry {
        DataSecEntry {
            btf_type: word(order, bytes, 0),
            offset: word(order, bytes, 4),
            size: word(order, bytes, 8),
        }
    }

    fn write(self, order: Endianness, out: &mut Vec<u8>) -> Result<(), AllocError> {
        push_word(out, order, self.btf_type)?;
        push_word(out, order, self.offset)?;
        push_word(out, order, self.size)
    }
}

impl Item for BtfArray {
    ghost SIZE = { 12 };

    ghost item_in = { array_in };

    ghost words = { array_words };

    const SIZE: usize = 12;

    fn read(order: Endianness, bytes: &[u8]) -> BtfArray {
        BtfArray {
            element_type: word(order, bytes, 0),
            index_type: word(order, bytes, 4),
            len: word(order, bytes, 8),
        }
    }

    fn write(self, order: Endianness, out: &mut Vec<u8>) -> Result<(), AllocError> {
        push_word(out, order, self.element_type)?;
        push_word(out, order, self.index_type)?;
        push_word(out, order, self.len)
    }
}
