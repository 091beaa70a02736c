//! The records of section infos, under the kernel's names (`include/uapi/linux/bpf.h`).

ghost use Rattle.std.specs.Prelude.{◌≡◌, ◌++◌, ◌≤◌, ℕ, List, length, OnOk};
ghost use Rattle.btf_records.specs.Words.{words_bytes};
ghost use Rattle.btf_records.specs.declared.words.Endianness.{Endianness};
ghost use Rattle.btf_records.specs.declared.words.Endianness.TheVariants.{Little};
ghost use Rattle.btf_ext.specs.Records.{func_in, func_words, line_in, line_words, relocation_in, slot_at};

use btf_records::{Endianness, push_word, word};
use std::alloc::AllocError;

/// A function.
#[derive(Clone, Copy, Debug, PartialEq, Eq)]
pub struct bpf_func_info {
    /// The index of its first instruction, in slots of 8 bytes.
    pub insn_off: u32,
    /// The id of its `BTF_KIND_FUNC`.
    pub type_id: u32,
}

/// A line of a source file.
#[derive(Clone, Copy, Debug, PartialEq, Eq)]
pub struct bpf_line_info {
    /// The index of the first instruction that comes from it, in slots of 8 bytes.
    pub insn_off: u32,
    /// The offset of the file's name in the strings.
    pub file_name_off: u32,
    /// The offset of the line's text in the strings.
    pub line_off: u32,
    /// The line's number in the high 22 bits, and the column in the low 10.
    pub line_col: u32,
}

/// A type relocation.
#[derive(Clone, Copy, Debug, PartialEq, Eq)]
pub struct bpf_core_relo {
    /// The offset of the instruction in its section, in bytes.
    pub insn_off: u32,
    /// The id of the type that the access begins with.
    pub type_id: u32,
    /// The offset of the access string in the strings.
    pub access_str_off: u32,
    /// The number of the kind, 0 to 11.
    pub kind: u32,
}

/// The fields at the beginning of each record of a section info.
pub(crate) trait Record: Copy {
    ghost SIZE: { ℕ };

    ghost record_in: { Endianness → List ℕ → Self };

    /// The number of bytes that are read.
    const SIZE: usize;

    fn read(order: Endianness, bytes: &[u8]) -> Self
        requires { SIZE ≤ length bytes.now }
        ensures { result ≡ record_in order bytes.now };
}

/// The index in slots of 8 bytes of an instruction, from its offset in bytes at the beginning of a
/// record.
fn slot(order: Endianness, bytes: &[u8]) -> u32
    requires { 4 ≤ length bytes.now }
    ensures { result ≡ slot_at order bytes.now }
{
    word(order, bytes, 0) / 8
}

impl Record for bpf_func_info {
    ghost SIZE = { 8 };

    ghost record_in = { func_in };

    const SIZE: usize = 8;

    fn read(order: Endianness, bytes: &[u8]) -> bpf_func_info {
        bpf_func_info {
            insn_off: slot(order, bytes),
            type_id: word(order, bytes, 4),
        }
    }
}

impl Record for bpf_line_info {
    ghost SIZE = { 16 };

    ghost record_in = { line_in };

    const SIZE: usize = 16;

    fn read(order: Endianness, bytes: &[u8]) -> bpf_line_info {
        bpf_line_info {
            insn_off: slot(order, bytes),
            file_name_off: word(order, bytes, 4),
            line_off: word(order, bytes, 8),
            line_col: word(order, bytes, 12),
        }
    }
}

impl Record for bpf_core_relo {
    ghost SIZE = { 16 };

    ghost record_in = { relocation_in };

    const SIZE: usize = 16;

    fn read(order: Endianness, bytes: &[u8]) -> bpf_core_relo {
        bpf_core_relo {
            insn_off: word(order, bytes, 0),
            type_id: word(order, bytes, 4),
            access_str_off: word(order, bytes, 8),
            kind: word(order, bytes, 12),
        }
    }
}

impl bpf_func_info {
    /// Appends its words, little-endian.
    pub(crate) fn write(self, out: &mut Vec<u8>) -> Result<(), AllocError>
        ensures { OnOk result
            (out.new.items ≡ out.old.items ++ words_bytes Little (func_words self)) }
    {
        push_word(out, Endianness::Little, self.insn_off)?;
        push_word(out, Endianness::Little, self.type_id)
    }
}

impl bpf_line_info {
    /// Appends its words, little-endian.
    pub(crate) fn write(self, out: &mut Vec<u8>) -> Result<(), AllocError>
        ensures { OnOk result
            (out.new.items ≡ out.old.items ++ words_bytes Little (line_words self)) }
    {
        push_word(out, Endianness::Little, self.insn_off)?;
        push_word(out, Endianness::Little, self.file_name_off)?;
        push_word(out, Endianness::Little, self.line_off)?;
        push_word(out, Endianness::Little, self.line_col)
    }
}
