//! Views of records over their bytes.

ghost use Rattle.std.specs.Prelude.{◌≡◌, ◌<◌, IfOk, IfErr, OnOk, Option, Some, None, slice_get};
ghost use Rattle.std.specs.Option.{option_copied};
ghost use Rattle.btf_records.specs.Fields.{array_of, decl_tag_of, entries_of, fallback_of, func_of, int_of, kind_of_type, members_of, name_offset_of, params_of, size_of, type_of, var_of, variants_of, variants64_of};
ghost use Rattle.btf_encoding.specs.Records.{HasRecord, RecordFault, bits_of, count_of, type_in, with_fallback};

use crate::item::Item;
use crate::reading::{after, item, kind_of, read_type, record_len};
use btf_records::{
    BtfArray, BtfEnum, BtfEnum64, BtfError, BtfKind, BtfMember, BtfParam, BtfType, DataSecEntry,
    DeclTag, Endianness, Enum64Fallback, Func, InfoBits, Int, Union, Var, VarLinkage, word,
};
use std::alloc::{AllocError, Global};
use std::marker::Model;

/// A view of a type record over its bytes.
#[derive(Debug, Drop)]
pub struct TypeRef<'a> {
    pub(crate) order: Endianness,
    pub(crate) bytes: &'a [u8],
    fallback: Option<&'a Enum64Fallback>,
}

impl<'a> Model for TypeRef<'a> {
    ghost use Rattle.std.specs.Option.{option_copied};
    ghost use Rattle.btf_records.specs.declared.types.BtfType.{BtfType};
    ghost use Rattle.btf_encoding.specs.Records.{HasRecord, type_in, with_fallback};

    ghost Value = { BtfType };

    ghost view = { λ t. with_fallback (option_copied t.fallback) (type_in t.order t.bytes.now) };

    ghost invariant = { λ t. HasRecord t.order t.bytes.now };
}

/// The bytes of a `BTF_KIND_UNKN`.
const VOID: [u8; 12] = [0; 12];

impl<'a> TypeRef<'a> {
    /// The type of id 0, void.
    #[tactic(auto, unfolding(btf_records::specs::Words::word_at, btf_records::specs::Kinds::kind_of))]
    pub fn void() -> TypeRef<'a>
        ensures { result ≡ BtfType.Unknown }
    {
        TypeRef {
            order: Endianness::Little,
            bytes: &VOID,
            fallback: None,
        }
    }

    /// The record that the bytes begin with, where they are known to begin with one. Bytes after it
    /// are ignored.
    pub fn new(order: Endianness, bytes: &'a [u8]) -> TypeRef<'a>
        requires { HasRecord order bytes.now }
        ensures { result ≡ type_in order bytes.now }
    {
        TypeRef {
            order,
            bytes,
            fallback: None,
        }
    }

    /// The record that the bytes begin with. Bytes after it are ignored.
    ///
    /// `InvalidTypeInfo` where it is cut off, `InvalidTypeKind` where no record has its kind.
    pub fn read(order: Endianness, bytes: &'a [u8]) -> Result<TypeRef<'a>, BtfError>
        ensures value { IfOk result (λ t. t ≡ type_in order bytes.now) }
        ensures found { OnOk result (HasRecord order bytes.now) }
        ensures refused { IfErr result (RecordFault order bytes.now) }
    {
        let _len = record_len(order, bytes)?;
        Ok(TypeRef::new(order, bytes))
    }

    /// The same union, with the enum that it stands for; a record of another kind is unchanged.
    pub fn with_fallback(self, fallback: &'a Enum64Fallback) -> TypeRef<'a>
        ensures { result ≡ with_fallback (Some fallback.now) self.entry }
    {
        TypeRef {
            order: self.order,
            bytes: self.bytes,
            fallback: Some(fallback),
        }
    }

    pub fn kind(&self) -> BtfKind
        ensures { result ≡ kind_of_type self.now }
    {
        kind_of(self.order, self.bytes)
    }

    /// The offset of its name in the strings; 0 for a record without fields.
    pub fn name_offset(&self) -> u32
        ensures { result ≡ name_offset_of self.now }
    {
        match self.kind() {
            BtfKind::Unknown => 0,
            _ => word(self.order, self.bytes, 0),
        }
    }

    /// The bits of its info word that are neither its kind nor its count.
    pub fn info(&self) -> InfoBits
        ensures { result ≡ bits_of self.now }
    {
        match self.kind() {
            BtfKind::Unknown => InfoBits::flagged(false),
            _ => InfoBits::of_word(word(self.order, self.bytes, 4)),
        }
    }

    /// The documentation's `kind_flag`.
    pub fn flag(&self) -> bool
        ensures { result ≡ (bits_of self.now).flag }
    {
        self.info().flag
    }

    /// The count of its info word; for a kind with a list, the list's length.
    pub fn count(&self) -> usize
        ensures value { result ≡ count_of self.now }
        ensures bounded { result < 65536 }
    {
        usize::from(self.vlen())
    }

    fn vlen(&self) -> u16
        ensures { result ≡ count_of self.now }
    {
        match self.kind() {
            BtfKind::Unknown => 0,
            _ => (word(self.order, self.bytes, 4) % 0x1_0000) as u16,
        }
    }

    /// Its size in bytes, for the kinds with a size field.
    pub fn size(&self) -> Option<u32>
        ensures { result ≡ size_of self.now }
    {
        match self.kind() {
            BtfKind::Int
            | BtfKind::Struct
            | BtfKind::Union
            | BtfKind::Enum
            | BtfKind::DataSec
            | BtfKind::Float
            | BtfKind::Enum64 => Some(word(self.order, self.bytes, 8)),
            _ => None,
        }
    }

    /// The type id in its third word, for the kinds that have one there.
    pub fn btf_type(&self) -> Option<u32>
        ensures { result ≡ type_of self.now }
    {
        match self.kind() {
            BtfKind::Ptr
            | BtfKind::Typedef
            | BtfKind::Volatile
            | BtfKind::Const
            | BtfKind::Restrict
            | BtfKind::Func
            | BtfKind::FuncProto
            | BtfKind::Var
            | BtfKind::DeclTag
            | BtfKind::TypeTag => Some(word(self.order, self.bytes, 8)),
            _ => None,
        }
    }

    /// Member `index` of a struct or union.
    pub fn member(&self, index: usize) -> Option<BtfMember>
        ensures { result ≡ slice_get (members_of self.now) index }
    {
        match self.kind() {
            BtfKind::Struct | BtfKind::Union => item(self.order, self.bytes, index),
            _ => None,
        }
    }

    /// Variant `index` of an enum.
    pub fn variant(&self, index: usize) -> Option<BtfEnum>
        ensures { result ≡ slice_get (variants_of self.now) index }
    {
        match self.kind() {
            BtfKind::Enum => item(self.order, self.bytes, index),
            _ => None,
        }
    }

    /// Variant `index` of a 64-bit enum.
    pub fn variant64(&self, index: usize) -> Option<BtfEnum64>
        ensures { result ≡ slice_get (variants64_of self.now) index }
    {
        match self.kind() {
            BtfKind::Enum64 => item(self.order, self.bytes, index),
            _ => None,
        }
    }

    /// Parameter `index` of a function prototype.
    pub fn param(&self, index: usize) -> Option<BtfParam>
        ensures { result ≡ slice_get (params_of self.now) index }
    {
        match self.kind() {
            BtfKind::FuncProto => item(self.order, self.bytes, index),
            _ => None,
        }
    }

    /// Entry `index` of a section.
    pub fn entry(&self, index: usize) -> Option<DataSecEntry>
        ensures { result ≡ slice_get (entries_of self.now) index }
    {
        match self.kind() {
            BtfKind::DataSec => item(self.order, self.bytes, index),
            _ => None,
        }
    }

    /// An array's element, index and number of elements.
    pub fn array(&self) -> Option<BtfArray>
        ensures { result ≡ array_of self.now }
    {
        match self.kind() {
            BtfKind::Array => Some(BtfArray::read(self.order, after(self.bytes, 12))),
            _ => None,
        }
    }

    /// This record as an integer, if it is one.
    pub fn int(&self) -> Option<Int>
        ensures { result ≡ int_of self.now }
    {
        match self.kind() {
            BtfKind::Int => Some(Int {
                name_offset: word(self.order, self.bytes, 0),
                vlen: self.vlen(),
                info: self.info(),
                size: word(self.order, self.bytes, 8),
                int_word: word(self.order, self.bytes, 12),
            }),
            _ => None,
        }
    }

    /// This record as a function, if it is one.
    pub fn func(&self) -> Option<Func>
        ensures { result ≡ func_of self.now }
    {
        match self.kind() {
            BtfKind::Func => Some(Func {
                name_offset: word(self.order, self.bytes, 0),
                vlen: self.vlen(),
                info: self.info(),
                btf_type: word(self.order, self.bytes, 8),
            }),
            _ => None,
        }
    }

    /// This record as a variable, if it is one.
    pub fn var(&self) -> Option<Var>
        ensures { result ≡ var_of self.now }
    {
        match self.kind() {
            BtfKind::Var => Some(Var {
                name_offset: word(self.order, self.bytes, 0),
                vlen: self.vlen(),
                info: self.info(),
                btf_type: word(self.order, self.bytes, 8),
                linkage: VarLinkage::from(word(self.order, self.bytes, 12)),
            }),
            _ => None,
        }
    }

    /// This record as a declaration tag, if it is one.
    pub fn decl_tag(&self) -> Option<DeclTag>
        ensures { result ≡ decl_tag_of self.now }
    {
        match self.kind() {
            BtfKind::DeclTag => Some(DeclTag {
                name_offset: word(self.order, self.bytes, 0),
                vlen: self.vlen(),
                info: self.info(),
                btf_type: word(self.order, self.bytes, 8),
                index_word: word(self.order, self.bytes, 12),
            }),
            _ => None,
        }
    }

    /// The 64-bit enum that a union stands for.
    pub fn enum64_fallback(&self) -> Option<&'a Enum64Fallback>
        ensures { option_copied result ≡ fallback_of self.now }
    {
        match self.kind() {
            BtfKind::Union => self.fallback,
            _ => None,
        }
    }

    /// The record, copied out of its bytes.
    pub fn to_type(&self, alloc: Global) -> Result<BtfType, AllocError>
        ensures { IfOk result (λ t. t ≡ self.now) }
    {
        match (read_type(alloc, self.order, self.bytes)?, self.fallback) {
            (BtfType::Union(union), Some(fallback)) => Ok(BtfType::Union(Union {
                fallback: Some(fallback.clone()?),
                ..union
            })),
            (t, _) => Ok(t),
        }
    }
}
