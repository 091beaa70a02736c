//! Type records of all kinds.

ghost use Rattle.std.specs.Prelude.{◌≡◌, IfOk};
ghost use Rattle.btf_records.specs.Fields.{kind_of_type, name_offset_of};

use crate::compound::{Array, Fwd, Struct, Union};
use crate::functions::{Func, FuncProto};
use crate::kind::BtfKind;
use crate::references::{Const, DeclTag, Ptr, Restrict, TypeTag, Typedef, Volatile};
use crate::scalars::{Enum, Enum64, Float, Int};
use crate::variables::{DataSec, Var};
use std::alloc::AllocError;

/// A type record.
#[derive(Clone, Debug, Drop)]
pub enum BtfType {
    /// `BTF_KIND_UNKN`, which is also the record of id 0, void.
    Unknown,
    Fwd(Fwd),
    Const(Const),
    Volatile(Volatile),
    Restrict(Restrict),
    Ptr(Ptr),
    Typedef(Typedef),
    Func(Func),
    Int(Int),
    Float(Float),
    Enum(Enum),
    Array(Array),
    Struct(Struct),
    Union(Union),
    FuncProto(FuncProto),
    Var(Var),
    DataSec(DataSec),
    DeclTag(DeclTag),
    TypeTag(TypeTag),
    Enum64(Enum64),
}

impl BtfType {
    pub fn kind(&self) -> BtfKind
        ensures { result ≡ kind_of_type self.now }
    {
        match self {
            BtfType::Unknown => BtfKind::Unknown,
            BtfType::Int(_) => BtfKind::Int,
            BtfType::Ptr(_) => BtfKind::Ptr,
            BtfType::Array(_) => BtfKind::Array,
            BtfType::Struct(_) => BtfKind::Struct,
            BtfType::Union(_) => BtfKind::Union,
            BtfType::Enum(_) => BtfKind::Enum,
            BtfType::Fwd(_) => BtfKind::Fwd,
            BtfType::Typedef(_) => BtfKind::Typedef,
            BtfType::Volatile(_) => BtfKind::Volatile,
            BtfType::Const(_) => BtfKind::Const,
            BtfType::Restrict(_) => BtfKind::Restrict,
            BtfType::Func(_) => BtfKind::Func,
            BtfType::FuncProto(_) => BtfKind::FuncProto,
            BtfType::Var(_) => BtfKind::Var,
            BtfType::DataSec(_) => BtfKind::DataSec,
            BtfType::Float(_) => BtfKind::Float,
            BtfType::DeclTag(_) => BtfKind::DeclTag,
            BtfType::TypeTag(_) => BtfKind::TypeTag,
            BtfType::Enum64(_) => BtfKind::Enum64,
        }
    }

    /// The offset of its name in the strings; 0 for a record without fields.
    pub fn name_offset(&self) -> u32
        ensures { result ≡ name_offset_of self.now }
    {
        match self {
            BtfType::Unknown => 0,
            BtfType::Int(t) => t.name_offset,
            BtfType::Ptr(t) => t.name_offset,
            BtfType::Array(t) => t.name_offset,
            BtfType::Struct(t) => t.name_offset,
            BtfType::Union(t) => t.name_offset,
            BtfType::Enum(t) => t.name_offset,
            BtfType::Fwd(t) => t.name_offset,
            BtfType::Typedef(t) => t.name_offset,
            BtfType::Volatile(t) => t.name_offset,
            BtfType::Const(t) => t.name_offset,
            BtfType::Restrict(t) => t.name_offset,
            BtfType::Func(t) => t.name_offset,
            BtfType::FuncProto(t) => t.name_offset,
            BtfType::Var(t) => t.name_offset,
            BtfType::DataSec(t) => t.name_offset,
            BtfType::Float(t) => t.name_offset,
            BtfType::DeclTag(t) => t.name_offset,
            BtfType::TypeTag(t) => t.name_offset,
            BtfType::Enum64(t) => t.name_offset,
        }
    }

    /// A record with the same content.
    pub fn try_clone(&self) -> Result<BtfType, AllocError>
        ensures { IfOk result (λ t. t ≡ self.now) }
    {
        self.clone()
    }
}
