//! The first record that the kernel refuses.

use crate::members::{has_members, has_parameters, has_variables, has_variants};
use crate::names::NameRule;
use btf_encoding::TypeRef;
use btf_records::{BtfKind, Int, VarLinkage};
use btf_tables::Btf;
use std::fmt;

/// Why the kernel refuses a record (`btf_check_all_metas` and `btf_check_all_types` of
/// `kernel/bpf/btf.c`, and "BTF Type Format" of the kernel's documentation).
#[derive(Clone, Copy, Debug, PartialEq, Eq)]
pub enum TypeFault {
    /// It has no name, or one that isn't an identifier. A section's name must have bytes that can be
    /// printed alone.
    Name,
    /// It has a name, and records of its kind have none.
    HasName,
    /// Its info word has a bit that records of its kind can't have.
    Info,
    /// It has no type, and records of its kind have one.
    NoType,
    /// The name of its member, variant or parameter of this index isn't an identifier.
    PartName(usize),
    /// Its member or variable of this index has no type.
    PartType(usize),
    /// Its size is one that records of its kind can't have.
    Size,
    /// Its member or variable of this index lies outside of it, or before the one in front.
    PartPlace(usize),
    /// The number of its linkage.
    Linkage(u32),
    /// The number of its encoding.
    Encoding(u32),
}

impl fmt::Display for TypeFault {
    fn fmt<W: fmt::Write>(&self, f: &mut fmt::Formatter<W>) -> fmt::Result {
        match self {
            TypeFault::Name => write!(f, "name isn't an identifier"),
            TypeFault::HasName => write!(f, "name where none can be"),
            TypeFault::Info => write!(f, "invalid info word"),
            TypeFault::NoType => write!(f, "no type"),
            TypeFault::PartType(index) => write!(f, "no type of part {index}"),
            TypeFault::PartName(index) => write!(f, "name of part {index} isn't an identifier"),
            TypeFault::Size => write!(f, "invalid size"),
            TypeFault::PartPlace(index) => write!(f, "invalid place of part {index}"),
            TypeFault::Linkage(number) => write!(f, "unsupported linkage {number}"),
            TypeFault::Encoding(number) => write!(f, "unsupported encoding {number}"),
        }
    }
}

/// A record that the kernel refuses.
#[derive(Clone, Copy, Debug, PartialEq, Eq)]
pub struct RefusedType {
    /// Its id.
    pub id: u32,
    pub kind: BtfKind,
    pub fault: TypeFault,
}

/// The rule for the name of a record.
fn name_rule(kind: BtfKind) -> NameRule {
    match kind {
        BtfKind::Unknown | BtfKind::Int | BtfKind::Float => NameRule::Any,
        BtfKind::Ptr
        | BtfKind::Array
        | BtfKind::Volatile
        | BtfKind::Const
        | BtfKind::Restrict
        | BtfKind::FuncProto => NameRule::Nameless,
        BtfKind::Struct | BtfKind::Union | BtfKind::Enum | BtfKind::Enum64 => {
            NameRule::OptionalIdentifier
        }
        BtfKind::Fwd | BtfKind::Typedef | BtfKind::Func | BtfKind::Var => NameRule::Identifier,
        BtfKind::DataSec => NameRule::Section,
        BtfKind::DeclTag | BtfKind::TypeTag => NameRule::Named,
    }
}

/// Whether the kernel takes the bits of an info word beside kind and count. Newer kernels let tags
/// have a flag.
fn has_valid_info(t: &TypeRef<'_>) -> bool {
    let info = t.info();
    let can_have_flag = matches!(
        t.kind(),
        BtfKind::Struct
            | BtfKind::Union
            | BtfKind::Fwd
            | BtfKind::Enum
            | BtfKind::Enum64
            | BtfKind::DeclTag
            | BtfKind::TypeTag
    );
    !info.bit_30 && !info.bit_29 && info.bits_16_to_23 == 0 && (can_have_flag || !info.flag)
}

/// Whether a record lacks the type that its kind has: an array that of its elements and that of its
/// indexes.
fn lacks_type(t: &TypeRef<'_>) -> bool {
    if let Some(array) = t.array() {
        return array.element_type == 0 || array.index_type == 0;
    }
    t.kind() == BtfKind::Var && t.btf_type() == Some(0)
}

/// Why the kernel refuses an integer. Its encoding is none, signed, character or boolean alone, and
/// its bits lie in its bytes.
fn int_fault(int: Int) -> Option<TypeFault> {
    let encoding = int.int_word >> 24;
    let end = (int.int_word >> 16) % 256 + int.int_word % 256;
    if !matches!(encoding, 0 | 1 | 2 | 4) {
        return Some(TypeFault::Encoding(encoding));
    }
    if end > 128 || end.div_ceil(8) > int.size {
        return Some(TypeFault::Size);
    }
    None
}

/// Why the kernel refuses the size of a record.
fn size_fault(t: &TypeRef<'_>) -> Option<TypeFault> {
    let size = t.size()?;
    let is_valid = match t.kind() {
        BtfKind::Enum | BtfKind::Enum64 => matches!(size, 1 | 2 | 4 | 8),
        BtfKind::Float => matches!(size, 2 | 4 | 8 | 12 | 16),
        BtfKind::DataSec => size != 0,
        _ => true,
    };
    if is_valid {
        None
    } else {
        Some(TypeFault::Size)
    }
}

/// Why the kernel refuses the linkage of a function or of a variable. Both are static or global.
fn linkage_fault(t: &TypeRef<'_>) -> Option<TypeFault> {
    if let Some(func) = t.func() {
        let number = u32::from(func.vlen);
        return if number > 1 {
            Some(TypeFault::Linkage(number))
        } else {
            None
        };
    }
    let var = t.var()?;
    match var.linkage {
        VarLinkage::Static | VarLinkage::Global => None,
        VarLinkage::Extern | VarLinkage::Unknown => {
            Some(TypeFault::Linkage(var.linkage.number()))
        }
    }
}

/// Why the kernel refuses the parts of a record.
fn part_fault(types: &Btf<'_>, t: &TypeRef<'_>) -> Option<TypeFault> {
    match t.kind() {
        BtfKind::Struct | BtfKind::Union => has_members(types, t),
        BtfKind::Enum | BtfKind::Enum64 => has_variants(types, t),
        BtfKind::FuncProto => has_parameters(types, t, NameRule::OptionalIdentifier),
        BtfKind::Func => {
            let proto = types.type_by_id(t.btf_type()?).ok()?;
            has_parameters(types, &proto, NameRule::Identifier)
        }
        BtfKind::DataSec => has_variables(t),
        _ => None,
    }
}

/// Why the kernel refuses a record.
fn fault_of(types: &Btf<'_>, t: &TypeRef<'_>) -> Option<TypeFault> {
    if !has_valid_info(t) {
        return Some(TypeFault::Info);
    }
    let rule = name_rule(t.kind());
    if !rule.is_met(types, t.name_offset()) {
        return Some(if rule == NameRule::Nameless {
            TypeFault::HasName
        } else {
            TypeFault::Name
        });
    }
    if lacks_type(t) {
        return Some(TypeFault::NoType);
    }
    if let Some(int) = t.int() {
        return int_fault(int);
    }
    size_fault(t)
        .or_else(|| linkage_fault(t))
        .or_else(|| part_fault(types, t))
}

/// The first record of types that every kernel refuses, and with it the types. Rules that some
/// kernels don't have, and references of records to each other, aren't judged.
pub fn refused_type(types: &Btf<'_>) -> Option<RefusedType> {
    let mut id = 0u32;
    for t in types.types() {
        if let Some(fault) = fault_of(types, &t) {
            let kind = t.kind();
            return Some(RefusedType { id, kind, fault });
        }
        id = id.saturating_add(1);
    }
    None
}
