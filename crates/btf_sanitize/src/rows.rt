//! The rewriting of a record, by its kind.

ghost use Rattle.std.specs.Prelude.{◌≡◌, ◌≢◌, ◌⊎◌, IfErr, IfOk, OnOk, Some, false, map, true};
ghost use Rattle.btf_records.specs.Info.{flagged};
ghost use Rattle.btf_records.specs.declared.error.BtfError.TheVariants.{OutOfMemory};
ghost use Rattle.btf_records.specs.declared.types.BtfType.TheVariants as types;
ghost use Rattle.btf_sanitize.specs.Faults.{IsTooMuch, KindFault};
ghost use Rattle.btf_sanitize.specs.Knowledge.{facts_of};
ghost use Rattle.btf_sanitize.specs.Rewritten.{after, after_enum64, after_func_proto, is_alone, member_of_variant, rewritten, rewritten_enum64, rewritten_func, rewritten_func_proto, variant_of_param};
ghost use Rattle.btf_storage.specs.Faultless.{IsFaultless};

use crate::additions::{Additions, small_int};
use crate::func_proto::named_params;
use crate::items::{members_of_variants, variants_of_params};
use crate::known::Known;
use crate::names::is_memory_function;
use crate::section::rewritten_section;
use btf_records::{
    BtfError, BtfFeature, BtfType, Const, Enum, Enum64, Enum64Fallback, Func, FuncLinkage,
    FuncProto, InfoBits, Items, Ptr, Struct, Typedef, Union,
};
use std::alloc::{AllocError, Global};

/// The number of global linkage.
const GLOBAL: u16 = 1;

/// The rewritten record of a `BTF_KIND_FUNC`.
pub(crate) fn rewritten_func(known: &Known<'_, '_, '_>, t: Func) -> Result<BtfType, BtfError>
    ensures value { IfOk result (λ r. r ≡ rewritten_func (facts_of known.now) t) }
    ensures refused { IfErr result (KindFault (facts_of known.now) (types.Func t)) }
    ensures accepted { OnOk result (IsFaultless (KindFault (facts_of known.now) (types.Func t))) }
{
    if !known.grants(BtfFeature::Func) {
        return Ok(BtfType::Typedef(Typedef::new(t.name_offset, t.btf_type)));
    }
    if t.vlen != GLOBAL {
        return Ok(BtfType::Func(t));
    }
    let name = known.name_at(t.name_offset)?;
    if !is_memory_function(name) && known.grants(BtfFeature::FuncGlobal) {
        return Ok(BtfType::Func(t));
    }
    Ok(BtfType::Func(t.with_linkage(FuncLinkage::Static)))
}

/// The enum that replaces a `BTF_KIND_FUNC_PROTO` where the kernel doesn't support that kind.
pub(crate) fn enum_of_func_proto(alloc: Global, t: &FuncProto) -> Result<Enum, AllocError>
    ensures { IfOk result (λ r.
        r
        ≡ record {
          name_offset = t.now.name_offset;
          info = flagged false;
          size = 4;
          variants = map variant_of_param t.now.params;
        }) }
{
    let variants = variants_of_params(alloc, t.params.as_slice())?;
    Ok(Enum::new(t.name_offset, false, variants))
}

/// The union that replaces a `BTF_KIND_ENUM64` where the kernel doesn't support that kind. Its
/// members have the placeholder's type. It keeps the enum as its fallback.
pub(crate) fn union_of_enum64(
    alloc: Global,
    placeholder: u32,
    t: Enum64,
) -> Result<Union, AllocError>
    ensures { IfOk result (λ r.
        r
        ≡ record {
          name_offset = t.name_offset;
          info = flagged false;
          size = t.size;
          members = map (member_of_variant placeholder) t.variants;
          fallback = Some (record { signed = t.info.flag; variants = t.variants });
        }) }
{
    let members = members_of_variants(alloc, placeholder, t.variants.as_slice())?;
    Ok(Union {
        fallback: Some(Enum64Fallback {
            signed: t.info.flag,
            variants: t.variants,
        }),
        ..Union::new(t.name_offset, members, t.size)
    })
}

/// The rewritten record of a `BTF_KIND_FUNC_PROTO`.
fn rewritten_func_proto(
    alloc: Global,
    known: &Known<'_, '_, '_>,
    additions: &mut Additions,
    t: FuncProto,
) -> Result<BtfType, BtfError>
    ensures value { IfOk result (λ r.
        r ≡ rewritten_func_proto (facts_of known.now) additions.old t) }
    ensures added { OnOk result
        (additions.new ≡ after_func_proto (facts_of known.now) additions.old t) }
    ensures refused { IfErr result (λ e.
        e ≢ OutOfMemory → IsTooMuch (after_func_proto (facts_of known.now) additions.old t) e) }
{
    if !known.grants(BtfFeature::Func) {
        return Ok(BtfType::Enum(enum_of_func_proto(alloc, &t)?));
    }
    let params = named_params(alloc, additions, t.params.as_slice())?;
    Ok(BtfType::FuncProto(FuncProto {
        params: Items::from_vec(params),
        ..t
    }))
}

/// The rewritten record of a `BTF_KIND_ENUM64`.
fn rewritten_enum64(
    alloc: Global,
    known: &Known<'_, '_, '_>,
    additions: &mut Additions,
    t: Enum64,
) -> Result<BtfType, BtfError>
    ensures value { IfOk result (λ r. r ≡ rewritten_enum64 (facts_of known.now) additions.old t) }
    ensures added { OnOk result (additions.new ≡ after_enum64 (facts_of known.now) additions.old) }
    ensures refused { IfErr result (λ e.
        e ≢ OutOfMemory → IsTooMuch (after_enum64 (facts_of known.now) additions.old) e) }
{
    if known.grants(BtfFeature::Enum64) {
        return Ok(BtfType::Enum64(t));
    }
    let placeholder = additions.placeholder()?;
    Ok(BtfType::Union(union_of_enum64(alloc, placeholder, t)?))
}

/// The rewritten record, for the kinds whose rewriting needs neither the name nor other records.
fn rewritten_alone(known: &Known<'_, '_, '_>, additions: &Additions, t: BtfType) -> BtfType
    requires { is_alone t ≡ true }
    ensures value { result ≡ rewritten (facts_of known.now) additions.now t }
    ensures added { after (facts_of known.now) additions.now t ≡ additions.now }
    ensures faultless { IsFaultless (KindFault (facts_of known.now) t) }
{
    match t {
        BtfType::Ptr(t) => BtfType::Ptr(Ptr {
            name_offset: 0,
            ..t
        }),
        BtfType::Var(t) if !known.grants(BtfFeature::DataSec) => small_int(t.name_offset),
        BtfType::Float(t) if !known.grants(BtfFeature::Float) => {
            BtfType::Struct(Struct::new(0, Vec::new(additions.alloc()), t.size))
        }
        BtfType::DeclTag(t) if !known.grants(BtfFeature::DeclTag) => small_int(t.name_offset),
        BtfType::TypeTag(t) if !known.grants(BtfFeature::TypeTag) => {
            BtfType::Const(Const::new(t.btf_type))
        }
        BtfType::Enum(t) if !known.grants(BtfFeature::Enum64) => BtfType::Enum(Enum {
            info: InfoBits {
                flag: false,
                ..t.info
            },
            ..t
        }),
        t => t,
    }
}

/// The rewritten record, with `additions` for the records before it.
///
/// `InvalidStringOffset` where a needed name can't be read, `UnknownBtfType` where an entry of a
/// section names no type, `InvalidDatasec` where it names no variable or its offset is too great,
/// `UnknownSectionSize` and `SymbolOffsetNotFound` where a section lacks a size or an offset that
/// the object doesn't give, `InvalidTypeInfo` where the additions overflow 32 bits.
pub fn rewritten(
    alloc: Global,
    known: &Known<'_, '_, '_>,
    additions: &mut Additions,
    t: BtfType,
) -> Result<BtfType, BtfError>
    ensures value { IfOk result (λ r. r ≡ rewritten (facts_of known.now) additions.old t) }
    ensures added { OnOk result (additions.new ≡ after (facts_of known.now) additions.old t) }
    ensures refused { IfErr result (λ e.
        e ≢ OutOfMemory
        → KindFault (facts_of known.now) t e
        ⊎ IsTooMuch (after (facts_of known.now) additions.old t) e) }
    ensures accepted { OnOk result (IsFaultless (KindFault (facts_of known.now) t)) }
{
    match t {
        BtfType::DataSec(t) => rewritten_section(alloc, known, additions, t),
        BtfType::Func(t) => rewritten_func(known, t),
        BtfType::FuncProto(t) => rewritten_func_proto(alloc, known, additions, t),
        BtfType::Enum64(t) => rewritten_enum64(alloc, known, additions, t),
        t => Ok(rewritten_alone(known, additions, t)),
    }
}
