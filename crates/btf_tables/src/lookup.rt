//! Look-up of types, and their sizes.

ghost use Rattle.std.specs.Prelude.{◌≡◌, ◌≢◌, ◌*◌, true, false, ℕ, IfOk, IfErr, MatchOption, Ok, Some, None};
ghost use Rattle.std.specs.Option.{IsSomeAnd, option_map};
ghost use Rattle.btf_tables.specs.Agreement.{FoundAlike, IsReached, RestsOn, chain_ids, size_ids};
ghost use Rattle.btf_tables.specs.Holdings.{AreHeld};
ghost use Rattle.btf_tables.specs.ResolvedTypes.{IsEnd, resolved_type};
ghost use Rattle.btf_tables.specs.TypeSizes.{IsSize, own_size, sized_by, type_size, type_size_in_32_bits};
ghost use Rattle.btf_tables.specs.TypesByName.{IsFirstNamed, IsNotNamed, NameFault};
ghost use Rattle.btf_records.specs.Fields.{kind_of_type, name_offset_of};
ghost use Rattle.string_table.specs.Texts.{text_at};
ghost use Rattle.btf_records.specs.declared.error.BtfError.TheVariants.{InvalidStringOffset, OutOfMemory};

use crate::table::{Btf, MAX_DEPTH};
use btf_encoding::TypeRef;
use btf_records::{BtfError, BtfKind};

/// The size in bytes of a record that doesn't depend on another type.
fn own_size(t: &TypeRef<'_>) -> Option<u32>
    ensures { result ≡ own_size t.now }
{
    match t.kind() {
        BtfKind::Ptr => Some(8),
        _ => t.size(),
    }
}

/// The type that a size is a multiple of, and the factor.
#[derive(Clone, Copy)]
struct SizedBy {
    count: u32,
    type_id: u32,
}

/// The type that the size of a record depends on, if any.
fn sized_by(t: &TypeRef<'_>) -> Option<SizedBy>
    ensures { option_map (λ by. (by.count, by.type_id)) result ≡ sized_by t.now }
{
    match t.kind() {
        BtfKind::Ptr => None,
        BtfKind::Array => t.array().map(|array| SizedBy {
            count: array.len,
            type_id: array.element_type,
        }),
        _ => t.btf_type().map(|type_id| SizedBy { count: 1, type_id }),
    }
}

/// The product of a count and a size.
fn times(count: u32, size: u32) -> u64
    ensures { result ≡ count * size }
{
    u64::from(count) * u64::from(size)
}

impl<'a> Btf<'a> {
    /// The id at the end of a chain of `BTF_KIND_TYPEDEF`, `BTF_KIND_VOLATILE`, `BTF_KIND_CONST`,
    /// `BTF_KIND_RESTRICT` and `BTF_KIND_TYPE_TAG`.
    ///
    /// `UnknownBtfType` where a type of the chain is missing, `MaximumTypeDepthReached` where the
    /// chain, with its end, has more than 32 types.
    pub fn resolve_type(&self, type_id: u32) -> Result<u32, BtfError>
        ensures value { result ≡ resolved_type self.now type_id }
        ensures chain { IfOk result (λ end. IsEnd self.now type_id end) }
        ensures no_chain { IfErr result (λ _. (end : ℕ) → IsEnd self.now type_id end → ⊥) }
        ensures again { IfOk result (λ end. resolved_type self.now end ≡ Ok end) }
        ensures reached { IfOk result (λ end. IsReached chain_ids self.now type_id end) }
        ensures rests { RestsOn chain_ids self.now type_id (λ table. resolved_type table type_id) }
        ensures held { AreHeld chain_ids }
    {
        self.chain_end(type_id, type_id)
    }

    /// The size of a type in bytes.
    ///
    /// `UnexpectedBtfType` where the walk ends at a type without a size, `UnknownBtfType` where a
    /// type of the walk is missing, `MaximumTypeDepthReached` where the walk has more than 32
    /// types, `InvalidTypeInfo` where the lengths of the arrays so far multiply to 2^32 or more.
    #[tactic(auto, using(crate::proofs::Walks::no_size, crate::proofs::Walks::sized_walk))]
    pub fn type_size(&self, type_id: u32) -> Result<u64, BtfError>
        ensures value { result ≡ type_size self.now type_id }
        ensures walk { IfOk result (λ size. IsSize self.now type_id size) }
        ensures no_walk { IfErr result (λ _. (size : ℕ) → IsSize self.now type_id size → ⊥) }
        ensures rests { RestsOn size_ids self.now type_id (λ table. type_size table type_id) }
        ensures held { AreHeld size_ids }
    {
        self.walk_size(type_id)
    }

    /// The size at the end of the walk from a type.
    #[tactic(auto, using(crate::proofs::Chains::size_over, crate::proofs::Chains::size_unknown, crate::proofs::Chains::size_done, crate::proofs::Chains::size_none, crate::proofs::Chains::size_past, crate::proofs::Chains::size_more))]
    fn walk_size(&self, type_id: u32) -> Result<u64, BtfError>
        ensures { result ≡ type_size self.now type_id }
    {
        let mut count = 1;
        let mut id = type_id;
        for _ in 0..MAX_DEPTH {
            let t = self.type_by_id(id)?;
            if let Some(size) = own_size(&t) {
                return Ok(times(count, size));
            }
            let Some(by) = sized_by(&t) else {
                return Err(BtfError::UnexpectedBtfType { type_id: id });
            };
            let Some(product) = u32::checked_mul(count, by.count) else {
                return Err(BtfError::InvalidTypeInfo);
            };
            count = product;
            id = by.type_id;
        }
        Err(BtfError::MaximumTypeDepthReached { type_id })
    }

    /// The size of a type in bytes, as a 32-bit number.
    ///
    /// `InvalidTypeInfo` where it doesn't fit; otherwise the result of `type_size`.
    pub fn type_size_u32(&self, type_id: u32) -> Result<u32, BtfError>
        ensures value { result ≡ type_size_in_32_bits self.now type_id }
        ensures rests { RestsOn size_ids self.now type_id (λ table.
            type_size_in_32_bits table type_id) }
    {
        let size = self.type_size(type_id)?;
        match u32::try_from(size) {
            Ok(size) => Ok(size),
            Err(_) => Err(BtfError::InvalidTypeInfo),
        }
    }

    /// Whether a record has this kind and name.
    ///
    /// `InvalidStringOffset` where it has the kind and its name can't be read.
    fn is_named(&self, t: &TypeRef<'_>, name: &str, kind: BtfKind) -> Result<bool, BtfError>
        ensures named { IfOk result (λ found.
            found ≡ true
            → (kind_of_type t.now ≡ kind)
            × (text_at self.now.strings (name_offset_of t.now) ≡ Some name.now)) }
        ensures other { IfOk result (λ found.
            found ≡ false
            → kind_of_type t.now ≡ kind
            → IsSomeAnd (text_at self.now.strings (name_offset_of t.now)) (λ text.
            text ≢ name.now)) }
        ensures refused { IfErr result (λ e.
            (kind_of_type t.now ≡ kind)
            × (e ≡ InvalidStringOffset (name_offset_of t.now))
            × (text_at self.now.strings (name_offset_of t.now) ≡ None)) }
    {
        if t.kind() != kind {
            return Ok(false);
        }
        let offset = t.name_offset();
        match self.strings.text_at(offset) {
            Some(text) => Ok(text == name),
            None => Err(BtfError::InvalidStringOffset {
                offset: offset as usize,
            }),
        }
    }

    /// The least id of the types of this kind and name.
    ///
    /// `InvalidStringOffset` where the name of an earlier type of the kind can't be read,
    /// `UnknownBtfTypeName` where no type of the kind has the name.
    #[tactic(auto, using(crate::proofs::NamedAlike::found_alike))]
    pub fn id_by_type_name_kind(&self, name: &str, kind: BtfKind) -> Result<u32, BtfError>
        ensures found { IfOk result (λ id. IsFirstNamed self.now name.now kind id) }
        ensures rests { IfOk result (λ id. FoundAlike self.now name.now kind id) }
        ensures refused { IfErr result (λ e. e ≢ OutOfMemory → NameFault self.now name.now kind e) }
    {
        match self.first_named(name, kind)? {
            Some(id) => Ok(id),
            None => {
                let type_name = String::from_str(self.allocator(), name)?;
                Err(BtfError::UnknownBtfTypeName { type_name })
            }
        }
    }

    /// The least id of the types of this kind and name, if there is one.
    #[tactic(auto, using(crate::proofs::Named::fault_here, crate::proofs::Named::known_here, crate::proofs::Named::rest_here, crate::proofs::Named::none_more, crate::proofs::Named::none_left))]
    fn first_named(&self, name: &str, kind: BtfKind) -> Result<Option<u32>, BtfError>
        ensures found { IfOk result (λ found.
            MatchOption found ((id : ℕ) → IsNotNamed self.now name.now kind id) (λ id.
            IsFirstNamed self.now name.now kind id)) }
        ensures refused { IfErr result (NameFault self.now name.now kind) }
    {
        let mut id: usize = 0;
        for t in self.types() {
            if self.is_named(&t, name, kind)? {
                return Ok(Some(id as u32));
            }
            id += 1;
        }
        Ok(None)
    }
}
