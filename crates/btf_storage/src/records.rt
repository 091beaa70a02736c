//! The records of a table over their bytes.

ghost use Rattle.std.specs.Prelude.{◌≡◌, ◌≢◌, ◌<◌, ◌≤◌, ◌+◌, ◌^◌, ◌∷◌, ◌++◌, ◌⊎◌, [], All, IfErr, IfOk, IfSome, OnOk, OnErr, None, Some, drop, slice_get, length, map, take};
ghost use Rattle.std.specs.List.{flat_map};
ghost use Rattle.std.specs.Option.{option_copied, option_map_or};
ghost use Rattle.btf_records.specs.Fields.{fallback_of};
ghost use Rattle.btf_encoding.specs.Records.{HasRecord, ReadsBack, ReadsSame, Spells, TypesFault, record_bytes, type_in, with_fallback, without_fallback};
ghost use Rattle.btf_records.specs.declared.error.BtfError.TheVariants.{InvalidTypeInfo, OutOfMemory};
ghost use Rattle.btf_storage.specs.Growth.{TooMany};
ghost use Rattle.btf_storage.specs.NewRecords.{record_of};
ghost use Rattle.btf_storage.specs.Layout.{Entered, fallback_at, types_at};

use crate::byte_list::ByteList;
use crate::new_record::NewRecord;
use btf_encoding::{TypeRef, after, push_types, record_len};
use btf_records::{BtfError, BtfType, Endianness, Enum64Fallback};
use std::alloc::{AllocError, Global};
use std::collections::BTreeMap;
use std::marker::Model;

/// The records of the ids from 1 on, in order.
#[derive(Debug)]
pub struct TypeRecords<'a> {
    order: Endianness,
    bytes: ByteList<'a>,
    /// The offset of the record of each id.
    places: Vec<u32>,
    /// The enums that unions stand for, by id.
    fallbacks: BTreeMap<u32, Enum64Fallback>,
}

impl<'a> Drop for TypeRecords<'a> {
    // A single call where a value is dropped, instead of one call per field.
    fn drop(self) {
        let TypeRecords {
            order: _,
            bytes: _bytes,
            places: _places,
            fallbacks: _fallbacks,
        } = self;
    }
}

impl<'a> Model for TypeRecords<'a> {
    ghost use Rattle.btf_storage.specs.Layout.{IsLaidOut, RecordList, types_at};

    ghost Value = { RecordList };

    ghost view = { λ t.
        record {
          order = t.order;
          types = types_at t.order t.bytes t.fallbacks.entries 1 t.places.items;
        } };

    ghost invariant = { λ t. IsLaidOut t.order t.bytes t.fallbacks.entries t.places.items };
}

/// The enum that the union of an id stands for.
fn fallback_by_id(fallbacks: &BTreeMap<u32, Enum64Fallback>, id: u32) -> Option<&Enum64Fallback>
    ensures { option_copied result ≡ fallback_at fallbacks.now.entries id }
{
    fallbacks.get(&id)
}

/// The greatest number of bytes, and of types, that fits in 32 bits.
pub const MOST: usize = u32::MAX as usize;

/// Enters the enum that the record of an id stands for, if there is one.
fn enter_fallback(
    fallbacks: &mut BTreeMap<u32, Enum64Fallback>,
    id: u32,
    t: NewRecord<'_>,
) -> Result<(), AllocError>
    requires { fallback_at fallbacks.old.entries id ≡ None }
    ensures ok { OnOk result
        (Entered fallbacks.old.entries fallbacks.new.entries id (fallback_of (record_of t.entry))) }
    ensures err { OnErr result (fallbacks.new.entries ≡ fallbacks.old.entries) }
{
    let Some(fallback) = t.into_fallback()? else {
        return Ok(());
    };
    fallbacks.insert(id, fallback)?;
    Ok(())
}

/// Appends a record. When out of memory, a part of it may be appended.
fn append(
    bytes: &mut ByteList<'_>,
    places: &mut Vec<u32>,
    fallbacks: &mut BTreeMap<u32, Enum64Fallback>,
    order: Endianness,
    t: NewRecord<'_>,
) -> Result<(), BtfError>
    requires few { length bytes.old < 2 ^ 32 }
    requires free { fallback_at fallbacks.old.entries (length places.old.items + 1) ≡ None }
    ensures bytes { OnOk result (bytes.new ≡ bytes.old ++ record_bytes order (record_of t.entry)) }
    ensures places { OnOk result (places.new.items ≡ places.old.items ++ length bytes.old ∷ []) }
    ensures fallbacks { OnOk result
        (Entered fallbacks.old.entries fallbacks.new.entries (length places.old.items + 1)
        (fallback_of (record_of t.entry))) }
    ensures read_back { OnOk result (ReadsBack order (record_of t.entry)) }
    ensures few_bytes { OnOk result (length bytes.new < 2 ^ 32) }
    ensures few_types { OnOk result (length places.new.items < 2 ^ 32) }
    ensures refused { IfErr result (λ e.
        e ≢ OutOfMemory
        → (e ≡ InvalidTypeInfo)
        × (TooMany (length bytes.old + length (record_bytes order (record_of t.entry)))
        ⊎ TooMany (length places.old.items + 1))) }
    ensures old_bytes { OnErr result (take (length bytes.old) bytes.new ≡ bytes.old) }
    ensures old_places { OnErr result
        (take (length places.old.items) places.new.items ≡ places.old.items) }
    ensures old_fallbacks { OnErr result (fallbacks.new.entries ≡ fallbacks.old.entries) }
{
    if places.len() >= MOST {
        return Err(BtfError::InvalidTypeInfo);
    }
    let place = bytes.len() as u32;
    bytes.push_record(*places.allocator(), order, &t)?;
    if bytes.len() > MOST {
        return Err(BtfError::InvalidTypeInfo);
    }
    places.push(place)?;
    enter_fallback(fallbacks, places.len() as u32, t)?;
    Ok(())
}

/// The offset of the record at an index.
fn place_at(places: &[u32], index: usize) -> Option<u32>
    ensures value { result ≡ slice_get places.now index }
    ensures within { IfSome result (λ _. index < length places.now) }
{
    places.get(index).copied()
}

/// The record at an offset of the bytes.
#[tactic(auto, using(crate::proofs::Places::within_bytes))]
fn record_at(order: Endianness, bytes: &[u8], place: u32) -> TypeRef<'_>
    requires { HasRecord order (drop place bytes.now) }
    ensures { result ≡ type_in order (drop place bytes.now) }
{
    TypeRef::new(order, after(bytes, place as usize))
}

/// The record with the enum that it stands for, if there is one.
fn with_fallback<'a>(t: TypeRef<'a>, fallback: Option<&'a Enum64Fallback>) -> TypeRef<'a>
    ensures { result
        ≡ option_map_or (λ f. with_fallback (Some f) t.entry) (option_copied fallback.entry)
        t.entry }
{
    match fallback {
        Some(fallback) => t.with_fallback(fallback),
        None => t,
    }
}

/// The least size of a record in bytes.
const LEAST_LEN: usize = 12;

/// The offsets of the records in `bytes`.
#[tactic(auto, using(crate::proofs::Reading::no_places, crate::proofs::Reading::one_more_place, crate::proofs::Reading::fault_after, crate::proofs::Reading::all_places))]
fn places_of(alloc: Global, order: Endianness, bytes: &[u8]) -> Result<Vec<u32>, BtfError>
    requires { length bytes.now < 2 ^ 32 }
    ensures spelled { IfOk result (λ places.
        Spells order (types_at order bytes.now [] 1 places.items) bytes.now) }
    ensures stand { IfOk result (λ places.
        All (λ place. ReadsSame order (drop place bytes.now)) places.items) }
    ensures refused { IfErr result (λ e. e ≢ OutOfMemory → TypesFault order bytes.now e) }
{
    let mut places = Vec::with_capacity(alloc, bytes.len() / LEAST_LEN)?;
    let mut rest = bytes;
    while !rest.is_empty() {
        let len = record_len(order, rest)?;
        places.push((bytes.len() - rest.len()) as u32)?;
        rest = after(rest, len);
    }
    Ok(places)
}

impl<'a> TypeRecords<'a> {
    /// The records in `bytes`.
    ///
    /// `InvalidTypeInfo` where one of them is cut off, `InvalidTypeKind` where its kind is above
    /// 19.
    #[tactic(auto, using(crate::proofs::Reading::laid_out))]
    pub fn read(
        alloc: Global,
        order: Endianness,
        bytes: &'a [u8],
    ) -> Result<TypeRecords<'a>, BtfError>
        requires { length bytes.now < 2 ^ 32 }
        ensures order { IfOk result (λ r. r.order ≡ order) }
        ensures spelled { IfOk result (λ r. Spells order r.types bytes.now) }
        ensures refused { IfErr result (λ e. e ≢ OutOfMemory → TypesFault order bytes.now e) }
    {
        let places = places_of(alloc, order, bytes)?;
        Ok(TypeRecords {
            order,
            bytes: ByteList::borrowed(bytes),
            places,
            fallbacks: BTreeMap::new(alloc),
        })
    }

    /// No records, of this byte order.
    #[tactic(auto, unfolding(crate::specs::Layout::types_at))]
    pub fn new(alloc: Global, order: Endianness) -> TypeRecords<'a>
        ensures { result ≡ record { order = order; types = [] } }
    {
        TypeRecords {
            order,
            bytes: ByteList::owned(Vec::new(alloc)),
            places: Vec::new(alloc),
            fallbacks: BTreeMap::new(alloc),
        }
    }

    /// The number of records.
    #[tactic(auto, using(crate::proofs::Places::length_types_at))]
    pub fn len(&self) -> usize
        ensures value { result ≡ length self.now.types }
        ensures bounded { result < 2 ^ 32 }
        ensures room { result + 1 < 2 ^ 32 }
    {
        self.places.len()
    }

    /// The allocator of their memory.
    pub fn allocator(&self) -> Global {
        *self.places.allocator()
    }

    /// The byte order of their numbers.
    pub fn order(&self) -> Endianness
        ensures { result ≡ self.now.order }
    {
        self.order
    }

    /// The record at an index, which is one less than its id.
    #[tactic(auto, using(crate::proofs::Places::stands_at, crate::proofs::Places::record_is, crate::proofs::Places::none_at))]
    pub fn get(&self, index: usize) -> Option<TypeRef<'_>>
        ensures value { result ≡ slice_get self.now.types index }
        ensures bounded { IfSome result (λ _. index + 1 < 2 ^ 32) }
    {
        match place_at(&self.places, index) {
            Some(place) => {
                let t = record_at(self.order, self.bytes.as_slice(), place);
                let fallback = fallback_by_id(&self.fallbacks, index as u32 + 1);
                Some(with_fallback(t, fallback))
            }
            None => None,
        }
    }

    /// The record of an id; that of id 0 is void.
    pub fn by_id(&self, id: usize) -> Option<TypeRef<'_>>
        ensures value { result ≡ slice_get (BtfType.Unknown ∷ self.now.types) id }
        ensures bounded { IfSome result (λ _. id < 2 ^ 32) }
    {
        if id == 0 {
            return Some(TypeRef::void());
        }
        self.get(id - 1)
    }

    /// The number of bytes of the records.
    pub fn byte_len(&self) -> usize
        ensures value { result ≡ length (flat_map (record_bytes self.now.order) self.now.types) }
        ensures bounded { result < 2 ^ 32 }
    {
        self.bytes.len()
    }

    /// Appends a record.
    fn push_record(&mut self, t: NewRecord<'_>) -> Result<(), BtfError>
        ensures order { OnOk result (self.new.order ≡ self.old.order) }
        ensures types { OnOk result (self.new.types ≡ self.old.types ++ record_of t.entry ∷ []) }
        ensures refused { IfErr result (λ e.
            e ≢ OutOfMemory
            → (e ≡ InvalidTypeInfo)
            × (TooMany
            (length
            (flat_map (record_bytes self.old.order) (self.old.types ++ record_of t.entry ∷ [])))
            ⊎ TooMany (length self.old.types + 1))) }
        ensures few_bytes { OnOk result
            (length (flat_map (record_bytes self.new.order) self.new.types) < 2 ^ 32) }
        ensures few_types { OnOk result (length self.new.types < 2 ^ 32) }
        ensures err { OnErr result (self.new ≡ self.old) }
    {
        let len = self.bytes.len();
        let count = self.places.len();
        match append(
            &mut self.bytes,
            &mut self.places,
            &mut self.fallbacks,
            self.order,
            t,
        ) {
            Ok(()) => Ok(()),
            Err(error) => {
                self.bytes.truncate(len);
                self.places.truncate(count);
                Err(error)
            }
        }
    }

    /// Appends a record.
    ///
    /// `InvalidTypeInfo` where there would be more than 2^32 - 1 records, or more than 2^32 - 1
    /// bytes.
    pub fn push(&mut self, t: BtfType) -> Result<(), BtfError>
        ensures order { OnOk result (self.new.order ≡ self.old.order) }
        ensures types { OnOk result (self.new.types ≡ self.old.types ++ t ∷ []) }
        ensures refused { IfErr result (λ e.
            e ≢ OutOfMemory
            → (e ≡ InvalidTypeInfo)
            × (TooMany (length (flat_map (record_bytes self.old.order) (self.old.types ++ t ∷ [])))
            ⊎ TooMany (length self.old.types + 1))) }
        ensures few_bytes { OnOk result
            (length (flat_map (record_bytes self.new.order) self.new.types) < 2 ^ 32) }
        ensures few_types { OnOk result (length self.new.types < 2 ^ 32) }
        ensures err { OnErr result (self.new ≡ self.old) }
    {
        self.push_record(NewRecord::Own(t))
    }

    /// Appends a copy of a record. Where the record would be written as the same bytes, its bytes
    /// are copied.
    ///
    /// `InvalidTypeInfo` as for `push`.
    pub fn push_copy(&mut self, t: &TypeRef<'_>) -> Result<(), BtfError>
        ensures order { OnOk result (self.new.order ≡ self.old.order) }
        ensures types { OnOk result (self.new.types ≡ self.old.types ++ t.now ∷ []) }
        ensures refused { IfErr result (λ e.
            e ≢ OutOfMemory
            → (e ≡ InvalidTypeInfo)
            × (TooMany
            (length (flat_map (record_bytes self.old.order) (self.old.types ++ t.now ∷ [])))
            ⊎ TooMany (length self.old.types + 1))) }
        ensures few_bytes { OnOk result
            (length (flat_map (record_bytes self.new.order) self.new.types) < 2 ^ 32) }
        ensures few_types { OnOk result (length self.new.types < 2 ^ 32) }
        ensures err { OnErr result (self.new ≡ self.old) }
    {
        self.push_record(NewRecord::Copied(t))
    }

    /// Appends the bytes of the records to `out`.
    pub fn write(&self, out: &mut Vec<u8>) -> Result<(), AllocError>
        ensures written { OnOk result
            (out.new.items
            ≡ out.old.items ++ flat_map (record_bytes self.now.order) self.now.types) }
        ensures spelled { OnOk result
            (Spells self.now.order (map without_fallback self.now.types)
            (flat_map (record_bytes self.now.order) self.now.types)) }
    {
        push_types(out, self.order, self.bytes.as_slice())
    }

    /// A copy.
    pub fn try_clone(&self) -> Result<TypeRecords<'a>, AllocError>
        ensures { IfOk result (λ r. r ≡ self.now) }
    {
        Ok(TypeRecords {
            order: self.order,
            bytes: self.bytes.try_clone()?,
            places: self.places.clone()?,
            fallbacks: self.fallbacks.clone()?,
        })
    }
}
