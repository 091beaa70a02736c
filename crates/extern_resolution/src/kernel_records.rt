//! The functions and variables of a kernel's table.

ghost use Rattle.std.specs.Prelude.{◌≡◌, ◌≢◌, ◌∷◌, [], ℕ, find, IfErr, IfOk};
ghost use Rattle.btf_records.specs.declared.error.BtfError.TheVariants.{OutOfMemory};
ghost use Rattle.btf_search.specs.NamedTypes.{named_ids};
ghost use Rattle.btf_tables.specs.EssentialNames.{essential_name};
ghost use Rattle.extern_resolution.specs.Outcomes.{IsKernelRecord, type_held_at};
ghost use Rattle.extern_resolution.specs.Records.{IsFirst, IsRecord, is_readable, may_be_first};

use btf_compatibility::types_are_compatible;
use btf_records::{BtfError, BtfKind};
use btf_search::NamedTypes;
use btf_tables::{Btf, essential_name};
use object_externs::Externs;
use std::alloc::{AllocError, Global};
use std::marker::Model;
use std::slice;

/// The kernel's record of a kind and a name.
#[derive(Clone, Copy)]
pub(crate) enum KernelRecord {
    /// A record whose type is compatible.
    Compatible(u32),
    /// A record whose type isn't compatible.
    Incompatible,
    /// No record.
    Missing,
}

/// A kernel's table, and its functions and variables by name.
pub(crate) struct KernelRecords<'k, 'n> {
    kernel: &'k Btf<'k>,
    types: NamedTypes<'k, 'n>,
}

impl<'k, 'n> Drop for KernelRecords<'k, 'n> {
    // A single call where a value is dropped, instead of one call per field.
    fn drop(self) {
        let KernelRecords {
            kernel: _,
            types: _types,
        } = self;
    }
}

impl<'k, 'n> Model for KernelRecords<'k, 'n> {
    ghost use Rattle.std.specs.Prelude.{◌≡◌, ◌∷◌, []};
    ghost use Rattle.btf_tables.specs.Tables.{Table};

    ghost Value = { Table };

    ghost view = { λ k. k.kernel.now };

    ghost invariant = { λ k. k.types ≡ k.kernel.now ∷ [] };
}

/// The names of the externs with types, without flavours.
fn typed_names<'n>(alloc: Global, externs: &Externs<'n>) -> Result<Vec<&'n str>, AllocError> {
    let mut names = Vec::new(alloc);
    for (name, desc) in externs.iter() {
        if desc.type_id.is_some() {
            names.push(essential_name(name))?;
        }
    }
    Ok(names)
}

/// Whether the name of the type with an id is `name`, or can't be read.
fn may_be_first(kernel: &Btf<'_>, id: u32, name: &str) -> bool
    ensures { result ≡ may_be_first kernel.now name.now id }
{
    let Ok(t) = kernel.type_by_id(id) else {
        return false;
    };
    match kernel.string_at(t.name_offset()) {
        Ok(text) => text == name,
        Err(_error) => true,
    }
}

/// The first id whose name may be `name`.
#[tactic(auto, using(crate::proofs::FirstNamed::find_on, crate::proofs::FirstNamed::find_here, crate::proofs::FirstNamed::find_end))]
fn first_of(kernel: &Btf<'_>, ids: &[u32], name: &str) -> Option<u32>
    ensures { result ≡ find (may_be_first kernel.now name.now) ids.now }
{
    for id in ids {
        if may_be_first(kernel, *id, name) {
            return Some(*id);
        }
    }
    None
}

/// Whether the name of the type with an id can be read.
fn is_readable(kernel: &Btf<'_>, id: u32) -> bool
    ensures { result ≡ is_readable kernel.now id }
{
    match kernel.type_by_id(id) {
        Ok(t) => kernel.string_at(t.name_offset()).is_ok(),
        Err(_error) => false,
    }
}

/// The id of the kernel's first record of a kind and a name; none where the name of an earlier
/// record of the kind can't be read.
#[tactic(auto, using(crate::proofs::FirstNamed::hidden, crate::proofs::FirstNamed::missing))]
fn first_named(kernel: &Btf<'_>, ids: &[u32], name: &str, kind: BtfKind) -> Option<u32>
    requires { ids.now ≡ named_ids (kind ∷ []) (essential_name name.now) kernel.now }
    ensures { IsFirst kernel.now kind name.now result }
{
    let id = first_of(kernel, ids, name)?;
    if is_readable(kernel, id) {
        Some(id)
    } else {
        None
    }
}

/// The type that the record with an id refers to.
fn type_held_at(kernel: &Btf<'_>, id: u32) -> u32
    ensures { result ≡ type_held_at kernel.now id }
{
    match kernel.type_by_id(id) {
        Ok(t) => t.btf_type().unwrap_or(0),
        Err(_error) => 0,
    }
}

impl<'k, 'n> KernelRecords<'k, 'n> {
    /// The records of a kernel's table, which is searched once for all externs with types, if there
    /// are any.
    pub(crate) fn find(
        alloc: Global,
        externs: &Externs<'n>,
        kernel: &'k Btf<'k>,
    ) -> Result<KernelRecords<'k, 'n>, AllocError>
        ensures { IfOk result (λ records. records ≡ kernel.now) }
    {
        let names = typed_names(alloc, externs)?;
        let tables = slice::from_ref(kernel);
        let kinds = [BtfKind::Func, BtfKind::Var];
        let types = NamedTypes::find(alloc, &kinds, names.as_slice(), tables)?;
        Ok(KernelRecords { kernel, types })
    }

    /// The id of the first record of a kind and a name.
    fn id(&self, name: &str, kind: BtfKind) -> Result<Option<u32>, AllocError>
        ensures { IfOk result (IsFirst self.now kind name.now) }
    {
        let alloc = self.kernel.allocator();
        let ids = self.types.ids(alloc, 0, &[kind], essential_name(name))?;
        Ok(first_named(self.kernel, ids.as_slice(), name, kind))
    }

    /// The kernel's record of a kind and a name, compared with a local type.
    pub(crate) fn record(
        &self,
        table: &Btf<'_>,
        type_id: u32,
        name: &str,
        kind: BtfKind,
    ) -> Result<KernelRecord, BtfError>
        ensures value { IfOk result (IsRecord table.now self.now type_id kind name.now) }
        ensures refused { IfErr result (λ e.
            e ≢ OutOfMemory
            → (id : ℕ) × IsKernelRecord table.now self.now type_id kind name.now (Err e) id) }
    {
        let Some(id) = self.id(name, kind)? else {
            return Ok(KernelRecord::Missing);
        };
        let held = type_held_at(self.kernel, id);
        if types_are_compatible(table, type_id, self.kernel, held)? {
            Ok(KernelRecord::Compatible(id))
        } else {
            Ok(KernelRecord::Incompatible)
        }
    }
}
