//! The candidates for a local type.

ghost use Rattle.std.specs.Prelude.{◌≡◌, ◌≢◌, ◌<◌, ◌++◌, ◌∷◌, [], true, false, filter, find, length, take, IfOk, IfErr, OnOk, Ok, Err, None};
ghost use Rattle.std.specs.Option.{IsSomeAnd};
ghost use Rattle.btf_search.specs.NamedTypes.{named_ids_at};
ghost use Rattle.core_match.specs.Candidates.{candidates, is_candidate, is_unreadable_at, types_at, unreadable};
ghost use Rattle.core_match.specs.CandidateSearches.{AreFirst, kinds_of, types_of_ids};
ghost use Rattle.core_match.specs.declared.error.CandidateError.TheVariants.{OutOfMemory};

use crate::error::CandidateError;
use crate::kernel_type::KernelType;
use crate::wanted::WantedType;
use btf_records::BtfKind;
use btf_search::NamedTypes;
use btf_tables::Btf;
use std::alloc::{AllocError, Global};
use std::marker::Model;

/// The types of the kernel's tables, by kind and name.
#[derive(Debug)]
pub struct Candidates<'t, 'l> {
    types: NamedTypes<'t, 'l>,
}

impl<'t, 'l> Drop for Candidates<'t, 'l> {
    // A single call where a value is dropped, instead of one call per field.
    fn drop(self) {
        let Candidates { types: _types } = self;
    }
}

impl<'t, 'l> Model for Candidates<'t, 'l> {
    ghost use Rattle.std.specs.Prelude.{List};
    ghost use Rattle.btf_tables.specs.Tables.{Table};

    ghost Value = { List Table };

    ghost view = { λ c. c.types };
}

/// The kinds and names of the types that are searched for in the kernel's tables.
#[derive(Drop)]
struct WantedNames<'l> {
    kinds: Vec<BtfKind>,
    /// The names, without flavours.
    names: Vec<&'l str>,
}

impl<'l> WantedNames<'l> {
    /// Adds the kind and name for a local type; nothing where the type is missing or its name can't
    /// be read.
    fn add(&mut self, local: &'l Btf<'l>, type_id: u32) -> Result<(), AllocError> {
        let Ok(wanted) = WantedType::find(local, type_id) else {
            return Ok(());
        };
        self.names.push(wanted.name())?;
        self.kinds.push(wanted.kind())?;
        if wanted.or_enum64() {
            self.kinds.push(BtfKind::Enum64)?;
        }
        Ok(())
    }
}

/// The kinds and names for the local types of these ids.
fn wanted_names<'l>(
    alloc: Global,
    local: &'l Btf<'l>,
    type_ids: &[u32],
) -> Result<WantedNames<'l>, AllocError> {
    let mut wanted = WantedNames {
        kinds: Vec::new(alloc),
        names: Vec::new(alloc),
    };
    for type_id in type_ids {
        wanted.add(local, *type_id)?;
    }
    Ok(wanted)
}

/// Whether a kernel type is a candidate.
///
/// `UnreadableName` where it has the wanted kind and its name can't be read.
fn is_candidate(
    wanted: &WantedType<'_>,
    targets: &[Btf<'_>],
    place: KernelType,
) -> Result<bool, CandidateError>
    ensures value { IfOk result (λ is. is ≡ is_candidate wanted.now targets.now place) }
    ensures other { IfErr result (λ _. is_candidate wanted.now targets.now place ≡ false) }
    ensures readable { IfOk result (λ _. is_unreadable_at wanted.now targets.now place ≡ false) }
    ensures refused { IfErr result (λ e.
        (e ≡ unreadable targets.now place)
        × (is_unreadable_at wanted.now targets.now place ≡ true)) }
{
    let Some(target) = targets.get(place.table) else {
        return Ok(false);
    };
    let Ok(t) = target.type_by_id(place.type_id) else {
        return Ok(false);
    };
    if !wanted.is_of_kind(&t) {
        return Ok(false);
    }
    match target.string_at(t.name_offset()) {
        Ok(name) => Ok(wanted.is_name(name)),
        Err(_error) => Err(CandidateError::UnreadableName {
            place,
            offset: t.name_offset(),
        }),
    }
}

/// Adds a kernel type, if it is a candidate.
fn add_candidate(
    wanted: &WantedType<'_>,
    targets: &[Btf<'_>],
    place: KernelType,
    found: &mut Vec<KernelType>,
) -> Result<(), CandidateError>
    ensures value { OnOk result
        (found.new.items
        ≡ found.old.items ++ filter (is_candidate wanted.now targets.now) (place ∷ [])) }
    ensures readable { OnOk result (is_unreadable_at wanted.now targets.now place ≡ false) }
    ensures refused { IfErr result (λ e.
        e ≢ OutOfMemory
        → (e ≡ unreadable targets.now place)
        × (is_unreadable_at wanted.now targets.now place ≡ true)) }
{
    if is_candidate(wanted, targets, place)? {
        found.push(place)?;
    }
    Ok(())
}

/// Adds the candidates among some types of a table.
fn add_candidates(
    wanted: &WantedType<'_>,
    targets: &[Btf<'_>],
    table: usize,
    type_ids: &[u32],
    found: &mut Vec<KernelType>,
) -> Result<(), CandidateError>
    ensures value { OnOk result
        (found.new.items
        ≡ found.old.items
        ++ filter (is_candidate wanted.now targets.now) (types_of_ids table type_ids.now)) }
    ensures readable { OnOk result
        (find (is_unreadable_at wanted.now targets.now) (types_of_ids table type_ids.now) ≡ None) }
    ensures refused { IfErr result (λ e.
        e ≢ OutOfMemory
        → IsSomeAnd
        (find (is_unreadable_at wanted.now targets.now) (types_of_ids table type_ids.now))
        (λ place. e ≡ unreadable targets.now place)) }
{
    for type_id in type_ids {
        let type_id = *type_id;
        add_candidate(wanted, targets, KernelType { table, type_id }, found)?;
    }
    Ok(())
}

/// The ids of the types of a table that have the wanted kind, and the wanted name or a name that
/// can't be read.
fn named_ids(
    alloc: Global,
    types: &NamedTypes<'_, '_>,
    wanted: &WantedType<'_>,
    table: usize,
) -> Result<Vec<u32>, AllocError>
    ensures { IfOk result (λ ids.
        ids.items ≡ named_ids_at (kinds_of wanted.now) wanted.now.name types.now table) }
{
    if wanted.or_enum64() {
        let kinds = [wanted.kind(), BtfKind::Enum64];
        types.ids(alloc, table, &kinds, wanted.name())
    } else {
        types.ids(alloc, table, &[wanted.kind()], wanted.name())
    }
}

/// Adds the candidates in a table.
#[tactic(auto, using(crate::proofs::CandidateSearches::all_candidates, crate::proofs::CandidateSearches::all_unreadable))]
fn add_from(
    alloc: Global,
    types: &NamedTypes<'_, '_>,
    wanted: &WantedType<'_>,
    targets: &[Btf<'_>],
    table: usize,
    found: &mut Vec<KernelType>,
) -> Result<(), CandidateError>
    requires first { AreFirst targets.now types.now }
    requires within { table < length targets.now }
    ensures value { OnOk result
        (found.new.items
        ≡ found.old.items
        ++ filter (is_candidate wanted.now targets.now) (types_at targets.now table)) }
    ensures readable { OnOk result
        (find (is_unreadable_at wanted.now targets.now) (types_at targets.now table) ≡ None) }
    ensures refused { IfErr result (λ e.
        e ≢ OutOfMemory
        → IsSomeAnd (find (is_unreadable_at wanted.now targets.now) (types_at targets.now table))
        (λ place. e ≡ unreadable targets.now place)) }
{
    let ids = named_ids(alloc, types, wanted, table)?;
    add_candidates(wanted, targets, table, ids.as_slice(), found)
}

/// The candidates in `targets`, which are the first of the tables of `types`.
fn candidates_in(
    alloc: Global,
    types: &NamedTypes<'_, '_>,
    wanted: &WantedType<'_>,
    targets: &[Btf<'_>],
) -> Result<Vec<KernelType>, CandidateError>
    requires { AreFirst targets.now types.now }
    ensures value { IfOk result (λ found. candidates wanted.now targets.now ≡ Ok found.items) }
    ensures refused { IfErr result (λ e.
        e ≢ OutOfMemory → candidates wanted.now targets.now ≡ Err e) }
{
    let mut found = Vec::new(alloc);
    for table in 0..targets.len() {
        add_from(alloc, types, wanted, targets, table, &mut found)?;
    }
    Ok(found)
}

/// A list of the first of some tables, if there is one.
fn first_table<'t, 'a>(targets: &'t [Btf<'a>]) -> &'t [Btf<'a>]
    ensures { result.now ≡ take 1 targets.now }
{
    match targets {
        [] => targets,
        _ => &targets[..1],
    }
}

impl<'t, 'l> Candidates<'t, 'l> {
    /// The types of these tables. Each query searches the tables.
    pub fn new(alloc: Global, targets: &'t [Btf<'t>]) -> Candidates<'t, 'l>
        ensures { result ≡ targets.now }
    {
        Candidates {
            types: NamedTypes::new(alloc, targets),
        }
    }

    /// The types of these tables. Each table is searched once for the local types of these ids.
    pub fn collect(
        alloc: Global,
        local: &'l Btf<'l>,
        type_ids: &[u32],
        targets: &'t [Btf<'t>],
    ) -> Result<Candidates<'t, 'l>, AllocError>
        ensures { IfOk result (λ candidates. candidates ≡ targets.now) }
    {
        let wanted = wanted_names(alloc, local, type_ids)?;
        let types = NamedTypes::find(
            alloc,
            wanted.kinds.as_slice(),
            wanted.names.as_slice(),
            targets,
        )?;
        Ok(Candidates { types })
    }

    /// The candidates for a local type in all tables, in order of table and then of id.
    ///
    /// `UnreadableName` where the name of a type of the wanted kind can't be read.
    #[tactic(auto, using(crate::proofs::CandidateSearches::all_first))]
    pub fn of(
        &self,
        alloc: Global,
        wanted: &WantedType<'_>,
    ) -> Result<Vec<KernelType>, CandidateError>
        ensures value { IfOk result (λ found. candidates wanted.now self.now ≡ Ok found.items) }
        ensures refused { IfErr result (λ e.
            e ≢ OutOfMemory → candidates wanted.now self.now ≡ Err e) }
    {
        candidates_in(alloc, &self.types, wanted, self.types.tables())
    }

    /// The candidates for a local type in the first table alone.
    ///
    /// `UnreadableName` where the name of a type of the wanted kind in that table can't be read.
    #[tactic(auto, using(crate::proofs::CandidateSearches::one_first))]
    pub fn of_first(
        &self,
        alloc: Global,
        wanted: &WantedType<'_>,
    ) -> Result<Vec<KernelType>, CandidateError>
        ensures value { IfOk result (λ found.
            candidates wanted.now (take 1 self.now) ≡ Ok found.items) }
        ensures refused { IfErr result (λ e.
            e ≢ OutOfMemory → candidates wanted.now (take 1 self.now) ≡ Err e) }
    {
        candidates_in(alloc, &self.types, wanted, first_table(self.types.tables()))
    }
}
