//! Look-up of types by kind and name.

ghost use Rattle.std.specs.Prelude.{◌≡◌, ◌++◌, ◌∷◌, [], filter, map, IfOk, IfSome, OnOk};
ghost use Rattle.btf_search.specs.NamedTypes.{is_asked, is_so, named_ids, named_ids_at};
ghost use Rattle.btf_search.specs.Searches.{found_among, found_in};

use crate::found::{FoundType, FoundTypes};
use crate::search::Search;
use btf_records::BtfKind;
use btf_tables::Btf;
use std::alloc::{AllocError, Global};
use std::marker::Model;

/// The types of several tables by kind and name. Its model is the tables alone: results don't
/// depend on what was searched for in advance.
#[derive(Debug)]
pub struct NamedTypes<'t, 'n> {
    tables: &'t [Btf<'t>],
    search: Search<'n>,
    /// The types found in each table; empty if nothing was searched for.
    found: Vec<FoundTypes<'t>>,
}

impl<'t, 'n> Drop for NamedTypes<'t, 'n> {
    // One call wherever it is dropped, in place of one for each part.
    fn drop(self) {
        let NamedTypes {
            tables: _,
            search: _search,
            found: _found,
        } = self;
    }
}

impl<'t, 'n> Model for NamedTypes<'t, 'n> {
    ghost use Rattle.std.specs.Prelude.{List};
    ghost use Rattle.btf_tables.specs.Tables.{Table};
    ghost use Rattle.btf_search.specs.Searches.{AreFound};

    ghost Value = { List Table };

    ghost view = { λ n. n.tables.now };

    ghost invariant = { λ n. AreFound n.search n.tables.now n.found.items };
}

/// Adds the type of an id, if the search wants it.
#[tactic(auto, using(crate::proofs::Walks::added, crate::proofs::Walks::not_added, crate::proofs::Walks::no_type))]
fn add_wanted<'t>(
    search: &Search<'_>,
    table: &'t Btf<'_>,
    type_id: u32,
    found: &mut FoundTypes<'t>,
) -> Result<(), AllocError>
    ensures { OnOk result
        (found.new ≡ found.old ++ found_among search.now table.now (type_id ∷ [])) }
{
    let Ok(t) = table.type_by_id(type_id) else {
        return Ok(());
    };
    if !search.may_want(table, &t) {
        return Ok(());
    }
    let one = FoundType::new(table, type_id, &t);
    if search.is_wanted(&one) {
        found.push(one)?;
    }
    Ok(())
}

/// The types of a table that the search wants.
#[tactic(auto, using(crate::proofs::Walks::all_left, crate::proofs::Walks::found_all))]
fn found_in<'t>(
    alloc: Global,
    search: &Search<'_>,
    table: &'t Btf<'_>,
) -> Result<FoundTypes<'t>, AllocError>
    ensures { IfOk result (λ found. found ≡ found_in search.now table.now) }
{
    let mut found = FoundTypes::new(alloc);
    let count = table.len() + 1;
    for id in 0..count {
        add_wanted(search, table, id as u32, &mut found)?;
    }
    Ok(found)
}

/// The types of each table that the search wants.
fn found_in_each<'t>(
    alloc: Global,
    search: &Search<'_>,
    tables: &'t [Btf<'t>],
) -> Result<Vec<FoundTypes<'t>>, AllocError>
    ensures { IfOk result (λ found. found.items ≡ map (found_in search.now) tables.now) }
{
    let mut found = Vec::new(alloc);
    for table in tables {
        found.push(found_in(alloc, search, table)?)?;
    }
    Ok(found)
}

/// The ids of those types that have one of these kinds, and either this name or one that can't be
/// read.
#[tactic(auto, using(crate::proofs::Walks::picked_on, crate::proofs::Walks::picked_past, crate::proofs::Walks::picked_all))]
fn ids_among(
    alloc: Global,
    found: &[FoundType<'_>],
    kinds: &[BtfKind],
    name: &str,
) -> Result<Vec<u32>, AllocError>
    ensures { IfOk result (λ ids.
        ids.items
        ≡ map (λ f. f.type_id)
        (filter (λ f. is_asked kinds.now name.now f.kind f.name) found.now)) }
{
    let mut ids = Vec::new(alloc);
    for one in found {
        if one.is_asked(kinds, name) {
            ids.push(one.type_id())?;
        }
    }
    Ok(ids)
}

/// Whether a type has one of these kinds, and either this name or one that can't be read.
fn is_asked(table: &Btf<'_>, type_id: u32, kinds: &[BtfKind], name: &str) -> bool
    ensures { result ≡ is_so (is_asked kinds.now name.now) table.now type_id }
{
    match table.type_by_id(type_id) {
        Ok(t) => FoundType::new(table, type_id, &t).is_asked(kinds, name),
        Err(_error) => false,
    }
}

/// The ids of all such types of a table.
#[tactic(auto, using(crate::proofs::Walks::all_left, crate::proofs::Walks::asked_on, crate::proofs::Walks::asked_past, crate::proofs::Walks::asked_all))]
fn ids_in(
    alloc: Global,
    table: &Btf<'_>,
    kinds: &[BtfKind],
    name: &str,
) -> Result<Vec<u32>, AllocError>
    ensures { IfOk result (λ ids. ids.items ≡ named_ids kinds.now name.now table.now) }
{
    let mut ids = Vec::new(alloc);
    let count = table.len() + 1;
    for id in 0..count {
        if is_asked(table, id as u32, kinds, name) {
            ids.push(id as u32)?;
        }
    }
    Ok(ids)
}

impl<'t, 'n> NamedTypes<'t, 'n> {
    /// The tables.
    pub fn tables(&self) -> &'t [Btf<'t>]
        ensures { result.now ≡ self.now }
    {
        self.tables
    }

    /// The types of these tables. Each call of `ids` searches a table.
    #[tactic(auto, using(crate::proofs::Walks::none_found))]
    pub fn new(alloc: Global, tables: &'t [Btf<'t>]) -> NamedTypes<'t, 'n>
        ensures { result ≡ tables.now }
    {
        NamedTypes {
            tables,
            search: Search::none(alloc),
            found: Vec::new(alloc),
        }
    }

    /// The types of these tables. Each table is searched once for the types of these kinds and
    /// names, if any names are given; the names are without flavours.
    pub fn find(
        alloc: Global,
        kinds: &[BtfKind],
        names: &[&'n str],
        tables: &'t [Btf<'t>],
    ) -> Result<NamedTypes<'t, 'n>, AllocError>
        ensures { IfOk result (λ types. types ≡ tables.now) }
    {
        if names.is_empty() {
            return Ok(NamedTypes::new(alloc, tables));
        }
        let search = Search::all_of(alloc, kinds, names)?;
        let found = found_in_each(alloc, &search, tables)?;
        Ok(NamedTypes {
            tables,
            search,
            found,
        })
    }

    /// The types found in a table, if the search covers these kinds and this name.
    fn found_for(&self, table: usize, kinds: &[BtfKind], name: &str) -> Option<&[FoundType<'t>]>
        ensures { IfSome result (λ found.
            named_ids_at kinds.now name.now self.now table
            ≡ map (λ f. f.type_id)
            (filter (λ f. is_asked kinds.now name.now f.kind f.name) found.now)) }
    {
        if !self.search.covers(kinds, name) {
            return None;
        }
        match self.found.get(table) {
            Some(found) => Some(found.as_slice()),
            None => None,
        }
    }

    /// The ids, in order, of the types of the table at index `table` that have one of these kinds,
    /// and whose name without its flavour is `name` or can't be read. `name` has no flavour.
    pub fn ids(
        &self,
        alloc: Global,
        table: usize,
        kinds: &[BtfKind],
        name: &str,
    ) -> Result<Vec<u32>, AllocError>
        ensures { IfOk result (λ ids.
            ids.items ≡ named_ids_at kinds.now name.now self.now table) }
    {
        if let Some(found) = self.found_for(table, kinds, name) {
            return ids_among(alloc, found, kinds, name);
        }
        match self.tables.get(table) {
            Some(table) => ids_in(alloc, table, kinds, name),
            None => Ok(Vec::new(alloc)),
        }
    }
}
