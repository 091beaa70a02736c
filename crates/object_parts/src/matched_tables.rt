//! The kernel tables in which type relocations have matches.

ghost use Rattle.std.specs.Prelude.{◌≡◌, [], IfOk, OnErr, OnOk};
ghost use Rattle.std.specs.List.Sorted.{IsStrictlySortedBy};
ghost use Rattle.std.specs.Ordering.{nat_cmp};
ghost use Rattle.object_parts.specs.MatchedTables.{with_table, with_tables};

use std::alloc::{AllocError, Global};
use std::collections::BTreeSet;
use std::collections::btree_set::Iter;
use std::marker::Model;

/// The tables of a kernel in which type relocations have their first matches, by their indices from
/// 0 in the list of searched tables: ascending, each once.
#[derive(Debug, Drop)]
pub struct MatchedTables {
    places: BTreeSet<u32>,
}

impl Model for MatchedTables {
    ghost use Rattle.std.specs.Prelude.{ℕ, List};

    ghost Value = { List ℕ };

    ghost view = { λ t. t.places.keys };
}

impl MatchedTables {
    /// No tables.
    pub fn new(alloc: Global) -> MatchedTables
        ensures { result ≡ [] }
    {
        MatchedTables {
            places: BTreeSet::new(alloc),
        }
    }

    /// The tables' indices, in strictly ascending order.
    pub fn iter(&self) -> Iter<'_, u32>
        ensures value { result ≡ self.now }
        ensures rising { IsStrictlySortedBy nat_cmp self.now }
    {
        self.places.iter()
    }

    /// Enters the table at the index `place`, if it isn't entered yet.
    pub fn enter(&mut self, place: u32) -> Result<(), AllocError>
        ensures entered { OnOk result (self.new ≡ with_table self.old place) }
        ensures unchanged { OnErr result (self.new ≡ self.old) }
    {
        self.places.insert(place)?;
        Ok(())
    }

    /// Enters other tables, up to the first for which memory runs out.
    pub fn enter_all(&mut self, others: &MatchedTables) -> Result<(), AllocError>
        ensures { OnOk result (self.new ≡ with_tables self.old others.now) }
    {
        for place in others.iter() {
            self.enter(*place)?;
        }
        Ok(())
    }

    /// A copy.
    pub fn try_clone(&self) -> Result<MatchedTables, AllocError>
        ensures { IfOk result (λ tables. tables ≡ self.now) }
    {
        Ok(MatchedTables {
            places: self.places.clone()?,
        })
    }
}
