//! Laws of type relocations. The functions here compute nothing: their contracts are the theorems.

ghost use Rattle.core_resolve.specs.Laws.{ListsOfOneTable, OutcomesRest};

use core_match::matches_rest;
use core_spec::{lookups_rest, paths_rest, values_rest};

/// A list of one table is searched as that table is, and a type relocation resolves to the result
/// for that table alone.
pub fn lists_of_one_table()
    ensures { ListsOfOneTable }
{}

/// The outcome of a type relocation depends, in the object's own table, only on the records that
/// are reached from its type, on their texts, and on the access string.
pub fn outcomes_rest()
    ensures { OutcomesRest }
{
    lookups_rest();
    paths_rest();
    values_rest();
    matches_rest();
}
