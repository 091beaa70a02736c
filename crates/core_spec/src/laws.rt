//! Laws of paths and of their values. The functions here compute nothing: their contracts are the
//! theorems.

ghost use Rattle.core_spec.specs.Laws.{LookupsRest, PathsRest, ValuesRest};

/// Look-ups at types depend only on the records that are reached from the types, and on their
/// texts.
pub fn lookups_rest()
    ensures { LookupsRest }
{}

/// The path of an access depends only on the records that are reached from its type, on their
/// texts, and on the access string.
pub fn paths_rest()
    ensures { PathsRest }
{}

/// The value of a path depends only on the records that the path reaches.
pub fn values_rest()
    ensures { ValuesRest }
{
    lookups_rest();
}
