//! Laws of searches and of matching paths. The functions here compute nothing: their contracts are
//! the theorems.

ghost use Rattle.core_match.specs.Laws.{MatchesRest, NestingNeverDecides, SearchesRest};

use btf_compatibility::comparisons_rest;
use core_spec::lookups_rest;

/// The definition of a search has a limit on the number of structs and unions that are open inside
/// each other. A limit of at least the number of types changes no result.
pub fn nesting_never_decides()
    ensures { NestingNeverDecides }
{}

/// A search depends, in the local table, only on the records that are reached from the local type,
/// and on their texts.
pub fn searches_rest()
    ensures { SearchesRest }
{
    comparisons_rest();
}

/// The path in a target's type depends, in the local table, only on the records that the local path
/// reaches, and on their texts.
pub fn matches_rest()
    ensures { MatchesRest }
{
    lookups_rest();
    comparisons_rest();
    searches_rest();
}
