//! Laws of comparisons. The functions here compute nothing: their contracts are the theorems.

ghost use Rattle.btf_compatibility.specs.Laws.{ComparisonsRest};

/// A comparison depends, in the local table, only on the records that are reached from the local
/// type, and on their texts.
pub fn comparisons_rest()
    ensures { ComparisonsRest }
{}
