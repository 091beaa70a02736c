//! A law of functions in rewritten tables.

ghost use Rattle.load_plan.specs.RewrittenFunctions.{FunctionsStay};

/// Where a kernel takes functions, the id of a function is the id of a function of the same name in
/// the table rewritten for this kernel.
#[tactic(auto, using(crate::proofs::Stay::functions_stay))]
pub fn functions_stay()
    ensures { FunctionsStay }
{}
