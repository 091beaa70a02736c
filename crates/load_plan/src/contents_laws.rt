//! Laws of the records of a plan.

ghost use Rattle.load_plan.specs.ContentsLaws.{NamesAreCarried, RecordsName};

use crate::rewritten_functions::functions_stay;

/// Function records of linked programs name functions where the records of all functions do.
#[tactic(auto, using(crate::proofs::Records::records_name))]
pub fn records_name()
    ensures { RecordsName }
{}

/// Where a kernel takes functions, an id that names a function in an object's types also names one
/// in the bytes of its plan.
#[tactic(auto, using(crate::proofs::Types::names_are_carried))]
pub fn names_are_carried()
    ensures { NamesAreCarried }
{
    functions_stay();
}
