//! Laws of the passes. The functions here compute nothing: their contracts are the theorems.

ghost use Rattle.load_plan.specs.Orders.{OrdersAgree};
ghost use Rattle.load_plan.specs.PassLaws.{PassLaws};

use crate::contents_laws::{names_are_carried, records_name};
use core_relocation::{relocations_rest, types_are_written};
use linker::{reached_are_appended, renamed_visits_same, slots_are_copied};
use slot_relocation::{externs_are_written, numbers_are_written};

/// Where what an object's type relocations reach in its types can be read, and is the same in the
/// types rewritten under the answers, both orders of the passes over types give the same plans.
pub fn orders_agree()
    ensures { OrdersAgree }
{
    relocations_rest();
}

/// What the passes do to records, slots and names, as their crates state it.
pub(crate) fn pass_laws()
    ensures { PassLaws }
{
    types_are_written();
    numbers_are_written();
    externs_are_written();
    slots_are_copied();
    reached_are_appended();
    renamed_visits_same();
    records_name();
    names_are_carried();
    relocations_rest();
}
