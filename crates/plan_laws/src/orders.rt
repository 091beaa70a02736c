//! The order of the passes over types changes neither a plan nor whether there is one.

ghost use Rattle.plan_laws.specs.Orders.{OrdersPlanAlike, OrdersRefuseAlike};

use linker::layout_is_unique;
use load_plan::orders_agree;

/// Where an object's types leave the order of the passes over types free, and where the text of the
/// kernel's symbols is known or no extern is searched in it, a plan in one order equals a plan in
/// the other: for equal inputs under the same answers, or for a kernel whose answers are known
/// beforehand.
pub fn orders_plan_alike()
    ensures { OrdersPlanAlike }
{
    layout_is_unique();
    orders_agree();
}

/// Under these premises there isn't a plan in one order and a refusal in the other, out of memory
/// apart. For a kernel that is known beforehand, `prepare` gives plans in both orders or refusals
/// in both.
pub fn orders_refuse_alike()
    ensures { OrdersRefuseAlike }
{
    layout_is_unique();
    orders_agree();
}
