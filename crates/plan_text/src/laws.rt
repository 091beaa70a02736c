//! Theorems on the texts of plans.

ghost use Rattle.plan_text.specs.PlanGrammar.{text_of};
ghost use Rattle.plan_text.specs.Reading.{IsReadPlan};

use crate::plan::Plan;
use plan_lines::{lines_are_told_apart, lines_are_unbroken};

/// A plan's text, as it is written, is a text of this plan and of no other: it is read as the plan,
/// unless memory runs out.
pub fn texts_are_read_back(plan: &Plan<'_>)
    ensures { IsReadPlan (text_of plan.now) plan.now }
{
    lines_are_unbroken();
    lines_are_told_apart();
    plan.fits();
}
