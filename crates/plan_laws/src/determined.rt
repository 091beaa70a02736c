//! A plan is determined by its inputs and the answers about the kernel.

ghost use Rattle.plan_laws.specs.Determined.{FeaturesLeaveSlotsAndMaps, PlansAreDetermined, PlansExcludeRefusals, TextsAreUnread};

use linker::layout_is_unique;

/// Equal inputs and equal answers give equal plans. So do equal inputs for a kernel whose answers
/// are known beforehand.
pub fn plans_are_determined()
    ensures { PlansAreDetermined }
{
    layout_is_unique();
}

/// The same inputs and answers don't give both a plan and a refusal, out of memory apart.
pub fn plans_exclude_refusals()
    ensures { PlansExcludeRefusals }
{
    layout_is_unique();
}

/// Where type relocations are resolved before types are rewritten, plans of the same inputs have
/// the same maps and, program by program, the same slots, whichever features of types are granted.
pub fn features_leave_slots_and_maps()
    ensures { FeaturesLeaveSlotsAndMaps }
{
    layout_is_unique();
}

/// Each text of symbols gives the same plans and refusals of an object of which no extern is
/// searched in the text.
pub fn texts_are_unread()
    ensures { TextsAreUnread }
{}
