//! The maps of an object in its plan.

ghost use Rattle.plan_laws.specs.Maps.{MapsKeepLengths};

use global_data::values_leave_bytes;

/// Each map of a plan is a map of the object, under the number that is set for it and with the same
/// length. Its bytes are the object's, except in the range of a symbol of the map's section whose
/// global variable has a value set.
pub fn maps_keep_lengths()
    ensures { MapsKeepLengths }
{
    values_leave_bytes();
}
