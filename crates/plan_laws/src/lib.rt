//! Laws of plans, over what the contract of `prepare` names. The functions here compute nothing:
//! their contracts are the theorems.
#![tactic(auto)]

mod determined;
mod lengths;
mod maps;
mod orders;
mod programs;

pub use determined::{
    features_leave_slots_and_maps, plans_are_determined, plans_exclude_refusals, texts_are_unread,
};
pub use lengths::plan_programs_are_short;
pub use maps::maps_keep_lengths;
pub use orders::{orders_plan_alike, orders_refuse_alike};
pub use programs::plan_programs_are_described;
