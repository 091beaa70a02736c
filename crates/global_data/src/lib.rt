//! Values of global variables, put into the maps of an object.
#![tactic(auto)]

mod laws;
mod patching;
mod section_maps;
mod writes;

pub use laws::values_leave_bytes;
pub use patching::patch_map_data;
