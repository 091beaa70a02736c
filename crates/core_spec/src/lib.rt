//! The paths of type relocations and their values: the paths of access strings through the types
//! that a program was compiled against (`struct bpf_core_relo` in the kernel's
//! `include/uapi/linux/bpf.h`; `bpf_core_parse_spec`, tools/lib/bpf/relo_core.c), and the values of
//! such paths (`bpf_core_calc_field_relo`, `bpf_core_calc_type_relo` and
//! `bpf_core_calc_enumval_relo`, in the same file).
#![tactic(auto)]

mod asked;
mod error;
mod extent;
mod field_values;
mod fields;
mod laws;
mod local;
mod numbers;
mod path;
mod path_text;
mod subject;
mod value;
mod variant_values;
mod variants;

pub use asked::relocation_text;
pub use error::AccessError;
pub use field_values::WholeField;
pub use fields::{bits_after, elements_after, has_element};
pub use laws::{lookups_rest, paths_rest, values_rest};
pub use local::local_path;
pub use path::{AccessPath, Place, Step, Steps};
pub use subject::{Subject, subject_of};
pub use value::{RelocationValue, path_value};
pub use variants::{variant_count, variant_name};
