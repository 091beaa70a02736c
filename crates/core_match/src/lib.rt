//! The kernel's types that match an object's. The candidates for a local type are the kernel's types
//! with the same kind and name (`bpf_core_add_cands`, tools/lib/bpf/libbpf.c). A candidate matches
//! if it has the path of the type relocation (`bpf_core_spec_match`, tools/lib/bpf/relo_core.c),
//! with the search for members by name, also inside members without names
//! (`bpf_core_match_member`).
#![tactic(auto)]

mod candidates;
mod error;
mod kernel_type;
mod laws;
mod look;
mod matching;
mod search;
mod step;
mod turn;
mod variant;
mod wanted;

pub use candidates::Candidates;
pub use error::CandidateError;
pub use kernel_type::KernelType;
pub use laws::{matches_rest, nesting_never_decides, searches_rest};
pub use matching::matching_path;
pub use wanted::WantedType;
