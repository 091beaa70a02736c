//! What is known of the values in registers and frames, and of what instructions make of them
//! (RFC 9669).
#![tactic(auto)]

mod arithmetic;
mod cells;
mod comparison;
mod effects;
mod functions;
mod known;
mod program;
mod size;
mod value;

pub use comparison::outcome;
pub use effects::{Kind, after, after_result, kind_of, operand, with_frame};
pub use functions::functions_of;
pub use known::{Known, NOTHING, entry, is_same, meet, value_in};
pub use program::{
    FrozenMap, Program, ProgramCode, Verifier, bytes_in, index_in, is_callback, target,
};
pub use value::Value;
