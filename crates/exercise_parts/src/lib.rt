//! Parts of the program of exercises: its command-line arguments, why an exercise ends early, tables
//! of types from the words of their records ("BTF Type and String Encoding" of the kernel's btf.rst),
//! plans of changed inputs, and questions about types.
#![tactic(auto)]

mod changed_inputs;
mod changes;
mod counts;
mod error;
mod mutated_plans;
mod plan_answers;
mod plan_texts;
mod question_tables;
mod question_words;
mod questions;
mod record_words;
mod refused_lines;
mod relocation_questions;
mod sections;
mod type_answers;
mod type_questions;
mod words;

pub use error::ExerciseError;
pub use mutated_plans::{
    print_changed_lines, print_changed_plans, print_changed_texts, print_read_plans,
};
pub use record_words::{ORDERS, push_words};
pub use sections::section;
pub use type_questions::print_type_answers;
pub use words::{next_order, next_word, read_next};
