//! Exercises of the libraries, for tests. The first argument names the exercise:
//!
//! - `memory-calls`: the calls that take memory;
//! - `changed-bytes OBJECT`: each prefix of an object, and the object with each byte changed;
//! - `changed-plans [--plans] MAP[,MAP].. OBJECT little|big [TYPES..]`: plans of an object that is
//!   cut off or changed in one byte, and plans of an object for kernel types that are;
//! - `changed-texts PLAN`, `changed-lines PLAN`: the text of a plan that is cut off or changed in
//!   one byte, and for each byte the lines at which it is refused with each other value of it;
//! - `read-plans PLAN..`: whether texts are plans' whose written texts are the same, and the lines
//!   at which others are refused;
//! - `library-example OBJECT [KERNEL_TYPES]`: what an object holds, and its plan, by the example of
//!   the library's use;
//! - `parse-types little|big TYPES..`: how many types each file has, which is read and parsed as by
//!   `inspect_object`;
//! - `patched-objects OBJECT..`: what the programs of objects are, and their maps before and after
//!   values are written into them by name;
//! - `refused-objects TYPES SYMBOLS OBJECT..`, `refused-structs`, `refused-tables`: steps for which
//!   one request for memory may be refused;
//! - `ask-types FILE..`: questions about tables of types, with their answers, from texts whose form
//!   the module `type_questions` of `exercise_parts` describes.
#![tactic(auto)]

mod changed_objects;
mod memory_calls;
mod object_steps;
mod parsed_types;
mod patched_objects;
mod relocated_objects;
mod rewritten_tables;
mod thousand_structs;

use exercise_parts::{
    ExerciseError, print_changed_lines, print_changed_plans, print_changed_texts, print_read_plans,
    print_type_answers,
};
use library_example::{ExampleError, print_object_and_plan};
use std::env;
use std::env::Args;
use std::fmt::Display;
use std::process::ExitCode;

/// Prints why an exercise ends early, and returns its status.
fn failed<E: Display>(rt: &HostRuntime, error: &E, status: u8) -> ExitCode {
    let _ = eprintln!(rt; "exercises: {error}");
    ExitCode::from(status)
}

/// The status of an exercise that prints its findings; its error is printed.
fn status_of(rt: &HostRuntime, answer: Result<(), ExerciseError>) -> ExitCode {
    match answer {
        Ok(()) => ExitCode::SUCCESS,
        Err(error) => failed(rt, &error, error.status()),
    }
}

/// The status of the example of the library's use; its error is printed.
fn status_of_example(rt: &HostRuntime, answer: Result<(), ExampleError>) -> ExitCode {
    match answer {
        Ok(()) => ExitCode::SUCCESS,
        Err(error) => failed(rt, &error, error.status()),
    }
}

/// Does an exercise.
fn run(rt: &HostRuntime, exercise: &str, words: &mut Args) -> ExitCode {
    match exercise {
        "memory-calls" => memory_calls::run(rt),
        "changed-bytes" => status_of(rt, changed_objects::run(rt, words)),
        "changed-plans" => status_of(rt, print_changed_plans(rt, words)),
        "changed-texts" => status_of(rt, print_changed_texts(rt, words)),
        "changed-lines" => status_of(rt, print_changed_lines(rt, words)),
        "read-plans" => status_of(rt, print_read_plans(rt, words)),
        "library-example" => status_of_example(rt, print_object_and_plan(rt, words)),
        "parse-types" => status_of(rt, parsed_types::run(rt, words)),
        "patched-objects" => status_of(rt, patched_objects::run(rt, words)),
        "refused-objects" => status_of(rt, relocated_objects::run(rt, words)),
        "refused-structs" => thousand_structs::run(rt),
        "refused-tables" => rewritten_tables::run(rt),
        "ask-types" => status_of(rt, print_type_answers(rt, words)),
        _ => status_of(rt, Err(ExerciseError::Usage)),
    }
}

fn main(rt: HostRuntime) -> ExitCode {
    let Ok(mut words) = env::args(&rt) else {
        return ExitCode::from(3);
    };
    let _program = words.next();
    match words.next() {
        Some(exercise) => run(&rt, exercise.as_str(), &mut words),
        None => status_of(&rt, Err(ExerciseError::Usage)),
    }
}
