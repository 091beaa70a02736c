//! Questions about tables of types, from texts, with their answers.
//!
//! A text has lines of these forms. Empty lines, and those that begin with `# `, are passed over.
//!
//! - `strings NAME..`: the strings of the tables that follow, and no tables. A NUL follows each
//!   name, unless the name ends in `\`. `-` is the empty name, and `\xff` the byte 255.
//! - `table NAME WORD..`: a table of types with the words of its records: numbers, `'NAME'` for the
//!   offset of a name in the strings, and info words by kind, as `INT`, `STRUCT/2` with two items,
//!   and `ENUM/2!` with the kind flag. A line that begins with a space has further words.
//! - `resolve TABLE ID`, `size TABLE ID`, `size32 TABLE ID`, `text TABLE OFFSET`, `find TABLE NAME
//!   KIND`: a type after modifiers, its size, its size in 32 bits, a text, the id of a name.
//! - `types TABLE ID TABLE ID`, `fields TABLE ID TABLE ID`: whether two types, or members of them,
//!   are compatible.
//! - `match KIND TABLE ID ACCESS in TABLE..`: the result of a type relocation of an object with the
//!   first table, in a kernel with the others. The access string `@N` is that at offset N.
//! - `match-without-enum64 ..`: the same where the object's 64-bit enums were replaced for a kernel
//!   that lacks them.
//!
//! A question is asked with its tables in both byte orders, and a type relocation is also searched
//! with candidates collected before. Answers that aren't the same follow the word `differs`.
//!
//! Kinds are named as in btf.rst and `enum bpf_core_relo_kind`, without `BTF_KIND_`, `BPF_CORE_`.

use crate::error::ExerciseError;
use crate::question_tables::Tables;
use crate::questions::answer_to;
use std::env::Args;
use std::fs;

/// Reads a line; a question is printed with its answer.
fn take_line<'t>(
    rt: &HostRuntime,
    tables: &mut Tables<'t>,
    line: &'t str,
) -> Result<(), ExerciseError> {
    let words = line.split_whitespace().collect::<Vec<&'t str>>(rt.alloc())?;
    match words.as_slice() {
        [] | ["#", ..] => Ok(()),
        words if line.starts_with(' ') => tables.push_words(words),
        ["strings", names @ ..] => {
            *tables = Tables::new(rt.alloc());
            tables.push_names(names)
        }
        ["table", name, words @ ..] => tables.push(name, words),
        words => {
            let answer = answer_to(rt.alloc(), tables, words)?;
            Ok(println!(rt; "{line}: {answer}")?)
        }
    }
}

/// Prints the questions of a text with their answers.
fn print_answers(rt: &HostRuntime, text: &str) -> Result<(), ExerciseError> {
    let mut tables = Tables::new(rt.alloc());
    for (index, line) in text.lines().enumerate() {
        match take_line(rt, &mut tables, line) {
            Ok(()) => {}
            Err(error @ (ExerciseError::Io(_) | ExerciseError::OutOfMemory)) => return Err(error),
            Err(_) => return Err(ExerciseError::Line(index.saturating_add(1))),
        }
    }
    Ok(())
}

/// Prints the questions of the files that the arguments name, with their answers.
///
/// # Errors
///
/// `Line` for a line that can't be read, by its number from 1; `Io` where a file can't be read, or
/// an answer can't be written; `OutOfMemory` where memory runs out.
pub fn print_type_answers(rt: &HostRuntime, words: &mut Args) -> Result<(), ExerciseError> {
    for name in words {
        let text = fs::read_to_string(rt, name.as_str())?;
        print_answers(rt, text.as_str())?;
    }
    Ok(())
}
