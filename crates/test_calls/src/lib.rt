//! Tests of public calls that no program makes, of values that no object leads to, and of readers
//! and writers that fail: tables of kinds, maps that the kernel tells of, kernel symbols, watched
//! readers and writers, slots that stay in the file, how often a kernel is asked for helpers and
//! features, plans, types that are made, externs whose declarations don't fit, tables whose section
//! of externs can't be rewritten, and unions that stand for enums. And the size of a type, which a
//! rewriting carries over.
#![tactic(auto)]

mod carried;
#[cfg(test)]
mod declarations;
#[cfg(test)]
mod enum_unions;
#[cfg(test)]
mod failing_symbols;
#[cfg(test)]
mod kinds;
#[cfg(test)]
mod maps;
#[cfg(test)]
mod newer_helpers;
#[cfg(test)]
mod plan_texts;
#[cfg(test)]
mod questions;
#[cfg(test)]
mod readers_and_writers;
#[cfg(test)]
mod record_words;
#[cfg(test)]
mod refused_tables;
#[cfg(test)]
mod rewriting;
#[cfg(test)]
mod slots;
#[cfg(test)]
mod slow_text;
#[cfg(test)]
mod types;

pub use carried::{SizeAfter, size_after};
