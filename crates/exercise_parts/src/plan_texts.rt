//! Readings of plan texts that are cut off or changed in one byte.

use load_plan::{Plan, PlanReadError, Watched};
use std::alloc::Global;

/// The number of expected answers to changed texts.
#[derive(Clone, Copy)]
pub(crate) struct TextCounts {
    /// The texts that are read, and written as they were read.
    pub(crate) read: u64,
    /// The texts that are refused at the line of the change or at a later existing line.
    pub(crate) refused: u64,
    /// All texts.
    pub(crate) all: u64,
}

impl TextCounts {
    fn new() -> TextCounts {
        TextCounts {
            read: 0,
            refused: 0,
            all: 0,
        }
    }
}

/// The number of lines that end in some bytes.
fn line_feeds(bytes: &[u8]) -> usize {
    bytes.iter().filter(|byte| **byte == b'\n').count()
}

/// Whether a plan's written text is `text`.
pub(crate) fn is_written_as(alloc: Global, plan: &Plan<'_>, text: &[u8]) -> bool {
    let mut out = Watched::new(Vec::new(alloc));
    plan.write(&mut out).is_ok() && out.into_inner().as_slice() == text
}

/// How many of the proper prefixes of a text are refused at the line after their last whole one.
pub(crate) fn count_refused_texts(alloc: Global, text: &[u8]) -> usize {
    let mut count: usize = 0;
    for len in 0..text.len() {
        let front = &text[..len];
        match Plan::read(alloc, front) {
            Err(PlanReadError::Line(line)) if line == line_feeds(front).saturating_add(1) => {
                count = count.saturating_add(1);
            }
            _ => {}
        }
    }
    count
}

/// Reads a text that was changed in a line, and counts the answer.
fn count_text(alloc: Global, text: &[u8], changed: usize, counts: &mut TextCounts) {
    counts.all = counts.all.saturating_add(1);
    match Plan::read(alloc, text) {
        Ok(plan) => {
            if is_written_as(alloc, &plan, text) {
                counts.read = counts.read.saturating_add(1);
            }
        }
        Err(PlanReadError::Line(line)) => {
            if line >= changed && line <= line_feeds(text).saturating_add(1) {
                counts.refused = counts.refused.saturating_add(1);
            }
        }
        Err(PlanReadError::OutOfMemory) => {}
    }
}

/// Reads a text with the byte at an offset set to each other value.
fn count_values(alloc: Global, text: &mut [u8], at: usize, counts: &mut TextCounts) {
    let Some(before) = text.get(at).copied() else {
        return;
    };
    let changed = line_feeds(&text[..at]).saturating_add(1);
    for value in 0..=u8::MAX {
        if value != before {
            text[at] = value;
            count_text(alloc, text, changed, counts);
        }
    }
    text[at] = before;
}

/// Reads a text of the second version with each byte set to each other value.
pub(crate) fn changed_text_counts(alloc: Global, text: &mut [u8]) -> TextCounts {
    let mut counts = TextCounts::new();
    for at in 0..text.len() {
        count_values(alloc, text, at, &mut counts);
    }
    counts
}
