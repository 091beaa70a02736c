//! The lines at which a plan's text is refused with one byte changed.

use crate::error::ExerciseError;
use load_plan::{Plan, PlanReadError};
use std::alloc::{AllocError, Global};

/// Numbers in order, with equal ones in a row counted: `NUMBER*COUNT ..`.
#[derive(Drop)]
struct Runs {
    alloc: Global,
    text: String,
    number: usize,
    count: usize,
}

impl Runs {
    fn new(alloc: Global) -> Runs {
        Runs {
            alloc,
            text: String::new(alloc),
            number: 0,
            count: 0,
        }
    }

    /// Adds a number.
    fn push(&mut self, number: usize) -> Result<(), AllocError> {
        if number != self.number {
            self.end_run()?;
            self.number = number;
        }
        self.count = self.count.saturating_add(1);
        Ok(())
    }

    /// Writes the last number, if there is one.
    fn end_run(&mut self) -> Result<(), AllocError> {
        if self.count > 0 {
            let run = format!(in self.alloc; " {}*{}", self.number, self.count)?;
            self.text.push_str(run.as_str())?;
            self.count = 0;
        }
        Ok(())
    }

    /// All numbers.
    fn into_text(mut self) -> Result<String, AllocError> {
        self.end_run()?;
        Ok(self.text)
    }
}

/// The line at which a text is refused, 0 for a plan's text.
fn refused_line(alloc: Global, text: &[u8]) -> Result<usize, AllocError> {
    match Plan::read(alloc, text) {
        Ok(_plan) => Ok(0),
        Err(PlanReadError::Line(line)) => Ok(line),
        Err(PlanReadError::OutOfMemory) => Err(AllocError),
    }
}

/// The lines for each other value of the byte at an offset, the values rising.
fn lines_at(alloc: Global, text: &mut [u8], at: usize) -> Result<String, AllocError> {
    let mut runs = Runs::new(alloc);
    let Some(before) = text.get(at).copied() else {
        return runs.into_text();
    };
    for value in 0..=u8::MAX {
        if value != before {
            text[at] = value;
            runs.push(refused_line(alloc, text)?)?;
        }
    }
    text[at] = before;
    runs.into_text()
}

/// Prints a line for each byte of a text: the lines at which the text is refused with each other
/// value of that byte, the values rising, 0 where it is a plan's text.
pub(crate) fn print_refused_lines(rt: &HostRuntime, text: &mut [u8]) -> Result<(), ExerciseError> {
    for at in 0..text.len() {
        let lines = lines_at(rt.alloc(), text, at)?;
        println!(rt; "{at}:{lines}")?;
    }
    Ok(())
}
