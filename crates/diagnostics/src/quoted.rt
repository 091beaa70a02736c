//! Names in double quotes.

use std::fmt;

/// Names in double quotes, with a comma between them.
#[derive(Clone, Copy)]
pub(crate) struct Quoted<'n> {
    pub(crate) names: &'n [&'n str],
}

impl<'n> fmt::Display for Quoted<'n> {
    fn fmt<W: fmt::Write>(&self, f: &mut fmt::Formatter<W>) -> fmt::Result {
        let mut separator = "";
        for name in self.names {
            write!(f, "{separator}{name:?}")?;
            separator = ", ";
        }
        Ok(())
    }
}
