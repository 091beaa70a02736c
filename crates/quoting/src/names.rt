//! Lists of names, shortened for a report.

ghost use Rattle.std.specs.Prelude.{◌≡◌, OnErr, OnOk};
ghost use Rattle.quoting.specs.Names.{are_several, name_text, no_names, with_name};

use std::alloc::{AllocError, Global};
use std::fmt;
use std::marker::Model;

/// The number of names that are printed.
const LISTED: usize = 10;

/// The longest name that is printed whole, in bytes.
const WHOLE: usize = 256;

/// A name in double quotes. Of a name of more than 256 bytes, its beginning and its length in bytes
/// are printed.
#[derive(Clone, Copy, Debug)]
pub struct ShortName<'n> {
    /// The name.
    pub name: &'n str,
}

impl<'n> fmt::Display for ShortName<'n> {
    ghost output = { λ n. name_text n.name.now };

    fn fmt<W: fmt::Write>(&self, f: &mut fmt::Formatter<W>) -> fmt::Result {
        let name = self.name;
        if name.len() <= WHOLE {
            return write!(f, "{name:?}");
        }
        let (beginning, _rest) = name.split_at(name.floor_char_boundary(WHOLE));
        write!(f, "{beginning:?}.. ({} bytes)", name.len())
    }
}

/// The first 10 of some names, and the number of the others. An object of a megabyte can have
/// thousands of names that are nearly as long as the object, since names may share bytes.
#[derive(Debug, Drop)]
pub struct FirstNames<'n> {
    names: Vec<&'n str>,
    more: usize,
}

impl<'n> Model for FirstNames<'n> {
    ghost use Rattle.std.specs.Prelude.{map};
    ghost use Rattle.quoting.specs.Names.{ShortenedNames};

    ghost Value = { ShortenedNames };

    ghost view = { λ n. record { first = map (λ name. name.now) n.names.items; more = n.more } };
}

impl<'n> FirstNames<'n> {
    /// No names.
    pub fn new(alloc: Global) -> FirstNames<'n>
        ensures { result ≡ no_names }
    {
        FirstNames {
            names: Vec::new(alloc),
            more: 0,
        }
    }

    /// Adds a name.
    ///
    /// # Errors
    ///
    /// `AllocError` where memory runs out; the names are as before then.
    pub fn push(&mut self, name: &'n str) -> Result<(), AllocError>
        ensures ok { OnOk result (self.new ≡ with_name self.old name.now) }
        ensures err { OnErr result (self.new ≡ self.old) }
    {
        if self.names.len() < LISTED {
            self.names.push(name)?;
        } else {
            self.more = self.more.saturating_add(1);
        }
        Ok(())
    }

    /// Whether there are two names or more.
    pub fn are_several(&self) -> bool
        ensures { result ≡ are_several self.now }
    {
        self.names.len() > 1
    }
}

impl<'n> fmt::Display for FirstNames<'n> {
    fn fmt<W: fmt::Write>(&self, f: &mut fmt::Formatter<W>) -> fmt::Result {
        let mut separator = "";
        for name in self.names.as_slice() {
            let name = ShortName { name };
            write!(f, "{separator}{name}")?;
            separator = ", ";
        }
        match self.more {
            0 => Ok(()),
            more => write!(f, " and {more} more"),
        }
    }
}
