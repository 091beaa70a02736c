//! Sections and symbols by their indexes.

use elf64::ElfFile;
use std::fmt;

/// A section or a symbol: its index, and its name where that can be read.
#[derive(Clone, Copy)]
pub(crate) struct Named<'a> {
    /// `section` or `symbol`.
    noun: &'static str,
    index: usize,
    name: Option<&'a str>,
}

fn section_name(object: &[u8], index: usize) -> Option<&str> {
    let elf = ElfFile::parse(object).ok()?;
    let section = elf.sections().find(|it| it.index() == index)?;
    section.name().ok()
}

fn symbol_name(object: &[u8], index: usize) -> Option<&str> {
    let elf = ElfFile::parse(object).ok()?;
    let symbol = elf.symbols().find(|it| it.index() == index)?;
    symbol.name().ok()
}

impl<'a> Named<'a> {
    /// The section of an object with an index.
    pub(crate) fn section(object: &'a [u8], index: usize) -> Named<'a> {
        Named {
            noun: "section",
            index,
            name: section_name(object, index),
        }
    }

    /// The symbol of an object with an index.
    pub(crate) fn symbol(object: &'a [u8], index: usize) -> Named<'a> {
        Named {
            noun: "symbol",
            index,
            name: symbol_name(object, index),
        }
    }
}

impl<'a> fmt::Display for Named<'a> {
    fn fmt<W: fmt::Write>(&self, f: &mut fmt::Formatter<W>) -> fmt::Result {
        match self.name {
            Some(name) => write!(f, "{} {} {name:?}", self.noun, self.index),
            None => write!(f, "{} {}", self.noun, self.index),
        }
    }
}
