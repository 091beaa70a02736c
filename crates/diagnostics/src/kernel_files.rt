//! The files with a kernel's types and symbols.

use crate::quoted::Quoted;
use std::alloc::{AllocError, Global};

/// The names of the files with a kernel's types and symbols.
#[derive(Clone, Copy, Debug)]
pub struct KernelFiles<'k> {
    /// The files of its types, in order.
    pub types: &'k [&'k str],
    /// The file of its symbols.
    pub symbols: Option<&'k str>,
    /// Whether messages name the files. A message that several kernels have doesn't.
    pub are_named: bool,
    /// Whether messages name the options of programs that give what is missing.
    pub has_options: bool,
}

/// How kernel types and symbols are given.
const TYPES: &str = "; --types FILE gives them, as --types /sys/kernel/btf/vmlinux";

const SYMBOLS: &str = "; --symbols FILE gives them, as --symbols /proc/kallsyms";

/// Where types are searched, without the names of files.
const THE_TYPES: &str = "looked for in the kernel's types";

/// Where symbols are searched, without the name of a file.
const THE_SYMBOLS: &str = "looked for in the kernel's symbols, where the address 0 counts as none";

impl<'k> KernelFiles<'k> {
    /// Words on an option, where messages name options.
    pub(crate) fn option(&self, words: &'static str) -> &'static str {
        if self.has_options { words } else { "" }
    }

    /// That no types are given.
    pub(crate) fn no_types(&self, alloc: Global) -> Result<String, AllocError> {
        format!(in alloc; "none are given{}", self.option(TYPES))
    }

    /// Where types of externs are searched.
    pub(crate) fn first_types(&self, alloc: Global) -> Result<String, AllocError> {
        match self.types.first() {
            Some(_) if !self.are_named => String::from_str(alloc, THE_TYPES),
            Some(name) if self.types.len() > 1 => {
                format!(in alloc; "looked for in {name:?}, the first file of --types")
            }
            Some(name) => format!(in alloc; "looked for in {name:?}"),
            None => self.no_types(alloc),
        }
    }

    /// Where types of type relocations are searched.
    pub(crate) fn all_types(&self, alloc: Global) -> Result<String, AllocError> {
        if self.types.is_empty() {
            return self.no_types(alloc);
        }
        if !self.are_named {
            return String::from_str(alloc, THE_TYPES);
        }
        let names = Quoted { names: self.types };
        format!(in alloc; "looked for in {names}")
    }

    /// Where symbols are searched.
    pub(crate) fn symbols(&self, alloc: Global) -> Result<String, AllocError> {
        match self.symbols {
            Some(_) if !self.are_named => String::from_str(alloc, THE_SYMBOLS),
            Some(name) => {
                format!(in alloc; "looked for in {name:?}, where the address 0 counts as none")
            }
            None => format!(in alloc; "no kernel symbols are given{}", self.option(SYMBOLS)),
        }
    }
}
