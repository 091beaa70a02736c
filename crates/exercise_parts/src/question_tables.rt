//! The tables of a text.

use crate::error::ExerciseError;
use crate::question_words::{info_word, number, push_text};
use crate::sections::section;
use btf::Endianness;
use std::alloc::Global;

/// A name, and its offset in the strings.
#[derive(Clone, Copy)]
struct Name<'t> {
    name: &'t str,
    offset: u32,
}

/// A table's name, and the words of its records.
#[derive(Drop)]
struct Table<'t> {
    name: &'t str,
    words: Vec<u32>,
}

/// Tables of types, and their strings.
#[derive(Drop)]
pub(crate) struct Tables<'t> {
    alloc: Global,
    strings: Vec<u8>,
    names: Vec<Name<'t>>,
    tables: Vec<Table<'t>>,
}

/// The value of a word of a record.
fn value_of(names: &[Name<'_>], word: &str) -> Result<u32, ExerciseError> {
    if let Some(quoted) = word.strip_prefix('\'') {
        let name = quoted.strip_suffix('\'').unwrap_or(quoted);
        let found = names.iter().find(|other| other.name == name);
        return found.map(|name| name.offset).ok_or(ExerciseError::Usage);
    }
    match number(word) {
        Ok(value) => Ok(value),
        Err(_) => info_word(word),
    }
}

impl<'t> Tables<'t> {
    /// No tables, and no strings.
    pub(crate) fn new(alloc: Global) -> Tables<'t> {
        Tables {
            alloc,
            strings: Vec::new(alloc),
            names: Vec::new(alloc),
            tables: Vec::new(alloc),
        }
    }

    /// The number of bytes of the strings.
    pub(crate) fn strings_len(&self) -> Result<u32, ExerciseError> {
        u32::try_from(self.strings.len()).map_err(|_| ExerciseError::Usage)
    }

    /// Adds a name to the strings.
    fn push_name(&mut self, word: &'t str) -> Result<(), ExerciseError> {
        let offset = self.strings_len()?;
        let name = word.strip_suffix('\\').unwrap_or(word);
        self.names.push(Name { name, offset })?;
        push_text(&mut self.strings, name)?;
        if name.len() == word.len() {
            self.strings.push(0)?;
        }
        Ok(())
    }

    /// Adds names to the strings.
    pub(crate) fn push_names(&mut self, words: &[&'t str]) -> Result<(), ExerciseError> {
        for word in words {
            self.push_name(word)?;
        }
        Ok(())
    }

    /// Adds a table.
    pub(crate) fn push(&mut self, name: &'t str, words: &[&str]) -> Result<(), ExerciseError> {
        let words_of_none = Vec::new(self.alloc);
        self.tables.push(Table {
            name,
            words: words_of_none,
        })?;
        self.push_words(words)
    }

    /// Adds words to the last table.
    pub(crate) fn push_words(&mut self, words: &[&str]) -> Result<(), ExerciseError> {
        let mut table = self.tables.pop().ok_or(ExerciseError::Usage)?;
        for word in words {
            table.words.push(value_of(self.names.as_slice(), word)?)?;
        }
        Ok(self.tables.push(table)?)
    }

    /// The section of a table, with a text after its strings.
    pub(crate) fn section_of(
        &self,
        order: Endianness,
        name: &str,
        added: &[u8],
    ) -> Result<Vec<u8>, ExerciseError> {
        let Some(table) = self.tables.iter().find(|table| table.name == name) else {
            return Err(ExerciseError::Usage);
        };
        let (words, strings) = (table.words.as_slice(), self.strings.as_slice());
        Ok(section(self.alloc, order, words, strings, added)?)
    }
}
