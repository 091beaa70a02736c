//! Folders, as the files in them.

ghost use Rattle.std.specs.Prelude.{IfErr, IfOk};
ghost use Rattle.std.specs.Cmp.Lexicographic.{slice_cmp};
ghost use Rattle.std.specs.List.Sorted.{IsSorted};
ghost use Rattle.std.specs.Ordering.{nat_cmp};
ghost use Rattle.std.specs.String.{string_bytes};
ghost use Rattle.program_io.specs.Errors.{IsFolderError, IsUnread};

use crate::error::InputError;
use crate::files::{read, unread};
use quoting::FirstNames;
use std::alloc::{AllocError, Global};
use std::io::Read;
use std::{fmt, fs, io};
use type_files::{FileStart, FoundTypes, TypesFault, start_of, types_in};

/// Whether a name is that of a folder.
pub fn is_folder(rt: &HostRuntime, name: &str) -> bool {
    match fs::metadata(rt, name) {
        Ok(metadata) => metadata.is_dir(),
        Err(_) => false,
    }
}

/// The paths of what is in a folder.
fn entries_in(rt: &HostRuntime, folder: &str) -> Result<Vec<String>, InputError>
    ensures unread { IfErr result (IsUnread folder.now) }
{
    let alloc = rt.alloc();
    let entries = match fs::read_dir(rt, folder) {
        Ok(entries) => entries,
        Err(error) => return Err(unread(alloc, folder, error)),
    };
    let mut paths = Vec::new(alloc);
    for entry in entries {
        match entry {
            Ok(entry) => paths.push(String::from_str(alloc, entry.path().as_str())?)?,
            Err(error) => return Err(unread(alloc, folder, error)),
        }
    }
    Ok(paths)
}

/// The names of the files in a folder, each with the folder's name before it, in the order of the
/// bytes of their names. Folders in it are left out.
///
/// # Errors
///
/// `Read` where the folder can't be read, with the cause, and `OutOfMemory`.
pub fn files_in(rt: &HostRuntime, folder: &str) -> Result<Vec<String>, InputError>
    ensures sorted { IfOk result (λ names.
        IsSorted (λ one other. slice_cmp nat_cmp (string_bytes one) (string_bytes other))
        names.items) }
    ensures unread { IfErr result (IsUnread folder.now) }
{
    let mut names = Vec::new(rt.alloc());
    for path in entries_in(rt, folder)? {
        if !is_folder(rt, &path) {
            names.push(path)?;
        }
    }
    names.sort()?;
    Ok(names)
}

/// What is wanted of a folder.
#[derive(Clone, Copy, Debug, PartialEq, Eq)]
pub enum Wanted {
    /// Files with types of kernels.
    Types,
    /// ELF files.
    Objects,
}

impl fmt::Display for Wanted {
    fn fmt<W: fmt::Write>(&self, f: &mut fmt::Formatter<W>) -> fmt::Result {
        match self {
            Wanted::Types => f.write_str("file with types of a kernel"),
            Wanted::Objects => f.write_str("ELF file"),
        }
    }
}

/// What becomes of an entry of a folder.
#[derive(Clone, Copy, PartialEq, Eq)]
enum Entry {
    Taken,
    Folder,
    /// The types of a module.
    Module,
    /// A kernel's symbols beside its types.
    Symbols,
    Other,
}

/// Whether the last part of a path begins with a dot.
fn is_hidden(path: &str) -> bool {
    let name = match path.rsplit_once('/') {
        Some((_folder, name)) => name,
        None => path,
    };
    name.starts_with('.')
}

/// What becomes of a file of this content where types are wanted. A file whose types are damaged is
/// taken, so that it is reported on.
fn types_entry(bytes: &[u8]) -> Entry {
    match types_in(bytes) {
        Ok(FoundTypes::Section { .. } | FoundTypes::File { .. }) => Entry::Taken,
        Ok(FoundTypes::Unmarked { .. }) => Entry::Other,
        Err(TypesFault::Split) => Entry::Module,
        Err(TypesFault::NoSection | TypesFault::Format(_)) => Entry::Other,
        Err(TypesFault::Elf(_) | TypesFault::SectionData | TypesFault::SectionMagic) => {
            Entry::Taken
        }
    }
}

/// The first four bytes of a file, or less of a shorter one.
fn first_bytes(rt: &HostRuntime, name: &str) -> io::Result<[u8; 4]> {
    let mut file = fs::open(rt, name)?;
    let mut bytes = [0; 4];
    file.read_exact(&mut bytes)?;
    Ok(bytes)
}

/// What becomes of a file. One that can't be read is taken, so that it is reported on.
fn file_entry(rt: &HostRuntime, name: &str, wanted: Wanted) -> Entry {
    let start = match first_bytes(rt, name) {
        Ok(bytes) => start_of(&bytes),
        Err(error) if error.kind() == io::ErrorKind::UnexpectedEof => return Entry::Other,
        Err(_) => return Entry::Taken,
    };
    match (wanted, start) {
        (Wanted::Objects, FileStart::Elf) => Entry::Taken,
        (Wanted::Types, FileStart::Elf | FileStart::Types(_)) => match read(rt, name) {
            Ok(bytes) => types_entry(&bytes),
            Err(_) => Entry::Taken,
        },
        _ => Entry::Other,
    }
}

/// What becomes of an entry of a folder, by its path.
fn entry_of(rt: &HostRuntime, path: &str, wanted: Wanted) -> Entry {
    if is_hidden(path) {
        return Entry::Other;
    }
    if wanted == Wanted::Types && path.ends_with(".symbols") {
        return Entry::Symbols;
    }
    match fs::metadata(rt, path) {
        Ok(metadata) if metadata.is_dir() => Entry::Folder,
        Ok(metadata) if metadata.is_file() => file_entry(rt, path, wanted),
        Ok(_) => Entry::Other,
        Err(_) => Entry::Taken,
    }
}

/// Files that words name, and what was left out of the folders among them.
#[derive(Debug, Drop)]
pub struct NamedFiles {
    /// The files' names.
    pub names: Vec<String>,
    /// The files with types of modules that were left out.
    modules: Vec<String>,
    /// The folders that were left out.
    folders: Vec<String>,
    /// The number of the other files that were left out.
    others: usize,
}

impl NamedFiles {
    /// Adds an entry of a folder.
    fn add(&mut self, entry: Entry, path: String) -> Result<(), AllocError> {
        match entry {
            Entry::Taken => self.names.push(path)?,
            Entry::Folder => self.folders.push(path)?,
            Entry::Module => self.modules.push(path)?,
            Entry::Symbols => {}
            Entry::Other => self.others = self.others.saturating_add(1),
        }
        Ok(())
    }

    /// Adds the files of a folder.
    fn add_folder(
        &mut self,
        rt: &HostRuntime,
        folder: &str,
        wanted: Wanted,
    ) -> Result<(), InputError>
        ensures { IfErr result IsFolderError }
    {
        let before = self.names.len();
        let mut paths = entries_in(rt, folder)?;
        paths.sort()?;
        for path in paths {
            let entry = entry_of(rt, &path, wanted);
            self.add(entry, path)?;
        }
        if self.names.len() == before {
            return Err(empty(rt.alloc(), folder, wanted)?);
        }
        Ok(())
    }

    /// Adds the file that a word names, or the files of the folder that it names.
    fn add_word(&mut self, rt: &HostRuntime, word: &str, wanted: Wanted) -> Result<(), InputError>
        ensures { IfErr result IsFolderError }
    {
        if is_folder(rt, word) {
            return self.add_folder(rt, word, wanted);
        }
        self.names.push(String::from_str(rt.alloc(), word)?)?;
        Ok(())
    }

    /// What was left out of folders, in words.
    ///
    /// # Errors
    ///
    /// `AllocError` where memory runs out.
    pub fn left_out(&self, alloc: Global) -> Result<Option<String>, AllocError> {
        let mut text = String::new(alloc);
        push_names(alloc, &mut text, "types of modules", &self.modules)?;
        push_names(alloc, &mut text, "folders", &self.folders)?;
        match self.others {
            0 => {}
            1 => push_part(&mut text, "1 other file")?,
            others => push_part(&mut text, &format!(in alloc; "{others} other files")?)?,
        }
        if text.is_empty() {
            return Ok(None);
        }
        Ok(Some(text))
    }
}

/// Appends a part of a list.
fn push_part(text: &mut String, part: &str) -> Result<(), AllocError> {
    if !text.is_empty() {
        text.push_str(", ")?;
    }
    text.push_str(part)
}

/// Appends the first names of some files, after what they are, where there are some.
fn push_names(
    alloc: Global,
    text: &mut String,
    kind: &str,
    names: &[String],
) -> Result<(), AllocError> {
    if names.is_empty() {
        return Ok(());
    }
    let mut first = FirstNames::new(alloc);
    for name in names {
        first.push(name)?;
    }
    push_part(text, &format!(in alloc; "{kind} ({first})")?)
}

/// The error for a folder without files of the kind that is wanted.
fn empty(alloc: Global, word: &str, wanted: Wanted) -> Result<InputError, AllocError>
    ensures { IfOk result IsFolderError }
{
    Ok(InputError::EmptyFolder {
        name: String::from_str(alloc, word)?,
        wanted,
    })
}

/// The files that words name. A folder stands for the files of the wanted kind in it, in the order of
/// the bytes of their names, each with the folder's name before it: files whose names begin with a
/// dot, those that aren't of that kind by their first bytes, types of modules, and folders are left
/// out; so are files `NAME.symbols` beside types, of which nothing is said.
///
/// # Errors
///
/// `Read` where a folder can't be read, with the cause, `EmptyFolder` where it has no file of the
/// kind, and `OutOfMemory`.
pub fn named_files(
    rt: &HostRuntime,
    words: &[&str],
    wanted: Wanted,
) -> Result<NamedFiles, InputError>
    ensures { IfErr result IsFolderError }
{
    let alloc = rt.alloc();
    let mut files = NamedFiles {
        names: Vec::new(alloc),
        modules: Vec::new(alloc),
        folders: Vec::new(alloc),
        others: 0,
    };
    for word in words {
        files.add_word(rt, word, wanted)?;
    }
    Ok(files)
}
