//! Files with the symbols of kernels.

use crate::error::InputError;
use crate::files::read;
use crate::folders::{files_in, is_folder};

/// The symbols of one kernel, and the file that they are from.
#[derive(Clone, Copy)]
pub struct NamedSymbols<'s> {
    /// None where all needed symbols are assumed to be there.
    pub file: Option<&'s str>,
    /// The text of the symbols, as in /proc/kallsyms.
    pub bytes: &'s [u8],
}

/// The symbols of kernels, as the command line names them.
#[derive(Drop)]
pub enum KernelSymbols {
    /// None are named: all needed symbols are assumed to be there.
    Assumed,
    /// Those of a file, for all kernels.
    All { file: String, bytes: Vec<u8> },
    /// Those of the files in a folder, each for the kernel of its name. For the others all needed
    /// symbols are assumed to be there.
    Folder { files: Vec<String> },
}

/// The name of a file without its folder.
pub(crate) fn file_name(path: &str) -> &str {
    match path.rsplit_once('/') {
        Some((_folder, name)) => name,
        None => path,
    }
}

/// The name of a file without its folder and its suffix: a last dot with only letters after it.
fn base_name(path: &str) -> &str {
    let name = file_name(path);
    match name.rsplit_once('.') {
        Some((base, suffix)) if suffix.chars().all(|letter| letter.is_alphabetic()) => base,
        _ => name,
    }
}

/// Whether a file has a kernel's symbols by its suffix.
fn has_symbols(path: &str) -> bool {
    path.ends_with(".symbols")
}

/// Whether a file has a kernel's types: it is the kernel's file, or has their suffix.
fn has_types(path: &str, kernel: &str) -> bool {
    path == kernel || path.ends_with(".btf")
}

impl KernelSymbols {
    /// The symbols that a word of the command line names, a file or a folder.
    ///
    /// # Errors
    ///
    /// `InputError` where the file or the folder can't be read, or memory runs out.
    pub fn named(rt: &HostRuntime, word: Option<&str>) -> Result<KernelSymbols, InputError> {
        let Some(word) = word else {
            return Ok(KernelSymbols::Assumed);
        };
        if is_folder(rt, word) {
            let files = files_in(rt, word)?;
            return Ok(KernelSymbols::Folder { files });
        }
        let bytes = read(rt, word)?;
        let file = String::from_str(rt.alloc(), word)?;
        Ok(KernelSymbols::All { file, bytes })
    }

    /// The file in the folder that has the name of a kernel's file, apart from their suffixes: the
    /// one with the suffix `symbols`, or else the first that doesn't have types, which may stand
    /// beside them.
    pub fn file_for(&self, kernel: &str) -> Option<&str> {
        let KernelSymbols::Folder { files } = self else {
            return None;
        };
        let wanted = base_name(kernel);
        let marked = files
            .iter()
            .find(|file| base_name(file) == wanted && has_symbols(file));
        if let Some(file) = marked {
            return Some(file.as_str());
        }
        let file = files.iter().find(|file| base_name(file) == wanted && !has_types(file, kernel))?;
        Some(file.as_str())
    }

    /// The symbols for all kernels, if they are given.
    pub fn shared(&self) -> Option<NamedSymbols<'_>> {
        match self {
            KernelSymbols::All { file, bytes } => Some(NamedSymbols {
                file: Some(file.as_str()),
                bytes: bytes.as_slice(),
            }),
            KernelSymbols::Assumed | KernelSymbols::Folder { .. } => None,
        }
    }
}
