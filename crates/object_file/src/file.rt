//! Object files.

ghost use Rattle.std.specs.Prelude.{◌≡◌, ◌≢◌, ◌≤◌, Some, false, map, slice_get, IfOk, IfErr, OnOk};
ghost use Rattle.std.specs.List.{list_any};
ghost use Rattle.std.specs.List.Sorted.{IsStrictlySortedBy};
ghost use Rattle.std.specs.Option.{option_copied};
ghost use Rattle.std.specs.BTreeMap.Range.{entries_between};
ghost use Rattle.std.specs.Ordering.{nat_cmp};
ghost use Rattle.std.specs.declared.ops.Bound.TheVariants.{Included, Excluded};
ghost use Rattle.elf64.specs.Symbols.{symbols_of};
ghost use Rattle.elf64.specs.Relocations.{relocations_of};
ghost use Rattle.ebpf_items.specs.declared.error.ParseError.TheVariants.{OutOfMemory};
ghost use Rattle.object_file.specs.ByteOrders.{file_endianness};
ghost use Rattle.object_file.specs.Faults.{HasFileFault, HasSectionsFault, IsFileFaultless, IsOpenable};
ghost use Rattle.object_file.specs.License.{license_of, HasNoNul};
ghost use Rattle.object_file.specs.Reading.{contents_named, is_unreadable, read_sections};
ghost use Rattle.object_file.specs.Relocations.{has_relocation_without_symbol, last_of_offset, relocation_at, relocations_by_offset};
ghost use Rattle.object_file.specs.Symbols.{is_unnamed, symbol_at, symbols_in};
ghost use Rattle.object_file.specs.Version.{version_of, IsKnownVersion};

use crate::opened::{OpenedFile, contents_of};
use crate::read::{ReadSection, ReadSymbol};
use btf_records::Endianness;
use ebpf_items::ParseError;
use elf64::RelocView;
use std::alloc::{AllocError, Global};
use std::collections::btree_map::{Iter, Range};
use std::marker::Model;

/// An ELF file whose sections and symbols can be read, and whose license and version are
/// well-formed.
#[derive(Debug)]
pub struct ObjectFile<'a> {
    opened: OpenedFile<'a>,
    sections: Vec<ReadSection<'a>>,
}

impl<'a> Drop for ObjectFile<'a> {
    // A single call where a value is dropped, instead of one call per field.
    fn drop(self) {
        let ObjectFile {
            opened: _opened,
            sections: _sections,
        } = self;
    }
}

impl<'a> Model for ObjectFile<'a> {
    ghost use Rattle.std.specs.Prelude.{◌≡◌, List, ℕ};
    ghost use Rattle.object_file.specs.Reading.{read_sections};

    ghost Value = { List ℕ };

    ghost view = { λ f. f.opened };

    ghost invariant = { λ f. f.sections.items ≡ read_sections f.opened };
}

/// Reads the sections of a file, in order of index.
fn read_sections<'a>(
    alloc: Global,
    file: &OpenedFile<'a>,
) -> Result<Vec<ReadSection<'a>>, ParseError>
    ensures value { IfOk result (λ v. v.items ≡ read_sections file.now) }
    ensures readable { OnOk result (list_any is_unreadable (read_sections file.now) ≡ false) }
    ensures related { OnOk result
        (list_any (has_relocation_without_symbol file.now) (read_sections file.now) ≡ false) }
    ensures refused { IfErr result (λ e.
        e ≢ OutOfMemory → HasSectionsFault file.now (read_sections file.now) e) }
{
    let mut sections = Vec::new(alloc);
    for view in file.sections(alloc)? {
        sections.push(file.read_section(view)?)?;
    }
    Ok(sections)
}

/// The symbol at an index of a list.
fn symbol_of_place<'s, 'a>(
    symbols: &'s [ReadSymbol<'a>],
    place: usize,
) -> Option<&'s ReadSymbol<'a>>
    ensures { option_copied result ≡ slice_get symbols.entry.now place }
{
    symbols.get(place)
}

impl<'a> ObjectFile<'a> {
    /// A file with its sections.
    pub fn new(opened: OpenedFile<'a>, sections: Vec<ReadSection<'a>>) -> ObjectFile<'a>
        requires openable { IsOpenable opened }
        requires read { sections.items ≡ read_sections opened }
        requires readable { list_any is_unreadable (read_sections opened) ≡ false }
        requires related { list_any (has_relocation_without_symbol opened) (read_sections opened)
            ≡ false }
        ensures value { result ≡ opened.entry }
        ensures faultless { IsFileFaultless opened.entry }
    {
        ObjectFile { opened, sections }
    }

    /// Reads a file and its sections: [`OpenedFile::parse`], and then [`OpenedFile::read_section`]
    /// for each section in order of index.
    ///
    /// # Errors
    ///
    /// Those of these calls.
    pub fn parse(alloc: Global, bytes: &'a [u8]) -> Result<ObjectFile<'a>, ParseError>
        ensures value { IfOk result (λ f. f ≡ bytes.entry.now) }
        ensures accepted { OnOk result (IsFileFaultless bytes.entry.now) }
        ensures refused { IfErr result (λ e. e ≢ OutOfMemory → HasFileFault bytes.entry.now e) }
    {
        let opened = OpenedFile::parse(alloc, bytes)?;
        let sections = read_sections(alloc, &opened)?;
        Ok(ObjectFile::new(opened, sections))
    }

    /// A copy, for which the file is read again.
    pub fn try_clone(&self) -> Result<ObjectFile<'a>, AllocError>
        ensures { IfOk result (λ file. file ≡ self.now) }
    {
        match ObjectFile::parse(*self.sections.allocator(), self.opened.bytes) {
            Ok(file) => Ok(file),
            Err(_) => Err(AllocError),
        }
    }

    /// The byte order of the file's numbers, as that of type information.
    pub fn endianness(&self) -> Endianness
        ensures { result ≡ file_endianness self.now }
    {
        self.opened.endianness()
    }

    /// The license, without the NUL that ends it; `GPL` where the file has none.
    pub fn license(&self) -> &'a [u8]
        ensures value { result.now ≡ license_of self.now }
        ensures text { HasNoNul result.now }
    {
        self.opened.license()
    }

    /// The kernel version that the object was made for. `None` is any version.
    pub fn kernel_version(&self) -> Option<u32>
        ensures value { result ≡ version_of self.now }
        ensures known { IsKnownVersion result }
    {
        self.opened.kernel_version()
    }

    /// The sections that are read, in order of index: all sections except a second `.BTF` or
    /// `.BTF.ext` and later ones, and except a `.BTF.ext` in a file without a `.BTF`.
    pub fn sections(&self) -> &[ReadSection<'a>]
        ensures { result.now ≡ read_sections self.now }
    {
        self.sections.as_slice()
    }

    /// The symbols, in order of index.
    pub fn symbols(&self) -> &[ReadSymbol<'a>]
        ensures value { result.now ≡ symbols_of self.now }
        ensures named { list_any is_unnamed (symbols_of self.now) ≡ false }
    {
        self.opened.symbols()
    }

    /// The symbols in the section at an index, in order.
    pub fn symbols_in(&self, index: usize) -> &[ReadSymbol<'a>]
        ensures { result.now ≡ symbols_in (symbols_of self.now) index }
    {
        self.opened.symbols_in(index)
    }

    /// The relocations of the section at an index, by relocation section and then by entry.
    pub fn relocations_of(&self, index: usize) -> &[RelocView]
        ensures { result.now ≡ relocations_of self.now index }
    {
        let Some(relocations) = self.opened.relocations().of_section(index) else {
            return &[];
        };
        relocations.as_slice()
    }

    /// The relocations of the section at an index with their offsets, in strictly ascending order.
    /// Of several relocations at one offset only the last is in the list.
    pub fn relocations_by_offset(&self, index: usize) -> Iter<'_, u64, RelocView>
        ensures value { result ≡ relocations_by_offset self.now index }
        ensures rising { IsStrictlySortedBy nat_cmp
            (map (λ e. e.0) (relocations_by_offset self.now index)) }
    {
        self.opened.relocations().by_offset(index).iter()
    }

    /// The relocations of the section at an index, by offset, from `start` inclusive to `end`
    /// exclusive.
    pub fn relocations_in(&self, index: usize, start: u64, end: u64) -> Range<'_, u64, RelocView>
        requires { start ≤ end }
        ensures { result
            ≡ entries_between nat_cmp (Included start) (Excluded end)
            (relocations_by_offset self.now index) }
    {
        self.opened.relocations().by_offset(index).range(start..end)
    }

    /// The relocation at an offset in the section at an index; the last of several.
    pub fn relocation_at(&self, index: usize, offset: u64) -> Option<&RelocView>
        ensures value { option_copied result ≡ relocation_at self.now index offset }
        ensures last { option_copied result
            ≡ last_of_offset (relocations_of self.now index) offset }
    {
        self.opened.relocations().by_offset(index).get(&offset)
    }

    /// The symbol at an index of the symbol table; none for index 0.
    pub fn symbol_at(&self, index: usize) -> Option<&ReadSymbol<'a>>
        ensures { option_copied result ≡ symbol_at self.now index }
    {
        let place = index.checked_sub(1)?;
        symbol_of_place(self.symbols(), place)
    }

    /// The bytes of the first section with this name, if they can be read.
    pub fn contents_of(&self, name: &str) -> Option<&'a [u8]>
        ensures { option_copied result ≡ contents_named self.now name.now }
    {
        contents_of(&self.opened.elf, name)
    }
}
