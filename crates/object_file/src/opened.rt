//! ELF files as eBPF objects, before their sections are read.

ghost use Rattle.std.specs.Prelude.{◌≡◌, ◌≢◌, ◌∷◌, [], Contains, false, codes, IfErr, IfOk, IfSome, OnOk, Some};
ghost use Rattle.std.specs.List.{list_any};
ghost use Rattle.std.specs.Option.{IsSome, option_copied};
ghost use Rattle.elf64.specs.Symbols.{symbols_of};
ghost use Rattle.ebpf_items.specs.declared.error.ParseError.TheVariants.{OutOfMemory};
ghost use Rattle.object_file.specs.ByteOrders.{file_endianness};
ghost use Rattle.object_file.specs.Faults.{HasFileFault, HasFirstFault, HasHeldFault, HasSectionsFault, HasSoundFirst, HasSoundLicense, HasSoundVersion, IsOpenable};
ghost use Rattle.object_file.specs.License.{license_of, HasNoNul};
ghost use Rattle.object_file.specs.Reading.{contents_named, is_unreadable, read_sections};
ghost use Rattle.object_file.specs.RelocationTable.{AreRelocationsOf};
ghost use Rattle.object_file.specs.Relocations.{has_relocation_without_symbol};
ghost use Rattle.object_file.specs.Symbols.{is_unnamed, symbols_in, unnamed_symbol};
ghost use Rattle.object_file.specs.Version.{version_of, IsKnownVersion};

use crate::license::{DEFAULT_LICENSE, parse_license};
use crate::read::{ReadSection, ReadSymbol};
use crate::reading::sections_of;
use crate::relocations::RelocationTable;
use crate::symbols::{SymbolTable, first_unnamed};
use crate::version::parse_version;
use btf_records::Endianness;
use ebpf_items::ParseError;
use elf64::{ByteOrder, ElfFile, SectionView};
use std::alloc::{AllocError, Global};
use std::marker::Model;

/// An ELF file whose license, version and names of symbols have no fault. Its sections may have
/// faults.
#[derive(Debug)]
pub struct OpenedFile<'a> {
    pub(crate) bytes: &'a [u8],
    pub(crate) elf: ElfFile<'a>,
    symbols: SymbolTable<'a>,
    relocations: RelocationTable,
    license: &'a [u8],
    kernel_version: Option<u32>,
}

impl<'a> Drop for OpenedFile<'a> {
    // A single call where a value is dropped, instead of one call per field.
    fn drop(self) {
        let OpenedFile {
            bytes: _,
            elf: _elf,
            symbols: _symbols,
            relocations: _relocations,
            license: _,
            kernel_version: _,
        } = self;
    }
}

impl<'a> Model for OpenedFile<'a> {
    ghost use Rattle.std.specs.Prelude.{List, ℕ};
    ghost use Rattle.object_file.specs.OpenedFile.{IsOpenedFile};

    ghost Value = { List ℕ };

    ghost view = { λ f. f.elf };

    ghost invariant = { λ f.
        IsOpenedFile f.elf f.bytes.now f.symbols f.relocations f.license.now f.kernel_version };
}

/// The byte order of a file's numbers, as that of type information.
fn endianness(elf: &ElfFile<'_>) -> Endianness
    ensures { result ≡ file_endianness elf.now }
{
    match elf.order() {
        ByteOrder::Little => Endianness::Little,
        ByteOrder::Big => Endianness::Big,
    }
}

/// The bytes of the first section with this name.
pub(crate) fn contents_of<'a>(elf: &ElfFile<'a>, name: &str) -> Option<&'a [u8]>
    ensures { option_copied result ≡ contents_named elf.now name.now }
{
    let section = elf.section_by_name(name)?;
    section.data().ok()
}

/// The bytes of the first section with a name, if there is one, whose relocations all have a
/// symbol.
fn first_contents<'a>(
    elf: &ElfFile<'a>,
    relocations: &RelocationTable,
    name: &str,
) -> Result<Option<&'a [u8]>, ParseError>
    requires { AreRelocationsOf relocations.now elf.now }
    ensures value { IfOk result (λ bytes. option_copied bytes ≡ contents_named elf.now name.now) }
    ensures accepted { OnOk result (HasSoundFirst elf.now name.now) }
    ensures refused { IfErr result (HasFirstFault elf.now name.now) }
{
    let Some(section) = elf.section_by_name(name) else {
        return Ok(None);
    };
    let index = section.index();
    match section.data() {
        Ok(_) if relocations.lacks_symbol(index) => Err(ParseError::UnsupportedRelocationTarget),
        Ok(bytes) => Ok(Some(bytes)),
        Err(error) => Err(ParseError::SectionError { index, error }),
    }
}

/// The license of a file; `GPL` where it has none.
#[tactic(auto, using(crate::proofs::FirstFaults::license_fault))]
fn license<'a>(
    alloc: Global,
    elf: &ElfFile<'a>,
    relocations: &RelocationTable,
) -> Result<&'a [u8], ParseError>
    requires { AreRelocationsOf relocations.now elf.now }
    ensures value { IfOk result (λ license. license.now ≡ license_of elf.now) }
    ensures text { IfOk result (λ license. HasNoNul license.now) }
    ensures accepted { OnOk result (HasSoundLicense elf.now) }
    ensures first { OnOk result (HasSoundFirst elf.now (codes "license")) }
    ensures refused { IfErr result (λ e. e ≢ OutOfMemory → HasHeldFault elf.now e) }
{
    match first_contents(elf, relocations, "license")? {
        Some(bytes) => parse_license(alloc, bytes),
        None => Ok(DEFAULT_LICENSE),
    }
}

/// The kernel version in a file.
#[tactic(auto, using(crate::proofs::FirstFaults::version_fault))]
fn kernel_version(
    alloc: Global,
    elf: &ElfFile<'_>,
    relocations: &RelocationTable,
) -> Result<Option<u32>, ParseError>
    requires { AreRelocationsOf relocations.now elf.now }
    ensures value { IfOk result (λ version. version ≡ version_of elf.now) }
    ensures known { IfOk result IsKnownVersion }
    ensures accepted { OnOk result (HasSoundVersion elf.now) }
    ensures first { OnOk result (HasSoundFirst elf.now (codes "version")) }
    ensures refused { IfErr result (λ e. e ≢ OutOfMemory → HasHeldFault elf.now e) }
{
    match first_contents(elf, relocations, "version")? {
        Some(bytes) => parse_version(alloc, endianness(elf), bytes),
        None => Ok(None),
    }
}

/// The index of the first symbol of a file whose name can't be read; [`OpenedFile::parse`] reports
/// it as `BtfError(InvalidSymbolName)`. None where the file can't be read so far.
pub fn unnamed_symbol(bytes: &[u8]) -> Option<usize>
    ensures { IfSome result (λ index. unnamed_symbol bytes.now ≡ Some index) }
{
    let elf = ElfFile::parse(bytes).ok()?;
    first_unnamed(&elf)
}

impl<'a> OpenedFile<'a> {
    /// Reads the headers of a file, its license, its version and the names of its symbols, in this
    /// order.
    ///
    /// # Errors
    ///
    /// `ElfError` where the file isn't an ELF64 file that can be read. For the first section
    /// `license` and then for the first section `version`: `SectionError` where its bytes can't be
    /// read, and `UnsupportedRelocationTarget` for a relocation without a symbol. `InvalidLicense`
    /// and `MissingLicenseNullTerminator` for a section `license` that doesn't hold a text ended by
    /// a NUL, `InvalidKernelVersion` for a section `version` that isn't four bytes,
    /// `BtfError(InvalidSymbolName)` for a symbol whose name can't be read, and `OutOfMemory`.
    pub fn parse(alloc: Global, bytes: &'a [u8]) -> Result<OpenedFile<'a>, ParseError>
        ensures value { IfOk result (λ f. f ≡ bytes.entry.now) }
        ensures accepted { OnOk result (IsOpenable bytes.entry.now) }
        ensures refused { IfErr result (λ e. e ≢ OutOfMemory → HasFileFault bytes.entry.now e) }
    {
        let elf = ElfFile::parse(bytes)?;
        let relocations = RelocationTable::read(alloc, &elf)?;
        let license = license(alloc, &elf, &relocations)?;
        let kernel_version = kernel_version(alloc, &elf, &relocations)?;
        let symbols = SymbolTable::read(alloc, &elf)?;
        Ok(OpenedFile {
            bytes,
            elf,
            symbols,
            relocations,
            license,
            kernel_version,
        })
    }

    /// The byte order of the file's numbers, as that of type information.
    pub fn endianness(&self) -> Endianness
        ensures { result ≡ file_endianness self.now }
    {
        endianness(&self.elf)
    }

    /// The license, without the NUL that ends it; `GPL` where the file has none.
    pub fn license(&self) -> &'a [u8]
        ensures value { result.now ≡ license_of self.now }
        ensures text { HasNoNul result.now }
    {
        self.license
    }

    /// The kernel version that the object was made for. `None` is any version.
    pub fn kernel_version(&self) -> Option<u32>
        ensures value { result ≡ version_of self.now }
        ensures known { IsKnownVersion result }
    {
        self.kernel_version
    }

    /// The symbols, in order of index.
    pub fn symbols(&self) -> &[ReadSymbol<'a>]
        ensures value { result.now ≡ symbols_of self.now }
        ensures named { list_any is_unnamed (symbols_of self.now) ≡ false }
    {
        self.symbols.all.as_slice()
    }

    /// The symbols in the section at an index, in order.
    pub fn symbols_in(&self, index: usize) -> &[ReadSymbol<'a>]
        ensures { result.now ≡ symbols_in (symbols_of self.now) index }
    {
        let Some(symbols) = self.symbols.in_section(index) else {
            return &self.symbols.all.as_slice()[..0];
        };
        symbols.as_slice()
    }

    /// The relocations, by section.
    pub(crate) fn relocations(&self) -> &RelocationTable
        ensures { AreRelocationsOf result.now self.now }
    {
        &self.relocations
    }

    /// The bytes of the first section `.BTF`, if there is one.
    ///
    /// # Errors
    ///
    /// `SectionError` where its bytes can't be read, and `UnsupportedRelocationTarget` where it has
    /// a relocation without a symbol.
    #[tactic(auto, using(crate::proofs::FirstFaults::types_fault))]
    pub fn types(&self) -> Result<Option<&'a [u8]>, ParseError>
        ensures value { IfOk result (λ bytes.
            option_copied bytes ≡ contents_named self.now (codes ".BTF")) }
        ensures accepted { OnOk result (HasSoundFirst self.now (codes ".BTF")) }
        ensures refused { IfErr result (HasFileFault self.now) }
    {
        first_contents(&self.elf, &self.relocations, ".BTF")
    }

    /// The bytes of the first section `.BTF.ext`, if there is one, of a file with a section `.BTF`.
    ///
    /// # Errors
    ///
    /// As of [`OpenedFile::types`].
    pub fn extension(&self) -> Result<Option<&'a [u8]>, ParseError>
        requires { IsSome (contents_named self.now (codes ".BTF")) }
        ensures value { IfOk result (λ bytes.
            option_copied bytes ≡ contents_named self.now (codes ".BTF.ext")) }
        ensures accepted { OnOk result (HasSoundFirst self.now (codes ".BTF.ext")) }
        ensures refused { IfErr result (HasFileFault self.now) }
    {
        first_contents(&self.elf, &self.relocations, ".BTF.ext")
    }

    /// The sections that are read, in order of index: all sections except a second `.BTF` or
    /// `.BTF.ext` and later ones, and except a `.BTF.ext` in a file without a `.BTF`.
    pub fn sections(&self, alloc: Global) -> Result<Vec<SectionView<'a>>, AllocError>
        ensures { IfOk result (λ v. v.items ≡ read_sections self.now) }
    {
        sections_of(alloc, &self.elf)
    }

    /// Reads the name and the bytes of a section.
    ///
    /// # Errors
    ///
    /// `SectionError` where its name or its bytes can't be read, and `UnsupportedRelocationTarget`
    /// where it has a relocation without a symbol.
    #[tactic(auto, using(crate::proofs::SectionFaults::read_fault))]
    pub fn read_section(&self, view: SectionView<'a>) -> Result<ReadSection<'a>, ParseError>
        ensures value { IfOk result (λ section. section ≡ view.entry) }
        ensures readable { OnOk result (is_unreadable view.entry ≡ false) }
        ensures related { OnOk result (has_relocation_without_symbol self.now view.entry ≡ false) }
        ensures refused { IfErr result (HasSectionsFault self.now (view.entry ∷ [])) }
        ensures of_file { Contains (read_sections self.now) view.entry
            → IfErr result (HasFileFault self.now) }
    {
        let lacks_symbol = self.relocations.lacks_symbol(view.index());
        let section = ReadSection::new(view)?;
        if lacks_symbol {
            return Err(ParseError::UnsupportedRelocationTarget);
        }
        Ok(section)
    }
}
