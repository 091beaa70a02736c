//! A parsed object.

ghost use Rattle.std.specs.Prelude.{◌≡◌, ◌≢◌, [], ◌==◌, ◌&&◌, not, false, is_some, length, IfErr, IfOk, OnErr, OnOk};
ghost use Rattle.std.specs.BTreeMap.{is_at};
ghost use Rattle.std.specs.Cmp.Lexicographic.{slice_cmp};
ghost use Rattle.std.specs.List.{list_any};
ghost use Rattle.std.specs.Map.{lookup};
ghost use Rattle.std.specs.Option.{option_copied, option_map, option_map_or};
ghost use Rattle.std.specs.Ordering.{nat_cmp};
ghost use Rattle.ebpf_items.specs.declared.error.ParseError.TheVariants.{OutOfMemory};
ghost use Rattle.object_file.specs.ByteOrders.{file_endianness};
ghost use Rattle.object_file.specs.License.{license_of, HasNoNul};
ghost use Rattle.object_file.specs.Version.{version_of, IsKnownVersion};
ghost use Rattle.object_maps.specs.Found.{AreLast};
ghost use Rattle.object_maps.specs.Maps.{found_maps};
ghost use Rattle.object_parts.specs.Content.{HaveFunctions, key_cmp};
ghost use Rattle.object_file.specs.Faults.{IsOpenable};
ghost use Rattle.object_file.specs.Reading.{read_sections};
ghost use Rattle.object_contents.specs.Contents.{AreContentsOf};
ghost use Rattle.object_contents.specs.Faults.{HasFault, IsFaultless};
ghost use Rattle.ebpf_object.specs.ParsedObject.{IsParsed};
ghost use Rattle.object_contents.specs.Types.{AreTypesOf};
ghost use Rattle.linker.specs.Linked.{AllCanBeLinked, AreLinked, HasFaultOf, program_keys, unlinked};
ghost use Rattle.relocation_errors.specs.declared.error.RelocationError.TheVariants as RelocationError;
ghost use Rattle.std.specs.String.{string_bytes};
ghost use Rattle.ebpf_object.specs.TextSections as code;
ghost use Rattle.ebpf_object.specs.Rewriting.{AreAnswered, IsRefused, IsRewritten};
ghost use Rattle.btf_records.specs.declared.error.BtfError.TheVariants as BtfError;

use crate::rewriting::rewrite;
use crate::text_sections::text_sections;
use btf_ext::BtfExt;
use btf_records::{BtfError, BtfFeature, Endianness};
use btf_sanitize::Answers;
use btf_tables::Btf;
use ebpf_items::ParseError;
use linker::relocate_calls;
use object_contents::{Contents, Types, read_contents, read_types};
use object_externs::{ExternDesc, Externs};
use object_file::{ObjectFile, OpenedFile};
use object_maps::Maps;
use object_parts::{Function, Functions, Programs};
use relocation_errors::EbpfRelocationError;
use std::alloc::{AllocError, Global};
use std::collections::BTreeSet;
use std::marker::Model;
use std::mem;

/// An object: what a file holds before anything is relocated. Each program has its function.
#[derive(Debug)]
pub struct Object<'a> {
    pub(crate) alloc: Global,
    pub(crate) file: ObjectFile<'a>,
    pub(crate) btf: Option<Btf<'a>>,
    pub(crate) btf_ext: Option<BtfExt<'a>>,
    pub(crate) maps: Maps<'a>,
    pub(crate) programs: Programs<'a>,
    pub(crate) functions: Functions<'a>,
    pub(crate) externs: Externs<'a>,
}

impl<'a> Drop for Object<'a> {
    // A single call where a value is dropped, instead of one call per field.
    fn drop(self) {
        let Object {
            alloc: _,
            file: _file,
            btf: _btf,
            btf_ext: _btf_ext,
            maps: _maps,
            programs: _programs,
            functions: _functions,
            externs: _externs,
        } = self;
    }
}

impl<'a> Model for Object<'a> {
    ghost use Rattle.object_parts.specs.Content.{HaveFunctions};
    ghost use Rattle.ebpf_object.specs.ParsedObject.{ObjectContent};

    ghost Value = { ObjectContent };

    ghost view = { λ o.
        record {
          file = o.file;
          types = o.btf;
          extension = o.btf_ext;
          maps = o.maps;
          programs = o.programs;
          functions = o.functions;
          externs = o.externs;
        } };

    ghost invariant = { λ o. HaveFunctions o.programs o.functions };
}

/// Replaces a value. The old value is dropped only here.
pub(crate) fn put<T: Drop>(place: &mut T, value: T)
    ensures { place.new ≡ value }
{
    *place = value;
}

/// An object of a file, of which nothing else is read yet.
pub(crate) fn unread<'a>(alloc: Global, file: ObjectFile<'a>) -> Object<'a>
    ensures file { result.file ≡ file.entry }
    ensures programs { result.programs ≡ [] }
{
    Object {
        alloc,
        file,
        btf: None,
        btf_ext: None,
        maps: Maps::new(alloc),
        programs: Programs::new(alloc),
        functions: Functions::new(alloc),
        externs: Externs::none(alloc),
    }
}

/// The object of a file, of its types and of what its sections hold.
fn whole<'a>(
    alloc: Global,
    file: OpenedFile<'a>,
    types: Types<'a>,
    contents: Contents<'a>,
) -> Object<'a>
    requires openable { IsOpenable file }
    requires types { AreTypesOf file types.table types.extension types.externs }
    requires contents { AreContentsOf file types.table types.extension (read_sections file)
        contents }
    ensures value { IsParsed file.entry result }
    ensures last { AreLast result.maps (found_maps file.entry result.types) }
    ensures faultless { IsFaultless file.entry }
{
    let Contents {
        sections,
        code,
        maps,
    } = contents;
    Object {
        alloc,
        file: ObjectFile::new(file, sections),
        btf: types.table,
        btf_ext: types.extension,
        maps,
        programs: code.programs,
        functions: code.functions,
        externs: types.externs,
    }
}

impl<'a> Object<'a> {
    /// The file that the object was parsed from: its sections, symbols and relocations.
    pub fn file(&self) -> &ObjectFile<'a>
        ensures { result.now ≡ self.now.file }
    {
        &self.file
    }

    /// The byte order of the file's numbers.
    pub fn endianness(&self) -> Endianness
        ensures { result ≡ file_endianness self.now.file }
    {
        self.file.endianness()
    }

    /// The license, without the NUL that ends it: `GPL` where the object names none.
    pub fn license(&self) -> &'a [u8]
        ensures value { result.now ≡ license_of self.now.file }
        ensures text { HasNoNul result.now }
    {
        self.file.license()
    }

    /// The kernel version that the object was made for. `None` is any version.
    pub fn kernel_version(&self) -> Option<u32>
        ensures value { result ≡ version_of self.now.file }
        ensures known { IsKnownVersion result }
    {
        self.file.kernel_version()
    }

    /// The table of types, if the object has one. Where kernel functions are among the externs, the
    /// table ends with a variable that stands for them.
    pub fn btf(&self) -> Option<&Btf<'a>>
        ensures { option_copied result ≡ self.now.types }
    {
        self.btf.as_ref()
    }

    /// The records of the section `.BTF.ext`, if the object has them.
    pub fn btf_ext(&self) -> Option<&BtfExt<'a>>
        ensures { option_copied result ≡ self.now.extension }
    {
        self.btf_ext.as_ref()
    }

    /// The maps, by name.
    pub fn maps(&self) -> &Maps<'a>
        ensures { result.now ≡ self.now.maps }
    {
        &self.maps
    }

    /// The programs, by name. The object has the function of each.
    pub fn programs(&self) -> &Programs<'a>
        ensures value { result.now ≡ self.now.programs }
        ensures complete { HaveFunctions self.now.programs self.now.functions }
    {
        &self.programs
    }

    /// The functions, by section index and address.
    pub fn functions(&self) -> &Functions<'a>
        ensures { result.now ≡ self.now.functions }
    {
        &self.functions
    }

    /// The function with this key: a section's index and an address in it.
    pub fn function(&self, key: (usize, u64)) -> Option<&Function<'a>>
        ensures { option_copied result ≡ lookup (is_at (key_cmp key)) self.now.functions }
    {
        self.functions.get(key)
    }

    /// The extern with this name.
    pub fn extern_desc(&self, name: &str) -> Option<&ExternDesc<'a>>
        ensures { option_copied result
            ≡ lookup (is_at (slice_cmp nat_cmp name.now)) self.now.externs.by_name }
    {
        self.externs.get(name)
    }

    /// The externs, by name.
    pub fn externs(&self) -> &Externs<'a>
        ensures { result.now ≡ self.now.externs }
    {
        &self.externs
    }

    /// Whether an extern has a type.
    pub fn has_typed_ksyms(&self) -> bool
        ensures { result ≡ list_any (λ e. is_some e.1.type_id) self.now.externs.by_name }
    {
        self.externs.has_typed()
    }

    /// Whether an extern that must be found has a type.
    pub fn has_strong_typed_ksyms(&self) -> bool
        ensures { result
            ≡ list_any (λ e. is_some e.1.type_id && not e.1.is_weak) self.now.externs.by_name }
    {
        self.externs.has_strong_typed()
    }

    /// Whether the object has a section info of type relocations.
    pub fn has_btf_relocations(&self) -> bool
        ensures { result
            ≡ option_map_or (λ x. not (length x.relocations == 0)) self.now.extension false }
    {
        match &self.btf_ext {
            Some(extension) => extension.relocations().next().is_some(),
            None => false,
        }
    }

    /// Takes the maps out of the object, which then has none.
    pub fn take_maps(&mut self) -> Maps<'a>
        ensures taken { result ≡ self.old.maps }
        ensures others { self.new ≡ record self.old { maps = [] } }
    {
        mem::replace(&mut self.maps, Maps::new(self.alloc))
    }

    /// Replaces the object's maps, and returns the old ones.
    pub fn replace_maps(&mut self, maps: Maps<'a>) -> Maps<'a>
        ensures replaced { result ≡ self.old.maps }
        ensures others { self.new ≡ record self.old { maps = maps.entry } }
    {
        mem::replace(&mut self.maps, maps)
    }

    /// Rewrites the table of types to the features that a kernel grants, as `predicate` says:
    /// [`btf_rewrite::fixup_and_sanitize`] with the sizes of the sections, the offsets of the
    /// symbols and, where a section of externs has an entry, its ids. Where the object has no table
    /// or an empty one, nothing is asked and nothing changes. Returns the features that were asked
    /// about, each once, with their answers.
    ///
    /// # Errors
    ///
    /// Those of [`btf_rewrite::fixup_and_sanitize`]; the object is as before then.
    pub fn fixup_and_sanitize_btf<F: FnMut(BtfFeature) -> bool>(
        &mut self,
        predicate: F,
    ) -> Result<Answers, BtfError>
        requires { F.IsAlwaysCallable predicate }
        ensures rewritten { IfOk result (λ answers.
            IsRewritten answers.items self.old.file self.old.externs.ksyms self.old.types
            self.new.types) }
        ensures answered { IfOk result (λ answers. AreAnswered F.FnMut predicate answers.items) }
        ensures others { self.new ≡ record self.old { types = self.new.types } }
        ensures refused { IfErr result (λ e.
            e ≢ BtfError.OutOfMemory
            → IsRefused F.FnMut predicate self.old.file self.old.externs.ksyms self.old.types e) }
        ensures err { OnErr result (self.new ≡ self.old) }
    {
        let ksyms = self.externs.ksyms();
        rewrite(self.alloc, &self.file, ksyms, &mut self.btf, predicate)
    }

    /// The indexes of the sections that functions lie in.
    pub fn text_sections(&self) -> Result<BTreeSet<usize>, AllocError>
        ensures value { IfOk result (λ sections.
            sections.keys ≡ code.text_sections self.now.functions) }
        ensures at { IfOk result (λ sections.
            code.AreTextSections self.now.functions sections.keys) }
    {
        text_sections(self.alloc, &self.functions)
    }

    /// Links to each program the functions that it reaches, taken from the current functions:
    /// [`relocate_calls`]. `text_sections` are the indexes of the sections with functions.
    ///
    /// # Errors
    ///
    /// Those of [`relocate_calls`], with the program's name; the object is as before then.
    #[tactic(auto, using(crate::proofs::Linked::functions_stay))]
    pub fn link_programs(
        &mut self,
        text_sections: &BTreeSet<usize>,
    ) -> Result<(), EbpfRelocationError>
        ensures linked { OnOk result
            (AreLinked (unlinked self.old.file text_sections.now.keys self.old.functions)
            (program_keys self.old.programs) self.new.functions) }
        ensures sound { OnOk result
            (AllCanBeLinked (unlinked self.old.file text_sections.now.keys self.old.functions)
            (program_keys self.old.programs)) }
        ensures others { self.new ≡ record self.old { functions = self.new.functions } }
        ensures fault { IfErr result (λ e.
            e.error ≢ RelocationError.OutOfMemory
            → HasFaultOf (unlinked self.old.file text_sections.now.keys self.old.functions)
            self.old.programs (option_map string_bytes e.function) e.error) }
        ensures unchanged { OnErr result (self.new ≡ self.old) }
    {
        relocate_calls(
            self.alloc,
            &self.file,
            &self.programs,
            &mut self.functions,
            text_sections,
        )
    }

    /// Parses an object file: [`OpenedFile::parse`], then the section `.BTF`, the section `.BTF.ext`
    /// and the externs, and then the sections in order of index, each with what it holds before the
    /// next. The first fault of this walk is the one that is named.
    ///
    /// # Errors
    ///
    /// Those of [`OpenedFile::parse`] and [`OpenedFile::read_section`], `BtfError` where the types,
    /// the records of `.BTF.ext` or the externs can't be read or don't fit the object, those of
    /// [`object_parse::read_code`] and of [`Maps::read_section`], and `OutOfMemory`.
    pub fn parse(alloc: Global, bytes: &'a [u8]) -> Result<Object<'a>, ParseError>
        ensures value { IfOk result (λ o. IsParsed bytes.entry.now o) }
        ensures last { IfOk result (λ o. AreLast o.maps (found_maps bytes.entry.now o.types)) }
        ensures accepted { OnOk result (IsFaultless bytes.entry.now) }
        ensures refused { IfErr result (λ e. e ≢ OutOfMemory → HasFault bytes.entry.now e) }
    {
        let file = OpenedFile::parse(alloc, bytes)?;
        let types = read_types(alloc, &file)?;
        let (table, extension) = (types.table.as_ref(), types.extension.as_ref());
        let contents = read_contents(alloc, &file, table, extension)?;
        Ok(whole(alloc, file, types, contents))
    }
}
