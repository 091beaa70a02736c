//! What a plan holds.

ghost use Rattle.std.specs.Prelude.{◌≡◌, Some};
ghost use Rattle.std.specs.List.{All};
ghost use Rattle.std.specs.Option.{option_map};
ghost use Rattle.std.specs.Cow.{cow_str_bytes};
ghost use Rattle.btf_sanitize.specs.Answers as answers;
ghost use Rattle.object_file.specs.License.{HasNoNul};
ghost use Rattle.object_file.specs.Version.{IsKnownVersion};
ghost use Rattle.plan_text.specs.Content.{map_content, map_names, plan_content, program_content, program_names, AreRising, AreTypeBytes, FitsMap, FitsProgram, IsPlan, IsSoundMap, IsSoundPlan, IsSoundProgram};
ghost use Rattle.plan_text.specs.PlanParts.{content_of};

use crate::limits::{
    funcs_fit, inner_fits, maps_fit, programs_fit, slots_fit, sources_fit, type_bytes_fit,
    version_fits,
};
use btf_ext::{FuncSecInfo, LineSecInfo};
use btf_records::BtfFeature;
use btf_sanitize::Answers;
use ebpf_items::{ProgramSection, Slots};
use plan_lines::{MapWords, bytes_fit, name_fits, words_fit};
use std::alloc::Global;
use std::borrow::{CowSlice, CowStr};
use std::marker::Model;

/// A map of a plan.
#[derive(Debug, Drop)]
pub struct PlanMap<'a> {
    name: CowStr<'a, Global>,
    number: u32,
    is_btf: bool,
    words: MapWords,
    contents: Vec<u8>,
    inner: Option<MapWords>,
}

impl<'a> Model for PlanMap<'a> {
    ghost use Rattle.std.specs.Cow.{cow_str_bytes};
    ghost use Rattle.plan_text.specs.Content.{FitsMap, MapContent, map_content};

    ghost Value = { MapContent };

    ghost view = { λ m. map_content (cow_str_bytes m.name) m.number m.is_btf m.words m.contents.items m.inner };

    ghost invariant = { λ m.
        FitsMap (map_content (cow_str_bytes m.name) m.number m.is_btf m.words m.contents.items m.inner) };
}

impl<'a> PlanMap<'a> {
    /// A map with its name, its number, whether types define it, its words, the bytes of its
    /// variables, and the words of the maps that it holds.
    pub fn new(
        name: &'a str,
        number: u32,
        is_btf: bool,
        words: MapWords,
        contents: Vec<u8>,
        inner: Option<MapWords>,
    ) -> PlanMap<'a>
        ensures { result
            ≡ record {
              name = name.now;
              number = number;
              is_btf = is_btf;
              words = words;
              contents = contents.items;
              inner = inner;
            } }
    {
        PlanMap::of(
            CowStr::Borrowed(name),
            number,
            is_btf,
            words,
            contents,
            inner,
        )
    }

    /// The same for a name that the map may own.
    pub(crate) fn of(
        name: CowStr<'a, Global>,
        number: u32,
        is_btf: bool,
        words: MapWords,
        contents: Vec<u8>,
        inner: Option<MapWords>,
    ) -> PlanMap<'a>
        ensures { result ≡ map_content (cow_str_bytes name.entry) number is_btf words contents.items inner }
    {
        name_fits(name.as_str());
        words_fit(words);
        inner_fits(inner);
        bytes_fit(contents.as_slice());
        PlanMap {
            name,
            number,
            is_btf,
            words,
            contents,
            inner,
        }
    }

    /// The map's numbers fit their words.
    pub(crate) fn fits(&self)
        ensures { FitsMap self.now }
    {
        let _name = &self.name;
    }

    /// The map, which now holds maps of these words.
    pub(crate) fn with_inner(self, words: MapWords) -> PlanMap<'a>
        ensures { result ≡ record self.entry { inner = Some words } }
    {
        words_fit(words);
        PlanMap {
            inner: Some(words),
            ..self
        }
    }

    /// The map's name in the object.
    pub fn name(&self) -> &str
        ensures { result.now ≡ self.now.name }
    {
        self.name.as_str()
    }

    /// The number that stands for the map in the slots of programs; in a plan it is below 2^31.
    pub fn number(&self) -> u32
        ensures { result ≡ self.now.number }
    {
        self.number
    }

    /// Whether types define it.
    pub fn is_btf(&self) -> bool
        ensures { result ≡ self.now.is_btf }
    {
        self.is_btf
    }

    pub fn words(&self) -> MapWords
        ensures { result ≡ self.now.words }
    {
        self.words
    }

    /// The bytes of a section's variables; none for other maps.
    pub fn contents(&self) -> &[u8]
        ensures { result.now ≡ self.now.contents }
    {
        self.contents.as_slice()
    }

    /// The words of the maps that it holds.
    pub fn inner(&self) -> Option<MapWords>
        ensures { result ≡ self.now.inner }
    {
        self.inner
    }
}

/// A program of a plan.
#[derive(Debug, Drop)]
pub struct PlanProgram<'a> {
    name: CowStr<'a, Global>,
    section: ProgramSection,
    slots: Slots<'a>,
    func_records: FuncSecInfo<'a>,
    line_records: LineSecInfo<'a>,
    tables: Option<Vec<u32>>,
}

impl<'a> Model for PlanProgram<'a> {
    ghost use Rattle.std.specs.Cow.{cow_str_bytes};
    ghost use Rattle.std.specs.Option.{option_map};
    ghost use Rattle.plan_text.specs.Content.{FitsProgram, ProgramContent, program_content};

    ghost Value = { ProgramContent };

    ghost view = { λ p.
        program_content (cow_str_bytes p.name) p.section p.slots p.func_records p.line_records
        (option_map (λ places. places.items) p.tables) };

    ghost invariant = { λ p.
        FitsProgram
        (program_content (cow_str_bytes p.name) p.section p.slots p.func_records p.line_records
        (option_map (λ places. places.items) p.tables)) };
}

impl<'a> PlanProgram<'a> {
    /// A program with its name, its kind, its slots, the records of its functions and lines, and
    /// the indexes of the kernel tables that its type relocations matched.
    pub fn new(
        name: &'a str,
        section: ProgramSection,
        slots: Slots<'a>,
        func_records: FuncSecInfo<'a>,
        line_records: LineSecInfo<'a>,
        tables: Option<Vec<u32>>,
    ) -> PlanProgram<'a>
        ensures { result
            ≡ record {
              name = name.now;
              section = section;
              slots = slots.entry;
              func_records = func_records.entry;
              line_records = line_records.entry;
              tables = option_map (λ places. places.items) tables;
            } }
    {
        PlanProgram::of(
            CowStr::Borrowed(name),
            section,
            slots,
            func_records,
            line_records,
            tables,
        )
    }

    /// The same for a name that the program may own.
    pub(crate) fn of(
        name: CowStr<'a, Global>,
        section: ProgramSection,
        slots: Slots<'a>,
        func_records: FuncSecInfo<'a>,
        line_records: LineSecInfo<'a>,
        tables: Option<Vec<u32>>,
    ) -> PlanProgram<'a>
        ensures { result
            ≡ program_content (cow_str_bytes name.entry) section slots.entry func_records.entry
            line_records.entry (option_map (λ places. places.items) tables) }
    {
        name_fits(name.as_str());
        slots_fit(&slots);
        funcs_fit(&func_records);
        sources_fit(&line_records);
        PlanProgram {
            name,
            section,
            slots,
            func_records,
            line_records,
            tables,
        }
    }

    /// The program's numbers fit their words.
    pub(crate) fn fits(&self)
        ensures { FitsProgram self.now }
    {
        let _name = &self.name;
    }

    /// The program's name in the object.
    pub fn name(&self) -> &str
        ensures { result.now ≡ self.now.name }
    {
        self.name.as_str()
    }

    /// The kind of program, with its attach type.
    pub fn section(&self) -> &ProgramSection
        ensures { result.now ≡ self.now.section }
    {
        &self.section
    }

    /// The instruction slots.
    pub fn slots(&self) -> &Slots<'a>
        ensures { result.now ≡ self.now.slots }
    {
        &self.slots
    }

    /// Which function begins at which slot.
    pub fn func_records(&self) -> &FuncSecInfo<'a>
        ensures { result.now ≡ self.now.func_records }
    {
        &self.func_records
    }

    /// Which lines of source files the slots come from.
    pub fn line_records(&self) -> &LineSecInfo<'a>
        ensures { result.now ≡ self.now.line_records }
    {
        &self.line_records
    }

    /// The kernel tables in which the type relocations of the program's functions have their first
    /// matches, by their indexes in the list of tables, from 0: strictly rising. `None` where they
    /// aren't known.
    pub fn tables(&self) -> Option<&[u32]>
        ensures { option_map (λ places. places.now) result ≡ self.now.tables }
    {
        match &self.tables {
            Some(places) => Some(places.as_slice()),
            None => None,
        }
    }
}

/// What a plan is made of.
#[derive(Debug, Drop)]
pub struct PlanParts<'a> {
    /// The license, without the NUL that ends it in the object.
    pub license: &'a [u8],
    /// The kernel version that the object was made for. `None` is any version.
    pub version: Option<u32>,
    /// The features of the kernel that were asked about, with the answers, in the order asked.
    pub features: Answers,
    /// The types as the kernel takes them, at least one byte. `None` is no types.
    pub type_bytes: Option<Vec<u8>>,
    /// The maps, names strictly rising by bytes.
    pub maps: Vec<PlanMap<'a>>,
    /// The programs, names strictly rising by bytes.
    pub programs: Vec<PlanProgram<'a>>,
}

/// What a loader hands to one kernel: the license, the kernel version that the object was made
/// for, the kernel's features that were asked about, the types, and the maps and the programs, by
/// name.
#[derive(Debug)]
pub struct Plan<'a> {
    license: CowSlice<'a, u8, Global>,
    version: Option<u32>,
    features: Answers,
    type_bytes: Option<Vec<u8>>,
    maps: Vec<PlanMap<'a>>,
    programs: Vec<PlanProgram<'a>>,
}

impl<'a> Drop for Plan<'a> {
    // A single call where a value is dropped, instead of one call per field.
    fn drop(self) {
        let Plan {
            license: _license,
            version: _,
            features: _features,
            type_bytes: _type_bytes,
            maps: _maps,
            programs: _programs,
        } = self;
    }
}

impl<'a> Model for Plan<'a> {
    ghost use Rattle.std.specs.Cow.{cow_slice_items};
    ghost use Rattle.std.specs.Option.{option_map};
    ghost use Rattle.plan_text.specs.Content.{IsPlan, plan_content, PlanContent};

    ghost Value = { PlanContent };

    ghost view = { λ p.
        plan_content (cow_slice_items p.license) p.version p.features.items
        (option_map (λ bytes. bytes.items) p.type_bytes) p.maps.items p.programs.items };

    ghost invariant = { λ p.
        IsPlan
        (plan_content (cow_slice_items p.license) p.version p.features.items
        (option_map (λ bytes. bytes.items) p.type_bytes) p.maps.items p.programs.items) };
}

/// The plan of these parts.
pub fn plan_of_parts<'a>(parts: PlanParts<'a>) -> Plan<'a>
    requires { IsSoundPlan (content_of parts) }
    ensures { result ≡ content_of parts.entry }
{
    bytes_fit(parts.license);
    version_fits(parts.version);
    type_bytes_fit(&parts.type_bytes);
    maps_fit(parts.maps.as_slice());
    programs_fit(parts.programs.as_slice());
    Plan {
        license: CowSlice::Borrowed(parts.license),
        version: parts.version,
        features: parts.features,
        type_bytes: parts.type_bytes,
        maps: parts.maps,
        programs: parts.programs,
    }
}

impl<'a> Plan<'a> {
    /// A plan that owns all that it holds.
    pub(crate) fn owned(
        license: Vec<u8>,
        version: Option<u32>,
        features: Answers,
        type_bytes: Option<Vec<u8>>,
        maps: Vec<PlanMap<'a>>,
        programs: Vec<PlanProgram<'a>>,
    ) -> Plan<'a>
        requires { IsPlan
            (plan_content license.items version features.items
            (option_map (λ bytes. bytes.items) type_bytes) maps.items programs.items) }
        ensures { result
            ≡ plan_content license.items version features.items
            (option_map (λ bytes. bytes.items) type_bytes) maps.entry.items programs.entry.items }
    {
        Plan {
            license: CowSlice::Owned(license),
            version,
            features,
            type_bytes,
            maps,
            programs,
        }
    }

    /// The plan satisfies what holds of every plan, and its numbers fit their words.
    pub(crate) fn fits(&self)
        ensures { IsPlan self.now }
    {
        let _license = &self.license;
    }

    /// The license, without the NUL that ends it in the object.
    pub fn license(&self) -> &[u8]
        ensures value { result.now ≡ self.now.license }
        ensures text { HasNoNul self.now.license }
    {
        self.license.as_slice()
    }

    /// The kernel version that the object was made for. `None` is any version.
    pub fn version(&self) -> Option<u32>
        ensures value { result ≡ self.now.version }
        ensures known { IsKnownVersion self.now.version }
    {
        self.version
    }

    /// The kernel's features that were asked about, each once, with the answers, in the order
    /// asked.
    pub fn features(&self) -> &[(BtfFeature, bool)]
        ensures value { result.now ≡ self.now.features }
        ensures distinct { answers.AreDistinct (answers.features self.now.features) }
    {
        self.features.as_slice()
    }

    /// The types as the kernel takes them, at least one byte. `None` is no types.
    pub fn type_bytes(&self) -> Option<&[u8]>
        ensures value { option_map (λ bytes. bytes.now) result ≡ self.now.type_bytes }
        ensures some { AreTypeBytes self.now.type_bytes }
    {
        match &self.type_bytes {
            Some(bytes) => Some(bytes.as_slice()),
            None => None,
        }
    }

    /// The maps, names strictly rising by bytes.
    pub fn maps(&self) -> &[PlanMap<'a>]
        ensures value { result.now ≡ self.now.maps }
        ensures sound { All IsSoundMap self.now.maps }
        ensures rising { AreRising (map_names self.now.maps) }
    {
        self.maps.as_slice()
    }

    /// The programs, names strictly rising by bytes.
    pub fn programs(&self) -> &[PlanProgram<'a>]
        ensures value { result.now ≡ self.now.programs }
        ensures sound { All IsSoundProgram self.now.programs }
        ensures rising { AreRising (program_names self.now.programs) }
    {
        self.programs.as_slice()
    }
}
