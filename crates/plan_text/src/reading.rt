//! A plan from its text.

ghost use Rattle.std.specs.Prelude.{◌≡◌, ◌<◌, ◌^◌, ◌-◌, length, IfErr, IfOk, IsTrue, OnOk, ◌↔◌};
ghost use Rattle.std.specs.Option.{option_map};
ghost use Rattle.std.specs.String.{string_bytes};
ghost use Rattle.btf_sanitize.specs.Answers.{features, AreDistinct};
ghost use Rattle.ebpf_items.specs.Instruction.{slots_of};
ghost use Rattle.plan_lines.specs.LineViews.{line_view};
ghost use Rattle.plan_text.specs.Content.{IsPlan, PlanContent};
ghost use Rattle.plan_text.specs.Machine.{after_slots, bare_program, finished, follows, is_asked, kept_plan, last_map_name, last_program_name, map_of, start, state_view, step, step_end, step_feature, step_func, step_header, step_inner, step_license, step_map, step_program, step_slots, step_source, step_tables, step_types, step_version, with_func, with_last, with_source, Takes, TakesLine};
ghost use Rattle.plan_text.specs.PlanGrammar.{IsTextOf};
ghost use Rattle.plan_text.specs.Reading.{IsReadFault, IsReadPlan, ReadsAs};
ghost use Rattle.plan_text.specs.declared.reading.PlanReadError.TheVariants.{OutOfMemory};

use crate::plan::{Plan, PlanMap, PlanProgram};
use arrayvec::ArrayVec;
use btf_ext::{FuncSecInfo, LineSecInfo, bpf_func_info, bpf_line_info};
use btf_records::BtfFeature;
use btf_sanitize::Answers;
use ebpf_items::{ProgramSection, Slots, bpf_insn, copy_instructions};
use plan_lines::{
    LineError, MapLine, MapWords, PlanLine, TextVersion, are_words_of, cut_at, lines_are_unbroken,
    read_line,
};
use std::alloc::{AllocError, Global};
use std::borrow::CowStr;
use std::marker::Model;
use thiserror::Error;

/// Why bytes can't be read as a plan.
#[derive(Debug, Drop, Error)]
pub enum PlanReadError {
    /// The number, from 1, of the first line that no plan's text has after the lines before it.
    /// Where the text only ends too early, that of the line after the last whole one.
    #[error("no plan's text goes on with line {0}")]
    Line(usize),
    /// Memory ran out.
    #[error("out of memory")]
    OutOfMemory,
}

impl From<AllocError> for PlanReadError {
    ghost from_gives = { λ _ e. e ≡ OutOfMemory };

    fn from(_error: AllocError) -> PlanReadError {
        PlanReadError::OutOfMemory
    }
}

/// The maximum number of records of a program: as many as 32 bits count.
const MOST_RECORDS: usize = 0xffff_ffff;

/// Which lines may come next.
#[derive(Clone, Copy, PartialEq, Eq)]
pub enum Phase {
    AtHeader,
    AtLicense,
    AtVersion,
    AtFeatures,
    AtMaps,
    AtSlots,
    AtTables,
    AtFuncs,
    AtLines,
    AtEnd,
}

/// A program of which more may be read. 32 bits count its records.
#[derive(Drop)]
pub struct ReadProgram {
    name: String,
    section: ProgramSection,
    slots: Vec<bpf_insn>,
    tables: Option<Vec<u32>>,
    func_records: Vec<bpf_func_info>,
    line_records: Vec<bpf_line_info>,
}

/// What has been read of a plan.
#[derive(Drop)]
pub struct Reader {
    phase: Phase,
    text_version: TextVersion,
    license: Vec<u8>,
    version: Option<u32>,
    features: Answers,
    type_bytes: Option<Vec<u8>>,
    maps: Vec<PlanMap<'static>>,
    last_map: Option<PlanMap<'static>>,
    programs: Vec<PlanProgram<'static>>,
    last_program: Option<ReadProgram>,
}

impl Model for ReadProgram {
    ghost use Rattle.std.specs.Prelude.{◌<◌, ◌^◌, length};
    ghost use Rattle.std.specs.Option.{option_map};
    ghost use Rattle.std.specs.String.{string_bytes};
    ghost use Rattle.plan_text.specs.Content.{ProgramContent, program_content};

    ghost Value = { ProgramContent };

    ghost view = { λ p.
        program_content (string_bytes p.name) p.section p.slots.items p.func_records.items
        p.line_records.items (option_map (λ places. places.items) p.tables) };

    ghost invariant = { λ p.
        (length p.func_records.items < 2 ^ 32) × (length p.line_records.items < 2 ^ 32) };
}

impl ReadProgram {
    /// A program of which nothing else has been read.
    fn new(alloc: Global, name: String, section: ProgramSection) -> ReadProgram
        ensures { result ≡ bare_program (string_bytes name) section }
    {
        ReadProgram {
            name,
            section,
            slots: Vec::new(alloc),
            tables: None,
            func_records: Vec::new(alloc),
            line_records: Vec::new(alloc),
        }
    }

    /// Adds a function record, if 32 bits still count it.
    fn add_func(&mut self, info: bpf_func_info) -> Result<(), AllocError>
        ensures { OnOk result (self.new ≡ with_func info self.old) }
    {
        if self.func_records.len() >= MOST_RECORDS {
            return Err(AllocError);
        }
        self.func_records.push(info)?;
        Ok(())
    }

    /// Adds a line record, if 32 bits still count it.
    fn add_source(&mut self, info: bpf_line_info) -> Result<(), AllocError>
        ensures { OnOk result (self.new ≡ with_source info self.old) }
    {
        if self.line_records.len() >= MOST_RECORDS {
            return Err(AllocError);
        }
        self.line_records.push(info)?;
        Ok(())
    }

    fn into_program(self) -> PlanProgram<'static>
        ensures { result ≡ self }
    {
        PlanProgram::of(
            CowStr::Owned(self.name),
            self.section,
            Slots::owned(self.slots),
            FuncSecInfo::from_records(self.func_records),
            LineSecInfo::from_records(self.line_records),
            self.tables,
        )
    }
}

impl Reader {
    fn new(alloc: Global) -> Reader
        ensures { state_view result ≡ start }
    {
        Reader {
            phase: Phase::AtHeader,
            text_version: TextVersion::Second,
            license: Vec::new(alloc),
            version: None,
            features: ArrayVec::new(),
            type_bytes: None,
            maps: Vec::new(alloc),
            last_map: None,
            programs: Vec::new(alloc),
            last_program: None,
        }
    }

    fn header(&mut self, text_version: TextVersion) -> bool
        ensures { Takes (step_header self.old.phase (state_view self.old) text_version) result
            (state_view self.new) }
    {
        match self.phase {
            Phase::AtHeader => {
                self.text_version = text_version;
                self.phase = Phase::AtLicense;
                true
            }
            _ => false,
        }
    }

    fn license(&mut self, bytes: Vec<u8>) -> bool
        ensures { Takes (step_license self.old.phase (state_view self.old) bytes.items) result
            (state_view self.new) }
    {
        match self.phase {
            Phase::AtLicense => {
                self.license = bytes;
                self.phase = Phase::AtVersion;
                true
            }
            _ => false,
        }
    }

    fn version(&mut self, version: Option<u32>) -> bool
        ensures { Takes (step_version self.old.phase (state_view self.old) version) result
            (state_view self.new) }
    {
        match self.phase {
            Phase::AtVersion => {
                self.version = version;
                self.phase = Phase::AtFeatures;
                true
            }
            _ => false,
        }
    }

    fn feature(&mut self, feature: BtfFeature, answer: bool) -> bool
        requires { AreDistinct (features self.old.features.items) }
        ensures { Takes (step_feature self.old.phase (state_view self.old) feature answer) result
            (state_view self.new) }
    {
        match self.phase {
            Phase::AtFeatures => {
                if is_asked(self.features.as_slice(), feature) {
                    return false;
                }
                self.features.push((feature, answer));
                true
            }
            _ => false,
        }
    }

    fn types(&mut self, type_bytes: Option<Vec<u8>>) -> bool
        ensures { Takes
            (step_types self.old.phase (state_view self.old)
            (option_map (λ bytes. bytes.items) type_bytes)) result (state_view self.new) }
    {
        match self.phase {
            Phase::AtFeatures => {
                self.type_bytes = type_bytes;
                self.phase = Phase::AtMaps;
                true
            }
            _ => false,
        }
    }

    /// Whether a map with this name may come next.
    fn map_follows(&self, name: &str) -> bool
        ensures { result ≡ follows (last_map_name (state_view self.now)) name.now }
    {
        match &self.last_map {
            None => true,
            Some(map) => map.name().as_bytes().cmp(name.as_bytes()).is_lt(),
        }
    }

    /// Appends the last map to the others.
    fn keep_map(&mut self) -> Result<(), AllocError>
        ensures { OnOk result
            (state_view self.new
            ≡ record (state_view self.old) {
              maps = with_last (state_view self.old).maps (state_view self.old).last_map;
              last_map = None;
            }) }
    {
        if let Some(map) = self.last_map.take() {
            self.maps.push(map)?;
        }
        Ok(())
    }

    fn map(&mut self, map: MapLine) -> Result<bool, AllocError>
        ensures { IfOk result (λ ok.
            Takes
            (step_map self.old.phase (state_view self.old)
            (map_of (string_bytes map.name) map.number map.is_btf map.words map.contents.items)) ok
            (state_view self.new)) }
    {
        match self.phase {
            Phase::AtMaps => {
                if !self.map_follows(map.name.as_str()) {
                    return Ok(false);
                }
                self.keep_map()?;
                self.last_map = Some(PlanMap::of(
                    CowStr::Owned(map.name),
                    map.number,
                    map.is_btf,
                    map.words,
                    map.contents,
                    None,
                ));
                Ok(true)
            }
            _ => Ok(false),
        }
    }

    fn inner(&mut self, words: MapWords) -> bool
        ensures { Takes (step_inner self.old.phase (state_view self.old) words) result
            (state_view self.new) }
    {
        match self.phase {
            Phase::AtMaps => {
                let Some(map) = self.last_map.take() else {
                    return false;
                };
                if map.inner().is_some() {
                    return false;
                }
                if !are_words_of(map.is_btf(), words) {
                    return false;
                }
                self.last_map = Some(map.with_inner(words));
                true
            }
            _ => false,
        }
    }

    /// Whether a program with this name may come next.
    fn program_follows(&self, name: &str) -> bool
        ensures { result ≡ follows (last_program_name (state_view self.now)) name.now }
    {
        match &self.last_program {
            None => true,
            Some(program) => program.name.as_bytes().cmp(name.as_bytes()).is_lt(),
        }
    }

    /// Appends the last program to the others.
    fn keep_program(&mut self) -> Result<(), AllocError>
        ensures { OnOk result
            (state_view self.new
            ≡ record (state_view self.old) {
              programs = with_last (state_view self.old).programs
                  (state_view self.old).last_program;
              last_program = None;
            }) }
    {
        if let Some(program) = self.last_program.take() {
            self.programs.push(program.into_program())?;
        }
        Ok(())
    }

    fn program(
        &mut self,
        alloc: Global,
        name: String,
        section: ProgramSection,
    ) -> Result<bool, AllocError>
        ensures { IfOk result (λ ok.
            Takes
            (step_program self.old.phase (state_view self.old)
            (bare_program (string_bytes name) section)) ok (state_view self.new)) }
    {
        match self.phase {
            Phase::AtMaps | Phase::AtFuncs | Phase::AtLines => {
                if !self.program_follows(name.as_str()) {
                    return Ok(false);
                }
                self.keep_program()?;
                self.last_program = Some(ReadProgram::new(alloc, name, section));
                self.phase = Phase::AtSlots;
                Ok(true)
            }
            _ => Ok(false),
        }
    }

    fn slots(&mut self, alloc: Global, bytes: &[u8]) -> Result<bool, AllocError>
        ensures { IfOk result (λ ok.
            Takes (step_slots self.old.phase (state_view self.old) bytes.now) ok
            (state_view self.new)) }
    {
        match self.phase {
            Phase::AtSlots => {
                let Some(program) = self.last_program.as_mut() else {
                    return Ok(false);
                };
                program.slots = slots_of(alloc, bytes)?;
                self.phase = after_slots(self.text_version);
                Ok(true)
            }
            _ => Ok(false),
        }
    }

    fn tables(&mut self, tables: Option<Vec<u32>>) -> bool
        ensures { Takes
            (step_tables self.old.phase (state_view self.old)
            (option_map (λ places. places.items) tables)) result (state_view self.new) }
    {
        match self.phase {
            Phase::AtTables => {
                let Some(program) = self.last_program.as_mut() else {
                    return false;
                };
                program.tables = tables;
                self.phase = Phase::AtFuncs;
                true
            }
            _ => false,
        }
    }

    fn func(&mut self, info: bpf_func_info) -> Result<bool, AllocError>
        ensures { IfOk result (λ ok.
            Takes (step_func self.old.phase (state_view self.old) info) ok (state_view self.new)) }
    {
        match self.phase {
            Phase::AtFuncs => {
                let Some(program) = self.last_program.as_mut() else {
                    return Ok(false);
                };
                program.add_func(info)?;
                self.phase = Phase::AtFuncs;
                Ok(true)
            }
            _ => Ok(false),
        }
    }

    fn source(&mut self, info: bpf_line_info) -> Result<bool, AllocError>
        ensures { IfOk result (λ ok.
            Takes (step_source self.old.phase (state_view self.old) info) ok
            (state_view self.new)) }
    {
        match self.phase {
            Phase::AtFuncs | Phase::AtLines => {
                let Some(program) = self.last_program.as_mut() else {
                    return Ok(false);
                };
                program.add_source(info)?;
                self.phase = Phase::AtLines;
                Ok(true)
            }
            _ => Ok(false),
        }
    }

    fn finish(&mut self) -> Result<(), AllocError>
        ensures { OnOk result (state_view self.new ≡ finished (state_view self.old)) }
    {
        self.keep_map()?;
        self.keep_program()?;
        self.phase = Phase::AtEnd;
        Ok(())
    }

    fn end(&mut self) -> Result<bool, AllocError>
        ensures { IfOk result (λ ok.
            Takes (step_end self.old.phase (state_view self.old)) ok (state_view self.new)) }
    {
        match self.phase {
            Phase::AtMaps | Phase::AtFuncs | Phase::AtLines => {
                self.finish()?;
                Ok(true)
            }
            _ => Ok(false),
        }
    }

    /// Takes the next line, if it may come next.
    fn step(&mut self, alloc: Global, line: PlanLine) -> Result<bool, AllocError>
        requires { AreDistinct (features self.old.features.items) }
        ensures { IfOk result (λ ok.
            Takes (step (state_view self.old) (line_view line)) ok (state_view self.new)) }
    {
        match line {
            PlanLine::Header(text_version) => Ok(self.header(text_version)),
            PlanLine::License(bytes) => Ok(self.license(bytes)),
            PlanLine::Version(version) => Ok(self.version(version)),
            PlanLine::Feature(feature, answer) => Ok(self.feature(feature, answer)),
            PlanLine::Types(type_bytes) => Ok(self.types(type_bytes)),
            PlanLine::Map(map) => self.map(map),
            PlanLine::Inner(words) => Ok(self.inner(words)),
            PlanLine::Program(name, section) => self.program(alloc, name, section),
            PlanLine::Slots(bytes) => self.slots(alloc, &bytes),
            PlanLine::Tables(tables) => Ok(self.tables(tables)),
            PlanLine::Func(slot, id) => self.func(bpf_func_info {
                insn_off: slot,
                type_id: id,
            }),
            PlanLine::Source(slot, file, line, column) => self.source(bpf_line_info {
                insn_off: slot,
                file_name_off: file,
                line_off: line,
                line_col: column,
            }),
            PlanLine::End => self.end(),
        }
    }

    /// Takes the next line from its bytes, if it may come next.
    fn take(&mut self, alloc: Global, bytes: &[u8]) -> Result<bool, AllocError>
        requires { AreDistinct (features self.old.features.items) }
        ensures { IfOk result (TakesLine (state_view self.old) bytes.now (state_view self.new)) }
    {
        match read_line(alloc, bytes) {
            Ok(line) => self.step(alloc, line),
            Err(LineError::Invalid) => Ok(false),
            Err(LineError::OutOfMemory) => Err(AllocError),
        }
    }

    fn is_finished(&self) -> bool
        ensures { IsTrue result ↔ (self.now.phase ≡ Phase.AtEnd) }
    {
        match self.phase {
            Phase::AtEnd => true,
            _ => false,
        }
    }

    /// Takes all lines of a text.
    fn take_all(&mut self, alloc: Global, bytes: &[u8]) -> Result<(), PlanReadError>
        requires fresh { state_view self.old ≡ start }
        requires few { length bytes.now < 2 ^ 64 - 1 }
        ensures read { OnOk result (IsReadPlan bytes.now (kept_plan (state_view self.new))) }
        ensures refused { IfErr result (IsReadFault bytes.now) }
    {
        lines_are_unbroken();
        let mut rest = bytes;
        let mut lines = 0;
        while let Some((line, others)) = cut_at(rest, b'\n') {
            lines += 1;
            if !self.take(alloc, line)? {
                return Err(PlanReadError::Line(lines));
            }
            rest = others;
        }
        if !rest.is_empty() {
            return Err(PlanReadError::Line(lines + 1));
        }
        if !self.is_finished() {
            return Err(PlanReadError::Line(lines + 1));
        }
        Ok(())
    }

    fn into_plan(self) -> Plan<'static>
        requires { IsPlan (kept_plan (state_view self)) }
        ensures { result ≡ kept_plan (state_view self) }
    {
        Plan::owned(
            self.license,
            self.version,
            self.features,
            self.type_bytes,
            self.maps,
            self.programs,
        )
    }
}

/// Whether a feature was asked about.
fn is_asked(answers: &[(BtfFeature, bool)], feature: BtfFeature) -> bool
    ensures { result ≡ is_asked answers.now feature }
{
    answers.iter().any(|answer| answer.0 as u8 == feature as u8)
}

fn after_slots(text_version: TextVersion) -> Phase
    ensures { result ≡ after_slots text_version }
{
    match text_version {
        TextVersion::First => Phase::AtFuncs,
        TextVersion::Second => Phase::AtTables,
    }
}

/// The slots of bytes that make up whole slots.
fn slots_of(alloc: Global, bytes: &[u8]) -> Result<Vec<bpf_insn>, AllocError>
    ensures { IfOk result (λ slots. slots.items ≡ slots_of bytes.now) }
{
    match copy_instructions(alloc, bytes) {
        Ok(slots) => Ok(slots),
        Err(_error) => Err(AllocError),
    }
}

/// The plan of a text of fewer than 2^64 - 1 bytes.
fn read_plan(alloc: Global, bytes: &[u8]) -> Result<Plan<'static>, PlanReadError>
    requires { length bytes.now < 2 ^ 64 - 1 }
    ensures found { IfOk result (λ plan. IsTextOf plan bytes.now) }
    ensures only { (plan : PlanContent) → IsTextOf plan bytes.now → ReadsAs result plan }
    ensures refused { IfErr result (IsReadFault bytes.now) }
{
    let mut reader = Reader::new(alloc);
    match reader.take_all(alloc, bytes) {
        Ok(()) => Ok(reader.into_plan()),
        Err(error) => Err(error),
    }
}

impl Plan<'static> {
    /// Reads a plan from its text, in either version. The first version doesn't give the kernel
    /// tables of programs.
    ///
    /// # Errors
    ///
    /// `Line` where the bytes aren't a plan's text, and `OutOfMemory`, also where a program has
    /// 2^32 records of functions or of lines, or the lines can't be counted.
    pub fn read(alloc: Global, bytes: &[u8]) -> Result<Plan<'static>, PlanReadError>
        ensures found { IfOk result (λ plan. IsTextOf plan bytes.now) }
        ensures only { (plan : PlanContent) → IsTextOf plan bytes.now → ReadsAs result plan }
        ensures refused { IfErr result (IsReadFault bytes.now) }
    {
        if bytes.len() == usize::MAX {
            return Err(PlanReadError::OutOfMemory);
        }
        read_plan(alloc, bytes)
    }
}
