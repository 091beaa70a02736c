//! What a line of a plan's text says.

use crate::map_words::MapWords;
use btf_records::BtfFeature;
use program_kinds::ProgramSection;

/// The version of a plan's text. The second version also says which kernel tables each program's
/// type relocations matched.
#[derive(Clone, Copy, Debug, PartialEq, Eq)]
pub enum TextVersion {
    First,
    Second,
}

/// The first word of a line.
#[derive(Clone, Copy, PartialEq, Eq)]
pub(crate) enum Keyword {
    Header,
    License,
    Version,
    Feature,
    Types,
    Map,
    Inner,
    Program,
    Slots,
    Tables,
    Func,
    Source,
    End,
}

/// What a line of a plan's text says.
#[derive(Debug, Drop)]
pub enum PlanLine {
    /// The version of the text.
    Header(TextVersion),
    /// The license, without its NUL.
    License(Vec<u8>),
    /// The kernel version. `None` is any version.
    Version(Option<u32>),
    /// A feature of the kernel, and whether the kernel has it.
    Feature(BtfFeature, bool),
    /// The types as the kernel takes them.
    Types(Option<Vec<u8>>),
    /// A map.
    Map(MapLine),
    /// The words of the maps that the last map holds.
    Inner(MapWords),
    /// A program, by its name and its kind.
    Program(String, ProgramSection),
    /// The program's slots, as bytes.
    Slots(Vec<u8>),
    /// The kernel tables that the program's type relocations matched. `None` where that isn't
    /// known.
    Tables(Option<Vec<u32>>),
    /// A slot, and the id of the type of the function that begins there.
    Func(u32, u32),
    /// A slot, and the file, the line and the column that it comes from.
    Source(u32, u32, u32, u32),
    /// The end of the text.
    End,
}

/// What the line of a map says.
#[derive(Debug, Drop)]
pub struct MapLine {
    pub name: String,
    pub number: u32,
    /// Whether types define the map.
    pub is_btf: bool,
    pub words: MapWords,
    pub contents: Vec<u8>,
}
