//! Kinds of sections.

ghost use Rattle.std.specs.Prelude.{◌≡◌, nat_eq, bytes_eq};
ghost use Rattle.std.specs.List.{starts_with};
ghost use Rattle.std.specs.Map.{lookup};
ghost use Rattle.section_kinds.specs.SectionKind.{kinds_by_beginning, kinds_by_name, kind_decided, kind_named, kind_of_section};

/// What a section of an object holds.
#[derive(Clone, Copy, Debug, PartialEq, Eq)]
pub enum EbpfSectionKind {
    /// Nothing that is read.
    Undefined,
    /// Maps that are defined by words, as in the legacy form: `maps`.
    Maps,
    /// Maps that are defined by their BTF types: `.maps`.
    BtfMaps,
    /// Programs: any other executable section that isn't empty.
    Program,
    /// Variables: `.data`.
    Data,
    /// Constants: `.rodata`.
    Rodata,
    /// Variables that are initialised to zero: `.bss`.
    Bss,
    /// Functions that programs call: `.text`.
    Text,
    /// Types: `.BTF`.
    Btf,
    /// Functions, lines and relocations of types: `.BTF.ext`.
    BtfExt,
    /// The license: `license`.
    License,
    /// The kernel's version: `version`.
    Version,
}

impl EbpfSectionKind {
    /// The kind that a name alone decides; `Undefined` where it decides none. `.BTF` and `.BTF.ext`
    /// are compared with the whole name, the others with its beginning.
    pub fn from_name(name: &str) -> EbpfSectionKind
        ensures { result ≡ kind_named name.now }
    {
        decided(name).unwrap_or(EbpfSectionKind::Undefined)
    }

    /// The kind of a section: the kind that its name decides, else `Program` for executable text of
    /// nonzero size, else `Undefined`.
    pub fn of_section(name: &str, is_text: bool, size: u64) -> EbpfSectionKind
        ensures { result ≡ kind_of_section name.now is_text size }
    {
        match decided(name) {
            Some(kind) => kind,
            None if is_text && size != 0 => EbpfSectionKind::Program,
            None => EbpfSectionKind::Undefined,
        }
    }
}

/// The kind that a name decides, if any.
fn decided(name: &str) -> Option<EbpfSectionKind>
    ensures { result ≡ kind_decided name.now }
{
    by_beginning(name).or_else(|| by_name(name))
}

fn by_beginning(name: &str) -> Option<EbpfSectionKind>
    ensures { result ≡ lookup (starts_with nat_eq name.now) kinds_by_beginning }
{
    if begins(name, "license") {
        Some(EbpfSectionKind::License)
    } else if begins(name, "version") {
        Some(EbpfSectionKind::Version)
    } else if begins(name, "maps") {
        Some(EbpfSectionKind::Maps)
    } else if begins(name, ".maps") {
        Some(EbpfSectionKind::BtfMaps)
    } else if begins(name, ".text") {
        Some(EbpfSectionKind::Text)
    } else if begins(name, ".bss") {
        Some(EbpfSectionKind::Bss)
    } else if begins(name, ".data") {
        Some(EbpfSectionKind::Data)
    } else if begins(name, ".rodata") {
        Some(EbpfSectionKind::Rodata)
    } else {
        None
    }
}

fn begins(name: &str, beginning: &str) -> bool
    ensures { result ≡ starts_with nat_eq name.now beginning.now }
{
    name.as_bytes().starts_with(beginning.as_bytes())
}

fn by_name(name: &str) -> Option<EbpfSectionKind>
    ensures { result ≡ lookup (bytes_eq name.now) kinds_by_name }
{
    match name {
        ".BTF" => Some(EbpfSectionKind::Btf),
        ".BTF.ext" => Some(EbpfSectionKind::BtfExt),
        _ => None,
    }
}
