//! Names of kinds.

ghost use Rattle.std.specs.Prelude.{◌≡◌};
ghost use Rattle.object_text.specs.Lines.{kind_name, pinning_name};

use ebpf_object::{EbpfSectionKind, PinningType};

/// The name of a kind of section.
pub(crate) fn kind_name(kind: EbpfSectionKind) -> &'static str
    ensures { result.now ≡ kind_name kind }
{
    match kind {
        EbpfSectionKind::Undefined => "Undefined",
        EbpfSectionKind::Maps => "Maps",
        EbpfSectionKind::BtfMaps => "BtfMaps",
        EbpfSectionKind::Program => "Program",
        EbpfSectionKind::Data => "Data",
        EbpfSectionKind::Rodata => "Rodata",
        EbpfSectionKind::Bss => "Bss",
        EbpfSectionKind::Text => "Text",
        EbpfSectionKind::Btf => "Btf",
        EbpfSectionKind::BtfExt => "BtfExt",
        EbpfSectionKind::License => "License",
        EbpfSectionKind::Version => "Version",
    }
}

/// The name of a way of pinning.
pub(crate) fn pinning_name(pinning: PinningType) -> &'static str
    ensures { result.now ≡ pinning_name pinning }
{
    match pinning {
        PinningType::None => "None",
        PinningType::ByName => "ByName",
    }
}
