//! Maps of data sections.

ghost use Rattle.std.specs.Prelude.{◌≡◌, ◌≢◌, [], IfErr, IfOk, OnOk};
ghost use Rattle.ebpf_items.specs.declared.error.ParseError.TheVariants.{OutOfMemory};
ghost use Rattle.object_maps.specs.DataMaps.{data_contents, data_map_faults, data_map, flags_of_kind};
ghost use Rattle.object_maps.specs.Faults.{Says};
ghost use Rattle.object_maps.specs.Found.{entered};

use crate::maps::Maps;
use ebpf_items::{EbpfSectionKind, LegacyMap, Map, ParseError, PinningType, bpf_map_def};
use object_file::ReadSection;
use std::alloc::{AllocError, Global};

/// `BPF_MAP_TYPE_ARRAY`.
const ARRAY: u32 = 2;

/// The size of a key, which is an index, in bytes.
const INDEX_SIZE: u32 = 4;

/// `BPF_F_RDONLY_PROG`: programs can't write it.
const READ_ONLY: u32 = 128;

fn flags(kind: EbpfSectionKind) -> u32
    ensures { result ≡ flags_of_kind kind }
{
    match kind {
        EbpfSectionKind::Rodata => READ_ONLY,
        _ => 0,
    }
}

/// The initial bytes of the variables of a section.
fn contents(alloc: Global, section: &ReadSection<'_>) -> Result<Vec<u8>, AllocError>
    ensures { IfOk result (λ contents. contents.items ≡ data_contents section.now) }
{
    match section.kind() {
        EbpfSectionKind::Bss => vec![in alloc; 0u8; section.size() as usize],
        _ => Vec::from_slice(alloc, section.bytes()),
    }
}

impl<'a> Maps<'a> {
    /// Adds the map of a data section.
    #[tactic(auto, unfolding(crate::specs::Found::entered))]
    pub(crate) fn read_data_map(
        &mut self,
        alloc: Global,
        section: &ReadSection<'a>,
    ) -> Result<(), ParseError>
        ensures value { OnOk result (self.new ≡ entered self.old (data_map section.now)) }
        ensures accepted { OnOk result (data_map_faults section.now ≡ []) }
        ensures refused { IfErr result (λ e.
            e ≢ OutOfMemory → Says (data_map_faults section.now) e) }
    {
        let Ok(value_size) = u32::try_from(section.size()) else {
            return Err(ParseError::InvalidMapDefinition {
                name: String::from_str(alloc, section.name())?,
            });
        };
        let def = bpf_map_def {
            map_type: ARRAY,
            key_size: INDEX_SIZE,
            value_size,
            max_entries: 1,
            map_flags: flags(section.kind()),
            id: 0,
            pinning: PinningType::None,
        };
        let map = LegacyMap {
            def,
            inner_def: None,
            section_index: section.index(),
            section_kind: section.kind(),
            symbol_index: None,
            contents: contents(alloc, section)?,
        };
        self.insert(section.name(), Map::Legacy(map))?;
        Ok(())
    }
}
