//! The names that a plan has for what its programs refer to.

use btf_records::{BtfError, Endianness};
use btf_tables::Btf;
use plan_text::{Plan, PlanMap, bpf_line_info};
use report_checks::{PlanCode, SourceLine, source_of};
use report_needs::SearchedKernel;
use std::alloc::{AllocError, Global};
use std::collections::BTreeMap;

/// The names that a plan has for what its programs refer to: those of its types and of its maps.
#[derive(Debug)]
pub struct PlanNames<'p> {
    types: Option<Btf<'p>>,
    maps: BTreeMap<u32, &'p str>,
    plan_maps: &'p [PlanMap<'p>],
}

impl<'p> Drop for PlanNames<'p> {
    // One call wherever it is dropped, in place of one for each part.
    fn drop(self) {
        let PlanNames {
            types: _types,
            maps: _maps,
            plan_maps: _,
        } = self;
    }
}

/// The byte order of types, by their magic.
fn order_of(bytes: &[u8]) -> Endianness {
    if bytes.starts_with(&[0xeb, 0x9f]) {
        Endianness::Big
    } else {
        Endianness::Little
    }
}

/// The types of these bytes; none where they can't be parsed.
fn parsed<'p>(alloc: Global, bytes: &'p [u8]) -> Result<Option<Btf<'p>>, AllocError> {
    match Btf::parse(alloc, bytes, order_of(bytes)) {
        Ok(types) => Ok(Some(types)),
        Err(BtfError::OutOfMemory) => Err(AllocError),
        Err(_error) => Ok(None),
    }
}

/// The types of a plan; none where it has none, and where they can't be parsed.
fn types_of<'p>(alloc: Global, plan: &'p Plan<'_>) -> Result<Option<Btf<'p>>, AllocError> {
    match plan.type_bytes() {
        Some(bytes) => parsed(alloc, bytes),
        None => Ok(None),
    }
}

/// The names of maps, by number. Of several maps of one number, the first by name counts.
fn maps_of<'p>(
    alloc: Global,
    maps: &'p [PlanMap<'_>],
) -> Result<BTreeMap<u32, &'p str>, AllocError> {
    let mut names = BTreeMap::new(alloc);
    for map in maps {
        if !names.contains_key(&map.number()) {
            names.insert(map.number(), map.name())?;
        }
    }
    Ok(names)
}

impl<'p> PlanNames<'p> {
    /// The names that a plan has.
    ///
    /// # Errors
    ///
    /// `AllocError` where memory runs out.
    pub fn of(alloc: Global, plan: &'p Plan<'p>) -> Result<PlanNames<'p>, AllocError> {
        Ok(PlanNames {
            types: types_of(alloc, plan)?,
            maps: maps_of(alloc, plan.maps())?,
            plan_maps: plan.maps(),
        })
    }

    /// What the verifier of a kernel knows of the code of the plan's programs.
    pub(crate) fn code(
        &self,
        alloc: Global,
        kernel: Option<&SearchedKernel<'_, '_>>,
    ) -> Result<PlanCode<'_>, AllocError> {
        PlanCode::new(alloc, kernel, self.plan_maps, self.types.as_ref())
    }

    /// Whether the plan has types that can be parsed.
    pub(crate) fn has_types(&self) -> bool {
        self.types.is_some()
    }

    /// The name of the map with a number.
    pub(crate) fn map_name(&self, number: u32) -> Option<&str> {
        match self.maps.get(&number) {
            Some(name) => Some(name),
            None => None,
        }
    }

    /// The source line of a record.
    pub(crate) fn source(&self, record: bpf_line_info) -> SourceLine<'_> {
        match &self.types {
            Some(types) => source_of(types, record),
            None => SourceLine {
                file: None,
                line: record.line_col >> 10,
                text: None,
            },
        }
    }

    /// The name of the type with an id, if it can be read.
    pub(crate) fn type_name(&self, id: u32) -> Option<&str> {
        match &self.types {
            Some(types) => name_of(types, id),
            None => None,
        }
    }
}

/// The name of the type with an id, if it has one that can be read.
pub(crate) fn name_of<'t>(types: &'t Btf<'_>, id: u32) -> Option<&'t str> {
    let Ok(t) = types.type_by_id(id) else {
        return None;
    };
    match types.string_at(t.name_offset()) {
        Ok("") => None,
        Ok(name) => Some(name),
        Err(_error) => None,
    }
}
