//! Numbers fit the words of a plan's text, by their types. For the proof, each element of the lists
//! that are known only by what they hold is visited once.

ghost use Rattle.std.specs.Prelude.{◌≤◌, IfSome};
ghost use Rattle.std.specs.List.{All};
ghost use Rattle.std.specs.Option.{option_map};
ghost use Rattle.plan_lines.specs.Lines.{AreWithin, max_32, numbers_of, word_limits};
ghost use Rattle.plan_lines.specs.Words.{AreBytes};
ghost use Rattle.plan_text.specs.Content.{FitsFunc, FitsMap, FitsProgram, FitsSlot, FitsSource};

use crate::plan::{PlanMap, PlanProgram};
use btf_ext::{FuncSecInfo, LineSecInfo, bpf_func_info, bpf_line_info};
use ebpf_items::{Slots, bpf_insn};
use plan_lines::{MapWords, bytes_fit, words_fit};

pub(crate) fn inner_fits(inner: Option<MapWords>)
    ensures { IfSome inner (λ words. AreWithin word_limits (numbers_of words)) }
{
    if let Some(words) = inner {
        words_fit(words);
    }
}

fn slot_fits(slot: bpf_insn)
    ensures { FitsSlot slot }
{
    let bytes = slot.to_bytes();
    bytes_fit(&bytes);
}

/// Visits each slot.
pub(crate) fn slots_fit(slots: &Slots<'_>)
    ensures { All FitsSlot slots.now }
{
    for slot in slots.iter() {
        slot_fits(slot);
    }
}

fn func_fits(info: bpf_func_info)
    ensures { FitsFunc info }
{}

/// Visits each record.
pub(crate) fn funcs_fit(records: &FuncSecInfo<'_>)
    ensures { All FitsFunc records.now }
{
    let mut index = 0;
    while let Some(info) = records.get(index) {
        func_fits(info);
        index += 1;
    }
}

fn source_fits(info: bpf_line_info)
    ensures { FitsSource info }
{}

/// Visits each record.
pub(crate) fn sources_fit(records: &LineSecInfo<'_>)
    ensures { All FitsSource records.now }
{
    let mut index = 0;
    while let Some(info) = records.get(index) {
        source_fits(info);
        index += 1;
    }
}

pub(crate) fn version_fits(version: Option<u32>)
    ensures { IfSome version (λ v. v ≤ max_32) }
{
    match version {
        Some(_version) => {}
        None => {}
    }
}

pub(crate) fn type_bytes_fit(type_bytes: &Option<Vec<u8>>)
    ensures { IfSome (option_map (λ bytes. bytes.items) type_bytes.now) AreBytes }
{
    if let Some(bytes) = type_bytes {
        bytes_fit(bytes.as_slice());
    }
}

pub(crate) fn maps_fit(maps: &[PlanMap<'_>])
    ensures { All FitsMap maps.now }
{
    for map in maps {
        map.fits();
    }
}

pub(crate) fn programs_fit(programs: &[PlanProgram<'_>])
    ensures { All FitsProgram programs.now }
{
    for program in programs {
        program.fits();
    }
}
