//! Why a kernel doesn't take a program, and what isn't known of it.

ghost use Rattle.std.specs.Prelude.{◌≡◌, ◌++◌, map, IfOk, OnOk};
ghost use Rattle.std.specs.List.{list_any};
ghost use Rattle.report_checks.specs.Causes.{attach_is, call_cause, call_causes, causes_of, checks_attach_type, helper_is, helpers_are, is_presence, loads_map, map_causes, map_is, needs_of, flags_are, needs_types, target_is, unknowns_of, uses_types, when};
ghost use Rattle.report_checks.specs.declared.causes.ProgramCause.TheVariants.{Argument};

use crate::calls::{MISSING_FUNCTION, POISON};
use crate::reported_calls::HarmfulCall;
use ebpf_items::{Slots, bpf_insn};
use plan_text::{PlanMap, PlanProgram};
use program_kinds::ProgramSection;
use report_needs::{HelperNeed, Presence, ProgramNeeds, TargetNeed, is_attached_by_name};
use std::alloc::{AllocError, Global};

/// Why a kernel doesn't take a program. What isn't known of a kernel is such a cause if the kernel
/// lacks it.
#[derive(Clone, Copy, Debug, PartialEq, Eq)]
pub enum ProgramCause {
    /// A run can reach the call, and the kernel doesn't take it.
    Call(HarmfulCall),
    /// A run can reach a load of an argument that what the program is attached to doesn't have.
    Argument {
        /// The index of the load's slot in the program.
        slot: usize,
    },
    /// It lacks what the program is attached to by the name of its section.
    Target,
    /// It lacks the program's type.
    ProgramType,
    /// It lacks the program's attach type, whose number it checks.
    AttachType,
    /// It lacks the type of a map that the program uses.
    Map {
        /// The index of the map in the plan.
        index: usize,
    },
    /// It doesn't take the flags with which the program is loaded.
    Flags,
    /// It refuses the plan's types, which the program needs. This is always known.
    Types,
    /// It lacks helpers that the program calls. This is never a cause, since each such call is one.
    Helpers,
}

/// What a plan's programs need together.
#[derive(Clone, Copy)]
pub(crate) struct SharedNeeds<'p> {
    /// The plan's maps.
    pub(crate) maps: &'p [PlanMap<'p>],
    /// Whether a kernel has the type of each map.
    pub(crate) presences: &'p [Presence],
    /// Whether each kernel refuses the plan's types.
    pub(crate) are_types_refused: bool,
}

/// Whether the kernel checks the attach type when it loads a program of a kind
/// (`bpf_prog_load_check_attach` and `check_attach_btf_id`). It ignores that of other kinds.
pub fn checks_attach_type(kind: &ProgramSection) -> bool
    ensures { result ≡ checks_attach_type kind.now }
{
    match kind {
        ProgramSection::CgroupSkb { .. }
        | ProgramSection::CgroupSockAddr { .. }
        | ProgramSection::CgroupSockopt { .. }
        | ProgramSection::CgroupSock { .. }
        | ProgramSection::SkLookup
        | ProgramSection::Lsm { .. }
        | ProgramSection::LsmCgroup
        | ProgramSection::BtfTracePoint
        | ProgramSection::FEntry { .. }
        | ProgramSection::FExit { .. }
        | ProgramSection::Iter { .. } => true,
        _ => false,
    }
}

/// Whether it is this that is known of something.
fn is_presence(presence: Presence, wanted: Presence) -> bool
    ensures { result ≡ is_presence presence wanted }
{
    presence == wanted
}

/// Whether it is this that is known of what a program is attached to.
fn target_is(target: TargetNeed, wanted: Presence) -> bool
    ensures { result ≡ target_is target wanted }
{
    match target {
        TargetNeed::Missing => is_presence(Presence::Missing, wanted),
        TargetNeed::Unknown => is_presence(Presence::Unknown, wanted),
        TargetNeed::Found(_) => is_presence(Presence::Found, wanted),
        TargetNeed::NotNamed => false,
    }
}

/// Whether it is this that is known of an attach type that the kernel checks.
fn attach_is(kind: &ProgramSection, attach_type: Option<Presence>, wanted: Presence) -> bool
    ensures { result ≡ attach_is kind.now attach_type wanted }
{
    match attach_type {
        Some(presence) => is_presence(presence, wanted) && checks_attach_type(kind),
        None => false,
    }
}

/// Whether it is this that is known of the flags of a program.
fn flags_are(flags: Option<Presence>, wanted: Presence) -> bool
    ensures { result ≡ flags_are flags wanted }
{
    match flags {
        Some(presence) => is_presence(presence, wanted),
        None => false,
    }
}

/// Whether a number stands neither for poison nor for a missing function, and it is this that is
/// known of the helper.
fn helper_is(need: HelperNeed, wanted: Presence) -> bool
    ensures { result ≡ helper_is wanted need }
{
    need.number != POISON && need.number < MISSING_FUNCTION && is_presence(need.presence, wanted)
}

/// Whether it is this that is known of some of the helpers.
fn helpers_are(helpers: &[HelperNeed], wanted: Presence) -> bool
    ensures { result ≡ helpers_are helpers.now wanted }
{
    helpers.iter().any(|need| helper_is(*need, wanted))
}

/// Whether a slot loads the address of the map of a number, or of a value of it.
fn loads_map(number: u32, slot: bpf_insn) -> bool
    ensures { result ≡ loads_map number slot }
{
    slot.code == 0x18
        && (slot.src_reg() == 1 || slot.src_reg() == 2)
        && slot.imm.cast_unsigned() == number
}

/// Whether some slots use a map.
fn uses_map(slots: &Slots<'_>, number: u32) -> bool
    ensures { result ≡ list_any (loads_map number) slots.now }
{
    for slot in slots.iter() {
        if loads_map(number, slot) {
            return true;
        }
    }
    false
}

/// Whether some slots use the map at an index, and it is this that is known of its type.
fn map_is(
    maps: &[PlanMap<'_>],
    presences: &[Presence],
    slots: &Slots<'_>,
    wanted: Presence,
    index: usize,
) -> bool
    ensures { result ≡ map_is maps.now presences.now slots.now wanted index }
{
    match (maps.get(index), presences.get(index)) {
        (Some(map), Some(presence)) => {
            is_presence(*presence, wanted) && uses_map(slots, map.number())
        }
        _ => false,
    }
}

/// The cause that a call is, if a run can reach it.
fn call_cause(call: &HarmfulCall) -> Option<ProgramCause>
    ensures { result ≡ call_cause call.now }
{
    if call.is_reached {
        Some(ProgramCause::Call(*call))
    } else {
        None
    }
}

/// Adds the calls that a run can reach.
fn add_calls(causes: &mut Vec<ProgramCause>, calls: &[HarmfulCall]) -> Result<(), AllocError>
    ensures { OnOk result (causes.new.items ≡ causes.old.items ++ call_causes calls.now) }
{
    for call in calls {
        if let Some(cause) = call_cause(call) {
            causes.push(cause)?;
        }
    }
    Ok(())
}

/// Adds the loads of arguments that there aren't.
fn add_arguments(causes: &mut Vec<ProgramCause>, missing: &[usize]) -> Result<(), AllocError>
    ensures { OnOk result (causes.new.items ≡ causes.old.items ++ map Argument missing.now) }
{
    for slot in missing {
        causes.push(ProgramCause::Argument { slot: *slot })?;
    }
    Ok(())
}

/// Adds a cause, if it is one.
fn add_when(
    causes: &mut Vec<ProgramCause>,
    is_cause: bool,
    cause: ProgramCause,
) -> Result<(), AllocError>
    ensures { OnOk result (causes.new.items ≡ causes.old.items ++ when is_cause cause) }
{
    if is_cause {
        causes.push(cause)?;
    }
    Ok(())
}

/// Adds the maps that some slots use and of whose types this is known.
fn add_maps(
    causes: &mut Vec<ProgramCause>,
    maps: &[PlanMap<'_>],
    presences: &[Presence],
    slots: &Slots<'_>,
    wanted: Presence,
) -> Result<(), AllocError>
    ensures { OnOk result
        (causes.new.items
        ≡ causes.old.items ++ map_causes maps.now presences.now slots.now wanted) }
{
    for index in 0..maps.len() {
        let is_cause = map_is(maps, presences, slots, wanted, index);
        add_when(causes, is_cause, ProgramCause::Map { index })?;
    }
    Ok(())
}

/// Adds what a program needs, besides helpers, and of which this is known.
fn add_needs(
    causes: &mut Vec<ProgramCause>,
    program: &PlanProgram<'_>,
    needs: &ProgramNeeds,
    plan: SharedNeeds<'_>,
    wanted: Presence,
) -> Result<(), AllocError>
    ensures { OnOk result
        (causes.new.items
        ≡ causes.old.items
        ++ needs_of plan.entry.maps.now plan.entry.presences.now program.now needs.now wanted) }
{
    let has_attach = attach_is(program.section(), needs.attach_type, wanted);
    add_when(
        causes,
        target_is(needs.target, wanted),
        ProgramCause::Target,
    )?;
    add_when(
        causes,
        is_presence(needs.prog_type, wanted),
        ProgramCause::ProgramType,
    )?;
    add_when(causes, has_attach, ProgramCause::AttachType)?;
    let has_flags = flags_are(needs.flags, wanted);
    add_when(causes, has_flags, ProgramCause::Flags)?;
    add_maps(causes, plan.maps, plan.presences, program.slots(), wanted)
}

/// Whether a map has types of its keys or values, and some slots use it.
fn uses_types(slots: &Slots<'_>, map: &PlanMap<'_>) -> bool
    ensures { result ≡ uses_types slots.now map.now }
{
    let words = map.words();
    let has_types = words.btf_key_type_id != 0 || words.btf_value_type_id != 0;
    has_types && uses_map(slots, map.number())
}

/// Whether some slots use a map with types.
fn use_types(slots: &Slots<'_>, maps: &[PlanMap<'_>]) -> bool
    ensures { result ≡ list_any (uses_types slots.now) maps.now }
{
    maps.iter().any(|map| uses_types(slots, map))
}

/// Whether a program can't be loaded without the types of its object.
fn needs_types(program: &PlanProgram<'_>, maps: &[PlanMap<'_>]) -> bool
    ensures { result ≡ needs_types maps.now program.now }
{
    program.func_records().num_info() > 0
        || is_attached_by_name(program.section())
        || use_types(program.slots(), maps)
}

/// All causes for which a kernel doesn't take a program, given the calls that it doesn't take, the
/// slots that load arguments that there aren't, what it has of the program's needs, and what is known
/// of the plan.
pub(crate) fn causes_of(
    alloc: Global,
    program: &PlanProgram<'_>,
    calls: &[HarmfulCall],
    missing: &[usize],
    needs: &ProgramNeeds,
    plan: SharedNeeds<'_>,
) -> Result<Vec<ProgramCause>, AllocError>
    ensures { IfOk result (λ causes.
        causes.items
        ≡ causes_of plan.entry.maps.now plan.entry.presences.now plan.entry.are_types_refused program.now calls.now
        missing.now needs.now) }
{
    let lacks_types = plan.are_types_refused && needs_types(program, plan.maps);
    let mut causes = Vec::new(alloc);
    add_calls(&mut causes, calls)?;
    add_arguments(&mut causes, missing)?;
    add_when(&mut causes, lacks_types, ProgramCause::Types)?;
    add_needs(&mut causes, program, needs, plan, Presence::Missing)?;
    Ok(causes)
}

/// What isn't known of what a program needs, likewise.
pub(crate) fn unknowns_of(
    alloc: Global,
    program: &PlanProgram<'_>,
    needs: &ProgramNeeds,
    plan: SharedNeeds<'_>,
) -> Result<Vec<ProgramCause>, AllocError>
    ensures { IfOk result (λ unknowns.
        unknowns.items ≡ unknowns_of plan.entry.maps.now plan.entry.presences.now program.now needs.now) }
{
    let are_unknown = helpers_are(&needs.helpers, Presence::Unknown);
    let mut unknowns = Vec::new(alloc);
    add_when(&mut unknowns, are_unknown, ProgramCause::Helpers)?;
    add_needs(&mut unknowns, program, needs, plan, Presence::Unknown)?;
    Ok(unknowns)
}
