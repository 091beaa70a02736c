//! The code of a plan's programs, as the verifier of a kernel sees it.

ghost use Rattle.std.specs.Prelude.{◌≡◌, ◌++◌, false, filter_map, map, IfOk, OnOk};
ghost use Rattle.std.specs.Option.{option_copied, option_map_or};
ghost use Rattle.plan_values.specs.Programs.{numbered};
ghost use Rattle.plan_registers.specs.Reach.{AreReached};
ghost use Rattle.report_checks.specs.Codes.{code_of, frozen_maps, global_slot, global_slots, has_helper, is_frozen, is_global, known_maps, lacks_helper, notes_calls, plan_code, verifier_of};

use btf_ext::{FuncSecInfo, bpf_func_info};
use btf_records::BtfKind;
use btf_tables::Btf;
use ebpf_items::bpf_insn;
use plan_registers::{FrozenMap, ProgramCode, ReachedSlots, Verifier, reach};
use plan_text::{PlanMap, PlanProgram};
use report_needs::{Presence, SearchedKernel};
use std::alloc::{AllocError, Global};
use std::marker::Model;

/// `bpf_redirect_map`, of Linux 4.14.
const REDIRECT_MAP: i32 = 51;

/// `bpf_override_return`, of Linux 4.16.
const OVERRIDE_RETURN: i32 = 58;

/// `bpf_get_stack`, of Linux 4.18.
const GET_STACK: i32 = 67;

/// `bpf_rc_pointer_rel`, of Linux 5.0.
const POINTER_RELEASE: i32 = 92;

/// `bpf_send_signal`, of Linux 5.3.
const SEND_SIGNAL: i32 = 109;

/// `bpf_ima_inode_hash`, of Linux 5.11.
const INODE_HASH: i32 = 161;

/// `bpf_kallsyms_lookup_name`, of Linux 5.16.
const SYMBOL_LOOKUP: i32 = 179;

/// `bpf_per_cpu_ptr`, of Linux 5.10.
const PER_CPU_POINTER: i32 = 153;

/// `bpf_ringbuf_output`, of Linux 5.8.
const RING_BUFFER_OUTPUT: i32 = 130;

/// `bpf_probe_read_kernel`, of Linux 5.5.
const PROBE_READ_KERNEL: i32 = 113;

/// `BPF_F_RDONLY_PROG`: programs can't write the map.
const READ_ONLY: u32 = 128;

/// The linkage of a global function (`BTF_FUNC_GLOBAL`).
const GLOBAL: usize = 1;

/// Whether a kernel is known to have a helper.
fn has_helper(kernel: Option<&SearchedKernel<'_, '_>>, helper: i32) -> bool
    ensures { result ≡ has_helper (option_copied kernel.entry) helper }
{
    match kernel {
        Some(kernel) => kernel.helper(helper) == Presence::Found,
        None => false,
    }
}

/// Whether a kernel is known not to have a helper.
fn lacks_helper(kernel: Option<&SearchedKernel<'_, '_>>, helper: i32) -> bool
    ensures { result ≡ lacks_helper (option_copied kernel.entry) helper }
{
    match kernel {
        Some(kernel) => kernel.helper(helper) == Presence::Missing,
        None => false,
    }
}

/// Whether a kernel is known to note which global functions are called (Linux 6.8).
fn notes_calls(alloc: Global, kernel: Option<&SearchedKernel<'_, '_>>) -> Result<bool, AllocError>
    ensures { IfOk result (λ notes. notes ≡ notes_calls (option_copied kernel.entry)) }
{
    match kernel {
        Some(kernel) => kernel.has_member(alloc, "bpf_func_info_aux", "called"),
        None => Ok(false),
    }
}

/// What the verifier of a kernel keeps track of, as far as the kernel's types tell its version. They
/// don't tell Linux 6.4, from which on the address of a kernel's function isn't 0.
fn verifier_of(
    alloc: Global,
    kernel: Option<&SearchedKernel<'_, '_>>,
) -> Result<Verifier, AllocError>
    ensures { IfOk result (λ verifier. verifier ≡ verifier_of (option_copied kernel.entry)) }
{
    let notes_calls = notes_calls(alloc, kernel)?;
    Ok(Verifier {
        comparisons: !lacks_helper(kernel, REDIRECT_MAP),
        unequal_numbers: !lacks_helper(kernel, OVERRIDE_RETURN),
        orders: has_helper(kernel, POINTER_RELEASE),
        two_registers: has_helper(kernel, SEND_SIGNAL),
        signed_equals: has_helper(kernel, INODE_HASH),
        stored_zeros: has_helper(kernel, OVERRIDE_RETURN),
        stored_numbers: has_helper(kernel, SEND_SIGNAL),
        stored_parts: has_helper(kernel, SYMBOL_LOOKUP),
        stored_immediates: notes_calls,
        low_moves: has_helper(kernel, POINTER_RELEASE),
        signed_shifts: has_helper(kernel, GET_STACK),
        low_signed_shifts: has_helper(kernel, PROBE_READ_KERNEL),
        wrapped_sums: has_helper(kernel, RING_BUFFER_OUTPUT),
        exclusive_or: has_helper(kernel, PER_CPU_POINTER),
        map_values: has_helper(kernel, RING_BUFFER_OUTPUT),
        functions: false,
        called_globals: notes_calls,
    })
}

/// Whether loaders freeze a map: it has bytes that programs can't write.
fn is_frozen(map: &PlanMap<'_>) -> bool
    ensures { result ≡ is_frozen map.now }
{
    map.words().map_flags & READ_ONLY != 0 && !map.contents().is_empty()
}

/// The maps that loaders freeze.
fn frozen_maps<'p>(alloc: Global, maps: &'p [PlanMap<'_>]) -> Result<Vec<FrozenMap<'p>>, AllocError>
    ensures { IfOk result (λ frozen. map numbered frozen.items ≡ frozen_maps maps.now) }
{
    let mut frozen = Vec::new(alloc);
    for map in maps {
        if is_frozen(map) {
            frozen.push(FrozenMap {
                number: map.number(),
                bytes: map.contents(),
            })?;
        }
    }
    Ok(frozen)
}

/// The maps whose bytes the verifier of a kernel knows: none before Linux 5.5.
fn known_maps<'p>(
    alloc: Global,
    kernel: Option<&SearchedKernel<'_, '_>>,
    maps: &'p [PlanMap<'_>],
) -> Result<Vec<FrozenMap<'p>>, AllocError>
    ensures { IfOk result (λ known.
        map numbered known.items ≡ known_maps (option_copied kernel.entry) maps.now) }
{
    if has_helper(kernel, PROBE_READ_KERNEL) {
        frozen_maps(alloc, maps)
    } else {
        Ok(Vec::new(alloc))
    }
}

/// Whether the type with an id is a global function.
fn is_global(types: &Btf<'_>, id: u32) -> bool
    ensures { result ≡ is_global types.now id }
{
    match types.type_by_id(id) {
        Ok(t) => t.kind() as u8 == BtfKind::Func as u8 && t.count() == GLOBAL,
        Err(_error) => false,
    }
}

/// The slot of a function's record, if the function is global.
fn global_slot(types: &Btf<'_>, function: bpf_func_info) -> Option<usize>
    ensures { result ≡ global_slot types.now function }
{
    if is_global(types, function.type_id) {
        Some(function.insn_off as usize)
    } else {
        None
    }
}

/// The slots at which the global functions of some records begin.
fn slots_of(
    alloc: Global,
    types: &Btf<'_>,
    functions: &FuncSecInfo<'_>,
) -> Result<Vec<usize>, AllocError>
    ensures { IfOk result (λ slots.
        slots.items ≡ filter_map (global_slot types.now) functions.now) }
{
    let mut slots = Vec::new(alloc);
    for index in 0..functions.num_info() {
        if let Some(function) = functions.get(index as usize) {
            if let Some(slot) = global_slot(types, function) {
                slots.push(slot)?;
            }
        }
    }
    Ok(slots)
}

/// The same; none where there are no types.
fn global_slots(
    alloc: Global,
    types: Option<&Btf<'_>>,
    functions: &FuncSecInfo<'_>,
) -> Result<Vec<usize>, AllocError>
    ensures { IfOk result (λ slots.
        slots.items ≡ global_slots (option_copied types.entry) functions.now) }
{
    match types {
        Some(types) => slots_of(alloc, types, functions),
        None => Ok(Vec::new(alloc)),
    }
}

/// The slots of a program, one after another.
fn slots_in(alloc: Global, program: &PlanProgram<'_>) -> Result<Vec<bpf_insn>, AllocError>
    ensures { IfOk result (λ slots. slots.items ≡ program.now.slots) }
{
    let mut slots = Vec::with_capacity(alloc, program.slots().len())?;
    program.slots().append_to(&mut slots)?;
    Ok(slots)
}

/// What the verifier of a kernel knows of the code of a plan's programs.
#[derive(Debug, Drop)]
pub struct PlanCode<'p> {
    verifier: Verifier,
    maps: Vec<FrozenMap<'p>>,
    types: Option<&'p Btf<'p>>,
}

impl<'p> Model for PlanCode<'p> {
    ghost use Rattle.std.specs.Prelude.{map};
    ghost use Rattle.std.specs.Option.{option_copied};
    ghost use Rattle.plan_values.specs.Programs.{numbered};
    ghost use Rattle.report_checks.specs.Codes.{KnownCode};

    ghost Value = { KnownCode };

    ghost view = { λ c.
        record {
          verifier = c.verifier;
          maps = map numbered c.maps.items;
          types = option_copied c.types;
        } };
}

impl<'p> PlanCode<'p> {
    /// What the verifier of a kernel knows of the code of a plan with these maps, whose programs
    /// are described by these types. It keeps track of as much as the kernel's types show that came
    /// with the version of Linux which began to do so, and of the least where no kernel is given. It
    /// knows the bytes of maps that programs can't write and that loaders freeze (Linux 5.5). It
    /// knows no argument of a global function.
    ///
    /// # Errors
    ///
    /// `AllocError` where memory runs out.
    pub fn new(
        alloc: Global,
        kernel: Option<&SearchedKernel<'_, '_>>,
        maps: &'p [PlanMap<'_>],
        types: Option<&'p Btf<'p>>,
    ) -> Result<PlanCode<'p>, AllocError>
        ensures { IfOk result (λ code.
            code ≡ plan_code (option_copied kernel.entry) maps.now (option_copied types.entry)) }
    {
        let verifier = verifier_of(alloc, kernel)?;
        let maps = known_maps(alloc, kernel, maps)?;
        Ok(PlanCode {
            verifier,
            maps,
            types,
        })
    }

    /// Finds the slots of a program that a run can reach.
    ///
    /// # Errors
    ///
    /// `AllocError` where memory runs out.
    pub fn reach(
        &self,
        alloc: Global,
        program: &PlanProgram<'_>,
    ) -> Result<ReachedSlots, AllocError>
        ensures { IfOk result (AreReached (code_of self.now program.now)) }
    {
        let slots = slots_in(alloc, program)?;
        let functions = global_slots(alloc, self.types, program.func_records())?;
        let code = ProgramCode {
            slots: slots.as_slice(),
            verifier: self.verifier,
            maps: self.maps.as_slice(),
            global_functions: functions.as_slice(),
        };
        reach(alloc, &code)
    }
}
