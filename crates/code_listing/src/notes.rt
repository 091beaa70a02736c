//! Notes on instructions.

use crate::listed::ListedInstruction;
use crate::object_notes::ProgramNotes;
use crate::plan_names::{PlanNames, name_of};
use crate::printable::Printable;
use ebpf_items::bpf_insn;
use plan_copies::slot_after;
use plan_registers::ReachedSlots;
use plan_text::PlanProgram;
use report_checks::{MISSING_FUNCTION, POISON};
use report_needs::{Presence, SearchedKernel};
use std::alloc::{AllocError, Global};
use std::collections::BTreeMap;

/// What an instruction refers to.
#[derive(Clone, Copy)]
enum Reference {
    Nothing,
    /// The poison that a type relocation leaves.
    Poison,
    /// A weak function that the kernel lacks.
    MissingFunction,
    Helper { number: i32 },
    /// A function of the program, at a distance in slots.
    Function { distance: i32 },
    /// A function of the kernel, by the id of its type.
    KernelFunction { id: u32 },
    /// A variable of the kernel, by the id of its type.
    KernelVariable { id: u32 },
    Map { number: u32 },
    /// Another instruction of the program, at a distance in slots.
    Jump { distance: i32 },
    /// A number of 64 bits of 2^31 or more, as an address of the kernel is.
    Number { number: u64 },
}

/// The least number that has its hexadecimal form in a note.
const LEAST_HEXADECIMAL: u64 = 1 << 31;

/// What a call of a helper's number refers to.
fn helper_reference(number: i32) -> Reference {
    if number == POISON {
        Reference::Poison
    } else if number >= MISSING_FUNCTION {
        Reference::MissingFunction
    } else {
        Reference::Helper { number }
    }
}

/// What a call refers to.
fn call_reference(slot: bpf_insn) -> Reference {
    if slot.dst_reg() != 0 || slot.off != 0 {
        return Reference::Nothing;
    }
    match slot.src_reg() {
        0 => helper_reference(slot.imm),
        1 => Reference::Function { distance: slot.imm },
        2 => Reference::KernelFunction {
            id: slot.imm.cast_unsigned(),
        },
        _ => Reference::Nothing,
    }
}

/// What a 16-byte load of a number refers to.
fn number_reference(low: u32, high: u32) -> Reference {
    let number = u64::from(high) << 32 | u64::from(low);
    if number < LEAST_HEXADECIMAL {
        Reference::Nothing
    } else {
        Reference::Number { number }
    }
}

/// What a 16-byte load refers to.
fn load_reference(first: bpf_insn, second: bpf_insn) -> Reference {
    match first.src_reg() {
        0 => number_reference(first.imm.cast_unsigned(), second.imm.cast_unsigned()),
        1 | 2 => Reference::Map {
            number: first.imm.cast_unsigned(),
        },
        3 if second.imm == 0 => Reference::KernelVariable {
            id: first.imm.cast_unsigned(),
        },
        4 => Reference::Function {
            distance: first.imm,
        },
        _ => Reference::Nothing,
    }
}

/// Whether a code is that of a jump by the offset: `JA`, `JCOND`, or a comparison in the class JMP
/// or JMP32.
fn jumps_by_offset(code: u8) -> bool {
    match code {
        0x05 | 0xe5 => true,
        0x06 | 0x0d | 0x0e | 0x85 | 0x86 | 0x8d | 0x8e | 0x95 | 0x96 | 0x9d | 0x9e => false,
        0xe0..=0xff => false,
        _ => matches!(code % 8, 5 | 6),
    }
}

/// What an instruction of one slot refers to.
fn slot_reference(slot: bpf_insn) -> Reference {
    match slot.code {
        0x85 => call_reference(slot),
        0x06 => Reference::Jump { distance: slot.imm },
        code if jumps_by_offset(code) => Reference::Jump {
            distance: i32::from(slot.off),
        },
        _ => Reference::Nothing,
    }
}

fn reference_of(listed: &ListedInstruction) -> Reference {
    let first = listed.instruction.first;
    match listed.instruction.second {
        Some(second) => load_reference(first, second),
        // A slot that is no instruction of the standard.
        None if listed.text.starts_with(".byte ") => Reference::Nothing,
        None => slot_reference(first),
    }
}

/// Whether it counts if a run can reach an instruction.
fn wants_reach(listed: &ListedInstruction) -> bool {
    matches!(
        reference_of(listed),
        Reference::Poison | Reference::MissingFunction
    )
}

/// The slots of a program that a run can reach, where an instruction's note speaks of that.
pub(crate) fn wanted_reach(
    alloc: Global,
    names: &PlanNames<'_>,
    kernel: Option<&SearchedKernel<'_, '_>>,
    program: &PlanProgram<'_>,
    list: &[ListedInstruction],
) -> Result<Option<ReachedSlots>, AllocError> {
    if list.iter().any(wants_reach) {
        let code = names.code(alloc, kernel)?;
        Ok(Some(code.reach(alloc, program)?))
    } else {
        Ok(None)
    }
}

/// What the notes on a program's instructions are taken from.
pub(crate) struct NoteSources<'c, 'p, 'k, 'n, 'o> {
    pub(crate) names: &'c PlanNames<'p>,
    pub(crate) kernel: Option<&'c SearchedKernel<'k, 'n>>,
    /// The names of functions, by the slots at which they begin.
    pub(crate) functions: BTreeMap<usize, &'c str>,
    pub(crate) notes: Option<&'c ProgramNotes<'o>>,
    pub(crate) reach: Option<ReachedSlots>,
}

impl<'c, 'p, 'k, 'n, 'o> Drop for NoteSources<'c, 'p, 'k, 'n, 'o> {
    // One call wherever it is dropped, in place of one for each part.
    fn drop(self) {
        let NoteSources {
            names: _,
            kernel: _,
            functions: _functions,
            notes: _,
            reach: _reach,
        } = self;
    }
}

/// Begins one more part of a note.
fn begin_part(note: &mut String) -> Result<(), AllocError> {
    if note.is_empty() {
        return Ok(());
    }
    note.push_str("; ")
}

/// Appends one more part.
fn push_part(note: &mut String, part: &str) -> Result<(), AllocError> {
    begin_part(note)?;
    note.push_str(part)
}

/// Appends a word and a name.
fn push_named(note: &mut String, word: &str, name: Option<&str>) -> Result<(), AllocError> {
    let Some(name) = name else {
        return Ok(());
    };
    begin_part(note)?;
    write!(note, "{word}{}", Printable(name))
}

/// Appends the name that C programs call a helper by: `bpf_map_lookup_elem` for
/// `BPF_FUNC_map_lookup_elem`.
fn push_helper_name(note: &mut String, name: Option<&str>) -> Result<(), AllocError> {
    let Some(name) = name else {
        return Ok(());
    };
    match name.strip_prefix("BPF_FUNC_") {
        Some(rest) => push_named(note, "bpf_", Some(rest)),
        None => push_named(note, "", Some(name)),
    }
}

impl<'c, 'p, 'k, 'n, 'o> NoteSources<'c, 'p, 'k, 'n, 'o> {
    /// Appends what a call that no kernel takes is, and whether a run can reach it.
    fn push_reached(&self, note: &mut String, slot: usize, word: &str) -> Result<(), AllocError> {
        push_part(note, word)?;
        match &self.reach {
            Some(reach) if reach.is_reached(slot) => note.push_str(", a run can reach it"),
            Some(_) => note.push_str(", no run reaches it"),
            None => Ok(()),
        }
    }

    /// Appends the name of a helper, or that the kernel lacks it.
    fn push_helper(&self, note: &mut String, number: i32) -> Result<(), AllocError> {
        let Some(kernel) = self.kernel else {
            return Ok(());
        };
        match kernel.helper(number) {
            Presence::Found => push_helper_name(note, kernel.helper_name(number)),
            Presence::Missing => push_part(note, "the kernel lacks this helper"),
            Presence::Unknown => Ok(()),
        }
    }

    /// Appends the function of the program at a slot.
    fn push_function(&self, note: &mut String, at: Option<usize>) -> Result<(), AllocError> {
        let Some(at) = at else {
            return Ok(());
        };
        match self.functions.get(&at) {
            Some(name) => push_named(note, "function ", Some(name)),
            None => {
                begin_part(note)?;
                write!(note, "slot {at}")
            }
        }
    }

    /// Appends the slot to which a jump goes.
    fn push_target(
        &self,
        note: &mut String,
        slot: usize,
        target: Option<usize>,
    ) -> Result<(), AllocError> {
        let Some(target) = target else {
            return Ok(());
        };
        begin_part(note)?;
        let word = if target <= slot {
            "back to slot"
        } else {
            "slot"
        };
        write!(note, "{word} {target}")
    }

    /// Appends what the instruction in a slot refers to.
    fn push_reference(
        &self,
        note: &mut String,
        slot: usize,
        reference: Reference,
    ) -> Result<(), AllocError> {
        match reference {
            Reference::Nothing => Ok(()),
            Reference::Poison => self.push_reached(note, slot, "poison"),
            Reference::MissingFunction => {
                self.push_reached(note, slot, "weak function that the kernel lacks")
            }
            Reference::Helper { number } => self.push_helper(note, number),
            Reference::Function { distance } => {
                self.push_function(note, slot_after(slot, distance))
            }
            Reference::KernelFunction { id } => {
                push_named(note, "kernel function ", self.kernel_name(id))
            }
            Reference::KernelVariable { id } => {
                push_named(note, "kernel variable ", self.kernel_name(id))
            }
            Reference::Map { number } => push_named(note, "map ", self.names.map_name(number)),
            Reference::Jump { distance } => {
                self.push_target(note, slot, slot_after(slot, distance))
            }
            Reference::Number { number } => {
                begin_part(note)?;
                write!(note, "0x{number:x}")
            }
        }
    }

    /// The kernel's name for the type with an id.
    fn kernel_name(&self, id: u32) -> Option<&str> {
        match self.kernel {
            Some(kernel) => name_of(kernel.kernel(), id),
            None => None,
        }
    }

    /// What a type relocation of a slot asks for.
    fn asked(&self, slot: usize) -> Option<&str> {
        match self.notes?.asked.get(&slot) {
            Some(text) => Some(text),
            None => None,
        }
    }

    /// The name of the extern whose address a 16-byte load of a number has.
    fn extern_loaded(&self, listed: &ListedInstruction) -> Option<&str> {
        let instruction = listed.instruction;
        if instruction.second.is_none() || instruction.first.src_reg() != 0 {
            return None;
        }
        match self.notes?.externs.get(&listed.slot) {
            Some(name) => Some(name),
            None => None,
        }
    }

    /// The note on an instruction; empty where there is nothing to say.
    pub(crate) fn note(
        &self,
        alloc: Global,
        listed: &ListedInstruction,
    ) -> Result<String, AllocError> {
        let mut note = String::new(alloc);
        push_named(&mut note, "", self.asked(listed.slot))?;
        push_named(&mut note, "extern ", self.extern_loaded(listed))?;
        self.push_reference(&mut note, listed.slot, reference_of(listed))?;
        Ok(note)
    }
}
